//! The world that scripts are played on.

ghost use Rattle.ps_core.specs.Scripts.{AreLow};

use ps_core::{Effect, World};
use ps_data::Memory;
use ps_definitions::Rules;
use ps_rows::Transaction;
use ps_script::{ScriptEvent, ScriptFault};
use std::alloc::Global;
use std::marker::Model;

/// A world, which stands for what was played on it.
#[derive(Drop)]
pub struct Stage {
    world: World,
}

impl Model for Stage {
    ghost use Rattle.std.specs.Prelude.{Bool};
    ghost use Rattle.ps_core.specs.Worlds.{IsWorld};

    // Whether it has failed: no more of it is spoken of here.
    ghost Value = { Bool };

    ghost view = { λ stage. stage.world.failed };

    ghost invariant = { λ stage. IsWorld stage.world };
}

impl Stage {
    /// A world before its first event, whose deploys take the next rules.
    pub fn new(
        alloc: Global,
        rules: Rules,
        transactions: Vec<Transaction>,
        next: Rules,
    ) -> Result<Stage, Memory>
        requires { AreLow transactions.items }
    {
        let world = World::new(alloc, rules, transactions, Some(next))?;
        Ok(Stage { world })
    }

    /// Does an event.
    pub fn step(&mut self, alloc: Global, event: &ScriptEvent) -> Result<Effect, ScriptFault> {
        self.world.step(alloc, event)
    }
}
