//! What is known beside the world: what was fed and written, and what is due to a client.

use crate::stops::{Stop, expect};
use ps_data::{Items, Memory, Position};
use ps_definitions::Rules;
use ps_grant::{grants_of, rows_of, source_at};
use ps_rows::{Change, Shown, Transaction};
use ps_sql_eval::Asker;
use ps_store::Totals;
use std::alloc::Global;
use std::collections::VecDeque;

/// What came in a script.
#[derive(Clone, Copy)]
pub struct Marks {
    /// Whether a session gave up a checkpoint.
    pub gave_up: bool,
    /// Whether compaction passed one.
    pub passed: bool,
    /// Whether a bucket was removed from a client.
    pub removed: bool,
    /// Whether new rules came into force.
    pub switched: bool,
    /// How many checkpoints were applied.
    pub applied: u64,
    /// How many were held.
    pub held: u64,
}

/// What is known of a store.
#[derive(Drop)]
pub struct Beside {
    // The first rules, and those of each later generation.
    rules: Rules,
    next: Rules,
    // The generation that is being built, if one is.
    building: Option<u32>,
    /// The generation in force.
    pub force: u32,
    // The transactions that are not fed yet.
    left: VecDeque<Transaction>,
    // Those that are fed, uploads among them.
    fed: Vec<Transaction>,
    // How many changes are written.
    written: u64,
    /// The position of the checkpoint.
    pub checkpoint: Position,
    /// What came so far.
    pub marks: Marks,
    /// How many events came so far.
    pub events: u64,
}

fn queue_of(alloc: Global, transactions: &[Transaction]) -> Result<VecDeque<Transaction>, Stop> {
    let mut queue = VecDeque::new(alloc);
    'transactions: for transaction in transactions {
        queue.push_back(transaction.copy(alloc)?)?;
    }
    Ok(queue)
}

impl Beside {
    /// What is known before the first event.
    pub fn new(
        alloc: Global,
        rules: &Rules,
        next: &Rules,
        transactions: &[Transaction],
    ) -> Result<Beside, Stop> {
        let left = queue_of(alloc, transactions)?;
        let rules = rules.copy(alloc)?;
        let next = next.copy(alloc)?;
        Ok(Beside {
            rules,
            next,
            building: None,
            force: 1,
            left,
            fed: Vec::new(alloc),
            written: 0,
            checkpoint: Position(0),
            marks: Marks {
                gave_up: false,
                passed: false,
                removed: false,
                switched: false,
                applied: 0,
                held: 0,
            },
            events: 0,
        })
    }

    /// So many transactions were fed.
    pub fn feed(&mut self, count: u64) -> Result<(), Stop> {
        'transactions: for _ in 0..count {
            match self.left.pop_front() {
                Some(transaction) => self.fed.push(transaction)?,
                None => expect(false, "fed more than there is")?,
            }
        }
        Ok(())
    }

    /// A change was uploaded, at a position.
    pub fn upload(
        &mut self,
        alloc: Global,
        change: Change,
        position: Position,
    ) -> Result<(), Stop> {
        let mut changes = Items::new(alloc);
        changes.push(change)?;
        Ok(self.fed.push(Transaction { position, changes })?)
    }

    /// So many changes were written.
    pub fn write(&mut self, count: u32) {
        self.written = self.written.wrapping_add(u64::from(count));
    }

    // The position of the last transaction of which, and of all before which, every change is written.
    fn reached(&self) -> Position {
        let mut left = self.written;
        let mut reached = Position(0);
        'transactions: for transaction in self.fed.as_slice() {
            let count = transaction.changes.len() as u64;
            if left < count {
                return reached;
            }
            left -= count;
            reached = transaction.position;
        }
        reached
    }

    /// There is a checkpoint, at a position.
    pub fn commit(&mut self, position: Position) -> Result<(), Stop> {
        self.checkpoint = position;
        expect(
            position.0 == self.reached().0,
            "the checkpoint is at another position",
        )
    }

    /// No further transaction is written in whole.
    pub fn has_committed(&self) -> Result<(), Stop> {
        expect(
            self.checkpoint.0 == self.reached().0,
            "nothing was committed",
        )
    }

    /// A generation began.
    pub fn deploy(&mut self, generation: u32) -> Result<(), Stop> {
        expect(self.building.is_none(), "two generations are built")?;
        self.building = Some(generation);
        Ok(())
    }

    /// A generation is being built.
    pub fn is_building(&self) -> Result<(), Stop> {
        expect(self.building.is_some(), "no generation is built")
    }

    /// No generation is being built.
    pub fn builds_none(&self) -> Result<(), Stop> {
        expect(self.building.is_none(), "a generation is built")
    }

    /// The generation that was being built came into force, at a position.
    pub fn switch(&mut self, position: Position) -> Result<(), Stop> {
        match self.building {
            Some(generation) => self.force = generation,
            None => expect(false, "no generation was built")?,
        }
        self.building = None;
        self.marks.switched = true;
        self.commit(position)
    }

    /// The generation that was being built was dropped.
    pub fn abandon(&mut self, generation: u32) -> Result<(), Stop> {
        expect(
            self.building == Some(generation),
            "another generation was dropped",
        )?;
        self.building = None;
        Ok(())
    }

    // The rules of a generation.
    fn rules_of(&self, generation: u32) -> &Rules {
        if generation == 1 {
            &self.rules
        } else {
            &self.next
        }
    }

    /// The totals are those of what was fed and written.
    pub fn are_totals(&self, totals: &Totals) -> Result<(), Stop> {
        expect(
            totals.transactions == self.fed.len() as u64,
            "another number of transactions",
        )?;
        expect(
            totals.changes == u128::from(self.written),
            "another number of changes",
        )
    }

    /// The rows that are due to an asker at a position, by the rules of a generation.
    pub fn due(
        &self,
        alloc: Global,
        asker: &Asker,
        position: Position,
        generation: u32,
    ) -> Result<Items<Shown>, Memory> {
        let source = source_at(alloc, self.fed.as_slice(), position)?;
        let copies = grants_of(alloc, self.rules_of(generation), asker, &source)?;
        rows_of(alloc, copies.as_slice())
    }
}
