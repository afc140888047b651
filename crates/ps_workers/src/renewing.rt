//! A writer's steps for new rules.

ghost use Rattle.std.specs.Prelude.{◌≡◌, ℕ, ◌≤◌, Option, Some, IsSome};
ghost use Rattle.ps_lock.specs.Words.{IsSeatOf, seen_by};
ghost use Rattle.ps_workers.specs.declared.shared.Terms.{Terms as TermsSeen};
ghost use Rattle.ps_workers.specs.declared.stages.NextRules.{NextRules as NextRulesSeen};
ghost use Rattle.ps_workers.specs.declared.stages.Stage.TheVariants as stages;
ghost use Rattle.ps_workers.specs.Renewing.{IsUnder, IsAtStage, WhenDue, stage_for, pace_for, past_deploy, past_build, past_switch, DeploysNext, BuildsNext, SwitchesNext, GoesOn};
ghost use Rattle.ps_workers.specs.Sharing.{terms_of, fixed_of};

use crate::ends::WorkEnd;
use crate::gates::Gate;
use crate::renewals::{build_in_turn, deploy_in_turn, switch_in_turn};
use crate::shared::SharedStore;
use crate::stages::{NextRules, Pace, Stage};
use crate::workplaces::{Passes, Workplace};
use ps_doors::Bell;
use ps_lock::Seat;
use ps_store::{BuildFault, Built, Checkpoint, DeployFault, SwitchFault};
use std::sync::Wait;

/// How a writer begins that has next rules, or none.
pub(crate) fn first_stage(next: Option<NextRules>) -> Stage
    ensures { result ≡ stage_for next }
{
    match next {
        Some(next) => Stage::Waiting(next),
        None => Stage::NoneToCome,
    }
}

/// The rules that are due when so many transactions are committed; the stage as it is, where none are.
pub(crate) fn when_due(stage: Stage, committed: u64) -> Result<NextRules, Stage>
    ensures { WhenDue stage committed result }
{
    match stage {
        Stage::Waiting(next) => {
            if next.after <= committed {
                Ok(next)
            } else {
                Err(Stage::Waiting(next))
            }
        }
        Stage::Building => Err(Stage::Building),
        Stage::NoneToCome => Err(Stage::NoneToCome),
    }
}

/// Whether it wrote a batch says whether there may be more.
pub(crate) fn pace_after(wrote: bool) -> Pace
    ensures { result ≡ pace_for wrote }
{
    if wrote { Pace::On } else { Pace::Rest }
}

// Deploys new rules. Those that were refused are left out.
fn deploy_next<R: Wait, G: Gate>(
    place: &Workplace<R>,
    passes: &mut Passes<G>,
    seat: Seat<SharedStore>,
    next: NextRules,
) -> (Seat<SharedStore>, Result<u32, DeployFault>)
    requires seat { IsSeatOf place.now.lock.now seat }
    requires next { (terms_of place.now.lock.now).next ≡ Some next.rules }
    ensures lock { IsSeatOf place.now.lock.now result.0 }
    ensures deploys { (batch : ℕ) → DeploysNext (fixed_of place.now.lock.now) next batch seat result.0 result.1 }
{
    ps_store::laws::ledgers_tell_ops();
    passes.pass();
    let NextRules { rules, after: _ } = next;
    deploy_in_turn(place.rt, place.alloc, place.lock, seat, rules)
}

// How the writer goes on after a deploy. What others began is built too, since nothing is drained before.
fn after_deploy(deployed: Result<u32, DeployFault>) -> (Stage, Pace)
    ensures { result ≡ past_deploy deployed }
{
    match deployed {
        Ok(_) | Err(DeployFault::Building { .. }) => (Stage::Building, Pace::On),
        Err(DeployFault::GenerationFull { .. }) => (Stage::NoneToCome, Pace::On),
        Err(DeployFault::Memory) => (Stage::NoneToCome, Pace::Over(WorkEnd::Memory)),
    }
}

/// Deploys new rules in one turn.
pub(crate) fn deploy_on<R: Wait, G: Gate>(
    place: &Workplace<R>,
    passes: &mut Passes<G>,
    seat: Seat<SharedStore>,
    next: NextRules,
) -> (Seat<SharedStore>, Stage, Pace)
    requires seat { IsSeatOf place.now.lock.now seat }
    requires next { (terms_of place.now.lock.now).next ≡ Some next.rules }
    ensures lock { IsSeatOf place.now.lock.now result.0 }
    ensures under { (terms : TermsSeen) → IsUnder terms result.1 }
    ensures goes_on { (batch : ℕ) → GoesOn (fixed_of place.now.lock.now) (Some next) batch seat result.0 result.1 result.2 }
{
    let (seat, deployed) = deploy_next(place, passes, seat, next);
    let (stage, pace) = after_deploy(deployed);
    (seat, stage, pace)
}

// Lets what is being built take a batch.
fn build_next<R: Wait, G: Gate>(
    place: &Workplace<R>,
    passes: &mut Passes<G>,
    seat: Seat<SharedStore>,
    batch: u32,
) -> (Seat<SharedStore>, Result<Built, BuildFault>)
    requires seat { IsSeatOf place.now.lock.now seat }
    requires some { 1 ≤ batch }
    requires limit { batch ≤ 1000000 }
    ensures lock { IsSeatOf place.now.lock.now result.0 }
    ensures builds { (next : Option NextRulesSeen) → IsSome next → BuildsNext (fixed_of place.now.lock.now) next batch seat result.0 result.1 }
{
    ps_store::laws::runs_are_the_longest();
    passes.pass();
    build_in_turn(place.rt, place.alloc, place.lock, seat, batch)
}

// How the writer goes on after a batch of what is being built: `Ok` where it has taken all, and may come into force.
fn after_build(built: Result<Built, BuildFault>) -> Result<(), (Stage, Pace)>
    ensures { result ≡ past_build built }
{
    match built {
        Ok(built) => {
            if 0 < built.left {
                Err((Stage::Building, Pace::On))
            } else {
                Ok(())
            }
        }
        Err(BuildFault::NothingBuilding) => Err((Stage::NoneToCome, Pace::On)),
        Err(BuildFault::NothingToBuild) => Ok(()),
        Err(BuildFault::TooWide { count, .. }) => {
            Err((Stage::Building, Pace::Over(WorkEnd::TooWide { count })))
        }
        Err(BuildFault::OpsFull { last }) => {
            Err((Stage::Building, Pace::Over(WorkEnd::OpsFull { last })))
        }
        Err(BuildFault::Memory) => Err((Stage::Building, Pace::Over(WorkEnd::Memory))),
    }
}

// Brings what is being built into force, and rings.
fn switch_next<R: Wait, G: Gate, B: Bell>(
    place: &Workplace<R>,
    passes: &mut Passes<G>,
    seat: Seat<SharedStore>,
    bell: &mut B,
) -> (Seat<SharedStore>, Result<Checkpoint, SwitchFault>)
    requires { IsSeatOf place.now.lock.now seat }
    ensures lock { IsSeatOf place.now.lock.now result.0 }
    ensures switches { (next : Option NextRulesSeen) (batch : ℕ) → IsSome next → SwitchesNext (fixed_of place.now.lock.now) next batch seat result.0 result.1 }
{
    passes.pass();
    let (seat, switched) = switch_in_turn(place.rt, place.lock, seat);
    if switched.is_ok() {
        bell.ring();
    }
    (seat, switched)
}

// How the writer goes on after a switch. One that was refused is tried again once more is written or built.
fn after_switch(switched: Result<Checkpoint, SwitchFault>, wrote: bool) -> (Stage, Pace)
    ensures { result ≡ past_switch switched wrote }
{
    match switched {
        Ok(_) | Err(SwitchFault::NothingBuilding) => (Stage::NoneToCome, Pace::On),
        Err(SwitchFault::NotBuilt { .. }) => (Stage::Building, Pace::On),
        Err(SwitchFault::HalfWritten { .. }) => (Stage::Building, pace_after(wrote)),
        Err(SwitchFault::OpsFull { last }) => {
            (Stage::Building, Pace::Over(WorkEnd::OpsFull { last }))
        }
    }
}

// Switches in one turn, where that is allowed.
fn switch_on<R: Wait, G: Gate, B: Bell>(
    place: &Workplace<R>,
    passes: &mut Passes<G>,
    seat: Seat<SharedStore>,
    wrote: bool,
    bell: &mut B,
) -> (Seat<SharedStore>, Stage, Pace)
    requires { IsSeatOf place.now.lock.now seat }
    ensures lock { IsSeatOf place.now.lock.now result.0 }
    ensures under { (terms : TermsSeen) → IsUnder terms result.1 }
    ensures goes_on { (next : Option NextRulesSeen) (batch : ℕ) → IsAtStage (fixed_of place.now.lock.now) next (seen_by seat) stages.Building
        → GoesOn (fixed_of place.now.lock.now) next batch seat result.0 result.1 result.2 }
{
    let (seat, switched) = switch_next(place, passes, seat, bell);
    let (stage, pace) = after_switch(switched, wrote);
    (seat, stage, pace)
}

/// Lets what is being built take a batch in one turn. Where it has taken all, it comes into force in the next one, if that is allowed.
pub(crate) fn build_on<R: Wait, G: Gate, B: Bell>(
    place: &Workplace<R>,
    passes: &mut Passes<G>,
    seat: Seat<SharedStore>,
    wrote: bool,
    batch: u32,
    bell: &mut B,
) -> (Seat<SharedStore>, Stage, Pace)
    requires seat { IsSeatOf place.now.lock.now seat }
    requires some { 1 ≤ batch }
    requires limit { batch ≤ 1000000 }
    ensures lock { IsSeatOf place.now.lock.now result.0 }
    ensures under { (terms : TermsSeen) → IsUnder terms result.1 }
    ensures goes_on { (next : Option NextRulesSeen) → IsAtStage (fixed_of place.now.lock.now) next (seen_by seat) stages.Building
        → GoesOn (fixed_of place.now.lock.now) next batch seat result.0 result.1 result.2 }
{
    let (seat, built) = build_next(place, passes, seat, batch);
    match after_build(built) {
        Ok(()) => switch_on(place, passes, seat, wrote, bell),
        Err((stage, pace)) => (seat, stage, pace),
    }
}
