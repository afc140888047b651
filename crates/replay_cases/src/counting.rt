//! Many scripts, and what came in them.

use crate::chance::Chance;
use crate::kinds::Kind;
use crate::scripts::{Played, play_script};
use crate::stops::Stop;
use ps_definitions::Rules;
use ps_rules::read_rules;
use std::alloc::Global;

const RULES: &[u8] = b"bucket_definitions:
  all:
    data:
      - SELECT id, v FROM notes
  own:
    parameters: SELECT request.user_id() AS u
    data:
      - SELECT * FROM lists WHERE owner = bucket.u
  items:
    parameters: SELECT id AS l FROM lists WHERE owner = request.user_id()
    data:
      - SELECT * FROM todos WHERE list = bucket.l
      - SELECT v AS id, list FROM notes AS todos WHERE list = bucket.l
";

const NEXT: &[u8] = b"bucket_definitions:
  all:
    data:
      - SELECT id, list, v FROM notes
  own:
    parameters: SELECT request.user_id() AS u
    data:
      - SELECT id, upper(owner) AS owner FROM lists WHERE owner = bucket.u
  items:
    parameters: SELECT id AS l FROM lists WHERE owner = request.user_id()
    data:
      - SELECT id, n FROM todos WHERE list = bucket.l
";

// How many scripts there were, and in how many of them something came.
#[derive(Clone, Copy)]
struct Counts {
    scripts: u64,
    gave_up: u64,
    passed: u64,
    removed: u64,
    held: u64,
    switched: u64,
    applied: u64,
}

fn one_if(came: bool) -> u64 {
    if came { 1 } else { 0 }
}

impl Counts {
    fn count(&mut self, played: &Played) {
        let marks = played.marks;
        self.scripts = self.scripts.wrapping_add(1);
        self.gave_up = self.gave_up.wrapping_add(one_if(marks.gave_up));
        self.passed = self.passed.wrapping_add(one_if(marks.passed));
        self.removed = self.removed.wrapping_add(one_if(marks.removed));
        self.held = self.held.wrapping_add(one_if(0 < marks.held));
        self.switched = self.switched.wrapping_add(one_if(marks.switched));
        self.applied = self.applied.wrapping_add(marks.applied);
    }
}

fn write_stop(counts: &Counts, played: &Played, what: &str, out: &mut String) -> Result<(), Stop> {
    let (script, event) = (counts.scripts, played.events);
    Ok(write!(out, "script {script} event {event}: {what}")?)
}

fn write_counts(counts: &Counts, out: &mut String) -> Result<(), Stop> {
    let (scripts, gave_up, passed) = (counts.scripts, counts.gave_up, counts.passed);
    let (removed, held, switched) = (counts.removed, counts.held, counts.switched);
    let applied = counts.applied;
    write!(out, "scripts {scripts} given up {gave_up} passed {passed} ")?;
    Ok(write!(
        out,
        "removed {removed} held {held} switched {switched} applied {applied} agree"
    )?)
}

fn play_scripts(
    alloc: Global,
    rules: &Rules,
    next: &Rules,
    chance: &mut Chance,
    count: u64,
    kind: Kind,
    out: &mut String,
) -> Result<(), Stop> {
    let mut counts = Counts {
        scripts: 0,
        gave_up: 0,
        passed: 0,
        removed: 0,
        held: 0,
        switched: 0,
        applied: 0,
    };
    'scripts: for _ in 0..count {
        let played = play_script(alloc, rules, next, chance, kind)?;
        counts.count(&played);
        if let Some(what) = played.stopped {
            return write_stop(&counts, &played, what, out);
        }
    }
    write_counts(&counts, out)
}

/// Plays so many scripts that follow from a first number: SEED COUNT.
pub fn write_scripts(alloc: Global, words: &str, kind: Kind, out: &mut String) -> Result<(), Stop> {
    let (seed, count) = match words.split_once(' ') {
        Some(parts) => parts,
        None => return Err(Stop::Broken),
    };
    let rules = read_rules(alloc, RULES)?;
    let next = read_rules(alloc, NEXT)?;
    let mut chance = Chance::of(seed.parse::<u64>()?);
    play_scripts(
        alloc,
        &rules,
        &next,
        &mut chance,
        count.parse::<u64>()?,
        kind,
        out,
    )
}
