//! Which buckets of two taken values are the same, by one walk over both.

ghost use Rattle.std.specs.Prelude.{◌≡◌, ◌+◌, ◌≤◌, drop, map, length, IfOk};
ghost use Rattle.ps_session.specs.Takes.{NamesRise};
ghost use Rattle.ps_session.specs.Matches.{match_of, below_front, match_at};

use ps_bucket_log::TakenBucket;
use ps_data::{Memory, Text};
use std::alloc::Global;

// For each bucket the place of the bucket of its name among others. The names of both rise.
pub fn matches_among(
    alloc: Global,
    buckets: &[TakenBucket],
    others: &[TakenBucket],
) -> Result<Vec<Option<usize>>, Memory>
    requires these { NamesRise buckets.now }
    requires those { NamesRise others.now }
    ensures { IfOk result (λ found. found.items ≡ map (match_of others.now) buckets.now) }
{
    let mut found = Vec::with_capacity(alloc, buckets.len())?;
    let mut at = 0;
    'buckets: for bucket in buckets {
        at = first_not_below(others, at, &bucket.name);
        found.push(match_here(others, at, &bucket.name))?;
    }
    Ok(found)
}

// From a place on, the place of the first bucket whose name is not below the name.
fn first_not_below(others: &[TakenBucket], from: usize, name: &Text) -> usize
    requires { from ≤ length others.now }
    ensures front { result ≡ from + below_front name.now (drop from others.now) }
    ensures within { result ≤ length others.now }
{
    'others: for at in from..others.len() {
        if !others[at].name.cmp(name).is_lt() {
            return at;
        }
    }
    others.len()
}

// The place, where the bucket there has the name.
fn match_here(others: &[TakenBucket], at: usize, name: &Text) -> Option<usize>
    ensures { result ≡ match_at at name.now (drop at others.now) }
{
    if at < others.len() && name.equals(&others[at].name) {
        Some(at)
    } else {
        None
    }
}
