//! What has changed from one taken value to another.

ghost use Rattle.std.specs.Prelude.{◌≡◌, map, IfOk};
ghost use Rattle.ps_session.specs.Takes.{NamesRise, same_bucket, same_buckets, same_number, is_unchanged, removed, updated, entry_of, diff_line};
ghost use Rattle.ps_session.specs.Matches.{match_of, is_as_found};

use crate::entries::entry_of;
use crate::matches::matches_among;
use ps_bucket_log::{Taken, TakenBucket};
use ps_data::{Items, Memory, Text};
use ps_lines::{Entry, Line};
use std::alloc::Global;

// Whether a bucket is as it was.
fn same_bucket(old: &TakenBucket, new: &TakenBucket) -> bool
    ensures { result ≡ same_bucket old.now new.now }
{
    old.name.equals(&new.name)
        && old.sum.0 == new.sum.0
        && old.count == new.count
        && old.newest.0 == new.newest.0
}

fn same_buckets(old: &[TakenBucket], new: &[TakenBucket]) -> bool
    ensures { result ≡ same_buckets old.now new.now }
{
    if old.len() != new.len() {
        return false;
    }
    'buckets: for (place, bucket) in old.iter().enumerate() {
        if !same_bucket(bucket, &new[place]) {
            return false;
        }
    }
    true
}

fn same_number(old: Option<u64>, new: Option<u64>) -> bool
    ensures { result ≡ same_number old new }
{
    match (old, new) {
        (None, None) => true,
        (Some(old), Some(new)) => old == new,
        (None, Some(_)) | (Some(_), None) => false,
    }
}

// Whether nothing that a line could tell has changed.
pub fn is_unchanged(old: &Taken, new: &Taken) -> bool
    ensures { result ≡ is_unchanged old.now new.now }
{
    old.last_op.0 == new.last_op.0
        && same_number(old.number, new.number)
        && same_buckets(old.buckets.as_slice(), new.buckets.as_slice())
}

// The names that are gone.
fn removed_names(
    alloc: Global,
    old: &[TakenBucket],
    new: &[TakenBucket],
) -> Result<Vec<Text>, Memory>
    requires before { NamesRise old.now }
    requires after { NamesRise new.now }
    ensures { IfOk result (λ names. names.items ≡ removed old.now new.now) }
{
    let matches = matches_among(alloc, old, new)?;
    let mut names = Vec::new(alloc);
    'buckets: for (place, bucket) in old.iter().enumerate() {
        if matches[place].is_none() {
            names.push(bucket.name.copy(alloc)?)?;
        }
    }
    Ok(names)
}

// Whether the bucket that stood there is as this one, if any stood there.
fn is_as(old: &[TakenBucket], found: Option<usize>, bucket: &TakenBucket) -> bool
    ensures { result ≡ is_as_found old.now found bucket.now }
{
    match found {
        None => false,
        Some(place) => match old.get(place) {
            None => false,
            Some(before) => same_bucket(before, bucket),
        },
    }
}

// The entries of the buckets that are new or have changed.
fn updated_entries(
    alloc: Global,
    old: &[TakenBucket],
    new: &[TakenBucket],
    matches: &[Option<usize>],
) -> Result<Vec<Entry>, Memory>
    requires { matches.now ≡ map (match_of old.now) new.now }
    ensures { IfOk result (λ entries. entries.items ≡ map entry_of (updated old.now new.now)) }
{
    let mut entries = Vec::new(alloc);
    'buckets: for (place, bucket) in new.iter().enumerate() {
        if !is_as(old, matches[place], bucket) {
            entries.push(entry_of(alloc, bucket)?)?;
        }
    }
    Ok(entries)
}

// The line of a checkpoint after another, given where its buckets stood in that.
pub fn diff_line(
    alloc: Global,
    old: &Taken,
    new: &Taken,
    matches: &[Option<usize>],
) -> Result<Line, Memory>
    requires before { NamesRise old.now.buckets }
    requires after { NamesRise new.now.buckets }
    requires matches { matches.now ≡ map (match_of old.now.buckets) new.now.buckets }
    ensures { IfOk result (λ line. line ≡ diff_line old.now new.now) }
{
    let before = old.buckets.as_slice();
    let after = new.buckets.as_slice();
    Ok(Line::Diff {
        last_op: new.last_op,
        number: new.number,
        removed: Items::from_vec(removed_names(alloc, before, after)?),
        updated: Items::from_vec(updated_entries(alloc, before, after, matches)?),
    })
}
