//! The rows of copies: of each object the latest copy.

ghost use Rattle.std.specs.Prelude.{◌≡◌, IfOk, OnOk, map};
ghost use Rattle.std.specs.FinMap.Entries.{find};
ghost use Rattle.ps_rows.specs.Source.{key_cmp};
ghost use Rattle.ps_granted.specs.Latest.{is_later as is_later_copy, is_superseded, kept, AreLatest, rows_of as rows_of_copies, shown_of};

use ps_data::{Items, Memory, Text};
use ps_granted::Granted;
use ps_rows::Shown;
use std::alloc::Global;
use std::collections::BTreeMap;

type Kept = BTreeMap<(Text, Text), Granted>;

/// The rows of copies, in the order of type and id: for each object the data of the copy with the greatest moment, which
/// is a position and a place in its transaction, and then the greatest number. Of copies that have both in common, which
/// are one copy wherever `grants_of` made them, the last one counts.
pub fn rows_of(alloc: Global, copies: &[Granted]) -> Result<Items<Shown>, Memory>
    ensures latest { IfOk result (AreLatest copies.now) }
    ensures computed { IfOk result (λ rows. rows ≡ rows_of_copies copies.now) }
{
    let mut rows = BTreeMap::new(alloc);
    'copies: for copy in copies {
        keep(alloc, &mut rows, copy)?;
    }
    shown(alloc, rows)
}

// Whether a copy is later than another one.
fn is_later(a: &Granted, b: &Granted) -> bool
    ensures { result ≡ is_later_copy a.now b.now }
{
    b.position.0 < a.position.0
        || (b.position.0 == a.position.0
            && (b.index < a.index || (b.index == a.index && b.number < a.number)))
}

// Keeps a copy, unless a later one of its object is kept.
fn keep(alloc: Global, rows: &mut Kept, copy: &Granted) -> Result<(), Memory>
    ensures { OnOk result (rows.new.entries ≡ kept rows.old.entries copy.now) }
{
    let object = (copy.kind.copy(alloc)?, copy.id.copy(alloc)?);
    if has_later(rows, &object, copy) {
        return Ok(());
    }
    rows.insert(object, copy.copy(alloc)?)?;
    Ok(())
}

// Whether a later copy of an object is kept.
fn has_later(rows: &Kept, object: &(Text, Text), copy: &Granted) -> bool
    ensures { result ≡ is_superseded (find key_cmp object.now rows.now.entries) copy.now }
{
    match rows.get(object) {
        Some(other) => is_later(other, copy),
        None => false,
    }
}

// What is kept, as rows.
fn shown(alloc: Global, rows: Kept) -> Result<Items<Shown>, Memory>
    ensures { IfOk result (λ all. all ≡ map shown_of rows.entries) }
{
    let mut all = Items::new(alloc);
    'rows: for ((kind, id), copy) in rows {
        all.push(Shown {
            kind,
            id,
            content: copy.content,
        })?;
    }
    Ok(all)
}
