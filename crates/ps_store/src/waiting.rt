//! Changes that are fed and not written.

ghost use Rattle.std.specs.Prelude.{◌≡◌, ◌≤◌, ◌-◌, ◌++◌, IfOk, length, take};
ghost use Rattle.std.specs.VecDeque.{deque_len, deque_capacity};
ghost use Rattle.ps_store.specs.Originals.{key_of};

use crate::rows::RowKey;
use ps_data::{Memory, Position};
use ps_rows::{Change, Row};
use std::alloc::Global;
use std::collections::VecDeque;
use std::marker::Model;

/// A change with its moment: the position of its transaction, and its place there.
#[derive(Drop)]
pub(crate) struct Waiting {
    position: Position,
    index: u64,
    change: Change,
}

impl Model for Waiting {
    ghost use Rattle.std.specs.Coded.{codes};
    ghost use Rattle.ps_store.specs.Originals.{Timed};

    ghost Value = { Timed };

    ghost coded = { Prim.hlevel codes };

    ghost view = { λ waiting. record { position = waiting.position.0; index = waiting.index; change = waiting.change } };
}

impl Waiting {
    /// The change at a place of a transaction. Takes no memory.
    pub(crate) fn new(position: Position, index: u64, change: Change) -> Waiting
        ensures position { result.position ≡ position.0 }
        ensures index { result.index ≡ index }
        ensures change { result.change ≡ change }
    {
        Waiting {
            position,
            index,
            change,
        }
    }

    /// The position of the transaction.
    pub(crate) fn position(&self) -> Position
        ensures { result.0 ≡ self.now.position }
    {
        self.position
    }

    /// The place in the transaction.
    pub(crate) fn index(&self) -> u64
        ensures { result ≡ self.now.index }
    {
        self.index
    }

    /// The change.
    pub(crate) fn change(&self) -> &Change
        ensures { result.now ≡ self.now.change }
    {
        &self.change
    }

    /// The change, taken out. Takes no memory.
    pub(crate) fn into_change(self) -> Change
        ensures { result ≡ self.change }
    {
        self.change
    }

    /// An equal change.
    pub(crate) fn copy(&self, alloc: Global) -> Result<Waiting, Memory>
        ensures { IfOk result (λ copy. copy ≡ self.now) }
    {
        let change = Change {
            table: self.change.table.copy(alloc)?,
            id: self.change.id.copy(alloc)?,
            row: self.row(alloc)?,
        };
        Ok(Waiting {
            position: self.position,
            index: self.index,
            change,
        })
    }

    /// The position of the transaction and the place there, to put changes in order. Takes no memory.
    pub(crate) fn moment(&self) -> (u64, u64)
        ensures position { result.0 ≡ self.now.position }
        ensures index { result.1 ≡ self.now.index }
    {
        (self.position.0, self.index)
    }

    /// The table and the id of the row.
    pub(crate) fn key(&self, alloc: Global) -> Result<RowKey, Memory>
        ensures { IfOk result (λ key. key ≡ key_of self.now) }
    {
        let table = self.change.table.copy(alloc)?;
        let id = self.change.id.copy(alloc)?;
        Ok((table, id))
    }

    /// An equal row, if the change leaves one.
    pub(crate) fn row(&self, alloc: Global) -> Result<Option<Row>, Memory>
        ensures { IfOk result (λ row. row ≡ self.now.change.row) }
    {
        match &self.change.row {
            Some(row) => Ok(Some(row.copy(alloc)?)),
            None => Ok(None),
        }
    }
}

/// Puts changes behind a queue, in room that is there. Takes no memory.
pub(crate) fn push_all(queue: &mut VecDeque<Waiting>, changes: Vec<Waiting>)
    requires { length changes.items ≤ deque_capacity queue.old - deque_len queue.old }
    ensures { queue.new.items ≡ queue.old.items ++ changes.items }
{
    let _count = changes.len();
    'changes: for waiting in changes {
        queue.push_back_reserved(waiting);
    }
}

/// Equal changes to the first ones of a queue.
pub(crate) fn copy_front(
    alloc: Global,
    queue: &VecDeque<Waiting>,
    count: usize,
) -> Result<Vec<Waiting>, Memory>
    requires { count ≤ length queue.now.items }
    ensures { IfOk result (λ copies. copies.items ≡ take count queue.now.items) }
{
    let mut copies = Vec::new(alloc);
    'changes: for place in 0..count {
        copies.push(queue[place].copy(alloc)?)?;
    }
    Ok(copies)
}
