//! The records of a journal.
ghost use Rattle.std.specs.Prelude.{◌≡◌, Some, IfOk, IfSome};
ghost use Rattle.ps_journal.specs.Records.{body_of, record_of, IsRecord};

use crate::{bodies, parsing};
use ps_changes::Change;
use ps_data::{Items, Memory, Position, Text};
use std::alloc::Global;

/// What a journal keeps: docs/FORMATS.md, "The journal".
#[derive(Debug, Drop)]
pub enum Record {
    /// Changes that were uploaded.
    Upload {
        /// The position that they were fed at, from 1 to 9223372036854775807.
        position: Position,
        /// The changes, in order. No table is empty.
        changes: Items<Change>,
    },
    /// A number of a write checkpoint.
    Number {
        /// The user who asked for it.
        user: Text,
        /// The client that it was made for.
        client: Text,
        /// The number, at most 9223372036854775807.
        number: u64,
        /// The head of the source at which it was made, at most 9223372036854775807.
        head: Position,
    },
}

impl Record {
    /// The bytes that a journal writes for it. They are read as this record again.
    pub fn body(&self, alloc: Global) -> Result<Vec<u8>, Memory>
        requires { IsRecord self.now }
        ensures value { IfOk result (λ body. body.items ≡ body_of self.now) }
        ensures read_again { IfOk result (λ body. record_of body.items ≡ Some self.now) }
    {
        match self {
            Record::Upload { position, changes } => bodies::of_upload(alloc, *position, changes),
            Record::Number {
                user,
                client,
                number,
                head,
            } => bodies::of_number(alloc, user, client, *number, *head),
        }
    }

    /// The record that these bytes stand for, None where they stand for none. It can be written again.
    pub fn read(alloc: Global, body: &[u8]) -> Result<Option<Record>, Memory>
        ensures value { IfOk result (λ found. found ≡ record_of body.now) }
        ensures valid { IfOk result (λ found. IfSome found IsRecord) }
    {
        parsing::record_of(alloc, body)
    }
}
