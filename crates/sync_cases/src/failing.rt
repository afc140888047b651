//! Which call of the outside fails.

use case_words::{Stop, cut, number_in};
use ps_data::{Items, Memory};
use std::alloc::Global;

/// A kind of calls.
#[derive(Clone, Copy, Debug, PartialEq, Eq)]
pub enum Kind {
    /// Reads of files.
    File,
    /// Connections that are made.
    Connect,
    /// Loads and commits of the keeper.
    Keep,
    /// Writes of the output.
    Out,
    /// Writes of standard error.
    Err,
    /// Reads from the peer of that number.
    Read {
        /// The number, from 1.
        peer: u64,
    },
    /// Writes to the peer of that number.
    Write {
        /// The number, from 1.
        peer: u64,
    },
}

/// The call that is to fail.
#[derive(Clone, Copy, Debug, PartialEq, Eq)]
pub struct Failing {
    /// Its kind.
    pub kind: Kind,
    /// Its number, from 1; 0 for none.
    pub call: u64,
}

impl Failing {
    /// The numbers of the calls of a kind that fail.
    pub fn of(self, alloc: Global, kind: Kind) -> Result<Items<u64>, Memory> {
        let mut calls = Items::new(alloc);
        if self.kind == kind && self.call > 0 {
            calls.push(self.call)?;
        }
        Ok(calls)
    }
}

/// The kind that words name.
pub fn kind_in(words: &str) -> Result<Kind, Stop> {
    let (word, rest) = cut(words);
    match word {
        "file" => Ok(Kind::File),
        "connect" => Ok(Kind::Connect),
        "keep" => Ok(Kind::Keep),
        "out" => Ok(Kind::Out),
        "err" => Ok(Kind::Err),
        "read" => Ok(Kind::Read {
            peer: number_in(rest)?,
        }),
        "write" => Ok(Kind::Write {
            peer: number_in(rest)?,
        }),
        _ => Err("no such kind".into()),
    }
}
