//! Reading the words of `serve`.

ghost use Rattle.std.specs.Prelude.{◌≡◌, ◌≢◌, [], map, IfOk, MatchResult};
ghost use Rattle.clap.specs.Kinds.{HasKind, Kinds};
ghost use Rattle.ps_serve_words.specs.Words.{ReadsWords, BlamesWords};

use crate::commands::serve_command;
use crate::faults::WordsFault;
use crate::matches::words_of;
use crate::words::ServeWords;
use clap::Error;
use clap::error::ErrorKind;
use ps_data::{Memory, Text};
use std::alloc::Global;

// The words as string slices.
fn slices_of<'a>(alloc: Global, words: &'a [Text]) -> Result<Vec<&'a str>, Memory>
    ensures { IfOk result (λ slices. map (λ slice. slice.now) slices.items ≡ words.now) }
{
    let mut slices = Vec::with_capacity(alloc, words.len())?;
    'words: for word in words {
        slices.push(word.as_str())?;
    }
    Ok(slices)
}

// Why a parse gave no matches.
fn fault_of(error: &Error) -> WordsFault
    ensures { (kinds : Kinds) → HasKind kinds error.now → BlamesWords kinds result }
{
    match error.kind() {
        ErrorKind::OutOfMemory => WordsFault::Memory,
        _ => WordsFault::Refused,
    }
}

/// Reads the words of `serve`, the command's name among them: docs/FORMATS.md, "Commands". The command is one of clap, and its matches decide what
/// the words say. Fails with `Refused` exactly where clap refuses them for another cause than that it is out of memory.
pub fn read_serve_words(alloc: Global, words: &[Text]) -> Result<ServeWords, WordsFault>
    ensures { ReadsWords words.now result }
{
    let slices = slices_of(alloc, words)?;
    let command = serve_command(alloc)?;
    match command.try_get_matches_from(slices.as_slice()) {
        Ok(matches) => Ok(words_of(alloc, &matches)?),
        Err(error) => Err(fault_of(&error)),
    }
}
