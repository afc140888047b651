//! The command `serve`.

ghost use Rattle.std.specs.Prelude.{◌≡◌, IfOk};
ghost use Rattle.clap.specs.Simple.{app_of};
ghost use Rattle.ps_serve_words.specs.Commands.{serve_app, with_texts, with_choices, with_paces, with_next};

use crate::arguments::{needed_text, none_yet, set_flag, some_number, some_text, thousand};
use clap::Command;
use std::alloc::{AllocError, Global};

// Adds the arguments that have to be given.
fn add_texts<'a>(alloc: Global, command: Command<'a>) -> Result<Command<'a>, AllocError>
    ensures { IfOk result (λ made. app_of made ≡ with_texts (app_of command.entry)) }
{
    command
        .arg(needed_text(alloc, "rules"))?
        .arg(needed_text(alloc, "changes"))?
        .arg(needed_text(alloc, "keys"))?
        .arg(needed_text(alloc, "listen"))
}

// Adds the arguments that have no value where they are left out.
fn add_choices<'a>(alloc: Global, command: Command<'a>) -> Result<Command<'a>, AllocError>
    ensures { IfOk result (λ made. app_of made ≡ with_choices (app_of command.entry)) }
{
    command
        .arg(some_number(alloc, "connections"))?
        .arg(set_flag(alloc, "until-drained"))
}

// Adds the arguments that are 1,000 where they are left out.
fn add_paces<'a>(alloc: Global, command: Command<'a>) -> Result<Command<'a>, AllocError>
    ensures { IfOk result (λ made. app_of made ≡ with_paces (app_of command.entry)) }
{
    command
        .arg(thousand(alloc, "batch"))?
        .arg(thousand(alloc, "compact-at"))
}

// Adds the arguments that say which rules come next.
fn add_next<'a>(alloc: Global, command: Command<'a>) -> Result<Command<'a>, AllocError>
    ensures { IfOk result (λ made. app_of made ≡ with_next (app_of command.entry)) }
{
    command
        .arg(some_text(alloc, "next"))?
        .arg(none_yet(alloc, "next-after"))
}

/// The command `serve`, which skips its first word.
#[tactic(auto, unfolding(crate::specs::Commands::serve_app))]
pub(crate) fn serve_command<'a>(alloc: Global) -> Result<Command<'a>, AllocError>
    ensures { IfOk result (λ made. app_of made ≡ serve_app) }
{
    let command = add_texts(alloc, Command::new(alloc, "serve"))?;
    let command = add_paces(alloc, add_choices(alloc, command)?)?;
    add_next(alloc, command)
}
