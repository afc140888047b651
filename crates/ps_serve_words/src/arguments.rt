//! The kinds of arguments that `serve` has.

ghost use Rattle.std.specs.Prelude.{◌≡◌, false, pos};
ghost use Rattle.clap.specs.Walk.{rule_of};
ghost use Rattle.clap.specs.declared.builder.value_parser.ValueParser.TheVariants as parsers;
ghost use Rattle.ps_serve_words.specs.Commands.{needed, choice, number, flag, with_thousand, with_none};

use clap::builder::ValueParser;
use clap::{Arg, ArgAction};
use std::alloc::Global;

/// An argument that has to be given: `--NAME TEXT`.
pub(crate) fn needed_text<'a>(alloc: Global, name: &'a str) -> Arg<'a>
    ensures rule { rule_of result ≡ needed name.now }
    ensures local { result.global ≡ false }
{
    Arg::new(alloc, name)
        .long(name)
        .action(ArgAction::Set)
        .required(true)
}

/// An argument that may be left out: `--NAME TEXT`.
pub(crate) fn some_text<'a>(alloc: Global, name: &'a str) -> Arg<'a>
    ensures rule { rule_of result ≡ choice name.now }
    ensures local { result.global ≡ false }
{
    Arg::new(alloc, name).long(name).action(ArgAction::Set)
}

// Numbers from 1 to 1,000,000.
fn million() -> ValueParser<'static>
    ensures { result ≡ parsers.Signed (pos 1) (pos 1000000) }
{
    clap::value_parser!(u32).range(1..=1000000)
}

/// An argument that may be left out: `--NAME N`, with N from 1 to 1,000,000.
pub(crate) fn some_number<'a>(alloc: Global, name: &'a str) -> Arg<'a>
    ensures rule { rule_of result ≡ number name.now }
    ensures local { result.global ≡ false }
{
    Arg::new(alloc, name)
        .long(name)
        .action(ArgAction::Set)
        .value_parser(million())
}

/// The same, which is 1,000 where it is left out.
pub(crate) fn thousand<'a>(alloc: Global, name: &'a str) -> Arg<'a>
    ensures rule { rule_of result ≡ with_thousand (number name.now) }
    ensures local { result.global ≡ false }
{
    some_number(alloc, name).default_value("1000")
}

// Numbers from 0 to 9223372036854775807.
fn count() -> ValueParser<'static>
    ensures { result ≡ parsers.Unsigned 0 9223372036854775807 }
{
    clap::value_parser!(u64).range(0..=9223372036854775807)
}

/// An argument that is 0 where it is left out: `--NAME N`, with N from 0 to 9223372036854775807.
pub(crate) fn none_yet<'a>(alloc: Global, name: &'a str) -> Arg<'a>
    ensures rule { rule_of result ≡ with_none name.now }
    ensures local { result.global ≡ false }
{
    Arg::new(alloc, name)
        .long(name)
        .action(ArgAction::Set)
        .value_parser(count())
        .default_value("0")
}

/// A flag: `--NAME`.
pub(crate) fn set_flag<'a>(alloc: Global, name: &'a str) -> Arg<'a>
    ensures rule { rule_of result ≡ flag name.now }
    ensures local { result.global ≡ false }
{
    Arg::new(alloc, name).long(name).action(ArgAction::SetTrue)
}
