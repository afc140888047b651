//! The words of `sync`, read by `clap`.

ghost use Rattle.std.specs.Prelude.{◌≡◌, ◌≢◌, None, IfOk, false, map};
ghost use Rattle.clap.specs.Words.{app_of, first_value, found_of, kind_of, rule_of};
ghost use Rattle.ps_syncing.specs.Words.{named_in, option_of, store_in, sync_app, sync_of};

use clap::error::ErrorKind;
use clap::{Arg, ArgAction, ArgMatches, Command, Error};
use ps_data::{Memory, Text};
use std::alloc::Global;

/// What the words of `sync` name.
#[derive(Debug, Drop)]
pub struct Named {
    /// The service's address, a host and a port.
    pub address: Text,
    /// The file of the token.
    pub token_file: Text,
    /// The client's own id.
    pub client: Text,
    /// The file of changes to upload.
    pub upload: Option<Text>,
    /// The file of the client's storage.
    pub store: Option<Text>,
}

// An option `--NAME VALUE`.
fn option<'a>(alloc: Global, name: &'a str, required: bool) -> Arg<'a>
    ensures rule { rule_of result ≡ option_of name.entry.now required }
    ensures local { result.global ≡ false }
{
    Arg::new(alloc, name)
        .long(name)
        .action(ArgAction::Set)
        .required(required)
}

// The options of `sync`.
fn sync_command<'a>(alloc: Global) -> Result<Command<'a>, Memory>
    ensures { IfOk result (λ command. app_of command ≡ sync_app) }
{
    let command = Command::new(alloc, "sync")
        .arg(option(alloc, "connect", true))?
        .arg(option(alloc, "token-file", true))?
        .arg(option(alloc, "client-id", true))?
        .arg(option(alloc, "upload", false))?
        .arg(option(alloc, "store", false))?;
    Ok(command)
}

// The texts of words.
fn texts<'a>(alloc: Global, words: &'a [Text]) -> Result<Vec<&'a str>, Memory>
    ensures { IfOk result (λ texts. map (λ text. text.now) texts.items ≡ words.entry.now) }
{
    let mut texts = Vec::new(alloc);
    'words: for word in words {
        texts.push(word.as_str())?;
    }
    Ok(texts)
}

// The value of an option.
fn value(alloc: Global, matches: &ArgMatches<'_>, name: &str) -> Result<Option<Text>, Memory>
    ensures { IfOk result (λ value. value ≡ first_value (found_of matches.now) name.now) }
{
    match matches.get_str(name) {
        Some(text) => Ok(Some(Text::from_str(alloc, text)?)),
        None => Ok(None),
    }
}

// What matches name.
fn named_by(alloc: Global, matches: &ArgMatches<'_>) -> Result<Option<Named>, Memory>
    ensures { IfOk result (λ named. named ≡ named_in (found_of matches.now)) }
{
    let Some(address) = value(alloc, matches, "connect")? else {
        return Ok(None);
    };
    let Some(token_file) = value(alloc, matches, "token-file")? else {
        return Ok(None);
    };
    let Some(client) = value(alloc, matches, "client-id")? else {
        return Ok(None);
    };
    let upload = value(alloc, matches, "upload")?;
    let store = value(alloc, matches, "store")?;
    Ok(Some(Named {
        address,
        token_file,
        client,
        upload,
        store,
    }))
}

// Words that are refused, or for which there is no memory.
fn refused(error: &Error) -> Result<Option<Named>, Memory>
    ensures none { IfOk result (λ named. named ≡ None) }
    ensures cause { IfOk result (λ _. kind_of error.now ≢ ErrorKind.OutOfMemory) }
{
    match error.kind() {
        ErrorKind::OutOfMemory => Err(Memory),
        _ => Ok(None),
    }
}

/// What the words of `sync` name, of which the first is the command's own: `--connect`, `--token-file` and `--client-id`, which are required, and
/// `--upload` and `--store`. None exactly where `clap` refuses them.
pub fn read_words(alloc: Global, words: &[Text]) -> Result<Option<Named>, Memory>
    ensures { IfOk result (λ named. named ≡ sync_of words.now) }
{
    let texts = texts(alloc, words)?;
    let command = sync_command(alloc)?;
    match command.try_get_matches_from(texts.as_slice()) {
        Ok(matches) => named_by(alloc, &matches),
        Err(error) => refused(&error),
    }
}

/// The file that `--store` names among the words of `sync`, of which the first is the command's own. None where it is not named, and where `clap` refuses
/// the words.
pub fn store_of(alloc: Global, words: &[Text]) -> Result<Option<Text>, Memory>
    ensures { IfOk result (λ store. store ≡ store_in words.now) }
{
    match read_words(alloc, words)? {
        Some(named) => Ok(named.store),
        None => Ok(None),
    }
}
