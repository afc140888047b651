//! What the command is run with: its words, its files, its peers and its keeper.

use crate::failing::{Failing, Kind};
use case_words::{Stop, cut, size_in, unescaped};
use ps_client_log::{Hashing, MemoryKeeper};
use ps_data::{Items, Text};
use ps_doors::Peer;
use ps_io::MemoryFile;
use std::alloc::Global;
use std::hash::RandomState;

// Room for all that a run sends to a peer.
const ROOM: usize = 65536;

// A peer, before it is asked.
#[derive(Drop)]
struct Answer {
    room: usize,
    bytes: Vec<u8>,
}

// A file of a name.
#[derive(Drop)]
struct Held {
    name: Text,
    bytes: Vec<u8>,
}

/// What the command is run with.
#[derive(Drop)]
pub struct Setting {
    words: Vec<Text>,
    files: Vec<Held>,
    answers: Vec<Answer>,
    // A seed that was drawn.
    keys: RandomState,
    /// The keeper of the run before.
    pub keeper: Option<MemoryKeeper>,
}

/// No words, no files, no peers, a keeper of nothing, and a seed that was drawn.
pub fn new_setting(alloc: Global, keys: RandomState) -> Setting {
    Setting {
        words: Vec::new(alloc),
        files: Vec::new(alloc),
        answers: Vec::new(alloc),
        keys,
        keeper: None,
    }
}

fn words_in(alloc: Global, rest: &str) -> Result<Vec<Text>, Stop> {
    let mut words = Vec::new(alloc);
    'words: for word in rest.split(' ') {
        let bytes = unescaped(alloc, word)?;
        words.push(Text::from_str(alloc, str::from_utf8(bytes.as_slice())?)?)?;
    }
    Ok(words)
}

// Puts a file before those of the same name.
fn put_file(alloc: Global, files: &mut Vec<Held>, name: &str, bytes: Vec<u8>) -> Result<(), Stop> {
    let name = Text::from_str(alloc, name)?;
    files.retain(|held| !held.name.equals(&name));
    files.push(Held { name, bytes })?;
    Ok(())
}

fn put_answer(alloc: Global, setting: &mut Setting, room: usize, text: &str) -> Result<(), Stop> {
    let bytes = unescaped(alloc, text)?;
    setting.answers.push(Answer { room, bytes })?;
    Ok(())
}

/// Sets what a line says.
pub fn take_word(alloc: Global, setting: &mut Setting, word: &str, rest: &str) -> Result<(), Stop> {
    match word {
        "words" => setting.words = words_in(alloc, rest)?,
        "file" => {
            let (name, text) = cut(rest);
            put_file(alloc, &mut setting.files, name, unescaped(alloc, text)?)?;
        }
        "peer" => {
            let (room, text) = cut(rest);
            put_answer(alloc, setting, size_in(room)?, text)?;
        }
        "answer" => put_answer(alloc, setting, ROOM, rest)?,
        "alone" => setting.leave(alloc),
        _ => Err("no such case")?,
    }
    Ok(())
}

impl Setting {
    /// The words.
    pub fn words(&self) -> &[Text] {
        self.words.as_slice()
    }

    /// How maps hash by the seed that was drawn.
    pub fn seeded(&self) -> Hashing {
        Hashing::Seeded(self.keys)
    }

    /// Copies of the files.
    pub fn files(&self, alloc: Global) -> Result<Items<MemoryFile>, Stop> {
        let mut files = Items::new(alloc);
        'files: for held in self.files.as_slice() {
            files.push(MemoryFile {
                name: held.name.copy(alloc)?,
                content: Items::from_vec(Vec::from_slice(alloc, held.bytes.as_slice())?),
            })?;
        }
        Ok(files)
    }

    /// The peers, of which a call may fail.
    pub fn peers(&self, alloc: Global, failing: Failing) -> Result<Items<Peer>, Stop> {
        let mut peers = Items::new(alloc);
        let mut peer = 0u64;
        'peers: for answer in self.answers.as_slice() {
            peer = peer.saturating_add(1);
            peers.push(Peer {
                bytes: Items::from_vec(Vec::from_slice(alloc, answer.bytes.as_slice())?),
                failing_reads: failing.of(alloc, Kind::Read { peer })?,
                room: answer.room,
                failing_writes: failing.of(alloc, Kind::Write { peer })?,
            })?;
        }
        Ok(peers)
    }

    /// The keeper of the run before, or one of nothing.
    pub fn take_keeper(&mut self, alloc: Global) -> MemoryKeeper {
        match self.keeper.take() {
            Some(keeper) => keeper,
            None => MemoryKeeper::new(alloc, Items::new(alloc)),
        }
    }

    /// Drops all peers.
    pub fn leave(&mut self, alloc: Global) {
        self.answers = Vec::new(alloc);
    }
}
