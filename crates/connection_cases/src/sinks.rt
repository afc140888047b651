//! A sink that changes the store between the writes of a connection.

ghost use Rattle.std.specs.Prelude.{◌≡◌};
ghost use Rattle.ps_lock.specs.Words.{IsSeatOf};

use crate::stores::change;
use case_words::{Stop, cut};
use ps_io::{Failed, Sink};
use ps_lock::{Seat, StoreLock};
use ps_workers::SharedStore;
use std::alloc::Global;
use std::sync::Wait;

/// A call that changes the store once a write was taken.
#[derive(Drop)]
pub struct Deed {
    /// The number of the write, from 1.
    pub write: u64,
    /// The call.
    pub line: String,
}

/// A sink with a seat of its own at the store's lock. Behind each write that it took it takes the turns that are to be taken then: where a connection
/// held its turn while it writes, these would never come.
#[derive(Drop)]
pub struct BusySink<'a, R, K> {
    rt: &'a R,
    alloc: Global,
    lock: &'a StoreLock<SharedStore>,
    seat: Seat<SharedStore>,
    deeds: &'a [Deed],
    sink: K,
    writes: u64,
    is_stopped: bool,
    ghost seated: { IsSeatOf lock.now seat },
}

// Makes the calls behind a write, each in a turn of its own.
fn do_behind<R: Wait>(
    rt: &R,
    alloc: Global,
    lock: &StoreLock<SharedStore>,
    seat: Seat<SharedStore>,
    deeds: &[Deed],
    write: u64,
) -> (Seat<SharedStore>, Result<(), Stop>)
    requires { IsSeatOf lock.now seat }
    ensures { IsSeatOf lock.now result.0 }
{
    let mut here = seat;
    'deeds: for deed in deeds {
        if deed.write != write {
            continue;
        }
        let (word, rest) = cut(deed.line.as_str());
        let (next, done) = change(rt, alloc, lock, here, word, rest);
        here = next;
        if done.is_err() {
            return (here, done);
        }
    }
    (here, Ok(()))
}

impl<'a, R, K> BusySink<'a, R, K> {
    /// Writes go to `sink`. The seat is one of the lock's.
    pub fn new(
        rt: &'a R,
        alloc: Global,
        lock: &'a StoreLock<SharedStore>,
        seat: Seat<SharedStore>,
        deeds: &'a [Deed],
        sink: K,
    ) -> BusySink<'a, R, K>
        requires { IsSeatOf lock.now seat }
    {
        BusySink {
            rt,
            alloc,
            lock,
            seat,
            deeds,
            sink,
            writes: 0,
            is_stopped: false,
        }
    }

    /// What writes went to, where each call was accepted.
    pub fn sink(&self) -> Result<&K, Stop> {
        if self.is_stopped {
            return Err(Stop);
        }
        Ok(&self.sink)
    }
}

impl<'a, R: Wait, K> BusySink<'a, R, K> {
    // One more write was taken.
    fn go_on(&mut self)
        ensures { self.new.sink ≡ self.old.sink }
    {
        self.writes = self.writes.saturating_add(1);
        let Ok(own) = self.lock.split(&mut self.seat) else {
            self.is_stopped = true;
            return;
        };
        let (own, done) = do_behind(self.rt, self.alloc, self.lock, own, self.deeds, self.writes);
        self.seat = own;
        if done.is_err() {
            self.is_stopped = true;
        }
    }
}

impl<'a, R: Wait, K: Sink> Sink for BusySink<'a, R, K> {
    ghost taken = { λ busy. K.taken busy.sink };

    ghost faults = { λ busy. K.faults busy.sink };

    ghost number = { λ busy. K.number busy.sink };

    fn write(&mut self, bytes: &[u8]) -> Result<(), Failed> {
        match self.sink.write(bytes) {
            Ok(()) => {
                self.go_on();
                Ok(())
            }
            Err(failed) => Err(failed),
        }
    }

    fn write_faults(&self) -> u64 {
        self.sink.write_faults()
    }
}
