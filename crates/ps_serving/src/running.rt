//! The writer, the compactor and the connections of a service, side by side.

ghost use Rattle.std.specs.Prelude.{◌≡◌, false};
ghost use mathlib.Core.List.{IsPrefix};
ghost use Rattle.ps_lock.specs.Words.{IsSeatOf, seen_by};
ghost use Rattle.ps_connections.specs.Taken.{HasTaken};
ghost use Rattle.ps_serve_words.specs.Words.{IsInMillion};
ghost use Rattle.ps_workers.specs.Sharing.{fixed_of, terms_of};
ghost use Rattle.ps_workers.specs.Renewing.{AreNext};
ghost use Rattle.ps_serving.specs.Running.{WroteTo, ServesUpTo, none_taken};

use crate::begun::{ToCompact, ToWrite, finish};
use crate::ends::Ends;
use core::thread::Stack;
use ps_connections::{Ended, Hears, Service, Stop, serve_connections};
use ps_doors::{Bell, Doors};
use ps_io::{Clock, Sink, Source};
use ps_lock::{Seat, StoreLock};
use ps_sockets::{Rings, RungBell};
use ps_workers::{
    NextRules, OpenGate, SharedStore, WorkEnd, close_in_turn, compact_all, feed_and_write,
};
use std::alloc::Global;
use std::snapshot::Snapshot;
use std::sync::Wait;
use std::thread::{Scope, Threads};
use std::{thread, time};

/// What the threads of a service begin with.
#[derive(Drop)]
pub(crate) struct Starts {
    /// The seat of the loop that takes connections.
    pub(crate) connections: Seat<SharedStore>,
    /// The writer's seat.
    pub(crate) writer: Seat<SharedStore>,
    /// The rules that the writer deploys, if there are any.
    pub(crate) next: Option<NextRules>,
    /// The compactor's seat.
    pub(crate) compactor: Seat<SharedStore>,
}

/// How much the threads of a service do at once.
#[derive(Clone, Copy)]
pub(crate) struct Pace {
    /// How many connections are taken at most.
    pub(crate) most: u64,
    /// How many changes are written in one turn at most.
    pub(crate) batch: u32,
    /// How many operations a bucket gets until it is compacted again.
    pub(crate) compact_at: u32,
}

// Writes what is fed, and brings the next rules into force, until a change is refused or all is written that will ever be.
fn write<R: Wait + time::Clock>(
    rt: &R,
    alloc: Global,
    lock: &StoreLock<SharedStore>,
    rings: &Rings,
    seat: Seat<SharedStore>,
    batch: u32,
    next: Option<NextRules>,
) -> (Seat<SharedStore>, WorkEnd)
    requires seat { IsSeatOf lock.now seat }
    requires batch { IsInMillion batch }
    requires next { AreNext (terms_of lock.now) next }
    ensures lock { IsSeatOf lock.now result.0 }
    ensures wrote { WroteTo (fixed_of lock.now) next (seen_by seat) (seen_by result.0) result.1 }
{
    let mut bell = RungBell::new(rt, rings);
    let nothing = Vec::new(alloc);
    feed_and_write(
        rt, alloc, lock, seat, nothing, batch, &OpenGate, &mut bell, next,
    )
}

// Compacts buckets that have grown by so many operations, until the store is drained.
fn compact<R: Wait + time::Clock>(
    rt: &R,
    alloc: Global,
    lock: &StoreLock<SharedStore>,
    rings: &Rings,
    seat: Seat<SharedStore>,
    at: u32,
) -> (Seat<SharedStore>, WorkEnd)
    requires { IsSeatOf lock.now seat }
    ensures { IsSeatOf lock.now result.0 }
{
    let mut bell = RungBell::new(rt, rings);
    compact_all(rt, alloc, lock, seat, u64::from(at), &OpenGate, &mut bell)
}

// Closes the feed, where that was not done, and rings: the writer waits for it.
fn close_behind<R: Wait + time::Clock, C>(
    service: &Service<R, C>,
    seat: Seat<SharedStore>,
) -> Seat<SharedStore>
    requires { IsSeatOf service.now.lock.now seat }
    ensures lock { IsSeatOf service.now.lock.now result }
    ensures saw { IsPrefix (seen_by seat) (seen_by result) }
{
    let seat = if service.site.until_drained {
        seat
    } else {
        close_in_turn(service.rt, service.lock, seat)
    };
    service.bell.another().ring();
    seat
}

// Serves the connections, and closes the feed behind the last one.
fn take<
    R: Wait + time::Clock + Threads + Sync + Hears,
    S: Source + Send + Drop,
    K: Sink + Send + Drop,
    C: Clock + Sync,
    D: Doors<In = S, Out = K> + Drop,
>(
    service: &Service<R, C>,
    seat: Seat<SharedStore>,
    doors: D,
    most: u64,
) -> (Seat<SharedStore>, D, Ended)
    requires { IsSeatOf service.now.lock.now seat }
    ensures lock { IsSeatOf service.now.lock.now result.0 }
    ensures saw { IsPrefix (seen_by seat) (seen_by result.0) }
    ensures place { D.place result.1 ≡ D.place doors }
    ensures taken { HasTaken most (D.opened doors) (D.opened result.1) (D.coming doors) (D.coming result.1)
        (D.faults doors) (D.faults result.1) result.2.stop result.2.connections }
    ensures served { ServesUpTo (fixed_of service.now.lock.now) service.now.site.now (C.may_give service.now.clock.now) (seen_by seat) (seen_by result.0)
        (D.opened doors) (D.closed doors) (D.closed result.1) result.2 }
{
    let (seat, doors, ended) = serve_connections(service, seat, doors, most);
    let seat = close_behind(service, seat);
    (seat, doors, ended)
}

// Takes no connection, for out of memory, and closes the feed.
fn take_none<R: Wait + time::Clock, C>(
    service: &Service<R, C>,
    seat: Seat<SharedStore>,
) -> (Seat<SharedStore>, Ended)
    requires { IsSeatOf service.now.lock.now seat }
    ensures lock { IsSeatOf service.now.lock.now result.0 }
    ensures saw { IsPrefix (seen_by seat) (seen_by result.0) }
    ensures none { result.1 ≡ none_taken }
{
    let seat = close_behind(service, seat);
    let ended = Ended {
        stop: Stop::NoRoom,
        connections: 0,
        out_of_memory: false,
    };
    (seat, ended)
}

// The compactor in a thread of a scope, beside the loop that takes connections. Where no thread can be made it compacts behind the loop, which never waits for it.
fn take_beside<
    's,
    E,
    R: Wait + time::Clock + Threads + Sync + Hears,
    S: Source + Send + Drop,
    K: Sink + Send + Drop,
    C: Clock + Sync,
    D: Doors<In = S, Out = K> + Drop,
>(
    scope: &'s Scope<'s, E>,
    service: &'s Service<'s, R, C>,
    rings: &'s Rings,
    seats: (Seat<SharedStore>, Seat<SharedStore>),
    doors: D,
    pace: Pace,
) -> ((Seat<SharedStore>, WorkEnd), (Seat<SharedStore>, D, Ended))
    requires connections { IsSeatOf service.now.lock.now seats.0 }
    requires compactor { IsSeatOf service.now.lock.now seats.1 }
    ensures compactor { IsSeatOf service.now.lock.now result.0.0 }
    ensures connections { IsSeatOf service.now.lock.now result.1.0 }
    ensures saw { IsPrefix (seen_by seats.0) (seen_by result.1.0) }
    ensures place { D.place result.1.1 ≡ D.place doors }
    ensures taken { HasTaken pace.most (D.opened doors) (D.opened result.1.1) (D.coming doors) (D.coming result.1.1)
        (D.faults doors) (D.faults result.1.1) result.1.2.stop result.1.2.connections }
    ensures served { ServesUpTo (fixed_of service.now.lock.now) service.now.site.now (C.may_give service.now.clock.now)
        (seen_by seats.0) (seen_by result.1.0) (D.opened doors) (D.closed doors) (D.closed result.1.1) result.1.2 }
{
    let (connections, compactor) = seats;
    let rt = service.rt;
    let alloc = service.alloc;
    let lock = service.lock;
    let at = pace.compact_at;
    let to_compact = ToCompact {
        lock: Snapshot::of(lock),
    };
    let compacting = move || -> (Seat<SharedStore>, WorkEnd)
        requires { IsSeatOf lock.now compactor }
        ensures { IsSeatOf lock.entry.now result.0 }
    { compact(rt, alloc, lock, rings, compactor, at) };
    let begun = Stack::new()
        .stack_size(service.stack)
        .spawn_scoped_with(scope, to_compact, compacting);
    let taken = take(service, connections, doors, pace.most);
    (finish(rt, begun), taken)
}

// The connections and the compactor beside a writer, where it has a thread. Where none can be made for it no connection is taken, and nothing is compacted: it waits
// until the feed is closed, and connections wait for what it writes.
fn take_if_written<
    's,
    E,
    R: Wait + time::Clock + Threads + Sync + Hears,
    S: Source + Send + Drop,
    K: Sink + Send + Drop,
    C: Clock + Sync,
    D: Doors<In = S, Out = K> + Drop,
>(
    scope: &'s Scope<'s, E>,
    service: &'s Service<'s, R, C>,
    rings: &'s Rings,
    has_writer: bool,
    seats: (Seat<SharedStore>, Seat<SharedStore>),
    doors: D,
    pace: Pace,
) -> ((Seat<SharedStore>, WorkEnd), (Seat<SharedStore>, D, Ended))
    requires connections { IsSeatOf service.now.lock.now seats.0 }
    requires compactor { IsSeatOf service.now.lock.now seats.1 }
    ensures compactor { IsSeatOf service.now.lock.now result.0.0 }
    ensures connections { IsSeatOf service.now.lock.now result.1.0 }
    ensures saw { IsPrefix (seen_by seats.0) (seen_by result.1.0) }
    ensures place { D.place result.1.1 ≡ D.place doors }
    ensures none { has_writer ≡ false → D.opened result.1.1 ≡ D.opened doors }
    ensures taken { HasTaken pace.most (D.opened doors) (D.opened result.1.1) (D.coming doors) (D.coming result.1.1)
        (D.faults doors) (D.faults result.1.1) result.1.2.stop result.1.2.connections }
    ensures served { ServesUpTo (fixed_of service.now.lock.now) service.now.site.now (C.may_give service.now.clock.now)
        (seen_by seats.0) (seen_by result.1.0) (D.opened doors) (D.closed doors) (D.closed result.1.1) result.1.2 }
{
    if has_writer {
        return take_beside(scope, service, rings, seats, doors, pace);
    }
    let (connections, compactor) = seats;
    let (seat, ended) = take_none(service, connections);
    ((compactor, WorkEnd::Stopped), (seat, doors, ended))
}

// The writer in a thread of a scope, beside the compactor and the loop that takes connections; and whether it has one. Where no thread can be made for it it writes
// behind the loop, which has taken no connection then.
fn run_beside<
    's,
    E,
    R: Wait + time::Clock + Threads + Sync + Hears,
    S: Source + Send + Drop,
    K: Sink + Send + Drop,
    C: Clock + Sync,
    D: Doors<In = S, Out = K> + Drop,
>(
    scope: &'s Scope<'s, E>,
    service: &'s Service<'s, R, C>,
    rings: &'s Rings,
    starts: Starts,
    doors: D,
    pace: Pace,
) -> (
    bool,
    (Seat<SharedStore>, WorkEnd),
    ((Seat<SharedStore>, WorkEnd), (Seat<SharedStore>, D, Ended)),
)
    requires connections { IsSeatOf service.now.lock.now starts.connections }
    requires writer { IsSeatOf service.now.lock.now starts.writer }
    requires compactor { IsSeatOf service.now.lock.now starts.compactor }
    requires batch { IsInMillion pace.batch }
    requires next { AreNext (terms_of service.now.lock.now) starts.next }
    ensures writer { IsSeatOf service.now.lock.now result.1.0 }
    ensures wrote { WroteTo (fixed_of service.now.lock.now) starts.next (seen_by starts.writer) (seen_by result.1.0) result.1.1 }
    ensures compactor { IsSeatOf service.now.lock.now result.2.0.0 }
    ensures connections { IsSeatOf service.now.lock.now result.2.1.0 }
    ensures saw { IsPrefix (seen_by starts.connections) (seen_by result.2.1.0) }
    ensures place { D.place result.2.1.1 ≡ D.place doors }
    ensures none { result.0 ≡ false → D.opened result.2.1.1 ≡ D.opened doors }
    ensures taken { HasTaken pace.most (D.opened doors) (D.opened result.2.1.1) (D.coming doors) (D.coming result.2.1.1)
        (D.faults doors) (D.faults result.2.1.1) result.2.1.2.stop result.2.1.2.connections }
    ensures served { ServesUpTo (fixed_of service.now.lock.now) service.now.site.now (C.may_give service.now.clock.now)
        (seen_by starts.connections) (seen_by result.2.1.0) (D.opened doors) (D.closed doors) (D.closed result.2.1.1) result.2.1.2 }
{
    let Starts {
        connections,
        writer,
        next,
        compactor,
    } = starts;
    let rt = service.rt;
    let alloc = service.alloc;
    let lock = service.lock;
    let batch = pace.batch;
    let to_write = ToWrite {
        lock: Snapshot::of(lock),
        seat: Snapshot::of(&writer),
        next: Snapshot::of(&next),
    };
    let writing = move || -> (Seat<SharedStore>, WorkEnd)
        requires seat { IsSeatOf lock.now writer }
        requires batch { IsInMillion batch }
        requires next { AreNext (terms_of lock.now) next }
        ensures lock { IsSeatOf lock.entry.now result.0 }
        ensures wrote { WroteTo (fixed_of lock.entry.now) next (seen_by writer) (seen_by result.0) result.1 }
    { write(rt, alloc, lock, rings, writer, batch, next) };
    let begun = Stack::new()
        .stack_size(service.stack)
        .spawn_scoped_with(scope, to_write, writing);
    let has_writer = begun.is_ok();
    let seats = (connections, compactor);
    let beside = take_if_written(scope, service, rings, has_writer, seats, doors, pace);
    (has_writer, finish(rt, begun), beside)
}

// The writer, the compactor and the loop.
fn run_threads<
    R: Wait + time::Clock + Threads + Sync + Hears,
    S: Source + Send + Drop,
    K: Sink + Send + Drop,
    C: Clock + Sync,
    D: Doors<In = S, Out = K> + Drop,
>(
    service: &Service<R, C>,
    rings: &Rings,
    starts: Starts,
    doors: D,
    pace: Pace,
) -> (
    bool,
    (Seat<SharedStore>, WorkEnd),
    ((Seat<SharedStore>, WorkEnd), (Seat<SharedStore>, D, Ended)),
)
    requires connections { IsSeatOf service.now.lock.now starts.connections }
    requires writer { IsSeatOf service.now.lock.now starts.writer }
    requires compactor { IsSeatOf service.now.lock.now starts.compactor }
    requires batch { IsInMillion pace.batch }
    requires next { AreNext (terms_of service.now.lock.now) starts.next }
    ensures writer { IsSeatOf service.now.lock.now result.1.0 }
    ensures wrote { WroteTo (fixed_of service.now.lock.now) starts.next (seen_by starts.writer) (seen_by result.1.0) result.1.1 }
    ensures compactor { IsSeatOf service.now.lock.now result.2.0.0 }
    ensures connections { IsSeatOf service.now.lock.now result.2.1.0 }
    ensures saw { IsPrefix (seen_by starts.connections) (seen_by result.2.1.0) }
    ensures place { D.place result.2.1.1 ≡ D.place doors }
    ensures none { result.0 ≡ false → D.opened result.2.1.1 ≡ D.opened doors }
    ensures taken { HasTaken pace.most (D.opened doors) (D.opened result.2.1.1) (D.coming doors) (D.coming result.2.1.1)
        (D.faults doors) (D.faults result.2.1.1) result.2.1.2.stop result.2.1.2.connections }
    ensures served { ServesUpTo (fixed_of service.now.lock.now) service.now.site.now (C.may_give service.now.clock.now)
        (seen_by starts.connections) (seen_by result.2.1.0) (D.opened doors) (D.closed doors) (D.closed result.2.1.1) result.2.1.2 }
{
    thread::scope(
        thread::scope_env(),
        service.rt,
        move |scope| -> (
            bool,
            (Seat<SharedStore>, WorkEnd),
            ((Seat<SharedStore>, WorkEnd), (Seat<SharedStore>, D, Ended)),
        )
            requires connections { IsSeatOf service.now.lock.now starts.connections }
            requires writer { IsSeatOf service.now.lock.now starts.writer }
            requires compactor { IsSeatOf service.now.lock.now starts.compactor }
            requires batch { IsInMillion pace.batch }
            requires next { AreNext (terms_of service.now.lock.now) starts.next }
            ensures writer { IsSeatOf service.entry.now.lock.now result.1.0 }
            ensures wrote { WroteTo (fixed_of service.entry.now.lock.now) starts.next (seen_by starts.writer) (seen_by result.1.0) result.1.1 }
            ensures compactor { IsSeatOf service.entry.now.lock.now result.2.0.0 }
            ensures connections { IsSeatOf service.entry.now.lock.now result.2.1.0 }
            ensures saw { IsPrefix (seen_by starts.connections) (seen_by result.2.1.0) }
            ensures place { D.place result.2.1.1 ≡ D.place doors }
            ensures none { result.0 ≡ false → D.opened result.2.1.1 ≡ D.opened doors }
            ensures taken { HasTaken pace.most (D.opened doors) (D.opened result.2.1.1) (D.coming doors) (D.coming result.2.1.1)
                (D.faults doors) (D.faults result.2.1.1) result.2.1.2.stop result.2.1.2.connections }
            ensures served { ServesUpTo (fixed_of service.entry.now.lock.now) service.entry.now.site.now (C.may_give service.entry.now.clock.now)
                (seen_by starts.connections) (seen_by result.2.1.0) (D.opened doors) (D.closed doors) (D.closed result.2.1.1) result.2.1.2 }
        { run_beside(scope, service, rings, starts, doors, pace) },
    )
}

/// Runs the writer, the compactor and the loop that takes connections, and gives back the seat of all three. It waits for them.
pub(crate) fn run_all<
    R: Wait + time::Clock + Threads + Sync + Hears,
    S: Source + Send + Drop,
    K: Sink + Send + Drop,
    C: Clock + Sync,
    D: Doors<In = S, Out = K> + Drop,
>(
    service: &Service<R, C>,
    rings: &Rings,
    starts: Starts,
    doors: D,
    pace: Pace,
) -> (Seat<SharedStore>, D, Ends)
    requires connections { IsSeatOf service.now.lock.now starts.connections }
    requires writer { IsSeatOf service.now.lock.now starts.writer }
    requires compactor { IsSeatOf service.now.lock.now starts.compactor }
    requires batch { IsInMillion pace.batch }
    requires next { AreNext (terms_of service.now.lock.now) starts.next }
    ensures lock { IsSeatOf service.now.lock.now result.0 }
    ensures wrote { WroteTo (fixed_of service.now.lock.now) starts.next (seen_by starts.writer) (seen_by result.0) result.2.writer }
    ensures saw { IsPrefix (seen_by starts.connections) (seen_by result.0) }
    ensures place { D.place result.1 ≡ D.place doors }
    ensures none { result.2.has_writer ≡ false → D.opened result.1 ≡ D.opened doors }
    ensures taken { HasTaken pace.most (D.opened doors) (D.opened result.1) (D.coming doors) (D.coming result.1)
        (D.faults doors) (D.faults result.1) result.2.connections.stop result.2.connections.connections }
    ensures served { ServesUpTo (fixed_of service.now.lock.now) service.now.site.now (C.may_give service.now.clock.now)
        (seen_by starts.connections) (seen_by result.0) (D.opened doors) (D.closed doors) (D.closed result.1) result.2.connections }
{
    let (has_writer, (written, writer), ((compacted, compactor), (mut seat, doors, connections))) =
        run_threads(service, rings, starts, doors, pace);
    service.lock.join_in(&mut seat, written);
    service.lock.join_in(&mut seat, compacted);
    let ends = Ends {
        has_writer,
        writer,
        compactor,
        connections,
    };
    (seat, doors, ends)
}
