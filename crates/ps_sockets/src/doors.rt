//! Sockets that listen, as doors.

ghost use Rattle.std.specs.Prelude.{◌≡◌, None, IfSome};
ghost use Rattle.ps_doors.specs.Connections.{AreEnds};

use crate::accepting::{Next, WHILE, next_after, next_after_lost};
use crate::{TcpSink, TcpSource};
use ps_data::Text;
use ps_doors::Doors;
use ps_io::{Failed, Sink, Source};
use std::net::{Net, OpenListener, OpenStream, TcpListener};
use std::time::{Clock, Duration};
use std::{io, thread};

/// How long a write may stall, in seconds.
pub(crate) const STALL: u64 = 60;

// Of each so many bytes of a request, which is as many as a head may have, the last one has to be there after so many seconds.
const PART_BYTES: u64 = 16384;

const PART_SECONDS: u64 = 30;

/// A socket that listens. Of what passes through it nothing is told.
#[derive(Drop)]
pub struct TcpDoors<R: Net + Clock + Copy + Drop> {
    rt: R,
    listener: Option<R::Listener>,
    opened: u64,
    faults: u64,
}

// Both ends of a socket: what is sent goes out at once, and a write that stalls for too long fails.
pub(crate) fn both_ends<T: OpenStream + Drop>(stream: T) -> io::Result<(T, T)> {
    stream.set_nodelay(true)?;
    stream.set_write_timeout(Some(Duration::from_secs(STALL)))?;
    let other = stream.try_clone()?;
    Ok((stream, other))
}

// Accepts a connection, or says what to do instead.
fn try_accept<L: OpenListener>(listener: &L) -> Result<(L::Stream, L::Stream), Next>
where
    L::Stream: OpenStream,
{
    match listener.accept() {
        Ok((stream, _)) => both_ends(stream).map_err(|error| next_after_lost(&error)),
        Err(error) => Err(next_after(&error)),
    }
}

// The next connection; none where an error says that none comes any more.
fn accept<L: OpenListener, C: Clock>(listener: &L, clock: &C) -> Option<(L::Stream, L::Stream)>
where
    L::Stream: OpenStream,
{
    'tries: for _ in 0..u64::MAX {
        match try_accept(listener) {
            Ok(ends) => return Some(ends),
            Err(Next::AtOnce) => {}
            Err(Next::Later) => thread::sleep(clock, Duration::from_millis(WHILE)),
            Err(Next::Never) => return None,
        }
    }
    None
}

impl<R: Net + Clock + Copy + Drop> TcpDoors<R> {
    /// Doors that do not listen yet.
    pub fn new(rt: R) -> TcpDoors<R>
        ensures opened { ⟦<TcpDoors<R> as Doors>⟧.opened result ≡ 0 }
        ensures faults { ⟦<TcpDoors<R> as Doors>⟧.faults result ≡ 0 }
    {
        TcpDoors {
            rt,
            listener: None,
            opened: 0,
            faults: 0,
        }
    }

    /// The port at which they listen.
    pub fn port(&self) -> Option<u16> {
        let listener = self.listener.as_ref()?;
        Some(listener.local_addr().ok()?.port())
    }

    // The ends of the next connection, of that number; none where they do not listen or none comes any more.
    fn next_ends(&self, number: u64) -> Option<(TcpSource<R::Stream, R>, TcpSink<R::Stream>)>
        ensures { IfSome result (λ c. AreEnds
            ⟦<TcpSource<R::Stream, R> as Source>⟧ ⟦<TcpSink<R::Stream> as Sink>⟧ number c.0 c.1) }
    {
        let (from, to) = accept(self.listener.as_ref()?, &self.rt)?;
        let from = TcpSource::new(self.rt, from, number, PART_SECONDS, PART_BYTES);
        Some((from, TcpSink::new(to, number)))
    }
}

impl<R: Net + Clock + Copy + Drop> Doors for TcpDoors<R> {
    type In = TcpSource<R::Stream, R>;

    type Out = TcpSink<R::Stream>;

    ghost opened = { λ doors. doors.opened };

    ghost coming = { λ _. None };

    ghost closed = { λ _. None };

    ghost faults = { λ doors. doors.faults };

    fn listen(&mut self, address: &Text) -> Result<(), Failed> {
        match TcpListener::bind(&self.rt, address.as_str()) {
            Ok(listener) => {
                self.listener = Some(listener);
                Ok(())
            }
            Err(_) => {
                self.faults = self.faults.saturating_add(1);
                Err(Failed)
            }
        }
    }

    fn next(&mut self) -> Result<Option<(TcpSource<R::Stream, R>, TcpSink<R::Stream>)>, Failed> {
        let number = self.opened;
        if number < u64::MAX {
            if let Some(ends) = self.next_ends(number) {
                self.opened = number + 1;
                return Ok(Some(ends));
            }
        }
        self.faults = self.faults.saturating_add(1);
        Err(Failed)
    }

    fn close(&mut self, from: TcpSource<R::Stream, R>, to: TcpSink<R::Stream>) {
        let mut from = from;
        let mut to = to;
        from.end();
        to.end();
    }

    fn door_faults(&self) -> u64 {
        self.faults
    }
}
