//! Sockets that connect, as a link.

ghost use Rattle.std.specs.Prelude.{◌≡◌, ◌+◌, ◌<◌, ◌≤◌, None, IfSome};
ghost use Rattle.ps_io.specs.Counts.{Rose};
ghost use Rattle.ps_doors.specs.Connections.{AreEnds};

use crate::doors::both_ends;
use crate::{TcpSink, TcpSource};
use ps_data::Text;
use ps_doors::Link;
use ps_io::{Failed, Sink, Source};
use std::net::{Net, TcpStream, ToSocketAddrs};
use std::time::{Clock, Duration};

// How long it waits for a connection, and for anything that its peer sends.
const CONNECT_SECONDS: u64 = 30;

const SILENCE_SECONDS: u64 = 60;

/// Sockets that connect. Of what passes through them nothing is told.
#[derive(Drop)]
pub struct TcpLink<R: Net + Clock + Copy + Drop> {
    rt: R,
    out: u64,
    faults: u64,
}

// A socket that is connected to the first address of that name which answers.
fn connected<R: Net>(rt: &R, address: &str) -> Option<R::Stream> {
    'addresses: for one in address.to_socket_addrs(rt).ok()? {
        let within = Duration::from_secs(CONNECT_SECONDS);
        if let Ok(stream) = TcpStream::connect_timeout(rt, &one, within) {
            return Some(stream);
        }
    }
    None
}

// The count with one more where an end has failed.
fn with_failed(faults: u64, read_faults: u64, write_faults: u64) -> u64
    ensures failed { 0 < read_faults + write_faults → Rose faults result }
    ensures grows { faults ≤ result }
    ensures quiet { read_faults + write_faults ≡ 0 → result ≡ faults }
{
    if read_faults > 0 || write_faults > 0 {
        return faults.saturating_add(1);
    }
    faults
}

impl<R: Net + Clock + Copy + Drop> TcpLink<R> {
    /// A link that has made no connection.
    pub fn new(rt: R) -> TcpLink<R>
        ensures out { ⟦<TcpLink<R> as Link>⟧.out result ≡ 0 }
        ensures faults { ⟦<TcpLink<R> as Link>⟧.faults result ≡ 0 }
    {
        TcpLink {
            rt,
            out: 0,
            faults: 0,
        }
    }

    // The ends of a new connection.
    fn new_ends(&self, address: &str) -> Option<(TcpSource<R::Stream, R>, TcpSink<R::Stream>)>
        ensures { IfSome result (λ c. AreEnds
            ⟦<TcpSource<R::Stream, R> as Source>⟧ ⟦<TcpSink<R::Stream> as Sink>⟧ 0 c.0 c.1) }
    {
        let (from, to) = both_ends(connected(&self.rt, address)?).ok()?;
        let from = TcpSource::new(self.rt, from, 0, SILENCE_SECONDS, 1);
        Some((from, TcpSink::new(to, 0)))
    }
}

impl<R: Net + Clock + Copy + Drop> Link for TcpLink<R> {
    type In = TcpSource<R::Stream, R>;

    type Out = TcpSink<R::Stream>;

    ghost out = { λ link. link.out };

    ghost closed = { λ _. None };

    ghost faults = { λ link. link.faults };

    fn connect(
        &mut self,
        address: &Text,
    ) -> Result<(TcpSource<R::Stream, R>, TcpSink<R::Stream>), Failed> {
        if self.out < u64::MAX {
            if let Some(ends) = self.new_ends(address.as_str()) {
                self.out += 1;
                return Ok(ends);
            }
        }
        self.faults = self.faults.saturating_add(1);
        Err(Failed)
    }

    fn close(&mut self, from: TcpSource<R::Stream, R>, to: TcpSink<R::Stream>) {
        let mut from = from;
        let mut to = to;
        self.faults = with_failed(self.faults, from.read_faults(), to.write_faults());
        from.end();
        to.end();
        self.out -= 1;
    }

    fn link_faults(&self) -> u64 {
        self.faults
    }
}
