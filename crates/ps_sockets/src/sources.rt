//! What comes in over a socket.

ghost use Rattle.std.specs.Prelude.{◌≡◌, ◌≤◌, ◌<◌, None, length, IfSome};

use crate::patience::Patience;
use ps_io::{Failed, Source};
use std::io::{ErrorKind, Read};
use std::net::OpenStream;
use std::time::{Clock, Duration};

/// What a peer sends over a socket. A read that would wait for too long fails, and so does each one after `end`.
#[derive(Drop)]
pub struct TcpSource<T: Read + OpenStream + Drop, C: Clock + Drop> {
    clock: C,
    stream: Option<T>,
    patience: Patience,
    // The time-out that the socket has, in seconds; 0 where none was set.
    wait: u64,
    faults: u64,
    number: u64,
}

impl<T: Read + OpenStream + Drop, C: Clock + Drop> TcpSource<T, C> {
    /// The source of a connection of that number. Of each part of so many bytes it waits so many seconds for the last one.
    pub(crate) fn new(clock: C, stream: T, number: u64, seconds: u64, bytes: u64) -> TcpSource<T, C>
        ensures faults { ⟦<TcpSource<T, C> as Source>⟧.faults result ≡ 0 }
        ensures number { ⟦<TcpSource<T, C> as Source>⟧.number result ≡ number }
    {
        let patience = Patience::new(&clock, seconds, bytes);
        TcpSource {
            clock,
            stream: Some(stream),
            patience,
            wait: 0,
            faults: 0,
            number,
        }
    }
}

// Reads, and once more after a signal; none where it fails.
fn read_from<T: Read>(stream: &mut T, into: &mut [u8]) -> Option<usize>
    ensures { IfSome result (λ count. count ≤ length into.old) }
{
    'tries: for _ in 0..u64::MAX {
        match stream.read(into) {
            Ok(count) => return Some(count),
            Err(error) => {
                if error.kind() != ErrorKind::Interrupted {
                    return None;
                }
            }
        }
    }
    None
}

// Reads within the patience that is left; none where it fails.
fn read_in_time<T: Read + OpenStream + Drop, C: Clock + Drop>(
    source: &mut TcpSource<T, C>,
    into: &mut [u8],
) -> Option<usize>
    ensures fits { IfSome result (λ count. count ≤ length into.old) }
    ensures faults { source.new.faults ≡ source.old.faults }
    ensures number { source.new.number ≡ source.old.number }
{
    let left = source.patience.left(&source.clock)?;
    let stream = source.stream.as_mut()?;
    if left != source.wait {
        stream
            .set_read_timeout(Some(Duration::from_secs(left)))
            .ok()?;
        source.wait = left;
    }
    let count = read_from(stream, into)?;
    source.patience.took(&source.clock, count);
    Some(count)
}

impl<T: Read + OpenStream + Drop, C: Clock + Drop> Source for TcpSource<T, C> {
    ghost input = { λ _. None };

    ghost faults = { λ source. source.faults };

    ghost number = { λ source. source.number };

    fn read(&mut self, into: &mut [u8]) -> Result<usize, Failed> {
        match read_in_time(self, into) {
            Some(count) => Ok(count),
            None => {
                self.faults = self.faults.saturating_add(1);
                Err(Failed)
            }
        }
    }

    fn read_faults(&self) -> u64 {
        self.faults
    }

    fn end(&mut self) {
        self.stream = None;
    }
}
