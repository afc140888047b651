//! What goes out over a socket.

ghost use Rattle.std.specs.Prelude.{◌≡◌, None};

use ps_io::{Failed, Sink};
use std::io::{Read, Write};
use std::net::{OpenStream, Shutdown};
use std::time::Duration;

/// What is sent to a peer over a socket. Each write after one that failed fails, and so does each one after `end`.
#[derive(Drop)]
pub struct TcpSink<T: Read + Write + OpenStream + Drop> {
    stream: Option<T>,
    faults: u64,
    number: u64,
}

impl<T: Read + Write + OpenStream + Drop> TcpSink<T> {
    /// The sink of a connection of that number.
    pub(crate) fn new(stream: T, number: u64) -> TcpSink<T>
        ensures faults { ⟦<TcpSink<T> as Sink>⟧.faults result ≡ 0 }
        ensures number { ⟦<TcpSink<T> as Sink>⟧.number result ≡ number }
    {
        TcpSink {
            stream: Some(stream),
            faults: 0,
            number,
        }
    }
}

const READ_ON: usize = 16384;

// Says that nothing more comes, and reads what the peer still sends until it hangs up too, within bounds: a socket that is given up with bytes unread is
// reset, and then the peer may lose what was sent to it.
fn hang_up<T: Read + OpenStream + Drop>(mut stream: T) {
    if stream.shutdown(Shutdown::Write).is_err() {
        return;
    }
    if stream
        .set_read_timeout(Some(Duration::from_secs(1)))
        .is_err()
    {
        return;
    }
    let mut rest = [0u8; READ_ON];
    'rest: for _ in 0..64u8 {
        match stream.read(&mut rest) {
            Ok(0) => return,
            Ok(_) => {}
            Err(_) => return,
        }
    }
}

impl<T: Read + Write + OpenStream + Drop> Sink for TcpSink<T> {
    ghost taken = { λ _. None };

    ghost faults = { λ sink. sink.faults };

    ghost number = { λ sink. sink.number };

    fn write(&mut self, bytes: &[u8]) -> Result<(), Failed> {
        if let Some(stream) = &mut self.stream {
            if stream.write_all(bytes).is_ok() {
                return Ok(());
            }
        }
        self.stream = None;
        self.faults = self.faults.saturating_add(1);
        Err(Failed)
    }

    fn write_faults(&self) -> u64 {
        self.faults
    }

    fn end(&mut self) {
        if let Some(stream) = self.stream.take() {
            hang_up(stream);
        }
    }
}
