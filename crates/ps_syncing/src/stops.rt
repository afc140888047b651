//! Why `sync` ends before all is done.

ghost use Rattle.std.specs.Prelude.{◌≡◌};
ghost use Rattle.ps_syncing.specs.Stops.{stop_of as stop_meant};

use crate::SyncFault;
use ps_files::{Fault, Limit};

/// Why `sync` did not do what it was asked: docs/FORMATS.md, "Fault texts".
#[derive(Debug, Drop)]
pub enum Stop<'a> {
    /// A fault that other commands have too.
    Shared {
        /// That fault.
        fault: Fault<'a>,
    },
    /// The token file holds no token.
    Token,
    /// The faults of the link, of a connection or of the client's keeper rose.
    ConnectionFailed,
    /// A stream ended with no checkpoint applied or refused, or an answer is not of its form.
    NoCheckpoint,
    /// The service answered with another status than 200.
    Answered {
        /// That status.
        status: u16,
    },
    /// Eight streams were refused, or a line of a stream is none or does not come next.
    Altered,
}

impl<'a> From<Fault<'a>> for Stop<'a> {
    ghost use Rattle.std.specs.Prelude.{◌≡◌};
    ghost use Rattle.ps_syncing.specs.declared.stops.Stop.TheVariants as stops;

    ghost from_gives = { λ fault stop. stop ≡ stops.Shared fault };

    fn from(fault: Fault<'a>) -> Stop<'a> {
        Stop::Shared { fault }
    }
}

/// A client's fault, as the command's.
pub(crate) fn stop_of<'a>(fault: SyncFault) -> Stop<'a>
    ensures { result ≡ stop_meant fault }
{
    match fault {
        SyncFault::ConnectionFailed => Stop::ConnectionFailed,
        SyncFault::NoCheckpoint => Stop::NoCheckpoint,
        SyncFault::Answered { status } => Stop::Answered { status },
        SyncFault::Altered => Stop::Altered,
        SyncFault::LineTooLong { seen } => Stop::Shared {
            fault: Fault::PastLimit {
                limit: Limit::LineBytes { length: seen },
            },
        },
        SyncFault::Memory => Stop::Shared {
            fault: Fault::Memory,
        },
    }
}
