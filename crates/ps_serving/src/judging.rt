//! What the ends of a service's threads make of its status.

ghost use Rattle.std.specs.Prelude.{◌≡◌};
ghost use Rattle.ps_serving.specs.Ends.{writer_fault as fault_of_writer, compactor_fault as fault_of_compactor, room_fault as fault_of_room, fault_after, unless_fault};

use crate::ends::Ends;
use ps_connections::{Ended, Stop};
use ps_files::{Fault, Limit};
use ps_serve_inputs::ServeFault;
use ps_workers::WorkEnd;

// What ended the writer otherwise than well.
fn writer_fault<'a>(end: WorkEnd) -> Option<Fault<'a>>
    ensures { result ≡ fault_of_writer end }
{
    match end {
        WorkEnd::Drained => None,
        WorkEnd::TooWide { count } => Some(Fault::PastLimit {
            limit: Limit::Entries { count },
        }),
        WorkEnd::OpsFull { last } => Some(Fault::PastLimit {
            limit: Limit::Operations { last: last.0 },
        }),
        // It was given nothing to feed, so it is never stopped.
        WorkEnd::Stopped | WorkEnd::Memory => Some(Fault::Memory),
    }
}

// What ended the compactor otherwise than well.
fn compactor_fault<'a>(end: WorkEnd) -> Option<Fault<'a>>
    ensures { result ≡ fault_of_compactor end }
{
    match end {
        WorkEnd::Drained | WorkEnd::Stopped => None,
        WorkEnd::TooWide { .. } | WorkEnd::OpsFull { .. } | WorkEnd::Memory => Some(Fault::Memory),
    }
}

// What the connections leave, where the doors did not fail.
fn room_fault<'a>(ended: Ended) -> Option<Fault<'a>>
    ensures { result ≡ fault_of_room ended }
{
    match ended.stop {
        Stop::NoRoom => Some(Fault::Memory),
        Stop::NoneToCome | Stop::Most | Stop::Failed => {
            if ended.out_of_memory {
                Some(Fault::Memory)
            } else {
                None
            }
        }
    }
}

/// The fault that a service ends with, if there is one, once its threads have ended so and its totals were printed, or not.
pub(crate) fn judge<'a>(ends: Ends, printed: Result<(), Fault<'a>>) -> Result<(), ServeFault<'a>>
    ensures { result ≡ unless_fault (fault_after ends printed.entry) }
{
    if let Some(fault) = writer_fault(ends.writer) {
        return Err(ServeFault::Plain { fault });
    }
    if let Some(fault) = compactor_fault(ends.compactor) {
        return Err(ServeFault::Plain { fault });
    }
    if let Stop::Failed = ends.connections.stop {
        return Err(ServeFault::ConnectionFailed);
    }
    if let Err(fault) = printed {
        return Err(ServeFault::Plain { fault });
    }
    match room_fault(ends.connections) {
        Some(fault) => Err(ServeFault::Plain { fault }),
        None => Ok(()),
    }
}
