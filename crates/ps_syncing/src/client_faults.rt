//! A client's faults, as those of the command.

ghost use Rattle.std.specs.Prelude.{◌≡◌};
ghost use Rattle.ps_client.specs.LocalWrites.{IsBelow};
ghost use Rattle.ps_syncing.specs.Faults.{of_keeper as of_keeper_means, of_line as of_line_means, IsOfLine};

use crate::SyncFault;
use ps_client::ClientFault;

// The fault of a call that fails for its keeper and for memory alone.
pub(crate) fn of_keeper(fault: ClientFault) -> SyncFault
    requires { IsBelow fault }
    ensures { result ≡ of_keeper_means fault }
{
    match fault {
        ClientFault::KeeperFault => SyncFault::ConnectionFailed,
        ClientFault::Memory => SyncFault::Memory,
        ClientFault::OutOfOrder
        | ClientFault::BadLine { .. }
        | ClientFault::QueueEmpty
        | ClientFault::QueueWaiting { .. } => unreachable!(),
    }
}

// The fault of a line that was not taken.
pub(crate) fn of_line(fault: ClientFault) -> SyncFault
    requires { IsOfLine fault }
    ensures { result ≡ of_line_means fault }
{
    match fault {
        ClientFault::OutOfOrder | ClientFault::BadLine { .. } => SyncFault::Altered,
        ClientFault::KeeperFault => SyncFault::ConnectionFailed,
        ClientFault::Memory => SyncFault::Memory,
        ClientFault::QueueEmpty | ClientFault::QueueWaiting { .. } => unreachable!(),
    }
}
