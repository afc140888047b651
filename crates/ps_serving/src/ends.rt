//! How the threads of a service ended.

use ps_connections::Ended;
use ps_workers::WorkEnd;

/// How the threads of a service ended.
#[derive(Clone, Copy, Debug)]
pub(crate) struct Ends {
    /// Whether a thread could be had for the writer. Where none could, no connection is taken.
    pub(crate) has_writer: bool,
    /// The writer.
    pub(crate) writer: WorkEnd,
    /// The compactor.
    pub(crate) compactor: WorkEnd,
    /// The loop that takes connections.
    pub(crate) connections: Ended,
}
