//! What a session reads from where others use the store: a seat at the store's lock, each of whose calls is one turn.

use ps_lock::Seat;
use ps_store::Checkpoint;
use ps_workers::SharedStore;

/// A seat at the store's lock, and the checkpoint of all that it has seen.
#[derive(Drop)]
pub struct Reader {
    /// The seat.
    pub seat: Seat<SharedStore>,
    /// The checkpoint.
    pub checkpoint: Checkpoint,
}
