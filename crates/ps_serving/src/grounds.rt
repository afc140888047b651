//! What the whole of a service stands on.

use ps_lock::StoreLock;
use ps_serve::Site;
use ps_workers::SharedStore;
use std::alloc::Global;

/// The runtime, the memory and the clock of a service.
#[derive(Drop)]
pub(crate) struct Tools<'g, R, C> {
    /// The runtime.
    pub(crate) rt: &'g R,
    /// Where memory is taken from.
    pub(crate) alloc: Global,
    /// What tells the time.
    pub(crate) clock: &'g C,
}

/// The same, with the store that was fed and what all connections have in common.
#[derive(Drop)]
pub(crate) struct Ground<'g, R, C> {
    /// The runtime, the memory and the clock.
    pub(crate) tools: &'g Tools<'g, R, C>,
    /// The lock of the store.
    pub(crate) lock: &'g StoreLock<SharedStore>,
    /// The keys that tokens are signed with, and when a stream ends.
    pub(crate) site: &'g Site,
    /// The bytes of a thread's stack.
    pub(crate) stack: usize,
}
