//! What all connections of a service share.

use ps_lock::StoreLock;
use ps_serve::Site;
use ps_sockets::RungBell;
use ps_workers::SharedStore;
use std::alloc::Global;

/// What all connections of a service share.
#[derive(Drop)]
pub struct Service<'s, R, C> {
    /// The runtime, which hears how connections ended.
    pub rt: &'s R,
    /// Where memory is taken from.
    pub alloc: Global,
    /// The lock of the store.
    pub lock: &'s StoreLock<SharedStore>,
    /// The keys that tokens are signed with, and when a stream ends.
    pub site: &'s Site,
    /// What tells the time.
    pub clock: &'s C,
    /// The bell, of which each worker has another one.
    pub bell: &'s RungBell<'s, R>,
    /// The bytes of a worker's stack.
    pub stack: usize,
}
