//! Where workers work: at the store's lock, behind a gate.

use crate::gates::Gate;
use crate::shared::SharedStore;
use ps_lock::StoreLock;
use std::alloc::Global;

/// The store's lock, and what its use takes.
#[derive(Drop)]
pub(crate) struct Workplace<'a, R> {
    /// The runtime.
    pub(crate) rt: &'a R,
    /// The allocator.
    pub(crate) alloc: Global,
    /// The lock.
    pub(crate) lock: &'a StoreLock<SharedStore>,
}

/// A worker's gate, and how often it was passed.
#[derive(Drop)]
pub(crate) struct Passes<'a, G> {
    gate: &'a G,
    passed: u64,
}

impl<'a, G: Gate> Passes<'a, G> {
    /// A gate that was not passed.
    pub(crate) fn new(gate: &'a G) -> Passes<'a, G> {
        Passes { gate, passed: 0 }
    }

    /// Passes the gate before the next turn. The count stands still at its type's end.
    pub(crate) fn pass(&mut self) {
        self.passed = self.passed.saturating_add(1);
        self.gate.pass(self.passed);
    }
}
