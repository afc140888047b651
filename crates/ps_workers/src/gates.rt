//! Gates: what a worker passes before each of its turns.

/// What a worker passes before each of its turns. It may wait.
pub trait Gate {
    /// Passes before the worker's turn of this number, which counts from 1.
    fn pass(&self, step: u64);
}

/// A gate that never waits.
#[derive(Clone, Copy, Debug, PartialEq, Eq)]
pub struct OpenGate;

impl Gate for OpenGate {
    fn pass(&self, _step: u64) {}
}
