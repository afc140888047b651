//! The store as threads share it.

ghost use Rattle.std.specs.Prelude.{◌≡◌};
ghost use Rattle.ps_workers.specs.Terms.{store_of, terms_by};

use ps_definitions::Rules;
use ps_store::{Fixed, Store};
use std::snapshot::Snapshot;

/// What the history of a shared store goes by.
#[derive(Debug, Drop)]
pub struct Terms {
    /// The rules that the store begins with, and its limits.
    pub fixed: Fixed,
    /// The rules that may come, if any: no others do.
    pub next: Option<Rules>,
}

/// A store that threads share. It is bound to the new rules that may come: a lock does not tell whose its entries are, and each that
/// brings new rules brings these.
pub struct SharedStore {
    pub(crate) store: Store,
    next: Snapshot<Option<Rules>>,
}

impl Drop for SharedStore {
    fn drop(self) {
        let SharedStore {
            store: _store,
            next: _next,
        } = self;
    }
}

impl SharedStore {
    /// A store to be shared, and the new rules that may come, if any. The rules are not kept.
    pub fn new(store: Store, next: &Option<Rules>) -> SharedStore
        ensures store { store_of result ≡ store }
        ensures next { (terms_by result).next ≡ next.now }
    {
        SharedStore {
            store,
            next: Snapshot::of(next),
        }
    }

    /// The store.
    pub fn store(&self) -> &Store
        ensures { result.now ≡ store_of self.now }
    {
        &self.store
    }

    /// The store, no longer shared.
    pub fn into_store(self) -> Store
        ensures { result ≡ store_of self }
    {
        let SharedStore { store, next: _next } = self;
        store
    }
}
