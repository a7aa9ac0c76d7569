ghost use Rattle.std.specs.Prelude.{◌≡◌};

use crate::watch::Watch;
use plan_io::{Failed, Store};
use std::time::Clock;

/// A store that tells how much was read of it. Its files are those of the store within.
#[derive(Drop)]
pub struct WatchedStore<'a, S: Store + Drop, R: Clock + Eprint> {
    store: S,
    watch: Watch<'a, R>,
    bytes: u64,
}

impl<'a, S: Store + Drop, R: Clock + Eprint> WatchedStore<'a, S, R> {
    pub fn make(store: S, watch: Watch<'a, R>) -> Self
        ensures faults { ⟦<WatchedStore<'a, S, R> as Store>⟧.faults result ≡ S.faults store }
        ensures begun { ⟦<WatchedStore<'a, S, R> as Store>⟧.begun result ≡ S.begun store }
    {
        WatchedStore {
            store,
            watch,
            bytes: 0,
        }
    }

    /// The store within.
    pub fn store(&self) -> &S
        ensures { result.now ≡ self.now.store }
    {
        &self.store
    }

    /// Takes away what was told.
    pub fn clear(&self) {
        self.watch.clear();
    }
}

impl<'a, S: Store + Drop, R: Clock + Eprint> Store for WatchedStore<'a, S, R> {
    ghost shelf = { λ s. S.shelf s.store };

    ghost begun = { λ s. S.begun s.store };

    ghost left = { λ s. S.left s.store };

    ghost faults = { λ s. S.faults s.store };

    ghost pace = { λ s. S.pace s.store };

    fn begin(&mut self, name: &str) -> Result<u32, Failed> {
        self.store.begin(name)
    }

    fn read(&mut self, slot: u32, buffer: &mut [u8]) -> Result<usize, Failed> {
        let taken = self.store.read(slot, buffer);
        if let Ok(count) = taken {
            self.bytes = self.bytes.saturating_add(count as u64);
            self.watch.tell(self.bytes, "read");
        }
        taken
    }

    ghost steady_tells = { λ s. S.steady_tells s.store };

    ghost steady_faults = { λ s. S.steady_faults s.store };

    ghost unnamed_calls = { λ s. S.unnamed_calls s.store };
}
