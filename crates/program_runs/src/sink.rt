ghost use Rattle.std.specs.Prelude.{◌≡◌};

use crate::watch::Watch;
use plan_io::{Failed, Sink};
use std::time::Clock;

/// A sink that tells how much was written to it. What is written is what the sink within was given.
#[derive(Drop)]
pub struct WatchedSink<'a, S: Sink + Drop, R: Clock + Eprint> {
    sink: S,
    watch: Watch<'a, R>,
    bytes: u64,
}

impl<'a, S: Sink + Drop, R: Clock + Eprint> WatchedSink<'a, S, R> {
    pub fn make(sink: S, watch: Watch<'a, R>) -> Self
        ensures faults { ⟦<WatchedSink<'a, S, R> as Sink>⟧.faults result ≡ S.faults sink }
        ensures written { ⟦<WatchedSink<'a, S, R> as Sink>⟧.written result ≡ S.written sink }
    {
        WatchedSink {
            sink,
            watch,
            bytes: 0,
        }
    }

    /// Takes away what was told.
    pub fn clear(&self) {
        self.watch.clear();
    }
}

impl<'a, S: Sink + Drop, R: Clock + Eprint> Sink for WatchedSink<'a, S, R> {
    ghost written = { λ s. S.written s.sink };

    ghost faults = { λ s. S.faults s.sink };

    ghost limit = { λ s. S.limit s.sink };

    ghost pace = { λ s. S.pace s.sink };

    ghost room = { λ s. S.room s.sink };

    fn put(&mut self, bytes: &[u8]) -> Result<usize, Failed> {
        let taken = self.sink.put(bytes);
        if let Ok(count) = taken {
            self.bytes = self.bytes.saturating_add(count as u64);
            self.watch.tell(self.bytes, "written");
        }
        taken
    }

    ghost limit_tells = { λ s. S.limit_tells s.sink };

    ghost within_limit = { λ s. S.within_limit s.sink };

    ghost limit_bounds = { λ s. S.limit_bounds s.sink };
}
