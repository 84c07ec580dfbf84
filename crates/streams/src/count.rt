// A sink that counts what it takes.
ghost use Rattle.std.specs.Prelude.{◌≡◌, ◌<◌, ◌≤◌, [], IfOk, OnErr, length, take};
ghost use Rattle.lwp_types.specs.Streams.{after_append, HasCause};

use crate::ghost_bytes::{GhostBytes, More};
use lwp_types::{Failed, Sink};
use std::marker::Model;

/// Takes all bytes and keeps none of them: it knows only how many they were. It fails where they are too many for a `u64`.
#[derive(Drop)]
pub struct CountSink {
    count: u64,
    faults: u64,
    taken: GhostBytes,
}

impl Model for CountSink {
    ghost use Rattle.std.specs.Prelude.{◌≡◌, length};
    ghost use Rattle.streams.specs.Counting.{Counting};

    ghost Value = { Counting };

    ghost view = { λ s. record { bytes = s.taken.bytes; faults = s.faults } };

    ghost invariant = { λ s. s.count ≡ length s.taken.bytes };
}

impl CountSink {
    /// Nothing taken.
    pub fn new() -> CountSink
        ensures { result ≡ record { bytes = []; faults = 0 } }
    {
        CountSink {
            count: 0,
            faults: 0,
            taken: GhostBytes::new(),
        }
    }

    /// How many bytes were taken.
    pub fn count(&self) -> u64
        ensures { result ≡ length self.now.bytes }
    {
        self.count
    }
}

impl Sink for CountSink {
    ghost use Rattle.std.specs.Prelude.{Some};
    ghost use Rattle.streams.specs.Counting.{Counting};

    ghost written = { λ s. Some s.bytes };

    ghost faults = { λ s. s.faults };

    fn write(&mut self, bytes: &[u8]) -> Result<usize, Failed>
        ensures bound { IfOk result (λ n. n ≤ length bytes.now) }
        ensures some { IfOk result (λ n. 0 < length bytes.now → 0 < n) }
        ensures ok { IfOk result
            (λ n. Some self.new.bytes ≡ after_append (Some self.old.bytes) (take n bytes.now)) }
        ensures err { OnErr result (Some self.new.bytes ≡ Some self.old.bytes) }
        ensures cause { HasCause self.old.faults self.new.faults result }
        // It takes all that it is given.
        ensures all { IfOk result (λ n. n ≡ length bytes.now) }
    {
        let Some(count) = self.count.checked_add(bytes.len() as u64) else {
            self.faults = self.faults.saturating_add(1);
            return Err(Failed);
        };
        self.taken = self.taken.then(&More { bytes });
        self.count = count;
        Ok(bytes.len())
    }

    fn hand_on(&mut self)
        ensures { self.new ≡ self.old }
    {}
}
