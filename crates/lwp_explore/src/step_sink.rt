// A sink for the lines of one step.
ghost use Rattle.std.specs.Prelude.{[], ◌≡◌, ◌++◌, IfSome, drop, length};

use lwp_types::{Failed, Sink};
use std::alloc::Global;
use std::marker::Model;
use streams::{GhostBytes, More};

/// All that a session has told, of which only the length is kept.
#[derive(Drop)]
pub struct Told {
    count: u64,
    bytes: GhostBytes,
}

impl Model for Told {
    ghost use Rattle.std.specs.Prelude.{◌≡◌, List, length, ℕ};

    ghost Value = { List ℕ };

    ghost view = { λ t. t.bytes.bytes };

    ghost invariant = { λ t. t.count ≡ length t.bytes.bytes };
}

impl Told {
    /// Nothing was told.
    pub fn nothing() -> Told
        ensures { result ≡ [] }
    {
        Told {
            count: 0,
            bytes: GhostBytes::new(),
        }
    }

    /// The same once more.
    pub fn again(&self) -> Told
        ensures { result ≡ self.now }
    {
        Told {
            count: self.count,
            bytes: self.bytes.then(&More { bytes: &[] }),
        }
    }

    // None where they are too many for a `u64`.
    fn then(&self, bytes: &[u8]) -> Option<Told>
        ensures { IfSome result (λ more. more ≡ self.now ++ bytes.now) }
    {
        let count = self.count.checked_add(bytes.len() as u64)?;
        Some(Told {
            count,
            bytes: self.bytes.then(&More { bytes }),
        })
    }
}

/// Keeps all bytes that it takes. It fails where there is no memory for them.
#[derive(Drop)]
pub struct StepSink {
    told: Told,
    bytes: Vec<u8>,
    faults: u64,
}

impl Model for StepSink {
    ghost use Rattle.lwp_explore.specs.Telling.{IsEnd, Telling};

    ghost Value = { Telling };

    ghost view = { λ s. record { told = s.told; bytes = s.bytes.items; faults = s.faults } };

    ghost invariant = { λ s. IsEnd s.bytes.items s.told };
}

impl StepSink {
    /// After all this was told, it has taken nothing.
    pub fn new(alloc: Global, before: &Told) -> StepSink
        ensures { result ≡ record { told = before.now; bytes = []; faults = 0 } }
    {
        StepSink {
            told: before.again(),
            bytes: Vec::new(alloc),
            faults: 0,
        }
    }

    /// All that was told, and what of it comes after this. None where the sink keeps more or less than that.
    pub fn after(self, before: &Told) -> Option<(Told, Vec<u8>)>
        ensures told { IfSome result (λ end. end.0 ≡ self.told) }
        ensures bytes { IfSome result (λ end. end.1.items ≡ drop (length before.now) self.told) }
    {
        let StepSink {
            told,
            bytes,
            faults: _,
        } = self;
        if before.count.checked_add(bytes.len() as u64) != Some(told.count) {
            return None;
        }
        Some((told, bytes))
    }
}

impl Sink for StepSink {
    ghost use Rattle.std.specs.Prelude.{Some};

    ghost written = { λ s. Some s.told };

    ghost faults = { λ s. s.faults };

    fn write(&mut self, bytes: &[u8]) -> Result<usize, Failed> {
        let Some(told) = self.told.then(bytes) else {
            self.faults = self.faults.saturating_add(1);
            return Err(Failed);
        };
        let Ok(()) = self.bytes.extend_from_slice(bytes) else {
            self.faults = self.faults.saturating_add(1);
            return Err(Failed);
        };
        self.told = told;
        Ok(bytes.len())
    }

    fn hand_on(&mut self) {}
}
