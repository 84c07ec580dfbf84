// A sink that takes a trace nobody wants.
ghost use Rattle.std.specs.Prelude.{None};

use lwp_types::{Failed, Sink};

/// Takes all bytes and tells none.
#[derive(Drop)]
pub struct Silent {}

impl Sink for Silent {
    ghost use Rattle.std.specs.Prelude.{None};

    ghost written = { λ _. None };

    ghost faults = { λ _. 0 };

    fn write(&mut self, bytes: &[u8]) -> Result<usize, Failed> {
        Ok(bytes.len())
    }

    fn hand_on(&mut self) {}
}
