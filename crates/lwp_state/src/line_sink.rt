// A sink that counts lines.
ghost use Rattle.replay.specs.Recorded.{line_count};
ghost use Rattle.std.specs.Prelude.{◌≡◌, ◌+◌, ◌≤◌, [], nat_lt};

use lwp_types::{Failed, Sink};
use replay::line_count;
use std::marker::Model;
use streams::CountSink;

/// Takes all bytes and keeps none of them: it knows only how many lines were among them. It fails as a `CountSink` does.
#[derive(Drop)]
pub(crate) struct LineSink {
    lines: u64,
    taken: CountSink,
}

impl Model for LineSink {
    ghost use Rattle.std.specs.Prelude.{◌≡◌};
    ghost use Rattle.replay.specs.Recorded.{line_count};
    ghost use Rattle.streams.specs.Counting.{Counting};

    ghost Value = { Counting };

    ghost view = { λ s. s.taken };

    ghost invariant = { λ s. s.lines ≡ line_count s.taken.bytes };
}

// So many lines and so many more, where there are no more bytes than a `u64` counts.
fn added(lines: u64, more: u64, bytes: u64) -> u64
    requires { lines + more ≤ bytes }
    ensures { result ≡ lines + more }
{
    let _ = bytes;
    lines + more
}

impl LineSink {
    /// Nothing taken.
    pub(crate) fn new() -> LineSink
        ensures { result ≡ record { bytes = []; faults = 0 } }
    {
        LineSink {
            lines: 0,
            taken: CountSink::new(),
        }
    }

    /// How many lines it has taken.
    pub(crate) fn count(&self) -> u64
        ensures { result ≡ line_count self.now.bytes }
    {
        self.lines
    }

    /// Whether it has taken more lines than so many.
    pub(crate) fn more_than(&self, most: u64) -> bool
        ensures { result ≡ nat_lt most (line_count self.now.bytes) }
    {
        most < self.lines
    }
}

impl Sink for LineSink {
    ghost use Rattle.std.specs.Prelude.{Some};
    ghost use Rattle.streams.specs.Counting.{Counting};

    ghost written = { λ s. Some s.bytes };

    ghost faults = { λ s. s.faults };

    fn write(&mut self, bytes: &[u8]) -> Result<usize, Failed> {
        let more = line_count(bytes);
        let done = self.taken.write(bytes)?;
        self.lines = added(self.lines, more, self.taken.count());
        Ok(done)
    }

    fn hand_on(&mut self) {}
}
