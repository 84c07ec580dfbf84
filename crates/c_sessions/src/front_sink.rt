// A sink that keeps the first bytes alone.
ghost use Rattle.std.specs.Prelude.{◌≡◌, ◌++◌, OnErr, OnOk, take};

use lwp_types::{Failed, Sink};
use std::alloc::Global;
use std::marker::Model;
use streams::CountSink;

/// Takes all bytes, keeps as many of the first as there is room for, and knows how many they were. It fails where memory is refused,
/// and where they are too many for a `u64`.
#[derive(Drop)]
pub struct FrontSink {
    kept: Vec<u8>,
    room: usize,
    taken: CountSink,
    faults: u64,
}

impl Model for FrontSink {
    ghost use Rattle.std.specs.Prelude.{◌≡◌, take};
    ghost use Rattle.c_sessions.specs.Fronts.{Fronting};

    ghost Value = { Fronting };

    ghost view = { λ s. record { room = s.room; bytes = s.taken.bytes; faults = s.faults } };

    ghost invariant = { λ s. s.kept.items ≡ take s.room s.taken.bytes };
}

// Counts more bytes, and keeps those of them that there is room for.
#[tactic(auto, using(crate::proofs::FrontLaws::kept_and_more))]
fn keep(kept: &mut Vec<u8>, taken: &mut CountSink, room: usize, bytes: &[u8]) -> Result<(), Failed>
    requires { kept.old.items ≡ take room taken.old.bytes }
    ensures kept { kept.new.items ≡ take room taken.new.bytes }
    ensures ok { OnOk result (taken.new.bytes ≡ taken.old.bytes ++ bytes.now) }
    ensures err { OnErr result (taken.new.bytes ≡ taken.old.bytes) }
{
    let more = bytes.len().min(room - kept.len());
    if kept.reserve(more).is_err() {
        return Err(Failed);
    }
    taken.write(bytes)?;
    let _ = kept.extend_from_slice(&bytes[..more]);
    Ok(())
}

impl FrontSink {
    ghost use Rattle.std.specs.Prelude.{◌≡◌, [], IfSome, length, take};

    /// Nothing taken, and room for so many bytes.
    pub fn new(alloc: Global, room: usize) -> FrontSink
        ensures { result ≡ record { room = room; bytes = []; faults = 0 } }
    {
        FrontSink {
            kept: Vec::new(alloc),
            room,
            taken: CountSink::new(),
            faults: 0,
        }
    }

    /// How many bytes were taken.
    pub fn count(&self) -> u64
        ensures { result ≡ length self.now.bytes }
    {
        self.taken.count()
    }

    /// The first bytes, if there was room for so many.
    #[tactic(auto, using(crate::proofs::FrontLaws::take_less))]
    pub fn into_front(self, most: usize) -> Option<Vec<u8>>
        ensures { IfSome result (λ front. front.items ≡ take most self.bytes) }
    {
        let FrontSink { mut kept, room, .. } = self;
        if room < most {
            return None;
        }
        kept.truncate(most);
        Some(kept)
    }
}

impl Sink for FrontSink {
    ghost use Rattle.std.specs.Prelude.{Some};
    ghost use Rattle.c_sessions.specs.Fronts.{Fronting};

    ghost written = { λ s. Some s.bytes };

    ghost faults = { λ s. s.faults };

    fn write(&mut self, bytes: &[u8]) -> Result<usize, Failed> {
        match keep(&mut self.kept, &mut self.taken, self.room, bytes) {
            Ok(()) => Ok(bytes.len()),
            Err(Failed) => {
                self.faults = self.faults.saturating_add(1);
                Err(Failed)
            }
        }
    }

    fn hand_on(&mut self) {}
}
