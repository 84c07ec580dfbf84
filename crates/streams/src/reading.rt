// Reading a source: to its end, or no more than so many bytes.
ghost use Rattle.std.specs.Prelude.{◌≡◌, IfOk, IsErrOf, List, OnErr, OnOk, [], ℕ};
ghost use Rattle.lwp_types.specs.Streams.{Rose};
ghost use Rattle.streams.specs.Limited.{HasFront, IsReadUp, IsReadWithin};
ghost use Rattle.streams.specs.Reading.{HasRead, IsReadPart};

use lwp_types::{Failed, NoMemory, Source};
use std::alloc::Global;

// The source is read through a buffer of this many bytes.
const BUFFER: usize = 4096;

/// Why a source wasn't read.
#[derive(Clone, Copy, Debug, PartialEq, Eq)]
pub enum ReadFailure {
    /// A read failed.
    Fault,
    /// Memory was refused.
    NoMemory,
}

impl From<Failed> for ReadFailure {
    ghost use Rattle.std.specs.Prelude.{◌≡◌};
    ghost use Rattle.streams.specs.declared.reading.ReadFailure.TheVariants.{Fault};

    ghost from_gives = { λ _ e. e ≡ Fault };

    fn from(_: Failed) -> Self {
        ReadFailure::Fault
    }
}

impl From<NoMemory> for ReadFailure {
    ghost use Rattle.std.specs.Prelude.{◌≡◌};
    ghost use Rattle.streams.specs.declared.reading.ReadFailure.TheVariants.{NoMemory as Memory};

    ghost from_gives = { λ _ e. e ≡ Memory };

    fn from(_: NoMemory) -> Self {
        ReadFailure::NoMemory
    }
}

/// What bytes are fed to, piece by piece. What it has been fed is all that counts.
pub trait Feed {
    ghost use Rattle.std.specs.Prelude.{◌++◌, List, OnOk, ℕ};

    ghost has: { Self → List ℕ → Type 0 };

    /// Feeds it the next bytes. After `NoMemory` it is fed no more.
    fn feed(&mut self, bytes: &[u8]) -> Result<(), NoMemory>
        ensures { (before : List ℕ) → has self.old before → OnOk result (has self.new (before ++ bytes.now)) };
}

impl Feed for Vec<u8> {
    ghost use Rattle.std.specs.Prelude.{◌≡◌};

    ghost has = { λ v bytes. v.items ≡ bytes };

    fn feed(&mut self, bytes: &[u8]) -> Result<(), NoMemory> {
        self.extend_from_slice(bytes)?;
        Ok(())
    }
}

/// Feeds it the source to its end, or so many bytes, and no more.
pub fn feed_up_to<S: Source, F: Feed>(
    most: usize,
    into: &mut F,
    source: &mut S,
) -> Result<(), ReadFailure>
    requires { F.has into.old [] }
    ensures read { OnOk result
        ((bytes : List ℕ) × HasFront most (S.left source.old) bytes × F.has into.new bytes) }
    ensures up { OnOk result (IsReadUp most (S.left source.old) (S.left source.new)) }
    ensures part { OnErr result (IsReadWithin most (S.left source.old) (S.left source.new)) }
    ensures same { OnOk result (S.faults source.new ≡ S.faults source.old) }
    ensures fault { IsErrOf result ReadFailure.Fault →
        Rose (S.faults source.old) (S.faults source.new) }
    ensures memory { IsErrOf result ReadFailure.NoMemory → S.faults source.new ≡ S.faults source.old }
{
    let mut total = 0;
    let mut buffer = [0u8; BUFFER];
    while total < most {
        let room = (most - total).min(BUFFER);
        let count = source.read(&mut buffer[..room])?;
        if count == 0 {
            break;
        }
        into.feed(&buffer[..count])?;
        total += count;
    }
    Ok(())
}

/// The bytes that a source has left, or the first of them, if they are more than so many.
pub fn read_up_to<S: Source>(
    alloc: Global,
    most: usize,
    source: &mut S,
) -> Result<Vec<u8>, ReadFailure>
    ensures read { IfOk result (λ text. HasFront most (S.left source.old) text.items) }
    ensures up { OnOk result (IsReadUp most (S.left source.old) (S.left source.new)) }
    ensures part { OnErr result (IsReadWithin most (S.left source.old) (S.left source.new)) }
    ensures same { OnOk result (S.faults source.new ≡ S.faults source.old) }
    ensures fault { IsErrOf result ReadFailure.Fault →
        Rose (S.faults source.old) (S.faults source.new) }
    ensures memory { IsErrOf result ReadFailure.NoMemory → S.faults source.new ≡ S.faults source.old }
{
    let mut text = Vec::new(alloc);
    feed_up_to(most, &mut text, source)?;
    Ok(text)
}

/// All bytes that a source has left; or some of them are gone, and a read failed or memory ran out.
pub fn read_all<S: Source>(alloc: Global, source: &mut S) -> Result<Vec<u8>, ReadFailure>
    ensures read { IfOk result (λ text. HasRead (S.left source.old) (S.left source.new) text.items) }
    ensures part { OnErr result (IsReadPart (S.left source.old) (S.left source.new)) }
    ensures same { OnOk result (S.faults source.new ≡ S.faults source.old) }
    ensures fault { IsErrOf result ReadFailure.Fault →
        Rose (S.faults source.old) (S.faults source.new) }
    ensures memory { IsErrOf result ReadFailure.NoMemory → S.faults source.new ≡ S.faults source.old }
{
    // No vector has that many bytes, so memory is refused before the limit is reached.
    let text = read_up_to(alloc, usize::MAX, source)?;
    Ok(text)
}
