// Why a script isn't printed.
ghost use Rattle.std.specs.Prelude.{◌≡◌};
ghost use Rattle.script_printer.specs.Copying.{copy_failure, failure_of_read, status_of};
ghost use Rattle.script_printer.specs.declared.failure.CopyFailure.TheVariants as failure;

use lwp_types::{Failed, NoMemory};
use script_text::{ReadErr, Reason};
use std::fmt;
use streams::ReadFailure;

/// Why a script isn't printed.
#[derive(Clone, Copy, Debug, PartialEq, Eq)]
pub enum CopyFailure {
    ReadFault,
    WriteFault,
    /// The bytes are no script; this is the first line that is bad, and why.
    Script { line: u32, reason: Reason },
    NoMemory,
}

impl From<NoMemory> for CopyFailure {
    ghost from_gives = { λ _ e. e ≡ failure.NoMemory };

    fn from(_: NoMemory) -> CopyFailure {
        CopyFailure::NoMemory
    }
}

impl From<Failed> for CopyFailure {
    ghost from_gives = { λ _ e. e ≡ failure.WriteFault };

    fn from(_: Failed) -> CopyFailure {
        CopyFailure::WriteFault
    }
}

impl From<ReadFailure> for CopyFailure {
    ghost from_gives = { λ why e. e ≡ failure_of_read why };

    fn from(why: ReadFailure) -> CopyFailure {
        match why {
            ReadFailure::Fault => CopyFailure::ReadFault,
            ReadFailure::NoMemory => CopyFailure::NoMemory,
        }
    }
}

impl From<ReadErr> for CopyFailure {
    ghost from_gives = { λ why e. e ≡ copy_failure why };

    fn from(why: ReadErr) -> CopyFailure {
        match why {
            ReadErr::Bad { line, reason } => CopyFailure::Script { line, reason },
            ReadErr::NoMemory => CopyFailure::NoMemory,
        }
    }
}

// What the program says of it on standard error, after its own name.
impl fmt::Display for CopyFailure {
    fn fmt<W: fmt::Write>(&self, f: &mut fmt::Formatter<W>) -> fmt::Result {
        match self {
            CopyFailure::ReadFault => f.write_str("read fault"),
            CopyFailure::WriteFault => f.write_str("write fault"),
            CopyFailure::Script { line, reason } => write!(f, "script line {line}: {reason:?}"),
            CopyFailure::NoMemory => f.write_str("no memory"),
        }
    }
}

/// The status that the program ends with.
pub fn status_of(failure: CopyFailure) -> u8
    ensures { result ≡ status_of failure }
{
    match failure {
        CopyFailure::ReadFault => 101,
        CopyFailure::WriteFault => 102,
        CopyFailure::Script { .. } => 103,
        CopyFailure::NoMemory => 106,
    }
}
