// Why a run that is fed stops before its end.
use lwp_types::NoMemory;
use pod_runner::RunErr;
use std::alloc::{AllocError, AllocFailed};

/// Memory was wanting, or the trace couldn't be written, or the answers, or the record of the posts.
#[derive(Clone, Copy, Debug, PartialEq, Eq)]
pub enum Stop {
    NoMemory,
    TraceFault,
    AnswerFault,
    RecordFault,
}

impl From<NoMemory> for Stop {
    ghost use Rattle.std.specs.Prelude.{◌≡◌};
    ghost use Rattle.lwp_live.specs.declared.stop.Stop.TheVariants.{NoMemory as Memory};

    ghost from_gives = { λ _ e. e ≡ Memory };

    fn from(_: NoMemory) -> Self {
        Stop::NoMemory
    }
}

impl From<AllocError> for Stop {
    ghost use Rattle.std.specs.Prelude.{◌≡◌};
    ghost use Rattle.lwp_live.specs.declared.stop.Stop.TheVariants.{NoMemory as Memory};

    ghost from_gives = { λ _ e. e ≡ Memory };

    fn from(_: AllocError) -> Self {
        Stop::NoMemory
    }
}

impl<T: Drop> From<AllocFailed<T>> for Stop {
    ghost use Rattle.std.specs.Prelude.{◌≡◌};
    ghost use Rattle.lwp_live.specs.declared.stop.Stop.TheVariants.{NoMemory as Memory};

    ghost from_gives = { λ _ e. e ≡ Memory };

    fn from(_: AllocFailed<T>) -> Self {
        Stop::NoMemory
    }
}

impl From<RunErr> for Stop {
    ghost use Rattle.lwp_live.specs.Telling.{IsStopOf};

    ghost from_gives = { IsStopOf };

    fn from(error: RunErr) -> Self {
        match error {
            RunErr::NoMemory => Stop::NoMemory,
            RunErr::WriteFault => Stop::TraceFault,
        }
    }
}
