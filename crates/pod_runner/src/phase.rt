// How far a run has come.
use lwp_types::NoMemory;
use std::alloc::{AllocError, AllocFailed};

/// Where a run stands: the pod has ended; somebody may run, and all calls that are allowed were made; somebody may run; nobody may.
#[derive(Clone, Copy, Debug, PartialEq, Eq)]
pub enum Phase {
    Ended(u8),
    Spent,
    Turn,
    Idle,
}

/// Why a run fails.
#[derive(Clone, Copy, Debug, PartialEq, Eq)]
pub enum RunErr {
    NoMemory,
    WriteFault,
}

impl From<NoMemory> for RunErr {
    ghost use Rattle.std.specs.Prelude.{◌≡◌};
    ghost use Rattle.pod_runner.specs.declared.phase.RunErr.TheVariants.{NoMemory as Memory};

    ghost from_gives = { λ _ e. e ≡ Memory };

    fn from(_: NoMemory) -> Self {
        RunErr::NoMemory
    }
}

impl From<AllocError> for RunErr {
    ghost use Rattle.std.specs.Prelude.{◌≡◌};
    ghost use Rattle.pod_runner.specs.declared.phase.RunErr.TheVariants.{NoMemory as Memory};

    ghost from_gives = { λ _ e. e ≡ Memory };

    fn from(_: AllocError) -> Self {
        RunErr::NoMemory
    }
}

impl<T: Drop> From<AllocFailed<T>> for RunErr {
    ghost use Rattle.std.specs.Prelude.{◌≡◌};
    ghost use Rattle.pod_runner.specs.declared.phase.RunErr.TheVariants.{NoMemory as Memory};

    ghost from_gives = { λ _ e. e ≡ Memory };

    fn from(_: AllocFailed<T>) -> Self {
        RunErr::NoMemory
    }
}
