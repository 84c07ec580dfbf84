// How a session ends, by its core.
ghost use Rattle.lwp_explore.specs.KindCodes.{code_kind, kind_code};
ghost use Rattle.std.specs.Prelude.{◌≡◌, ◌<◌};

/// A kind of end: the pod has ended, with a status; no thread may run and no line can be taken; or calls alone go on for ever.
#[derive(Clone, Copy, Debug, PartialEq, Eq)]
pub enum End {
    Ended(u32),
    Stuck,
    Endless,
}

/// A kind of end, and whether some client has lines that were not taken.
#[derive(Clone, Copy, Debug, PartialEq, Eq)]
pub struct Kind {
    pub end: End,
    pub left: bool,
}

/// The number of a kind, for the search. An endless one has that of all cores from which a call is the only step.
pub fn number_of(kind: Kind) -> u32
    requires { kind_code kind < 4294967296 }
    ensures { result ≡ kind_code kind }
{
    let first = match kind.end {
        End::Ended(status) => 4 + 2 * status,
        End::Stuck => 0,
        End::Endless => 2,
    };
    if kind.left { first + 1 } else { first }
}

/// The kind of this number.
pub fn kind_of(number: u32) -> Kind
    ensures code { kind_code result ≡ number }
    ensures value { result ≡ code_kind number }
{
    let half = number / 2;
    let end = if half == 0 {
        End::Stuck
    } else if half == 1 {
        End::Endless
    } else {
        End::Ended(half - 2)
    };
    Kind {
        end,
        left: number % 2 == 1,
    }
}
