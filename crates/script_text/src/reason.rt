// Why bytes aren't a script.
ghost use Rattle.std.specs.Prelude.{◌≡◌};
ghost use Rattle.script_text.specs.declared.reason.ReadErr.TheVariants as read_err;

use lwp_types::NoMemory;

/// Why a line is bad. Where several fit, the first of this order is named.
#[derive(Clone, Copy, Debug, PartialEq, Eq)]
pub enum Reason {
    /// More than 16,777,216 bytes: line 0, before all else.
    TooLarge,
    /// The last line has no newline.
    Unended,
    /// A byte that isn't printable.
    Bytes,
    Header,
    Pod,
    /// A line that begins with `limit`, and isn't the third or doesn't say a limit of 1 to 4,294,967,295 births.
    Limit,
    /// A line that begins with `client`, and may not stand there, or doesn't say the next client's number and an event.
    Client,
    /// A line that begins with `native`, and may not stand there, or doesn't say a new name and what the procedure is.
    Native,
    /// A line that begins with `proc`, and may not stand there, or doesn't say a new name.
    Proc,
    /// A line that begins with `post`, and may not stand there, or isn't a text of a client that may post one more.
    Post,
    /// An `again` that may not end its procedure, or a statement after one.
    Again,
    /// A line that isn't a statement of a procedure, or one that names an undeclared procedure.
    Statement,
    /// The text ends too early: the line is one past the last.
    Missing,
}

/// Why bytes aren't read as a script.
#[derive(Debug, Drop)]
pub enum ReadErr {
    NoMemory,
    /// The first bad line, counted from 1.
    Bad { line: u32, reason: Reason },
}

impl From<NoMemory> for ReadErr {
    ghost from_gives = { λ _ e. e ≡ read_err.NoMemory };

    fn from(_: NoMemory) -> ReadErr {
        ReadErr::NoMemory
    }
}
