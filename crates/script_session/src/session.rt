// What a session of the program comes to.
ghost use Rattle.std.specs.Prelude.{◌≡◌, []};
ghost use Rattle.script_session.specs.Outcome.{end_of, status_of};

use lwp_types::Text;
use pod_runner::TakeList;
use script_text::Reason;
use std::alloc::Global;
use std::marker::Model;
use trace_text::Halt;

/// A line that was taken: how many calls had been made by then, its event, and whose line it was.
#[derive(Drop)]
pub struct Taken<'t> {
    pub turn: u64,
    pub event: u8,
    pub client: u8,
    pub seq: u32,
    pub text: Text<'t>,
}

/// The lines that were taken, the oldest first, as a run keeps them.
#[derive(Drop)]
pub struct TakenLines {
    takes: TakeList,
}

impl Model for TakenLines {
    ghost use Rattle.std.specs.Prelude.{List, map};
    ghost use Rattle.script_session.specs.History.{taken_of};
    ghost use Rattle.script_session.specs.declared.session.Taken.{Taken as OneTaken};

    ghost Value = { List OneTaken };

    ghost view = { λ lines. map taken_of lines.takes };
}

impl TakenLines {
    ghost use Rattle.std.specs.Prelude.{◌≡◌, ◌<◌, length, map, slice_index_or};
    ghost use Rattle.script_session.specs.History.{taken_of};

    /// The lines of these takes.
    pub fn new(takes: TakeList) -> TakenLines
        ensures { result ≡ map taken_of takes }
    {
        TakenLines { takes }
    }

    /// How many lines there are.
    pub fn len(&self) -> usize
        ensures { result ≡ length self.now }
    {
        self.takes.len()
    }

    /// The line at place `i`, counted from 0.
    pub fn get(&self, i: usize) -> Taken<'_>
        requires { i < length self.now }
        ensures { result ≡ slice_index_or self.now i result }
    {
        let took = self.takes.get(i);
        Taken {
            turn: took.turn,
            event: took.event,
            client: took.line.client,
            seq: took.line.seq,
            text: took.line.text,
        }
    }
}

/// How a session ends.
#[derive(Clone, Copy, Debug, PartialEq, Eq)]
pub enum SessionEnd {
    /// The pod has ended, with a status from 0 to 99.
    Ended(u8),
    /// The words are no command.
    Usage,
    ReadFault,
    WriteFault,
    /// The bytes are no script; this is the first line that is bad, and why.
    Script { line: u32, reason: Reason },
    /// Nobody may run, and no line can be taken.
    Stuck,
    /// All calls that are allowed were made.
    Spent,
    NoMemory,
    /// The input isn't parts of scripts; this is the first bad part, counted from 0.
    Input { part: u32 },
    /// What many scripts come to was told.
    Reported,
    /// The recorded bytes are a trace of the script.
    Same,
    /// They are none: this is the first line that differs, counted from 1.
    Differs { line: u64 },
}

/// A session: the status that the program ends with, how it ended, the lines taken, and how many calls were made.
// PROVER: derived, since `ending` moves fields out of a session, which a `Drop` by hand allows only where all are named.
#[derive(Drop)]
pub struct Session {
    pub status: u8,
    pub end: SessionEnd,
    pub taken: TakenLines,
    pub turns: u64,
}

/// The status of an end.
pub fn status_of(end: SessionEnd) -> u8
    ensures { result ≡ status_of end }
{
    match end {
        SessionEnd::Ended(status) => status,
        SessionEnd::Usage => 100,
        SessionEnd::ReadFault => 101,
        SessionEnd::WriteFault => 102,
        SessionEnd::Script { .. } => 103,
        SessionEnd::Stuck => 104,
        SessionEnd::Spent => 105,
        SessionEnd::NoMemory => 106,
        SessionEnd::Input { .. } => 108,
        SessionEnd::Reported => 0,
        SessionEnd::Same => 0,
        SessionEnd::Differs { .. } => 107,
    }
}

/// The end of a session that has come to its end.
pub fn end_of(halt: Halt) -> SessionEnd
    ensures { result ≡ end_of halt }
{
    match halt {
        Halt::Ended(status) => SessionEnd::Ended(status),
        Halt::Stuck => SessionEnd::Stuck,
        Halt::Spent => SessionEnd::Spent,
    }
}

impl Session {
    ghost use Rattle.script_session.specs.Outcome.{outcome_of};

    /// A session with these lines taken.
    pub fn new(end: SessionEnd, takes: TakeList, turns: u64) -> Session
        ensures { result ≡ outcome_of end takes turns }
    {
        Session {
            status: status_of(end),
            end,
            taken: TakenLines::new(takes),
            turns,
        }
    }

    /// A session that ended before its first call.
    pub fn unread(alloc: Global, end: SessionEnd) -> Session
        ensures { result ≡ outcome_of end [] 0 }
    {
        Session::new(end, TakeList::new(alloc), 0)
    }

    /// This session with another end.
    pub fn ending(self, end: SessionEnd) -> Session
        ensures { result ≡ record self { status = status_of end; end = end } }
    {
        Session {
            status: status_of(end),
            end,
            ..self
        }
    }
}
