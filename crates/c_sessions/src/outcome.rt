// What a session comes to, as C is told.
ghost use Rattle.std.specs.Prelude.{◌≡◌, length, take};
ghost use Rattle.c_sessions.specs.Records.{line_of, reason_number, reason_of, session_record};

use script_session::{SessionEnd, status_of};
use script_text::Reason;

/// How a session ended, as numbers. What doesn't fit its end is 0.
#[repr(C)]
#[derive(Clone, Copy, Drop)]
pub struct SessionRecord {
    /// The status that `lwpserve` would end with.
    pub status: u32,
    /// Of bytes that are no script, why, counted from 1.
    pub reason: u32,
    /// The first bad line of a script, counted from 1, or 0 where the whole is too large; the first line of a recorded trace that
    /// differs, counted from 1.
    pub line: u64,
    /// How many calls were made.
    pub calls: u64,
    /// How many lines of clients were taken.
    pub taken: u64,
}

/// The first bytes of what is told of a session, how many it has in all, and how the session ended.
#[derive(Drop)]
pub struct Outcome {
    pub front: Vec<u8>,
    pub len: usize,
    pub record: SessionRecord,
}

fn reason_number(reason: Reason) -> u32
    ensures { result ≡ reason_number reason }
{
    match reason {
        Reason::TooLarge => 1,
        Reason::Unended => 2,
        Reason::Bytes => 3,
        Reason::Header => 4,
        Reason::Pod => 5,
        Reason::Limit => 6,
        Reason::Client => 7,
        Reason::Native => 8,
        Reason::Proc => 9,
        Reason::Post => 10,
        Reason::Again => 11,
        Reason::Statement => 12,
        Reason::Missing => 13,
    }
}

fn reason_of(end: SessionEnd) -> u32
    ensures { result ≡ reason_of end }
{
    match end {
        SessionEnd::Script { reason, .. } => reason_number(reason),
        _ => 0,
    }
}

fn line_of(end: SessionEnd) -> u64
    ensures { result ≡ line_of end }
{
    match end {
        SessionEnd::Script { line, .. } => u64::from(line),
        SessionEnd::Differs { line } => line,
        _ => 0,
    }
}

/// The record of a session that ended so, with so many calls made and lines taken.
pub(crate) fn session_record(end: SessionEnd, calls: u64, taken: u64) -> SessionRecord
    ensures { result ≡ session_record end calls taken }
{
    SessionRecord {
        status: u32::from(status_of(end)),
        reason: reason_of(end),
        line: line_of(end),
        calls,
        taken,
    }
}

/// The outcome of a session of which this text is told.
pub(crate) fn outcome_of(text: Vec<u8>, room: usize, numbers: SessionRecord) -> Outcome
    ensures front { result.front.items ≡ take room text.items }
    ensures len { result.len ≡ length text.items }
    ensures record { result.record ≡ numbers }
{
    let len = text.len();
    let mut front = text;
    front.truncate(room);
    Outcome {
        front,
        len,
        record: numbers,
    }
}
