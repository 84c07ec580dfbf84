// What one client is told in a script's session.
ghost use Rattle.c_sessions.specs.Answered.{answers_text};
ghost use Rattle.c_sessions.specs.Planned.{TellsPlan};
ghost use Rattle.c_sessions.specs.Records.{session_record};
ghost use Rattle.script_text.specs.Spelling.{verdict};
ghost use Rattle.std.specs.Prelude.{◌≡◌, ◌==◌, ◌≤◌, IfOk, is_ok, length, take};

use crate::front_sink::FrontSink;
use crate::outcome::{Outcome, session_record};
use crate::planned::refused;
use crate::slice_source::SliceSource;
use lwp_serve::{answers_main, is_over};
use lwp_types::NoMemory;
use script_session::{Session, SessionEnd};
use std::alloc::Global;

// The outcome of a session to its end.
fn whole(session: &Session, sink: FrontSink, room: usize) -> Result<Outcome, NoMemory>
    ensures front { IfOk result (λ told. told.front.items ≡ take room sink.bytes) }
    ensures len { IfOk result (λ told. told.len ≡ length sink.bytes) }
    ensures record { IfOk result (λ told. told.record
        ≡ session_record session.now.end session.now.turns (length session.now.taken)) }
{
    let record = session_record(session.end, session.turns, session.taken.len() as u64);
    let len = sink.count() as usize;
    match sink.into_front(room) {
        Some(front) => Ok(Outcome { front, len, record }),
        None => Err(NoMemory),
    }
}

/// Reads a script and runs it as `plan` does. The outcome has, in place of the trace, what this client is told: of each accepted reply
/// to an agent of its event, the text and a newline. A client that the script doesn't declare is told nothing.
pub fn answers(
    alloc: Global,
    script: &[u8],
    client: u8,
    calls: u64,
    room: usize,
) -> Result<Outcome, NoMemory>
    requires client { client ≤ 15 }
    requires least { 1 ≤ calls }
    requires most { calls ≤ 1000000 }
    ensures front { IfOk result
        (λ told. told.front.items ≡ take room (answers_text script.now client calls)) }
    ensures len { IfOk result (λ told. told.len ≡ length (answers_text script.now client calls)) }
    ensures record { IfOk result (λ told. TellsPlan (verdict script.now) calls told.record) }
    ensures reason { IfOk result (λ told. (told.record.reason == 0) ≡ is_ok (verdict script.now)) }
{
    let mut sink = FrontSink::new(alloc, room);
    let mut source = SliceSource { left: script };
    let session = answers_main(alloc, client, calls, &mut source, &mut sink);
    if let SessionEnd::Script { line, reason } = session.end {
        return refused(alloc, line, reason, room);
    }
    if !is_over(session.end) {
        return Err(NoMemory);
    }
    whole(&session, sink, room)
}
