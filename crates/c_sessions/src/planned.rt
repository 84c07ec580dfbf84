// A script is run with all lines of its clients in place.
ghost use Rattle.std.specs.Prelude.{◌≡◌, ◌==◌, IfOk, false, is_ok, length, take, true};
ghost use Rattle.c_sessions.specs.Planned.{TellsPlan, TellsScript, plan_text, refusal};
ghost use Rattle.lwp_serve.specs.Plan.Planned.{trace_of};
ghost use Rattle.script_body.specs.Posted.{IsPosted};
ghost use Rattle.script_session.specs.Texts.{fault_text};
ghost use Rattle.script_session.specs.declared.session.SessionEnd.TheVariants as end;
ghost use Rattle.script_text.specs.Limits.{IsWithinLimits};
ghost use Rattle.script_text.specs.Spelling.{verdict};

use crate::front_sink::FrontSink;
use crate::outcome::{Outcome, outcome_of, session_record};
use lwp_serve::{is_over, play_script};
use lwp_types::NoMemory;
use script_session::{SessionEnd, fault_text};
use script_text::{ReadErr, Reason, Script, read_script};
use std::alloc::Global;

/// What is told of bytes that are no script.
pub(crate) fn refused(
    alloc: Global,
    line: u32,
    reason: Reason,
    room: usize,
) -> Result<Outcome, NoMemory>
    ensures front { IfOk result
        (λ told. told.front.items ≡ take room (fault_text (end.Script line reason))) }
    ensures len { IfOk result (λ told. told.len ≡ length (fault_text (end.Script line reason))) }
    ensures record { IfOk result (λ told. told.record ≡ refusal line reason) }
    ensures reason { IfOk result (λ told. (told.record.reason == 0) ≡ false) }
{
    let end = SessionEnd::Script { line, reason };
    let text = fault_text(alloc, &end)?;
    Ok(outcome_of(text, room, session_record(end, 0, 0)))
}

// The session of a script.
fn plan_script(alloc: Global, script: &Script, calls: u64, room: usize) -> Result<Outcome, NoMemory>
    requires within { IsWithinLimits script.now }
    requires posted { IsPosted script.now }
    ensures front { IfOk result (λ told. told.front.items ≡ take room (trace_of script.now calls)) }
    ensures len { IfOk result (λ told. told.len ≡ length (trace_of script.now calls)) }
    ensures record { IfOk result (λ told. TellsScript script.now calls told.record) }
    ensures reason { IfOk result (λ told. (told.record.reason == 0) ≡ true) }
{
    let mut sink = FrontSink::new(alloc, room);
    let session = play_script(alloc, calls, script, &mut sink);
    if !is_over(session.end) {
        return Err(NoMemory);
    }
    let record = session_record(session.end, session.turns, session.taken.len() as u64);
    let len = sink.count() as usize;
    // The sink still has that room, but a run's contract speaks of what was written alone.
    let Some(front) = sink.into_front(room) else {
        return Err(NoMemory);
    };
    Ok(Outcome { front, len, record })
}

/// Reads a script and runs it, all lines in place, with so many calls allowed. The outcome has as many of the first bytes of the trace
/// as are asked for; of bytes that are no script, of the line that says why.
#[tactic(auto, unfolding(crate::specs::Planned::plan_text))]
pub fn plan(alloc: Global, script: &[u8], calls: u64, room: usize) -> Result<Outcome, NoMemory>
    ensures front { IfOk result (λ told. told.front.items ≡ take room (plan_text script.now calls)) }
    ensures len { IfOk result (λ told. told.len ≡ length (plan_text script.now calls)) }
    ensures record { IfOk result (λ told. TellsPlan (verdict script.now) calls told.record) }
    // It has no reason exactly where the bytes are a script.
    ensures reason { IfOk result (λ told. (told.record.reason == 0) ≡ is_ok (verdict script.now)) }
{
    match read_script(alloc, script) {
        Ok(script) => plan_script(alloc, &script, calls, room),
        Err(ReadErr::NoMemory) => Err(NoMemory),
        Err(ReadErr::Bad { line, reason }) => refused(alloc, line, reason, room),
    }
}
