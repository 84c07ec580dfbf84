// Recorded bytes next to a script.
ghost use Rattle.c_sessions.specs.Replayed.{ReplayTells, TellsVerdict};
ghost use Rattle.script_body.specs.Posted.{IsPosted};
ghost use Rattle.script_text.specs.Limits.{IsWithinLimits};
ghost use Rattle.script_text.specs.Spelling.{verdict};
ghost use Rattle.std.specs.Prelude.{◌≡◌, ◌==◌, IfOk, is_ok, true};

use crate::outcome::{Outcome, outcome_of, session_record};
use crate::planned::refused;
use lwp_serve::{Told, told_by};
use lwp_types::NoMemory;
use script_text::{ReadErr, Script, read_script};
use std::alloc::Global;

// The verdict on recorded bytes.
fn replay_script(
    alloc: Global,
    script: &Script,
    recorded: &[u8],
    calls: u64,
    room: usize,
) -> Result<Outcome, NoMemory>
    requires within { IsWithinLimits script.now }
    requires posted { IsPosted script.now }
    ensures told { IfOk result (λ told. TellsVerdict script.now recorded.now calls room told) }
    ensures reason { IfOk result (λ told. (told.record.reason == 0) ≡ true) }
{
    let Told {
        end,
        taken,
        turns,
        text,
    } = told_by(alloc, calls, script, recorded)?;
    let record = session_record(end, turns, taken.len() as u64);
    Ok(outcome_of(text, room, record))
}

/// Reads a script, and says whether these bytes are a trace of it, of a session of at most so many calls; or which of their lines is
/// the first that differs, which one was to come in its place, and which was recorded.
pub fn replay(
    alloc: Global,
    script: &[u8],
    recorded: &[u8],
    calls: u64,
    room: usize,
) -> Result<Outcome, NoMemory>
    ensures told { IfOk result
        (λ told. ReplayTells (verdict script.now) recorded.now calls room told) }
    ensures reason { IfOk result (λ told. (told.record.reason == 0) ≡ is_ok (verdict script.now)) }
{
    match read_script(alloc, script) {
        Ok(script) => replay_script(alloc, &script, recorded, calls, room),
        Err(ReadErr::NoMemory) => Err(NoMemory),
        Err(ReadErr::Bad { line, reason }) => refused(alloc, line, reason, room),
    }
}
