// All sessions of a script.
ghost use Rattle.c_sessions.specs.Explored.{ExploreTells, TellsSessions, search_record};
ghost use Rattle.c_sessions.specs.Planned.{refusal};
ghost use Rattle.lwp_explore.specs.Texts.{fault_text};
ghost use Rattle.lwp_explore.specs.Words.{MayBe};
ghost use Rattle.lwp_explore.specs.declared.ending.Ending.TheVariants as ending;
ghost use Rattle.script_body.specs.Posted.{IsPosted};
ghost use Rattle.script_session.specs.declared.session.SessionEnd.TheVariants as end;
ghost use Rattle.script_text.specs.Limits.{IsWithinLimits};
ghost use Rattle.script_text.specs.Spelling.{verdict};
ghost use Rattle.std.specs.Prelude.{◌≡◌, ◌==◌, IfOk, false, is_ok, length, take, true};

use crate::outcome::{Outcome, SessionRecord, outcome_of, session_record};
use lwp_explore::{Command, Ending, explored, fault_text, status_of};
use lwp_types::NoMemory;
use script_session::SessionEnd;
use script_text::{ReadErr, Reason, Script, read_script};
use std::alloc::Global;

// The record of a search that came to this.
fn search_record(came: Ending) -> SessionRecord
    ensures { result ≡ search_record came }
{
    match came {
        Ending::Other(end) => session_record(end, 0, 0),
        Ending::Well | Ending::Told | Ending::Cut | Ending::Missing => SessionRecord {
            status: u32::from(status_of(came)),
            reason: 0,
            line: 0,
            calls: 0,
            taken: 0,
        },
    }
}

// What is told of bytes that are no script.
fn refused(alloc: Global, line: u32, reason: Reason, room: usize) -> Result<Outcome, NoMemory>
    ensures front { IfOk result
        (λ told. told.front.items ≡ take room (fault_text (ending.Other (end.Script line reason)))) }
    ensures len { IfOk result (λ told. told.len ≡ length (fault_text (ending.Other (end.Script line reason)))) }
    ensures record { IfOk result (λ told. told.record ≡ refusal line reason) }
    ensures reason { IfOk result (λ told. (told.record.reason == 0) ≡ false) }
{
    let end = SessionEnd::Script { line, reason };
    let text = fault_text(alloc, Ending::Other(end))?;
    Ok(outcome_of(text, room, session_record(end, 0, 0)))
}

// What is asked for of a script's sessions.
fn explore_script(
    alloc: Global,
    script: &Script,
    asked: Command,
    line: &[u8],
    room: usize,
) -> Result<Outcome, NoMemory>
    requires within { IsWithinLimits script.now }
    requires posted { IsPosted script.now }
    requires may_be { MayBe asked }
    ensures told { IfOk result (λ told. TellsSessions script.now asked line.now room told) }
    ensures reason { IfOk result (λ told. (told.record.reason == 0) ≡ true) }
{
    let (text, came) = explored(alloc, script, asked, line)?;
    Ok(outcome_of(text, room, search_record(came)))
}

/// Reads a script, goes through all of its sessions, and tells what is asked for: the kinds of ends, the trace of the first of a kind, or
/// the first way to a line, which is this one. The outcome has as many of the first bytes as are asked for; of bytes that are no script, of
/// the line that says why.
pub fn explore(
    alloc: Global,
    script: &[u8],
    asked: Command,
    line: &[u8],
    room: usize,
) -> Result<Outcome, NoMemory>
    requires { MayBe asked }
    ensures told { IfOk result (λ told. ExploreTells (verdict script.now) asked line.now room told) }
    // It has no reason exactly where the bytes are a script.
    ensures reason { IfOk result (λ told. (told.record.reason == 0) ≡ is_ok (verdict script.now)) }
{
    match read_script(alloc, script) {
        Ok(script) => explore_script(alloc, &script, asked, line, room),
        Err(ReadErr::NoMemory) => Err(NoMemory),
        Err(ReadErr::Bad { line, reason }) => refused(alloc, line, reason, room),
    }
}
