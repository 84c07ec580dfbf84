// What a plan and a run begin and end with: a script is read, it is made a run, and what came of it is told.
ghost use Rattle.script_session.specs.Outcome.{outcome_of};
ghost use Rattle.script_session.specs.SoFar.{opening_names, opening_run};
ghost use Rattle.script_text.specs.Script.{params_of};
ghost use Rattle.script_session.specs.Said.{IsNotRead, IsRead};
ghost use Rattle.script_text.specs.Limits.{IsWithinLimits};
ghost use Rattle.std.specs.Prelude.{◌≡◌, IfErr, IfOk};
ghost use Rattle.streams.specs.Streams.{sides};

use crate::session::{Session, SessionEnd};
use crate::source::{FedReader, SCRIPT_MAX};
use lwp_types::{Env, NoMemory, PodParams, Source};
use pod_runner::Run;
use script_body::{ScriptProgram, ThreadBody};
use script_text::{ReadErr, Script, ScriptReader};
use std::alloc::Global;
use streams::{ReadFailure, feed_up_to};

/// The script that a source holds, which is read to its end; or how the session ends without one. Of what is read only a buffer and
/// the reader are kept.
pub fn read_whole<S: Source>(alloc: Global, source: &mut S) -> Result<Script, SessionEnd>
    ensures read { IfOk result
        (λ script. IsRead (sides S.left S.faults source.old source.new) script) }
    ensures within { IfOk result IsWithinLimits }
    ensures not_read { IfErr result (λ e. IsNotRead (sides S.left S.faults source.old source.new) e) }
{
    let mut fed = FedReader {
        reader: ScriptReader::new(alloc),
    };
    // One byte more than a script may have tells that it is too long.
    match feed_up_to(SCRIPT_MAX + 1, &mut fed, source) {
        Ok(()) => {}
        Err(ReadFailure::Fault) => return Err(SessionEnd::ReadFault),
        Err(ReadFailure::NoMemory) => return Err(SessionEnd::NoMemory),
    }
    match fed.reader.finish() {
        Ok(script) => Ok(script),
        Err(ReadErr::NoMemory) => Err(SessionEnd::NoMemory),
        Err(ReadErr::Bad { line, reason }) => Err(SessionEnd::Script { line, reason }),
    }
}

// What a script says of its pod.
fn params_of(script: &Script) -> PodParams
    requires { IsWithinLimits script.now }
    ensures { result ≡ params_of script.now }
{
    PodParams {
        maxpri: script.maxpri,
        births: script.births,
        procs: (script.procs.len() + script.natives.len()) as u32,
    }
}

// A script's names, which mean nothing yet.
fn names_for(alloc: Global, script: &Script) -> Result<Env, NoMemory>
    requires { IsWithinLimits script.now }
    ensures { IfOk result (λ env. env ≡ opening_names script.now) }
{
    let threads = script.names.threads.len() as u32;
    let mons = script.names.mons.len() as u32;
    let conds = script.names.conds.len() as u32;
    Env::new(alloc, threads, mons, conds)
}

/// A run of a script, before its first call.
pub fn start<'s>(
    alloc: Global,
    script: &'s Script,
    turns: u64,
) -> Result<Run<'s, ThreadBody<'s>, ScriptProgram<'s>>, NoMemory>
    requires { IsWithinLimits script.now }
    ensures { IfOk result (λ run. run ≡ opening_run script.now turns) }
{
    let env = names_for(alloc, script)?;
    Run::new(
        alloc,
        params_of(script),
        ScriptProgram::new(alloc, script),
        env,
        turns,
    )
}

/// The session of a run that has ended so.
pub fn session_of<'s>(
    end: SessionEnd,
    played: Run<'s, ThreadBody<'s>, ScriptProgram<'s>>,
) -> Session
    ensures { result ≡ outcome_of end played.entry.takes played.entry.calls }
{
    let calls = played.calls();
    Session::new(end, played.into_takes(), calls)
}
