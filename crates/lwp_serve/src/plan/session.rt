// A script is read, and run with all lines in place.
ghost use Rattle.std.specs.Prelude.{◌≡◌, ◌≤◌, IfOk, OnOk, OnErr, IsErrOf};
ghost use Rattle.lwp_types.specs.Streams.{Rose};
ghost use Rattle.script_body.specs.Stocked.{stock_of};
ghost use Rattle.script_body.specs.Posted.{IsPosted};
ghost use Rattle.script_text.specs.Limits.{IsWithinLimits};
ghost use Rattle.lwp_serve.specs.Plan.Plan.{IsBroken, IsPart, IsPlan, IsPlayed, IsStopped, IsWhole};
ghost use Rattle.script_session.specs.SoFar.{opening_run};
ghost use Rattle.streams.specs.Streams.{sides};

use crate::plan::lines::counts_left;
use lwp_types::{Sink, Source};
use pod_runner::{Run, RunErr, run};
use script_body::{ScriptGate, ScriptProgram, ThreadBody, stock};
use script_session::{Session, SessionEnd, end_of, read_whole, session_of, start};
use script_text::Script;
use std::alloc::Global;
use streams::write_all;
use trace_text::{Halt, end_lines};

// A run over a gate goes on to its end, and then what follows its lines is written. It stands apart, so that the loop of a run
// isn't part of a function with many more locals.
#[inline(never)]
fn run_out<'s, K: Sink>(
    alloc: Global,
    turns: u64,
    script: &Script,
    played: &mut Run<'s, ThreadBody<'s>, ScriptProgram<'s>>,
    gate: &mut ScriptGate<'s>,
    sink: &mut K,
) -> Result<Halt, RunErr>
    requires posted { IsPosted script.now }
    requires opening { played.old ≡ opening_run script.now turns }
    requires stocked { gate.old ≡ stock_of script.now }
    ensures whole { IfOk result
        (λ halt.
        IsWhole turns script.now (K.written sink.old) (K.written sink.new) played.new.takes
        played.new.calls halt) }
    ensures part { OnErr result
        (IsPart turns script.now (K.written sink.old) (K.written sink.new) played.new.takes
        played.new.calls) }
    ensures stopped { IsErrOf result RunErr.NoMemory →
        IsStopped script.now (K.written sink.old) (K.written sink.new) played.new.takes
        played.new.calls }
    ensures broken { IsErrOf result RunErr.WriteFault →
        IsBroken turns script.now (K.written sink.old) (K.written sink.new) played.new.takes
        played.new.calls }
    ensures faults { OnOk result (K.faults sink.new ≡ K.faults sink.old) }
    ensures cause { IsErrOf result RunErr.WriteFault → Rose (K.faults sink.old) (K.faults sink.new) }
    ensures memory { IsErrOf result RunErr.NoMemory → K.faults sink.new ≡ K.faults sink.old }
{
    let halt = run(played, gate, sink)?;
    let left = counts_left(alloc, script.clients.as_slice(), gate)?;
    let tail = end_lines(alloc, &halt, turns, &left)?;
    match write_all(sink, &tail) {
        Ok(()) => Ok(halt),
        Err(_) => Err(RunErr::WriteFault),
    }
}

/// The session of a script, with so many turns allowed and all lines in place.
pub fn play_script<K: Sink>(alloc: Global, turns: u64, script: &Script, sink: &mut K) -> Session
    requires within { IsWithinLimits script.now }
    requires posted { IsPosted script.now }
    ensures { IsPlayed turns script.now (sides K.written K.faults sink.old sink.new) result }
{
    let Ok(mut played) = start(alloc, script, turns) else {
        return Session::unread(alloc, SessionEnd::NoMemory);
    };
    let Ok(mut gate) = stock(alloc, script) else {
        return Session::unread(alloc, SessionEnd::NoMemory);
    };
    match run_out(alloc, turns, script, &mut played, &mut gate, sink) {
        Ok(halt) => session_of(end_of(halt), played),
        Err(RunErr::WriteFault) => session_of(SessionEnd::WriteFault, played),
        Err(RunErr::NoMemory) => session_of(SessionEnd::NoMemory, played),
    }
}

/// Reads a script to its end and runs it, all lines in place, with so many turns allowed. Nothing is written before all is read.
pub fn plan_main<S: Source, K: Sink>(
    alloc: Global,
    turns: u64,
    source: &mut S,
    sink: &mut K,
) -> Session
    requires least { 1 ≤ turns }
    requires most { turns ≤ 1000000 }
    ensures { IsPlan turns (sides S.left S.faults source.old source.new)
        (sides K.written K.faults sink.old sink.new) result }
{
    match read_whole(alloc, source) {
        Ok(script) => play_script(alloc, turns, &script, sink),
        Err(end) => Session::unread(alloc, end),
    }
}
