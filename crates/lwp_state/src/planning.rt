// A script is read and run with all lines in place, and the state that it comes to is written.
ghost use Rattle.lwp_serve.specs.Plan.Planned.{calls_of, takes_of};
ghost use Rattle.lwp_state.specs.Plan.{IsShown, IsStateAfterPlan};
ghost use Rattle.lwp_state.specs.Shown.{IsStateOf};
ghost use Rattle.pod_runner.specs.Run.{GoesOn};
ghost use Rattle.script_body.specs.Posted.{IsPosted};
ghost use Rattle.script_session.specs.SoFar.{opening_run};
ghost use Rattle.script_session.specs.declared.session.SessionEnd.TheVariants as end;
ghost use Rattle.script_text.specs.Limits.{IsWithinLimits};
ghost use Rattle.std.specs.Prelude.{true, ◌≡◌, ◌≤◌, IfOk, false};
ghost use Rattle.streams.specs.Streams.{sides};

use crate::showing::{ScriptRun, told_of_state, write_told};
use lwp_serve::{Silent, Told};
use lwp_types::{NoMemory, Sink, Source};
use pod_runner::run;
use script_body::stock;
use script_session::{Session, SessionEnd, read_whole, start};
use script_text::Script;
use std::alloc::Global;

// A run of a script to the end of its plan. Its trace is kept by nobody, so that no write of it fails.
fn planned_run<'s>(alloc: Global, calls: u64, script: &'s Script) -> Result<ScriptRun<'s>, NoMemory>
    requires within { IsWithinLimits script.now }
    requires posted { IsPosted script.now }
    ensures sound { IfOk result (λ run. run.failed ≡ false) }
    ensures plays { IfOk result (λ run. GoesOn (opening_run script.now run.turns) run) }
    ensures takes { IfOk result (λ run. run.takes ≡ takes_of script.now calls) }
    ensures calls { IfOk result (λ run. run.calls ≡ calls_of script.now calls) }
{
    let mut played = start(alloc, script, calls)?;
    let mut gate = stock(alloc, script)?;
    match run(&mut played, &mut gate, &mut Silent {}) {
        Ok(_) => Ok(played),
        Err(_) => Err(NoMemory),
    }
}

// What is told of a script's plan.
fn told_of_plan(alloc: Global, calls: u64, script: &Script) -> Result<Told, NoMemory>
    requires within { IsWithinLimits script.now }
    requires posted { IsPosted script.now }
    ensures state { IfOk result
        (λ told.
        IsStateOf true script.now (takes_of script.now calls) (calls_of script.now calls)
        told.text.items) }
    ensures takes { IfOk result (λ told. told.taken ≡ takes_of script.now calls) }
    ensures calls { IfOk result (λ told. told.turns ≡ calls_of script.now calls) }
    ensures end { IfOk result (λ told. told.end ≡ end.Reported) }
{
    let played = planned_run(alloc, calls, script)?;
    told_of_state(alloc, script, played, true)
}

// Shows the state that a script's plan comes to.
fn show_plan<K: Sink>(alloc: Global, calls: u64, script: &Script, sink: &mut K) -> Session
    requires within { IsWithinLimits script.now }
    requires posted { IsPosted script.now }
    ensures { IsShown calls script.now (sides K.written K.faults sink.old sink.new) result }
{
    match told_of_plan(alloc, calls, script) {
        Ok(told) => write_told(told, sink),
        Err(NoMemory) => Session::unread(alloc, SessionEnd::NoMemory),
    }
}

/// Reads a script to its end and runs it, all lines in place, with so many calls allowed, and writes the text of the state that the
/// session comes to. Nothing is written before that. With no call allowed it is the state before the first.
pub fn state_after_plan<S: Source, K: Sink>(
    alloc: Global,
    calls: u64,
    source: &mut S,
    sink: &mut K,
) -> Session
    requires { calls ≤ 1000000 }
    ensures { IsStateAfterPlan calls (sides S.left S.faults source.old source.new)
        (sides K.written K.faults sink.old sink.new) result }
{
    match read_whole(alloc, source) {
        Ok(script) => show_plan(alloc, calls, &script, sink),
        Err(end) => Session::unread(alloc, end),
    }
}
