// The state of a run is written as a text.
ghost use Rattle.lwp_state.specs.Shown.{IsStateOf, IsToldBy};
ghost use Rattle.pod_runner.specs.Run.{GoesOn};
ghost use Rattle.script_body.specs.Posted.{IsPosted};
ghost use Rattle.script_session.specs.SoFar.{opening_run};
ghost use Rattle.script_session.specs.declared.session.SessionEnd.TheVariants as end;
ghost use Rattle.script_text.specs.Limits.{IsWithinLimits};
ghost use Rattle.script_text.specs.Script.{proc_names};
ghost use Rattle.std.specs.Prelude.{◌≡◌, false, IfOk};
ghost use Rattle.streams.specs.Streams.{sides};

use crate::clients::clients_of;
use lists::TextList;
use lwp_serve::Told;
use lwp_types::{NoMemory, Program, Sink};
use pod_runner::Run;
use script_body::{ScriptProgram, ThreadBody};
use script_session::{Session, SessionEnd};
use script_text::Script;
use state_text::state_text;
use std::alloc::Global;
use streams::write_all;

/// A run of a script.
pub(crate) type ScriptRun<'s> = Run<'s, ThreadBody<'s>, ScriptProgram<'s>>;

// The names of a script's procedures, by number.
fn proc_names(alloc: Global, script: &Script) -> Result<TextList, NoMemory>
    requires { IsWithinLimits script.now }
    ensures { IfOk result (λ names. names ≡ proc_names script.now) }
{
    let program = ScriptProgram::new(alloc, script);
    let mut names = TextList::new(alloc);
    for proc in 0..program.procs() {
        names.push(program.proc_name(proc))?;
    }
    Ok(names)
}

/// The text of the state that a run of a script has come to. Its trace is read to its end, or not: `whole` says so.
pub(crate) fn text_of_state<'s>(
    alloc: Global,
    script: &Script,
    run: &ScriptRun<'s>,
    whole: bool,
) -> Result<Vec<u8>, NoMemory>
    requires within { IsWithinLimits script.now }
    requires posted { IsPosted script.now }
    requires sound { run.now.failed ≡ false }
    requires plays { GoesOn (opening_run script.now run.now.turns) run.now }
    ensures { IfOk result (λ text. IsStateOf whole script.now run.now.takes run.now.calls text.items) }
{
    let snap = run.snapshot(script.clients.len())?;
    let names = proc_names(alloc, script)?;
    let clients = clients_of(alloc, script)?;
    let text = state_text(alloc, &snap, &names, &clients, whole)?;
    Ok(text)
}

/// Writes what is told of a session, which ends then, or as a write that failed.
pub(crate) fn write_told<K: Sink>(told: Told, sink: &mut K) -> Session
    ensures { IsToldBy told.end told.taken told.turns told.text.items
        (sides K.written K.faults sink.old sink.new) result }
{
    let Told {
        end,
        taken,
        turns,
        text,
    } = told;
    match write_all(sink, &text) {
        Ok(()) => Session::new(end, taken, turns),
        Err(_) => Session::new(SessionEnd::WriteFault, taken, turns),
    }
}

/// What is told of a run of a script that shows its state.
pub(crate) fn told_of_state<'s>(
    alloc: Global,
    script: &Script,
    run: ScriptRun<'s>,
    whole: bool,
) -> Result<Told, NoMemory>
    requires within { IsWithinLimits script.now }
    requires posted { IsPosted script.now }
    requires sound { run.failed ≡ false }
    requires plays { GoesOn (opening_run script.now run.turns) run }
    ensures state { IfOk result (λ told. IsStateOf whole script.now run.entry.takes run.entry.calls told.text.items) }
    ensures takes { IfOk result (λ told. told.taken ≡ run.entry.takes) }
    ensures calls { IfOk result (λ told. told.turns ≡ run.entry.calls) }
    ensures end { IfOk result (λ told. told.end ≡ end.Reported) }
{
    let text = text_of_state(alloc, script, &run, whole)?;
    let turns = run.calls();
    Ok(Told {
        end: SessionEnd::Reported,
        taken: run.into_takes(),
        turns,
        text,
    })
}
