// A script and a recorded trace are read, and the state at one of its lines is written.
ghost use Rattle.batch.specs.Parts.{LiesIn, content};
ghost use Rattle.lwp_serve.specs.Replaying.Found.{IsNotTold};
ghost use Rattle.lwp_state.specs.Along.{IsLastWithin, lines_by, moment_at, moment_of};
ghost use Rattle.lwp_state.specs.Replay.{IsFound, IsShown, IsShownOf, IsStateInReplay, differs_within, lines_asked};
ghost use Rattle.pod_runner.specs.Run.{GoesOn};
ghost use Rattle.script_body.specs.Posted.{IsPosted};
ghost use Rattle.script_session.specs.SoFar.{AreDue, opening_run, setting_of};
ghost use Rattle.script_text.specs.Limits.{IsWithinLimits};
ghost use Rattle.script_text.specs.Script.{proc_names};
ghost use Rattle.script_text.specs.Spelling.{verdict};
ghost use Rattle.std.specs.Prelude.{◌≡◌, ◌≤◌, IfErr, IfOk, Ok, false, length};
ghost use Rattle.streams.specs.Streams.{sides};

use crate::along::{Reach, Stop, go_to, last_within};
use crate::showing::{ScriptRun, told_of_state, write_told};
use batch::Part;
use lwp_serve::{Silent, Told, read_input, told_by};
use lwp_types::{NoMemory, Sink, Source};
use pod_runner::TakeList;
use replay::line_count;
use script_session::{Session, SessionEnd, start};
use script_text::{ReadErr, Script, read_script};
use std::alloc::Global;

// How many calls the session of a recorded trace may make.
const CALLS: u64 = 100_000;

// How many of the recorded lines are asked for.
fn lines_asked(line: Option<u32>, recorded: &[u8]) -> u64
    ensures { result ≡ lines_asked line recorded.now }
{
    let lines = line_count(recorded);
    match line {
        Some(line) => lines.min(u64::from(line)),
        None => lines,
    }
}

// Whether the session ends since one of the first lines differs.
fn differs_within(end: &SessionEnd, lines: u64) -> bool
    ensures { result ≡ differs_within lines end.now }
{
    match end {
        SessionEnd::Differs { line } => *line <= lines,
        _ => false,
    }
}

// How far the session with these takes has come when the lines of its next step are too many, and how many it has written by then.
fn reach_within(
    alloc: Global,
    script: &Script,
    takes: &TakeList,
    calls: u64,
    lines: u64,
) -> Result<Stop, NoMemory>
    requires within { IsWithinLimits script.now }
    requires due { AreDue script.now takes.now calls }
    ensures within { IfOk result (λ stop. stop.reach.takes ≤ length takes.now) }
    ensures last { IfOk result
        (λ stop.
        IsLastWithin (setting_of script.now) (proc_names script.now) lines (moment_of takes.now calls)
        (moment_at takes.now stop.reach)) }
    ensures lines { IfOk result
        (λ stop.
        stop.lines
        ≡ lines_by (setting_of script.now) (proc_names script.now) (moment_at takes.now stop.reach)) }
{
    let mut run = start(alloc, script, calls)?;
    let end = Reach {
        takes: takes.len(),
        calls,
    };
    match last_within(&mut run, takes, end, lines) {
        Ok(stop) => Ok(stop),
        // The sink has no end that it could come to.
        Err(_) => Err(NoMemory),
    }
}

// A run of a script that has come so far.
fn run_to<'s>(
    alloc: Global,
    script: &'s Script,
    takes: &'s TakeList,
    reach: Reach,
) -> Result<ScriptRun<'s>, NoMemory>
    requires within { IsWithinLimits script.now }
    requires some { reach.takes ≤ length takes.now }
    requires due { AreDue script.now (moment_at takes.now reach).takes reach.calls }
    ensures sound { IfOk result (λ run. run.failed ≡ false) }
    ensures plays { IfOk result (λ run. GoesOn (opening_run script.now run.turns) run) }
    ensures takes { IfOk result (λ run. run.takes ≡ (moment_at takes.now reach).takes) }
    ensures calls { IfOk result (λ run. run.calls ≡ reach.calls) }
{
    let mut run = start(alloc, script, reach.calls)?;
    match go_to(&mut run, takes, reach, &mut Silent {}) {
        Ok(()) => Ok(run),
        Err(_) => Err(NoMemory),
    }
}

// What is told of a script and what was recorded, where the first so many lines are asked for.
fn told_within(
    alloc: Global,
    script: &Script,
    recorded: &[u8],
    lines: u64,
) -> Result<Told, NoMemory>
    requires within { IsWithinLimits script.now }
    requires posted { IsPosted script.now }
    ensures { IfOk result (λ told. IsFound script.now recorded.now lines told) }
{
    let told = told_by(alloc, CALLS, script, recorded)?;
    if differs_within(&told.end, lines) {
        return Ok(told);
    }
    let stop = reach_within(alloc, script, &told.taken, told.turns, lines)?;
    let run = run_to(alloc, script, &told.taken, stop.reach)?;
    let shown = told_of_state(alloc, script, run, stop.lines < lines)?;
    Ok(shown)
}

// The script of an input, or how the session ends without one.
fn script_at(alloc: Global, text: &[u8], part: Part) -> Result<Script, SessionEnd>
    requires { LiesIn text.now part }
    ensures read { IfOk result (λ script. verdict (content text.now part) ≡ Ok script) }
    ensures within { IfOk result IsWithinLimits }
    ensures posted { IfOk result IsPosted }
    ensures none { IfErr result (λ e. IsNotTold text.now part e) }
{
    match read_script(alloc, &text[part.from..part.to]) {
        Ok(script) => Ok(script),
        Err(ReadErr::NoMemory) => Err(SessionEnd::NoMemory),
        Err(ReadErr::Bad { line, reason }) => Err(SessionEnd::Script { line, reason }),
    }
}

// Shows what is told of a script and what was recorded.
fn show_recorded<K: Sink>(
    alloc: Global,
    script: &Script,
    recorded: &[u8],
    lines: u64,
    sink: &mut K,
) -> Session
    requires within { IsWithinLimits script.now }
    requires posted { IsPosted script.now }
    ensures { IsShown script.now recorded.now lines (sides K.written K.faults sink.old sink.new) result }
{
    match told_within(alloc, script, recorded, lines) {
        Ok(told) => write_told(told, sink),
        Err(NoMemory) => Session::unread(alloc, SessionEnd::NoMemory),
    }
}

// Shows what is told of an input in which a script lies here.
fn show_input<K: Sink>(
    alloc: Global,
    line: Option<u32>,
    text: &[u8],
    part: Part,
    sink: &mut K,
) -> Session
    requires { LiesIn text.now part }
    ensures { IsShownOf line text.now part (sides K.written K.faults sink.old sink.new) result }
{
    match script_at(alloc, text, part) {
        Ok(script) => {
            let recorded = &text[part.to..];
            let lines = lines_asked(line, recorded);
            show_recorded(alloc, &script, recorded, lines, sink)
        }
        Err(end) => Session::unread(alloc, end),
    }
}

/// Reads a script and a recorded trace, and writes the text of the state after the last step whose lines all are among the first so
/// many recorded lines, or among all of them; lines past the last are none. If one of these lines differs from every trace of the
/// script, what a replay says of that is written in its place.
pub fn state_in_replay<S: Source, K: Sink>(
    alloc: Global,
    line: Option<u32>,
    source: &mut S,
    sink: &mut K,
) -> Session
    ensures { IsStateInReplay line (sides S.left S.faults source.old source.new)
        (sides K.written K.faults sink.old sink.new) result }
{
    match read_input(alloc, source) {
        Ok(input) => show_input(alloc, line, &input.text, input.part, sink),
        Err(end) => Session::unread(alloc, end),
    }
}
