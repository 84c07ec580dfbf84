// A script is made and run, and its session is summed up.
ghost use Rattle.std.specs.Prelude.{◌≡◌, ◌≤◌, IfOk, OnOk, IsErrOf, length};
ghost use Rattle.lwp_types.specs.Streams.{Rose, after_append};
ghost use Rattle.lwp_serve.specs.Plan.Make.{IsMake, is_over, summary_at_end};
ghost use Rattle.lwp_serve.specs.Maker.Order.{IsAllowed};
ghost use Rattle.lwp_serve.specs.Maker.Summary.{summary_text};
ghost use Rattle.script_text.specs.Grammar.{Spells};
ghost use Rattle.script_text.specs.Limits.{IsWithinLimits};
ghost use Rattle.script_text.specs.declared.script.Script.{Script as AnyScript};
ghost use Rattle.streams.specs.Writing.{AppendsPart};
ghost use Rattle.streams.specs.Streams.{sides};

use crate::maker::{Summary, made_spells, make_script, summary_lines};
use crate::plan::session::play_script;
use lwp_types::{NoMemory, Sink};
use pod_runner::RunErr;
use script_session::{Session, SessionEnd};
use script_text::{ReadErr, Script, read_script};
use std::alloc::Global;
use streams::{CountSink, write_all};

// How many calls are allowed.
const MAKE_TURNS: u64 = 1_000_000;

// The script of a text that spells one.
fn script_of(alloc: Global, text: &[u8]) -> Result<Script, NoMemory>
    requires { (script : AnyScript) × Spells text.now script }
    ensures spelt { IfOk result (λ script. Spells text.now script) }
    ensures within { IfOk result IsWithinLimits }
{
    match read_script(alloc, text) {
        Ok(script) => Ok(script),
        Err(ReadErr::NoMemory) => Err(NoMemory),
        Err(ReadErr::Bad { .. }) => unreachable!(),
    }
}

/// Whether the session of a script has come to its end.
pub fn is_over(end: SessionEnd) -> bool
    ensures { result ≡ is_over end }
{
    matches!(
        end,
        SessionEnd::Ended(_) | SessionEnd::Stuck | SessionEnd::Spent
    )
}

// What is told of a script's session, where its text and its trace have these lengths.
fn summary_of(script: &Script, text: u64, session: &Session, trace: u64) -> Summary
    requires { length session.now.taken ≤ length script.now.posts }
    ensures { result ≡ summary_at_end script.now text session.now trace }
{
    let taken = session.taken.len() as u64;
    Summary {
        script: text,
        calls: session.turns,
        taken,
        left: script.posts.len() as u64 - taken,
        trace,
        status: session.status,
    }
}

// Writes a summary.
fn tell<K: Sink>(alloc: Global, summary: &Summary, sink: &mut K) -> Result<(), RunErr>
    ensures whole { OnOk result
        (K.written sink.new ≡ after_append (K.written sink.old) (summary_text summary.now)) }
    ensures faultless { OnOk result (K.faults sink.new ≡ K.faults sink.old) }
    ensures cut { IsErrOf result RunErr.WriteFault →
        AppendsPart (K.written sink.old) (K.written sink.new) (summary_text summary.now) }
    ensures cause { IsErrOf result RunErr.WriteFault → Rose (K.faults sink.old) (K.faults sink.new) }
    ensures quiet { IsErrOf result RunErr.NoMemory →
        (K.written sink.new ≡ K.written sink.old) × (K.faults sink.new ≡ K.faults sink.old) }
{
    let lines = summary_lines(alloc, summary)?;
    match write_all(sink, &lines) {
        Ok(()) => Ok(()),
        Err(_) => Err(RunErr::WriteFault),
    }
}

/// Makes a script from a seed, with so many clients and so many lines of each, runs it with 1,000,000 calls allowed and all lines in
/// place, and writes five lines that sum up its session. The trace is counted and not kept.
pub fn make_main<K: Sink>(
    alloc: Global,
    seed: u64,
    threads: u32,
    lines: u32,
    sink: &mut K,
) -> Session
    requires { IsAllowed threads lines }
    ensures { IsMake seed threads lines (sides K.written K.faults sink.old sink.new) result }
{
    made_spells();
    let Ok(text) = make_script(alloc, seed, threads, lines) else {
        return Session::unread(alloc, SessionEnd::NoMemory);
    };
    let Ok(script) = script_of(alloc, &text) else {
        return Session::unread(alloc, SessionEnd::NoMemory);
    };
    let mut counted = CountSink::new();
    let session = play_script(alloc, MAKE_TURNS, &script, &mut counted);
    if !is_over(session.end) {
        return session.ending(SessionEnd::NoMemory);
    }
    let summary = summary_of(&script, text.len() as u64, &session, counted.count());
    match tell(alloc, &summary, sink) {
        Ok(()) => session,
        Err(RunErr::WriteFault) => session.ending(SessionEnd::WriteFault),
        Err(RunErr::NoMemory) => session.ending(SessionEnd::NoMemory),
    }
}
