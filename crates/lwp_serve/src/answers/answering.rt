// A script is read, and run with all lines in place, and what one client is told is written.
ghost use Rattle.std.specs.Prelude.{◌≡◌, ◌≤◌, IfOk, IsErrOf, OnOk};
ghost use Rattle.lwp_types.specs.Streams.{Rose, after_append};
ghost use Rattle.lwp_serve.specs.Answers.Answers.{IsAnswered, IsAnswers, IsCutOff, IsStopped, IsTold};
ghost use Rattle.lwp_serve.specs.Answers.Replies.{agents_after, event_of, texts_told};
ghost use Rattle.script_body.specs.Posted.{IsPosted};
ghost use Rattle.script_body.specs.Stocked.{stock_of};
ghost use Rattle.script_session.specs.SoFar.{opening_run};
ghost use Rattle.script_text.specs.Limits.{IsWithinLimits};
ghost use Rattle.streams.specs.Writing.{AppendsPart};
ghost use Rattle.streams.specs.Streams.{sides};

use crate::answers::notes::Notes;
use crate::answers::silent::Silent;
use lwp_types::{Sink, Source};
use pod_runner::{Made, Run, RunErr, go_round};
use script_body::{ScriptGate, ScriptProgram, ThreadBody, stock};
use script_session::{Session, SessionEnd, end_of, read_whole, session_of, start};
use script_text::Script;
use std::alloc::Global;
use streams::write_all;
use trace_text::Halt;

// The event of a client, if it is declared.
fn event_of(script: &Script, client: u8) -> Option<u8>
    ensures { result ≡ event_of script.now client }
{
    let place = usize::from(client);
    if place < script.clients.len() {
        Some(*script.clients.get(place))
    } else {
        None
    }
}

// Writes what is told of a call, and takes note of it.
fn tell<K: Sink>(
    alloc: Global,
    made: &Option<Made>,
    notes: &mut Notes,
    sink: &mut K,
) -> Result<(), RunErr>
    ensures told { OnOk result
        (K.written sink.new ≡ after_append (K.written sink.old) (texts_told notes.old.agents made.now)) }
    ensures agents { OnOk result
        (notes.new.agents ≡ agents_after notes.old.event notes.old.agents made.now) }
    ensures event { notes.new.event ≡ notes.old.event }
    ensures same { OnOk result (K.faults sink.new ≡ K.faults sink.old) }
    ensures cut { IsErrOf result RunErr.WriteFault →
        AppendsPart (K.written sink.old) (K.written sink.new) (texts_told notes.old.agents made.now) }
    ensures cause { IsErrOf result RunErr.WriteFault → Rose (K.faults sink.old) (K.faults sink.new) }
    ensures quiet { IsErrOf result RunErr.NoMemory →
        (K.written sink.new ≡ K.written sink.old) × (K.faults sink.new ≡ K.faults sink.old) }
{
    let line = notes.texts_told(alloc, made)?;
    notes.pass(made)?;
    match write_all(sink, &line) {
        Ok(()) => Ok(()),
        Err(_) => Err(RunErr::WriteFault),
    }
}

// A run over a gate goes on to its end, and what the client is told in each of its calls is written.
fn answer_out<'s, K: Sink>(
    alloc: Global,
    client: u8,
    script: &Script,
    played: &mut Run<'s, ThreadBody<'s>, ScriptProgram<'s>>,
    gate: &mut ScriptGate<'s>,
    sink: &mut K,
) -> Result<Halt, RunErr>
    requires posted { IsPosted script.now }
    requires opening { played.old ≡ opening_run script.now played.old.turns }
    requires stocked { gate.old ≡ stock_of script.now }
    ensures whole { IfOk result
        (λ halt.
        IsTold client played.old.turns script.now (K.written sink.old) (K.written sink.new)
        played.new.takes played.new.calls halt) }
    ensures cut { IsErrOf result RunErr.WriteFault →
        IsCutOff client played.old.turns script.now (K.written sink.old) (K.written sink.new)
        played.new.takes played.new.calls }
    ensures stopped { IsErrOf result RunErr.NoMemory →
        IsStopped client played.old.turns script.now (K.written sink.old) (K.written sink.new)
        played.new.takes played.new.calls }
    ensures faults { OnOk result (K.faults sink.new ≡ K.faults sink.old) }
    ensures cause { IsErrOf result RunErr.WriteFault → Rose (K.faults sink.old) (K.faults sink.new) }
    ensures memory { IsErrOf result RunErr.NoMemory → K.faults sink.new ≡ K.faults sink.old }
{
    let mut notes = Notes::new(alloc, event_of(script, client));
    let mut silent = Silent {};
    loop {
        let calls = played.calls();
        if let Some(halt) = go_round(played, gate, &mut silent)? {
            return Ok(halt);
        }
        if played.calls() != calls {
            tell(alloc, &played.made(), &mut notes, sink)?;
        }
    }
}

// What a client is told in the session of a script, with so many turns allowed and all lines in place.
fn play_answers<K: Sink>(
    alloc: Global,
    client: u8,
    turns: u64,
    script: &Script,
    sink: &mut K,
) -> Session
    requires within { IsWithinLimits script.now }
    requires posted { IsPosted script.now }
    ensures { IsAnswered client turns script.now (sides K.written K.faults sink.old sink.new) result }
{
    let Ok(mut played) = start(alloc, script, turns) else {
        return Session::unread(alloc, SessionEnd::NoMemory);
    };
    let Ok(mut gate) = stock(alloc, script) else {
        return Session::unread(alloc, SessionEnd::NoMemory);
    };
    match answer_out(alloc, client, script, &mut played, &mut gate, sink) {
        Ok(halt) => session_of(end_of(halt), played),
        Err(RunErr::WriteFault) => session_of(SessionEnd::WriteFault, played),
        Err(RunErr::NoMemory) => session_of(SessionEnd::NoMemory, played),
    }
}

/// Reads a script to its end and runs it, all lines in place, with so many turns allowed, and writes in place of the trace what one
/// client is told: of each accepted reply to an agent of its event, the text and a newline. A client that the script doesn't declare
/// is told nothing. Nothing is written before all is read.
pub fn answers_main<S: Source, K: Sink>(
    alloc: Global,
    client: u8,
    turns: u64,
    source: &mut S,
    sink: &mut K,
) -> Session
    requires client { client ≤ 15 }
    requires least { 1 ≤ turns }
    requires most { turns ≤ 1000000 }
    ensures { IsAnswers client turns (sides S.left S.faults source.old source.new)
        (sides K.written K.faults sink.old sink.new) result }
{
    match read_whole(alloc, source) {
        Ok(script) => play_answers(alloc, client, turns, &script, sink),
        Err(end) => Session::unread(alloc, end),
    }
}
