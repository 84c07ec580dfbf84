// A run goes on while threads post to it.
ghost use Rattle.event_gate.specs.Inlet.{EachInlet};
ghost use Rattle.script_run.specs.Served.{Gave, lines_in_all};
ghost use Rattle.script_run.specs.Ties.{IsClosed, IsSameOutside, IsTied, all_texts, events_of, intakes};
ghost use Rattle.script_run.specs.Beside.{AreBack, GoesBeside, KnowAll};
ghost use Rattle.script_body.specs.Bodies.{bodies_of, body_next};
ghost use Rattle.pod_runner.specs.Live.{Answers, Halts};
ghost use Rattle.std.specs.Prelude.{IfOk, OnOk, Some, false, ◌≡◌};
ghost use Rattle.streams.specs.Streams.{sides};

use crate::{AllPosted, Outside, closed_are_served, draws_keep_ties};
use event_gate::Bell;
use lwp_types::Sink;
use pod_runner::{Live, Run, RunErr, run_live};
use script_body::{ScriptProgram, ThreadBody};
use std::sync::Wait;
use std::thread::Threads;
use trace_text::Halt;

/// A run to its end: how it has ended, and that all lines were posted.
#[derive(Drop)]
pub struct WholeRun {
    pub halt: Halt,
    pub posted: Option<AllPosted>,
}

// The run goes on until it is over or quiet.
fn go_live<'s, K: Sink, R: Wait>(
    rt: &R,
    played: &mut Run<'s, ThreadBody<'s>, ScriptProgram<'s>>,
    outside: &mut Outside<'s>,
    sink: &mut K,
) -> Result<Live, RunErr>
    requires sound { played.old.failed ≡ false }
    requires tied { IsTied outside.old }
    ensures goes { GoesBeside (sides K.written K.faults sink.old sink.new) played.old played.new
        (intakes outside.old) (intakes outside.new) result }
    ensures tied { IsTied outside.new }
    ensures same { IsSameOutside outside.old outside.new }
    ensures gave { EachInlet Gave (intakes outside.old) (intakes outside.new) }
    ensures closed { IsClosed outside.old → IsClosed outside.new }
    ensures answers { IfOk result
        (Answers body_next bodies_of played.new (intakes outside.old) (intakes outside.new)) }
{
    draws_keep_ties();
    run_live(rt, played, &mut outside.inlets, sink)
}

// What the sink has gathered is handed on, so that nobody waits for lines that are written; then the pod waits for the bell.
fn rest<K: Sink, R: Wait>(rt: &R, bell: &Bell, sink: &mut K)
    ensures same { K.written sink.new ≡ K.written sink.old }
    ensures cause { K.faults sink.new ≡ K.faults sink.old }
{
    sink.hand_on();
    bell.park(rt);
}

// The run goes on until it is over or all threads have left the bell. Where it is quiet and some thread hasn't, it waits.
fn run_while_posting<'s, K: Sink, R: Wait>(
    rt: &R,
    played: &mut Run<'s, ThreadBody<'s>, ScriptProgram<'s>>,
    outside: &mut Outside<'s>,
    bell: &Bell,
    clients: u32,
    sink: &mut K,
) -> Result<(), RunErr>
    requires sound { played.old.failed ≡ false }
    requires tied { IsTied outside.old }
    ensures goes { GoesBeside (sides K.written K.faults sink.old sink.new) played.old played.new
        (intakes outside.old) (intakes outside.new) result }
    ensures tied { IsTied outside.new }
    ensures same { IsSameOutside outside.old outside.new }
{
    for _ in rt.forever() {
        match go_live(rt, played, outside, sink)? {
            Live::Halt(_) => return Ok(()),
            Live::Quiet if bell.gone(rt) >= clients => return Ok(()),
            Live::Quiet => rest(rt, bell, sink),
        }
    }
    unreachable!()
}

// All threads have ended, and the run goes on to its end with all that they have posted.
fn drain<'s, K: Sink, R: Wait>(
    rt: &R,
    played: &mut Run<'s, ThreadBody<'s>, ScriptProgram<'s>>,
    outside: &mut Outside<'s>,
    sink: &mut K,
) -> Result<Halt, RunErr>
    requires sound { played.old.failed ≡ false }
    requires tied { IsTied outside.old }
    requires closed { IsClosed outside.old }
    ensures goes { GoesBeside (sides K.written K.faults sink.old sink.new) played.old played.new
        (intakes outside.old) (intakes outside.new) result }
    ensures gave { EachInlet Gave (intakes outside.old) (intakes outside.new) }
    ensures back { AreBack (events_of outside.old) (all_texts outside.old) (intakes outside.new) }
    ensures halts { IfOk result (Halts body_next bodies_of played.new (intakes outside.new)) }
{
    closed_are_served();
    match go_live(rt, played, outside, sink)? {
        Live::Halt(halt) => Ok(halt),
        Live::Quiet => unreachable!(),
    }
}

/// The run goes on to its end: first while the threads post, and when all have ended with what they have posted. They have ended
/// after an error too. A post that was refused counts as out of memory.
pub fn go_to_end<'s, K: Sink, R: Threads + Wait>(
    rt: &R,
    played: &mut Run<'s, ThreadBody<'s>, ScriptProgram<'s>>,
    outside: &mut Outside<'s>,
    bell: &Bell,
    clients: u32,
    sink: &mut K,
) -> Result<WholeRun, RunErr>
    requires sound { played.old.failed ≡ false }
    requires tied { IsTied outside.old }
    ensures goes { GoesBeside (sides K.written K.faults sink.old sink.new) played.old played.new
        (intakes outside.old) (intakes outside.new) result }
    ensures back { AreBack (events_of outside.old) (all_texts outside.old) (intakes outside.new) }
    ensures all { OnOk result
        (KnowAll (events_of outside.old) (all_texts outside.old) (intakes outside.new)) }
    ensures halts { IfOk result
        (λ run. Halts body_next bodies_of played.new (intakes outside.new) run.halt) }
    ensures posted { IfOk result (λ run. run.posted ≡ Some (lines_in_all (all_texts outside.old))) }
{
    let beside = run_while_posting(rt, played, outside, bell, clients, sink);
    let posted = outside.close(rt);
    beside?;
    if posted.is_none() {
        return Err(RunErr::NoMemory);
    }
    let halt = drain(rt, played, outside, sink)?;
    Ok(WholeRun { halt, posted })
}
