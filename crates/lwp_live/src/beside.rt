// A run goes on beside the thread that posts to it.
ghost use Rattle.event_gate.specs.Inlet.{AllTold, EventsRise, Intake};
ghost use Rattle.lwp_live.specs.Telling.{Answering, AreNotesOf, Untold, as_run, steps_of};
ghost use Rattle.pod_runner.specs.Inlets.{Serves};
ghost use Rattle.pod_runner.specs.Live.{Answers, AnswersIf, Halts, LivesOn};
ghost use Rattle.pod_runner.specs.Ready.{IsReady};
ghost use Rattle.pod_runner.specs.Run.{phase_now, with_call};
ghost use Rattle.pod_runner.specs.declared.phase.Phase.TheVariants as phase;
ghost use Rattle.script_run.specs.Ties.{any_intake};
ghost use Rattle.std.specs.Prelude.{◌≡◌, List, false, length, map, IfOk, OnOk};
ghost use Rattle.streams.specs.Streams.{sides};

use crate::notes::Notes;
use crate::stop::Stop;
use event_gate::Bell;
use lwp_types::{Polled, Program, Sink};
use pod_runner::{Live, Phase, Run, all_told, serve_all};
use script_run::AnyInlet;
use std::alloc::Global;
use std::sync::Wait;
use streams::write_all;
use trace_text::Halt;

// Lines are taken, one of each inlet at most, and it is noted whose they are.
fn serve<'s, B: Polled<'s>, P: Program<B>, T: Sink, R: Wait>(
    rt: &R,
    run: &mut Run<'s, B, P>,
    inlets: &mut Vec<AnyInlet<'s>>,
    notes: &mut Notes,
    trace: &mut T,
) -> Result<(), Stop>
    requires ready { IsReady B.next P.bodies run.old }
    requires rise { EventsRise (map any_intake inlets.old.items) }
    requires notes { AreNotesOf B.next P.bodies run.old notes.old }
    ensures lives { LivesOn B.next P.bodies P.proc_names
        (sides T.written T.faults trace.old trace.new) run.old run.new (map any_intake inlets.old.items)
        (map any_intake inlets.new.items) (as_run result) }
    ensures served { OnOk result
        (Serves B.next P.bodies (length (map any_intake inlets.old.items)) run.old run.new
        (map any_intake inlets.old.items) (map any_intake inlets.new.items)) }
    ensures told { Untold (steps_of B.next P.bodies run.old) (steps_of B.next P.bodies run.new) result }
    ensures notes { OnOk result (AreNotesOf B.next P.bodies run.new notes.new) }
{
    let before = run.takes();
    serve_all(rt, run, inlets, trace)?;
    for i in before..run.takes() {
        notes.take(&run.take_at(i));
    }
    Ok(())
}

// A call is made, and what it tells a client is written.
fn call<'s, B: Polled<'s>, P: Program<B>, T: Sink, K: Sink>(
    alloc: Global,
    run: &mut Run<'s, B, P>,
    notes: &mut Notes,
    trace: &mut T,
    answers: &mut K,
) -> Result<(), Stop>
    requires ready { IsReady B.next P.bodies run.old }
    requires due { phase_now B.next P.bodies run.old ≡ phase.Turn }
    requires notes { AreNotesOf B.next P.bodies run.old notes.old }
    ensures after { OnOk result (run.new ≡ with_call run.old) }
    ensures lives { (inlets : List Intake) →
        LivesOn B.next P.bodies P.proc_names (sides T.written T.faults trace.old trace.new) run.old
        run.new inlets inlets (as_run result) }
    ensures told { Answering (sides K.written K.faults answers.old answers.new)
        (steps_of B.next P.bodies run.old) (steps_of B.next P.bodies run.new) result }
    ensures notes { OnOk result (AreNotesOf B.next P.bodies run.new notes.new) }
{
    run.turn(trace)?;
    let made = run.made();
    let line = notes.told_of(alloc, &made)?;
    notes.pass(&made)?;
    match write_all(answers, &line) {
        Ok(()) => Ok(()),
        Err(_) => Err(Stop::AnswerFault),
    }
}

// A round where nobody may run: lines are taken, and where there was none the session is stuck or quiet.
fn idle_round<'s, B: Polled<'s>, P: Program<B>, T: Sink, R: Wait>(
    rt: &R,
    run: &mut Run<'s, B, P>,
    inlets: &mut Vec<AnyInlet<'s>>,
    notes: &mut Notes,
    trace: &mut T,
) -> Result<Option<Live>, Stop>
    requires ready { IsReady B.next P.bodies run.old }
    requires rise { EventsRise (map any_intake inlets.old.items) }
    requires idle { phase_now B.next P.bodies run.old ≡ phase.Idle }
    requires notes { AreNotesOf B.next P.bodies run.old notes.old }
    ensures lives { LivesOn B.next P.bodies P.proc_names
        (sides T.written T.faults trace.old trace.new) run.old run.new (map any_intake inlets.old.items)
        (map any_intake inlets.new.items) (as_run result) }
    ensures answers { IfOk result
        (AnswersIf B.next P.bodies run.new (map any_intake inlets.old.items)
        (map any_intake inlets.new.items)) }
    ensures told { Untold (steps_of B.next P.bodies run.old) (steps_of B.next P.bodies run.new) result }
    ensures notes { OnOk result (AreNotesOf B.next P.bodies run.new notes.new) }
{
    let taken = run.takes();
    serve(rt, run, inlets, notes, trace)?;
    if run.takes() != taken {
        return Ok(None);
    }
    if all_told(inlets) {
        return Ok(Some(Live::Halt(Halt::Stuck)));
    }
    Ok(Some(Live::Quiet))
}

// Lines are taken, and then, if somebody may run, a call is made; unless the session has ended or is quiet, which is told.
fn go_round<'s, B: Polled<'s>, P: Program<B>, T: Sink, K: Sink, R: Wait>(
    rt: &R,
    alloc: Global,
    run: &mut Run<'s, B, P>,
    inlets: &mut Vec<AnyInlet<'s>>,
    notes: &mut Notes,
    trace: &mut T,
    answers: &mut K,
) -> Result<Option<Live>, Stop>
    requires sound { run.old.failed ≡ false }
    requires rise { EventsRise (map any_intake inlets.old.items) }
    requires notes { AreNotesOf B.next P.bodies run.old notes.old }
    ensures lives { LivesOn B.next P.bodies P.proc_names
        (sides T.written T.faults trace.old trace.new) run.old run.new (map any_intake inlets.old.items)
        (map any_intake inlets.new.items) (as_run result) }
    ensures answers { IfOk result
        (AnswersIf B.next P.bodies run.new (map any_intake inlets.old.items)
        (map any_intake inlets.new.items)) }
    ensures told { Answering (sides K.written K.faults answers.old answers.new)
        (steps_of B.next P.bodies run.old) (steps_of B.next P.bodies run.new) result }
    ensures notes { OnOk result (AreNotesOf B.next P.bodies run.new notes.new) }
{
    match run.phase() {
        Phase::Ended(status) => Ok(Some(Live::Halt(Halt::Ended(status)))),
        Phase::Spent => Ok(Some(Live::Halt(Halt::Spent))),
        Phase::Turn => {
            serve(rt, run, inlets, notes, trace)?;
            call(alloc, run, notes, trace, answers)?;
            Ok(None)
        }
        Phase::Idle => idle_round(rt, run, inlets, notes, trace),
    }
}

// What the sinks have gathered is handed on, so that nobody waits for lines that are written; then the pod waits for the bell.
fn rest<T: Sink, K: Sink, R: Wait>(rt: &R, bell: &Bell, trace: &mut T, answers: &mut K)
    ensures trace { (T.written trace.new ≡ T.written trace.old) × (T.faults trace.new ≡ T.faults trace.old) }
    ensures answers { (K.written answers.new ≡ K.written answers.old)
        × (K.faults answers.new ≡ K.faults answers.old) }
{
    trace.hand_on();
    answers.hand_on();
    bell.park(rt);
}

/// The run goes on until it is over or the reader has left the bell. Where it is quiet and the reader hasn't, it waits. It stops where
/// memory is wanting or a sink fails.
pub fn go_beside<'s, B: Polled<'s>, P: Program<B>, T: Sink, K: Sink, R: Wait>(
    rt: &R,
    alloc: Global,
    run: &mut Run<'s, B, P>,
    inlets: &mut Vec<AnyInlet<'s>>,
    bell: &Bell,
    notes: &mut Notes,
    trace: &mut T,
    answers: &mut K,
) -> Result<(), Stop>
    requires sound { run.old.failed ≡ false }
    requires rise { EventsRise (map any_intake inlets.old.items) }
    requires notes { AreNotesOf B.next P.bodies run.old notes.old }
    ensures lives { LivesOn B.next P.bodies P.proc_names
        (sides T.written T.faults trace.old trace.new) run.old run.new (map any_intake inlets.old.items)
        (map any_intake inlets.new.items) (as_run result) }
    ensures told { Answering (sides K.written K.faults answers.old answers.new)
        (steps_of B.next P.bodies run.old) (steps_of B.next P.bodies run.new) result }
    ensures notes { OnOk result (AreNotesOf B.next P.bodies run.new notes.new) }
{
    for _ in rt.forever() {
        match go_round(rt, alloc, run, inlets, notes, trace, answers)? {
            None => {}
            Some(Live::Halt(_)) => return Ok(()),
            Some(Live::Quiet) => {
                if bell.gone(rt) > 0 {
                    return Ok(());
                }
                rest(rt, bell, trace, answers);
            }
        }
    }
    unreachable!()
}

/// The reader has ended, and the run goes on to its end with whatever it has posted. It stops where memory is wanting or a sink fails.
pub fn go_after<'s, B: Polled<'s>, P: Program<B>, T: Sink, K: Sink, R: Wait>(
    rt: &R,
    alloc: Global,
    run: &mut Run<'s, B, P>,
    inlets: &mut Vec<AnyInlet<'s>>,
    notes: &mut Notes,
    trace: &mut T,
    answers: &mut K,
) -> Result<Halt, Stop>
    requires sound { run.old.failed ≡ false }
    requires rise { EventsRise (map any_intake inlets.old.items) }
    requires notes { AreNotesOf B.next P.bodies run.old notes.old }
    requires all { AllTold (map any_intake inlets.old.items) }
    ensures lives { LivesOn B.next P.bodies P.proc_names
        (sides T.written T.faults trace.old trace.new) run.old run.new (map any_intake inlets.old.items)
        (map any_intake inlets.new.items) (as_run result) }
    ensures halts { IfOk result (Halts B.next P.bodies run.new (map any_intake inlets.new.items)) }
    ensures told { Answering (sides K.written K.faults answers.old answers.new)
        (steps_of B.next P.bodies run.old) (steps_of B.next P.bodies run.new) result }
    ensures notes { OnOk result (AreNotesOf B.next P.bodies run.new notes.new) }
{
    for _ in rt.forever() {
        match go_round(rt, alloc, run, inlets, notes, trace, answers)? {
            None => {}
            Some(Live::Halt(halt)) => return Ok(halt),
            Some(Live::Quiet) => unreachable!(),
        }
    }
    unreachable!()
}
