// A run over inlets, into which other threads post while it goes on.
ghost use Rattle.std.specs.Prelude.{◌≡◌, false, map, IfOk, OnOk};
ghost use Rattle.event_gate.specs.Inlet.{EventsRise};
ghost use Rattle.pod_runner.specs.Inlets.{RoundsOn};
ghost use Rattle.pod_runner.specs.Live.{Answers, AnswersIf, LivesOn, LooksAtAll};
ghost use Rattle.pod_runner.specs.Ready.{IsReady};
ghost use Rattle.pod_runner.specs.Run.{phase_now};
ghost use Rattle.pod_runner.specs.declared.phase.Phase.TheVariants as phase;
ghost use Rattle.streams.specs.Streams.{sides};

use crate::inlets::{all_told, serve_all};
use crate::{Live, Phase, Run, RunErr};
use event_gate::Inlet;
use lwp_types::{Polled, Program, Sink};
use std::sync::Wait;
use trace_text::Halt;

// A round where somebody may run: lines are taken, and then a call is made.
fn turn_round<'s, B: Polled<'s>, P: Program<B>, I: Inlet<'s>, K: Sink, R: Wait>(
    rt: &R,
    run: &mut Run<'s, B, P>,
    inlets: &mut Vec<I>,
    sink: &mut K,
) -> Result<(), RunErr>
    requires ready { IsReady B.next P.bodies run.old }
    requires rise { EventsRise (map I.intake inlets.old.items) }
    requires due { phase_now B.next P.bodies run.old ≡ phase.Turn }
    ensures { RoundsOn B.next P.bodies P.proc_names
        (sides K.written K.faults sink.old sink.new) run.old run.new (map I.intake inlets.old.items)
        (map I.intake inlets.new.items) result }
{
    serve_all(rt, run, inlets, sink)?;
    run.turn(sink)
}

// A round where nobody may run: lines are taken, and where there was none the session is stuck or quiet.
fn idle_round<'s, B: Polled<'s>, P: Program<B>, I: Inlet<'s>, K: Sink, R: Wait>(
    rt: &R,
    run: &mut Run<'s, B, P>,
    inlets: &mut Vec<I>,
    sink: &mut K,
) -> Result<Option<Live>, RunErr>
    requires ready { IsReady B.next P.bodies run.old }
    requires rise { EventsRise (map I.intake inlets.old.items) }
    requires idle { phase_now B.next P.bodies run.old ≡ phase.Idle }
    ensures rounds { RoundsOn B.next P.bodies P.proc_names
        (sides K.written K.faults sink.old sink.new) run.old run.new (map I.intake inlets.old.items)
        (map I.intake inlets.new.items) result }
    ensures answers { IfOk result
        (AnswersIf B.next P.bodies run.new (map I.intake inlets.old.items)
        (map I.intake inlets.new.items)) }
{
    let taken = run.takes();
    serve_all(rt, run, inlets, sink)?;
    if run.takes() != taken {
        return Ok(None);
    }
    if all_told(inlets) {
        return Ok(Some(Live::Halt(Halt::Stuck)));
    }
    Ok(Some(Live::Quiet))
}

// Lines are taken, and then, if somebody may run, a call is made; unless the session has ended or is quiet, which is told.
fn go_round<'s, B: Polled<'s>, P: Program<B>, I: Inlet<'s>, K: Sink, R: Wait>(
    rt: &R,
    run: &mut Run<'s, B, P>,
    inlets: &mut Vec<I>,
    sink: &mut K,
) -> Result<Option<Live>, RunErr>
    requires sound { run.old.failed ≡ false }
    requires rise { EventsRise (map I.intake inlets.old.items) }
    ensures rounds { RoundsOn B.next P.bodies P.proc_names
        (sides K.written K.faults sink.old sink.new) run.old run.new (map I.intake inlets.old.items)
        (map I.intake inlets.new.items) result }
    ensures answers { IfOk result
        (AnswersIf B.next P.bodies run.new (map I.intake inlets.old.items)
        (map I.intake inlets.new.items)) }
{
    match run.phase() {
        Phase::Ended(status) => Ok(Some(Live::Halt(Halt::Ended(status)))),
        Phase::Spent => Ok(Some(Live::Halt(Halt::Spent))),
        Phase::Turn => {
            turn_round(rt, run, inlets, sink)?;
            Ok(None)
        }
        Phase::Idle => idle_round(rt, run, inlets, sink),
    }
}

/// Makes calls, and takes each line that an inlet has as soon as it can be delivered, until the end; or until nobody
/// may run, no line is there that can be delivered, and some client's pass is out still. Lines that come later can be
/// taken by another call. An event without an inlet has no lines. A line that was taken is lost where memory runs out
/// for it.
pub fn run_live<'s, B: Polled<'s>, P: Program<B>, I: Inlet<'s>, K: Sink, R: Wait>(
    rt: &R,
    run: &mut Run<'s, B, P>,
    inlets: &mut Vec<I>,
    sink: &mut K,
) -> Result<Live, RunErr>
    requires sound { run.old.failed ≡ false }
    requires rise { EventsRise (map I.intake inlets.old.items) }
    ensures lives { LivesOn B.next P.bodies P.proc_names
        (sides K.written K.faults sink.old sink.new) run.old run.new (map I.intake inlets.old.items)
        (map I.intake inlets.new.items) result }
    ensures looked { OnOk result
        (LooksAtAll B.next P.bodies run.old run.new (map I.intake inlets.old.items)
        (map I.intake inlets.new.items)) }
    ensures answers { IfOk result
        (Answers B.next P.bodies run.new (map I.intake inlets.old.items)
        (map I.intake inlets.new.items)) }
{
    for _ in rt.forever() {
        if let Some(answer) = go_round(rt, run, inlets, sink)? {
            return Ok(answer);
        }
    }
    unreachable!()
}
