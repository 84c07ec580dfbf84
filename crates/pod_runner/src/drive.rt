// A run over a gate, from step to step, until its end.
ghost use Rattle.std.specs.Prelude.{◌≡◌, ◌<◌, false, IfNone, IfOk, IfSome, IsTrue, OnOk};
ghost use Rattle.std.specs.Slice.Scan.{HoldsNowhere, IsFirstPlace};
ghost use Rattle.pod_events.specs.Events.{is_takeable};
ghost use Rattle.pod_runner.specs.Does.{Does};
ghost use Rattle.pod_runner.specs.Eager.{IsFirstPart, after_finish, after_offer, boundary, plan_over, plan_whole, round};
ghost use Rattle.pod_runner.specs.Over.{can_take};
ghost use Rattle.pod_runner.specs.Ready.{IsReady};
ghost use Rattle.pod_runner.specs.Run.{session_of, phase_now, plan_now, planned_of, EndsAt, IsNew};
ghost use Rattle.pod_runner.specs.declared.phase.Phase.TheVariants as phase;
ghost use Rattle.streams.specs.Streams.{sides};

use crate::playing::Run;
use crate::{Phase, RunErr};
use event_gate::Gate;
use lwp_types::{Polled, Program, Sink};
use trace_text::Halt;

// One line of an event that can be delivered is taken, if one is left.
fn take_line<'s, B: Polled<'s>, P: Program<B>, G: Gate<'s>, K: Sink>(
    run: &mut Run<'s, B, P>,
    gate: &mut G,
    event: u8,
    sink: &mut K,
) -> Result<(), RunErr>
    requires ready { IsReady B.next P.bodies run.old }
    requires wanted { IsTrue (is_takeable (session_of B.next P.bodies run.old).live.pod event) }
    ensures { Does B.next P.bodies P.proc_names (sides K.written K.faults sink.old sink.new)
        (λ planned plan. after_offer planned event plan) run.old run.new (G.stock gate.old)
        (G.stock gate.new) result }
{
    match gate.take(event) {
        Some(line) => run.offer(event, line, sink),
        None => Ok(()),
    }
}

// The first event from `from` on that has a line left and can be delivered, if there is one below 32.
fn next_due<'s, B: Polled<'s>, P: Program<B>, G: Gate<'s>>(
    run: &Run<'s, B, P>,
    gate: &G,
    from: u8,
) -> Option<u8>
    requires { run.now.failed ≡ false }
    ensures none { IfNone result
        (HoldsNowhere (can_take (session_of B.next P.bodies run.now).live.pod (G.stock gate.now))
        from 32) }
    ensures below { IfSome result (λ event. event < 32) }
    ensures first { IfSome result
        (λ event.
        IsFirstPlace (can_take (session_of B.next P.bodies run.now).live.pod (G.stock gate.now))
        from 32 event) }
{
    let mut from = from;
    while let Some(left) = gate.next_left(from) {
        let wanted = run.next_wanted(left)?;
        if wanted == left {
            return Some(left);
        }
        from = wanted;
    }
    None
}

// Each event in turn may have one line taken. It stands apart, so that a turn without one has no registers to save for it.
#[inline(never)]
fn serve_each<'s, B: Polled<'s>, P: Program<B>, G: Gate<'s>, K: Sink>(
    run: &mut Run<'s, B, P>,
    gate: &mut G,
    sink: &mut K,
) -> Result<(), RunErr>
    requires ready { IsReady B.next P.bodies run.old }
    ensures { Does B.next P.bodies P.proc_names (sides K.written K.faults sink.old sink.new)
        (λ planned plan. boundary planned plan) run.old run.new (G.stock gate.old)
        (G.stock gate.new) result }
{
    let mut from = 0;
    while let Some(event) = next_due(run, gate, from) {
        take_line(run, gate, event, sink)?;
        from = event + 1;
    }
    Ok(())
}

// Each event in turn may have one line taken. Mostly no line can be taken, which one look tells.
#[inline(always)]
fn serve_all<'s, B: Polled<'s>, P: Program<B>, G: Gate<'s>, K: Sink>(
    run: &mut Run<'s, B, P>,
    gate: &mut G,
    sink: &mut K,
) -> Result<(), RunErr>
    requires ready { IsReady B.next P.bodies run.old }
    ensures { Does B.next P.bodies P.proc_names (sides K.written K.faults sink.old sink.new)
        (λ planned plan. boundary planned plan) run.old run.new (G.stock gate.old)
        (G.stock gate.new) result }
{
    match next_due(run, gate, 0) {
        Some(_) => serve_each(run, gate, sink),
        None => Ok(()),
    }
}

// A round where somebody may run: lines are taken, and then a call is made.
#[inline(always)]
fn turn_round<'s, B: Polled<'s>, P: Program<B>, G: Gate<'s>, K: Sink>(
    run: &mut Run<'s, B, P>,
    gate: &mut G,
    sink: &mut K,
) -> Result<(), RunErr>
    requires ready { IsReady B.next P.bodies run.old }
    requires due { phase_now B.next P.bodies run.old ≡ phase.Turn }
    ensures { Does B.next P.bodies P.proc_names (sides K.written K.faults sink.old sink.new)
        (λ planned plan. round planned plan) run.old run.new (G.stock gate.old) (G.stock gate.new)
        result }
{
    serve_all(run, gate, sink)?;
    run.turn(sink)
}

// A round where nobody may run: lines are taken, and where there was none the session is stuck.
#[inline(always)]
fn idle_round<'s, B: Polled<'s>, P: Program<B>, G: Gate<'s>, K: Sink>(
    run: &mut Run<'s, B, P>,
    gate: &mut G,
    sink: &mut K,
) -> Result<Option<Halt>, RunErr>
    requires ready { IsReady B.next P.bodies run.old }
    requires idle { phase_now B.next P.bodies run.old ≡ phase.Idle }
    ensures does { Does B.next P.bodies P.proc_names (sides K.written K.faults sink.old sink.new)
        (λ planned plan. round planned plan) run.old run.new (G.stock gate.old) (G.stock gate.new)
        result }
    ensures over { IfOk result
        (λ halt.
        plan_over (planned_of B.next P.bodies run.old)
        (plan_now B.next P.bodies run.old (G.stock gate.old))
        ≡ halt) }
{
    let taken = run.takes();
    serve_all(run, gate, sink)?;
    if run.takes() == taken {
        return Ok(Some(Halt::Stuck));
    }
    Ok(None)
}

/// Lines are taken, each event's first if it can be delivered, and then, if somebody may run, a call is made; unless the session is
/// over, which is told. `run` goes on so until the end.
pub fn go_round<'s, B: Polled<'s>, P: Program<B>, G: Gate<'s>, K: Sink>(
    run: &mut Run<'s, B, P>,
    gate: &mut G,
    sink: &mut K,
) -> Result<Option<Halt>, RunErr>
    requires { run.old.failed ≡ false }
    ensures does { Does B.next P.bodies P.proc_names (sides K.written K.faults sink.old sink.new)
        (λ planned plan. round planned plan) run.old run.new (G.stock gate.old) (G.stock gate.new)
        result }
    ensures over { IfOk result
        (λ halt.
        plan_over (planned_of B.next P.bodies run.old)
        (plan_now B.next P.bodies run.old (G.stock gate.old))
        ≡ halt) }
{
    match run.phase() {
        Phase::Ended(status) => Ok(Some(Halt::Ended(status))),
        Phase::Spent => Ok(Some(Halt::Spent)),
        Phase::Turn => {
            turn_round(run, gate, sink)?;
            Ok(None)
        }
        Phase::Idle => idle_round(run, gate, sink),
    }
}

/// Makes calls, and takes each line that the gate has as soon as it can be delivered, until the end. A new run plays the session
/// whose lines all are there from the start, or after an error its first part: the lines of all steps that count are written, but
/// for the last ones of the last step after a write that failed.
pub fn run<'s, B: Polled<'s>, P: Program<B>, G: Gate<'s>, K: Sink>(
    run: &mut Run<'s, B, P>,
    gate: &mut G,
    sink: &mut K,
) -> Result<Halt, RunErr>
    requires sound { run.old.failed ≡ false }
    ensures does { Does B.next P.bodies P.proc_names (sides K.written K.faults sink.old sink.new)
        (λ planned plan. after_finish planned plan) run.old run.new (G.stock gate.old)
        (G.stock gate.new) result }
    ensures ends { IfOk result (EndsAt B.next P.bodies run.new (G.stock gate.new)) }
    ensures eager { IsNew run.old →
        OnOk result
        (plan_now B.next P.bodies run.new (G.stock gate.new)
        ≡ plan_whole (planned_of B.next P.bodies run.old) (G.stock gate.old)) }
    ensures begun { IsNew run.old →
        IsFirstPart (plan_now B.next P.bodies run.new (G.stock gate.new))
        (plan_whole (planned_of B.next P.bodies run.old) (G.stock gate.old)) }
{
    loop {
        if let Some(halt) = go_round(run, gate, sink)? {
            return Ok(halt);
        }
    }
}
