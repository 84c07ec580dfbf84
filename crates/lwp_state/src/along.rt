// A session is played again, step by step, as its takes say.
ghost use Rattle.lwp_state.specs.Along.{CallsNext, IsLastWithin, IsOnWay, IsStep, IsThere, TakesNext, lines_by, moment_at, moment_now};
ghost use Rattle.pod_runner.specs.Run.{IsNew, setting_of};
ghost use Rattle.std.specs.Prelude.{◌≡◌, ◌≤◌, IfOk, MatchBool, MatchOption, OnOk, length};
ghost use Rattle.streams.specs.Streams.{sides};

use crate::line_sink::LineSink;
use lwp_types::{Polled, Program, Sink};
use pod_runner::{Run, RunErr, TakeList, Took};

/// How far a session is: at its first so many takes, and so many calls.
#[derive(Clone, Copy)]
pub(crate) struct Reach {
    pub(crate) takes: usize,
    pub(crate) calls: u64,
}

/// A moment of a session, and how many lines were written by then.
#[derive(Clone, Copy)]
pub(crate) struct Stop {
    pub(crate) reach: Reach,
    pub(crate) lines: u64,
}

// Where a run is.
fn reach_of<'s, B: Polled<'s>, P: Program<B>>(run: &Run<'s, B, P>) -> Reach
    ensures takes { result.takes ≡ length run.now.takes }
    ensures calls { result.calls ≡ run.now.calls }
{
    Reach {
        takes: run.takes(),
        calls: run.calls(),
    }
}

fn is_same(one: Reach, other: Reach) -> bool
    ensures { MatchBool result (one ≡ other) (one ≡ other → ⊥) }
{
    one.takes == other.takes && one.calls == other.calls
}

// The next step on the way to a moment, if it is a take. Where it is none, it is a call.
fn take_now<'s, B: Polled<'s>, P: Program<B>>(
    run: &Run<'s, B, P>,
    takes: &'s TakeList,
    end: Reach,
) -> Option<Took<'s>>
    requires within { end.takes ≤ length takes.now }
    requires on { IsOnWay B.next P.bodies (moment_at takes.now end) run.now }
    requires more { (length run.now.takes ≡ end.takes) → (run.now.calls ≡ end.calls) → ⊥ }
    ensures { MatchOption result
        (CallsNext (setting_of B.next P.bodies run.now) (moment_at takes.now end) (moment_now run.now))
        (TakesNext (setting_of B.next P.bodies run.now) (moment_at takes.now end)
        (moment_now run.now)) }
{
    let place = run.takes();
    if place >= end.takes {
        return None;
    }
    let took = takes.get(place);
    if took.turn == run.calls() {
        return Some(took);
    }
    None
}

// One step more on the way to a moment, and its lines.
fn step<'s, B: Polled<'s>, P: Program<B>, K: Sink>(
    run: &mut Run<'s, B, P>,
    takes: &'s TakeList,
    end: Reach,
    sink: &mut K,
) -> Result<(), RunErr>
    requires within { end.takes ≤ length takes.now }
    requires on { IsOnWay B.next P.bodies (moment_at takes.now end) run.old }
    requires more { (length run.old.takes ≡ end.takes) → (run.old.calls ≡ end.calls) → ⊥ }
    ensures { OnOk result
        (IsStep B.next P.bodies P.proc_names (moment_at takes.now end)
        (sides K.written K.faults sink.old sink.new) run.old run.new) }
{
    match take_now(run, takes, end) {
        Some(took) => run.offer(took.event, took.line, sink),
        None => run.turn(sink),
    }
}

/// A run goes on to a moment.
pub(crate) fn go_to<'s, B: Polled<'s>, P: Program<B>, K: Sink>(
    run: &mut Run<'s, B, P>,
    takes: &'s TakeList,
    end: Reach,
    sink: &mut K,
) -> Result<(), RunErr>
    requires within { end.takes ≤ length takes.now }
    requires on { IsOnWay B.next P.bodies (moment_at takes.now end) run.old }
    ensures { OnOk result (IsThere (moment_at takes.now end) run.old run.new) }
{
    let mut here = reach_of(run);
    while !is_same(here, end) {
        step(run, takes, end, sink)?;
        here = reach_of(run);
    }
    Ok(())
}

/// On the way of a new run to a moment, the last one by which no more than so many lines are written. The run goes there, or a step
/// further.
pub(crate) fn last_within<'s, B: Polled<'s>, P: Program<B>>(
    run: &mut Run<'s, B, P>,
    takes: &'s TakeList,
    end: Reach,
    most: u64,
) -> Result<Stop, RunErr>
    requires within { end.takes ≤ length takes.now }
    requires first { IsNew run.old }
    requires on { IsOnWay B.next P.bodies (moment_at takes.now end) run.old }
    ensures within { IfOk result (λ stop. stop.reach.takes ≤ length takes.now) }
    ensures last { IfOk result
        (λ stop.
        IsLastWithin (setting_of B.next P.bodies run.old) (P.proc_names run.old.program) most
        (moment_at takes.now end) (moment_at takes.now stop.reach)) }
    ensures lines { IfOk result
        (λ stop.
        stop.lines
        ≡ lines_by (setting_of B.next P.bodies run.old) (P.proc_names run.old.program)
        (moment_at takes.now stop.reach)) }
{
    let mut lines = LineSink::new();
    let mut here = reach_of(run);
    while !is_same(here, end) {
        let written = lines.count();
        step(run, takes, end, &mut lines)?;
        if lines.more_than(most) {
            return Ok(Stop {
                reach: here,
                lines: written,
            });
        }
        here = reach_of(run);
    }
    Ok(Stop {
        reach: here,
        lines: lines.count(),
    })
}
