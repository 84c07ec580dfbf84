// The recorded lines are followed, step by step.
ghost use Rattle.pod_runner.specs.Run.{session_of};
ghost use Rattle.replay.specs.Next.{Goes, NoneTold, ToldBy, ToldOf, lowest_in, take_at, take_in};
ghost use Rattle.replay.specs.Verdict.{first_result};
ghost use Rattle.std.specs.List.{range_with_len};
ghost use Rattle.std.specs.Prelude.{IfOk, false, length, option_map, ◌<◌, ◌≡◌, ◌≤◌};

use crate::posted::Posted;
use crate::telling::{named_client, take_line, tells_of, tells_take};
use lwp_types::{Line, NoMemory, Polled, Program};
use pod_runner::{Phase, Run};
use std::alloc::Global;
use trace_text::Halt;

// The next line of this client is to be taken.
#[derive(Drop)]
pub(crate) struct TakeTold<'s> {
    pub(crate) client: usize,
    pub(crate) line: Line<'s>,
}

// How a replay goes on between two steps.
#[derive(Drop)]
pub(crate) enum Next<'s> {
    // This line is taken.
    Take(TakeTold<'s>),
    Call,
    // The session is over.
    Over(Halt),
    // A line is to be taken here, and none is told: this one's take was to come.
    Missing(Vec<u8>),
}

// The next line of a client, if it can be taken, and the recorded lines tell of it.
fn told_of<'s, B: Polled<'s>, P: Program<B>, C: Posted<'s>>(
    alloc: Global,
    ticks: u64,
    run: &Run<'s, B, P>,
    lines: &C,
    rest: &[u8],
    client: usize,
) -> Result<Option<Line<'s>>, NoMemory>
    requires sound { run.now.failed ≡ false }
    requires clock { (session_of B.next P.bodies run.now).live.pod.state.now ≡ ticks }
    requires small { ticks ≤ 4294967295 }
    requires within { client < length (C.lines lines.now).clients }
    ensures { IfOk result
        (λ told.
        ToldOf (C.lines lines.now) (session_of B.next P.bodies run.now).live.pod rest.now client
        told) }
{
    let Some(line) = lines.next(client) else {
        return Ok(None);
    };
    let event = lines.event(client);
    if run.wants(event) && tells_of(alloc, ticks, rest, event, &line)? {
        Ok(Some(line))
    } else {
        Ok(None)
    }
}

// The client whose next line is taken, as the recorded lines tell.
#[inline(never)]
fn told_take<'s, B: Polled<'s>, P: Program<B>, C: Posted<'s>>(
    alloc: Global,
    ticks: u64,
    run: &Run<'s, B, P>,
    lines: &C,
    rest: &[u8],
) -> Result<Option<TakeTold<'s>>, NoMemory>
    requires sound { run.now.failed ≡ false }
    requires clock { (session_of B.next P.bodies run.now).live.pod.state.now ≡ ticks }
    requires small { ticks ≤ 4294967295 }
    ensures { IfOk result
        (λ told.
        ToldBy (C.lines lines.now) (session_of B.next P.bodies run.now).live.pod rest.now told) }
{
    let named = named_client(rest);
    if named < lines.clients() {
        if let Some(line) = told_of(alloc, ticks, run, lines, rest, named)? {
            return Ok(Some(TakeTold {
                client: named,
                line,
            }));
        }
    }
    for client in 0..lines.clients() {
        if let Some(line) = told_of(alloc, ticks, run, lines, rest, client)? {
            return Ok(Some(TakeTold { client, line }));
        }
    }
    Ok(None)
}

// The line of the take of the next line of a client, if it posts to this event and has one left.
fn take_of<'s, C: Posted<'s>>(
    alloc: Global,
    ticks: u64,
    lines: &C,
    event: u8,
    client: usize,
) -> Result<Option<Vec<u8>>, NoMemory>
    requires within { client < length (C.lines lines.now).clients }
    requires small { ticks ≤ 4294967295 }
    ensures { IfOk result
        (λ line. option_map (λ v. v.items) line ≡ take_in (C.lines lines.now) ticks event client) }
{
    if lines.event(client) != event {
        return Ok(None);
    }
    match lines.next(client) {
        Some(line) => Ok(Some(take_line(alloc, ticks, event, &line)?)),
        None => Ok(None),
    }
}

// The line of the take of the event's lowest client that has a line left.
fn lowest_of<'s, C: Posted<'s>>(
    alloc: Global,
    ticks: u64,
    lines: &C,
    event: u8,
) -> Result<Option<Vec<u8>>, NoMemory>
    requires { ticks ≤ 4294967295 }
    ensures { IfOk result
        (λ line.
        option_map (λ v. v.items) line
        ≡ first_result (take_in (C.lines lines.now) ticks event)
        (range_with_len 0 (length (C.lines lines.now).clients))) }
{
    for client in 0..lines.clients() {
        if let Some(line) = take_of(alloc, ticks, lines, event, client)? {
            return Ok(Some(line));
        }
    }
    Ok(None)
}

// That line, if the event waits for a line.
fn lowest_at<'s, B: Polled<'s>, P: Program<B>, C: Posted<'s>>(
    alloc: Global,
    ticks: u64,
    run: &Run<'s, B, P>,
    lines: &C,
    event: u8,
) -> Result<Option<Vec<u8>>, NoMemory>
    requires sound { run.now.failed ≡ false }
    requires clock { (session_of B.next P.bodies run.now).live.pod.state.now ≡ ticks }
    requires small { ticks ≤ 4294967295 }
    ensures { IfOk result
        (λ line.
        option_map (λ v. v.items) line
        ≡ take_at (C.lines lines.now) (session_of B.next P.bodies run.now).live.pod event) }
{
    if run.wants(event) {
        lowest_of(alloc, ticks, lines, event)
    } else {
        Ok(None)
    }
}

// That line of the lowest event that waits and has a line left.
#[inline(never)]
fn lowest_take<'s, B: Polled<'s>, P: Program<B>, C: Posted<'s>>(
    alloc: Global,
    ticks: u64,
    run: &Run<'s, B, P>,
    lines: &C,
) -> Result<Option<Vec<u8>>, NoMemory>
    requires sound { run.now.failed ≡ false }
    requires clock { (session_of B.next P.bodies run.now).live.pod.state.now ≡ ticks }
    requires small { ticks ≤ 4294967295 }
    ensures { IfOk result
        (λ line.
        option_map (λ v. v.items) line
        ≡ lowest_in (C.lines lines.now) (session_of B.next P.bodies run.now).live.pod) }
{
    for event in 0..32u8 {
        if let Some(line) = lowest_at(alloc, ticks, run, lines, event)? {
            return Ok(Some(line));
        }
    }
    Ok(None)
}

// How it goes on where no recorded line tells of a take that can be made.
fn without_take<'s, B: Polled<'s>, P: Program<B>, C: Posted<'s>>(
    alloc: Global,
    ticks: u64,
    run: &Run<'s, B, P>,
    lines: &C,
    rest: &[u8],
) -> Result<Next<'s>, NoMemory>
    requires sound { run.now.failed ≡ false }
    requires clock { (session_of B.next P.bodies run.now).live.pod.state.now ≡ ticks }
    requires small { ticks ≤ 4294967295 }
    requires none { NoneTold (C.lines lines.now) (session_of B.next P.bodies run.now).live.pod
        rest.now (length (C.lines lines.now).clients) }
    ensures { IfOk result
        (λ next.
        Goes (C.lines lines.now) (session_of B.next P.bodies run.now).live.pod run.now.turns
        run.now.calls rest.now next) }
{
    match run.phase() {
        Phase::Ended(status) => Ok(Next::Over(Halt::Ended(status))),
        Phase::Spent => Ok(Next::Over(Halt::Spent)),
        Phase::Turn => {
            if !tells_take(rest) {
                return Ok(Next::Call);
            }
            match lowest_take(alloc, ticks, run, lines)? {
                Some(line) => Ok(Next::Missing(line)),
                None => Ok(Next::Call),
            }
        }
        Phase::Idle => match lowest_take(alloc, ticks, run, lines)? {
            Some(line) => Ok(Next::Missing(line)),
            None => Ok(Next::Over(Halt::Stuck)),
        },
    }
}

// What the recorded lines say of the next step.
pub(crate) fn next_step<'s, B: Polled<'s>, P: Program<B>, C: Posted<'s>>(
    alloc: Global,
    ticks: u64,
    run: &Run<'s, B, P>,
    lines: &C,
    rest: &[u8],
) -> Result<Next<'s>, NoMemory>
    requires sound { run.now.failed ≡ false }
    requires clock { (session_of B.next P.bodies run.now).live.pod.state.now ≡ ticks }
    requires small { ticks ≤ 4294967295 }
    ensures { IfOk result
        (λ next.
        Goes (C.lines lines.now) (session_of B.next P.bodies run.now).live.pod run.now.turns
        run.now.calls rest.now next) }
{
    if tells_take(rest) {
        if let Some(told) = told_take(alloc, ticks, run, lines, rest)? {
            return Ok(Next::Take(told));
        }
    }
    without_take(alloc, ticks, run, lines, rest)
}
