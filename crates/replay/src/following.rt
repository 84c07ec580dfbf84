// The recorded lines are followed to their verdict.
ghost use Rattle.pod_runner.specs.Run.{GoesOn, session_of};
ghost use Rattle.replay.specs.Next.{Goes, IsTold, NoneTold, lowest_in};
ghost use Rattle.replay.specs.Verdict.{tells_take};
ghost use Rattle.replay.specs.Replayed.{Says, asked_of, moment_of};
ghost use Rattle.replay.specs.Says.{IsCalled, StepSays};
ghost use Rattle.replay.specs.Walk.{ClientsLeft, Going, IsFit, Speaks};
ghost use Rattle.lwp_types.specs.declared.call.Line.{Line as OneLine};
ghost use Rattle.pod_runner.specs.declared.phase.Phase.TheVariants as phase;
ghost use Rattle.pod_runner.specs.Run.{phase_now};
ghost use Rattle.replay.specs.declared.replaying.Next.TheVariants as next;
ghost use Rattle.std.specs.Prelude.{IfOk, List, OnOk, drop, None, ℕ, [], false, length, true, ◌<◌, ◌≡◌};

use crate::follower::Follower;
use crate::posted::Posted;
use crate::replaying::{Next, TakeTold, next_step};
use crate::stepping::{Difference, Outcome, compare, compare_end, differs};
use lwp_types::{NoMemory, Polled, Program};
use pod_runner::Run;
use std::alloc::Global;
use trace_text::Halt;

// A line is taken, as the recorded line tells, and the lines of this step are compared.
fn take_step<'s, B: Polled<'s>, P: Program<B>, C: Posted<'s>>(
    alloc: Global,
    run: &mut Run<'s, B, P>,
    lines: &mut C,
    follower: &mut Follower<'_>,
    told: TakeTold<'s>,
) -> Result<Option<Outcome>, NoMemory>
    requires sound { run.old.failed ≡ false }
    requires clean { follower.old.step ≡ [] }
    requires told { IsTold (C.lines lines.old) (session_of B.next P.bodies run.old).live.pod
        (drop follower.old.at follower.old.recorded) told.client told.line }
    ensures says { IfOk result
        (λ out.
        (clients : List ℕ) (posts : List OneLine) →
        IsFit (asked_of B.next P.bodies P.proc_names run.old clients posts) →
        Speaks (asked_of B.next P.bodies P.proc_names run.old clients posts) →
        Going (asked_of B.next P.bodies P.proc_names run.old clients posts)
        follower.old.recorded (moment_of run.old) (C.lines lines.old) follower.old.at
        follower.old.lines follower.old.ticks →
        StepSays (asked_of B.next P.bodies P.proc_names run.old clients posts) follower.old
        run.new (C.lines lines.new) follower.new out) }
    ensures same { OnOk result (GoesOn run.old run.new) }
    ensures unfailed { OnOk result (run.new.failed ≡ false) }
    ensures posts { OnOk result (C.posts lines.new ≡ C.posts lines.old) }
    ensures clients { OnOk result ((C.lines lines.new).clients ≡ (C.lines lines.old).clients) }
{
    let event = lines.event(told.client);
    let Ok(()) = run.offer(event, told.line, follower) else {
        return Err(NoMemory);
    };
    lines.take(told.client);
    match compare(alloc, follower)? {
        None => {
            follower.count(event);
            Ok(None)
        }
        Some(difference) => Ok(Some(Outcome {
            verdict: difference.verdict,
            calls: run.calls(),
        })),
    }
}

// A call is made, and the lines of this step are compared. It counts only if its first line was recorded.
fn call_step<'s, B: Polled<'s>, P: Program<B>>(
    alloc: Global,
    run: &mut Run<'s, B, P>,
    follower: &mut Follower<'_>,
) -> Result<Option<Outcome>, NoMemory>
    requires sound { run.old.failed ≡ false }
    requires clean { follower.old.step ≡ [] }
    requires turn { phase_now B.next P.bodies run.old ≡ phase.Turn }
    ensures says { IfOk result
        (λ out.
        (clients : List ℕ) (posts : List OneLine) (lines : ClientsLeft) →
        IsFit (asked_of B.next P.bodies P.proc_names run.old clients posts) →
        Speaks (asked_of B.next P.bodies P.proc_names run.old clients posts) →
        Going (asked_of B.next P.bodies P.proc_names run.old clients posts)
        follower.old.recorded (moment_of run.old) lines follower.old.at follower.old.lines
        follower.old.ticks →
        NoneTold lines (session_of B.next P.bodies run.old).live.pod
        (drop follower.old.at follower.old.recorded) (length lines.clients) →
        (tells_take (drop follower.old.at follower.old.recorded) ≡ true →
        lowest_in lines (session_of B.next P.bodies run.old).live.pod ≡ None) →
        StepSays (asked_of B.next P.bodies P.proc_names run.old clients posts) follower.old
        run.new lines follower.new out) }
    ensures same { OnOk result (GoesOn run.old run.new) }
    ensures unfailed { OnOk result (run.new.failed ≡ false) }
{
    let calls = run.calls();
    let Ok(()) = run.turn(follower) else {
        return Err(NoMemory);
    };
    match compare(alloc, follower)? {
        None => Ok(None),
        Some(difference) => Ok(Some(called_outcome(difference, calls, run.calls()))),
    }
}

// The verdict of a call of which a line differs; so many calls were made before it, and with it.
fn called_outcome(difference: Difference, before: u64, after: u64) -> Outcome
    ensures { IsCalled difference before after result }
{
    let calls = if difference.lines == 0 { before } else { after };
    Outcome {
        verdict: difference.verdict,
        calls,
    }
}

// The session is over: what follows its last step is compared with all that is recorded after it.
fn over_step<'s, B: Polled<'s>, P: Program<B>, C: Posted<'s>>(
    alloc: Global,
    turns: u64,
    run: &Run<'s, B, P>,
    lines: &C,
    follower: &Follower<'_>,
    halt: &Halt,
) -> Result<Outcome, NoMemory>
    requires turns { turns ≡ run.now.turns }
    ensures { IfOk result
        (λ out.
        (clients : List ℕ) (posts : List OneLine) →
        IsFit (asked_of B.next P.bodies P.proc_names run.now clients posts) →
        Speaks (asked_of B.next P.bodies P.proc_names run.now clients posts) →
        Going (asked_of B.next P.bodies P.proc_names run.now clients posts)
        follower.now.recorded (moment_of run.now) (C.lines lines.now) follower.now.at
        follower.now.lines follower.now.ticks →
        Goes (C.lines lines.now) (session_of B.next P.bodies run.now).live.pod run.now.turns
        run.now.calls (drop follower.now.at follower.now.recorded) (next.Over halt.now) →
        Says (asked_of B.next P.bodies P.proc_names run.now clients posts) follower.now.recorded
        out.verdict run.now.takes out.calls) }
{
    let counts = lines.counts(alloc)?;
    let verdict = compare_end(
        alloc,
        halt,
        turns,
        &counts,
        follower.lines(),
        follower.rest(),
    )?;
    Ok(Outcome {
        verdict,
        calls: run.calls(),
    })
}

// A take was to come, and none was recorded that can be made.
fn missing_step<'s, B: Polled<'s>, P: Program<B>, C: Posted<'s>>(
    alloc: Global,
    run: &Run<'s, B, P>,
    lines: &C,
    follower: &Follower<'_>,
    line: Vec<u8>,
) -> Result<Outcome, NoMemory>
    ensures { IfOk result
        (λ out.
        (clients : List ℕ) (posts : List OneLine) →
        IsFit (asked_of B.next P.bodies P.proc_names run.now clients posts) →
        Speaks (asked_of B.next P.bodies P.proc_names run.now clients posts) →
        Going (asked_of B.next P.bodies P.proc_names run.now clients posts)
        follower.now.recorded (moment_of run.now) (C.lines lines.now) follower.now.at
        follower.now.lines follower.now.ticks →
        Goes (C.lines lines.now) (session_of B.next P.bodies run.now).live.pod run.now.turns
        run.now.calls (drop follower.now.at follower.now.recorded) (next.Missing line) →
        Says (asked_of B.next P.bodies P.proc_names run.now clients posts) follower.now.recorded
        out.verdict run.now.takes out.calls) }
{
    let verdict = differs(alloc, follower.lines(), &line, follower.rest())?;
    Ok(Outcome {
        verdict,
        calls: run.calls(),
    })
}

// One step of the walk, or its end.
fn one_step<'s, B: Polled<'s>, P: Program<B>, C: Posted<'s>>(
    alloc: Global,
    turns: u64,
    run: &mut Run<'s, B, P>,
    lines: &mut C,
    follower: &mut Follower<'_>,
) -> Result<Option<Outcome>, NoMemory>
    requires sound { run.old.failed ≡ false }
    requires clean { follower.old.step ≡ [] }
    requires turns { turns ≡ run.old.turns }
    requires fit { IsFit
        (asked_of B.next P.bodies P.proc_names run.old (C.lines lines.old).clients
        (C.posts lines.old)) }
    requires speaks { Speaks
        (asked_of B.next P.bodies P.proc_names run.old (C.lines lines.old).clients
        (C.posts lines.old)) }
    requires going { Going
        (asked_of B.next P.bodies P.proc_names run.old (C.lines lines.old).clients
        (C.posts lines.old))
        follower.old.recorded (moment_of run.old) (C.lines lines.old) follower.old.at
        follower.old.lines follower.old.ticks }
    ensures says { IfOk result
        (λ out.
        StepSays
        (asked_of B.next P.bodies P.proc_names run.old (C.lines lines.old).clients
        (C.posts lines.old))
        follower.old run.new (C.lines lines.new) follower.new out) }
    ensures same { OnOk result (GoesOn run.old run.new) }
    ensures unfailed { OnOk result (run.new.failed ≡ false) }
    ensures posts { OnOk result (C.posts lines.new ≡ C.posts lines.old) }
    ensures clients { OnOk result ((C.lines lines.new).clients ≡ (C.lines lines.old).clients) }
{
    match next_step(alloc, follower.ticks(), run, lines, follower.rest())? {
        Next::Take(told) => take_step(alloc, run, lines, follower, told),
        Next::Call => call_step(alloc, run, follower),
        Next::Over(halt) => {
            let outcome = over_step(alloc, turns, run, lines, follower, &halt)?;
            Ok(Some(outcome))
        }
        Next::Missing(line) => {
            let outcome = missing_step(alloc, run, lines, follower, line)?;
            Ok(Some(outcome))
        }
    }
}

/// Follows the recorded lines to the verdict, with a run that goes along and the lines that its clients have left.
pub fn follow<'s, B: Polled<'s>, P: Program<B>, C: Posted<'s>>(
    alloc: Global,
    turns: u64,
    run: &mut Run<'s, B, P>,
    lines: &mut C,
    follower: &mut Follower<'_>,
) -> Result<Outcome, NoMemory>
    requires sound { run.old.failed ≡ false }
    requires clean { follower.old.step ≡ [] }
    requires turns { turns ≡ run.old.turns }
    requires fit { IsFit
        (asked_of B.next P.bodies P.proc_names run.old (C.lines lines.old).clients
        (C.posts lines.old)) }
    requires speaks { Speaks
        (asked_of B.next P.bodies P.proc_names run.old (C.lines lines.old).clients
        (C.posts lines.old)) }
    requires going { Going
        (asked_of B.next P.bodies P.proc_names run.old (C.lines lines.old).clients
        (C.posts lines.old))
        follower.old.recorded (moment_of run.old) (C.lines lines.old) follower.old.at
        follower.old.lines follower.old.ticks }
    ensures { IfOk result
        (λ out.
        Says
        (asked_of B.next P.bodies P.proc_names run.old (C.lines lines.old).clients
        (C.posts lines.old))
        follower.old.recorded out.verdict run.new.takes out.calls) }
{
    loop {
        if let Some(outcome) = one_step(alloc, turns, run, lines, follower)? {
            return Ok(outcome);
        }
    }
}
