// The trace of the path to the first core of a kind.
ghost use Rattle.lwp_explore.specs.Cores.{after, first_core};
ghost use Rattle.lwp_explore.specs.Cycles.{AreWithin};
ghost use Rattle.lwp_explore.specs.Explored.{IsAtFirst};
ghost use Rattle.lwp_explore.specs.FoundRounds.{IsShortRound, RoundAfter};
ghost use Rattle.lwp_explore.specs.Sessions.{world_of};
ghost use Rattle.lwp_explore.specs.Standing.{core_now};
ghost use Rattle.lwp_explore.specs.TraceSaid.{TraceSays};
ghost use Rattle.lwp_explore.specs.Ways.{tail_of, way, way_text};
ghost use Rattle.script_body.specs.Posted.{IsPosted};
ghost use Rattle.script_text.specs.Script.{proc_names};
ghost use Rattle.lwp_explore.specs.KindCodes.{code_kind};
ghost use Rattle.script_body.specs.declared.thread_body.ThreadBody.{ThreadBody};
ghost use Rattle.search.specs.Found.{HasParentsBelow, path_of};
ghost use Rattle.search.specs.Moves.{walk};
ghost use Rattle.session_cores.specs.Core.{Core};
ghost use Rattle.std.specs.Prelude.{◌≡◌, ◌++◌, ◌<◌, ◌≤◌, IfOk, IsSome, OnOk, Some, false, ℕ, length, replicate, suc};

use crate::along::go_along;
use crate::ending::Ending;
use crate::kinds::{End, kind_of};
use crate::listing::Listed;
use crate::machine::ScriptMachine;
use crate::searching::{kinds_in, search_all};
use crate::step_sink::{StepSink, Told};
use crate::tails::tail_of;
use lwp_types::NoMemory;
use search::{Row, path_to};
use std::alloc::Global;

// Adds the calls of a round, which lead back to where it begins; each of them is step 0.
fn add_round(path: &mut Vec<u32>, nexts: &[Option<usize>], start: usize) -> Result<(), NoMemory>
    requires within { AreWithin nexts.now }
    requires start { start < length nexts.now }
    ensures { OnOk result ((n : ℕ) × IsShortRound nexts.now start n × (path.new.items ≡ path.old.items ++ replicate (suc n) 0)) }
{
    let mut here = start;
    let mut calls = 0;
    while calls < nexts.len() {
        let Some(next) = nexts[here] else {
            break;
        };
        path.push(0)?;
        if next == start {
            return Ok(());
        }
        here = next;
        calls += 1;
    }
    // Of an endless core this is not reached.
    Err(NoMemory)
}

// The path to the first core of a kind, and then a round, if the kind is endless.
fn whole_path(
    alloc: Global,
    rows: &[Row],
    nexts: &[Option<usize>],
    listed: &Listed,
) -> Result<Vec<u32>, NoMemory>
    requires below { HasParentsBelow rows.now }
    requires within { AreWithin nexts.now }
    requires start { listed.now.first < length rows.now }
    requires same { length nexts.now ≡ length rows.now }
    ensures { IfOk result (λ path. (more : ℕ) × RoundAfter nexts.now listed.now.first (code_kind listed.now.number).end more
        × (path.items ≡ path_of rows.now listed.now.first ++ replicate more 0)) }
{
    let Ok(path) = path_to(alloc, rows, listed.first) else {
        return Err(NoMemory);
    };
    let mut path = path;
    match kind_of(listed.number).end {
        End::Endless => {
            add_round(&mut path, nexts, listed.first)?;
            Ok(path)
        }
        End::Ended(_) => Ok(path),
        End::Stuck => Ok(path),
    }
}

// The lines of a session, with those after its last step.
fn with_tail(alloc: Global, here: &ScriptMachine, lines: Vec<u8>) -> Result<Vec<u8>, NoMemory>
    requires { here.now.failed ≡ false }
    ensures { IfOk result (λ text. text.items ≡ lines.items ++ tail_of (world_of here.now.script) (core_now here.now)) }
{
    let mut text = lines;
    match here.halt() {
        Some(halt) => {
            text.extend_from_slice(&tail_of(alloc, here, &halt)?)?;
            Ok(text)
        }
        None => Ok(text),
    }
}

// The trace of the session after a path.
fn trace_along(alloc: Global, machine: &ScriptMachine, path: &[u32]) -> Result<Vec<u8>, NoMemory>
    requires first { IsAtFirst machine.now }
    requires leads { IsSome (walk (after (world_of machine.now.script)) (first_core (world_of machine.now.script)) path.now) }
    ensures { IfOk result (λ text. (core : Core ThreadBody)
        → walk (after (world_of machine.now.script)) (first_core (world_of machine.now.script)) path.now ≡ Some core
        → text.items ≡ way_text (proc_names machine.now.script) (way (world_of machine.now.script) path.now)
        ++ tail_of (world_of machine.now.script) core) }
{
    let before = Told::nothing();
    let mut sink = StepSink::new(alloc, &before);
    let mut here = machine.copy()?;
    go_along(&mut here, path, &mut sink)?;
    let Some((_, lines)) = sink.after(&before) else {
        return Err(NoMemory);
    };
    with_tail(alloc, &here, lines)
}

/// The trace of the path to the first core of the kind of this number, counted from 1, and whether there is such a kind.
pub fn trace_text(
    alloc: Global,
    machine: &ScriptMachine,
    number: u32,
    cores: usize,
) -> Result<(Vec<u8>, Ending), NoMemory>
    requires first { IsAtFirst machine.now }
    requires posted { IsPosted machine.now.script }
    requires number { 1 ≤ number }
    requires some { 1 ≤ cores }
    requires few { cores ≤ 1000000 }
    ensures { IfOk result (λ told. TraceSays (world_of machine.now.script) (proc_names machine.now.script) cores number told.0.items told.1) }
{
    let found = search_all(alloc, machine, cores)?;
    let all = kinds_in(alloc, &found)?;
    if number as usize > all.1.len() {
        return Ok((Vec::new(alloc), Ending::Missing));
    }
    let path = whole_path(alloc, &found.rows, &all.0, &all.1[number as usize - 1])?;
    let text = trace_along(alloc, machine, &path)?;
    Ok((text, Ending::Well))
}
