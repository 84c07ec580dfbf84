// What a search says of the ends of sessions.
ghost use Rattle.lwp_explore.specs.Cores.{after, first_core};
ghost use Rattle.lwp_explore.specs.Ends.{EndsSay, counts_text, cycles_text};
ghost use Rattle.lwp_explore.specs.Explored.{IsAtFirst};
ghost use Rattle.lwp_explore.specs.FoundText.{IsReached, ends_of, listed_line, path_line};
ghost use Rattle.lwp_explore.specs.KindCodes.{code_kind};
ghost use Rattle.lwp_explore.specs.KindText.{is_bad};
ghost use Rattle.lwp_explore.specs.Sessions.{world_of};
ghost use Rattle.lwp_explore.specs.Standing.{core_now};
ghost use Rattle.lwp_explore.specs.declared.kinds.End.TheVariants as end;
ghost use Rattle.script_body.specs.Posted.{IsPosted};
ghost use Rattle.search.specs.Found.{HasParentsBelow};
ghost use Rattle.search.specs.Moves.{walk};
ghost use Rattle.state_text.specs.Text.{thread_words};
ghost use Rattle.trace_text.specs.Lines.{thread_text};
ghost use Rattle.std.specs.List.{All, flat_map, list_any};
ghost use Rattle.std.specs.Prelude.{◌≡◌, ◌++◌, ◌∷◌, ◌≤◌, IfOk, IsSome, OnOk, codes, decimal, false, length};

use crate::along::stand_after;
use crate::ending::Ending;
use crate::kind_text::{add, add_kind, add_number, is_well};
use crate::kinds::{End, kind_of};
use crate::listing::Listed;
use crate::machine::ScriptMachine;
use crate::searching::{kinds_in, search_all};
use lwp_types::{IdList, NoMemory};
use search::{Row, path_to};
use state_text::cycles_of;
use std::alloc::Global;

/// The steps that led to a session: so many calls and so many takes.
pub fn add_length(out: &mut Vec<u8>, machine: &ScriptMachine) -> Result<(), NoMemory>
    ensures { OnOk result (out.new.items ≡ out.old.items ++ (codes "calls " ++ (decimal machine.now.run.calls
        ++ (codes " takes " ++ decimal (length machine.now.run.takes))))) }
{
    add(out, b"calls ")?;
    add_number(out, machine.calls())?;
    add(out, b" takes ")?;
    add_number(out, machine.takes() as u64)
}

// Adds a thread after a space.
fn add_thread(out: &mut Vec<u8>, thread: u64) -> Result<(), NoMemory>
    ensures { OnOk result (out.new.items ≡ out.old.items ++ 32 ∷ thread_text thread) }
{
    if thread == u64::MAX {
        add(out, b" none")
    } else {
        add(out, b" t")?;
        add_number(out, thread)
    }
}

// Adds threads, each after a space.
fn add_threads(out: &mut Vec<u8>, threads: &IdList) -> Result<(), NoMemory>
    ensures { OnOk result (out.new.items ≡ out.old.items ++ thread_words threads.now) }
{
    for place in 0..threads.len() {
        add_thread(out, threads.get(place))?;
    }
    Ok(())
}

// Adds these cycles of threads.
fn add_each(out: &mut Vec<u8>, cycles: &[IdList]) -> Result<(), NoMemory>
    ensures { OnOk result (out.new.items ≡ out.old.items ++ flat_map (λ threads. codes ", cycle" ++ thread_words threads) cycles.now) }
{
    for place in 0..cycles.len() {
        add(out, b", cycle")?;
        add_threads(out, &cycles[place])?;
    }
    Ok(())
}

// Adds who is in a deadlock.
fn add_cycles(alloc: Global, out: &mut Vec<u8>, machine: &ScriptMachine) -> Result<(), NoMemory>
    requires { machine.now.failed ≡ false }
    ensures { OnOk result (out.new.items ≡ out.old.items ++ cycles_text end.Stuck (core_now machine.now)) }
{
    let snap = machine.snapshot()?;
    let cycles = cycles_of(alloc, &snap.pod)?;
    add_each(out, cycles.as_slice())
}

// Adds the deadlocks of a session that is stuck.
fn add_deadlocks(
    alloc: Global,
    out: &mut Vec<u8>,
    machine: &ScriptMachine,
    end: End,
) -> Result<(), NoMemory>
    requires { machine.now.failed ≡ false }
    ensures { OnOk result (out.new.items ≡ out.old.items ++ cycles_text end (core_now machine.now)) }
{
    match end {
        End::Stuck => add_cycles(alloc, out, machine),
        End::Ended(_) => Ok(()),
        End::Endless => Ok(()),
    }
}

// Adds the line of a kind, by a path to the first of so many cores.
fn add_line(
    alloc: Global,
    out: &mut Vec<u8>,
    machine: &ScriptMachine,
    listed: &Listed,
    path: &[u32],
) -> Result<(), NoMemory>
    requires first { IsAtFirst machine.now }
    requires leads { IsSome (walk (after (world_of machine.now.script)) (first_core (world_of machine.now.script)) path.now) }
    ensures { OnOk result (out.new.items ≡ out.old.items
        ++ path_line (world_of machine.now.script) listed.now.number listed.now.cores path.now) }
{
    let first = stand_after(machine, path)?;
    let kind = kind_of(listed.number);
    add_kind(out, kind)?;
    add(out, b": ")?;
    add_number(out, listed.cores)?;
    add(out, b" cores, ")?;
    add_length(out, &first)?;
    add_deadlocks(alloc, out, &first, kind.end)?;
    add(out, b"\n")
}

// Adds the lines of these kinds.
fn add_lines(
    alloc: Global,
    out: &mut Vec<u8>,
    machine: &ScriptMachine,
    rows: &[Row],
    kinds: &[Listed],
) -> Result<(), NoMemory>
    requires first { IsAtFirst machine.now }
    requires below { HasParentsBelow rows.now }
    requires reached { All (IsReached (world_of machine.now.script) rows.now) kinds.now }
    ensures { OnOk result (out.new.items ≡ out.old.items
        ++ flat_map (listed_line (world_of machine.now.script) rows.now) kinds.now) }
{
    for place in 0..kinds.len() {
        let Ok(path) = path_to(alloc, rows, kinds[place].first) else {
            return Err(NoMemory);
        };
        add_line(alloc, out, machine, &kinds[place], &path)?;
    }
    Ok(())
}

// How many cores were found, how many steps were tried, and whether these are all.
fn add_counts(out: &mut Vec<u8>, cores: u64, tried: u64, whole: bool) -> Result<(), NoMemory>
    ensures { OnOk result (out.new.items ≡ out.old.items ++ counts_text cores tried whole) }
{
    add(out, b"states ")?;
    add_number(out, cores)?;
    add(out, b" steps ")?;
    add_number(out, tried)?;
    if whole {
        add(out, b" whole\n")
    } else {
        add(out, b" cut\n")
    }
}

// Whether some end is not well.
fn is_told(kinds: &[Listed]) -> bool
    ensures { result ≡ list_any (λ l. is_bad (code_kind l.number)) kinds.now }
{
    for place in 0..kinds.len() {
        if !is_well(kind_of(kinds[place].number)) {
            return true;
        }
    }
    false
}

fn ending_of(kinds: &[Listed], whole: bool) -> Ending
    ensures { result ≡ ends_of kinds.now whole }
{
    if is_told(kinds) {
        Ending::Told
    } else if whole {
        Ending::Well
    } else {
        Ending::Cut
    }
}

/// What is said of all ends, and what that comes to.
pub fn ends_text(
    alloc: Global,
    machine: &ScriptMachine,
    cores: usize,
) -> Result<(Vec<u8>, Ending), NoMemory>
    requires first { IsAtFirst machine.now }
    requires posted { IsPosted machine.now.script }
    requires some { 1 ≤ cores }
    requires few { cores ≤ 1000000 }
    ensures { IfOk result (λ told. EndsSay (world_of machine.now.script) cores told.0.items told.1) }
{
    let found = search_all(alloc, machine, cores)?;
    let all = kinds_in(alloc, &found)?;
    let mut out = Vec::new(alloc);
    add_counts(&mut out, found.rows.len() as u64, found.tried, found.whole)?;
    add_lines(alloc, &mut out, machine, &found.rows, &all.1)?;
    let ending = ending_of(&all.1, found.whole);
    Ok((out, ending))
}
