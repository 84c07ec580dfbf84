// Deadlocks: who waits in a cycle.
ghost use Rattle.std.specs.Prelude.{◌≡◌, ◌<◌, ◌++◌, IfOk, OnOk, length, true, ℕ};
ghost use Rattle.std.specs.List.{flat_map};
ghost use Rattle.snapshots.specs.Copies.{state_in};
ghost use Rattle.state_text.specs.Covers.{HasFollowed, IsCovered, IsLeastFrom};
ghost use Rattle.state_text.specs.Keys.{IsAbsent, key_at};
ghost use Rattle.state_text.specs.Tables.{AreTables};
ghost use Rattle.state_text.specs.Text.{cycle_line};
ghost use Rattle.state_text.specs.Waiting.{cycle_from, cycles, next_of};

use crate::keys::Keys;
use crate::tables::Tables;
use crate::waiting::{awaited, next_of};
use crate::words::add_threads;
use lwp_types::{IdList, NoMemory, Sequence, Tid};
use snapshots::PodCopy;
use std::alloc::Global;
use trace_text::add_text;

// Goes from a thread on until nobody is waited for or somebody comes who was seen. Each one on the way is seen from then on, in this
// colour. Answers who came again, if that was on this way: it leads into a cycle that nobody has seen yet.
fn seen_again(
    pod: &PodCopy,
    tables: &Tables,
    colours: &mut Vec<usize>,
    colour: usize,
    start: Tid,
) -> Option<Tid>
    requires tables { AreTables pod.now.state tables.now }
    requires places { length colours.old.items ≡ length pod.now.state.threads }
    ensures places { length colours.new.items ≡ length colours.old.items }
    ensures followed { HasFollowed (next_of (state_in pod.now.state)) (length pod.now.state.threads)
        tables.now.threads colours.old.items colours.new.items start result }
{
    let mut here = start;
    for step in 0..pod.state.threads.len() {
        let place = tables.threads.next(here.number, 0)?;
        if colours[place] != 0 {
            return if colours[place] == colour {
                Some(here)
            } else {
                None
            };
        }
        colours[place] = colour;
        here = awaited(pod, tables, &pod.state.threads.as_slice()[place])?;
    }
    Some(here)
}

// The least of a cycle that this thread is in.
fn least_of(pod: &PodCopy, tables: &Tables, start: Tid) -> u64
    requires { AreTables pod.now.state tables.now }
    ensures { IsLeastFrom (next_of (state_in pod.now.state)) (length pod.now.state.threads) start result }
{
    let mut least = start.number;
    let mut here = start;
    for step in 0..pod.state.threads.len() {
        let Some(next) = next_of(pod, tables, here) else {
            return least;
        };
        if next == start {
            return least;
        }
        least = least.min(next.number);
        here = next;
    }
    least
}

// The least threads of all cycles; each thread is seen once, and those of a cycle once more.
fn least_threads(alloc: Global, pod: &PodCopy, tables: &Tables) -> Result<Keys, NoMemory>
    requires { AreTables pod.now.state tables.now }
    ensures { IfOk result (λ found. (i : ℕ) → i < length pod.now.state.threads →
        IsCovered (next_of (state_in pod.now.state)) (length pod.now.state.threads) found (key_at tables.now.threads i)) }
{
    let count = pod.state.threads.len();
    let mut colours = vec![in alloc; 0; count]?;
    let mut found = Vec::new(alloc);
    for i in 0..count {
        let start = pod.state.threads.as_slice()[i].number;
        if let Some(tid) = seen_again(pod, tables, &mut colours, i + 1, start) {
            found.push(least_of(pod, tables, tid))?;
        }
    }
    Keys::of(alloc, found)
}

// The cycle that has this thread as its least, from it on.
fn cycle_from(
    alloc: Global,
    pod: &PodCopy,
    tables: &Tables,
    start: Tid,
) -> Result<Option<IdList>, NoMemory>
    requires { AreTables pod.now.state tables.now }
    ensures { IfOk result (λ cycle. cycle ≡ cycle_from (state_in pod.now.state) start) }
{
    let mut cycle = IdList::new(alloc);
    let mut here = start;
    for step in 0..pod.state.threads.len() {
        if here.number < start.number {
            return Ok(None);
        }
        cycle.push(here.number)?;
        let Some(next) = next_of(pod, tables, here) else {
            return Ok(None);
        };
        if next == start {
            return Ok(Some(cycle));
        }
        here = next;
    }
    Ok(None)
}

// Whether a thread is not among these.
fn is_missing(least: &Keys, tid: Tid) -> bool
    ensures { result ≡ true → IsAbsent least.now tid 0 (length least.now) }
{
    match least.next(tid.number, 0) {
        Some(_) => false,
        None => true,
    }
}

fn add_cycle(out: &mut Vec<u8>, cycle: &IdList) -> Result<(), NoMemory>
    ensures { OnOk result (out.new.items ≡ out.old.items ++ cycle_line cycle.now) }
{
    add_text(out, b"cycle")?;
    add_threads(out, cycle)?;
    add_text(out, b"\n")
}

// All cycles, each from its least thread on, by the births of these.
fn cycles_in(alloc: Global, pod: &PodCopy, tables: &Tables) -> Result<Sequence<IdList>, NoMemory>
    requires { AreTables pod.now.state tables.now }
    ensures { IfOk result (λ found. found ≡ cycles (state_in pod.now.state)) }
{
    let least = least_threads(alloc, pod, tables)?;
    let mut found = Sequence::new(alloc);
    for row in pod.state.threads.as_slice() {
        if is_missing(&least, row.number) {
            continue;
        }
        if let Some(cycle) = cycle_from(alloc, pod, tables, row.number)? {
            found.push(cycle)?;
        }
    }
    Ok(found)
}

/// The deadlocks of a pod: cycles of threads of which each waits for the next, and the last for the first. Each is told from its least
/// thread on, and they come in the order of these threads' births. The cost is that of a pass over the threads, but for a logarithm.
pub fn cycles_of(alloc: Global, pod: &PodCopy) -> Result<Sequence<IdList>, NoMemory>
    ensures { IfOk result (λ found. found ≡ cycles (state_in pod.now.state)) }
{
    let tables = Tables::of(alloc, pod)?;
    cycles_in(alloc, pod, &tables)
}

// A line for each of these cycles.
fn add_each(out: &mut Vec<u8>, found: &[IdList]) -> Result<(), NoMemory>
    ensures { OnOk result (out.new.items ≡ out.old.items ++ flat_map cycle_line found.now) }
{
    for i in 0..found.len() {
        add_cycle(out, &found[i])?;
    }
    Ok(())
}

/// A line for each cycle.
pub(crate) fn add_cycles(
    alloc: Global,
    out: &mut Vec<u8>,
    pod: &PodCopy,
    tables: &Tables,
) -> Result<(), NoMemory>
    requires { AreTables pod.now.state tables.now }
    ensures { OnOk result (out.new.items ≡ out.old.items ++ flat_map cycle_line (cycles (state_in pod.now.state))) }
{
    let found = cycles_in(alloc, pod, tables)?;
    add_each(out, found.as_slice())?;
    Ok(())
}
