// The whole text.
ghost use Rattle.std.specs.Prelude.{◌≡◌, ◌++◌, IfOk, OnOk, codes, map};
ghost use Rattle.std.specs.List.{flat_map};
ghost use Rattle.pod_events.specs.Copies.{events_in};
ghost use Rattle.snapshots.specs.Copies.{row_in, state_in};
ghost use Rattle.state_text.specs.Tables.{AreTables};
ghost use Rattle.state_text.specs.Text.{end_line, event_lines, is_stuck, pod_lines, state_text, thread_lines, thread_words, trapped_words, whole_line, words_line};

use crate::clients::{ClientLines, add_clients};
use crate::cycles::add_cycles;
use crate::keys::Keys;
use crate::parts::{add_conditions, add_monitors, add_pending, add_trapped};
use crate::tables::Tables;
use crate::threads::{Cast, add_all_threads};
use crate::turns::{EventKeys, choice, current_of, is_wanted};
use crate::words::{add_threads, add_word_number, add_words_line};
use lists::TextList;
use lwp_types::{IdList, NoMemory, Sequence};
use snapshots::{PodCopy, Snapshot, ThreadNote};
use std::alloc::Global;
use trace_text::add_text;

fn add_whole(out: &mut Vec<u8>, calls: u64, pod: &PodCopy) -> Result<(), NoMemory>
    ensures { OnOk result (out.new.items ≡ out.old.items ++ whole_line calls (state_in pod.now.state)) }
{
    add_word_number(out, b"calls ", calls)?;
    add_word_number(out, b" now ", pod.state.now)?;
    add_word_number(out, b" maxpri ", u64::from(pod.state.maxpri))?;
    add_word_number(out, b" exit ", u64::from(pod.state.status))?;
    add_text(out, b"\n")
}

// A first word and threads, on a line; nothing, where there are none.
fn add_ids_line(
    alloc: Global,
    out: &mut Vec<u8>,
    first: &[u8],
    ids: &IdList,
) -> Result<(), NoMemory>
    ensures { OnOk result (out.new.items ≡ out.old.items ++ words_line first.now (thread_words ids.now)) }
{
    let mut words = Vec::new(alloc);
    add_threads(&mut words, ids)?;
    add_words_line(out, first, &words)
}

fn add_trapped_line(alloc: Global, out: &mut Vec<u8>, trapped: &[bool]) -> Result<(), NoMemory>
    ensures { OnOk result (out.new.items ≡ out.old.items ++ words_line (codes "trapped") (trapped_words 0 trapped.now)) }
{
    let mut words = Vec::new(alloc);
    add_trapped(&mut words, trapped)?;
    add_words_line(out, b"trapped", &words)
}

fn add_cast(
    alloc: Global,
    out: &mut Vec<u8>,
    procs: &TextList,
    notes: &[ThreadNote],
    pod: &PodCopy,
    tables: &Tables,
) -> Result<(), NoMemory>
    requires { AreTables pod.now.state tables.now }
    ensures { OnOk result
        (out.new.items ≡ out.old.items ++ flat_map (thread_lines procs.now notes.now (state_in pod.now.state)) (map row_in pod.now.state.threads)) }
{
    let whose = Keys::of(
        alloc,
        notes.iter().map(|note| note.tid.number).collect(alloc)?,
    )?;
    let cast = Cast {
        procs,
        notes,
        whose: &whose,
        current: current_of(pod, tables),
    };
    add_all_threads(out, &cast, pod, tables)
}

// The events that a pod keeps for itself.
fn add_events(alloc: Global, out: &mut Vec<u8>, pod: &PodCopy) -> Result<(), NoMemory>
    ensures { OnOk result (out.new.items ≡ out.old.items ++ event_lines pod.now) }
{
    add_trapped_line(alloc, out, &pod.trapped)?;
    add_pending(out, pod.pending)?;
    add_ids_line(alloc, out, b"reports", &pod.reports)
}

// All that is told of a pod.
fn add_pod(
    alloc: Global,
    out: &mut Vec<u8>,
    procs: &TextList,
    notes: &[ThreadNote],
    pod: &PodCopy,
    tables: &Tables,
) -> Result<(), NoMemory>
    requires { AreTables pod.now.state tables.now }
    ensures { OnOk result (out.new.items ≡ out.old.items ++ pod_lines procs.now notes.now pod.now) }
{
    add_cast(alloc, out, procs, notes, pod, tables)?;
    add_ids_line(alloc, out, b"order", &pod.state.order)?;
    add_monitors(out, pod, tables)?;
    add_conditions(out, pod, tables)?;
    add_events(alloc, out, pod)
}

// Whether nobody may run in a pod that goes on, and no line can be taken.
fn is_stuck(
    alloc: Global,
    pod: &PodCopy,
    tables: &Tables,
    taken: &Sequence<u64>,
    clients: &[ClientLines],
) -> Result<bool, NoMemory>
    requires { AreTables pod.now.state tables.now }
    ensures { IfOk result (λ stuck. stuck ≡ is_stuck (events_in pod.now) taken.now clients.now) }
{
    if choice(pod, tables).is_some() {
        return Ok(false);
    }
    let events = EventKeys::of(alloc, pod.state.agents.as_slice())?;
    Ok(!is_wanted(pod, &events, false, taken, clients))
}

fn add_end(
    alloc: Global,
    out: &mut Vec<u8>,
    pod: &PodCopy,
    tables: &Tables,
    taken: &Sequence<u64>,
    clients: &[ClientLines],
    whole: bool,
) -> Result<(), NoMemory>
    requires { AreTables pod.now.state tables.now }
    ensures { OnOk result (out.new.items ≡ out.old.items ++ end_line whole (events_in pod.now) taken.now clients.now) }
{
    if pod.state.ended {
        add_word_number(out, b"ended ", u64::from(pod.state.status))?;
        return add_text(out, b"\n");
    }
    if whole && is_stuck(alloc, pod, tables, taken, clients)? {
        return add_text(out, b"stuck\n");
    }
    Ok(())
}

/// The text of a session's state. `procs` are the procedures' names, by number, and `clients` the clients of the session, each with how
/// many lines it posts in all. That the session is stuck is told only where its trace is read to its end: `whole` says so.
pub fn state_text(
    alloc: Global,
    snap: &Snapshot,
    procs: &TextList,
    clients: &[ClientLines],
    whole: bool,
) -> Result<Vec<u8>, NoMemory>
    ensures { IfOk result (λ text. text.items ≡ state_text whole procs.now clients.now snap.now) }
{
    let pod = &snap.pod;
    let tables = Tables::of(alloc, pod)?;
    let mut out = Vec::new(alloc);
    add_whole(&mut out, snap.calls, pod)?;
    add_pod(
        alloc,
        &mut out,
        procs,
        snap.threads.as_slice(),
        pod,
        &tables,
    )?;
    add_clients(&mut out, clients, &snap.taken)?;
    add_cycles(alloc, &mut out, pod, &tables)?;
    add_end(alloc, &mut out, pod, &tables, &snap.taken, clients, whole)?;
    Ok(out)
}
