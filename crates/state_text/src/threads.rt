// The lines of threads.
ghost use Rattle.std.specs.Prelude.{◌≡◌, ◌++◌, None, OnOk, drop, map};
ghost use Rattle.std.specs.List.{flat_map};
ghost use Rattle.pod_events.specs.Machine.{current_of};
ghost use Rattle.snapshots.specs.Copies.{row_in, state_in};
ghost use Rattle.state_text.specs.Tables.{AreTables};
ghost use Rattle.state_text.specs.Text.{began_in, began_text, belongings, block_text, flags_end, mark_line, standing_text, thread_line, thread_lines, until_text};
ghost use Rattle.trace_text.specs.Lines.{proc_text, source_text};

use crate::entries::{add_entries, add_mark};
use crate::keys::Keys;
use crate::tables::Tables;
use crate::waiting::{receiver_of, timer_of};
use crate::words::{add_id, add_if, add_word_id, add_word_number};
use lists::TextList;
use lwp_types::{Block, Mark, NULL_TID, NoMemory, Tid, TimerRow};
use snapshots::{PodCopy, ThreadCopy, ThreadNote};
use trace_text::add_text;

fn add_until(out: &mut Vec<u8>, timer: Option<TimerRow>) -> Result<(), NoMemory>
    ensures { OnOk result (out.new.items ≡ out.old.items ++ until_text timer) }
{
    match timer {
        Some(row) => add_word_number(out, b" until ", row.due),
        None => Ok(()),
    }
}

fn add_source(out: &mut Vec<u8>, from: Option<Tid>) -> Result<(), NoMemory>
    ensures { OnOk result (out.new.items ≡ out.old.items ++ source_text None from) }
{
    match from {
        Some(tid) => add_id(out, b"t", tid.number),
        None => add_text(out, b"any"),
    }
}

// What a thread waits for, if it does.
fn add_block(
    out: &mut Vec<u8>,
    pod: &PodCopy,
    tables: &Tables,
    tid: Tid,
    block: Block,
) -> Result<(), NoMemory>
    requires { AreTables pod.now.state tables.now }
    ensures { OnOk result (out.new.items ≡ out.old.items ++ block_text (state_in pod.now.state) tid block) }
{
    match block {
        Block::Not => Ok(()),
        Block::Joining(other) => add_word_id(out, b"joins ", b"t", other.number),
        Block::Sending => {
            let to = receiver_of(pod, tables, tid).unwrap_or(NULL_TID);
            add_word_id(out, b"sends ", b"t", to.number)
        }
        Block::Receiving(from) => {
            add_text(out, b"receives ")?;
            add_source(out, from)?;
            add_until(out, timer_of(pod, tables, tid))
        }
        Block::Entering(mon) => add_word_id(out, b"enters ", b"m", mon.number),
        Block::Waiting(cond) => add_word_id(out, b"waits ", b"c", cond.number),
        Block::Sleeping => {
            add_text(out, b"sleeps")?;
            add_until(out, timer_of(pod, tables, tid))
        }
    }
}

// How a thread is; `current` is whose turn it is.
fn add_standing(
    out: &mut Vec<u8>,
    pod: &PodCopy,
    tables: &Tables,
    current: Option<Tid>,
    row: &ThreadCopy,
) -> Result<(), NoMemory>
    requires tables { AreTables pod.now.state tables.now }
    requires current { current ≡ current_of (state_in pod.now.state) }
    ensures { OnOk result (out.new.items ≡ out.old.items ++ standing_text (state_in pod.now.state) (row_in row.now)) }
{
    if let Block::Not = row.block {
        if row.suspended {
            return add_text(out, b"suspended");
        }
        return match current {
            Some(tid) if tid == row.number => add_text(out, b"next"),
            _ => add_text(out, b"ready"),
        };
    }
    add_block(out, pod, tables, row.number, row.block)?;
    add_if(out, row.suspended, b" suspended")
}

// The procedure that a thread began in; `whose` are the threads of the notes.
fn began_in(notes: &[ThreadNote], whose: &Keys, tid: Tid) -> Option<u32>
    requires { whose.now ≡ map (λ note. note.tid) notes.now }
    ensures { result ≡ began_in notes.now tid }
{
    let place = whose.next(tid.number, 0)?;
    Some(notes[place].proc)
}

fn add_proc(out: &mut Vec<u8>, procs: &TextList, number: u32) -> Result<(), NoMemory>
    ensures { OnOk result (out.new.items ≡ out.old.items ++ proc_text procs.now number) }
{
    let place = number as usize;
    if place < procs.len() {
        add_text(out, procs.bytes(place))
    } else {
        add_text(out, b"none")
    }
}

fn add_began(out: &mut Vec<u8>, procs: &TextList, began: Option<u32>) -> Result<(), NoMemory>
    ensures { OnOk result (out.new.items ≡ out.old.items ++ began_text procs.now began) }
{
    match began {
        Some(number) => add_proc(out, procs, number),
        None => add_text(out, b"none"),
    }
}

/// What is told of threads, apart from their state.
#[derive(Clone, Copy)]
pub(crate) struct Cast<'c, 's> {
    pub(crate) procs: &'c TextList,
    pub(crate) notes: &'c [ThreadNote<'s>],
    /// The threads of the notes.
    pub(crate) whose: &'c Keys,
    /// Whose turn it is.
    pub(crate) current: Option<Tid>,
}

// The marks above the first frame.
fn add_marks(out: &mut Vec<u8>, marks: &[Mark]) -> Result<(), NoMemory>
    ensures { OnOk result (out.new.items ≡ out.old.items ++ flat_map mark_line (drop 1 marks.now)) }
{
    for i in 1..marks.len() {
        add_mark(out, &marks[i])?;
    }
    Ok(())
}

fn number_of(tid: Tid) -> u64
    ensures { result ≡ tid }
{
    tid.number
}

// What a thread has.
fn add_belongings(
    out: &mut Vec<u8>,
    pod: &PodCopy,
    tables: &Tables,
    row: &ThreadCopy,
) -> Result<(), NoMemory>
    requires { AreTables pod.now.state tables.now }
    ensures { OnOk result (out.new.items ≡ out.old.items ++ belongings (state_in pod.now.state) (row_in row.now)) }
{
    let tid = number_of(row.number);
    add_entries(out, pod.state.locks.as_slice(), &tables.owners, tid)?;
    add_marks(out, row.marks.as_slice())?;
    add_entries(out, pod.state.letters.as_slice(), &tables.receivers, tid)?;
    add_entries(out, pod.state.agents.as_slice(), &tables.agents, tid)?;
    Ok(())
}

// How a thread is marked, and the end of its line.
fn add_flags(out: &mut Vec<u8>, row: &ThreadCopy) -> Result<(), NoMemory>
    ensures { OnOk result (out.new.items ≡ out.old.items ++ flags_end row.now.flags) }
{
    add_if(out, row.flags.nolastrites, b" nolastrites")?;
    add_if(out, row.flags.server, b" server")?;
    add_text(out, b"\n")
}

// A thread's line.
fn add_thread(
    out: &mut Vec<u8>,
    cast: &Cast,
    pod: &PodCopy,
    tables: &Tables,
    row: &ThreadCopy,
) -> Result<(), NoMemory>
    requires tables { AreTables pod.now.state tables.now }
    requires whose { cast.now.whose.now ≡ map (λ note. note.tid) cast.now.notes.now }
    requires current { cast.now.current ≡ current_of (state_in pod.now.state) }
    ensures { OnOk result
        (out.new.items ≡ out.old.items ++ thread_line cast.now.procs.now cast.now.notes.now (state_in pod.now.state) (row_in row.now)) }
{
    add_id(out, b"t", row.number.number)?;
    add_text(out, b" ")?;
    add_began(
        out,
        cast.procs,
        began_in(cast.notes, cast.whose, row.number),
    )?;
    add_word_number(out, b" prio ", u64::from(row.priority))?;
    add_text(out, b" ")?;
    add_standing(out, pod, tables, cast.current, row)?;
    add_flags(out, row)
}

/// Each thread, and what it has.
pub(crate) fn add_all_threads(
    out: &mut Vec<u8>,
    cast: &Cast,
    pod: &PodCopy,
    tables: &Tables,
) -> Result<(), NoMemory>
    requires tables { AreTables pod.now.state tables.now }
    requires whose { cast.now.whose.now ≡ map (λ note. note.tid) cast.now.notes.now }
    requires current { cast.now.current ≡ current_of (state_in pod.now.state) }
    ensures { OnOk result
        (out.new.items
        ≡ out.old.items ++ flat_map (thread_lines cast.now.procs.now cast.now.notes.now (state_in pod.now.state)) (map row_in pod.now.state.threads)) }
{
    for row in pod.state.threads.as_slice() {
        add_thread(out, cast, pod, tables, row)?;
        add_belongings(out, pod, tables, row)?;
    }
    Ok(())
}
