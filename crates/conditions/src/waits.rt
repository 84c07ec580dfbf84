// The waits.
ghost use Rattle.std.specs.Prelude.{◌≡◌, IfOk, map};
ghost use Rattle.conditions.specs.ConditionTable.{is_waited_in, machine_row};
ghost use Rattle.conditions.specs.Waits.{wait_in};

use lists::{Waiting, WaitingList};
use lwp_types::{Cid, NoMemory, Sequence, Tid, WaitRow};
use std::alloc::Global;

/// A thread that waits on a condition: the priority that it was last given, and the depth at which it left the monitor.
#[derive(Clone, Copy)]
pub struct WaitRec {
    pub cond: Cid,
    pub tid: Tid,
    pub prio: u32,
    pub depth: u32,
}

// Whether somebody waits on the condition.
pub fn is_waited(waits: &WaitingList, cond: Cid) -> bool
    ensures { result ≡ is_waited_in (map wait_in waits.now.waiting) cond }
{
    waits.has(cond.number)
}

// The wait that stands so in a line.
pub fn rec_of(waiting: Waiting) -> WaitRec
    ensures { result ≡ wait_in waiting }
{
    WaitRec {
        cond: Cid {
            number: waiting.what,
        },
        tid: waiting.tid,
        prio: waiting.prio,
        depth: waiting.depth,
    }
}

// The machine's row of the wait that stands so in a line.
fn machine_row(waiting: &Waiting) -> WaitRow
    ensures { result ≡ machine_row (wait_in waiting.now) }
{
    WaitRow {
        cond: Cid {
            number: waiting.what,
        },
        tid: waiting.tid,
        depth: waiting.depth,
    }
}

// The machine's rows of all waits.
pub fn machine_rows(alloc: Global, line: &[Waiting]) -> Result<Sequence<WaitRow>, NoMemory>
    ensures { IfOk result (λ rows. rows ≡ map machine_row (map wait_in line.now)) }
{
    let mut rows = Sequence::new(alloc);
    for waiting in line {
        rows.push(machine_row(waiting))?;
    }
    Ok(rows)
}
