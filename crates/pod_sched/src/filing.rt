// The slot of each known thread, found by its number: an index that is made wider as there are more threads.
ghost use Rattle.std.specs.Prelude.{ℕ, ◌≡◌, ◌≤◌, OnErr, OnOk, length};
ghost use Rattle.std.specs.List.{find};
ghost use Rattle.lists.specs.ChainLists.{items};
ghost use Rattle.lists.specs.ThreadIndex.{IsEmpty, count_of, place_of, width_of};
ghost use Rattle.pod_sched.specs.Slots.{AreListed, has_tid, row_at};

use crate::rows::{Known, row_at};
use lists::{Chains, Index};
use lwp_types::NoMemory;

/// An index has so many cells at first.
pub const FEWEST_CELLS: usize = 16;

// No index has more cells.
const MOST_CELLS: usize = 4096;

// How many cells there are to be for so many threads: a power of two, and eight for each thread as long as that isn't
// too many. A thread that is born then seldom finds another in its cell.
fn width_for(n: usize) -> usize
    ensures { 1 ≤ result }
{
    let mut width = FEWEST_CELLS;
    while width / 8 < n && width < MOST_CELLS {
        width = width + width;
    }
    width
}

// Puts each known thread in an index that has nobody so far, at its slot.
fn file(slots: &Chains, rows: &Vec<Known>, index: &mut Index)
    requires list { 1 ≤ length slots.now.lists }
    requires listed { AreListed rows.now.items slots.now.limit (items slots.now 0) }
    requires empty { IsEmpty index.old }
    requires some { 1 ≤ width_of index.old }
    requires room { length (items slots.now 0) ≤ index.old.room }
    ensures found { (t : ℕ) →
        place_of index.new t ≡ find (has_tid (row_at rows.now.items) t) (items slots.now 0) }
    ensures count { count_of index.new ≡ length (items slots.now 0) }
    ensures width { width_of index.new ≡ width_of index.old }
    ensures room { index.new.room ≡ index.old.room }
{
    let mut next = slots.first(0);
    while let Some(slot) = next {
        index.put(row_at(rows, slot).tid, slot);
        next = slots.behind(0, slot);
    }
}

// Makes room for so many threads in all, in an index of those that are known. It is made wider where it has too few
// cells for them.
pub fn widen(slots: &Chains, rows: &Vec<Known>, index: &mut Index, n: usize) -> Result<(), NoMemory>
    requires list { 1 ≤ length slots.now.lists }
    requires listed { AreListed rows.now.items slots.now.limit (items slots.now 0) }
    requires fits { length (items slots.now 0) ≤ n }
    requires found { (t : ℕ) →
        place_of index.old t ≡ find (has_tid (row_at rows.now.items) t) (items slots.now 0) }
    requires count { count_of index.old ≡ length (items slots.now 0) }
    requires some { 1 ≤ width_of index.old }
    ensures found { (t : ℕ) →
        place_of index.new t ≡ find (has_tid (row_at rows.now.items) t) (items slots.now 0) }
    ensures count { count_of index.new ≡ length (items slots.now 0) }
    ensures some { 1 ≤ width_of index.new }
    ensures ok { OnOk result (n ≤ index.new.room) }
    ensures err { OnErr result (index.old.room ≤ index.new.room) }
{
    let width = width_for(n);
    if width <= index.width() {
        return index.reserve(n);
    }
    let mut wider = Index::with_width(*rows.allocator(), width)?;
    wider.reserve(n)?;
    file(slots, rows, &mut wider);
    *index = wider;
    Ok(())
}
