// The timers as leaves, each after those that were set before it.
ghost use Rattle.std.specs.Prelude.{[], ◌∷◌, ◌++◌, Some, ◌≡◌, ◌+◌, ◌<◌, ◌≤◌, ◌^◌, IfOk, OnOk, OnErr, None, is_some, false, length, replicate, slice_set, vec_capacity};
ghost use Rattle.std.specs.List.{filter, list_any};
ghost use Rattle.lwp_types.specs.Time.{is_due};
ghost use Rattle.lwp_types.specs.Unblock.{is_timer_of};
ghost use Rattle.lists.specs.ThreadIndex.{IsEmpty, width_of};
ghost use Rattle.pod_sched.specs.Timers.Kept.{IsFiled};
ghost use Rattle.pod_sched.specs.Timers.Leaves.{IsOnce, after_pack, after_take, bare, first_of, leaf_at, never, timer_leaf, with_leaf};
ghost use Rattle.lists.specs.Living.{living};
ghost use Rattle.pod_sched.specs.Timers.Clock.{next_due};

use crate::timers::minima::{Minima, NEVER};
use lists::{self, Index, cloned_exactly};
use lwp_types::{NoMemory, Sequence, Tid, TimerRow};
use std::alloc::Global;
use std::marker::Model;

// No heap by ticks: its first is not the first to arrive, and a timer that goes before its time would stay in it.
/// Leaves in the order in which timers were set. A leaf is empty once its timer is gone.
pub struct Shelf {
    leaves: Vec<Option<TimerRow>>,
    // The tick of each leaf.
    dues: Minima,
    // The leaf of each thread that has a timer.
    index: Index,
}

// PROVER: written by hand, so that a function that drops one calls this instead of repeating its proof.
impl Drop for Shelf {
    fn drop(self) {
        let Shelf {
            leaves: _,
            dues: _,
            index: _,
        } = self;
    }
}

impl Model for Shelf {
    ghost use Rattle.std.specs.Prelude.{length, vec_capacity};
    ghost use Rattle.pod_sched.specs.Timers.Kept.{IsShelved};
    ghost use Rattle.pod_sched.specs.Timers.Leaves.{Shelved};

    ghost Value = { Shelved };

    ghost view = { λ s. record { leaves = s.leaves.items; width = length s.dues } };

    ghost invariant = { λ s. IsShelved s.leaves.items s.dues s.index (vec_capacity s.leaves) };
}

// What a leaf has.
fn leaf_at(leaves: &Vec<Option<TimerRow>>, leaf: usize) -> Option<TimerRow>
    requires { leaf < length leaves.now.items }
    ensures { result ≡ leaf_at leaves.now.items leaf }
{
    leaves[leaf]
}

// One leaf more, the last.
fn push_leaf(leaves: &mut Vec<Option<TimerRow>>, tid: Tid, due: u64)
    requires { length leaves.old.items < vec_capacity leaves.old }
    ensures items { leaves.new.items ≡ leaves.old.items ++ timer_leaf tid due ∷ [] }
    ensures capacity { vec_capacity leaves.new ≡ vec_capacity leaves.old }
{
    leaves.push_reserved(Some(TimerRow { tid, due }));
}

// The leaf is empty from now on.
fn empty_leaf(leaves: &mut Vec<Option<TimerRow>>, leaf: usize)
    requires { leaf < length leaves.old.items }
    ensures items { leaves.new.items ≡ slice_set leaves.old.items leaf None }
    ensures capacity { vec_capacity leaves.new ≡ vec_capacity leaves.old }
{
    leaves[leaf] = None;
}

// The empty leaves go; the others keep their order.
fn close_up(leaves: &mut Vec<Option<TimerRow>>)
    ensures items { leaves.new.items ≡ filter is_some leaves.old.items }
    ensures capacity { vec_capacity leaves.new ≡ vec_capacity leaves.old }
{
    leaves.retain(|leaf| leaf.is_some());
}

// Files the leaves in a tree and an index that have none yet.
fn file(leaves: &Vec<Option<TimerRow>>, dues: &mut Minima, index: &mut Index)
    requires once { IsOnce leaves.now.items }
    requires bare { dues.old ≡ replicate (length dues.old) never }
    requires empty { IsEmpty index.old }
    requires fits { length leaves.now.items ≤ length dues.old }
    requires cells { width_of index.old ≡ length dues.old }
    requires room { length dues.old ≤ index.old.room }
    ensures filed { IsFiled leaves.now.items dues.new index.new }
    ensures len { length dues.new ≡ length dues.old }
    ensures width { width_of index.new ≡ width_of index.old }
    ensures room { index.new.room ≡ index.old.room }
{
    for leaf in 0..leaves.len() {
        if let Some(row) = leaf_at(leaves, leaf) {
            dues.set(leaf, row.due);
            index.put(row.tid, leaf);
        }
    }
}

impl Shelf {
    /// No leaf, and room for none.
    pub fn new(alloc: Global) -> Shelf
        ensures { result ≡ bare }
    {
        Shelf {
            leaves: Vec::new(alloc),
            dues: Minima::new(alloc),
            index: Index::new(alloc),
        }
    }

    /// The same leaves in memory of their own.
    pub fn again(&self) -> Result<Shelf, NoMemory>
        ensures { IfOk result (λ copy. copy ≡ self.now) }
    {
        Ok(Shelf {
            leaves: cloned_exactly(&self.leaves)?,
            dues: self.dues.again()?,
            index: self.index.again()?,
        })
    }

    /// How many leaves there may be.
    pub fn width(&self) -> usize
        ensures { result ≡ self.now.width }
    {
        self.dues.len()
    }

    /// The tick at which the first timer falls due. One look.
    pub fn next_due(&self) -> u64
        ensures { result ≡ next_due (living self.now.leaves) }
    {
        self.dues.least()
    }

    /// The first leaf whose tick has come.
    pub fn first_due(&self, now: u64) -> Option<usize>
        requires { now < never }
        ensures { result ≡ first_of (is_due now) self.now.leaves }
    {
        self.dues.first_within(now)
    }

    /// The thread's leaf.
    pub fn leaf_of(&self, tid: Tid) -> Option<usize>
        ensures { result ≡ first_of (is_timer_of tid) self.now.leaves }
    {
        self.index.place_of(tid)
    }

    /// A copy of the timers, in the order in which they were set.
    pub fn rows(&self) -> Result<Sequence<TimerRow>, NoMemory>
        ensures { IfOk result (λ rows. rows ≡ living self.now.leaves) }
    {
        lists::living(*self.leaves.allocator(), &self.leaves)
    }

    /// The leaf is empty from now on; the answer is what it had.
    pub fn take(&mut self, leaf: usize) -> Option<TimerRow>
        requires { leaf < length self.old.leaves }
        ensures value { result ≡ leaf_at self.old.leaves leaf }
        ensures after { self.new ≡ after_take self.old leaf }
        ensures once { IsOnce self.old.leaves }
    {
        let row = leaf_at(&self.leaves, leaf)?;
        empty_leaf(&mut self.leaves, leaf);
        self.dues.set(leaf, NEVER);
        self.index.take(row.tid);
        Some(row)
    }

    /// One leaf more, after all others.
    pub fn add(&mut self, tid: Tid, due: u64)
        requires new { list_any (is_timer_of tid) (living self.old.leaves) ≡ false }
        requires room { length self.old.leaves < self.old.width }
        ensures { self.new ≡ with_leaf self.old tid due }
    {
        let leaf = self.leaves.len();
        push_leaf(&mut self.leaves, tid, due);
        self.dues.set(leaf, due);
        self.index.put(tid, leaf);
    }

    /// Makes room for one leaf more: where there is none left, the empty leaves go.
    pub fn make_room(&mut self)
        requires { length (living self.old.leaves) < self.old.width }
        ensures timers { living self.new.leaves ≡ living self.old.leaves }
        ensures width { self.new.width ≡ self.old.width }
        ensures room { length self.new.leaves < self.new.width }
    {
        if self.leaves.len() == self.dues.len() {
            self.pack();
        }
    }

    // The empty leaves go; the others keep their order.
    fn pack(&mut self)
        ensures { self.new ≡ after_pack self.old }
    {
        close_up(&mut self.leaves);
        self.dues.clear();
        self.index.clear();
        file(&self.leaves, &mut self.dues, &mut self.index);
    }

    /// Room for so many leaves at least.
    pub fn widen(&mut self, least: usize) -> Result<(), NoMemory>
        requires more { self.old.width < least }
        requires most { least ≤ 2 ^ 61 }
        ensures leaves { self.new.leaves ≡ self.old.leaves }
        ensures ok { OnOk result (least ≤ self.new.width) }
        ensures err { OnErr result (self.new ≡ self.old) }
    {
        let alloc = *self.leaves.allocator();
        let mut dues = Minima::with_leaves(alloc, least)?;
        let mut index = Index::with_cells(alloc, dues.len())?;
        self.leaves.reserve(dues.len() - self.leaves.len())?;
        file(&self.leaves, &mut dues, &mut index);
        self.dues = dues;
        self.index = index;
        Ok(())
    }
}
