// The locks of the held monitors. They lie in the order in which they were acquired, and are found by their monitors, and by their
// owners the last of each, so that nobody goes over the locks of others.
ghost use Rattle.std.specs.Prelude.{IfOk, [], ◌∷◌, ◌++◌, ◌≡◌, ◌+◌, ◌<◌, ◌≤◌, None, Some, ℕ, IsSome, OnOk, is_some, length, slice_set, take, true, vec_capacity};
ghost use Rattle.lwp_types.specs.Monitors.{depth_in, with_depth};
ghost use Rattle.lwp_types.specs.MonitorRelease.{is_owned_by, last_lock, lock_of, locks_on, without_lock};
ghost use Rattle.monitors.specs.Held.{HasPlaces, IsTied};
ghost use Rattle.monitors.specs.Slots.{AreLinked, IsByMonitor, IsByOwner, IsLastIn, LeadsOn, has_in, slot_at};
ghost use Rattle.lists.specs.ThreadIndex.{IsEmpty, Puts, count_of, place_of, width_of};
ghost use Rattle.lists.specs.Living.{living};

use crate::slots::{Link, close_up, deepen, last_on, link_of, lock_at};
use lists::{Index, cloned_exactly};
use lwp_types::{Lock, Mid, NoMemory, Tid};
use std::alloc::Global;

// No sorted lists of places by monitors and owners: a thread older than those that hold many monitors would move theirs,
// one by one, wherever it enters or leaves.
/// The locks.
pub struct Locks {
    // In the order of acquisition. Some slots are empty.
    pub slots: Vec<Option<Lock>>,
    // Of each slot, whose it is, and where that thread's lock before lies.
    pub links: Vec<Link>,
    // The slot of each monitor's lock.
    pub held: Index,
    // The slot of the lock that a thread acquired last.
    pub last: Index,
    // So many locks have room, and there may be twice as many slots.
    pub room: usize,
}

// PROVER: written by hand, so that a function that drops one calls this instead of repeating its proof.
impl Drop for Locks {
    fn drop(self) {
        let Locks {
            slots: _,
            links: _,
            held: _,
            last: _,
            room: _,
        } = self;
    }
}

// An index goes by threads' numbers; a monitor's will do as well.
#[inline(always)]
fn key_of(mon: Mid) -> Tid
    ensures { result ≡ mon }
{
    Tid { number: mon.number }
}

// The lock in the slot after all others is found by its owner, as the last of his. Answers its link.
#[inline(always)]
fn file_owner(
    last: &mut Index,
    links: &mut Vec<Link>,
    slot: usize,
    lock: &Lock,
    _slots: &[Option<Lock>],
)
    requires owners { IsByOwner _slots.now links.old.items last.old }
    requires behind { slot ≡ length _slots.now }
    requires links_fit { length links.old.items < vec_capacity links.old }
    requires cells { 1 ≤ width_of last.old }
    requires room { length links.old.items < last.old.room }
    ensures owners { IsByOwner (_slots.now ++ Some lock.now ∷ []) links.new.items last.new }
    ensures capacity { vec_capacity links.new ≡ vec_capacity links.old }
    ensures width { width_of last.new ≡ width_of last.old }
    ensures index_room { last.new.room ≡ last.old.room }
{
    let below = last.place_of(lock.owner);
    if below.is_some() {
        last.take(lock.owner);
    }
    links.push_reserved(Link {
        owner: lock.owner,
        below,
    });
    last.put(lock.owner, slot);
}

// The owner's last lock is gone: the one before it is his last, where the way leads to one.
fn relink(
    last: &mut Index,
    slots: &[Option<Lock>],
    links: &[Link],
    way: Option<usize>,
    end: usize,
    owner: Tid,
)
    requires linked { AreLinked slots.now links.now }
    requires leads { LeadsOn owner slots.now links.now end way }
    requires within { end ≤ length links.now }
    requires known { IsSome (place_of last.old owner) }
    requires cells { 1 ≤ width_of last.old }
    requires room { count_of last.old ≤ last.old.room }
    ensures owner { IsLastIn (is_owned_by owner) slots.now end (place_of last.new owner) }
    ensures others { (t : ℕ) → (t ≡ owner → ⊥) → place_of last.new t ≡ place_of last.old t }
    ensures fewer { count_of last.new ≤ count_of last.old }
    ensures gone { way ≡ None → count_of last.new + 1 ≡ count_of last.old }
    ensures width { width_of last.new ≡ width_of last.old }
    ensures index_room { last.new.room ≡ last.old.room }
{
    last.take(owner);
    if let Some(slot) = last_on(slots, links, way, end, owner) {
        last.put(owner, slot);
    }
}

// The last slot goes, and with it the last lock of its owner.
fn cut(
    slots: &mut Vec<Option<Lock>>,
    links: &mut Vec<Link>,
    last: &mut Index,
    slot: usize,
    owner: Tid,
)
    requires owners { IsByOwner slots.old.items links.old.items last.old }
    requires end { slot + 1 ≡ length slots.old.items }
    requires has { has_in (is_owned_by owner) slots.old.items slot ≡ true }
    requires cells { 1 ≤ width_of last.old }
    requires room { length links.old.items ≤ last.old.room }
    ensures owners { IsByOwner slots.new.items links.new.items last.new }
    ensures items { slots.new.items ≡ take slot slots.old.items }
    ensures capacity { vec_capacity slots.new ≡ vec_capacity slots.old }
    ensures links_capacity { vec_capacity links.new ≡ vec_capacity links.old }
    ensures width { width_of last.new ≡ width_of last.old }
    ensures index_room { last.new.room ≡ last.old.room }
{
    let below = link_of(links, slot).below;
    slots.pop();
    links.pop();
    relink(last, slots, links, below, slot, owner);
}

// The slot is empty from now on.
fn empty(slots: &mut Vec<Option<Lock>>, links: &[Link], last: &mut Index, slot: usize, owner: Tid)
    requires owners { IsByOwner slots.old.items links.now last.old }
    requires has { has_in (is_owned_by owner) slots.old.items slot ≡ true }
    requires cells { 1 ≤ width_of last.old }
    requires room { length links.now ≤ last.old.room }
    ensures owners { IsByOwner slots.new.items links.now last.new }
    ensures items { slots.new.items ≡ slice_set slots.old.items slot None }
    ensures capacity { vec_capacity slots.new ≡ vec_capacity slots.old }
    ensures width { width_of last.new ≡ width_of last.old }
    ensures index_room { last.new.room ≡ last.old.room }
{
    slots[slot] = None;
    if last.place_of(owner) == Some(slot) {
        relink(last, slots, links, link_of(links, slot).below, slot, owner);
    }
}

// All locks are found, where none is found yet and no slot is empty.
fn refile(slots: &[Option<Lock>], links: &mut Vec<Link>, held: &mut Index, last: &mut Index)
    requires whole { (i : ℕ) → i < length slots.now → is_some (slot_at slots.now i) ≡ true }
    requires once { (m : ℕ) → locks_on (living slots.now) m ≤ 1 }
    requires links_bare { links.old.items ≡ [] }
    requires held_bare { IsEmpty held.old }
    requires last_bare { IsEmpty last.old }
    requires links_fit { length slots.now ≤ vec_capacity links.old }
    requires held_cells { length slots.now ≤ width_of held.old }
    requires held_room { width_of held.old ≤ held.old.room }
    requires last_cells { length slots.now ≤ width_of last.old }
    requires last_room { width_of last.old ≤ last.old.room }
    ensures by_monitor { IsByMonitor slots.now held.new }
    ensures by_owner { IsByOwner slots.now links.new.items last.new }
    ensures capacity { vec_capacity links.new ≡ vec_capacity links.old }
    ensures held_width { width_of held.new ≡ width_of held.old }
    ensures held_index { held.new.room ≡ held.old.room }
    ensures last_width { width_of last.new ≡ width_of last.old }
    ensures last_index { last.new.room ≡ last.old.room }
{
    for slot in 0..slots.len() {
        let Some(lock) = lock_at(slots, slot) else {
            return;
        };
        file_owner(last, links, slot, &lock, &slots[..slot]);
        held.put(key_of(lock.mon), slot);
    }
}

impl Locks {
    /// No lock, and room for none.
    pub fn new(alloc: Global) -> Locks
        ensures tied { IsTied result }
        ensures locks { result.slots.items ≡ [] }
        ensures room { result.room ≡ 0 }
    {
        Locks {
            slots: Vec::new(alloc),
            links: Vec::new(alloc),
            held: Index::new(alloc),
            last: Index::new(alloc),
            room: 0,
        }
    }

    /// The same locks, in memory of their own.
    pub fn again(&self) -> Result<Locks, NoMemory>
        requires tied { IsTied self.now }
        ensures tied { IfOk result IsTied }
        ensures slots { IfOk result (λ copy. copy.slots.items ≡ self.now.slots.items) }
        ensures room { IfOk result (λ copy. copy.room ≡ self.now.room) }
    {
        Ok(Locks {
            slots: cloned_exactly(&self.slots)?,
            links: cloned_exactly(&self.links)?,
            held: self.held.again()?,
            last: self.last.again()?,
            room: self.room,
        })
    }

    /// The lock of the monitor, if it is held.
    pub fn lock_of(&self, mon: Mid) -> Option<Lock>
        requires tied { IsTied self.now }
        requires once { (m : ℕ) → locks_on (living self.now.slots.items) m ≤ 1 }
        ensures { result ≡ lock_of (living self.now.slots.items) mon }
    {
        let slot = self.held.place_of(key_of(mon))?;
        lock_at(&self.slots, slot)
    }

    /// How often the monitor's owner has entered it, and 0 where it is free.
    pub fn depth_of(&self, mon: Mid) -> u32
        requires tied { IsTied self.now }
        requires once { (m : ℕ) → locks_on (living self.now.slots.items) m ≤ 1 }
        ensures { result ≡ depth_in (living self.now.slots.items) mon }
    {
        self.lock_of(mon).map_or(0, |lock| lock.depth)
    }

    /// Of the thread's locks the one that it acquired last.
    pub fn last_lock(&self, tid: Tid) -> Option<Lock>
        requires { IsTied self.now }
        ensures { result ≡ last_lock (living self.now.slots.items) tid }
    {
        let slot = self.last.place_of(tid)?;
        lock_at(&self.slots, slot)
    }

    // The empty slots go, and the locks are found in their new ones.
    #[inline(never)]
    fn pack(&mut self)
        requires places { HasPlaces self.old }
        requires once { (m : ℕ) → locks_on (living self.old.slots.items) m ≤ 1 }
        requires few { length (living self.old.slots.items) ≤ self.old.room }
        ensures tied { IsTied self.new }
        ensures locks { living self.new.slots.items ≡ living self.old.slots.items }
        ensures closed { length self.new.slots.items ≡ length (living self.old.slots.items) }
        ensures room { self.new.room ≡ self.old.room }
    {
        close_up(&mut self.slots);
        self.links.clear();
        self.held.clear();
        self.last.clear();
        refile(&self.slots, &mut self.links, &mut self.held, &mut self.last);
    }

    /// Makes room for so many locks.
    pub fn reserve(&mut self, room: usize) -> Result<(), NoMemory>
        requires tied { IsTied self.old }
        requires once { (m : ℕ) → locks_on (living self.old.slots.items) m ≤ 1 }
        requires few { length (living self.old.slots.items) ≤ self.old.room }
        requires most { room ≤ 256 }
        ensures tied { IsTied self.new }
        ensures locks { living self.new.slots.items ≡ living self.old.slots.items }
        ensures more { self.old.room ≤ self.new.room }
        ensures ok { OnOk result (room ≤ self.new.room) }
    {
        if room <= self.room {
            return Ok(());
        }
        // Twice as many, so that they are seldom made anew; and a power of two, so that an index uses all of its cells.
        let room = room.max(self.room + self.room);
        self.slots.reserve(room + room - self.slots.len())?;
        self.links.reserve(room + room - self.links.len())?;
        let held = Index::with_cells(*self.slots.allocator(), room)?;
        let last = Index::with_cells(*self.slots.allocator(), room + room)?;
        self.held = held;
        self.last = last;
        self.room = room;
        self.pack();
        Ok(())
    }

    // Makes a slot for one lock more: where there is none left, the empty slots go.
    #[inline(always)]
    fn make_slot(&mut self)
        requires tied { IsTied self.old }
        requires once { (m : ℕ) → locks_on (living self.old.slots.items) m ≤ 1 }
        requires few { length (living self.old.slots.items) < self.old.room }
        ensures tied { IsTied self.new }
        ensures locks { living self.new.slots.items ≡ living self.old.slots.items }
        ensures slot { length self.new.slots.items < self.new.room + self.new.room }
        ensures room { self.new.room ≡ self.old.room }
    {
        if self.slots.len() / 2 >= self.room {
            self.pack();
        }
    }

    /// A free monitor is held.
    pub fn acquire(&mut self, lock: &Lock)
        requires tied { IsTied self.old }
        requires once { (m : ℕ) → locks_on (living self.old.slots.items) m ≤ 1 }
        requires free { locks_on (living self.old.slots.items) lock.now.mon ≡ 0 }
        requires few { length (living self.old.slots.items) < self.old.room }
        ensures tied { IsTied self.new }
        ensures locks { living self.new.slots.items
            ≡ living self.old.slots.items ++ lock.now ∷ [] }
        ensures room { self.new.room ≡ self.old.room }
    {
        self.make_slot();
        let slot = self.slots.len();
        file_owner(&mut self.last, &mut self.links, slot, lock, &self.slots);
        self.held.put(key_of(lock.mon), slot);
        self.slots.push_reserved(Some(*lock));
    }

    /// The monitor is held at this depth.
    pub fn set_depth(&mut self, mon: Mid, depth: u32)
        requires tied { IsTied self.old }
        requires once { (m : ℕ) → locks_on (living self.old.slots.items) m ≤ 1 }
        ensures tied { IsTied self.new }
        ensures locks { living self.new.slots.items
            ≡ with_depth mon depth (living self.old.slots.items) }
        ensures room { self.new.room ≡ self.old.room }
    {
        if let Some(slot) = self.held.place_of(key_of(mon)) {
            deepen(&mut self.slots, slot, depth);
        }
    }

    /// Nobody holds the monitor.
    pub fn free(&mut self, mon: Mid)
        requires tied { IsTied self.old }
        requires once { (m : ℕ) → locks_on (living self.old.slots.items) m ≤ 1 }
        ensures tied { IsTied self.new }
        ensures locks { living self.new.slots.items
            ≡ without_lock mon (living self.old.slots.items) }
        ensures room { self.new.room ≡ self.old.room }
    {
        let Some(slot) = self.held.place_of(key_of(mon)) else {
            return;
        };
        let Some(lock) = lock_at(&self.slots, slot) else {
            return;
        };
        self.held.take(key_of(mon));
        if slot + 1 == self.slots.len() {
            cut(
                &mut self.slots,
                &mut self.links,
                &mut self.last,
                slot,
                lock.owner,
            );
        } else {
            empty(
                &mut self.slots,
                &self.links,
                &mut self.last,
                slot,
                lock.owner,
            );
        }
    }
}
