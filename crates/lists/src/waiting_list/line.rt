// The line of those that wait.
ghost use Rattle.std.specs.Prelude.{◌≡◌, ◌<◌, ◌≤◌, false, length, map, IsOk, IfOk, OnOk, OnErr};
ghost use Rattle.std.specs.List.{list_any};
ghost use Rattle.lists.specs.WaitingList.Line.{after_join, after_leave, after_reserve, after_set_priority, best_for, empty_line, first_for, thread_waiting_for, has_thread, is_for, waiting_for};

use crate::Index;
use crate::copies::cloned_queue;
use crate::waiting_list::Waiting;
use crate::waiting_list::filing::{dismiss, file_next, next_arrival, prioritize, widen};
use crate::waiting_list::keys::Key;
use crate::waiting_list::rows::{
    Entry, best_place, copied, entry_of, first_place, place_of_thread, tids_for, waiting_of,
};
use lwp_types::{IdList, NoMemory, Sequence, Tid};
use std::alloc::Global;
use std::collections::VecDeque;
use std::marker::Model;

/// Threads that wait, each for one thing.
pub struct WaitingList {
    // In the order of their arrival.
    entries: VecDeque<Entry>,
    // The key of each by what it waits for, its priority and its arrival, and by what it waits for and its arrival
    // alone, in order. So no entry is looked at that waits for something else, or comes after the first of the greatest
    // priority. As long as all wait for the same with the same priority, there are no keys: the first that came is the
    // best.
    ranks: VecDeque<Key>,
    arrived: VecDeque<Key>,
    // The arrival of each thread that waits.
    index: Index,
    // How many may wait with no more memory.
    places: usize,
}

// PROVER: written by hand, so that a function that drops one calls this instead of repeating its proof.
impl Drop for WaitingList {
    fn drop(self) {
        let WaitingList {
            entries: _,
            ranks: _,
            arrived: _,
            index: _,
            places: _,
        } = self;
    }
}

impl Model for WaitingList {
    ghost use Rattle.std.specs.Prelude.{map};
    ghost use Rattle.std.specs.VecDeque.{deque_capacity};
    ghost use Rattle.lists.specs.WaitingList.Entries.{waiting_of};
    ghost use Rattle.lists.specs.WaitingList.Kept.{IsKept};
    ghost use Rattle.lists.specs.WaitingList.Line.{Line};

    ghost Value = { Line };

    ghost view = { λ s. record { waiting = map waiting_of s.entries.items; places = s.places } };

    ghost invariant = { λ s. IsKept s.entries.items s.ranks.items s.arrived.items s.index
        (deque_capacity s.entries) (deque_capacity s.ranks) (deque_capacity s.arrived) s.places };
}

impl WaitingList {
    /// Nobody waits, and there are no places.
    pub fn new(alloc: Global) -> WaitingList
        ensures { result ≡ empty_line }
    {
        WaitingList {
            entries: VecDeque::new(alloc),
            ranks: VecDeque::new(alloc),
            arrived: VecDeque::new(alloc),
            index: Index::new(alloc),
            places: 0,
        }
    }

    /// The same threads, in memory of their own.
    pub fn again(&self) -> Result<WaitingList, NoMemory>
        ensures { IfOk result (λ copy. copy ≡ self.now) }
    {
        Ok(WaitingList {
            entries: cloned_queue(&self.entries)?,
            ranks: cloned_queue(&self.ranks)?,
            arrived: cloned_queue(&self.arrived)?,
            index: self.index.again()?,
            places: self.places,
        })
    }

    /// Makes places for `n` in all; so many may then wait with no more memory.
    pub fn reserve(&mut self, n: usize) -> Result<(), NoMemory>
        ensures ok { OnOk result (self.new ≡ after_reserve self.old n) }
        ensures err { OnErr result (self.new ≡ self.old) }
        ensures has_room { n ≤ self.old.places → IsOk result }
    {
        if n <= self.places {
            return Ok(());
        }
        self.entries.reserve(n - self.entries.len())?;
        self.ranks.reserve(n - self.ranks.len())?;
        self.arrived.reserve(n - self.arrived.len())?;
        widen(&self.entries, &mut self.index, n)?;
        self.places = n;
        Ok(())
    }

    /// A thread waits, after all others.
    pub fn join(&mut self, next: Waiting)
        requires waits_nowhere { has_thread self.old next.tid ≡ false }
        requires room { length self.old.waiting < self.old.places }
        ensures { self.new ≡ after_join self.old next }
    {
        let arrival = next_arrival(
            &mut self.entries,
            &mut self.ranks,
            &mut self.arrived,
            &mut self.index,
        );
        let entry = entry_of(arrival, &next);
        file_next(&self.entries, &mut self.ranks, &mut self.arrived, &entry);
        self.index.put(next.tid, arrival as usize);
        self.entries.push_back_reserved(entry);
    }

    /// Of those that wait for this the first of the greatest priority.
    pub fn best(&self, what: u64) -> Option<Waiting>
        ensures { result ≡ best_for self.now what }
    {
        let at = best_place(&self.entries, &self.ranks, &self.arrived, what)?;
        Some(waiting_of(&self.entries[at]))
    }

    /// Of those that wait for this the one that came first.
    pub fn first(&self, what: u64) -> Option<Waiting>
        ensures { result ≡ first_for self.now what }
    {
        let at = first_place(&self.entries, &self.ranks, &self.arrived, what)?;
        Some(waiting_of(&self.entries[at]))
    }

    /// Of those that wait for this the one of the thread.
    pub fn found(&self, what: u64, tid: Tid) -> Option<Waiting>
        ensures { result ≡ thread_waiting_for self.now what tid }
    {
        let at = place_of_thread(&self.entries, &self.index, tid)?;
        let entry = self.entries[at];
        if entry.what != what {
            return None;
        }
        Some(waiting_of(&entry))
    }

    /// Whether somebody waits for this.
    pub fn has(&self, what: u64) -> bool
        ensures { result ≡ list_any (is_for what) self.now.waiting }
    {
        best_place(&self.entries, &self.ranks, &self.arrived, what).is_some()
    }

    /// The thread waits no more, if it did.
    #[inline(always)]
    pub fn leave(&mut self, tid: Tid)
        ensures { self.new ≡ after_leave self.old tid }
    {
        let Some(at) = place_of_thread(&self.entries, &self.index, tid) else {
            return;
        };
        dismiss(
            &mut self.entries,
            &mut self.ranks,
            &mut self.arrived,
            &mut self.index,
            at,
            tid,
        );
    }

    /// Gives the thread a priority, if it waits. It keeps its place.
    #[inline(always)]
    pub fn set_prio(&mut self, tid: Tid, prio: u32)
        ensures { self.new ≡ after_set_priority self.old tid prio }
    {
        let Some(at) = place_of_thread(&self.entries, &self.index, tid) else {
            return;
        };
        prioritize(
            &mut self.entries,
            &mut self.ranks,
            &mut self.arrived,
            at,
            prio,
        );
    }

    /// The threads that wait for this, in the order of their arrival.
    pub fn tids(&self, what: u64) -> Result<IdList, NoMemory>
        ensures { IfOk result (λ ids. ids ≡ map (λ w. w.tid) (waiting_for self.now what)) }
    {
        tids_for(
            *self.entries.allocator(),
            &self.entries,
            &self.ranks,
            &self.arrived,
            what,
        )
    }

    /// A copy of all that wait, in the order of their arrival.
    pub fn rows(&self) -> Result<Sequence<Waiting>, NoMemory>
        ensures { IfOk result (λ rows. rows ≡ self.now.waiting) }
    {
        copied(*self.entries.allocator(), &self.entries)
    }
}
