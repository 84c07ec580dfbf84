// The clock, and the threads that wait for it.
ghost use Rattle.std.specs.Prelude.{◌≡◌, ◌<◌, ◌≤◌, ◌+◌, false, length, option_map, IfOk, IsOk, OnOk, OnErr};
ghost use Rattle.pod_sched.specs.Timers.Clock.{after_drop, after_pass, after_pop, after_reserve, after_set, after_tick, first_clock, first_due, has_timer, next_due};

use crate::timers::shelf::Shelf;
use lwp_types::{NoMemory, Sequence, Tid, TimerRow};
use std::alloc::Global;
use std::marker::Model;

/// How often the clock has ticked, and the timers in the order in which they were set, one of a thread.
pub struct Timers {
    shelf: Shelf,
    now: u64,
    // How many timers there may be with no more memory.
    places: usize,
}

// PROVER: written by hand, so that a function that drops one calls this instead of repeating its proof.
impl Drop for Timers {
    fn drop(self) {
        let Timers {
            shelf: _,
            now: _,
            places: _,
        } = self;
    }
}

impl Model for Timers {
    ghost use Rattle.std.specs.Prelude.{◌*◌, ◌≤◌};
    ghost use Rattle.pod_sched.specs.Timers.Clock.{Clock};
    ghost use Rattle.lists.specs.Living.{living};

    ghost Value = { Clock };

    ghost view = { λ c. record { timers = living c.shelf.leaves; now = c.now; places = c.places } };

    ghost invariant = { λ c. (2 * c.places ≤ c.shelf.width) × (c.now ≤ 4294967295) };
}

// So many places there may be.
const MOST_PLACES: usize = 1 << 60;

impl Timers {
    /// No timers, and no places.
    pub fn new(alloc: Global) -> Timers
        ensures { result ≡ first_clock }
    {
        Timers {
            shelf: Shelf::new(alloc),
            now: 0,
            places: 0,
        }
    }

    /// The same clock, with timers in memory of their own.
    pub fn again(&self) -> Result<Timers, NoMemory>
        ensures { IfOk result (λ copy. copy ≡ self.entry.now) }
    {
        Ok(Timers {
            shelf: self.shelf.again()?,
            now: self.now,
            places: self.places,
        })
    }

    /// Makes places for `n` timers in all; so many can then be set with no more memory.
    pub fn reserve(&mut self, n: usize) -> Result<(), NoMemory>
        ensures ok { OnOk result (self.new ≡ after_reserve self.old n) }
        ensures err { OnErr result (self.new ≡ self.old) }
        ensures has_room { n ≤ self.old.places → IsOk result }
    {
        if n <= self.places {
            return Ok(());
        }
        if n > MOST_PLACES {
            return Err(NoMemory);
        }
        // Twice the places, so that the leaves are moved together once in as many settings as there are places.
        let leaves = 2 * n;
        if leaves > self.shelf.width() {
            self.shelf.widen(leaves)?;
        }
        self.places = n;
        Ok(())
    }

    /// How often the clock has ticked.
    pub fn now(&self) -> u64
        ensures value { result ≡ self.entry.now.now }
        ensures most { result ≤ 4294967295 }
    {
        self.now
    }

    /// The clock ticks.
    pub fn tick(&mut self)
        requires { self.old.now < 4294967295 }
        ensures { self.new ≡ after_tick self.old }
    {
        self.now += 1;
    }

    /// The clock ticks so many times.
    pub fn pass(&mut self, ticks: u64)
        requires { self.old.now + ticks ≤ 4294967295 }
        ensures { self.new ≡ after_pass self.old ticks }
    {
        self.now += ticks;
    }

    /// The tick at which the first timer falls due, or the greatest u64 where there is no timer. One look.
    pub fn next_due(&self) -> u64
        ensures { result ≡ next_due self.entry.now.timers }
    {
        self.shelf.next_due()
    }

    /// One timer more, the last.
    pub fn set(&mut self, tid: Tid, due: u64)
        requires new { has_timer self.old tid ≡ false }
        requires room { length self.old.timers < self.old.places }
        ensures { self.new ≡ after_set self.old tid due }
    {
        self.shelf.make_room();
        self.shelf.add(tid, due);
    }

    /// The thread's timer goes. Where there is none, nothing happens.
    pub fn drop_of(&mut self, tid: Tid)
        ensures { self.new ≡ after_drop self.old tid }
    {
        if let Some(leaf) = self.shelf.leaf_of(tid) {
            self.shelf.take(leaf);
        }
    }

    /// The first timer whose tick has come goes; the answer is whose it was.
    pub fn pop(&mut self) -> Option<Tid>
        ensures value { result
            ≡ option_map (λ row. row.tid) (first_due self.old.timers self.old.now) }
        ensures after { self.new ≡ after_pop self.old }
    {
        let leaf = self.shelf.first_due(self.now)?;
        let row = self.shelf.take(leaf)?;
        Some(row.tid)
    }

    /// A copy of the timers, in the order in which they were set.
    pub fn rows(&self) -> Result<Sequence<TimerRow>, NoMemory>
        ensures { IfOk result (λ rows. rows ≡ self.entry.now.timers) }
    {
        self.shelf.rows()
    }
}
