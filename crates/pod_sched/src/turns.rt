// Who is known, and whose turn it is: the scheduler but for its clock.
ghost use Rattle.std.specs.Prelude.{[], ◌≡◌, ◌+◌, ◌<◌, ◌≤◌, ◌==◌, Some, false, length, true, IsTrue, IsOk, IfOk, IfSome, OnOk, OnErr};
ghost use Rattle.lwp_types.specs.First.{FindsBest};
ghost use Rattle.pod_sched.specs.Schedule.{IsOrdered, after_admit, after_block, after_leave, after_reserve, after_resume, after_set_priority, after_suspend, after_unblock, after_yield, choice, empty_schedule, first_of, is_blocked_in, is_eligible, is_eligible_in, knows, prio_in, priority_in, thread_of, with_maxpri};

use crate::Known;
use crate::bucket::{self, Bucket};
use crate::buckets::{Buckets, Looks, Steps, first_of_last};
use crate::filing::{FEWEST_CELLS, widen};
use crate::rows::{LEVELS, extend_rows, free_slots, may_run, put_row, row_at, tids};
use lists::{Chains, Index, cloned};
use lwp_types::{IdList, NoMemory, Tid};
use std::alloc::Global;
use std::marker::{Brand, Model};
use std::sync::ledger::{Blank, Ledger};

/// Who is known, and who may run after whom. It is seen as a schedule in which nobody has a timer.
pub struct Turns {
    // Each known thread has a slot. The list 0 is of their slots, the thread that was admitted first at its head, and the
    // list 1 of those that are free.
    slots: Chains,
    // The slots of those that may run.
    order: Buckets,
    // The row of each slot.
    rows: Vec<Known>,
    // The slot of each known thread.
    index: Index,
    maxpri: u32,
    // There is memory for so many.
    places: usize,
}

// PROVER: written by hand, so that a function that drops one calls this instead of repeating its proof.
impl Drop for Turns {
    fn drop(self) {
        let Turns {
            slots: _,
            order: _,
            rows: _,
            index: _,
            maxpri: _,
            places: _,
        } = self;
    }
}

impl Model for Turns {
    ghost use Rattle.std.specs.Prelude.{length};
    ghost use Rattle.lists.specs.ThreadIndex.{count_of, place_of, width_of};
    ghost use Rattle.pod_sched.specs.Held.{IsHeld, schedule_of};
    ghost use Rattle.pod_sched.specs.Schedule.{Schedule};

    ghost Value = { Schedule };

    ghost view = { λ s. schedule_of s.slots s.order s.rows.items s.maxpri s.places };

    ghost invariant = { λ s. IsHeld s.slots s.order s.rows.items
        (place_of s.index) (count_of s.index) s.index.room (width_of s.index) s.maxpri s.places };
}

impl Turns {
    ghost use Rattle.pod_sched.specs.Held.{after_requeue, back_with, out_with};

    /// A scheduler that knows nobody yet, with priorities from 1 to `maxpri`.
    pub fn new(alloc: Global, maxpri: u32) -> Result<Turns, NoMemory>
        requires least { 1 ≤ maxpri }
        requires most { maxpri ≤ 255 }
        ensures { IfOk result (λ s. s ≡ empty_schedule maxpri) }
    {
        Ok(Turns {
            slots: Chains::new(alloc, LEVELS)?,
            order: Buckets::new(alloc, LEVELS)?,
            rows: Vec::new(alloc),
            index: Index::with_width(alloc, FEWEST_CELLS)?,
            maxpri,
            places: 0,
        })
    }

    /// The same threads, in memory of their own.
    pub fn again(&self) -> Result<Turns, NoMemory>
        ensures { IfOk result (λ copy. copy ≡ self.now) }
    {
        Ok(Turns {
            slots: self.slots.again()?,
            order: self.order.again()?,
            rows: cloned(&self.rows)?,
            index: self.index.again()?,
            maxpri: self.maxpri,
            places: self.places,
        })
    }

    /// Makes places for `n` threads in all; what is done to so many then takes no memory.
    pub fn reserve(&mut self, n: usize) -> Result<(), NoMemory>
        ensures ok { OnOk result (self.new ≡ after_reserve self.old n) }
        ensures err { OnErr result (self.new ≡ self.old) }
        ensures has_room { n ≤ self.old.places → IsOk result }
    {
        if n <= self.places {
            return Ok(());
        }
        if n > usize::MAX - LEVELS {
            return Err(NoMemory);
        }
        self.slots.reserve(LEVELS + n)?;
        self.order.reserve(n)?;
        extend_rows(&mut self.rows, n)?;
        widen(&self.slots, &self.rows, &mut self.index, n)?;
        free_slots(&mut self.slots, LEVELS + self.places, LEVELS + n);
        self.places = n;
        Ok(())
    }

    /// Knows one thread more, which isn't blocked. It goes last, unless it begins suspended.
    pub fn admit(&mut self, tid: Tid, prio: u32, suspended: bool)
        requires new { knows self.old tid ≡ false }
        requires room { length self.old.threads < self.old.places }
        requires least { 1 ≤ prio }
        requires most { prio ≤ self.old.maxpri }
        ensures { self.new ≡ after_admit self.old tid prio suspended }
    {
        // As many slots are free as threads can still be known.
        let Some(slot) = self.slots.first(1) else {
            unreachable!()
        };
        self.slots.move_to_back(0, slot);
        put_row(
            &mut self.rows,
            slot,
            Known {
                tid,
                prio,
                suspended,
                blocked: false,
            },
        );
        self.index.put(tid, slot);
        if !suspended {
            self.order.put_last(slot, prio);
        }
    }

    /// Forgets a thread, and with it its place in the run queue.
    pub fn leave(&mut self, tid: Tid)
        requires { IsTrue (knows self.old tid) }
        ensures { self.new ≡ after_leave self.old tid }
    {
        let slot = self.index.known_place(tid);
        self.index.take(tid);
        self.slots.move_to_back(1, slot);
        self.order.take(slot);
    }

    /// The thread begins to wait for something.
    pub fn block(&mut self, tid: Tid)
        requires { IsTrue (knows self.old tid) }
        ensures { self.new ≡ after_block self.old tid }
    {
        let slot = self.index.known_place(tid);
        let row = row_at(&self.rows, slot);
        let now = Known {
            blocked: true,
            ..row
        };
        put_row(&mut self.rows, slot, now);
        self.order.take(slot);
    }

    /// The thread has what it waited for. It goes last, unless it is suspended.
    pub fn unblock(&mut self, tid: Tid)
        requires { IsTrue (is_blocked_in self.old tid) }
        ensures { self.new ≡ after_unblock self.old tid }
    {
        let slot = self.index.known_place(tid);
        let row = row_at(&self.rows, slot);
        let now = Known {
            blocked: false,
            ..row
        };
        put_row(&mut self.rows, slot, now);
        if row.suspended {
            self.order.take(slot);
        } else {
            self.order.put_last(slot, row.prio);
        }
    }

    /// The thread may not run until it is resumed, whether or not it is blocked.
    pub fn suspend(&mut self, tid: Tid)
        requires { IsTrue (knows self.old tid) }
        ensures { self.new ≡ after_suspend self.old tid }
    {
        let row = self.row(tid);
        self.put_out(
            tid,
            Known {
                suspended: true,
                ..row
            },
        );
    }

    /// Ends a suspension. The thread goes last, unless it is blocked; one that isn't suspended keeps its place.
    pub fn resume(&mut self, tid: Tid)
        requires { IsTrue (knows self.old tid) }
        ensures { self.new ≡ after_resume self.old tid }
    {
        let row = self.row(tid);
        let now = Known {
            suspended: false,
            ..row
        };
        if row.blocked {
            self.put_out(tid, now);
        } else if row.suspended {
            self.put_back(tid, now);
        }
    }

    /// Gives a thread a priority, and answers the one that it had. Where the two differ and it may run, it goes last.
    pub fn set_prio(&mut self, tid: Tid, prio: u32) -> u32
        requires known { IsTrue (knows self.old tid) }
        requires least { 1 ≤ prio }
        requires most { prio ≤ self.old.maxpri }
        ensures before { result ≡ priority_in self.old tid }
        ensures after { self.new ≡ after_set_priority self.old tid prio }
    {
        let row = self.row(tid);
        let now = Known { prio, ..row };
        let runs = may_run(&row);
        if !runs {
            self.put_out(tid, now);
        } else if row.prio != prio {
            self.put_back(tid, now);
        }
        row.prio
    }

    /// `from` lets `to` run right before it, or goes last where the two are one.
    pub fn yield_to(&mut self, from: Tid, to: Tid)
        requires from_may_run { IsTrue (is_eligible_in self.old from) }
        requires to_may_run { IsTrue (is_eligible_in self.old to) }
        requires same_prio { priority_in self.old from ≡ priority_in self.old to }
        ensures { self.new ≡ after_yield self.old from to }
    {
        if from == to {
            self.requeue(from);
        } else {
            let slot = self.index.known_place(from);
            let other = self.index.known_place(to);
            self.order.put_before(other, slot);
        }
    }

    /// Raises the greatest priority.
    pub fn set_maxpri(&mut self, maxpri: u32)
        requires least { self.old.maxpri ≤ maxpri }
        requires most { maxpri ≤ 255 }
        ensures { self.new ≡ with_maxpri self.old maxpri }
    {
        self.maxpri = maxpri;
    }

    /// The thread that runs next. It stays in the run queue.
    pub fn current(&self) -> Option<Tid>
        ensures value { result ≡ choice self.now }
        ensures first_best { FindsBest (prio_in self.now.threads) self.now.order result }
        ensures ordered { IsOrdered self.now.threads self.now.order }
    {
        self.counted_anew::<Brand>(Blank::new(1))
    }

    // The next thread, with its looks told in a ledger of its own.
    fn counted_anew<L: Ledger>(&self, blank: Blank) -> Option<Tid>
        requires name { blank.name ≡ L.name }
        requires parts { blank.parts ≡ L.parts }
        requires some { 0 < blank.parts }
        ensures value { result ≡ choice self.now }
        ensures first_best { FindsBest (prio_in self.now.threads) self.now.order result }
        ensures ordered { IsOrdered self.now.threads self.now.order }
    {
        let mut steps = Steps::<L>::new(blank);
        self.current_counted(&mut steps)
    }

    /// What `current` answers, with each of its looks counted: at the words that say which priorities have somebody, and at
    /// the bucket of one.
    pub fn current_counted<L: Ledger>(&self, steps: &mut Steps<L>) -> Option<Tid>
        ensures value { result ≡ choice self.now }
        ensures first_best { FindsBest (prio_in self.now.threads) self.now.order result }
        ensures ordered { IsOrdered self.now.threads self.now.order }
        ensures cost { steps.new ≤ steps.old + 5 }
        ensures cost_by_priorities { steps.new ≤ steps.old + self.now.maxpri }
    {
        first_of_last::<L, Tid, Turns>(self, self.maxpri as usize, steps)
    }

    /// The bucket of this priority.
    pub fn bucket(&self, prio: u32) -> Bucket
        ensures prio { result.prio ≡ prio }
        ensures first { result.first ≡ first_of self.now prio }
    {
        bucket::with_first(prio, self.first_of(prio))
    }

    /// Whether the thread was admitted and hasn't left.
    pub fn knows(&self, tid: Tid) -> bool
        ensures { result ≡ knows self.now tid }
    {
        self.row_of(tid).is_some()
    }

    /// How many threads it knows, each once.
    pub fn len(&self) -> usize
        ensures value { result ≡ length self.now.threads }
        ensures ordered { IsOrdered self.now.threads self.now.order }
        ensures few { length self.now.threads ≤ self.now.places }
    {
        self.index.len()
    }

    /// The greatest priority that a thread may be given.
    pub fn maxpri(&self) -> u32
        ensures { result ≡ self.now.maxpri }
    {
        self.maxpri
    }

    /// The thread's priority.
    pub fn prio_of(&self, tid: Tid) -> u32
        requires { IsTrue (knows self.now tid) }
        ensures { result ≡ priority_in self.now tid }
    {
        self.row(tid).prio
    }

    /// Whether the thread may run; an unknown one may not.
    pub fn eligible(&self, tid: Tid) -> bool
        ensures { result ≡ is_eligible_in self.now tid }
    {
        self.row_of(tid)
            .is_some_and(|row| !row.suspended && !row.blocked)
    }

    /// Whether the thread waits for something; an unknown one doesn't.
    pub fn blocked(&self, tid: Tid) -> bool
        ensures { result ≡ is_blocked_in self.now tid }
    {
        self.row_of(tid).is_some_and(|row| row.blocked)
    }

    /// Those that may run, in the order in which they would.
    pub fn order(&self) -> Result<IdList, NoMemory>
        ensures { IfOk result (λ ids. ids ≡ self.now.order) }
    {
        tids(*self.rows.allocator(), &self.order, &self.rows)
    }

    /// What is known of the thread, if it is known.
    pub fn row_of(&self, tid: Tid) -> Option<Known>
        ensures { result ≡ thread_of self.now tid }
    {
        let slot = self.index.place_of(tid)?;
        Some(row_at(&self.rows, slot))
    }

    // A known thread's row.
    fn row(&self, tid: Tid) -> Known
        requires { IsTrue (knows self.now tid) }
        ensures value { thread_of self.now tid ≡ Some result }
        ensures same { result.tid ≡ tid }
        ensures least { 1 ≤ result.prio }
        ensures most { result.prio ≤ self.now.maxpri }
        ensures ordered { IsOrdered self.now.threads self.now.order }
        ensures bare { self.now.timers ≡ [] }
    {
        let slot = self.index.known_place(tid);
        row_at(&self.rows, slot)
    }

    /// The first of this priority. Each thread in the run queue may run.
    pub fn first_of(&self, prio: u32) -> Option<Tid>
        ensures value { result ≡ first_of self.now prio }
        ensures runs { IfSome result (λ t. IsTrue (is_eligible_in self.now t)) }
    {
        let order = &self.order;
        if prio as usize >= LEVELS {
            return None;
        }
        let slot = order.first_in(prio as usize)?;
        Some(row_at(&self.rows, slot).tid)
    }

    // A thread that may not run has this row from now on.
    fn put_out(&mut self, tid: Tid, row: Known)
        requires known { IsTrue (knows self.old tid) }
        requires same { row.tid ≡ tid }
        requires least { 1 ≤ row.prio }
        requires most { row.prio ≤ self.old.maxpri }
        requires out { is_eligible row ≡ false }
        ensures { self.new ≡ out_with self.old tid row }
    {
        let slot = self.index.known_place(tid);
        put_row(&mut self.rows, slot, row);
        self.order.take(slot);
    }

    /// A thread that may run goes last, with the row that it has.
    pub fn requeue(&mut self, tid: Tid)
        requires { IsTrue (is_eligible_in self.old tid) }
        ensures { self.new ≡ after_requeue self.old tid }
    {
        let slot = self.index.known_place(tid);
        let prio = row_at(&self.rows, slot).prio;
        self.order.put_last(slot, prio);
    }

    // A thread that may run has this row from now on, and goes last.
    fn put_back(&mut self, tid: Tid, row: Known)
        requires known { IsTrue (knows self.old tid) }
        requires same { row.tid ≡ tid }
        requires least { 1 ≤ row.prio }
        requires most { row.prio ≤ self.old.maxpri }
        requires in_order { is_eligible row ≡ true }
        ensures { self.new ≡ back_with self.old tid row }
    {
        let slot = self.index.known_place(tid);
        let prio = row.prio;
        put_row(&mut self.rows, slot, row);
        self.order.put_last(slot, prio);
    }
}

impl<L: Ledger> Looks<L, Tid> for Turns {
    ghost firsts = { first_of };

    fn word(&self, at: usize, steps: &mut Steps<L>) -> u64 {
        Looks::<L, usize>::word(&self.order, at, steps)
    }

    fn first(&self, list: usize, steps: &mut Steps<L>) -> Option<Tid> {
        self.bucket(list as u32).first(steps)
    }
}
