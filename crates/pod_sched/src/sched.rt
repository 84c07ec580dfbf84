// The scheduler.
ghost use Rattle.std.specs.Prelude.{◌≡◌, ◌+◌, ◌<◌, ◌≤◌, Some, false, length, option_map, IsTrue, IsOk, IfOk, OnOk, OnErr};
ghost use Rattle.std.specs.List.{find};
ghost use Rattle.lwp_types.specs.First.{FindsBest};
ghost use Rattle.pod_sched.specs.Schedule.{IsOrdered, after_admit, after_block, after_leave, after_pass, after_pop, after_resched, after_reserve, after_resume, after_set_priority, after_set_timer, after_suspend, after_tick, after_unblock, after_yield, choice, empty_schedule, first_due, first_of, has_timer, is_blocked_in, is_eligible_in, is_of, knows, next_due, prio_in, priority_in, with_maxpri};

use crate::buckets::Steps;
use crate::timers::Timers;
use crate::turns::Turns;
use crate::{Bucket, Known};
use lwp_types::{IdList, NoMemory, Sequence, Tid, TimerRow};
use std::alloc::Global;
use std::marker::Model;
use std::sync::ledger::Ledger;

/// Who is known, who may run after whom, and who waits for the clock until when.
pub struct Sched {
    turns: Turns,
    timers: Timers,
}

// PROVER: written by hand, so that a function that drops one calls this instead of repeating its proof.
impl Drop for Sched {
    fn drop(self) {
        let Sched {
            turns: _,
            timers: _,
        } = self;
    }
}

impl Model for Sched {
    ghost use Rattle.pod_sched.specs.Clock.{IsTimed, with_clock};
    ghost use Rattle.pod_sched.specs.Schedule.{Schedule};

    ghost Value = { Schedule };

    ghost view = { λ s. with_clock s.timers s.turns };

    ghost invariant = { λ s. IsTimed s.turns.threads s.timers s.turns.places };
}

impl Sched {
    /// A scheduler that knows nobody yet, with priorities from 1 to `maxpri`.
    pub fn new(alloc: Global, maxpri: u32) -> Result<Sched, NoMemory>
        requires least { 1 ≤ maxpri }
        requires most { maxpri ≤ 255 }
        ensures { IfOk result (λ s. s ≡ empty_schedule maxpri) }
    {
        Ok(Sched {
            turns: Turns::new(alloc, maxpri)?,
            timers: Timers::new(alloc),
        })
    }

    /// The same scheduler, in memory of its own.
    pub fn again(&self) -> Result<Sched, NoMemory>
        ensures { IfOk result (λ copy. copy ≡ self.entry.now) }
    {
        Ok(Sched {
            turns: self.turns.again()?,
            timers: self.timers.again()?,
        })
    }

    /// Makes places for `n` threads in all; what is done to so many then takes no memory.
    pub fn reserve(&mut self, n: usize) -> Result<(), NoMemory>
        ensures ok { OnOk result (self.new ≡ after_reserve self.old n) }
        ensures err { OnErr result (self.new ≡ self.old) }
        ensures has_room { n ≤ self.old.places → IsOk result }
    {
        self.timers.reserve(n)?;
        self.turns.reserve(n)
    }

    /// Forgets a thread, and with it its place in the run queue and its timer.
    pub fn leave(&mut self, tid: Tid)
        requires { IsTrue (knows self.old tid) }
        ensures { self.new ≡ after_leave self.old tid }
    {
        let Sched { timers, turns } = self;
        timers.drop_of(tid);
        turns.leave(tid);
    }

    /// The thread has what it waited for, or waits no longer: its timer goes. It goes last, unless it is suspended.
    pub fn unblock(&mut self, tid: Tid)
        requires { IsTrue (is_blocked_in self.old tid) }
        ensures { self.new ≡ after_unblock self.old tid }
    {
        self.timers.drop_of(tid);
        self.turns.unblock(tid);
    }

    /// How often the clock has ticked.
    pub fn now(&self) -> u64
        ensures value { result ≡ self.entry.now.now }
        ensures most { result ≤ 4294967295 }
    {
        self.timers.now()
    }

    /// The clock ticks.
    pub fn tick(&mut self)
        requires { self.old.now < 4294967295 }
        ensures { self.new ≡ after_tick self.old }
    {
        self.timers.tick();
    }

    /// The clock ticks so many times. Whose timers that makes due is for `pop_due` to tell.
    pub fn pass(&mut self, ticks: u64)
        requires { self.old.now + ticks ≤ 4294967295 }
        ensures { self.new ≡ after_pass self.old ticks }
    {
        self.timers.pass(ticks);
    }

    /// The tick at which the first timer falls due, or the greatest u64 where there is no timer. One look.
    pub fn next_due(&self) -> u64
        ensures { result ≡ next_due self.now.timers }
    {
        self.timers.next_due()
    }

    /// A thread that waits is to wait no longer than until this tick.
    pub fn set_timer(&mut self, tid: Tid, due: u64)
        requires waits { IsTrue (is_blocked_in self.old tid) }
        requires new { has_timer self.old tid ≡ false }
        requires later { self.old.now < due }
        ensures { self.new ≡ after_set_timer self.old tid due }
    {
        // PROVER: this call shows that there are no more threads than places.
        let _known = self.turns.len();
        self.timers.set(tid, due);
    }

    /// The first timer whose tick has come goes; the answer is whose it was. Called until None, it leaves none that is due.
    pub fn pop_due(&mut self) -> Option<Tid>
        ensures value { result
            ≡ option_map (λ row. row.tid) (first_due self.old.timers self.old.now) }
        ensures after { self.new ≡ after_pop self.old }
    {
        self.timers.pop()
    }

    /// Knows one thread more, which isn't blocked. It goes last, unless it begins suspended.
    pub fn admit(&mut self, tid: Tid, prio: u32, suspended: bool)
        requires new { knows self.old tid ≡ false }
        requires room { length self.old.threads < self.old.places }
        requires least { 1 ≤ prio }
        requires most { prio ≤ self.old.maxpri }
        ensures { self.new ≡ after_admit self.old tid prio suspended }
    {
        self.turns.admit(tid, prio, suspended);
    }

    /// The thread begins to wait for something.
    pub fn block(&mut self, tid: Tid)
        requires { IsTrue (knows self.old tid) }
        ensures { self.new ≡ after_block self.old tid }
    {
        self.turns.block(tid);
    }

    /// The thread may not run until it is resumed, whether or not it is blocked.
    pub fn suspend(&mut self, tid: Tid)
        requires { IsTrue (knows self.old tid) }
        ensures { self.new ≡ after_suspend self.old tid }
    {
        self.turns.suspend(tid);
    }

    /// Ends a suspension. The thread goes last, unless it is blocked; one that isn't suspended keeps its place.
    pub fn resume(&mut self, tid: Tid)
        requires { IsTrue (knows self.old tid) }
        ensures { self.new ≡ after_resume self.old tid }
    {
        self.turns.resume(tid);
    }

    /// Gives a thread a priority, and answers the one that it had. Where the two differ and it may run, it goes last.
    pub fn set_prio(&mut self, tid: Tid, prio: u32) -> u32
        requires known { IsTrue (knows self.old tid) }
        requires least { 1 ≤ prio }
        requires most { prio ≤ self.old.maxpri }
        ensures before { result ≡ priority_in self.old tid }
        ensures after { self.new ≡ after_set_priority self.old tid prio }
    {
        self.turns.set_prio(tid, prio)
    }

    /// `from` lets `to` run right before it, or goes last where the two are one.
    pub fn yield_to(&mut self, from: Tid, to: Tid)
        requires from_may_run { IsTrue (is_eligible_in self.old from) }
        requires to_may_run { IsTrue (is_eligible_in self.old to) }
        requires same_prio { priority_in self.old from ≡ priority_in self.old to }
        ensures { self.new ≡ after_yield self.old from to }
    {
        self.turns.yield_to(from, to);
    }

    /// The first of this priority goes last. Where there is none, nothing happens.
    pub fn resched(&mut self, prio: u32)
        ensures { self.new ≡ after_resched self.old prio }
    {
        if let Some(tid) = self.turns.first_of(prio) {
            self.turns.requeue(tid);
        }
    }

    /// Raises the greatest priority.
    pub fn set_maxpri(&mut self, maxpri: u32)
        requires least { self.old.maxpri ≤ maxpri }
        requires most { maxpri ≤ 255 }
        ensures { self.new ≡ with_maxpri self.old maxpri }
    {
        self.turns.set_maxpri(maxpri);
    }

    /// The thread that runs next. It stays in the run queue.
    pub fn current(&self) -> Option<Tid>
        ensures value { result ≡ choice self.now }
        ensures first_best { FindsBest (prio_in self.now.threads) self.now.order result }
        ensures ordered { IsOrdered self.now.threads self.now.order }
    {
        self.turns.current()
    }

    /// What `current` answers, with its steps counted. A step is a look at one of the four words that say of 64 priorities each
    /// whether they have somebody, or at the bucket of one priority. There are at most five, and at most as many as there
    /// are priorities, however many threads there are. `current` takes the same steps.
    pub fn current_counted<L: Ledger>(&self, steps: &mut Steps<L>) -> Option<Tid>
        ensures value { result ≡ choice self.now }
        ensures cost { steps.new ≤ steps.old + 5 }
        ensures cost_by_priorities { steps.new ≤ steps.old + self.now.maxpri }
    {
        self.turns.current_counted(steps)
    }

    /// The bucket of this priority.
    pub fn bucket(&self, prio: u32) -> Bucket
        ensures prio { result.prio ≡ prio }
        ensures first { result.first ≡ first_of self.now prio }
    {
        self.turns.bucket(prio)
    }

    /// Whether the thread was admitted and hasn't left.
    pub fn knows(&self, tid: Tid) -> bool
        ensures { result ≡ knows self.now tid }
    {
        self.turns.knows(tid)
    }

    /// How many threads it knows, each once.
    pub fn len(&self) -> usize
        ensures value { result ≡ length self.now.threads }
        ensures ordered { IsOrdered self.now.threads self.now.order }
    {
        self.turns.len()
    }

    /// The greatest priority that a thread may be given.
    pub fn maxpri(&self) -> u32
        ensures { result ≡ self.now.maxpri }
    {
        self.turns.maxpri()
    }

    /// The thread's priority.
    pub fn prio_of(&self, tid: Tid) -> u32
        requires { IsTrue (knows self.now tid) }
        ensures { result ≡ priority_in self.now tid }
    {
        self.turns.prio_of(tid)
    }

    /// Whether the thread may run; an unknown one may not.
    pub fn eligible(&self, tid: Tid) -> bool
        ensures { result ≡ is_eligible_in self.now tid }
    {
        self.turns.eligible(tid)
    }

    /// Whether the thread waits for something; an unknown one doesn't.
    pub fn blocked(&self, tid: Tid) -> bool
        ensures { result ≡ is_blocked_in self.now tid }
    {
        self.turns.blocked(tid)
    }

    /// Those that may run, in the order in which they would: a copy.
    pub fn order(&self) -> Result<IdList, NoMemory>
        ensures { IfOk result (λ ids. ids ≡ self.now.order) }
    {
        self.turns.order()
    }

    /// A copy of the timers, in the order in which they were set.
    pub fn timers(&self) -> Result<Sequence<TimerRow>, NoMemory>
        ensures { IfOk result (λ rows. rows ≡ self.now.timers) }
    {
        self.timers.rows()
    }

    /// What is known of the thread, found at one look; None where it is unknown.
    pub fn known_of(&self, tid: Tid) -> Option<Known>
        ensures { result ≡ find (is_of tid) self.now.threads }
    {
        self.turns.row_of(tid)
    }
}
