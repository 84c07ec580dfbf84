// The conditions.
ghost use Rattle.std.specs.Prelude.{◌≡◌, ◌<◌, ◌≤◌, false, length, map, IsTrue, IsOk, IfOk, OnOk, OnErr};
ghost use Rattle.lwp_types.specs.First.{FindsBest};
ghost use Rattle.lwp_types.specs.Conditions.{condition_numbers};
ghost use Rattle.conditions.specs.ConditionTable.{after_create, after_destroy, after_destroy_of, after_forget, after_requeue, after_reserve, after_wait, after_wake, empty_table, first_wait, has_waits, is_live, is_waited_in, is_waiting, machine_row, monitor_of, newborn, next_notified, wait_of, waits_on};

use crate::WaitRec;
use crate::rows::{copied, list, row_of, take_out, take_out_of};
use crate::waits::{is_waited, machine_rows, rec_of};
use lists::{Waiting, WaitingList, cloned};
use lwp_types::{Cid, CondRow, IdList, Mid, NoMemory, Sequence, Tid, WaitRow};
use std::alloc::Global;
use std::marker::Model;

// How many conditions may live at once.
const MOST_LIVE: usize = 256;

/// The live conditions, and who waits on them.
pub struct Conds {
    alloc: Global,
    rows: Vec<CondRow>,
    births: u64,
    limit: u64,
    waits: WaitingList,
}

// PROVER: written by hand, so that a function that drops one calls this instead of repeating its proof.
impl Drop for Conds {
    fn drop(self) {
        let Conds {
            alloc: _,
            rows: _,
            births: _,
            limit: _,
            waits: _,
        } = self;
    }
}

impl Model for Conds {
    ghost use Rattle.std.specs.Prelude.{map};
    ghost use Rattle.conditions.specs.ConditionTable.{ConditionTable};
    ghost use Rattle.conditions.specs.Kept.{IsKept};
    ghost use Rattle.conditions.specs.Waits.{wait_in};

    ghost Value = { ConditionTable };

    ghost view = { λ s. record {
      conditions = s.rows.items;
      births = s.births;
      limit = s.limit;
      waits = map wait_in s.waits.waiting;
      places = s.waits.places;
    } };

    ghost invariant = { λ s. IsKept s.rows.items s.births };
}

impl Conds {
    /// No conditions, and births of up to so many in all.
    pub fn new(alloc: Global, births: u64) -> Conds
        ensures { result ≡ empty_table births }
    {
        Conds {
            alloc,
            rows: Vec::new(alloc),
            births: 0,
            limit: births,
            waits: WaitingList::new(alloc),
        }
    }

    /// The same conditions, in memory of their own.
    pub fn again(&self) -> Result<Conds, NoMemory>
        ensures { IfOk result (λ copy. copy ≡ self.now) }
    {
        Ok(Conds {
            alloc: self.alloc,
            rows: cloned(&self.rows)?,
            births: self.births,
            limit: self.limit,
            waits: self.waits.again()?,
        })
    }

    /// Makes places for `n` waits in all; so many may then wait with no more memory.
    pub fn reserve(&mut self, n: usize) -> Result<(), NoMemory>
        ensures ok { OnOk result (self.new ≡ after_reserve self.old n) }
        ensures err { OnErr result (self.new ≡ self.old) }
        ensures has_room { n ≤ self.old.places → IsOk result }
    {
        self.waits.reserve(n)
    }

    /// A condition of the monitor, or None where none may be born.
    pub fn create(&mut self, mon: Mid) -> Result<Option<Cid>, NoMemory>
        ensures value { IfOk result (λ made. made ≡ newborn self.old) }
        ensures ok { OnOk result (self.new ≡ after_create self.old mon) }
        ensures err { OnErr result (self.new ≡ self.old) }
    {
        let births = self.births;
        if self.rows.len() >= MOST_LIVE || births >= self.limit {
            return Ok(None);
        }
        let number = Cid { number: births };
        self.rows.push(CondRow { number, mon })?;
        self.births = births + 1;
        Ok(Some(number))
    }

    /// The monitor of the condition, or None where the condition isn't live.
    pub fn monitor_of(&self, cond: Cid) -> Option<Mid>
        ensures { result ≡ monitor_of self.now cond }
    {
        row_of(&self.rows, cond).map(|row| row.mon)
    }

    /// Whether somebody waits on the condition.
    pub fn waited(&self, cond: Cid) -> bool
        ensures { result ≡ is_waited_in self.now.waits cond }
    {
        is_waited(&self.waits, cond)
    }

    /// Whether somebody waits on a condition of the monitor.
    pub fn waited_of(&self, mon: Mid) -> bool
        ensures { result ≡ has_waits self.now mon }
    {
        let waits = &self.waits;
        self.rows
            .iter()
            .any(|row| row.mon == mon && is_waited(waits, row.number))
    }

    /// Ends a condition that nobody waits on.
    pub fn destroy(&mut self, cond: Cid)
        requires { is_waited_in self.old.waits cond ≡ false }
        ensures { self.new ≡ after_destroy self.old cond }
    {
        take_out(&mut self.rows, cond);
    }

    /// Ends all conditions of a monitor; nobody waits on any of them.
    pub fn destroy_of(&mut self, mon: Mid)
        requires { has_waits self.old mon ≡ false }
        ensures { self.new ≡ after_destroy_of self.old mon }
    {
        take_out_of(&mut self.rows, mon);
    }

    /// A thread waits, after all others, on a live condition.
    pub fn wait(&mut self, wait: WaitRec)
        requires live { IsTrue (is_live self.old wait.cond) }
        requires waits_nowhere { is_waiting self.old wait.tid ≡ false }
        requires room { length self.old.waits < self.old.places }
        ensures { self.new ≡ after_wait self.old wait }
    {
        self.waits.join(Waiting {
            what: wait.cond.number,
            tid: wait.tid,
            prio: wait.prio,
            depth: wait.depth,
        });
    }

    /// Wakes the one to notify, if anybody waits on the condition.
    pub fn notify(&mut self, cond: Cid) -> Option<WaitRec>
        ensures value { result ≡ next_notified self.old cond }
        ensures after { self.new ≡ after_wake self.old result }
        ensures first_best { FindsBest (λ w. w.prio) (waits_on self.old cond) result }
    {
        let next = self.waits.best(cond.number)?;
        self.waits.leave(next.tid);
        Some(rec_of(next))
    }

    /// Wakes the one that came first. To wake all that wait on the condition, it is called until it answers None.
    pub fn broadcast(&mut self, cond: Cid) -> Option<WaitRec>
        ensures value { result ≡ first_wait self.old cond }
        ensures after { self.new ≡ after_wake self.old result }
    {
        let next = self.waits.first(cond.number)?;
        self.waits.leave(next.tid);
        Some(rec_of(next))
    }

    /// Wakes the thread, if it waits on the condition.
    pub fn send_to(&mut self, cond: Cid, tid: Tid) -> Option<WaitRec>
        ensures value { result ≡ wait_of self.old cond tid }
        ensures after { self.new ≡ after_wake self.old result }
    {
        let next = self.waits.found(cond.number, tid)?;
        self.waits.leave(next.tid);
        Some(rec_of(next))
    }

    /// Gives the thread's wait, if it has one, a priority. The wait keeps its place.
    pub fn requeue(&mut self, tid: Tid, prio: u32)
        ensures { self.new ≡ after_requeue self.old tid prio }
    {
        self.waits.set_prio(tid, prio);
    }

    /// Forgets the thread's wait, if it has one.
    pub fn forget(&mut self, tid: Tid)
        ensures { self.new ≡ after_forget self.old tid }
    {
        self.waits.leave(tid);
    }

    /// The threads that wait on the condition, in the order of their arrival.
    pub fn waiters(&self, cond: Cid) -> Result<IdList, NoMemory>
        ensures { IfOk result (λ ids. ids ≡ map (λ w. w.tid) (waits_on self.now cond)) }
    {
        self.waits.tids(cond.number)
    }

    /// The live conditions, in birth order.
    pub fn list(&self) -> Result<IdList, NoMemory>
        ensures { IfOk result (λ ids. ids ≡ condition_numbers self.now.conditions) }
    {
        list(self.alloc, &self.rows)
    }

    /// A copy of the live conditions with their monitors, in birth order.
    pub fn conditions(&self) -> Result<Sequence<CondRow>, NoMemory>
        ensures { IfOk result (λ rows. rows ≡ self.now.conditions) }
    {
        copied(self.alloc, &self.rows)
    }

    /// A copy of all waits, in the order of their arrival.
    pub fn waits(&self) -> Result<Sequence<WaitRow>, NoMemory>
        ensures { IfOk result (λ rows. rows ≡ map machine_row self.now.waits) }
    {
        let line = self.waits.rows()?;
        machine_rows(self.alloc, line.as_slice())
    }

    /// How many conditions were ever born.
    pub fn births(&self) -> u64
        ensures { result ≡ self.now.births }
    {
        self.births
    }
}
