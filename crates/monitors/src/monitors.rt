// The monitors.
ghost use Rattle.std.specs.Prelude.{◌≡◌, ◌<◌, ◌≤◌, false, length, map, option_map, IsTrue, IsOk, IfOk, OnOk, OnErr, ℕ};
ghost use Rattle.lwp_types.specs.First.{FindsBest};
ghost use Rattle.lwp_types.specs.Monitors.{depth_in, is_owned_by_other, is_owner};
ghost use Rattle.lwp_types.specs.MonitorRelease.{last_lock, lock_of, locks_on};
ghost use Rattle.monitors.specs.MonitorTable.{after_create, after_destroy, after_enter, after_exit, after_forget, after_give_up, after_grant, after_release, after_release_last, after_request, after_requeue, after_reserve, empty_table, has_request, is_free, is_live, is_unwanted, machine_row, may_enter, newborn, next_owner, next_request, owner_after, owner_of, released_last, requests_of};

use crate::live::{has, list, take_out};
use crate::locks::Locks;
use crate::requests::machine_rows;
use lists::{Waiting, WaitingList, cloned, living};
use lwp_types::{IdList, Lock, Mid, NoMemory, Request, Sequence, Tid};
use std::alloc::Global;
use std::marker::Model;

// How many monitors may live at once.
const MOST_LIVE: usize = 256;

/// The live monitors, their locks, and who waits to enter.
pub struct Monitors {
    alloc: Global,
    live: Vec<Mid>,
    births: u64,
    limit: u64,
    locks: Locks,
    requests: WaitingList,
}

// PROVER: written by hand, so that a function that drops one calls this instead of repeating its proof.
impl Drop for Monitors {
    fn drop(self) {
        let Monitors {
            alloc: _,
            live: _,
            births: _,
            limit: _,
            locks: _,
            requests: _,
        } = self;
    }
}

impl Model for Monitors {
    ghost use Rattle.std.specs.Prelude.{map};
    ghost use Rattle.monitors.specs.MonitorTable.{MonitorTable};
    ghost use Rattle.monitors.specs.Held.{IsSound};
    ghost use Rattle.monitors.specs.Requests.{request_of};
    ghost use Rattle.lists.specs.Living.{living};

    ghost Value = { MonitorTable };

    ghost view = { λ s. record {
      monitors = s.live.items;
      births = s.births;
      limit = s.limit;
      locks = living s.locks.slots.items;
      requests = map request_of s.requests.waiting;
      places = s.requests.places;
    } };

    ghost invariant = { λ s. IsSound (record {
      monitors = s.live.items;
      births = s.births;
      limit = s.limit;
      locks = living s.locks.slots.items;
      requests = map request_of s.requests.waiting;
      places = s.requests.places;
    }) s.locks };
}

impl Monitors {
    /// No monitors, and births of up to so many in all.
    pub fn new(alloc: Global, births: u64) -> Monitors
        ensures { result ≡ empty_table births }
    {
        Monitors {
            alloc,
            live: Vec::new(alloc),
            births: 0,
            limit: births,
            locks: Locks::new(alloc),
            requests: WaitingList::new(alloc),
        }
    }

    /// The same monitors, in memory of their own.
    pub fn again(&self) -> Result<Monitors, NoMemory>
        ensures { IfOk result (λ copy. copy ≡ self.now) }
    {
        Ok(Monitors {
            alloc: self.alloc,
            live: cloned(&self.live)?,
            births: self.births,
            limit: self.limit,
            locks: self.locks.again()?,
            requests: self.requests.again()?,
        })
    }

    /// Makes places for `n` requests in all; so many may then wait with no more memory.
    pub fn reserve(&mut self, n: usize) -> Result<(), NoMemory>
        ensures ok { OnOk result (self.new ≡ after_reserve self.old n) }
        ensures err { OnErr result (self.new ≡ self.old) }
        ensures has_room { n ≤ self.old.places → IsOk result }
    {
        self.requests.reserve(n)
    }

    /// A monitor that nobody holds, or None where none may be born. What is done to it later takes no memory.
    pub fn create(&mut self) -> Result<Option<Mid>, NoMemory>
        ensures value { IfOk result (λ made. made ≡ newborn self.old) }
        ensures ok { OnOk result (self.new ≡ after_create self.old) }
        ensures err { OnErr result (self.new ≡ self.old) }
    {
        let births = self.births;
        if self.live.len() >= MOST_LIVE || births >= self.limit {
            return Ok(None);
        }
        let mon = Mid { number: births };
        self.locks.reserve(self.live.len() + 1)?;
        self.live.push(mon)?;
        self.births = births + 1;
        Ok(Some(mon))
    }

    /// Whether the monitor was born and not destroyed.
    pub fn is_live(&self, mon: Mid) -> bool
        ensures { result ≡ is_live self.now mon }
    {
        has(&self.live, mon)
    }

    /// Ends a monitor that nobody holds or waits for.
    pub fn destroy(&mut self, mon: Mid)
        requires live { IsTrue (is_live self.old mon) }
        requires free { IsTrue (is_free self.old mon) }
        requires unwanted { IsTrue (is_unwanted self.old mon) }
        ensures { self.new ≡ after_destroy self.old mon }
    {
        take_out(&mut self.live, mon);
    }

    /// Who holds the monitor, if anybody does.
    pub fn owner(&self, mon: Mid) -> Option<Tid>
        requires { IsTrue (is_live self.now mon) }
        ensures { result ≡ owner_of self.now mon }
    {
        self.locks.lock_of(mon).map(|lock| lock.owner)
    }

    /// How often the owner has entered the monitor, and 0 where it is free.
    pub fn depth(&self, mon: Mid) -> u32
        requires { IsTrue (is_live self.now mon) }
        ensures { result ≡ depth_in self.now.locks mon }
    {
        self.locks.depth_of(mon)
    }

    /// The thread enters a free monitor, or its own once more. The answer is how often it had entered it before.
    pub fn enter(&mut self, mon: Mid, tid: Tid) -> u32
        requires live { IsTrue (is_live self.old mon) }
        requires may_enter { IsTrue (may_enter tid (lock_of self.old.locks mon)) }
        ensures value { result ≡ depth_in self.old.locks mon }
        ensures after { self.new ≡ after_enter self.old tid mon }
    {
        match self.locks.lock_of(mon) {
            None => {
                let lock = Lock {
                    mon,
                    owner: tid,
                    depth: 1,
                };
                self.locks.acquire(&lock);
                0
            }
            Some(lock) => {
                self.locks.set_depth(mon, lock.depth + 1);
                lock.depth
            }
        }
    }

    /// The thread waits, after all others, to enter a monitor that another holds.
    pub fn request(&mut self, mon: Mid, tid: Tid, prio: u32, depth: u32)
        requires held { IsTrue (is_owned_by_other self.old.locks tid mon) }
        requires waits_nowhere { has_request self.old tid ≡ false }
        requires least { 1 ≤ depth }
        requires most { depth ≤ 65535 }
        requires room { length self.old.requests < self.old.places }
        ensures { self.new
            ≡ after_request self.old (record { mon = mon; tid = tid; prio = prio; depth = depth }) }
    {
        self.requests.join(Waiting {
            what: mon.number,
            tid,
            prio,
            depth,
        });
    }

    /// The owner leaves once. Where it leaves altogether, the answer is who holds the monitor then.
    pub fn exit(&mut self, mon: Mid, _owner: Tid) -> Option<Tid>
        requires { IsTrue (is_owner self.old.locks _owner mon) }
        ensures value { result ≡ owner_after self.old mon }
        ensures after { self.new ≡ after_exit self.old mon }
    {
        let depth = self.locks.depth_of(mon);
        if depth <= 1 {
            return self.break_lock(mon);
        }
        self.locks.set_depth(mon, depth - 1);
        None
    }

    /// Takes the monitor from its owner, however deep, and answers who holds it then.
    pub fn break_lock(&mut self, mon: Mid) -> Option<Tid>
        requires { is_free self.old mon ≡ false }
        ensures value { result ≡ next_owner self.old mon }
        ensures after { self.new ≡ after_release self.old mon }
    {
        self.locks.free(mon);
        self.grant(mon)
    }

    /// Takes the monitor from its owner, however deep, and gives it to nobody yet. The answer is how often the owner had
    /// entered it. Threads may wait to enter the monitor, so the next call on it is `grant`.
    pub fn give_up(&mut self, mon: Mid, _owner: Tid) -> u32
        requires { IsTrue (is_owner self.old.locks _owner mon) }
        ensures value { result ≡ depth_in self.old.locks mon }
        ensures after { self.new ≡ after_give_up self.old mon }
    {
        let locks = &mut self.locks;
        let depth = locks.depth_of(mon);
        locks.free(mon);
        depth
    }

    /// The thread that is next enters a free monitor. The answer is that thread, if any waits.
    pub fn grant(&mut self, mon: Mid) -> Option<Tid>
        requires live { IsTrue (is_live self.old mon) }
        requires free { IsTrue (is_free self.old mon) }
        ensures value { result ≡ next_owner self.old mon }
        ensures after { self.new ≡ after_grant self.old mon }
        ensures first_best { FindsBest (λ r. r.prio) (requests_of self.old mon)
            (next_request self.old mon) }
    {
        let next = self.requests.best(mon.number)?;
        self.requests.leave(next.tid);
        let lock = Lock {
            mon: Mid { number: next.what },
            owner: next.tid,
            depth: next.depth,
        };
        self.locks.acquire(&lock);
        Some(next.tid)
    }

    /// Of the monitors that the thread holds, the one that it acquired last.
    pub fn last_held(&self, tid: Tid) -> Option<Mid>
        ensures value { result ≡ option_map (λ lock. lock.mon) (last_lock self.now.locks tid) }
        ensures held_once { (m : ℕ) → locks_on self.now.locks m ≤ 1 }
    {
        self.locks.last_lock(tid).map(|lock| lock.mon)
    }

    /// Takes from the thread the monitor that it acquired last, however deep, for the thread that enters next. The answer
    /// is the monitor and who holds it then, or None where the thread held none.
    pub fn release_last(&mut self, tid: Tid) -> Option<(Mid, Option<Tid>)>
        ensures value { result ≡ released_last self.old tid }
        ensures after { self.new ≡ after_release_last self.old tid }
    {
        let mon = self.last_held(tid)?;
        Some((mon, self.break_lock(mon)))
    }

    /// Gives the thread's request, if it has one, a priority. The request keeps its place.
    pub fn requeue(&mut self, tid: Tid, prio: u32)
        ensures { self.new ≡ after_requeue self.old tid prio }
    {
        self.requests.set_prio(tid, prio);
    }

    /// Forgets the thread's request, if it has one.
    pub fn forget(&mut self, tid: Tid)
        ensures { self.new ≡ after_forget self.old tid }
    {
        self.requests.leave(tid);
    }

    /// The threads that wait to enter the monitor, in the order of their arrival.
    pub fn waiters(&self, mon: Mid) -> Result<IdList, NoMemory>
        ensures { IfOk result (λ ids. ids ≡ map (λ r. r.tid) (requests_of self.now mon)) }
    {
        self.requests.tids(mon.number)
    }

    /// The live monitors, in birth order.
    pub fn list(&self) -> Result<IdList, NoMemory>
        ensures { IfOk result (λ ids. ids ≡ self.now.monitors) }
    {
        list(self.alloc, &self.live)
    }

    /// A copy of the locks of the held monitors, in the order in which they were acquired.
    pub fn locks(&self) -> Result<Sequence<Lock>, NoMemory>
        ensures { IfOk result (λ locks. locks ≡ self.now.locks) }
    {
        living(self.alloc, &self.locks.slots)
    }

    /// A copy of all requests, in the order of their arrival.
    pub fn requests(&self) -> Result<Sequence<Request>, NoMemory>
        ensures { IfOk result (λ rows. rows ≡ map machine_row self.now.requests) }
    {
        let line = self.requests.rows()?;
        machine_rows(self.alloc, line.as_slice())
    }

    /// How many monitors were ever born.
    pub fn births(&self) -> u64
        ensures { result ≡ self.now.births }
    {
        self.births
    }
}
