// The order.
ghost use Rattle.std.specs.Prelude.{List, ℕ, ◌∷◌, ◌≡◌, ◌≢◌, ◌++◌, ◌+◌, ◌-◌, ◌<◌, ◌≤◌, length, replicate, slice_get, slice_index_or, IsOk, IfOk, OnOk, OnErr};
ghost use Rattle.pod_sched.specs.Buckets.Order.{after_put_before, after_put_last, after_reassign, after_take, empty_order, first_of, prio_of, with_keys};

use crate::buckets::looks::{Looks, Steps};
use crate::buckets::marks::mark;
use lists::{Chains, cloned};
use std::alloc::{AllocError, Global};
use std::marker::Model;
use std::sync::ledger::Ledger;

/// Keys in an order. They are numbered from the number of priorities on.
pub struct Buckets {
    // The list 0 is the run queue.
    order: Chains,
    // The list of each priority, in the same order.
    ready: Chains,
    // The priority of each key, from the first key on.
    prios: Vec<u32>,
    // Whether the list of a priority has a key.
    marks: [u64; 4],
    levels: usize,
}

// PROVER: written by hand, so that a function that drops one calls this instead of repeating its proof.
impl Drop for Buckets {
    fn drop(self) {
        let Buckets {
            order: _,
            ready: _,
            prios: _,
            marks: _,
            levels: _,
        } = self;
    }
}

impl Model for Buckets {
    ghost use Rattle.lists.specs.ChainLists.{items};
    ghost use Rattle.pod_sched.specs.Buckets.Order.{Order};
    ghost use Rattle.pod_sched.specs.Buckets.Kept.{IsKept};

    ghost Value = { Order };

    ghost view = { λ b. record { levels = b.levels; order = items b.order 0; prios = b.prios.items } };

    ghost invariant = { λ b. IsKept b.order b.ready b.prios.items b.marks b.levels };
}

// The place of a key's priority.
fn read(prios: &Vec<u32>, at: usize) -> u32
    requires { at < length prios.now.items }
    ensures { result ≡ slice_index_or prios.now.items at 0 }
{
    prios[at]
}

// So many priorities at least, and those that there weren't are 0.
fn extend(prios: &mut Vec<u32>, keys: usize) -> Result<(), AllocError>
    requires { length prios.old.items ≤ keys }
    ensures ok { OnOk result
        (prios.new.items ≡ prios.old.items ++ replicate (keys - length prios.old.items) 0) }
    ensures err { OnErr result (prios.new.items ≡ prios.old.items) }
{
    prios.resize(keys, 0)
}

impl Buckets {
    /// No key yet, and priorities from 0 to below `levels`.
    pub fn new(alloc: Global, levels: usize) -> Result<Buckets, AllocError>
        requires some { 1 ≤ levels }
        requires most { levels ≤ 256 }
        ensures { IfOk result (λ b. b ≡ empty_order levels) }
    {
        let order = Chains::new(alloc, levels)?;
        let ready = Chains::new(alloc, levels)?;
        Ok(Buckets {
            order,
            ready,
            prios: Vec::new(alloc),
            marks: [0; 4],
            levels,
        })
    }

    /// The same keys in memory of their own.
    pub fn again(&self) -> Result<Buckets, AllocError>
        ensures { IfOk result (λ copy. copy ≡ self.now) }
    {
        Ok(Buckets {
            order: self.order.again()?,
            ready: self.ready.again()?,
            prios: cloned(&self.prios)?,
            marks: self.marks,
            levels: self.levels,
        })
    }

    /// Takes memory for so many keys in all.
    pub fn reserve(&mut self, keys: usize) -> Result<(), AllocError>
        ensures ok { OnOk result (self.new ≡ with_keys self.old keys) }
        ensures err { OnErr result (self.new ≡ self.old) }
        ensures has_room { keys ≤ length self.old.prios → IsOk result }
    {
        if keys <= self.prios.len() {
            return Ok(());
        }
        if keys > usize::MAX - self.levels {
            return Err(AllocError);
        }
        self.order.reserve(self.levels + keys)?;
        self.ready.reserve(self.levels + keys)?;
        extend(&mut self.prios, keys)?;
        Ok(())
    }

    /// Takes a key out of the run queue, if it is in it.
    pub fn take(&mut self, key: usize)
        requires is_key { self.old.levels ≤ key }
        requires in_limit { key < self.old.levels + length self.old.prios }
        ensures { self.new ≡ after_take self.old key }
    {
        let prio = read(&self.prios, key - self.levels) as usize;
        self.order.remove(key);
        self.ready.remove(key);
        let some = self.ready.first(prio).is_some();
        mark(&mut self.marks, prio, some);
    }

    /// Puts a key at the end of the run queue, wherever it was, under this priority.
    pub fn put_last(&mut self, key: usize, prio: u32)
        requires is_key { self.old.levels ≤ key }
        requires in_limit { key < self.old.levels + length self.old.prios }
        requires low { prio < self.old.levels }
        ensures { self.new ≡ after_put_last self.old key prio }
    {
        if read(&self.prios, key - self.levels) != prio {
            self.reassign(key, prio);
        }
        self.requeue(key, prio);
    }

    // Takes a key out of the run queue, if it is in it, and gives it another priority.
    fn reassign(&mut self, key: usize, prio: u32)
        requires is_key { self.old.levels ≤ key }
        requires in_limit { key < self.old.levels + length self.old.prios }
        requires low { prio < self.old.levels }
        ensures { self.new ≡ after_reassign self.old key prio }
    {
        self.take(key);
        self.prios[key - self.levels] = prio;
    }

    // Puts a key at the end of the run queue, wherever it was. It has its priority already, so where it is in a list it stays in it, and no
    // list loses its last key.
    fn requeue(&mut self, key: usize, prio: u32)
        requires is_key { self.old.levels ≤ key }
        requires in_limit { key < self.old.levels + length self.old.prios }
        requires low { prio < self.old.levels }
        requires same { prio_of self.old key ≡ prio }
        ensures { self.new ≡ after_put_last self.old key prio }
    {
        self.order.move_to_back(0, key);
        self.ready.move_to_back(prio as usize, key);
        mark(&mut self.marks, prio as usize, true);
    }

    /// Puts a key right before another one of its priority, wherever it was. Where the other isn't in the run queue, the key
    /// isn't in it either.
    pub fn put_before(&mut self, key: usize, other: usize)
        requires is_key { self.old.levels ≤ key }
        requires in_limit { key < self.old.levels + length self.old.prios }
        requires other_is_key { self.old.levels ≤ other }
        requires other_in_limit { other < self.old.levels + length self.old.prios }
        requires differs { key ≢ other }
        requires same_prio { prio_of self.old key ≡ prio_of self.old other }
        ensures { self.new ≡ after_put_before self.old key other }
    {
        let prio = read(&self.prios, key - self.levels) as usize;
        self.order.move_before(key, other);
        self.ready.move_before(key, other);
        let some = self.ready.first(prio).is_some();
        mark(&mut self.marks, prio, some);
    }

    /// The first key of this priority.
    pub fn first_of(&self, prio: u32) -> Option<usize>
        ensures { result ≡ first_of self.now prio }
    {
        if prio as usize >= self.levels {
            return None;
        }
        self.first_in(prio as usize)
    }

    /// The first key of a priority that there is. `first_of` tests whether there is before it asks for this.
    pub fn first_in(&self, prio: usize) -> Option<usize>
        requires low { prio < self.now.levels }
        ensures { result ≡ first_of self.now prio }
    {
        self.ready.first(prio)
    }

    /// The first key of all, whatever its priority.
    pub fn first_key(&self) -> Option<usize>
        ensures { result ≡ slice_get self.now.order 0 }
    {
        self.order.first(0)
    }

    /// The key after this one in the run queue, whatever their priorities.
    pub fn key_after(&self, key: usize) -> Option<usize>
        requires in_limit { key < self.now.levels + length self.now.prios }
        ensures { (before after : List ℕ) → self.now.order ≡ before ++ key ∷ after →
            result ≡ slice_get after 0 }
    {
        self.order.behind(0, key)
    }
}

impl<L: Ledger> Looks<L, usize> for Buckets {
    ghost firsts = { first_of };

    fn word(&self, at: usize, steps: &mut Steps<L>) -> u64 {
        steps.tick();
        self.marks[at]
    }

    fn first(&self, list: usize, steps: &mut Steps<L>) -> Option<usize> {
        steps.tick();
        self.first_of(list as u32)
    }
}
