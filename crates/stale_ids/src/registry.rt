// The registry.
ghost use Rattle.std.specs.Prelude.{◌≡◌, ◌<◌, ◌≤◌, ◌↔◌, length, IsTrue, IsOk, IsErr, IsSome, IfOk, IfErr, OnOk, OnErr, None, Some, option_copied, slice_get, slice_index};
ghost use Rattle.std.specs.Option.{option_copied_mut};
ghost use Rattle.std.specs.Borrow.{sem};
ghost use Rattle.stale_ids.specs.Register.{AreBorn, AreRising, after_insert, after_remove, after_reserve, empty_register, numbers, value_of};

use crate::again::Again;
use crate::index::{Place, place_of};
use crate::no_memory::NoMemory;
use slab::Slab;
use std::alloc::Global;
use std::marker::Model;

/// The living, each found by the number of its birth alone.
pub struct Registry<T> {
    values: Slab<T>,
    // One place for each of the living, the oldest first.
    index: Vec<Place>,
    births: u64,
    limit: u64,
    // Both the values and the index have room for so many.
    places: usize,
}

// PROVER: written by hand, so that a function that drops one calls this instead of repeating its proof.
impl<T: Drop> Drop for Registry<T> {
    fn drop(self) {
        let Registry {
            values: _,
            index: _,
            births: _,
            limit: _,
            places: _,
        } = self;
    }
}

impl<T> Model for Registry<T> {
    ghost use Rattle.std.specs.Prelude.{vec_capacity};
    ghost use Rattle.stale_ids.specs.Register.{Register};
    ghost use Rattle.stale_ids.specs.Index.{pairs, IsSound};

    ghost Value = { Register T };

    ghost view = { λ r. record {
      live = pairs r.values.slots r.index.items;
      births = r.births;
      limit = r.limit;
      places = r.places;
    } };

    ghost invariant = { λ r. IsSound r.values.slots r.values.capacity
        r.index.items (vec_capacity r.index) r.births r.limit r.places };
}

impl<T> Registry<T> {
    ghost use Rattle.stale_ids.specs.Lends.{lends_found, lends_living};

    /// Nobody yet, and at most `limit` births ever.
    pub fn new(alloc: Global, limit: u64) -> Registry<T>
        ensures { result ≡ empty_register limit }
    {
        Registry {
            values: Slab::new(alloc),
            index: Vec::new(alloc),
            births: 0,
            limit,
            places: 0,
        }
    }

    /// Makes places for `n` of the living in all; to insert so many then takes no memory.
    pub fn reserve(&mut self, n: usize) -> Result<(), NoMemory>
        ensures ok { OnOk result (self.new ≡ after_reserve self.old n) }
        ensures err { OnErr result (self.new ≡ self.old) }
        ensures has_room { n ≤ self.old.places → IsOk result }
    {
        if n <= self.places {
            return Ok(());
        }
        let more = n - self.index.len();
        self.values.reserve(more)?;
        self.index.reserve(more)?;
        self.places = n;
        Ok(())
    }

    /// A birth: the value lives under the next number. Past the last birth the value comes back.
    pub fn insert(&mut self, value: T) -> Result<u64, T>
        requires { length self.old.live < self.old.places }
        ensures ok { OnOk result (self.new ≡ after_insert self.old value) }
        ensures number { IfOk result (λ number. number ≡ self.old.births) }
        ensures fresh { value_of self.old.births self.old.live ≡ None }
        ensures at_limit { IsErr result ↔ (self.old.births ≡ self.old.limit) }
        ensures value_returned { IfErr result (λ returned. returned ≡ value) }
        ensures err { OnErr result (self.new ≡ self.old) }
    {
        if self.births == self.limit {
            return Err(value);
        }
        let next = self.births;
        self.add(value);
        Ok(next)
    }

    // A birth where there may be one more.
    #[inline(always)]
    fn add(&mut self, value: T)
        requires room { length self.old.live < self.old.places }
        requires below { self.old.births < self.old.limit }
        ensures { self.new ≡ after_insert self.old value }
    {
        let number = self.births;
        let slot = self.values.insert_reserved(value);
        self.index.push_reserved(Place { number, slot });
        self.births += 1;
    }

    // The next to be born gets this number.
    fn skip_to(&mut self, number: u64)
        requires later { self.old.births ≤ number }
        requires most { number ≤ self.old.limit }
        ensures { self.new ≡ record self.old { births = number } }
    {
        self.births = number;
    }

    // The one at a place of the index, and its number.
    fn pair_at(&self, at: usize) -> (u64, &T)
        requires { at < length self.now.live }
        ensures { slice_get self.now.live at ≡ Some (result.0, result.1.now) }
    {
        let place = self.index[at];
        (place.number, &self.values[place.slot])
    }

    /// The value that lives under the number.
    pub fn get(&self, n: u64) -> Option<&T>
        ensures value { option_copied result ≡ value_of n self.now.live }
        ensures rising { AreRising self.now.live }
    {
        let at = place_of(&self.index, n)?;
        self.values.get(self.index[at].slot)
    }

    /// The value that lives under the number, to be written.
    pub fn get_mut(&mut self, n: u64) -> Option<&mut T>
        ensures* writes_back { sem 𝓛 (lends_found T.row self.entry n result) }
        ensures value { option_copied_mut result ≡ value_of n self.old.live }
        ensures rising { AreRising self.old.live }
    {
        match place_of(&self.index, n) {
            Some(at) => Some(self.value_at(n, at)),
            None => None,
        }
    }

    // The value at a place of the index, to be written.
    fn value_at(&mut self, n: u64, at: usize) -> &mut T
        requires within { at < length self.old.live }
        requires here { slice_index (numbers self.old.live) at ≡ n }
        ensures* writes_back { sem 𝓛 (lends_living T.row self.entry n result) }
        ensures value { value_of n self.old.live ≡ Some result.now }
    {
        // PROVER: the number is there for the clauses alone.
        let _ = n;
        let slot = self.index[at].slot;
        &mut self.values[slot]
    }

    /// Whether somebody lives under the number.
    pub fn is_live(&self, n: u64) -> bool
        ensures value { IsTrue result ↔ IsSome (value_of n self.now.live) }
        ensures rising { AreRising self.now.live }
    {
        place_of(&self.index, n).is_some()
    }

    /// The end of a life: the value goes, and its number finds nobody from then on.
    pub fn remove(&mut self, n: u64) -> Option<T>
        ensures value { result ≡ value_of n self.old.live }
        ensures rest { self.new ≡ after_remove self.old n }
        ensures gone { value_of n self.new.live ≡ None }
    {
        let at = place_of(&self.index, n)?;
        let place = self.index.remove(at);
        Some(self.values.remove(place.slot))
    }

    /// How many were born so far. All numbers of the living are below it.
    pub fn births(&self) -> u64
        ensures value { result ≡ self.now.births }
        ensures within { result ≤ self.now.limit }
        ensures born { AreBorn self.now.births self.now.live }
    {
        self.births
    }

    /// How many may ever be born.
    pub fn limit(&self) -> u64
        ensures { result ≡ self.now.limit }
    {
        self.limit
    }

    /// How many live.
    pub fn len(&self) -> usize
        ensures value { result ≡ length self.now.live }
        ensures within { result ≤ self.now.places }
        ensures rising { AreRising self.now.live }
    {
        self.index.len()
    }

    /// The number of the `i`-th of the living, counted from the oldest.
    pub fn nth(&self, i: usize) -> u64
        requires { i < length self.now.live }
        ensures value { result ≡ slice_index (numbers self.now.live) i }
        ensures rising { AreRising self.now.live }
    {
        self.index[i].number
    }
}

impl<T: Again> Registry<T> {
    /// An equal registry, in memory of its own. It goes over the living once, the oldest first.
    pub fn again(&self) -> Result<Registry<T>, NoMemory>
        ensures { IfOk result (λ copy. copy ≡ self.now) }
    {
        let births = self.births();
        let mut copy = Registry::new(*self.index.allocator(), self.limit);
        copy.reserve(self.places)?;
        for at in 0..self.len() {
            let (number, value) = self.pair_at(at);
            let value = value.again()?;
            copy.skip_to(number);
            copy.add(value);
        }
        copy.skip_to(births);
        Ok(copy)
    }
}
