// The agents under each key, which is their event or their owner.
ghost use Rattle.std.specs.Prelude.{◌≡◌, ◌++◌, ◌+◌, ◌<◌, ◌≤◌, IfOk, IsTrue, OnOk, [], ◌∷◌, length, slice_get, true, vec_capacity};
ghost use Rattle.lwp_types.specs.State.{all_below, member, without};
ghost use Rattle.agents.specs.Index.{AreOrdered, IsCut, IsPastLesser, Puts, is_before, is_below, is_up_to, numbers_under};

use lists::cloned_exactly;
use lwp_types::NoMemory;
use std::alloc::Global;
use std::marker::Model;

/// The number of an agent, and the key that it stands under.
#[derive(Clone, Copy)]
pub struct Entry {
    pub key: u64,
    pub number: u64,
}

// One list and not one for each event: each of those would need room for all agents, since all may have one event.
/// The numbers of the agents under each key.
#[derive(Drop)]
pub struct Index {
    // By rising keys, and under one key by rising numbers, so that each is found by halving.
    entries: Vec<Entry>,
}

impl Model for Index {
    ghost use Rattle.std.specs.Prelude.{vec_capacity};
    ghost use Rattle.agents.specs.Index.{AreOrdered, Entries};

    ghost Value = { Entries };

    ghost view = { λ i. record { entries = i.entries.items; room = vec_capacity i.entries } };

    ghost invariant = { λ i. AreOrdered i.entries.items };
}

// Where the entries of the key begin, if each key from the least on has one.
#[inline(always)]
fn likely_start(entries: &[Entry], key: u64) -> usize {
    match entries.first() {
        Some(first) => key.saturating_sub(first.key) as usize,
        None => 0,
    }
}

// Whether the entry before this place, if there is one, stands under a lesser key.
#[inline(always)]
fn is_past_lesser(entries: &[Entry], at: usize, key: u64) -> bool
    requires { at < length entries.now }
    ensures { result ≡ true → IsPastLesser key entries.now at }
{
    at == 0 || entries[at - 1].key < key
}

// How many entries stand under lesser keys, by halving.
#[inline(never)]
fn start_by_halves(entries: &[Entry], key: u64) -> usize
    requires { AreOrdered entries.now }
    ensures { IsCut (is_below key) entries.now result }
{
    entries.partition_point(|entry| entry.key < key)
}

// How many entries stand under lesser keys: at a look where each key from the least on has one entry, and else by
// halving.
#[inline(always)]
fn start_of(entries: &[Entry], key: u64) -> usize
    requires { AreOrdered entries.now }
    ensures { IsCut (is_below key) entries.now result }
{
    let at = likely_start(entries, key);
    match entries.get(at) {
        Some(entry) if entry.key == key && is_past_lesser(entries, at, key) => at,
        _ => start_by_halves(entries, key),
    }
}

// How many entries stand under lesser keys or under this one.
fn end_of(entries: &[Entry], key: u64) -> usize
    requires { AreOrdered entries.now }
    ensures { IsCut (is_up_to key) entries.now result }
{
    entries.partition_point(|entry| entry.key <= key)
}

// How many entries stand before that of the number under this key.
fn place_of(entries: &[Entry], key: u64, number: u64) -> usize
    requires { AreOrdered entries.now }
    ensures { IsCut (is_before key number) entries.now result }
{
    entries.partition_point(|entry| entry.key < key || entry.key == key && entry.number < number)
}

// The entry at this place.
fn entry_at(entries: &[Entry], i: usize) -> Option<Entry>
    ensures { result ≡ slice_get entries.now i }
{
    entries.get(i).copied()
}

// The number at this place among those under the key.
fn nth_in(entries: &[Entry], key: u64, i: usize) -> Option<u64>
    requires { AreOrdered entries.now }
    ensures { result ≡ slice_get (numbers_under key entries.now) i }
{
    let start = start_of(entries, key);
    match entry_at(&entries[start..], i) {
        Some(entry) if entry.key == key => Some(entry.number),
        _ => None,
    }
}

impl Index {
    /// The same numbers, in memory of their own.
    pub fn again(&self) -> Result<Index, NoMemory>
        ensures { IfOk result (λ copy. copy ≡ self.now) }
    {
        Ok(Index {
            entries: cloned_exactly(&self.entries)?,
        })
    }

    /// No agents.
    pub fn new(alloc: Global) -> Index
        ensures { result.entries ≡ [] }
    {
        Index {
            entries: Vec::new(alloc),
        }
    }

    /// Room for so many in all.
    pub fn reserve(&mut self, places: usize) -> Result<(), NoMemory>
        requires { length self.old.entries ≤ places }
        ensures entries { self.new.entries ≡ self.old.entries }
        ensures ok { OnOk result (places ≤ self.new.room) }
        ensures room { self.old.room ≤ self.new.room }
    {
        self.entries.reserve(places - self.entries.len())?;
        Ok(())
    }

    /// The number at this place among those under the key.
    pub fn nth(&self, key: u64, i: usize) -> Option<u64>
        ensures { result ≡ slice_get (numbers_under key self.now.entries) i }
    {
        nth_in(&self.entries, key, i)
    }

    /// One number more under the key, above those that stand there.
    pub fn add(&mut self, key: u64, number: u64)
        requires newest { IsTrue (all_below number (numbers_under key self.old.entries)) }
        requires room { length self.old.entries < self.old.room }
        ensures puts { Puts self.old.entries self.new.entries key
            (numbers_under key self.old.entries ++ number ∷ []) }
        ensures len { length self.new.entries ≡ length self.old.entries + 1 }
        ensures room { self.new.room ≡ self.old.room }
    {
        let end = end_of(&self.entries, key);
        // There is room, so no memory is asked for.
        let _ = self.entries.insert(end, Entry { key, number });
    }

    /// Takes a number out that stands under the key.
    pub fn take(&mut self, key: u64, number: u64)
        requires { IsTrue (member number (numbers_under key self.old.entries)) }
        ensures puts { Puts self.old.entries self.new.entries key
            (without number (numbers_under key self.old.entries)) }
        ensures len { length self.new.entries + 1 ≡ length self.old.entries }
        ensures room { self.new.room ≡ self.old.room }
    {
        let place = place_of(&self.entries, key, number);
        self.entries.remove(place);
    }
}
