// Those that wait, in the order of their arrival.
ghost use Rattle.std.specs.Prelude.{◌≡◌, ◌<◌, count_by, length, map, IfNone, IfOk, IfSome};
ghost use Rattle.std.specs.List.{filter, remove};
ghost use Rattle.std.specs.VecDeque.{deque_capacity};
ghost use Rattle.lists.specs.WaitingList.Entries.{AreAlike, AreRising, IsAt, IsBestAt, IsFiled, IsFirstAt, IsFrontAt, IsIndexed, IsKnown, IsThreadAt, arrival_key, arrivals, entry_of, has_arrival, is_entry_for, is_entry_of, rank_of, tid_in, waiting_of};

use crate::Index;
use crate::waiting_list::keys::{self, Key};
use lwp_types::{IdList, NoMemory, Sequence, Tid};
use std::alloc::Global;
use std::collections::VecDeque;

/// A thread that waits for something, with the priority that it was last given, and a depth that it is to have back.
#[derive(Clone, Copy)]
pub struct Waiting {
    pub what: u64,
    pub tid: Tid,
    pub prio: u32,
    pub depth: u32,
}

/// One that waits, with its arrival: a greater number than those before it have. Where its rank stood when its priority
/// was last changed is only a guess, since others may have moved it meanwhile.
#[derive(Clone, Copy)]
pub struct Entry {
    pub arrival: u64,
    pub what: u64,
    pub tid: Tid,
    pub prio: u32,
    pub depth: u32,
    pub filed: usize,
}

// The entry of one that came then.
pub fn entry_of(arrival: u64, next: &Waiting) -> Entry
    ensures { result ≡ entry_of arrival next.now }
{
    Entry {
        arrival,
        what: next.what,
        tid: next.tid,
        prio: next.prio,
        depth: next.depth,
        filed: 0,
    }
}

// The entry without its arrival.
pub fn waiting_of(entry: &Entry) -> Waiting
    ensures { result ≡ waiting_of entry.now }
{
    Waiting {
        what: entry.what,
        tid: entry.tid,
        prio: entry.prio,
        depth: entry.depth,
    }
}

// The key by which it is found as the best for what it waits for.
pub fn rank_of(entry: &Entry) -> Key
    ensures { result ≡ rank_of entry.now }
{
    Key {
        what: entry.what,
        prio: entry.prio,
        arrival: entry.arrival,
    }
}

// The key by which it is found as the first for what it waits for.
pub fn arrival_key(entry: &Entry) -> Key
    ensures { result ≡ arrival_key entry.now }
{
    Key {
        what: entry.what,
        prio: 0,
        arrival: entry.arrival,
    }
}

// Where the entry of this arrival stands, by halving.
#[inline(never)]
fn place_by_halves(entries: &VecDeque<Entry>, arrival: u64) -> Option<usize>
    requires { AreRising (arrivals entries.now.items) }
    ensures none { IfNone result (count_by (has_arrival arrival) entries.now.items ≡ 0) }
    ensures some { IfSome result (IsAt arrival entries.now.items) }
{
    let at = entries.partition_point(|entry| entry.arrival < arrival);
    match entries.get(at) {
        Some(entry) if entry.arrival == arrival => Some(at),
        _ => None,
    }
}

// How far after the first the entry of this arrival stands, if nobody between them has left.
#[inline(always)]
fn likely_place(entries: &VecDeque<Entry>, arrival: u64) -> usize {
    match entries.front() {
        Some(first) => arrival.saturating_sub(first.arrival) as usize,
        None => 0,
    }
}

// Where the entry of this arrival stands: at a look where nobody before it has left, or all have.
#[inline(always)]
fn place_of(entries: &VecDeque<Entry>, arrival: u64) -> Option<usize>
    requires { AreRising (arrivals entries.now.items) }
    ensures none { IfNone result (count_by (has_arrival arrival) entries.now.items ≡ 0) }
    ensures some { IfSome result (IsAt arrival entries.now.items) }
{
    let at = likely_place(entries, arrival);
    match entries.get(at) {
        Some(entry) if entry.arrival == arrival => Some(at),
        _ => place_by_halves(entries, arrival),
    }
}

// Where the thread stands, by its arrival.
#[inline(never)]
fn place_by_index(entries: &VecDeque<Entry>, index: &Index, tid: Tid) -> Option<usize>
    requires rising { AreRising (arrivals entries.now.items) }
    requires known { IsKnown entries.now.items index.now }
    ensures none { IfNone result (count_by (is_entry_of tid) entries.now.items ≡ 0) }
    ensures some { IfSome result (IsThreadAt tid entries.now.items) }
{
    let arrival = index.place_of(tid)?;
    place_of(entries, arrival as u64)
}

// Where the thread stands: before all others, where it does, at a look.
#[inline(always)]
pub fn place_of_thread(entries: &VecDeque<Entry>, index: &Index, tid: Tid) -> Option<usize>
    requires rising { AreRising (arrivals entries.now.items) }
    requires known { IsKnown entries.now.items index.now }
    ensures none { IfNone result (count_by (is_entry_of tid) entries.now.items ≡ 0) }
    ensures some { IfSome result (IsThreadAt tid entries.now.items) }
{
    match entries.front() {
        Some(first) if first.tid == tid => Some(0),
        Some(_) => place_by_index(entries, index, tid),
        None => None,
    }
}

// Where the first of the greatest priority stands of those that wait for this, by their keys.
fn best_filed(entries: &VecDeque<Entry>, ranks: &VecDeque<Key>, what: u64) -> Option<usize>
    requires rising { AreRising (arrivals entries.now.items) }
    requires filed { IsFiled rank_of entries.now.items ranks.now.items }
    ensures none { IfNone result (count_by (is_entry_for what) entries.now.items ≡ 0) }
    ensures some { IfSome result (IsBestAt what entries.now.items) }
{
    let key = keys::first_of(ranks, what)?;
    place_of(entries, key.arrival)
}

// Where the one stands that came first of those that wait for this, by their keys.
fn first_filed(entries: &VecDeque<Entry>, arrived: &VecDeque<Key>, what: u64) -> Option<usize>
    requires rising { AreRising (arrivals entries.now.items) }
    requires filed { IsFiled arrival_key entries.now.items arrived.now.items }
    ensures none { IfNone result (count_by (is_entry_for what) entries.now.items ≡ 0) }
    ensures some { IfSome result (IsFirstAt what entries.now.items) }
{
    let key = keys::first_of(arrived, what)?;
    place_of(entries, key.arrival)
}

// Where all are alike, the first that came, if they wait for this.
#[inline(always)]
fn front_for(entries: &VecDeque<Entry>, what: u64) -> Option<usize>
    requires { AreAlike entries.now.items }
    ensures none { IfNone result (count_by (is_entry_for what) entries.now.items ≡ 0) }
    ensures some { IfSome result (IsFrontAt what entries.now.items) }
{
    match entries.front() {
        Some(first) if first.what == what => Some(0),
        _ => None,
    }
}

// Where the first of the greatest priority stands of those that wait for this.
#[inline(always)]
pub fn best_place(
    entries: &VecDeque<Entry>,
    ranks: &VecDeque<Key>,
    arrived: &VecDeque<Key>,
    what: u64,
) -> Option<usize>
    requires { IsIndexed entries.now.items ranks.now.items arrived.now.items }
    ensures none { IfNone result (count_by (is_entry_for what) entries.now.items ≡ 0) }
    ensures some { IfSome result (IsBestAt what entries.now.items) }
{
    if ranks.is_empty() {
        front_for(entries, what)
    } else {
        best_filed(entries, ranks, what)
    }
}

// Where the one stands that came first of those that wait for this.
#[inline(always)]
pub fn first_place(
    entries: &VecDeque<Entry>,
    ranks: &VecDeque<Key>,
    arrived: &VecDeque<Key>,
    what: u64,
) -> Option<usize>
    requires { IsIndexed entries.now.items ranks.now.items arrived.now.items }
    ensures none { IfNone result (count_by (is_entry_for what) entries.now.items ≡ 0) }
    ensures some { IfSome result (IsFirstAt what entries.now.items) }
{
    if ranks.is_empty() {
        front_for(entries, what)
    } else {
        first_filed(entries, arrived, what)
    }
}

// All but the entry there.
#[inline(always)]
pub fn take_out(entries: &mut VecDeque<Entry>, at: usize)
    requires { at < length entries.old.items }
    ensures items { entries.new.items ≡ remove entries.old.items at }
    ensures capacity { deque_capacity entries.new ≡ deque_capacity entries.old }
{
    if at == 0 {
        entries.pop_front();
    } else {
        entries.remove(at);
    }
}

// The thread that came then, or 0.
fn tid_of(entries: &VecDeque<Entry>, arrival: u64) -> u64
    requires { AreRising (arrivals entries.now.items) }
    ensures { result ≡ tid_in entries.now.items arrival }
{
    match place_of(entries, arrival) {
        Some(at) => entries[at].tid.number,
        None => 0,
    }
}

// The threads that wait for this, by their keys.
fn tids_filed(
    alloc: Global,
    entries: &VecDeque<Entry>,
    arrived: &VecDeque<Key>,
    what: u64,
) -> Result<IdList, NoMemory>
    requires rising { AreRising (arrivals entries.now.items) }
    requires filed { IsFiled arrival_key entries.now.items arrived.now.items }
    ensures { IfOk result
        (λ ids. ids ≡ map (λ e. e.tid) (filter (is_entry_for what) entries.now.items)) }
{
    let mut ids = IdList::new(alloc);
    for at in keys::start_of(arrived, what)..keys::end_of(arrived, what) {
        ids.push(tid_of(entries, arrived[at].arrival))?;
    }
    Ok(ids)
}

// The threads that wait for this, of whom all are looked at.
fn tids_among(alloc: Global, entries: &VecDeque<Entry>, what: u64) -> Result<IdList, NoMemory>
    ensures { IfOk result
        (λ ids. ids ≡ map (λ e. e.tid) (filter (is_entry_for what) entries.now.items)) }
{
    let mut ids = IdList::new(alloc);
    for i in 0..entries.len() {
        let next = &entries[i];
        if next.what == what {
            ids.push(next.tid.number)?;
        }
    }
    Ok(ids)
}

// The threads that wait for this.
pub fn tids_for(
    alloc: Global,
    entries: &VecDeque<Entry>,
    ranks: &VecDeque<Key>,
    arrived: &VecDeque<Key>,
    what: u64,
) -> Result<IdList, NoMemory>
    requires { IsIndexed entries.now.items ranks.now.items arrived.now.items }
    ensures { IfOk result
        (λ ids. ids ≡ map (λ e. e.tid) (filter (is_entry_for what) entries.now.items)) }
{
    if !ranks.is_empty() {
        return tids_filed(alloc, entries, arrived, what);
    }
    match front_for(entries, what) {
        Some(_) => tids_among(alloc, entries, what),
        None => Ok(IdList::new(alloc)),
    }
}

// All of them, without their arrivals.
pub fn copied(alloc: Global, entries: &VecDeque<Entry>) -> Result<Sequence<Waiting>, NoMemory>
    ensures { IfOk result (λ rows. rows ≡ map waiting_of entries.now.items) }
{
    let mut rows = Sequence::new(alloc);
    for i in 0..entries.len() {
        rows.push(waiting_of(&entries[i]))?;
    }
    Ok(rows)
}
