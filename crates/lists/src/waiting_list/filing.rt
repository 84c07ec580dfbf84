// How those that wait are filed, and numbered anew where no greater number is left.
ghost use Rattle.std.specs.Prelude.{None, [], ◌∷◌, ◌++◌, ◌+◌, ◌≡◌, ◌<◌, ◌≤◌, ℕ, IsSome, IsTrue, length, map, slice_index_or, slice_set, OnOk};
ghost use Rattle.std.specs.List.{AllByRecursion, remove};
ghost use Rattle.std.specs.VecDeque.{deque_capacity};
ghost use Rattle.lists.specs.ThreadIndex.{IsEmpty, Puts, count_of, place_of, width_of};
ghost use Rattle.lists.specs.WaitingList.Entries.{IsFiled, IsIndexed, IsKnown, IsLike, IsOnce, IsPrioritized, IsSortedOut, arrival_key, arrivals, rank_of, waiting_of, with_arrivals};

use crate::Index;
use crate::waiting_list::keys::{self, Key};
use crate::waiting_list::rows::{Entry, arrival_key, rank_of, take_out};
use lwp_types::{NoMemory, Tid};
use std::collections::VecDeque;

// Each is numbered by its place.
fn renumber(entries: &mut VecDeque<Entry>)
    ensures items { entries.new.items ≡ with_arrivals 0 entries.old.items }
    ensures capacity { deque_capacity entries.new ≡ deque_capacity entries.old }
{
    for at in 0..entries.len() {
        entries[at].arrival = at as u64;
    }
}

// Files all that wait by what they wait for.
#[inline(never)]
fn file(entries: &VecDeque<Entry>, ranks: &mut VecDeque<Key>, arrived: &mut VecDeque<Key>)
    requires ranks_fit { length entries.now.items ≤ deque_capacity ranks.old }
    requires arrived_fit { length entries.now.items ≤ deque_capacity arrived.old }
    ensures ranked { IsFiled rank_of entries.now.items ranks.new.items }
    ensures queued { IsFiled arrival_key entries.now.items arrived.new.items }
    ensures rank_room { deque_capacity ranks.old ≤ deque_capacity ranks.new }
    ensures arrived_room { deque_capacity arrived.old ≤ deque_capacity arrived.new }
{
    ranks.clear();
    arrived.clear();
    for at in 0..entries.len() {
        let entry = entries[at];
        keys::add(ranks, rank_of(&entry));
        keys::add(arrived, arrival_key(&entry));
    }
}

// Files all that wait by their threads, of whom none is filed yet.
pub fn file_threads(entries: &VecDeque<Entry>, index: &mut Index)
    requires once { IsOnce entries.now.items }
    requires empty { IsEmpty index.old }
    requires cells { length entries.now.items ≤ width_of index.old }
    requires room { width_of index.old ≤ index.old.room }
    ensures known { IsKnown entries.now.items index.new }
    ensures width { width_of index.new ≡ width_of index.old }
    ensures room { index.new.room ≡ index.old.room }
{
    for at in 0..entries.len() {
        let entry = entries[at];
        index.put(entry.tid, entry.arrival as usize);
    }
}

// How many cells there are to be for so many threads: a power of two where that can be, and twice as many or more, so that they are
// seldom made anew.
fn width_for(n: usize) -> usize
    ensures { n ≤ result }
{
    let mut width = 2;
    while width / 2 < n && width <= usize::MAX / 2 {
        width = width + width;
    }
    width.max(n)
}

// An index with cells for so many threads at least.
pub fn widen(entries: &VecDeque<Entry>, index: &mut Index, n: usize) -> Result<(), NoMemory>
    requires once { IsOnce entries.now.items }
    requires known { IsKnown entries.now.items index.old }
    requires fits { length entries.now.items ≤ n }
    requires room { width_of index.old ≤ index.old.room }
    ensures known { IsKnown entries.now.items index.new }
    ensures more { width_of index.old ≤ width_of index.new }
    ensures room { width_of index.new ≤ index.new.room }
    ensures ok { OnOk result (n ≤ width_of index.new) }
{
    if n <= index.width() {
        return Ok(());
    }
    let mut wider = Index::with_cells(*entries.allocator(), width_for(n))?;
    file_threads(entries, &mut wider);
    *index = wider;
    Ok(())
}

// Whether it waits for the same with the same priority as the first that came.
#[inline(always)]
fn is_like(entries: &VecDeque<Entry>, entry: &Entry) -> bool
    ensures { IsTrue result → IsLike entry.now entries.now.items }
{
    match entries.front() {
        Some(first) => entry.what == first.what && entry.prio == first.prio,
        None => true,
    }
}

// Files all that wait, where they are alike and have no keys so far.
#[inline(always)]
fn sort_out(entries: &VecDeque<Entry>, ranks: &mut VecDeque<Key>, arrived: &mut VecDeque<Key>)
    requires sorted { IsSortedOut entries.now.items ranks.old.items arrived.old.items }
    requires ranks_fit { length entries.now.items ≤ deque_capacity ranks.old }
    requires arrived_fit { length entries.now.items ≤ deque_capacity arrived.old }
    ensures ranked { IsFiled rank_of entries.now.items ranks.new.items }
    ensures queued { IsFiled arrival_key entries.now.items arrived.new.items }
    ensures rank_room { deque_capacity ranks.old ≤ deque_capacity ranks.new }
    ensures arrived_room { deque_capacity arrived.old ≤ deque_capacity arrived.new }
{
    if ranks.is_empty() {
        file(entries, ranks, arrived);
    }
}

// One more is to wait, the last.
#[inline(always)]
pub fn file_next(
    entries: &VecDeque<Entry>,
    ranks: &mut VecDeque<Key>,
    arrived: &mut VecDeque<Key>,
    entry: &Entry,
)
    requires sorted { IsSortedOut entries.now.items ranks.old.items arrived.old.items }
    requires ranks_fit { length entries.now.items < deque_capacity ranks.old }
    requires arrived_fit { length entries.now.items < deque_capacity arrived.old }
    ensures sorted { IsSortedOut (entries.now.items ++ entry.now ∷ []) ranks.new.items
        arrived.new.items }
    ensures rank_room { deque_capacity ranks.old ≤ deque_capacity ranks.new }
    ensures arrived_room { deque_capacity arrived.old ≤ deque_capacity arrived.new }
{
    if ranks.is_empty() && is_like(entries, entry) {
        return;
    }
    sort_out(entries, ranks, arrived);
    keys::add(ranks, rank_of(entry));
    keys::add(arrived, arrival_key(entry));
}

// The entry there is to go.
#[inline(always)]
fn unfile(
    entries: &VecDeque<Entry>,
    ranks: &mut VecDeque<Key>,
    arrived: &mut VecDeque<Key>,
    at: usize,
)
    requires sorted { IsSortedOut entries.now.items ranks.old.items arrived.old.items }
    requires within { at < length entries.now.items }
    ensures sorted { IsSortedOut (remove entries.now.items at) ranks.new.items arrived.new.items }
    ensures rank_room { deque_capacity ranks.new ≡ deque_capacity ranks.old }
    ensures arrived_room { deque_capacity arrived.new ≡ deque_capacity arrived.old }
{
    if ranks.is_empty() {
        return;
    }
    let gone = entries[at];
    keys::take(ranks, rank_of(&gone));
    keys::take(arrived, arrival_key(&gone));
}

// The entry there goes. It is this thread's.
#[inline(never)]
pub fn dismiss(
    entries: &mut VecDeque<Entry>,
    ranks: &mut VecDeque<Key>,
    arrived: &mut VecDeque<Key>,
    index: &mut Index,
    at: usize,
    tid: Tid,
)
    requires sorted { IsSortedOut entries.old.items ranks.old.items arrived.old.items }
    requires within { at < length entries.old.items }
    requires known { IsSome (place_of index.old tid) }
    ensures items { entries.new.items ≡ remove entries.old.items at }
    ensures sorted { IsSortedOut entries.new.items ranks.new.items arrived.new.items }
    ensures puts { Puts (place_of index.old) (place_of index.new) tid None }
    ensures count { count_of index.new + 1 ≡ count_of index.old }
    ensures room { deque_capacity entries.new ≡ deque_capacity entries.old }
    ensures rank_room { deque_capacity ranks.new ≡ deque_capacity ranks.old }
    ensures arrived_room { deque_capacity arrived.new ≡ deque_capacity arrived.old }
    ensures width { width_of index.new ≡ width_of index.old }
    ensures index_room { index.new.room ≡ index.old.room }
{
    unfile(entries, ranks, arrived, at);
    index.take(tid);
    take_out(entries, at);
}

// The entry there is to have this priority. The answer is where its rank stands then, as far as that is known.
#[inline(always)]
fn refile(
    entries: &VecDeque<Entry>,
    ranks: &mut VecDeque<Key>,
    arrived: &mut VecDeque<Key>,
    at: usize,
    after: &Entry,
) -> usize
    requires sorted { IsSortedOut entries.now.items ranks.old.items arrived.old.items }
    requires within { at < length entries.now.items }
    requires same_thing { after.now.what ≡ (slice_index_or entries.now.items at after.now).what }
    requires same_arrival { after.now.arrival
        ≡ (slice_index_or entries.now.items at after.now).arrival }
    requires ranks_fit { length entries.now.items ≤ deque_capacity ranks.old }
    requires arrived_fit { length entries.now.items ≤ deque_capacity arrived.old }
    ensures sorted { (n : ℕ) → IsSortedOut
        (slice_set entries.now.items at (record after.now { filed = n })) ranks.new.items
        arrived.new.items }
    ensures rank_room { deque_capacity ranks.old ≤ deque_capacity ranks.new }
    ensures arrived_room { deque_capacity arrived.old ≤ deque_capacity arrived.new }
{
    if ranks.is_empty() && entries.len() == 1 {
        return 0;
    }
    sort_out(entries, ranks, arrived);
    keys::change(ranks, after.filed, rank_of(&entries[at]), rank_of(after))
}

// The entry there has this priority from now on.
#[inline(never)]
pub fn prioritize(
    entries: &mut VecDeque<Entry>,
    ranks: &mut VecDeque<Key>,
    arrived: &mut VecDeque<Key>,
    at: usize,
    prio: u32,
)
    requires sorted { IsSortedOut entries.old.items ranks.old.items arrived.old.items }
    requires within { at < length entries.old.items }
    requires ranks_fit { length entries.old.items ≤ deque_capacity ranks.old }
    requires arrived_fit { length entries.old.items ≤ deque_capacity arrived.old }
    ensures changed { IsPrioritized at prio entries.old.items entries.new.items }
    ensures sorted { IsSortedOut entries.new.items ranks.new.items arrived.new.items }
    ensures room { deque_capacity entries.new ≡ deque_capacity entries.old }
    ensures rank_room { deque_capacity ranks.old ≤ deque_capacity ranks.new }
    ensures arrived_room { deque_capacity arrived.old ≤ deque_capacity arrived.new }
{
    let before = entries[at];
    if before.prio == prio {
        return;
    }
    let after = Entry { prio, ..before };
    let filed = refile(entries, ranks, arrived, at, &after);
    entries[at] = Entry { filed, ..after };
}

// A number for the next arrival, greater than all that were given.
pub fn next_arrival(
    entries: &mut VecDeque<Entry>,
    ranks: &mut VecDeque<Key>,
    arrived: &mut VecDeque<Key>,
    index: &mut Index,
) -> u64
    requires once { IsOnce entries.old.items }
    requires indexed { IsIndexed entries.old.items ranks.old.items arrived.old.items }
    requires known { IsKnown entries.old.items index.old }
    requires ranks_fit { length entries.old.items ≤ deque_capacity ranks.old }
    requires arrived_fit { length entries.old.items ≤ deque_capacity arrived.old }
    requires cells { length entries.old.items ≤ width_of index.old }
    requires room { width_of index.old ≤ index.old.room }
    ensures same { map waiting_of entries.new.items ≡ map waiting_of entries.old.items }
    ensures indexed { IsIndexed entries.new.items ranks.new.items arrived.new.items }
    ensures known { IsKnown entries.new.items index.new }
    ensures later { AllByRecursion (λ n. n < result) (arrivals entries.new.items) }
    ensures room { deque_capacity entries.new ≡ deque_capacity entries.old }
    ensures rank_room { deque_capacity ranks.old ≤ deque_capacity ranks.new }
    ensures arrived_room { deque_capacity arrived.old ≤ deque_capacity arrived.new }
    ensures width { width_of index.new ≡ width_of index.old }
    ensures index_room { index.new.room ≡ index.old.room }
{
    let last = match entries.back() {
        Some(entry) => entry.arrival,
        None => return 0,
    };
    if last < u64::MAX {
        return last + 1;
    }
    renumber(entries);
    file(entries, ranks, arrived);
    index.clear();
    file_threads(entries, index);
    entries.len() as u64
}
