// The note of those that wait by name, so that a death goes over those alone that wait for it.
ghost use Rattle.std.specs.Prelude.{◌≡◌, ◌==◌, ◌<◌, ◌≤◌, ◌*◌, ◌+◌, ◌-◌, false, map, length, nat_lt, vec_capacity, IfNone, IfOk, IfSome, IsFalse, IsOk, IsTrue, OnErr, OnOk, Option, ℕ};
ghost use Rattle.death_cleanup.specs.Moves.{pair_with_block};
ghost use Rattle.std.specs.List.{list_any, remove, slice_index_or};
ghost use Rattle.death_cleanup.specs.Named.{AreOrdered, HasNoWaiter, HasWaiter, IsBeforeLast, IsGap, IsNoteOf, after_reserve, are_all_noted, is_before, is_on, is_wait, no_names, run_number, run_of};
ghost use Rattle.death_cleanup.specs.Waits.{first_waiting};
ghost use Rattle.death_cleanup.specs.declared.rows.Awaited.TheVariants as awaited;
ghost use Rattle.stale_ids.specs.Register.{AreRising};

use crate::rows::{Awaited, Kind, NamedWait, wait_of};
use lists::cloned_exactly;
use lwp_types::{Block, NoMemory, Tid};
use stale_ids::Registry;
use std::alloc::Global;
use std::marker::Model;

// How many waits there is room for at first.
const FIRST_PLACES: usize = 16;

/// The threads that wait by name are noted here, and maybe some that wait no longer. There is always room for one more:
/// each birth makes room for two waits, and who waits no longer goes once all of it is taken.
#[derive(Drop)]
pub struct Named {
    // By those that are waited for, by what of them is, and by those that wait: the oldest first.
    waits: Vec<NamedWait>,
    // For how many waits there is memory.
    places: usize,
}

impl Model for Named {
    ghost use Rattle.death_cleanup.specs.Named.{AreOrdered, NameNote};
    ghost use Rattle.std.specs.Prelude.{vec_capacity, ◌≤◌};

    ghost Value = { NameNote };

    ghost view = { λ n. record { waits = n.waits.items; places = n.places } };

    ghost invariant = { λ n. AreOrdered n.waits.items × (n.places ≤ vec_capacity n.waits) × (1 ≤ n.places) };
}

// Whether the wait goes on.
fn goes_on(ids: &Registry<Kind>, wait: &NamedWait) -> bool
    ensures value { result ≡ is_on ids.now.live wait.now }
    ensures rising { AreRising ids.now.live }
{
    match ids.get(wait.tid.number) {
        Some(kind) => kind.waits_for(wait.what, wait.of),
        None => false,
    }
}

// Whether both are waits for the same.
fn are_alike(wait: &NamedWait, other: &NamedWait) -> bool
    ensures { result ≡ (run_of wait.now == run_of other.now) }
{
    wait.of == other.of && wait.what.rank() == other.what.rank()
}

// Whether the one is a wait for somebody older, or for what comes first of the same one.
fn is_earlier(wait: &NamedWait, other: &NamedWait) -> bool
    ensures { result ≡ nat_lt (run_of wait.now) (run_of other.now) }
{
    wait.of.number < other.of.number
        || (wait.of == other.of && wait.what.rank() < other.what.rank())
}

// Whether the one stands before the other.
fn is_before(wait: &NamedWait, other: &NamedWait) -> bool
    ensures { result ≡ is_before (run_of other.now) other.now.tid wait.now }
{
    is_earlier(wait, other) || (are_alike(wait, other) && wait.tid.number < other.tid.number)
}

// Whether the wait would stand after all others.
fn is_after_all(waits: &[NamedWait], wait: &NamedWait) -> bool
    requires { AreOrdered waits.now }
    ensures behind { IsTrue result →
        IsGap (run_of wait.now) wait.now.tid waits.now (length waits.now) }
    ensures before { IsFalse result → IsBeforeLast (run_of wait.now) wait.now.tid waits.now }
{
    match waits.last() {
        Some(last) => is_before(last, wait),
        None => false,
    }
}

// Whether one that doesn't stand after the last would stand after all others.
fn is_after_others(waits: &[NamedWait], wait: &NamedWait) -> bool
    requires ordered { AreOrdered waits.now }
    requires before { IsBeforeLast (run_of wait.now) wait.now.tid waits.now }
    ensures two { IsTrue result → 2 ≤ length waits.now }
    ensures gap { IsTrue result →
        IsGap (run_of wait.now) wait.now.tid waits.now (length waits.now - 1) }
{
    let len = waits.len();
    if len < 2 {
        return false;
    }
    is_before(&waits[len - 2], wait)
}

// Where the wait stands, or would. Who is waited for is often the youngest of those that anybody waits for, and one thread waits for it.
#[inline(always)]
fn gap_of(waits: &[NamedWait], wait: &NamedWait) -> usize
    requires { AreOrdered waits.now }
    ensures { IsGap (run_of wait.now) wait.now.tid waits.now result }
{
    if is_after_all(waits, wait) {
        return waits.len();
    }
    if is_after_others(waits, wait) {
        return waits.len() - 1;
    }
    waits.partition_point(|other| is_before(other, wait))
}

// Whether the wait stands there.
fn is_at(waits: &Vec<NamedWait>, at: usize, wait: &NamedWait) -> bool
    ensures there { IsTrue result →
        IsTrue (list_any (is_wait (run_of wait.now) wait.now.tid) waits.now.items) }
    ensures away { IsFalse result → (d : _) → at < length waits.now.items →
        is_wait (run_of wait.now) wait.now.tid (slice_index_or waits.now.items at d) ≡ false }
{
    match waits.get(at) {
        Some(other) => other.tid == wait.tid && are_alike(other, wait),
        None => false,
    }
}

// The wait there, if it is for the same.
fn waiter_at(waits: &Vec<NamedWait>, at: usize, alike: &NamedWait) -> Option<NamedWait>
    ensures some { IfSome result (λ wait. HasWaiter (run_of alike.now) wait waits.now.items at) }
    ensures none { IfNone result (HasNoWaiter (run_of alike.now) waits.now.items at) }
{
    match waits.get(at) {
        Some(wait) if are_alike(wait, alike) => Some(*wait),
        _ => None,
    }
}

// Takes out the wait that stands there; the last is no move of others.
#[tactic(auto, using(crate::proofs::Orders::remove_last))]
fn take_at(waits: &mut Vec<NamedWait>, at: usize)
    requires { at < length waits.old.items }
    ensures items { waits.new.items ≡ remove waits.old.items at }
    ensures capacity { vec_capacity waits.new ≡ vec_capacity waits.old }
{
    if at + 1 == waits.len() {
        waits.pop();
    } else {
        waits.remove(at);
    }
}

// The oldest of the living that waits for this of the thread or agent, of which the waits begin at this place. Waits that are met and
// go on no longer go, so that each look finds it, or leaves one wait less.
#[inline(always)]
fn first_in(
    waits: &mut Vec<NamedWait>,
    ids: &Registry<Kind>,
    what: Awaited,
    tid: Tid,
    at: usize,
) -> Option<Tid>
    requires ordered { AreOrdered waits.old.items }
    requires noted { IsTrue (are_all_noted waits.old.items ids.now.live) }
    requires start { IsGap (run_number what tid) 0 waits.old.items at }
    ensures value { result ≡ first_waiting what tid ids.now.live }
    ensures ordered { AreOrdered waits.new.items }
    ensures noted { IsTrue (are_all_noted waits.new.items ids.now.live) }
    ensures start { IsGap (run_number what tid) 0 waits.new.items at }
    ensures next { IfNone result (IsGap (run_number what tid + 1) 0 waits.new.items at) }
    ensures capacity { vec_capacity waits.new ≡ vec_capacity waits.old }
{
    let first = NamedWait {
        what,
        of: tid,
        tid: Tid { number: 0 },
    };
    while let Some(wait) = waiter_at(waits, at, &first) {
        if goes_on(ids, &wait) {
            return Some(wait.tid);
        }
        take_at(waits, at);
    }
    None
}

// One wait more, where it belongs, unless it stands there.
fn put_in(waits: &mut Vec<NamedWait>, wait: &NamedWait)
    requires ordered { AreOrdered waits.old.items }
    requires room { length waits.old.items < vec_capacity waits.old }
    ensures ordered { AreOrdered waits.new.items }
    ensures kept { (r n : ℕ) → IsTrue (list_any (is_wait r n) waits.old.items) →
        IsTrue (list_any (is_wait r n) waits.new.items) }
    ensures noted { IsTrue (list_any (is_wait (run_of wait.now) wait.now.tid) waits.new.items) }
    ensures capacity { vec_capacity waits.new ≡ vec_capacity waits.old }
{
    let at = gap_of(waits, wait);
    if is_at(waits, at, wait) {
        return;
    }
    // There is room, so no memory is asked for.
    let _ = waits.insert(at, *wait);
}

// Where all room is taken, those that wait no longer go. No more are left than threads live, which is half of the room at most.
// It stands apart, since it is rare, and `note` is compiled into all that wait.
#[inline(never)]
fn make_room(named: &mut Named, ids: &Registry<Kind>)
    requires { IsNoteOf named.old ids.now.live }
    ensures noted { IsNoteOf named.new ids.now.live }
    ensures room { length named.new.waits < named.new.places }
{
    if named.waits.len() >= named.places {
        named.waits.retain(|wait| goes_on(ids, wait));
    }
}

impl Named {
    /// Nobody waits by name.
    pub fn new(alloc: Global) -> Result<Named, NoMemory>
        ensures { IfOk result (λ named. named ≡ no_names) }
    {
        Ok(Named {
            waits: Vec::with_capacity(alloc, FIRST_PLACES)?,
            places: FIRST_PLACES,
        })
    }

    /// An equal note, in memory of its own.
    pub fn again(&self) -> Result<Named, NoMemory>
        ensures { IfOk result (λ copy. copy ≡ self.now) }
    {
        Ok(Named {
            waits: cloned_exactly(&self.waits)?,
            places: self.places,
        })
    }

    /// Where the memory for the waits comes from.
    pub fn allocator(&self) -> Global {
        *self.waits.allocator()
    }

    /// Makes room for the waits of so many threads, and for as many that go on no longer.
    pub fn reserve(&mut self, threads: usize) -> Result<(), NoMemory>
        ensures ok { OnOk result (self.new ≡ after_reserve self.old threads) }
        ensures err { OnErr result (self.new ≡ self.old) }
        ensures has_room { 2 * threads ≤ self.old.places → IsOk result }
    {
        let before = self.places;
        let Some(places) = threads.checked_mul(2) else {
            return Err(NoMemory);
        };
        if places <= before {
            return Ok(());
        }
        let more = places.saturating_sub(self.waits.len());
        self.waits.reserve(more)?;
        self.places = places;
        Ok(())
    }

    // A thread waits for something of another one, or of an agent.
    fn add(&mut self, wait: &NamedWait)
        requires { length self.old.waits < self.old.places }
        ensures kept { (r n : ℕ) → IsTrue (list_any (is_wait r n) self.old.waits) →
            IsTrue (list_any (is_wait r n) self.new.waits) }
        ensures noted { IsTrue (list_any (is_wait (run_of wait.now) wait.now.tid) self.new.waits) }
        ensures places { self.new.places ≡ self.old.places }
    {
        put_in(&mut self.waits, wait);
    }

    /// Where the waits for a letter of the thread or agent begin, after which those for its death stand.
    #[inline(always)]
    pub fn start_of(&self, tid: Tid) -> usize
        ensures { IsGap (run_number awaited.Letter tid) 0 self.now.waits result }
    {
        let first = NamedWait {
            what: Awaited::Letter,
            of: tid,
            tid: Tid { number: 0 },
        };
        gap_of(&self.waits, &first)
    }

    /// The oldest of the living that waits for this of the thread or agent. It is found among those that wait for just that, which
    /// begin at this place; where nobody does, those that stand next begin there.
    #[inline(always)]
    pub fn first_from(
        &mut self,
        ids: &Registry<Kind>,
        what: Awaited,
        tid: Tid,
        at: usize,
    ) -> Option<Tid>
        requires noted { IsNoteOf self.old ids.now.live }
        requires start { IsGap (run_number what tid) 0 self.old.waits at }
        ensures value { result ≡ first_waiting what tid ids.now.live }
        ensures noted { IsNoteOf self.new ids.now.live }
        ensures start { IsGap (run_number what tid) 0 self.new.waits at }
        ensures next { IfNone result (IsGap (run_number what tid + 1) 0 self.new.waits at) }
    {
        first_in(&mut self.waits, ids, what, tid, at)
    }
}

/// A thread is about to wait so: the note then has it, if that is by name.
#[inline(always)]
pub fn note(named: &mut Named, ids: &Registry<Kind>, tid: Tid, why: &Block)
    requires { IsNoteOf named.old ids.now.live }
    ensures { IsNoteOf named.new (map (pair_with_block tid why.now) ids.now.live) }
{
    let Some(wait) = wait_of(tid, why) else {
        return;
    };
    make_room(named, ids);
    named.add(&wait);
}
