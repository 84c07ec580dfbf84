// The search.
ghost use Rattle.std.specs.Prelude.{◌≡◌, ◌<◌, ◌≤◌, ◌-◌, ◌^◌, ◌+◌, ◌++◌, ◌∷◌, ◌&&◌, ◌==◌, [], ℕ, List, None, Some, true, false, IfOk, IfSome, MatchOption, OnOk, is_some, length, max, min, nat_lt, not, slice_get};
ghost use Rattle.search.specs.Found.{HasKinds, HasLasts, HasNoMark, HasParentsBelow, IsComplete, IsDistinct, IsFirst, IsFirstMark, IsInOrder, IsNearestMark, IsShortest, IsSound, LeadsOut, cores_of, is_stopped, steps_from};
ghost use Rattle.search.specs.Known.{AreOf, AreStanding, Grows, IsSettled, Knows, LeadsTo, MayJoin, Settles, first_mark};
ghost use Rattle.search.specs.Seen.{Adds};

use crate::found::path_to;
use crate::machine::{Machine, go};
use crate::seen::Seen;
use crate::{Found, NoMemory, Place, Row};
use std::alloc::Global;
use std::collections::VecDeque;

/// What a search may take: so many cores at most, but the first one always, and at one time so many copies of the machine that wait
/// at cores to be gone from. A core that no copy waits at is gone to anew, along its path.
#[derive(Clone, Copy, Debug, PartialEq, Eq)]
pub struct Limits {
    pub cores: usize,
    pub copies: usize,
    /// Whether the search ends with the core from which the first step leads that is looked for.
    pub until: bool,
}

// What was found so far.
#[derive(Drop)]
struct Search<M: Machine> {
    limits: Limits,
    rows: Vec<Row>,
    lasts: Vec<Option<usize>>,
    seen: Seen,
    // the key of the core that is looked at
    key: Vec<u8>,
    // copies at cores that are still to be gone from, each with the core's number, in rising order
    waiting: VecDeque<(usize, M)>,
    marked: Option<Place>,
    // whether there was room for all that steps led to
    whole: bool,
}

// Adds the core that the machine stands at, found by this step from that core. Answers its number.
fn add<M: Machine>(
    search: &mut Search<M>,
    machine: M,
    parent: usize,
    step: u32,
) -> Result<usize, NoMemory>
    ensures number { IfOk result (λ number. number ≡ length search.old.rows.items) }
    ensures rows { OnOk result (search.new.rows.items ≡ search.old.rows.items
        ++ record { parent = parent; step = step; kind = (M.moves machine).kind (M.core machine) } ∷ []) }
    ensures seen { OnOk result (Adds search.old.seen search.new.seen search.old.key.items (length search.old.rows.items)) }
    ensures joins { OnOk result (MayJoin search.old.waiting.items search.new.waiting.items (length search.old.rows.items, machine)) }
    ensures limits { OnOk result (search.new.limits ≡ search.old.limits) }
    ensures lasts { OnOk result (search.new.lasts.items ≡ search.old.lasts.items) }
    ensures marked { OnOk result (search.new.marked ≡ search.old.marked) }
    ensures whole { OnOk result (search.new.whole ≡ search.old.whole) }
{
    let kind = machine.kind()?;
    let number = search.rows.len();
    search.seen.put(&search.key, number)?;
    search.rows.push(Row { parent, step, kind })?;
    if search.waiting.len() < search.limits.copies {
        search.waiting.push_back((number, machine))?;
    }
    Ok(number)
}

// The first step that is looked for, once this step was tried as well.
fn mark(marked: Option<Place>, is_marked: bool, core: usize, step: u32) -> Option<Place>
    ensures { result ≡ first_mark marked is_marked core step }
{
    if is_marked && marked.is_none() {
        Some(Place { core, step })
    } else {
        marked
    }
}

// Goes this step with a machine that stands at the core of this number, and adds the core that it comes to if it is a
// further one and there is room for it. Answers the number of the core, unless there was no room.
fn try_step<M: Machine>(
    search: &mut Search<M>,
    machine: M,
    at: usize,
    step: u32,
) -> Result<Option<usize>, NoMemory>
    requires knows { Knows (M.moves machine) search.old.rows.items search.old.seen search.old.whole search.old.marked search.old.limits.cores at step }
    requires here { slice_get (cores_of (M.moves machine) search.old.rows.items) at ≡ Some (M.core machine) }
    requires step { step < length ((M.moves machine).after (M.core machine)) }
    requires standing { AreStanding (M.moves machine) M.moves M.core search.old.rows.items search.old.waiting.items }
    ensures knows { OnOk result (Knows (M.moves machine) search.new.rows.items search.new.seen search.new.whole search.new.marked
        search.old.limits.cores at (step + 1)) }
    ensures grows { OnOk result (Grows (M.moves machine) search.old.limits.cores search.old.rows.items search.new.rows.items) }
    ensures standing { OnOk result (AreStanding (M.moves machine) M.moves M.core search.new.rows.items search.new.waiting.items) }
    ensures leads { IfOk result (LeadsTo (M.moves machine) search.new.rows.items search.old.limits.cores (M.core machine) step) }
    ensures limits { OnOk result (search.new.limits ≡ search.old.limits) }
    ensures lasts { OnOk result (search.new.lasts.items ≡ search.old.lasts.items) }
{
    let mut machine = machine;
    let is_marked = machine.step(step)?;
    search.marked = mark(search.marked, is_marked, at, step);
    machine.key(&mut search.key)?;
    if let Some(number) = search.seen.find(&search.key) {
        return Ok(Some(number));
    }
    if search.rows.len() >= search.limits.cores {
        search.whole = false;
        return Ok(None);
    }
    let number = add(search, machine, at, step)?;
    Ok(Some(number))
}

// Tries a step of a copy of the machine.
fn try_copy<M: Machine>(
    search: &mut Search<M>,
    here: &M,
    at: usize,
    step: u32,
) -> Result<(), NoMemory>
    requires knows { Knows (M.moves here.now) search.old.rows.items search.old.seen search.old.whole search.old.marked search.old.limits.cores at step }
    requires here { slice_get (cores_of (M.moves here.now) search.old.rows.items) at ≡ Some (M.core here.now) }
    requires step { step < length ((M.moves here.now).after (M.core here.now)) }
    requires standing { AreStanding (M.moves here.now) M.moves M.core search.old.rows.items search.old.waiting.items }
    ensures knows { OnOk result (Knows (M.moves here.now) search.new.rows.items search.new.seen search.new.whole search.new.marked
        search.old.limits.cores at (step + 1)) }
    ensures grows { OnOk result (Grows (M.moves here.now) search.old.limits.cores search.old.rows.items search.new.rows.items) }
    ensures standing { OnOk result (AreStanding (M.moves here.now) M.moves M.core search.new.rows.items search.new.waiting.items) }
    ensures limits { OnOk result (search.new.limits ≡ search.old.limits) }
    ensures lasts { OnOk result (search.new.lasts.items ≡ search.old.lasts.items) }
{
    let copy = here.again()?;
    try_step(search, copy, at, step)?;
    Ok(())
}

// Tries all steps from the core of this number, at which the machine stands. Answers to which core the last leads.
fn try_each<M: Machine>(
    search: &mut Search<M>,
    here: M,
    at: usize,
    count: u32,
) -> Result<Option<usize>, NoMemory>
    requires knows { Knows (M.moves here) search.old.rows.items search.old.seen search.old.whole search.old.marked search.old.limits.cores at 0 }
    requires here { slice_get (cores_of (M.moves here) search.old.rows.items) at ≡ Some (M.core here) }
    requires count { count ≡ length ((M.moves here).after (M.core here)) }
    requires some { 0 < count }
    requires standing { AreStanding (M.moves here) M.moves M.core search.old.rows.items search.old.waiting.items }
    ensures knows { OnOk result (Knows (M.moves here) search.new.rows.items search.new.seen search.new.whole search.new.marked
        search.old.limits.cores at count) }
    ensures grows { OnOk result (Grows (M.moves here) search.old.limits.cores search.old.rows.items search.new.rows.items) }
    ensures standing { OnOk result (AreStanding (M.moves here) M.moves M.core search.new.rows.items search.new.waiting.items) }
    ensures leads { IfOk result (LeadsTo (M.moves here) search.new.rows.items search.old.limits.cores (M.core here) (count - 1)) }
    ensures limits { OnOk result (search.new.limits ≡ search.old.limits) }
    ensures lasts { OnOk result (search.new.lasts.items ≡ search.old.lasts.items) }
{
    for step in 0..count - 1 {
        try_copy(search, &here, at, step)?;
    }
    let last = try_step(search, here, at, count - 1)?;
    Ok(last)
}

// Tries all steps from the core of this number, at which the machine stands, if there are any. Answers to which core the last leads.
fn try_all<M: Machine>(
    search: &mut Search<M>,
    here: M,
    at: usize,
    count: u32,
) -> Result<Option<usize>, NoMemory>
    requires knows { Knows (M.moves here) search.old.rows.items search.old.seen search.old.whole search.old.marked search.old.limits.cores at 0 }
    requires here { slice_get (cores_of (M.moves here) search.old.rows.items) at ≡ Some (M.core here) }
    requires count { count ≡ length ((M.moves here).after (M.core here)) }
    requires standing { AreStanding (M.moves here) M.moves M.core search.old.rows.items search.old.waiting.items }
    ensures knows { OnOk result (Knows (M.moves here) search.new.rows.items search.new.seen search.new.whole search.new.marked
        search.old.limits.cores (at + 1) 0) }
    ensures grows { OnOk result (Grows (M.moves here) search.old.limits.cores search.old.rows.items search.new.rows.items) }
    ensures standing { OnOk result (AreStanding (M.moves here) M.moves M.core search.new.rows.items search.new.waiting.items) }
    ensures settled { IfOk result (IsSettled (M.moves here) search.new.rows.items search.old.limits.cores (M.core here)) }
    ensures limits { OnOk result (search.new.limits ≡ search.old.limits) }
    ensures lasts { OnOk result (search.new.lasts.items ≡ search.old.lasts.items) }
{
    if count == 0 {
        return Ok(None);
    }
    let last = try_each(search, here, at, count)?;
    Ok(last)
}

// Tries all steps from the core of this number, at which the machine stands, and keeps where the last leads.
fn try_steps<M: Machine>(
    search: &mut Search<M>,
    here: M,
    at: usize,
    count: u32,
) -> Result<(), NoMemory>
    requires knows { Knows (M.moves here) search.old.rows.items search.old.seen search.old.whole search.old.marked search.old.limits.cores at 0 }
    requires here { slice_get (cores_of (M.moves here) search.old.rows.items) at ≡ Some (M.core here) }
    requires count { count ≡ length ((M.moves here).after (M.core here)) }
    requires standing { AreStanding (M.moves here) M.moves M.core search.old.rows.items search.old.waiting.items }
    ensures knows { OnOk result (Knows (M.moves here) search.new.rows.items search.new.seen search.new.whole search.new.marked
        search.old.limits.cores (at + 1) 0) }
    ensures grows { OnOk result (Grows (M.moves here) search.old.limits.cores search.old.rows.items search.new.rows.items) }
    ensures standing { OnOk result (AreStanding (M.moves here) M.moves M.core search.new.rows.items search.new.waiting.items) }
    ensures settles { OnOk result (Settles (M.moves here) search.new.rows.items search.old.limits.cores search.old.lasts.items
        search.new.lasts.items (M.core here)) }
    ensures limits { OnOk result (search.new.limits ≡ search.old.limits) }
{
    let last = try_all(search, here, at, count)?;
    search.lasts.push(last)?;
    Ok(())
}

// The copy that waits at the core of this number, if the first that waits does.
fn take_copy<M: Machine>(waiting: &mut VecDeque<(usize, M)>, number: usize) -> Option<M>
    ensures first { IfSome result (λ copy. slice_get waiting.old.items 0 ≡ Some (number, copy)) }
    ensures rest { AreOf waiting.old.items waiting.new.items }
{
    match waiting.front() {
        Some(first) if first.0 == number => {}
        _ => return None,
    }
    let (_, copy) = waiting.pop_front()?;
    Some(copy)
}

// A machine at the core of this number: the copy that waits there, or one that goes there.
fn stand_at<M: Machine>(
    alloc: Global,
    machine: &M,
    rows: &[Row],
    waiting: &mut VecDeque<(usize, M)>,
    at: usize,
) -> Result<M, NoMemory>
    requires begins { M.core machine.now ≡ (M.moves machine.now).first }
    requires sound { IsSound (M.moves machine.now) rows.now }
    requires below { HasParentsBelow rows.now }
    requires within { at < length rows.now }
    requires standing { AreStanding (M.moves machine.now) M.moves M.core rows.now waiting.old.items }
    ensures same { IfOk result (λ here. M.moves here ≡ M.moves machine.now) }
    ensures here { IfOk result (λ here. slice_get (cores_of (M.moves machine.now) rows.now) at ≡ Some (M.core here)) }
    ensures rest { AreOf waiting.old.items waiting.new.items }
{
    if let Some(copy) = take_copy(waiting, at) {
        return Ok(copy);
    }
    let path = path_to(alloc, rows, at)?;
    let here = go(machine, &path)?;
    Ok(here)
}

// Whether there is a core of this number to be gone from, and the search doesn't end before it.
fn goes_on<M: Machine>(search: &Search<M>, until: bool, at: usize) -> bool
    ensures { result ≡ (nat_lt at (length search.now.rows.items) && not (is_stopped until search.now.marked)) }
{
    at < search.rows.len() && !(until && search.marked.is_some())
}

/// Searches breadth first from where the machine stands, which is its first core. The steps from each core are taken in order.
///
/// Once there are as many cores as allowed, these are all, and a step to any other is tried and not followed. A step costs a copy of
/// the machine, one step of it and its key, looked up in a tree; a core that no copy waited at costs its path once more. The tree
/// compares whole keys, so no choice of keys makes it slow, as one of keys with the same hash would.
pub fn explore<M: Machine>(alloc: Global, machine: &M, limits: Limits) -> Result<Found, NoMemory>
    requires begins { M.core machine.now ≡ (M.moves machine.now).first }
    ensures sound { IfOk result (λ found. IsSound (M.moves machine.now) found.rows.items) }
    ensures first { IfOk result (λ found. IsFirst (M.moves machine.now) found.rows.items) }
    ensures shortest { IfOk result (λ found. IsShortest (M.moves machine.now) found.rows.items) }
    ensures in_order { IfOk result (λ found. IsInOrder found.rows.items) }
    ensures below { IfOk result (λ found. HasParentsBelow found.rows.items) }
    ensures distinct { IfOk result (λ found. IsDistinct (cores_of (M.moves machine.now) found.rows.items)) }
    ensures kinds { IfOk result (λ found. HasKinds (M.moves machine.now) found.rows.items) }
    ensures complete { IfOk result (λ found. found.whole ≡ true → IsComplete (M.moves machine.now) (cores_of (M.moves machine.now) found.rows.items)) }
    ensures cut { IfOk result (λ found. is_stopped limits.until found.marked ≡ false → found.whole ≡ false
        → LeadsOut (M.moves machine.now) (cores_of (M.moves machine.now) found.rows.items)) }
    ensures full { IfOk result (λ found. is_stopped limits.until found.marked ≡ false → found.whole ≡ false → limits.cores ≤ length found.rows.items) }
    ensures few { IfOk result (λ found. length found.rows.items ≤ max 1 limits.cores) }
    ensures gone { IfOk result (λ found. is_stopped limits.until found.marked ≡ false → length found.lasts.items ≡ length found.rows.items) }
    ensures tried { IfOk result (λ found. found.tried
        ≡ min (steps_from (M.moves machine.now) (cores_of (M.moves machine.now) found.rows.items) (length found.lasts.items)) (2 ^ 64 - 1)) }
    ensures lasts { IfOk result (λ found. HasLasts (M.moves machine.now) (cores_of (M.moves machine.now) found.rows.items) found.lasts.items) }
    ensures marked { IfOk result (λ found. MatchOption found.marked
        (HasNoMark (M.moves machine.now) (cores_of (M.moves machine.now) found.rows.items))
        (IsFirstMark (M.moves machine.now) (cores_of (M.moves machine.now) found.rows.items))) }
    ensures nearest { IfOk result (λ found. IfSome found.marked (IsNearestMark (M.moves machine.now) found.rows.items)) }
{
    let mut search = begin(alloc, machine, limits)?;
    let mut tried: u64 = 0;
    let mut at = 0;
    while goes_on(&search, limits.until, at) {
        let here = stand_at(alloc, machine, &search.rows, &mut search.waiting, at)?;
        let count = here.steps()?;
        tried = tried.saturating_add(u64::from(count));
        try_steps(&mut search, here, at, count)?;
        at += 1;
    }
    Ok(found(search, tried))
}

// A search that has found the first core.
fn begin<M: Machine>(alloc: Global, machine: &M, limits: Limits) -> Result<Search<M>, NoMemory>
    requires begins { M.core machine.now ≡ (M.moves machine.now).first }
    ensures knows { IfOk result (λ search. Knows (M.moves machine.now) search.rows.items search.seen search.whole search.marked limits.cores 0 0) }
    ensures standing { IfOk result (λ search. AreStanding (M.moves machine.now) M.moves M.core search.rows.items search.waiting.items) }
    ensures limits { IfOk result (λ search. search.limits ≡ limits) }
    ensures lasts { IfOk result (λ search. search.lasts.items ≡ []) }
{
    let mut search = Search {
        limits,
        rows: Vec::new(alloc),
        lasts: Vec::new(alloc),
        seen: Seen::new(alloc),
        key: Vec::new(alloc),
        waiting: VecDeque::new(alloc),
        marked: None,
        whole: true,
    };
    machine.key(&mut search.key)?;
    let first = machine.again()?;
    add(&mut search, first, 0, 0)?;
    Ok(search)
}

// The end of a search.
fn found<M: Machine>(search: Search<M>, tried: u64) -> Found
    ensures rows { result.rows.items ≡ search.rows.items }
    ensures whole { result.whole ≡ (search.whole && length search.lasts.items == length search.rows.items) }
    ensures tried { result.tried ≡ tried }
    ensures lasts { result.lasts.items ≡ search.lasts.items }
    ensures marked { result.marked ≡ search.marked }
{
    let Search {
        limits: _,
        rows,
        lasts,
        seen: _,
        key: _,
        waiting: _,
        marked,
        whole,
    } = search;
    let whole = whole && lasts.len() == rows.len();
    Found {
        rows,
        whole,
        tried,
        lasts,
        marked,
    }
}
