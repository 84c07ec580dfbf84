// Where locks lie, in the order of their acquisition, and what links those of one thread. A lock that is given up leaves its slot
// empty, or takes it along where it is the last.
ghost use Rattle.std.specs.Prelude.{◌≡◌, ◌<◌, ◌≤◌, is_some, length, option_map, slice_set, vec_capacity};
ghost use Rattle.std.specs.List.{filter};
ghost use Rattle.lwp_types.specs.MonitorRelease.{is_owned_by};
ghost use Rattle.monitors.specs.Slots.{AreLinked, IsLastIn, LeadsOn, deeper, link_at, slot_at};

use lwp_types::{Lock, Tid};

/// Whose lock a slot was made for, and the slot before it that was made for a lock of the same thread.
#[derive(Clone, Copy)]
pub struct Link {
    pub owner: Tid,
    pub below: Option<usize>,
}

// The lock in the slot.
#[inline(always)]
pub fn lock_at(slots: &[Option<Lock>], slot: usize) -> Option<Lock>
    requires { slot < length slots.now }
    ensures { result ≡ slot_at slots.now slot }
{
    slots[slot]
}

// The link of the slot.
#[inline(always)]
pub fn link_of(links: &[Link], slot: usize) -> Link
    requires { slot < length links.now }
    ensures { result ≡ link_at links.now slot }
{
    links[slot]
}

// The lock in the slot is at this depth.
#[inline(always)]
pub fn deepen(slots: &mut Vec<Option<Lock>>, slot: usize, depth: u32)
    requires { slot < length slots.old.items }
    ensures items { slots.new.items
        ≡ slice_set slots.old.items slot (option_map (deeper depth) (slot_at slots.old.items slot)) }
    ensures capacity { vec_capacity slots.new ≡ vec_capacity slots.old }
{
    if let Some(lock) = &mut slots[slot] {
        lock.depth = depth;
    }
}

// The empty slots go; the others keep their order.
pub fn close_up(slots: &mut Vec<Option<Lock>>)
    ensures items { slots.new.items ≡ filter is_some slots.old.items }
    ensures capacity { vec_capacity slots.new ≡ vec_capacity slots.old }
{
    slots.retain(|slot| slot.is_some());
}

// The last lock of the owner before the end: the way leads to it over slots that are empty by now.
pub fn last_on(
    slots: &[Option<Lock>],
    links: &[Link],
    way: Option<usize>,
    end: usize,
    owner: Tid,
) -> Option<usize>
    requires linked { AreLinked slots.now links.now }
    requires leads { LeadsOn owner slots.now links.now end way }
    requires within { end ≤ length links.now }
    ensures { IsLastIn (is_owned_by owner) slots.now end result }
{
    let slot = way?;
    if lock_at(slots, slot).is_some() {
        return Some(slot);
    }
    last_on(slots, links, link_of(links, slot).below, slot, owner)
}
