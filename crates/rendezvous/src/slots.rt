// Where letters lie, in the order of their sending. A letter that goes leaves its slot empty.
ghost use Rattle.std.specs.Prelude.{[], ◌∷◌, ◌++◌, ◌≡◌, ◌<◌, None, Some, IfOk, is_some, length, option_map, slice_set, vec_capacity};
ghost use Rattle.std.specs.List.{filter};
ghost use Rattle.std.specs.Result.{result_err};
ghost use Rattle.lwp_types.specs.Messages.{as_received};
ghost use Rattle.lwp_types.specs.State.{passes};
ghost use Rattle.rendezvous.specs.MessageTable.{refusal};
ghost use Rattle.rendezvous.specs.Slots.{IsEmptied, is_held_by, is_unread_by, letter_if, slot_at};

use lwp_types::{Letter, LwpErr, Tid};
use std::alloc::AllocError;

// One letter more, the last.
pub fn push<'s>(slots: &mut Vec<Option<Letter<'s>>>, letter: Letter<'s>)
    requires { length slots.old.items < vec_capacity slots.old }
    ensures items { slots.new.items ≡ slots.old.items ++ Some letter.entry ∷ [] }
    ensures capacity { vec_capacity slots.new ≡ vec_capacity slots.old }
{
    slots.push_reserved(Some(letter));
}

// The same letter, if there is one.
fn letter_again<'s>(slot: &Option<Letter<'s>>) -> Option<Letter<'s>>
    ensures { result ≡ slot.now }
{
    match slot {
        Some(letter) => Some(letter.again()),
        None => None,
    }
}

/// The same slots in memory of their own, and as much room.
pub fn again<'s>(slots: &Vec<Option<Letter<'s>>>) -> Result<Vec<Option<Letter<'s>>>, AllocError>
    ensures items { IfOk result (λ copy. copy.items ≡ slots.now.items) }
    ensures room { IfOk result (λ copy. vec_capacity copy ≡ vec_capacity slots.now) }
{
    let mut copy = Vec::with_capacity(*slots.allocator(), slots.capacity())?;
    for slot in slots.iter() {
        copy.push_reserved(letter_again(slot));
    }
    Ok(copy)
}

// The slot is empty from now on; the last one goes.
pub fn empty(slots: &mut Vec<Option<Letter>>, slot: usize)
    requires { slot < length slots.old.items }
    ensures emptied { IsEmptied slots.old.items slots.new.items slot }
    ensures capacity { vec_capacity slots.new ≡ vec_capacity slots.old }
{
    let last = slots.len() - 1;
    if slot == last {
        slots.truncate(last);
    } else {
        slots[slot] = None;
    }
}

// The empty slots go; the others keep their order.
pub fn close_up(slots: &mut Vec<Option<Letter>>)
    ensures items { slots.new.items ≡ filter is_some slots.old.items }
    ensures capacity { vec_capacity slots.new ≡ vec_capacity slots.old }
{
    slots.retain(|slot| slot.is_some());
}

// Whether the letter there is for the thread, and nobody has received it.
pub fn is_unread_by(slots: &Vec<Option<Letter>>, slot: usize, to: Tid) -> bool
    requires { slot < length slots.now.items }
    ensures { result ≡ passes (is_unread_by to) (slot_at slots.now.items slot) }
{
    match &slots[slot] {
        Some(letter) => letter.to == to && !letter.received,
        None => false,
    }
}

// Who sent the letter there.
pub fn sender_at(slots: &Vec<Option<Letter>>, slot: usize) -> Option<Tid>
    requires { slot < length slots.now.items }
    ensures { result ≡ option_map (λ letter. letter.from) (slot_at slots.now.items slot) }
{
    match &slots[slot] {
        Some(letter) => Some(letter.from),
        None => None,
    }
}

// The letter there counts as received.
pub fn receive<'s>(slots: &mut Vec<Option<Letter<'s>>>, slot: usize) -> Option<Letter<'s>>
    requires { slot < length slots.old.items }
    ensures value { result ≡ option_map as_received (slot_at slots.old.items slot) }
    ensures items { slots.new.items
        ≡ slice_set slots.old.items slot (option_map as_received (slot_at slots.old.items slot)) }
    ensures capacity { vec_capacity slots.new ≡ vec_capacity slots.old }
{
    match &mut slots[slot] {
        Some(letter) => {
            letter.received = true;
            Some(letter.again())
        }
        None => None,
    }
}

// Whether the thread may reply so to the letter there.
pub fn check(slots: &Vec<Option<Letter>>, slot: usize, to: Tid, len: usize) -> Result<(), LwpErr>
    requires { slot < length slots.now.items }
    ensures { result_err result
        ≡ refusal (letter_if (is_held_by to) (slot_at slots.now.items slot)) len }
{
    match &slots[slot] {
        Some(letter) if letter.to == to && letter.received => {
            if len > usize::from(letter.room) {
                Err(LwpErr::InvalidArg)
            } else {
                Ok(())
            }
        }
        _ => Err(LwpErr::NoWait),
    }
}
