// The letters in their slots and in the directory: which one is meant, and what becomes of it.
ghost use Rattle.std.specs.Prelude.{[], ◌∷◌, ◌++◌, ◌≡◌, ◌<◌, ◌≤◌, ◌^◌, ◌&&◌, IfOk, OnOk, is_some, length, option_map, true, vec_capacity};
ghost use Rattle.lwp_types.specs.Messages.{as_received, is_letter_of, is_open, is_to, letters_of, senders_to, without_letter};
ghost use Rattle.lwp_types.specs.State.{passes};
ghost use Rattle.rendezvous.specs.Kept.{IsTied};
ghost use Rattle.rendezvous.specs.MessageTable.{with_found_received};
ghost use Rattle.rendezvous.specs.Slots.{IsFirstIn, slot_at};
ghost use Rattle.lists.specs.Living.{living};

use crate::directory::Directory;
use crate::slots;
use lwp_types::{IdList, Letter, NoMemory, Sequence, Tid};
use std::alloc::Global;

// Where the letter lies that the thread receives next.
pub fn next_unread(
    slots: &Vec<Option<Letter>>,
    directory: &Directory,
    to: Tid,
    from: Option<Tid>,
) -> Option<usize>
    requires { IsTied slots.now.items directory.now (vec_capacity slots.now) }
    ensures { IsFirstIn (λ letter. is_to to letter && is_open from letter) slots.now.items result }
{
    let Some(sender) = from else {
        return directory.first_unread(to);
    };
    let slot = directory.slot_of(sender)?;
    if slots::is_unread_by(slots, slot, to) {
        Some(slot)
    } else {
        None
    }
}

// The letter in the slot counts as received.
pub fn receive<'s>(
    slots: &mut Vec<Option<Letter<'s>>>,
    directory: &mut Directory,
    slot: usize,
) -> Option<Letter<'s>>
    requires tied { IsTied slots.old.items directory.old (vec_capacity slots.old) }
    requires there { is_some (slot_at slots.old.items slot) ≡ true }
    ensures value { result ≡ option_map as_received (slot_at slots.old.items slot) }
    ensures tied { IsTied slots.new.items directory.new (vec_capacity slots.new) }
    ensures letters { living slots.new.items
        ≡ with_found_received (slot_at slots.old.items slot) (living slots.old.items) }
    ensures width { directory.new.width ≡ directory.old.width }
{
    directory.receive(slot);
    slots::receive(slots, slot)
}

// The sender's letter, which lies in the slot, goes.
pub fn remove(slots: &mut Vec<Option<Letter>>, directory: &mut Directory, slot: usize, from: Tid)
    requires tied { IsTied slots.old.items directory.old (vec_capacity slots.old) }
    requires its { passes (is_letter_of from) (slot_at slots.old.items slot) ≡ true }
    ensures tied { IsTied slots.new.items directory.new (vec_capacity slots.new) }
    ensures letters { living slots.new.items ≡ without_letter from (living slots.old.items) }
    ensures width { directory.new.width ≡ directory.old.width }
{
    directory.take(slot, from);
    slots::empty(slots, slot);
}

// The empty slots go, and the letters are filed anew. This is rare, and stands apart.
#[inline(never)]
fn pack(slots: &mut Vec<Option<Letter>>, directory: &mut Directory)
    requires tied { IsTied slots.old.items directory.old (vec_capacity slots.old) }
    ensures tied { IsTied slots.new.items directory.new (vec_capacity slots.new) }
    ensures letters { living slots.new.items ≡ living slots.old.items }
    ensures closed { length slots.new.items ≡ length (living slots.old.items) }
    ensures used { directory.new.used ≤ length slots.new.items }
    ensures width { directory.new.width ≡ directory.old.width }
{
    slots::close_up(slots);
    directory.clear();
    directory.file(slots);
}

// Makes a slot for one letter more: where there is none left, the empty slots go.
fn make_room(slots: &mut Vec<Option<Letter>>, directory: &mut Directory)
    requires tied { IsTied slots.old.items directory.old (vec_capacity slots.old) }
    requires few { length (living slots.old.items) < directory.old.width }
    ensures tied { IsTied slots.new.items directory.new (vec_capacity slots.new) }
    ensures letters { living slots.new.items ≡ living slots.old.items }
    ensures slot { length slots.new.items < directory.new.width }
    ensures list { directory.new.used < directory.new.width }
    ensures width { directory.new.width ≡ directory.old.width }
{
    if !directory.has_room(slots.len()) {
        pack(slots, directory);
    }
}

// One letter more, after the others.
pub fn post<'s>(slots: &mut Vec<Option<Letter<'s>>>, directory: &mut Directory, letter: Letter<'s>)
    requires tied { IsTied slots.old.items directory.old (vec_capacity slots.old) }
    requires few { length (living slots.old.items) < directory.old.width }
    requires new { letters_of (living slots.old.items) letter.from ≡ 0 }
    ensures tied { IsTied slots.new.items directory.new (vec_capacity slots.new) }
    ensures letters { living slots.new.items ≡ living slots.old.items ++ letter.entry ∷ [] }
    ensures width { directory.new.width ≡ directory.old.width }
{
    make_room(slots, directory);
    directory.add(slots.len(), &letter);
    slots::push(slots, letter);
}

// Slots for so many letters.
pub fn widen(
    slots: &mut Vec<Option<Letter>>,
    directory: &mut Directory,
    width: usize,
) -> Result<(), NoMemory>
    requires tied { IsTied slots.old.items directory.old (vec_capacity slots.old) }
    requires more { directory.old.width ≤ width }
    requires most { width ≤ 2 ^ 62 }
    ensures tied { IsTied slots.new.items directory.new (vec_capacity slots.new) }
    ensures letters { slots.new.items ≡ slots.old.items }
    ensures more { directory.old.width ≤ directory.new.width }
    ensures ok { OnOk result (width ≤ directory.new.width) }
{
    let mut wider = Directory::with_width(*slots.allocator(), width)?;
    slots.reserve(width - slots.len())?;
    wider.file(slots);
    *directory = wider;
    Ok(())
}

// Who sent the letters to the thread.
pub fn senders_to(
    alloc: Global,
    slots: &Vec<Option<Letter>>,
    directory: &Directory,
    to: Tid,
) -> Result<IdList, NoMemory>
    requires { IsTied slots.now.items directory.now (vec_capacity slots.now) }
    ensures { IfOk result (λ ids. ids ≡ senders_to (living slots.now.items) to) }
{
    let mut ids = IdList::new(alloc);
    let Some(list) = directory.list_of(to) else {
        return Ok(ids);
    };
    let mut next = directory.held.first(list);
    for _letter in 0..slots.len() {
        let Some(key) = next else {
            return Ok(ids);
        };
        if let Some(from) = slots::sender_at(slots, key - directory.width) {
            ids.push(from.number)?;
        }
        next = directory.held.behind(list, key);
    }
    Ok(ids)
}

// A copy of the letters.
pub fn copied<'s>(
    alloc: Global,
    slots: &[Option<Letter<'s>>],
) -> Result<Sequence<Letter<'s>>, NoMemory>
    ensures { IfOk result (λ letters. letters ≡ living slots.now) }
{
    let mut letters = Sequence::new(alloc);
    for slot in slots {
        if let Some(letter) = slot {
            letters.push(letter.again())?;
        }
    }
    Ok(letters)
}
