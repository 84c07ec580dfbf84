// The messages.
ghost use Rattle.std.specs.Prelude.{◌≡◌, ◌<◌, ◌≤◌, ◌&&◌, false, length, option_map, IsOk, IfOk, OnOk, OnErr};
ghost use Rattle.std.specs.Result.{result_err};
ghost use Rattle.lwp_types.specs.First.{FindsFirst};
ghost use Rattle.lwp_types.specs.Messages.{as_received, is_open, is_to, next_letter, received_letter, senders_to};
ghost use Rattle.rendezvous.specs.MessageTable.{IsOnePerSender, after_forget, after_pop, after_post, after_reserve, after_take, first_to, has_letter_of, no_messages, refusal};

use crate::directory::Directory;
use crate::letters::{copied, next_unread, post, receive, remove, senders_to, widen};
use crate::slots::{self, check, sender_at};
use lwp_types::{IdList, Letter, LwpErr, NoMemory, Sequence, Tid};
use std::alloc::Global;
use std::marker::Model;

/// Letters that aren't replied to, in the order of their sending: at most one of each sender.
pub struct Mail<'s> {
    slots: Vec<Option<Letter<'s>>>,
    directory: Directory,
    // How many letters there may be with no more memory.
    places: usize,
}

// PROVER: written by hand, so that a function that drops one calls this instead of repeating its proof.
impl<'s> Drop for Mail<'s> {
    fn drop(self) {
        let Mail {
            slots: _,
            directory: _,
            places: _,
        } = self;
    }
}

impl<'s> Model for Mail<'s> {
    ghost use Rattle.std.specs.Prelude.{vec_capacity};
    ghost use Rattle.rendezvous.specs.Kept.{IsKept};
    ghost use Rattle.rendezvous.specs.MessageTable.{MessageTable};
    ghost use Rattle.lists.specs.Living.{living};

    ghost Value = { MessageTable };

    ghost view = { λ m. record { letters = living m.slots.items; places = m.places } };

    ghost invariant = { λ m. IsKept m.slots.items m.directory (vec_capacity m.slots) m.places };
}

// So many places there may be.
const MOST_PLACES: usize = 1 << 60;

impl<'s> Mail<'s> {
    /// No letters, and no places.
    pub fn new(alloc: Global) -> Mail<'s>
        ensures { result ≡ no_messages }
    {
        Mail {
            slots: Vec::new(alloc),
            directory: Directory::new(alloc),
            places: 0,
        }
    }

    /// The same letters, in memory of their own.
    pub fn again(&self) -> Result<Mail<'s>, NoMemory>
        ensures { IfOk result (λ copy. copy ≡ self.now) }
    {
        Ok(Mail {
            slots: slots::again(&self.slots)?,
            directory: self.directory.again()?,
            places: self.places,
        })
    }

    /// Makes places for `n` letters in all; so many can then be posted with no more memory.
    pub fn reserve(&mut self, n: usize) -> Result<(), NoMemory>
        ensures ok { OnOk result (self.new ≡ after_reserve self.old n) }
        ensures err { OnErr result (self.new ≡ self.old) }
        ensures has_room { n ≤ self.old.places → IsOk result }
    {
        if n <= self.places {
            return Ok(());
        }
        if n > MOST_PLACES {
            return Err(NoMemory);
        }
        // Twice the places, so that the slots are closed up once in as many postings as there are places; and twice as many
        // again, so that they are seldom made anew.
        if 2 * n > self.directory.width {
            widen(&mut self.slots, &mut self.directory, 4 * n)?;
        }
        self.places = n;
        Ok(())
    }

    /// One letter more, after the others. It may count as received already, where its receiver waits for it.
    #[inline(always)]
    pub fn post_letter(&mut self, letter: Letter<'s>)
        requires new { has_letter_of self.old.letters letter.from ≡ false }
        requires room { length self.old.letters < self.old.places }
        ensures { self.new ≡ after_post self.old letter.entry }
    {
        post(&mut self.slots, &mut self.directory, letter);
    }

    /// The thread receives the first letter that it hasn't received yet, of the named sender or of any. The letter stays,
    /// and waits for its reply.
    pub fn take_letter(&mut self, to: Tid, from: Option<Tid>) -> Option<Letter<'s>>
        ensures value { result ≡ option_map as_received (next_letter self.old.letters to from) }
        ensures after { self.new ≡ after_take self.old to from }
        ensures first { FindsFirst (λ letter. is_to to letter && is_open from letter)
            self.old.letters (next_letter self.old.letters to from) }
    {
        let slot = next_unread(&self.slots, &self.directory, to, from)?;
        receive(&mut self.slots, &mut self.directory, slot)
    }

    /// `to` replies to the letter of `from` with so many bytes, and the letter goes. It must have received it, and the
    /// sender must have room for the reply.
    #[inline(always)]
    pub fn reply(&mut self, to: Tid, from: Tid, len: usize) -> Result<(), LwpErr>
        ensures cause { result_err result ≡ refusal (received_letter self.old.letters to from) len }
        ensures ok { OnOk result (self.new ≡ after_forget self.old from) }
        ensures err { OnErr result (self.new ≡ self.old) }
    {
        let Some(slot) = self.directory.slot_of(from) else {
            return Err(LwpErr::NoWait);
        };
        if let Err(refused) = check(&self.slots, slot, to, len) {
            return Err(refused);
        }
        remove(&mut self.slots, &mut self.directory, slot, from);
        Ok(())
    }

    /// The sender's letter goes, received or not. Where there is none, nothing happens.
    pub fn forget(&mut self, from: Tid)
        ensures { self.new ≡ after_forget self.old from }
    {
        if let Some(slot) = self.directory.slot_of(from) {
            remove(&mut self.slots, &mut self.directory, slot, from);
        }
    }

    /// The first letter to the thread goes, received or not; the answer is who sent it.
    pub fn pop_to(&mut self, to: Tid) -> Option<Tid>
        ensures value { result ≡ option_map (λ letter. letter.from) (first_to self.old.letters to) }
        ensures after { self.new ≡ after_pop self.old to }
        ensures first { FindsFirst (is_to to) self.old.letters (first_to self.old.letters to) }
    {
        let slot = self.directory.first_to(to)?;
        let from = sender_at(&self.slots, slot)?;
        remove(&mut self.slots, &mut self.directory, slot, from);
        Some(from)
    }

    /// Who sent the letters to the thread, received or not, in the order of their sending.
    pub fn senders(&self, to: Tid) -> Result<IdList, NoMemory>
        ensures value { IfOk result (λ ids. ids ≡ senders_to self.now.letters to) }
        ensures one_each { IsOnePerSender self.now.letters }
    {
        senders_to(*self.slots.allocator(), &self.slots, &self.directory, to)
    }

    /// A copy of all letters, in the order of their sending.
    pub fn letters(&self) -> Result<Sequence<Letter<'s>>, NoMemory>
        ensures { IfOk result (λ letters. letters ≡ self.now.letters) }
    {
        copied(*self.slots.allocator(), &self.slots)
    }
}
