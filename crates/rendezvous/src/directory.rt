// Which slot has the letter of a sender, and which slots have the letters to a thread.
ghost use Rattle.std.specs.Prelude.{[], ◌∷◌, ◌++◌, ◌≡◌, ◌+◌, ◌<◌, ◌≤◌, ◌^◌, List, None, Option, Some, IfOk, IsSome, IsTrue, length, slice_set, true};
ghost use Rattle.lwp_types.specs.Messages.{as_received, is_letter_of, is_to};
ghost use Rattle.lwp_types.specs.State.{passes};
ghost use Rattle.rendezvous.specs.Kept.{IsFiled, IsSound};
ghost use Rattle.rendezvous.specs.Slots.{IsFirstIn, IsOnce, is_unread_by, slot_at};
ghost use Rattle.lists.specs.ThreadIndex.{count_of, place_of};

use lists::{Chains, Index};
use lwp_types::{Letter, NoMemory, Tid};
use std::alloc::Global;

// Slots and lists are given out in order and not taken back one by one: a thread's list would have to be taken back at each
// reply to its only letter, which is what most replies are.
/// Finds letters in their slots.
pub struct Directory {
    // The slot of each sender's letter.
    pub senders: Index,
    // The list of each thread that letters were sent to.
    pub boxes: Index,
    // So many lists have a thread.
    pub used: usize,
    // The slots of the letters to each thread, in the order of their sending, as keys after the lists' numbers.
    pub held: Chains,
    // Those of them that nobody has received.
    pub unread: Chains,
    // How many slots there may be, and how many lists there are.
    pub width: usize,
}

// PROVER: written by hand, so that a function that drops one calls this instead of repeating its proof.
impl Drop for Directory {
    fn drop(self) {
        let Directory {
            senders: _,
            boxes: _,
            used: _,
            held: _,
            unread: _,
            width: _,
        } = self;
    }
}

impl Directory {
    /// No slots, and no memory.
    pub fn new(alloc: Global) -> Directory
        ensures filed { IsFiled [] result }
        ensures sound { IsSound result }
        ensures width { result.width ≡ 0 }
    {
        Directory {
            senders: Index::new(alloc),
            boxes: Index::new(alloc),
            used: 0,
            held: Chains::bare(alloc),
            unread: Chains::bare(alloc),
            width: 0,
        }
    }

    /// The same slots, in memory of its own.
    pub fn again(&self) -> Result<Directory, NoMemory>
        ensures { IfOk result (λ copy. copy ≡ self.now) }
    {
        Ok(Directory {
            senders: self.senders.again()?,
            boxes: self.boxes.again()?,
            used: self.used,
            held: self.held.again()?,
            unread: self.unread.again()?,
            width: self.width,
        })
    }

    /// Memory for so many slots.
    pub fn with_width(alloc: Global, width: usize) -> Result<Directory, NoMemory>
        requires { width ≤ 2 ^ 62 }
        ensures filed { IfOk result (λ d. IsFiled [] d) }
        ensures sound { IfOk result IsSound }
        ensures width { IfOk result (λ d. d.width ≡ width) }
        ensures used { IfOk result (λ d. d.used ≡ 0) }
    {
        let keys = width + width;
        let mut held = Chains::new(alloc, width)?;
        held.reserve(keys)?;
        let mut unread = Chains::new(alloc, width)?;
        unread.reserve(keys)?;
        Ok(Directory {
            senders: Index::with_cells(alloc, width)?,
            boxes: Index::with_cells(alloc, width)?,
            used: 0,
            held,
            unread,
            width,
        })
    }

    /// Whether after so many slots there is one left, and a list for another thread.
    pub fn has_room(&self, slots: usize) -> bool
        ensures { IsTrue result → (slots < self.now.width) × (self.now.used < self.now.width) }
    {
        slots < self.width && self.used < self.width
    }

    // The list of a thread, which it has from now on if it had none.
    fn box_for(&mut self, to: Tid) -> usize
        requires sound { IsSound self.old }
        requires room { self.old.used < self.old.width }
        ensures sound { IsSound self.new }
        ensures filed { (slots : List (Option Letter)) → IsFiled slots self.old →
            IsFiled slots self.new }
        ensures its { place_of self.new.boxes to ≡ Some result }
        ensures low { result < self.new.used }
        ensures used { self.new.used ≤ self.old.used + 1 }
        ensures width { self.new.width ≡ self.old.width }
        ensures senders { self.new.senders ≡ self.old.senders }
    {
        match self.boxes.place_of(to) {
            Some(list) => list,
            None => {
                let list = self.used;
                self.boxes.put(to, list);
                self.used += 1;
                list
            }
        }
    }

    /// The letter is to lie in the slot after all others.
    pub fn add(&mut self, slot: usize, letter: &Letter)
        requires sound { IsSound self.old }
        requires room { self.old.used < self.old.width }
        requires slot_in { slot < self.old.width }
        requires new { place_of self.old.senders letter.now.from ≡ None }
        requires few { count_of self.old.senders < self.old.width }
        ensures sound { IsSound self.new }
        ensures filed { (slots : List (Option Letter)) → length slots ≡ slot →
            IsFiled slots self.old → IsFiled (slots ++ Some letter.now ∷ []) self.new }
        ensures used { self.new.used ≤ self.old.used + 1 }
        ensures width { self.new.width ≡ self.old.width }
    {
        let list = self.box_for(letter.to);
        self.senders.put(letter.from, slot);
        let key = self.width + slot;
        self.held.move_to_back(list, key);
        if !letter.received {
            self.unread.move_to_back(list, key);
        }
    }

    /// The slot of a sender's letter.
    pub fn slot_of(&self, from: Tid) -> Option<usize>
        ensures { result ≡ place_of self.now.senders from }
    {
        self.senders.place_of(from)
    }

    /// The list of the letters to the thread, if there is one.
    pub fn list_of(&self, to: Tid) -> Option<usize>
        ensures { result ≡ place_of self.now.boxes to }
    {
        self.boxes.place_of(to)
    }

    /// The slot of the letter to the thread that was sent first.
    pub fn first_to(&self, to: Tid) -> Option<usize>
        requires { IsSound self.now }
        ensures { (slots : List (Option Letter)) → IsFiled slots self.now →
            IsFirstIn (is_to to) slots result }
    {
        let list = self.boxes.place_of(to)?;
        let key = self.held.first(list)?;
        Some(key - self.width)
    }

    /// The slot of the letter to the thread that was sent first of those that nobody has received.
    pub fn first_unread(&self, to: Tid) -> Option<usize>
        requires { IsSound self.now }
        ensures { (slots : List (Option Letter)) → IsFiled slots self.now →
            IsFirstIn (is_unread_by to) slots result }
    {
        let list = self.boxes.place_of(to)?;
        let key = self.unread.first(list)?;
        Some(key - self.width)
    }

    /// The letter in the slot counts as received.
    pub fn receive(&mut self, slot: usize)
        requires sound { IsSound self.old }
        requires slot_in { slot < self.old.width }
        ensures sound { IsSound self.new }
        ensures filed { (slots : List (Option Letter)) (letter : Letter) → IsOnce slots →
            slot_at slots slot ≡ Some letter → IsFiled slots self.old →
            IsFiled (slice_set slots slot (Some (as_received letter))) self.new }
        ensures width { self.new.width ≡ self.old.width }
    {
        self.unread.remove(self.width + slot);
    }

    /// The letter of this sender, which lies in the slot, is to go.
    pub fn take(&mut self, slot: usize, from: Tid)
        requires sound { IsSound self.old }
        requires slot_in { slot < self.old.width }
        requires there { IsSome (place_of self.old.senders from) }
        ensures sound { IsSound self.new }
        ensures filed { (slots : List (Option Letter)) → IsOnce slots →
            passes (is_letter_of from) (slot_at slots slot) ≡ true → IsFiled slots self.old →
            IsFiled (slice_set slots slot None) self.new }
        ensures width { self.new.width ≡ self.old.width }
    {
        let key = self.width + slot;
        self.senders.take(from);
        self.held.remove(key);
        self.unread.remove(key);
    }

    /// No letter is filed any more.
    pub fn clear(&mut self)
        requires { IsSound self.old }
        ensures filed { IsFiled [] self.new }
        ensures sound { IsSound self.new }
        ensures width { self.new.width ≡ self.old.width }
        ensures used { self.new.used ≡ 0 }
    {
        self.senders.clear();
        self.boxes.clear();
        self.used = 0;
        self.held.clear();
        self.unread.clear();
    }

    /// Files the letters in these slots, where none is filed yet.
    pub fn file(&mut self, slots: &Vec<Option<Letter>>)
        requires sound { IsSound self.old }
        requires filed { IsFiled [] self.old }
        requires used { self.old.used ≡ 0 }
        requires once { IsOnce slots.now.items }
        requires fits { length slots.now.items ≤ self.old.width }
        ensures sound { IsSound self.new }
        ensures filed { IsFiled slots.now.items self.new }
        ensures used { self.new.used ≤ length slots.now.items }
        ensures width { self.new.width ≡ self.old.width }
    {
        for slot in 0..slots.len() {
            if let Some(letter) = &slots[slot] {
                self.add(slot, letter);
            }
        }
    }
}
