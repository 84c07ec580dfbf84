// The items of all events.
ghost use Rattle.std.specs.Prelude.{◌≡◌, ◌<◌, IfNone, IfOk, IfSome, OnErr, OnOk};
ghost use Rattle.std.specs.Slice.Scan.{HoldsNowhere, IsFirstPlace};
ghost use Rattle.event_gate.specs.Shelves.{after_add_to, after_take_from, bare_rack, first_left, has_left};

use crate::again::Again;
use crate::shelf::Shelf;
use lists::{first_marked, no_marks, with_mark};
use lwp_types::NoMemory;
use std::alloc::Global;
use std::marker::Model;

// How many numbers an event can have.
const EVENTS: usize = 256;

/// A shelf for each event, seen as the list of them.
#[derive(Drop)]
pub struct Rack<T> {
    // By the number of the event.
    shelves: Vec<Shelf<T>>,
    // The events of which an item is left, as far as marks go.
    marks: u64,
}

impl<T> Model for Rack<T> {
    ghost use Rattle.event_gate.specs.Shelves.{Shelf, has_left};
    ghost use Rattle.lists.specs.EventMarks.{is_marked};
    ghost use Rattle.std.specs.Prelude.{ℕ, List, length, ◌<◌, ◌≡◌};

    ghost Value = { List (Shelf T) };

    ghost view = { λ r. r.shelves.items };

    ghost invariant = { λ r. (length r.shelves.items ≡ 256)
        × ((e : ℕ) → e < 64 → is_marked r.marks e ≡ has_left r.shelves.items e) };
}

impl<T> Rack<T> {
    /// No items.
    pub fn new(alloc: Global) -> Result<Rack<T>, NoMemory>
    where
        T: Drop,
        ensures { IfOk result (λ rack. rack ≡ bare_rack) }
    {
        let mut shelves = Vec::new(alloc);
        for _ in 0..EVENTS {
            shelves.push(Shelf::new(alloc))?;
        }
        Ok(Rack {
            shelves,
            marks: no_marks(),
        })
    }

    /// One item more, at the end of its event's.
    pub fn add(&mut self, event: u8, item: T) -> Result<(), NoMemory>
    where
        T: Drop,
        ensures ok { OnOk result (self.new ≡ after_add_to self.old event item) }
        ensures err { OnErr result (self.new ≡ self.old) }
    {
        self.shelves[usize::from(event)].add(item)?;
        self.marks = with_mark(self.marks, event, true);
        Ok(())
    }

    /// The first item left of the event, which is then taken.
    pub fn next(&mut self, event: u8) -> Option<T>
    where
        T: Again,
        ensures item { result ≡ first_left self.old event }
        ensures after { self.new ≡ after_take_from self.old event }
    {
        let Rack { shelves, marks } = self;
        let shelf = &mut shelves[usize::from(event)];
        let item = shelf.next();
        *marks = with_mark(*marks, event, shelf.has_next());
        item
    }

    /// The first event from `from` on of which an item is left, if there is one below 32.
    pub fn next_left(&self, from: u8) -> Option<u8>
        ensures none { IfNone result (HoldsNowhere (has_left self.now) from 32) }
        ensures below { IfSome result (λ event. event < 32) }
        ensures first { IfSome result (λ event. IsFirstPlace (has_left self.now) from 32 event) }
    {
        first_marked(self.marks, from)
    }
}
