// The items of one event.
ghost use Rattle.std.specs.Prelude.{◌≡◌, OnErr, OnOk, is_some};
ghost use Rattle.std.specs.List.{slice_get};
ghost use Rattle.event_gate.specs.Shelves.{after_next, bare, with_one_more};

use crate::again::Again;
use lwp_types::NoMemory;
use std::alloc::Global;
use std::marker::Model;

/// The items of one event in order, seen as those taken and those left.
#[derive(Drop)]
pub struct Shelf<T> {
    items: Vec<T>,
    // How many were taken.
    taken: usize,
}

impl<T> Model for Shelf<T> {
    ghost use Rattle.event_gate.specs.Shelves.{Shelf};
    ghost use Rattle.std.specs.Prelude.{◌≤◌, drop, take, vec_len};

    ghost Value = { Shelf T };

    ghost view = { λ s. record { taken = take s.taken s.items.items; left = drop s.taken s.items.items } };

    ghost invariant = { λ s. s.taken ≤ vec_len s.items };
}

impl<T> Shelf<T> {
    /// No items.
    pub fn new(alloc: Global) -> Shelf<T>
        ensures { result ≡ bare }
    {
        Shelf {
            items: Vec::new(alloc),
            taken: 0,
        }
    }

    /// One item more, at the end.
    pub fn add(&mut self, item: T) -> Result<(), NoMemory>
    where
        T: Drop,
        ensures ok { OnOk result (self.new ≡ with_one_more self.old item) }
        ensures err { OnErr result (self.new ≡ self.old) }
    {
        self.items.push(item)?;
        Ok(())
    }

    /// Whether an item is left.
    pub fn has_next(&self) -> bool
        ensures { result ≡ is_some (slice_get self.now.left 0) }
    {
        self.taken < self.items.len()
    }

    /// The first item left, which is then taken.
    pub fn next(&mut self) -> Option<T>
    where
        T: Again,
        ensures item { result ≡ slice_get self.old.left 0 }
        ensures after { self.new ≡ after_next self.old }
    {
        let item = self.items.get(self.taken)?.again();
        self.taken += 1;
        Some(item)
    }
}
