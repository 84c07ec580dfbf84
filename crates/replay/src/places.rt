// Places in a list, of which the first one goes first.
ghost use Rattle.std.specs.Prelude.{OnOk, [], drop, length, slice_get, ◌∷◌, ◌≡◌};

use lwp_types::NoMemory;
use std::alloc::Global;
use std::marker::Model;

/// Places, the first one first. They are kept from the last one on, so that the first can go.
#[derive(Drop)]
pub(crate) struct Places {
    places: Vec<u32>,
}

impl Model for Places {
    ghost use Rattle.std.specs.Prelude.{List, reverse, ℕ};

    ghost Value = { List ℕ };

    ghost view = { λ p. reverse p.places.items };
}

impl Places {
    /// None.
    pub(crate) fn new(alloc: Global) -> Places
        ensures { result ≡ [] }
    {
        Places {
            places: Vec::new(alloc),
        }
    }

    /// One more, before the others.
    pub(crate) fn put(&mut self, place: u32) -> Result<(), NoMemory>
        ensures { OnOk result (self.new ≡ place ∷ self.old) }
    {
        self.places.push(place)?;
        Ok(())
    }

    /// The first one.
    pub(crate) fn first(&self) -> Option<u32>
        ensures { result ≡ slice_get self.now 0 }
    {
        self.places.last().copied()
    }

    /// The first one goes.
    pub(crate) fn pop(&mut self)
        ensures { self.new ≡ drop 1 self.old }
    {
        let _ = self.places.pop();
    }

    /// How many there are.
    pub(crate) fn len(&self) -> usize
        ensures { result ≡ length self.now }
    {
        self.places.len()
    }
}
