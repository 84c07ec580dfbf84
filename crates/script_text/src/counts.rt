// How many lines each client has posted.
ghost use Rattle.std.specs.Prelude.{◌≡◌};

use lwp_types::NoMemory;
use std::alloc::Global;
use std::marker::Model;

/// A count for each client, seen as their list.
#[derive(Drop)]
pub struct Counts {
    counts: Vec<u32>,
}

impl Model for Counts {
    ghost use Rattle.std.specs.Prelude.{ℕ, List};

    ghost Value = { List ℕ };

    ghost view = { λ c. c.counts.items };
}

impl Counts {
    ghost use Rattle.std.specs.Prelude.{◌≡◌, [], ◌∷◌, ◌++◌, length, slice_index_or, ◌≤◌, OnOk, OnErr};
    ghost use Rattle.script_text.specs.Meaning.{after_raise};

    /// No clients.
    pub fn new(alloc: Global) -> Counts
        ensures { result ≡ [] }
    {
        Counts {
            counts: Vec::new(alloc),
        }
    }

    /// How many clients there are.
    pub fn len(&self) -> usize
        ensures { result ≡ length self.now }
    {
        self.counts.len()
    }

    /// The count of a client; `other`, if there is no such client.
    pub fn get(&self, client: u8, other: u32) -> u32
        ensures { result ≡ slice_index_or self.now client other }
    {
        match self.counts.get(usize::from(client)) {
            Some(count) => *count,
            None => other,
        }
    }

    /// One client more, with no lines.
    pub fn open(&mut self) -> Result<(), NoMemory>
        ensures { OnOk result (self.new ≡ self.old ++ 0 ∷ []) }
    {
        self.counts.push(0)?;
        Ok(())
    }

    /// One line more of a client, if there is such a client. No memory holds more lines than a `u32` counts.
    pub fn raise(&mut self, client: u8) -> Result<(), NoMemory>
        ensures ok { OnOk result (self.new ≡ after_raise client self.old) }
        ensures err { OnErr result (4294967295 ≤ slice_index_or self.old client 0) }
    {
        let place = usize::from(client);
        if place < self.counts.len() {
            let count = self.counts[place];
            if count == u32::MAX {
                return Err(NoMemory);
            }
            self.counts[place] = count + 1;
        }
        Ok(())
    }
}
