// All lines of the outside in place before a pod runs.
ghost use Rattle.std.specs.Prelude.{◌≡◌, ◌<◌, All, IfOk, length};
ghost use Rattle.event_gate.specs.Shelves.{after_add_to, bare_rack, full_shelves, left_in_all, left_of_client};

use crate::gate::Gate;
use crate::rack::Rack;
use crate::taker::client_of;
use lwp_types::{Line, NoMemory};
use std::alloc::Global;
use std::marker::Model;

// How many numbers a client can have.
const CLIENTS: usize = 256;

/// Lines that are all there from the start, seen as those taken and those left of each event.
#[derive(Drop)]
pub struct ListGate<'s> {
    rack: Rack<Line<'s>>,
    // By the number of the client, how many of its lines are left.
    left: Vec<u32>,
}

impl<'s> Model for ListGate<'s> {
    ghost use Rattle.event_gate.specs.Shelves.{Shelves, left_of_client};
    ghost use Rattle.std.specs.Prelude.{ℕ, length, slice_index, ◌≡◌};

    ghost Value = { Shelves };

    ghost view = { λ s. s.rack };

    ghost invariant = { λ s. (length s.rack ≡ 256)
        × (length s.left.items ≡ 256)
        × ((c : ℕ) → slice_index s.left.items c ≡ left_of_client c s.rack) };
}

impl<'s> ListGate<'s> {
    fn empty(alloc: Global) -> Result<ListGate<'s>, NoMemory>
        ensures { IfOk result (λ g. g ≡ bare_rack) }
    {
        let rack = Rack::new(alloc)?;
        let left = Vec::from_elem(alloc, 0, CLIENTS)?;
        Ok(ListGate { rack, left })
    }

    // One line more, at the end of its event's.
    fn with_line(self, event: u8, line: Line<'s>) -> Result<ListGate<'s>, NoMemory>
        requires { left_in_all self < 4294967295 }
        ensures { IfOk result (λ g. g ≡ after_add_to self.entry event line.entry) }
    {
        let ListGate { mut rack, mut left } = self;
        let client = usize::from(client_of(&line));
        rack.add(event, line)?;
        left[client] += 1;
        Ok(ListGate { rack, left })
    }

    /// The lines in the order of `posts`; those of client `c` are for event `events[c]`.
    pub fn new(alloc: Global, events: &[u8], posts: &[Line<'s>]) -> Result<ListGate<'s>, NoMemory>
        requires clients { All (λ l. l.client < length events.now) posts.now }
        requires few { length posts.now < 4294967296 }
        ensures { IfOk result (λ g. g ≡ full_shelves events.now posts.now) }
    {
        let mut gate = ListGate::empty(alloc)?;
        for line in posts {
            gate = gate.with_line(events[usize::from(client_of(line))], line.again())?;
        }
        Ok(gate)
    }
}

impl<'s> Gate<'s> for ListGate<'s> {
    ghost stock = { λ g. g };

    fn take(&mut self, event: u8) -> Option<Line<'s>> {
        let line = self.rack.next(event)?;
        self.left[usize::from(client_of(&line))] -= 1;
        Some(line)
    }

    fn next_left(&self, from: u8) -> Option<u8> {
        self.rack.next_left(from)
    }

    fn left(&self, client: u8) -> u32 {
        self.left[usize::from(client)]
    }
}
