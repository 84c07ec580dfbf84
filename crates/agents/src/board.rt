// How many agents each event has, and which events can be delivered.
ghost use Rattle.std.specs.Prelude.{◌≡◌, ◌<◌, if◌then◌else◌, IfNone, IfSome, replicate, slice_set};
ghost use Rattle.std.specs.Slice.Scan.{HoldsNowhere, IsFirstPlace};
ghost use Rattle.agents.specs.Board.{is_ready, no_tally, tally_at};

use lists::{first_marked, is_marked, no_marks, with_mark};
use std::marker::Model;

/// How many agents an event has, and how many of them hold a message.
#[derive(Clone, Copy)]
pub struct Tally {
    pub agents: usize,
    pub holding: usize,
}

impl Tally {
    // Whether the event can be delivered.
    fn is_ready(&self) -> bool
        ensures { result ≡ is_ready self.now }
    {
        self.agents != 0 && self.holding == 0
    }
}

// What an agent adds to those that hold a message.
pub fn one_if(holding: bool) -> usize
    ensures { result ≡ (if holding then 1 else 0) }
{
    usize::from(holding)
}

// The greatest event is 32.
const EVENTS: usize = 33;

/// The tally of each event.
#[derive(Drop)]
pub struct Board {
    tallies: [Tally; EVENTS],
    // An event is marked where it can be delivered.
    armed: u64,
}

impl Model for Board {
    ghost use Rattle.std.specs.Prelude.{List};
    ghost use Rattle.agents.specs.declared.board.Tally.{Tally};
    ghost use Rattle.agents.specs.Board.{IsMarked};

    ghost Value = { List Tally };

    ghost view = { λ b. b.tallies };

    ghost invariant = { λ b. IsMarked b.tallies b.armed };
}

impl Board {
    /// The same tallies.
    pub fn again(&self) -> Board
        ensures { result ≡ self.now }
    {
        Board {
            tallies: self.tallies,
            armed: self.armed,
        }
    }

    /// No agents.
    pub fn new() -> Board
        ensures { result ≡ replicate 33 no_tally }
    {
        let none = Tally {
            agents: 0,
            holding: 0,
        };
        Board {
            tallies: [none; EVENTS],
            armed: no_marks(),
        }
    }

    /// The tally of the event.
    pub fn tally(&self, event: u8) -> Tally
        requires { event < 33 }
        ensures { result ≡ tally_at self.now event }
    {
        self.tallies[event as usize]
    }

    /// The event has this tally from now on.
    pub fn put(&mut self, event: u8, tally: Tally)
        requires { event < 33 }
        ensures { self.new ≡ slice_set self.old event tally }
    {
        self.tallies[event as usize] = tally;
        self.armed = with_mark(self.armed, event, tally.is_ready());
    }

    /// Whether the event can be delivered.
    pub fn is_ready(&self, event: u8) -> bool
        ensures { result ≡ is_ready (tally_at self.now event) }
    {
        is_marked(self.armed, event)
    }

    /// The first event from `from` on that can be delivered, if there is one below 32.
    pub fn next_ready(&self, from: u8) -> Option<u8>
        ensures none { IfNone result (HoldsNowhere (λ e. is_ready (tally_at self.now e)) from 32) }
        ensures below { IfSome result (λ event. event < 32) }
        ensures first { IfSome result
            (λ event. IsFirstPlace (λ e. is_ready (tally_at self.now e)) from 32 event) }
    {
        first_marked(self.armed, from)
    }
}
