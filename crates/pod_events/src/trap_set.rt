// The events that are trapped.
ghost use Rattle.std.specs.Prelude.{◌≡◌, ◌<◌, IfNone, IfSome, IsTrue, false, true, replicate, slice_set};
ghost use Rattle.std.specs.Slice.Scan.{HoldsNowhere, IsFirstPlace};
ghost use Rattle.pod_events.specs.Events.{is_trapped};

use lists::{first_marked, no_marks, with_mark};
use std::marker::Model;

// Events are numbered from 0 to 31, but for that of the reports.
const EVENTS: usize = 32;

/// The events that are trapped.
#[derive(Drop)]
pub(crate) struct TrapSet {
    flags: [bool; EVENTS],
    // The flags as bits of one word, in which the first is found at one look.
    marks: u64,
}

impl Model for TrapSet {
    ghost use Rattle.lists.specs.EventMarks.{is_marked};
    ghost use Rattle.pod_events.specs.Events.{is_trapped};
    ghost use Rattle.std.specs.Prelude.{Bool, List, ℕ, ◌≡◌};

    ghost Value = { List Bool };

    ghost view = { λ t. t.flags };

    ghost invariant = { λ t. (e : ℕ) → is_marked t.marks e ≡ is_trapped t.flags e };
}

impl TrapSet {
    /// No event.
    pub(crate) fn new() -> TrapSet
        ensures { result ≡ replicate 32 false }
    {
        TrapSet {
            flags: [false; EVENTS],
            marks: no_marks(),
        }
    }

    /// An equal set.
    pub(crate) fn again(&self) -> TrapSet
        ensures { result ≡ self.now }
    {
        TrapSet {
            flags: self.flags,
            marks: self.marks,
        }
    }

    /// Whether the event is trapped.
    pub(crate) fn has(&self, event: u32) -> bool
        ensures { result ≡ is_trapped self.now event }
    {
        event < 32 && self.flags[event as usize]
    }

    /// Of each event, whether it is trapped.
    pub(crate) fn flags(&self) -> [bool; EVENTS]
        ensures { result ≡ self.now }
    {
        self.flags
    }

    /// Whether no event is trapped.
    pub(crate) fn is_empty(&self) -> bool
        ensures { IsTrue result → HoldsNowhere (is_trapped self.now) 0 32 }
    {
        self.next(0).is_none()
    }

    /// The first event from `from` on that is trapped, if there is one.
    pub(crate) fn next(&self, from: u8) -> Option<u8>
        ensures none { IfNone result (HoldsNowhere (is_trapped self.now) from 32) }
        ensures below { IfSome result (λ event. event < 32) }
        ensures first { IfSome result (λ event. IsFirstPlace (is_trapped self.now) from 32 event) }
    {
        first_marked(self.marks, from)
    }

    /// The event is trapped from now on.
    pub(crate) fn set(&mut self, event: u32)
        requires { event < 32 }
        ensures { self.new ≡ slice_set self.old event true }
    {
        self.flags[event as usize] = true;
        self.marks = with_mark(self.marks, event as u8, true);
    }
}
