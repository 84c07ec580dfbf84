// What is known of a trace so far, and what is drawn for its next line.
ghost use Rattle.std.specs.Prelude.{◌≡◌, length};

use std::marker::Model;
use trace_lines::{Gain, Verb};

/// When something happens: at a call, by its number counted from 1, or after it, where lines are taken before the next.
#[derive(Clone, Copy)]
pub struct Moment {
    pub call: u64,
    pub late: bool,
}

/// A thread or an agent, with what it has called last.
#[derive(Clone, Copy)]
pub struct Lane {
    pub id: u64,
    /// The event of an agent; 0, where it is a thread.
    pub event: u64,
    pub verb: Verb,
    pub target: u64,
    pub suspended: bool,
    pub since: Moment,
    /// The call isn't answered yet.
    pub waits: bool,
    /// The first call at which there is room for words again.
    pub clear: u64,
}

/// What a call may wait for.
#[derive(Clone, Copy)]
pub enum Need {
    Reply,
    Letter,
    Monitor,
    Condition,
    Death,
    /// A tick of the clock.
    Clock,
    Nothing,
}

/// What goes on over some time.
#[derive(Clone, Copy)]
pub enum Kind {
    Life,
    Parked,
    /// A monitor is held.
    Held,
    /// A monitor was given up for a wait, and comes back.
    Given,
}

/// What goes on, of whom, and since when. `of` is the monitor that is held or the owner of an agent; the level of a monitor is one
/// more than those of the monitors held before, and the event that of an agent that lives; 0 of anything else.
#[derive(Clone, Copy)]
pub struct Span {
    pub tid: u64,
    pub kind: Kind,
    pub of: u64,
    pub since: Moment,
    pub level: u64,
    pub event: u64,
}

/// An exit procedure, and who has set it.
#[derive(Clone, Copy)]
pub struct Setting {
    pub reg: u64,
    pub tid: u64,
}

/// A part of a line of the trace, where the trace has it, seen as the list of its bytes.
#[derive(Drop)]
pub struct Words<'t> {
    bytes: &'t [u8],
}

impl<'t> Model for Words<'t> {
    ghost use Rattle.std.specs.Prelude.{List, ℕ};

    ghost Value = { List ℕ };

    ghost view = { λ w. w.bytes.now };
}

impl<'t> Words<'t> {
    /// The words that lie there.
    pub(crate) fn new(bytes: &'t [u8]) -> Words<'t>
        ensures { result ≡ bytes.now }
    {
        Words { bytes }
    }

    /// Another view of these bytes.
    pub(crate) fn again(&self) -> Words<'t>
        ensures { result ≡ self.now }
    {
        Words { bytes: self.bytes }
    }

    /// How many bytes they have.
    pub(crate) fn len(&self) -> usize
        ensures { result ≡ length self.now }
    {
        self.bytes.len()
    }

    /// Their bytes.
    pub(crate) fn bytes(&self) -> &'t [u8]
        ensures { result.now ≡ self.now }
    {
        self.bytes
    }
}

/// The procedure that a thread begins with.
#[derive(Drop)]
pub struct Naming<'t> {
    pub tid: u64,
    pub name: Words<'t>,
}

/// What goes from one lane to another.
#[derive(Clone, Copy)]
pub enum Way {
    Letter,
    Reply,
    Wake,
    /// A line that was taken goes on, from an agent to the next of its event; or a death is told, by the dead to an agent.
    Also,
    /// A thread waits, for that one, when all is told.
    Blocked,
    /// A thread waits for another of its deadlock, when all is told.
    Deadlock,
}

/// A thread of a deadlock, and whom it waits for.
#[derive(Clone, Copy)]
pub struct Hop {
    pub from: u64,
    pub to: u64,
    /// It is the first of its cycle.
    pub begins: bool,
}

/// From which call on there is room in each of the three rows of what comes from the outside: in the row whose turn it is, and in the
/// two after it.
#[derive(Clone, Copy)]
pub struct Rows {
    pub next: u64,
    pub second: u64,
    pub third: u64,
}

/// Something that is drawn.
#[derive(Clone, Copy)]
pub enum Shape {
    /// The tick of a call.
    Tick {
        tid: u64,
        at: Moment,
    },
    /// The answer to a call of the thread, or to an exit procedure of it that is refused.
    Answer {
        tid: u64,
        gain: Gain,
        at: Moment,
    },
    /// What the thread says in a call.
    Said {
        tid: u64,
        at: Moment,
    },
    /// A wait that a call began.
    Wait {
        lane: Lane,
        to: Moment,
    },
    /// What has gone on until then.
    Bar {
        span: Span,
        to: Moment,
    },
    Arrow {
        way: Way,
        from: u64,
        left: Moment,
        to: u64,
        at: Moment,
    },
    /// An exit procedure of the thread.
    Exit {
        tid: u64,
        at: Moment,
    },
    Death {
        tid: u64,
        at: Moment,
    },
    /// A line that was taken, how many were taken before, whether there is room to tell it, and the first agent of its event; nobody,
    /// where it is a trap.
    Event {
        client: u64,
        seq: u64,
        nth: u64,
        told: bool,
        agent: u64,
        at: Moment,
    },
    /// A tick of the clock by its number, how many lines were taken before, and whether there is room to tell it.
    Clock {
        now: u64,
        nth: u64,
        told: bool,
        at: Moment,
    },
    /// A trap is raised in the thread.
    Trap {
        tid: u64,
        at: Moment,
    },
    /// A line after the last step, and how many such lines came before.
    Closing {
        nth: u64,
        at: Moment,
    },
    /// Who waits when all is told.
    Due {
        lane: Lane,
        at: Moment,
    },
}

/// All that is known of the lines so far, and what is drawn for the last of them.
pub struct Scene<'t> {
    pub(crate) base: u64,
    pub(crate) last: u64,
    pub(crate) more: bool,
    pub(crate) time: Moment,
    pub(crate) caller: u64,
    pub(crate) events: u64,
    pub(crate) rows: Rows,
    pub(crate) agent: u64,
    pub(crate) closings: u64,
    pub(crate) words: Words<'t>,
    pub(crate) lanes: Vec<Lane>,
    pub(crate) spans: Vec<Span>,
    pub(crate) settings: Vec<Setting>,
    pub(crate) names: Vec<Naming<'t>>,
    pub(crate) hops: Vec<Hop>,
    pub(crate) shapes: Vec<Shape>,
}

impl<'t> Drop for Scene<'t> {
    fn drop(self) {
        let Scene {
            base: _,
            last: _,
            more: _,
            time: _,
            caller: _,
            events: _,
            rows: _,
            agent: _,
            closings: _,
            words: _,
            lanes: _,
            spans: _,
            settings: _,
            names: _,
            hops: _,
            shapes: _,
        } = self;
    }
}

impl<'t> Model for Scene<'t> {
    ghost use Rattle.trace_page.specs.Scene.{Seen};

    ghost Value = { Seen };

    ghost view = { λ s. record {
      base = s.base;
      last = s.last;
      more = s.more;
      time = s.time;
      caller = s.caller;
      events = s.events;
      rows = s.rows;
      agent = s.agent;
      closings = s.closings;
      words = s.words;
      lanes = s.lanes.items;
      spans = s.spans.items;
      settings = s.settings.items;
      names = s.names.items;
      hops = s.hops.items;
      shapes = s.shapes.items;
    } };
}
