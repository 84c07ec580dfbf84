// A sink for the lines of a run, which are compared with what was recorded.
ghost use Rattle.std.specs.Prelude.{◌≡◌, ◌<◌, ◌≤◌, ◌++◌, ◌+◌, [], IfOk, MatchBool, None, OnErr, Some, drop, length, take};
ghost use Rattle.lwp_types.specs.Streams.{HasCause, after_append};
ghost use Rattle.replay.specs.Following.{Departs, bytes_told};
ghost use Rattle.replay.specs.Says.{ComparedBy};
ghost use Rattle.replay.specs.Walk.{ticks_after};

use crate::compared::{begins_with, line_count};
use lwp_types::{Failed, NoMemory, Sink};
use std::alloc::Global;
use std::marker::Model;

/// What was recorded, how far it was told so far, of how many lines that is, how often the clock has ticked by then, and the lines
/// that a step has told since. Of these, what was recorded after `at` isn't copied: it is `ahead` bytes, and then come those that
/// differ from it, if any do. Lines aren't counted before somebody asks.
#[derive(Drop)]
pub struct Follower<'b> {
    recorded: &'b [u8],
    at: usize,
    ahead: usize,
    unlike: Vec<u8>,
    ticks: u64,
    faults: u64,
}

impl<'b> Model for Follower<'b> {
    ghost use Rattle.std.specs.Prelude.{drop, length, take, ◌++◌, ◌+◌, ◌≤◌};
    ghost use Rattle.replay.specs.Following.{Following, IsUnlike};
    ghost use Rattle.replay.specs.Recorded.{line_count};

    ghost Value = { Following };

    ghost view = { λ f. record {
      recorded = f.recorded.now;
      at = f.at;
      lines = line_count (take f.at f.recorded.now);
      ticks = f.ticks;
      step = take f.ahead (drop f.at f.recorded.now) ++ f.unlike.items;
      faults = f.faults;
    } };

    ghost invariant = { λ f. (f.at + f.ahead ≤ length f.recorded.now)
        × (f.ticks ≤ 4294967295)
        × IsUnlike (drop f.ahead (drop f.at f.recorded.now)) f.unlike.items };
}

impl<'b> Follower<'b> {
    /// Before the first line.
    pub fn new(alloc: Global, recorded: &'b [u8]) -> Follower<'b>
        ensures { result
            ≡ record { recorded = recorded.now; at = 0; lines = 0; ticks = 0; step = []; faults = 0 } }
    {
        Follower {
            recorded,
            at: 0,
            ahead: 0,
            unlike: Vec::new(alloc),
            ticks: 0,
            faults: 0,
        }
    }

    /// How many lines were told.
    pub fn lines(&self) -> u64
        ensures same { result ≡ self.now.lines }
        ensures small { result + length (drop self.now.at self.now.recorded) < 9223372036854775808 }
    {
        let recorded = self.recorded;
        line_count(&recorded[..self.at])
    }

    /// How often the clock has ticked.
    pub fn ticks(&self) -> u64
        ensures same { result ≡ self.now.ticks }
        ensures small { result ≤ 4294967295 }
    {
        self.ticks
    }

    /// A line of this event was taken: that of the clock's is a tick.
    pub fn count(&mut self, event: u8)
        ensures { self.new ≡ record self.old { ticks = ticks_after event self.old.ticks } }
    {
        if event == 0 && self.ticks < 4294967295 {
            self.ticks += 1;
        }
    }

    /// What was recorded after the lines told so far.
    pub fn rest(&self) -> &[u8]
        ensures rest { result.now ≡ drop self.now.at self.now.recorded }
        ensures small { self.now.lines + length result.now < 9223372036854775808 }
    {
        let recorded = self.recorded;
        &recorded[self.at..]
    }

    /// The lines of the step.
    pub fn step(&self, alloc: Global) -> Result<Vec<u8>, NoMemory>
        ensures { IfOk result (λ step. step.items ≡ self.now.step) }
    {
        let recorded = self.recorded;
        let behind = &recorded[self.at..];
        let mut step = Vec::new(alloc);
        step.extend_from_slice(&behind[..self.ahead])?;
        step.extend_from_slice(&self.unlike)?;
        Ok(step)
    }

    /// If the lines of the step were recorded, they are told.
    pub fn pass(&mut self) -> bool
        ensures { MatchBool result (ComparedBy self.old self.new None)
            (Departs (drop self.old.at self.old.recorded) self.old.step × (self.new ≡ self.old)) }
    {
        if !self.unlike.is_empty() {
            return false;
        }
        self.at += self.ahead;
        self.ahead = 0;
        true
    }
}

impl<'b> Sink for Follower<'b> {
    ghost use Rattle.std.specs.Prelude.{Some};
    ghost use Rattle.replay.specs.Following.{bytes_told};

    ghost written = { λ f. Some (bytes_told f) };

    ghost faults = { λ f. f.faults };

    fn write(&mut self, bytes: &[u8]) -> Result<usize, Failed>
        ensures bound { IfOk result (λ n. n ≤ length bytes.now) }
        ensures some { IfOk result (λ n. 0 < length bytes.now → 0 < n) }
        ensures ok { IfOk result
            (λ n.
            Some (bytes_told self.new) ≡ after_append (Some (bytes_told self.old)) (take n bytes.now)) }
        ensures err { OnErr result (Some (bytes_told self.new) ≡ Some (bytes_told self.old)) }
        ensures cause { HasCause self.old.faults self.new.faults result }
        // It only makes the step longer.
        ensures recorded { self.new.recorded ≡ self.old.recorded }
        ensures at { self.new.at ≡ self.old.at }
        ensures lines { self.new.lines ≡ self.old.lines }
        ensures ticks { self.new.ticks ≡ self.old.ticks }
    {
        let recorded = self.recorded;
        if self.unlike.is_empty() && begins_with(&recorded[self.at + self.ahead..], bytes) {
            self.ahead += bytes.len();
            return Ok(bytes.len());
        }
        match self.unlike.extend_from_slice(bytes) {
            Ok(()) => Ok(bytes.len()),
            Err(_) => {
                self.faults = self.faults.saturating_add(1);
                Err(Failed)
            }
        }
    }

    fn hand_on(&mut self)
        ensures { self.new ≡ self.old }
    {}
}
