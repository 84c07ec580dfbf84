// A procedure that was begun and hasn't returned.
ghost use Rattle.std.specs.Prelude.{◌≡◌, ◌++◌, ◌==◌, not, length, slice_get, IfOk, OnOk};
ghost use Rattle.script_body.specs.BodyKeys.{frame_numbers};
ghost use Rattle.script_body.specs.Frame.{opening_frame, with_handler, without_handler, with_caught};

use keys::Key;
use lists::cloned;
use lwp_types::NoMemory;
use std::alloc::{AllocError, Global};
use std::marker::Model;

/// The procedure, the place of its next statement, and the places after its handlers.
pub struct Frame {
    number: u32,
    place: usize,
    handlers: Vec<usize>,
}

// PROVER: written by hand, so that a function that drops one calls this instead of repeating its proof.
impl Drop for Frame {
    fn drop(self) {
        let Frame {
            number: _,
            place: _,
            handlers: _,
        } = self;
    }
}

impl Model for Frame {
    ghost use Rattle.script_body.specs.Frame.{Frame};

    ghost Value = { Frame };

    ghost view = { λ f. record { number = f.number; place = f.place; handlers = f.handlers.items } };
}

impl Frame {
    pub fn new(alloc: Global, number: u32) -> Frame
        ensures { result ≡ opening_frame number }
    {
        Frame {
            number,
            place: 0,
            handlers: Vec::new(alloc),
        }
    }

    /// An equal frame, in memory of its own.
    pub fn again(&self) -> Result<Frame, NoMemory>
        ensures { IfOk result (λ copy. copy ≡ self.now) }
    {
        Ok(Frame {
            number: self.number,
            place: self.place,
            handlers: cloned(&self.handlers)?,
        })
    }

    pub fn number(&self) -> u32
        ensures { result ≡ self.now.number }
    {
        self.number
    }

    pub fn place(&self) -> usize
        ensures { result ≡ self.now.place }
    {
        self.place
    }

    /// The place after a handler of this frame, if there is such a handler.
    pub fn handler(&self, mark: usize) -> Option<usize>
        ensures { result ≡ slice_get self.now.handlers mark }
    {
        self.handlers.get(mark).copied()
    }

    pub fn go_on_at(&mut self, place: usize)
        ensures { self.new ≡ record self.old { place = place } }
    {
        self.place = place;
    }

    /// Keeps the present place for a handler.
    pub fn set_handler(&mut self) -> Result<(), NoMemory>
        ensures { OnOk result (self.new ≡ with_handler self.old) }
    {
        self.handlers.push(self.place)?;
        Ok(())
    }

    /// Whether there was a handler to be removed.
    pub fn remove_handler(&mut self) -> bool
        ensures some { result ≡ not (length self.old.handlers == 0) }
        ensures after { self.new ≡ without_handler self.old }
    {
        self.handlers.pop().is_some()
    }

    /// Goes on at a handler's place, with so many handlers left.
    pub fn catch_at(&mut self, mark: usize, place: usize)
        ensures { self.new ≡ with_caught mark place self.old }
    {
        self.place = place;
        self.handlers.truncate(mark);
    }

    /// Writes its numbers.
    pub fn put(&self, key: &mut Key) -> Result<(), AllocError>
        ensures { OnOk result (key.new ≡ key.old ++ frame_numbers self.now) }
    {
        key.put_all(&[
            self.number as u64,
            self.place as u64,
            self.handlers.len() as u64,
        ])?;
        for place in &self.handlers {
            key.put(*place as u64)?;
        }
        Ok(())
    }
}
