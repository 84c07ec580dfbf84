// What belongs to a thread, a monitor or a condition: entries of a list under one key, each with its line.
ghost use Rattle.std.specs.Prelude.{◌≡◌, ◌++◌, ◌==◌, ℕ, List, OnOk, map};
ghost use Rattle.std.specs.List.{filter, flat_map};
ghost use Rattle.state_text.specs.Text.{agent_line, holds_line, letter_line, mark_line, request_line, wait_line};

use crate::keys::Keys;
use crate::words::{add_depth, add_if, add_word_id, add_word_number};
use lwp_types::{AgentRow, Letter, Lock, Mark, NoMemory, Request, WaitRow};
use trace_text::{add_exit, add_pattern, add_spaced_text, add_text, func_word};

/// An entry of a list under a key, and its line.
pub(crate) trait Entry {
    ghost key: { Self → ℕ };

    ghost text: { Self → List ℕ };

    fn add_line(&self, out: &mut Vec<u8>) -> Result<(), NoMemory>
        ensures { OnOk result (out.new.items ≡ out.old.items ++ text self.now) };
}

/// The lines of the entries under a key, in order.
pub(crate) fn add_entries<T: Entry>(
    out: &mut Vec<u8>,
    entries: &[T],
    keys: &Keys,
    key: u64,
) -> Result<(), NoMemory>
    requires { keys.now ≡ map T.key entries.now }
    ensures { OnOk result (out.new.items ≡ out.old.items ++ flat_map T.text (filter (λ x. T.key x == key) entries.now)) }
{
    let mut from = 0;
    while let Some(place) = keys.next(key, from) {
        entries[place].add_line(out)?;
        from = place + 1;
    }
    Ok(())
}

// A lock, under its owner.
impl Entry for Lock {
    ghost key = { λ lock. lock.owner };

    ghost text = { holds_line };

    fn add_line(&self, out: &mut Vec<u8>) -> Result<(), NoMemory> {
        add_word_id(out, b"  holds ", b"m", self.mon.number)?;
        add_depth(out, self.depth)
    }
}

// A letter, under whom it is to.
impl<'s> Entry for Letter<'s> {
    ghost key = { λ letter. letter.to };

    ghost text = { letter_line };

    fn add_line(&self, out: &mut Vec<u8>) -> Result<(), NoMemory> {
        let word: &[u8] = if self.received {
            b"  received "
        } else {
            b"  letter "
        };
        add_word_id(out, word, b"t", self.from.number)?;
        add_word_number(out, b" ", u64::from(self.room))?;
        add_spaced_text(out, &self.text)?;
        add_text(out, b"\n")
    }
}

// An agent, under its owner.
impl Entry for AgentRow {
    ghost key = { λ row. row.owner };

    ghost text = { agent_line };

    fn add_line(&self, out: &mut Vec<u8>) -> Result<(), NoMemory> {
        add_word_id(out, b"  agent ", b"t", self.number.number)?;
        add_word_number(out, b" event ", u64::from(self.event))?;
        add_if(out, self.holding, b" holds")?;
        add_text(out, b"\n")
    }
}

// A request, under its monitor.
impl Entry for Request {
    ghost key = { λ r. r.mon };

    ghost text = { request_line };

    fn add_line(&self, out: &mut Vec<u8>) -> Result<(), NoMemory> {
        add_word_id(out, b"  request ", b"t", self.tid.number)?;
        add_depth(out, self.depth)
    }
}

// A wait, under its condition.
impl Entry for WaitRow {
    ghost key = { λ w. w.cond };

    ghost text = { wait_line };

    fn add_line(&self, out: &mut Vec<u8>) -> Result<(), NoMemory> {
        add_word_id(out, b"  wait ", b"t", self.tid.number)?;
        add_depth(out, self.depth)
    }
}

/// A mark of a stack.
pub(crate) fn add_mark(out: &mut Vec<u8>, mark: &Mark) -> Result<(), NoMemory>
    ensures { OnOk result (out.new.items ≡ out.old.items ++ mark_line mark.now) }
{
    match mark {
        Mark::Frame => add_text(out, b"  frame\n"),
        Mark::Handler { pattern, func, arg } => {
            add_text(out, b"  handler ")?;
            add_pattern(out, *pattern)?;
            add_text(out, b" ")?;
            add_text(out, func_word(*func))?;
            add_word_number(out, b" ", u64::from(*arg))?;
            add_text(out, b"\n")
        }
        Mark::Exit { reg, call } => {
            add_word_number(out, b"  exit x", *reg)?;
            add_text(out, b" ")?;
            add_exit(out, call)?;
            add_text(out, b"\n")
        }
    }
}
