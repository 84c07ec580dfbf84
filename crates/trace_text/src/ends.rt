// How a session comes to its end, and the lines after its last step.
ghost use Rattle.std.specs.Prelude.{◌≡◌, ◌++◌, OnOk, IfOk};
ghost use Rattle.trace_text.specs.Lines.{halt_text, left_text, end_text};

use crate::words::{add_number, add_word, add_word_number};
use lwp_types::NoMemory;
use std::alloc::Global;

/// How a session comes to its end.
#[derive(Clone, Copy, Debug, PartialEq, Eq)]
pub enum Halt {
    /// The pod has ended, with this status.
    Ended(u8),
    /// Nobody may run, and no event can be delivered that has a line left.
    Stuck,
    /// All calls that were allowed have been made.
    Spent,
}

fn add_halt(out: &mut Vec<u8>, halt: &Halt, turns: u64) -> Result<(), NoMemory>
    ensures { OnOk result (out.new.items ≡ out.old.items ++ halt_text turns halt.now) }
{
    match halt {
        Halt::Ended(_) => Ok(()),
        Halt::Stuck => add_word(out, b"stuck\n"),
        Halt::Spent => {
            add_word(out, b"spent ")?;
            add_number(out, turns)?;
            add_word(out, b"\n")
        }
    }
}

fn add_left(out: &mut Vec<u8>, client: u64, count: u32) -> Result<(), NoMemory>
    ensures { OnOk result (out.new.items ≡ out.old.items ++ left_text client count) }
{
    if count == 0 {
        return Ok(());
    }
    add_word(out, b"left client ")?;
    add_number(out, client)?;
    add_word_number(out, b" ", count)?;
    add_word(out, b"\n")
}

/// The lines after those of the last step. `turns` is how many calls were allowed, and `left` how many lines of each client are
/// left, by client.
pub fn end_lines(alloc: Global, halt: &Halt, turns: u64, left: &[u32]) -> Result<Vec<u8>, NoMemory>
    ensures { IfOk result (λ out. out.items ≡ end_text turns left.now halt.now) }
{
    let mut out = Vec::new(alloc);
    add_halt(&mut out, halt, turns)?;
    for (client, count) in left.iter().enumerate() {
        add_left(&mut out, client as u64, *count)?;
    }
    Ok(out)
}
