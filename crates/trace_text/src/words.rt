// The words that lines are made of. Each function but those that answer a word puts its part at the end of the bytes so far.
ghost use Rattle.std.specs.Prelude.{◌≡◌, ◌≤◌, ◌+◌, ◌++◌, IfOk, None, OnOk, length, take};
ghost use Rattle.std.specs.Fmt.{decimal};
ghost use Rattle.trace_text.specs.Lines.{with_space, exit_text, flags_text, mode_text, pattern_text, func_text};

use crate::calls::put_exit;
use crate::rows::{put_flags, put_mode, put_number, put_pattern};
use lwp_types::{ExitCall, Flags, Func, Mode, NoMemory, Pattern, Text};

/// A text as it is.
pub fn add_text(out: &mut Vec<u8>, text: &[u8]) -> Result<(), NoMemory>
    ensures { OnOk result (out.new.items ≡ out.old.items ++ text.now) }
{
    out.extend_from_slice(text)?;
    Ok(())
}

// A short word, byte by byte, which costs less than a copy does.
#[inline(always)]
pub(crate) fn add_word(out: &mut Vec<u8>, word: &[u8]) -> Result<(), NoMemory>
    ensures { OnOk result (out.new.items ≡ out.old.items ++ word.now) }
{
    out.reserve(word.len())?;
    for i in 0..word.len() {
        out.push_reserved(word[i]);
    }
    Ok(())
}

/// A text after a space; nothing, where it is empty.
pub fn add_spaced(out: &mut Vec<u8>, text: &[u8]) -> Result<(), NoMemory>
    ensures { OnOk result (out.new.items ≡ out.old.items ++ with_space text.now) }
{
    if !text.is_empty() {
        add_word(out, b" ")?;
        add_text(out, text)?;
    }
    Ok(())
}

/// A lent text after a space; nothing, where it is empty.
pub fn add_spaced_text(out: &mut Vec<u8>, text: &Text) -> Result<(), NoMemory>
    ensures { OnOk result (out.new.items ≡ out.old.items ++ with_space text.now) }
{
    let (lead, rest) = text.parts();
    if lead.is_empty() {
        return add_spaced(out, rest);
    }
    add_word(out, b" ")?;
    add_word(out, lead)?;
    add_text(out, rest)
}

// How many bytes the short words of a line take at most.
const ROOM: usize = 96;

// Opens room for the short words of a line, and answers where it begins. They are put there one by one, which can't fail, and
// `truncate` takes away the rest.
#[inline(always)]
fn open(out: &mut Vec<u8>) -> Result<usize, NoMemory>
    ensures from { IfOk result (λ from. take from out.new.items ≡ out.old.items) }
    ensures room { IfOk result (λ from. from + 96 ≤ length out.new.items) }
{
    let from = out.len();
    out.resize(from + ROOM, 0)?;
    Ok(from)
}

/// A number in decimal. It needs no memory but for the bytes so far and a row after them.
pub fn add_number(out: &mut Vec<u8>, n: u64) -> Result<(), NoMemory>
    ensures { OnOk result (out.new.items ≡ out.old.items ++ decimal n) }
{
    let from = open(out)?;
    let end = put_number(out.as_mut_slice(), from, n);
    out.truncate(end);
    Ok(())
}

/// The flags of a new thread.
pub fn add_flags(out: &mut Vec<u8>, flags: Flags) -> Result<(), NoMemory>
    ensures { OnOk result (out.new.items ≡ out.old.items ++ flags_text flags) }
{
    let from = open(out)?;
    let end = put_flags(out.as_mut_slice(), from, flags);
    out.truncate(end);
    Ok(())
}

/// How a receive waits: a word, or the number of ticks.
pub fn add_mode(out: &mut Vec<u8>, mode: Mode) -> Result<(), NoMemory>
    ensures { OnOk result (out.new.items ≡ out.old.items ++ mode_text mode) }
{
    let from = open(out)?;
    let end = put_mode(out.as_mut_slice(), from, mode);
    out.truncate(end);
    Ok(())
}

pub fn func_word(func: Func) -> &'static [u8]
    ensures { result.now ≡ func_text func }
{
    match func {
        Func::Nothing => b"-",
        Func::Give => b"give",
        Func::Sum => b"sum",
    }
}

/// A handler's pattern.
pub fn add_pattern(out: &mut Vec<u8>, pattern: Pattern) -> Result<(), NoMemory>
    ensures { OnOk result (out.new.items ≡ out.old.items ++ pattern_text pattern) }
{
    let from = open(out)?;
    let end = put_pattern(out.as_mut_slice(), from, pattern);
    out.truncate(end);
    Ok(())
}

// How many bytes what an exit procedure does takes at most.
const EXIT_ROOM: usize = 270;

/// What an exit procedure does, each thread by its number.
pub fn add_exit(out: &mut Vec<u8>, call: &ExitCall) -> Result<(), NoMemory>
    ensures { OnOk result (out.new.items ≡ out.old.items ++ exit_text None call.now) }
{
    let from = out.len();
    out.resize(from + EXIT_ROOM, 0)?;
    let end = put_exit(out.as_mut_slice(), from, None, call);
    out.truncate(end);
    Ok(())
}

// A word and a number.
pub(crate) fn add_word_number(out: &mut Vec<u8>, word: &[u8], n: u32) -> Result<(), NoMemory>
    ensures { OnOk result (out.new.items ≡ out.old.items ++ (word.now ++ decimal n)) }
{
    add_word(out, word)?;
    add_number(out, u64::from(n))
}
