// The words of lines. Each function puts its part at the end of the bytes so far.
ghost use Rattle.std.specs.Prelude.{◌≡◌, ◌++◌, ◌∷◌, [], OnOk, codes};
ghost use Rattle.std.specs.Fmt.{decimal};
ghost use Rattle.std.specs.List.{flat_map};
ghost use Rattle.state_text.specs.Text.{thread_words, words_line};
ghost use Rattle.trace_text.specs.Lines.{id_text, letter_if};

use lwp_types::{IdList, NoMemory};
use trace_text::{add_number, add_text};

// A number after the letter of its kind, or `none`.
pub(crate) fn add_id(out: &mut Vec<u8>, letter: &[u8], n: u64) -> Result<(), NoMemory>
    ensures { OnOk result (out.new.items ≡ out.old.items ++ id_text letter.now n) }
{
    if n == u64::MAX {
        return add_text(out, b"none");
    }
    add_text(out, letter)?;
    add_number(out, n)
}

// A word, and a number after the letter of its kind.
pub(crate) fn add_word_id(
    out: &mut Vec<u8>,
    word: &[u8],
    letter: &[u8],
    n: u64,
) -> Result<(), NoMemory>
    ensures { OnOk result (out.new.items ≡ out.old.items ++ (word.now ++ id_text letter.now n)) }
{
    add_text(out, word)?;
    add_id(out, letter, n)
}

// A word and a number.
pub(crate) fn add_word_number(out: &mut Vec<u8>, word: &[u8], n: u64) -> Result<(), NoMemory>
    ensures { OnOk result (out.new.items ≡ out.old.items ++ (word.now ++ decimal n)) }
{
    add_text(out, word)?;
    add_number(out, n)
}

// A depth, and the end of its line.
pub(crate) fn add_depth(out: &mut Vec<u8>, depth: u32) -> Result<(), NoMemory>
    ensures { OnOk result (out.new.items ≡ out.old.items ++ (codes " depth " ++ (decimal depth ++ codes "\n"))) }
{
    add_word_number(out, b" depth ", u64::from(depth))?;
    add_text(out, b"\n")
}

// A word, where it is to be there.
pub(crate) fn add_if(out: &mut Vec<u8>, there: bool, word: &[u8]) -> Result<(), NoMemory>
    ensures { OnOk result (out.new.items ≡ out.old.items ++ letter_if there word.now) }
{
    if there {
        add_text(out, word)?;
    }
    Ok(())
}

// Threads, each with a space before it.
pub(crate) fn add_threads(out: &mut Vec<u8>, threads: &IdList) -> Result<(), NoMemory>
    ensures { OnOk result (out.new.items ≡ out.old.items ++ thread_words threads.now) }
{
    for i in 0..threads.len() {
        add_word_id(out, b" ", b"t", threads.get(i))?;
    }
    Ok(())
}

// A line of a first word and others; nothing, where there are no others.
pub(crate) fn add_words_line(out: &mut Vec<u8>, first: &[u8], words: &[u8]) -> Result<(), NoMemory>
    ensures { OnOk result (out.new.items ≡ out.old.items ++ words_line first.now words.now) }
{
    if words.is_empty() {
        return Ok(());
    }
    add_text(out, first)?;
    add_text(out, words)?;
    add_text(out, b"\n")
}
