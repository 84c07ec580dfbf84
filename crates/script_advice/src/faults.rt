// The first wrong word of a line, and what is wrong with it.
ghost use Rattle.std.specs.Prelude.{◌≡◌, Some, take, drop};
ghost use Rattle.std.specs.Char.{is_ascii_digit};
ghost use Rattle.std.specs.List.{list_all, list_any};
ghost use Rattle.script_lines.specs.Table.{is_half, key_length};
ghost use Rattle.script_lines.specs.Reading.{first_word};
ghost use Rattle.script_advice.specs.Faults.{behind_slot, behind_word, byte_what, end_fault, fault_at, fault_of, form_fault, from_slot, from_unprintable, front_fault, is_upper, key_at, op_of, opens_comment, second_fault, slot_at, slot_fault, slot_what, slots_fault, takes_number, is_padded, text_fault, what_of, word_fault, wrong};
ghost use Rattle.script_advice.specs.Faults.{rest_fault};
ghost use Rattle.script_advice.specs.Slots.{is_built, is_test};
ghost use Rattle.script_lines.specs.declared.table.Kind.TheVariants as kind;

use crate::near::behind_first;
use crate::slots::{fits, is_built, is_test};
use script_lines::{Kind, Op, is_printable, reach};

/// What is wrong with a word of a line, or with the line.
#[derive(Clone, Copy)]
pub enum What {
    /// The line is empty.
    Blank,
    /// The line begins as comments do elsewhere.
    Comment,
    /// A tab.
    Tab,
    /// A carriage return.
    Return,
    /// Any other byte that isn't printable.
    Byte,
    /// A space that doesn't part two words.
    Space,
    /// A word with an upper-case letter, which may not stand there.
    UpperCase,
    /// No line begins so.
    Unknown,
    /// The line ends where a word has to stand.
    Lacking,
    /// The line goes on where it has to end.
    More,
    /// A number with a zero in front.
    Zero,
    /// What is in this slot may not be there.
    Slot(Kind),
}

/// What is wrong with a line, and how many bytes are left of it from the wrong word on.
#[derive(Clone, Copy)]
pub struct Fault {
    pub left: usize,
    pub what: What,
}

// A fault of what is left of the line.
fn fault_at(rest: &[u8], what: What) -> Option<Fault>
    ensures { result ≡ Some (fault_at rest.now what) }
{
    Some(Fault {
        left: rest.len(),
        what,
    })
}

fn has_upper(word: &[u8]) -> bool
    ensures { result ≡ list_any is_upper word.now }
{
    word.iter().any(|b| 65 <= *b && *b <= 90)
}

// What is wrong with a word that may not stand where it does.
fn what_of(other: What, word: &[u8]) -> What
    ensures { result ≡ what_of other word.now }
{
    match word {
        [] => What::Space,
        [_, ..] if has_upper(word) => What::UpperCase,
        _ => other,
    }
}

fn first_word(line: &[u8]) -> &[u8]
    ensures { result.now ≡ first_word line.now }
{
    &line[..reach(b' ', line)]
}

// The fault of a first word that may not stand where it does.
fn wrong(other: What, words: &[u8]) -> Option<Fault>
    ensures { result ≡ wrong other words.now }
{
    fault_at(words, what_of(other, first_word(words)))
}

// Whether a number may fill the slot by itself.
fn takes_number(kind: Kind) -> bool
    ensures { result ≡ takes_number kind }
{
    matches!(
        kind,
        Kind::Number
            | Kind::Priority
            | Kind::Room
            | Kind::Client
            | Kind::Event
            | Kind::Mode
            | Kind::Pattern
    )
}

fn are_digits(word: &[u8]) -> bool
    ensures { result ≡ list_all is_ascii_digit word.now }
{
    word.iter().all(|b| 48 <= *b && *b <= 57)
}

// Whether the word is of digits, with a zero in front that could be left out.
fn is_padded(word: &[u8]) -> bool
    ensures { result ≡ is_padded word.now }
{
    match word {
        [first, _, ..] => *first == b'0' && are_digits(word),
        _ => false,
    }
}

// What is wrong with a word in a slot that it doesn't fill.
#[tactic(auto, unfolding(crate::specs::Faults::slot_what))]
fn slot_what(kind: Kind, word: &[u8]) -> What
    ensures { result ≡ slot_what kind word.now }
{
    if takes_number(kind) && is_padded(word) {
        What::Zero
    } else {
        What::Slot(kind)
    }
}

// The fault of a slot that a word fills.
fn word_fault(kind: Kind, rest: &[u8]) -> Option<Fault>
    ensures { result ≡ word_fault kind rest.now }
{
    match rest {
        [] => fault_at(rest, What::Lacking),
        [_, words @ ..] => {
            let word = first_word(words);
            if fits(kind, word) {
                None
            } else {
                wrong(slot_what(kind, word), words)
            }
        }
    }
}

// The fault of a text, which may be wanting.
fn text_fault(rest: &[u8]) -> Option<Fault>
    ensures { result ≡ text_fault rest.now }
{
    match rest {
        [] => None,
        [_] => fault_at(&[], What::Space),
        [_, text @ ..] => {
            if text.len() <= 240 && is_printable(text) {
                None
            } else {
                fault_at(text, What::Slot(Kind::Text))
            }
        }
    }
}

// The fault of a condition, which is all that is left.
fn test_fault(rest: &[u8]) -> Option<Fault>
    ensures { result ≡ rest_fault kind.Test is_test rest.now }
{
    match rest {
        [] => fault_at(rest, What::Lacking),
        [_, words @ ..] => {
            if is_test(words) {
                None
            } else {
                wrong(What::Slot(Kind::Test), words)
            }
        }
    }
}

// The fault of what a built-in procedure is, which is all that is left.
fn built_fault(rest: &[u8]) -> Option<Fault>
    ensures { result ≡ rest_fault kind.Built is_built rest.now }
{
    match rest {
        [] => fault_at(rest, What::Lacking),
        [_, words @ ..] => {
            if is_built(words) {
                None
            } else {
                wrong(What::Slot(Kind::Built), words)
            }
        }
    }
}

// The fault of a slot.
fn slot_fault(kind: Kind, rest: &[u8]) -> Option<Fault>
    ensures { result ≡ slot_fault kind rest.now }
{
    match kind {
        Kind::Text => text_fault(rest),
        Kind::Test => test_fault(rest),
        Kind::Built => built_fault(rest),
        _ => word_fault(kind, rest),
    }
}

// What is left after a space and a word.
fn behind_word(rest: &[u8]) -> &[u8]
    ensures { result.now ≡ behind_word rest.now }
{
    match rest {
        [] => &[],
        [_, words @ ..] => &words[reach(b' ', words)..],
    }
}

// What is left after a slot.
fn behind_slot(kind: Kind, rest: &[u8]) -> &[u8]
    ensures { result.now ≡ behind_slot kind rest.now }
{
    match kind {
        Kind::Text | Kind::Test | Kind::Built => &[],
        _ => behind_word(rest),
    }
}

// The fault of what follows all slots.
fn end_fault(rest: &[u8]) -> Option<Fault>
    ensures { result ≡ end_fault rest.now }
{
    match rest {
        [] => None,
        [_, words @ ..] => wrong(What::More, words),
    }
}

// The first fault in these slots, which what is left has to fill.
fn slots_fault(kinds: &[Kind], rest: &[u8]) -> Option<Fault>
    ensures { result ≡ slots_fault kinds.now rest.now }
{
    let mut left = rest;
    for kind in kinds {
        if let Some(fault) = slot_fault(*kind, left) {
            return Some(fault);
        }
        left = behind_slot(*kind, left);
    }
    end_fault(left)
}

// Whether the byte is one with which comments begin elsewhere.
fn opens_comment(byte: u8) -> bool
    ensures { result ≡ opens_comment byte }
{
    byte == b'#' || byte == b'-' || byte == b'/' || byte == b';'
}

// Whether the word is no key without the next one.
fn is_half(word: &[u8]) -> bool
    ensures { result ≡ is_half word.now }
{
    word == b"limit".as_slice() || word == b"onexit".as_slice()
}

// The fault of what follows a first word that needs a second one.
fn second_fault(rest: &[u8]) -> Option<Fault>
    ensures { result ≡ second_fault rest.now }
{
    match rest {
        [] => fault_at(rest, What::Lacking),
        [_, words @ ..] => wrong(What::Unknown, words),
    }
}

// The fault of a line that begins as none does.
fn front_fault(line: &[u8]) -> Option<Fault>
    ensures { result ≡ front_fault line.now }
{
    match line {
        [] => fault_at(line, What::Blank),
        [b, ..] if opens_comment(*b) => fault_at(line, What::Comment),
        _ => {
            let (word, rest) = line.split_at(reach(b' ', line));
            if is_half(word) {
                second_fault(rest)
            } else {
                wrong(What::Unknown, line)
            }
        }
    }
}

// How long the key of a line is.
fn key_length(line: &[u8]) -> usize
    ensures { result ≡ key_length line.now }
{
    let first = reach(b' ', line);
    if !is_half(&line[..first]) {
        return first;
    }
    if first == line.len() {
        return first + 1;
    }
    first + 1 + reach(b' ', &line[first + 1..])
}

// The key of a line, and what follows it.
#[tactic(auto, using(std::proofs::lemmas::List::take_min, std::proofs::lemmas::List::drop_min))]
fn split_key(line: &[u8]) -> (&[u8], &[u8])
    ensures key { result.0.now ≡ take (key_length line.now) line.now }
    ensures rest { result.1.now ≡ drop (key_length line.now) line.now }
{
    line.split_at(key_length(line).min(line.len()))
}

/// The kind of the line, by its key.
#[tactic(auto, unfolding(crate::specs::Faults::op_of))]
pub fn op_of(line: &[u8]) -> Option<Op>
    ensures { result ≡ op_of line.now }
{
    let (key, _) = split_key(line);
    Op::at(key)
}

// The fault of a line of this kind, or of none.
fn form_fault(op: Option<Op>, line: &[u8]) -> Option<Fault>
    ensures { result ≡ form_fault op line.now }
{
    match op {
        None => front_fault(line),
        Some(op) => {
            let (_, rest) = split_key(line);
            slots_fault(op.slots(), rest)
        }
    }
}

/// The bytes from the first on that isn't printable.
pub fn from_unprintable(line: &[u8]) -> &[u8]
    ensures { result.now ≡ from_unprintable line.now }
{
    let mut rest = line;
    while let [b, more @ ..] = rest {
        if *b < 32 || 126 < *b {
            return rest;
        }
        rest = more;
    }
    rest
}

// What the first byte is, which isn't printable.
fn byte_what(rest: &[u8]) -> What
    ensures { result ≡ byte_what rest.now }
{
    match rest {
        [9, ..] => What::Tab,
        [13, ..] => What::Return,
        _ => What::Byte,
    }
}

/// The first fault of a line, if its form has one.
#[tactic(auto, unfolding(crate::specs::Faults::fault_of))]
pub fn fault_of(line: &[u8]) -> Option<Fault>
    ensures { result ≡ fault_of line.now }
{
    if is_printable(line) {
        return form_fault(op_of(line), line);
    }
    let rest = from_unprintable(line);
    fault_at(rest, byte_what(rest))
}

/// The key of the line: its first word, or the first two where both are the key.
pub fn key_at(line: &[u8]) -> &[u8]
    ensures { result.now ≡ key_at line.now }
{
    let (key, _) = split_key(line);
    key
}

// What is left from the first slot of this kind on.
fn from_slot<'l>(kind: Kind, kinds: &[Kind], rest: &'l [u8]) -> &'l [u8]
    ensures { result.now ≡ from_slot kind kinds.now rest.now }
{
    let mut left = rest;
    for other in kinds {
        if *other == kind {
            return behind_first(left);
        }
        left = behind_slot(*other, left);
    }
    &[]
}

/// What is left of a line of this kind from the first slot of that kind on; nothing, where it has no such slot.
pub fn slot_at(op: Op, kind: Kind, line: &[u8]) -> &[u8]
    ensures { result.now ≡ slot_at op kind line.now }
{
    let (_, rest) = split_key(line);
    from_slot(kind, op.slots(), rest)
}
