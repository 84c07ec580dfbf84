// How lines are written.
ghost use Rattle.std.specs.Prelude.{◌≡◌, ◌∷◌, ◌++◌, OnOk};
ghost use Rattle.std.specs.List.{flat_map};
ghost use Rattle.script_advice.specs.Forms.{first_op, form, nearest_op, number_word, priority_word, procedure_word, slot_word};
ghost use Rattle.script_advice.specs.Near.{one_apart, two_apart};

use crate::near::{one_apart, two_apart};
use lwp_types::NoMemory;
use script_lines::{Kind, Op};
use trace_text::add_text;

// What the number of a line is called.
fn number_word(op: Op) -> &'static [u8]
    ensures { result.now ≡ number_word op }
{
    match op {
        Op::Lwp => b"1",
        Op::Pod => b"P",
        Op::SetMaxPri => b"P",
        Op::Raise => b"P",
        Op::ExcNotify => b"P",
        Op::Bound => b"P",
        Op::Handle => b"ARG",
        Op::Agent => b"E",
        Op::Trap => b"E",
        _ => b"N",
    }
}

// What the priority of a line is called.
fn priority_word(op: Op) -> &'static [u8]
    ensures { result.now ≡ priority_word op }
{
    match op {
        Op::Create => b"PRIO",
        _ => b"P",
    }
}

// What the procedure of a line is called.
fn procedure_word(op: Op) -> &'static [u8]
    ensures { result.now ≡ procedure_word op }
{
    match op {
        Op::Proc | Op::Native => b"NAME",
        _ => b"PROC",
    }
}

// The word that describes a slot.
#[tactic(auto, unfolding(crate::specs::Forms::slot_word))]
fn slot_word(op: Op, kind: Kind) -> &'static [u8]
    ensures { result.now ≡ slot_word op kind }
{
    match kind {
        Kind::Thread => b"NAME",
        Kind::Who => b"T",
        Kind::Source => b"T|any",
        Kind::Procedure => procedure_word(op),
        Kind::Monitor => b"M",
        Kind::Condition => b"C",
        Kind::Number => number_word(op),
        Kind::Priority => priority_word(op),
        Kind::Room => b"ROOM",
        Kind::Client => b"C",
        Kind::Event => b"E",
        Kind::Flags => b"FLAGS",
        Kind::Mode => b"MODE",
        Kind::Pattern => b"PATTERN",
        Kind::Func => b"FUNC",
        Kind::Test => b"COND",
        Kind::Built => b"store|session E T",
        Kind::Text => b"TEXT",
    }
}

// A word for each of these slots, after a space.
fn add_slots(out: &mut Vec<u8>, op: Op, kinds: &[Kind]) -> Result<(), NoMemory>
    ensures { OnOk result
        (out.new.items ≡ out.old.items ++ flat_map (λ k. 32 ∷ slot_word op k) kinds.now) }
{
    for kind in kinds {
        add_text(out, b" ")?;
        add_text(out, slot_word(op, *kind))?;
    }
    Ok(())
}

/// Appends the form of a line to the bytes so far: its key, and a word for each slot.
pub fn add_form(out: &mut Vec<u8>, op: Op) -> Result<(), NoMemory>
    ensures { OnOk result (out.new.items ≡ out.old.items ++ form op) }
{
    add_text(out, op.key())?;
    add_slots(out, op, op.slots())
}

// The first of these kinds whose key is one edit away from the words.
fn first_one_apart(ops: &[Op], words: &[u8]) -> Option<Op>
    ensures { result ≡ first_op (λ v. one_apart v words.now) ops.now }
{
    for op in ops {
        if one_apart(op.key(), words) {
            return Some(*op);
        }
    }
    None
}

// The first of these kinds whose key is two edits away from the words.
fn first_two_apart(ops: &[Op], words: &[u8]) -> Option<Op>
    ensures { result ≡ first_op (λ v. two_apart v words.now) ops.now }
{
    for op in ops {
        if two_apart(op.key(), words) {
            return Some(*op);
        }
    }
    None
}

/// The first kind of line whose key is one edit away from these words, or else the first whose key is two away.
pub fn nearest_op(words: &[u8]) -> Option<Op>
    ensures { result ≡ nearest_op words.now }
{
    match first_one_apart(Op::all(), words) {
        Some(op) => Some(op),
        None => first_two_apart(Op::all(), words),
    }
}
