// A line to bytes: by its row of the table.
ghost use Rattle.std.specs.Prelude.{◌≡◌, ◌++◌, OnOk};
ghost use Rattle.std.specs.List.{flat_map};
ghost use Rattle.script_lines.specs.Line.{who_text, test_text, built_text, slot_text, phrase_text, with_newline};

use lwp_types::NoMemory;
use script_lines::{Kind, Phrase, Test, Whom};
use trace_text::{add_flags, add_mode, add_number, add_pattern, add_spaced, add_text, func_word};

fn add_whom(out: &mut Vec<u8>, whom: Whom, name: &[u8]) -> Result<(), NoMemory>
    ensures { OnOk result (out.new.items ≡ out.old.items ++ who_text whom name.now) }
{
    match whom {
        Whom::Named => add_text(out, name),
        Whom::Me => add_text(out, b"self"),
        Whom::First => add_text(out, b"first"),
        Whom::Sender => add_text(out, b"sender"),
        Whom::Nobody => add_text(out, b"none"),
        Whom::Any => add_text(out, b"any"),
    }
}

fn add_test(out: &mut Vec<u8>, test: Test) -> Result<(), NoMemory>
    ensures { OnOk result (out.new.items ≡ out.old.items ++ test_text test) }
{
    match test {
        Test::Fine => add_text(out, b"ok"),
        Test::Refused => add_text(out, b"err"),
        Test::Caught => add_text(out, b"caught"),
        Test::Value(value) => {
            add_text(out, b"is ")?;
            add_number(out, u64::from(value))
        }
    }
}

// What a built-in procedure is.
fn add_built(out: &mut Vec<u8>, event: u8, name: &[u8]) -> Result<(), NoMemory>
    ensures { OnOk result (out.new.items ≡ out.old.items ++ built_text event name.now) }
{
    if event == 0 {
        return add_text(out, b"store");
    }
    add_text(out, b"session ")?;
    add_number(out, u64::from(event))?;
    add_text(out, b" ")?;
    add_text(out, name)
}

// A slot after its space.
fn add_word(out: &mut Vec<u8>, phrase: &Phrase<'_>, kind: Kind) -> Result<(), NoMemory>
    ensures { OnOk result (out.new.items ≡ out.old.items ++ slot_text phrase.now kind) }
{
    if kind == Kind::Text {
        return add_spaced(out, phrase.text);
    }
    add_text(out, b" ")?;
    match kind {
        Kind::Thread => add_text(out, phrase.thread),
        Kind::Who | Kind::Source => add_whom(out, phrase.who, phrase.thread),
        Kind::Procedure => add_text(out, phrase.procedure),
        Kind::Monitor => add_text(out, phrase.monitor),
        Kind::Condition => add_text(out, phrase.condition),
        Kind::Number | Kind::Priority => add_number(out, u64::from(phrase.number)),
        Kind::Room => add_number(out, u64::from(phrase.room)),
        Kind::Client => add_number(out, u64::from(phrase.client)),
        Kind::Event => add_number(out, u64::from(phrase.event)),
        Kind::Flags => add_flags(out, phrase.flags),
        Kind::Mode => add_mode(out, phrase.mode),
        Kind::Pattern => add_pattern(out, phrase.pattern),
        Kind::Func => add_text(out, func_word(phrase.func)),
        Kind::Test => add_test(out, phrase.test),
        Kind::Built => add_built(out, phrase.event, phrase.thread),
        Kind::Text => Ok(()),
    }
}

// The slots of a row.
fn add_slots(out: &mut Vec<u8>, phrase: &Phrase<'_>, kinds: &[Kind]) -> Result<(), NoMemory>
    ensures { OnOk result
        (out.new.items ≡ out.old.items ++ flat_map (slot_text phrase.now) kinds.now) }
{
    for kind in kinds {
        add_word(out, phrase, *kind)?;
    }
    Ok(())
}

/// A line with its end.
pub(crate) fn add_line(out: &mut Vec<u8>, phrase: &Phrase<'_>) -> Result<(), NoMemory>
    ensures { OnOk result (out.new.items ≡ out.old.items ++ with_newline (phrase_text phrase.now)) }
{
    add_text(out, phrase.op.key())?;
    add_slots(out, phrase, phrase.op.slots())?;
    add_text(out, b"\n")
}
