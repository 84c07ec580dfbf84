// What is wrong, in words.
ghost use Rattle.std.specs.Prelude.{◌≡◌};
ghost use Rattle.script_advice.specs.WhatTexts.{kind_text, what_text};

use crate::faults::What;
use script_lines::Kind;

// What may be in a slot, where something else is.
fn kind_text(kind: Kind) -> &'static [u8]
    ensures { result.now ≡ kind_text kind }
{
    match kind {
        Kind::Thread | Kind::Procedure | Kind::Monitor | Kind::Condition =>
            b"no name: 1 to 16 of a to z, digits and _, a letter first, and none of self, first, sender, none and any",
        Kind::Who => b"no thread: a name, self, first, sender or none",
        Kind::Source => b"no thread: a name, self, first, sender, none or any",
        Kind::Number | Kind::Priority =>
            b"no number: decimal, no zeros in front, at most 4294967295",
        Kind::Room => b"no room: a number of at most 240",
        Kind::Client => b"no client: a number of at most 15",
        Kind::Event => b"no event: a number of at most 31",
        Kind::Flags => b"no flags: -, or some of s, n and v in this order",
        Kind::Mode => b"no mode: poll, wait or a number of ticks",
        Kind::Pattern => b"no pattern: all or a number",
        Kind::Func => b"no function: -, give or sum",
        Kind::Test => b"no condition: ok, err, caught, or is and a number",
        Kind::Built =>
            b"no built-in procedure: store, or session, an event from 1 to 31 and the name of a thread",
        Kind::Text => b"too long a text: at most 240 bytes",
    }
}

/// What is wrong, in words.
pub fn what_text(what: What) -> &'static [u8]
    ensures { result.now ≡ what_text what }
{
    match what {
        What::Blank => b"an empty line: each line says something",
        What::Comment => b"a comment: a script has none",
        What::Tab => b"a tab: words stand one space apart",
        What::Return => b"a carriage return: a line ends with a newline alone",
        What::Byte => b"a byte that isn't printable",
        What::Space => b"a space too many: words stand one space apart",
        What::UpperCase => b"an upper-case letter: words and names are in lower case",
        What::Unknown => b"no line begins so",
        What::Lacking => b"a word is missing",
        What::More => b"a word too many",
        What::Zero => b"a zero in front: a number has none",
        What::Slot(kind) => kind_text(kind),
    }
}
