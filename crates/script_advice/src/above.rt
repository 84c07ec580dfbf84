// What the lines above a bad one declare.
ghost use Rattle.std.specs.Prelude.{◌≡◌, take};
ghost use Rattle.std.specs.List.{list_any};
ghost use Rattle.script_lines.specs.Reading.{phrase_at};
ghost use Rattle.script_text.specs.Spelling.{line_cut};
ghost use Rattle.script_advice.specs.Above.{any_declares, declares_client, declares_procedure, declares_same};

use crate::known::{native_on, proc_on};
use crate::lines::first_line;
use script_lines::{Op, Phrase, phrase_at};
use script_text::Reason;

// Whether a line declares this procedure.
fn declares_procedure(name: &[u8], line: &[u8]) -> bool
    ensures { result ≡ declares_procedure name.now line.now }
{
    proc_on(line) == name || native_on(line) == name
}

// Whether a line declares the client with this number.
fn declares_client(client: u8, line: &[u8]) -> bool
    ensures { result ≡ declares_client client (phrase_at line.now) }
{
    match phrase_at(line) {
        None => false,
        Some(phrase) => phrase.op == Op::Client && phrase.client == client,
    }
}

// Whether a line declares what one that is bad for this reason declares again, or the client that it posts for.
fn declares_same(reason: Reason, phrase: &Phrase<'_>, line: &[u8]) -> bool
    ensures { result ≡ declares_same reason phrase.now line.now }
{
    match reason {
        Reason::Proc | Reason::Native => declares_procedure(phrase.procedure, line),
        Reason::Post => declares_client(phrase.client, line),
        _ => false,
    }
}

// Whether one of the first lines does, of which there are so many.
fn some_declares(reason: Reason, phrase: &Phrase<'_>, count: u32, text: &[u8]) -> bool
    ensures { result
        ≡ list_any (λ line. declares_same reason phrase.now line) (take count (line_cut text.now).0) }
{
    let mut rest = text;
    let mut left = count;
    while left > 0 {
        let Some((line, after)) = first_line(rest) else {
            return false;
        };
        if declares_same(reason, phrase, line) {
            return true;
        }
        rest = after;
        left -= 1;
    }
    false
}

/// Whether one of the first lines of a text, of which there are so many, declares what this bad line declares again, or the client that
/// it posts for.
pub fn any_declares(reason: Reason, count: u32, text: &[u8], line: &[u8]) -> bool
    ensures { result
        ≡ any_declares reason (take count (line_cut text.now).0) (phrase_at line.now) }
{
    match phrase_at(line) {
        None => false,
        Some(phrase) => some_declares(reason, &phrase, count, text),
    }
}
