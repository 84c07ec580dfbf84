// The two lines of which a long script has most, those that say and those that post a text, told at one look: without the table,
// and without a phrase.
ghost use Rattle.std.specs.Prelude.{◌≡◌, ℕ, [], codes, IfSome, IsTrue, List, None, Some};
ghost use Rattle.lwp_types.specs.TextFields.{is_text};
ghost use Rattle.script_lines.specs.Line.{posting, saying};
ghost use Rattle.script_lines.specs.Reading.{phrase_at};
ghost use Rattle.script_lines.specs.Words.{behind};

use crate::phrase::client_at;
use crate::words::{is_text, reach};

fn behind_say(line: &[u8]) -> &[u8]
    ensures { result.now ≡ behind (codes "say ") line.now }
{
    match line {
        [b's', b'a', b'y', b' ', text @ ..] => text,
        _ => &[],
    }
}

fn behind_post(line: &[u8]) -> &[u8]
    ensures { result.now ≡ behind (codes "post ") line.now }
{
    match line {
        [b'p', b'o', b's', b't', b' ', words @ ..] => words,
        _ => &[],
    }
}

fn behind_space(words: &[u8]) -> &[u8]
    ensures { result.now ≡ behind (codes " ") words.now }
{
    match words {
        [b' ', more @ ..] => more,
        _ => &[],
    }
}

/// The text of a line that says one that isn't empty.
#[inline(always)]
pub fn said_at(line: &[u8]) -> Option<&[u8]>
    ensures said { IfSome result (λ text. phrase_at line.now ≡ Some (saying text.now)) }
    ensures every { (text : List ℕ) → phrase_at line.now ≡ Some (saying text) → result ≡ None → text ≡ [] }
    ensures is_text { IfSome result (λ text. IsTrue (is_text text.now)) }
{
    let text = behind_say(line);
    if text.is_empty() || !is_text(text) {
        return None;
    }
    Some(text)
}

/// The client and the text of a line that posts one that isn't empty.
#[inline(always)]
pub fn posted_at(line: &[u8]) -> Option<(u8, &[u8])>
    ensures said { IfSome result (λ x. phrase_at line.now ≡ Some (posting x.0 x.1.now)) }
    ensures every { (client : ℕ) (text : List ℕ) → phrase_at line.now ≡ Some (posting client text) → result ≡ None →
        text ≡ [] }
    ensures is_text { IfSome result (λ x. IsTrue (is_text x.1.now)) }
{
    let words = behind_post(line);
    if words.is_empty() {
        return None;
    }
    let (word, rest) = words.split_at(reach(b' ', words));
    let client = client_at(word)?;
    let text = behind_space(rest);
    if text.is_empty() || !is_text(text) {
        return None;
    }
    Some((client, text))
}
