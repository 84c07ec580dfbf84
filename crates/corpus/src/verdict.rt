// What is said of a row.
ghost use Rattle.std.specs.Prelude.{◌≡◌};
ghost use Rattle.corpus.specs.Rows.{Says, ending};

use crate::difference::{Difference, first_difference};

/// The text and the status are those that are wanted; or the first line that differs; or, where all lines are equal, the
/// status that came in place of the wanted one.
#[derive(Clone, Copy, Debug, PartialEq, Eq)]
pub enum Verdict<'t> {
    Same,
    Line(Difference<'t>),
    Status(u8),
}

/// Compares a status and a text with those that are wanted.
pub fn compare<'t>(status: u8, text: &'t [u8], wanted_status: u8, wanted: &'t [u8]) -> Verdict<'t>
    ensures { Says status text.now wanted_status wanted.now result }
{
    match first_difference(text, wanted) {
        Some(difference) => Verdict::Line(difference),
        None if status == wanted_status => Verdict::Same,
        None => Verdict::Status(status),
    }
}

/// The last so many bytes, if they are whole lines; else all.
pub fn ending(text: &[u8], count: usize) -> &[u8]
    ensures { result.now ≡ ending count text.now }
{
    let start = text.len().saturating_sub(count);
    if start == 0 || text[start - 1] == b'\n' {
        &text[start..]
    } else {
        text
    }
}
