// The errors of a text are told: its first bad line, and the lines after it that are bad by themselves.
ghost use Rattle.std.specs.Prelude.{◌≡◌, ◌++◌, ◌∷◌, ◌<◌, None, IfOk, OnOk, List, suc, take};
ghost use Rattle.script_lines.specs.Reading.{phrase_at};
ghost use Rattle.script_text.specs.Spelling.{line_cut, reason_of};
ghost use Rattle.script_text.specs.declared.stage.Stage.TheVariants as stage;
ghost use Rattle.script_advice.specs.Errors.{alone, end_remarks, errors_at, later, with_error};
ghost use Rattle.script_advice.specs.Above.{told_after, told_with, untold};
ghost use Rattle.script_advice.specs.Remarks.{Remark, remark_of};
ghost use Rattle.script_advice.specs.Texts.{remark_text, remarks_text};

use crate::above::any_declares;
use crate::known::Known;
use crate::lines::{behind_lines, first_line};
use crate::remarks::remark_of;
use crate::texts::{Format, add_remark};
use crate::told::Told;
use lwp_types::NoMemory;
use script_lines::{is_printable, phrase_at, reach};
use script_text::{NameList, Reason};
use std::alloc::Global;

// The reason of a line that says nothing, among statements.
fn unsaid_reason(line: &[u8]) -> Reason
    requires { phrase_at line.now ≡ None }
    ensures { result ≡ reason_of stage.Calling line.now }
{
    let (word, _) = line.split_at(reach(b' ', line));
    if word == b"limit".as_slice() {
        Reason::Limit
    } else if word == b"client".as_slice() {
        Reason::Client
    } else if word == b"native".as_slice() {
        Reason::Native
    } else if word == b"proc".as_slice() {
        Reason::Proc
    } else if word == b"post".as_slice() {
        Reason::Post
    } else {
        Reason::Statement
    }
}

// Why a line is bad wherever it stands, where these undeclared procedures were told.
#[tactic(auto, unfolding(crate::specs::Errors::alone))]
fn alone(known: &Known, told: &NameList, line: &[u8]) -> Option<Reason>
    ensures { result ≡ alone known.now told.now line.now }
{
    if !is_printable(line) {
        return Some(Reason::Bytes);
    }
    let Some(phrase) = phrase_at(line) else {
        return Some(unsaid_reason(line));
    };
    if known.allows(&phrase) || told.contains(phrase.procedure) {
        None
    } else {
        Some(Reason::Statement)
    }
}

// Tells one error.
fn add_error(
    out: &mut Vec<u8>,
    format: Format,
    known: &Known,
    above: bool,
    number: u32,
    reason: Reason,
    line: &[u8],
) -> Result<(), NoMemory>
    ensures { OnOk result
        (out.new.items
        ≡ out.old.items
        ++ remark_text format (remark_of known.now above number reason line.now)) }
{
    let remark = remark_of(known, above, number, reason, line);
    add_remark(out, format, &remark)
}

// Tells why a line is bad, if it is bad by itself, and notes it. Gives how many more errors may be told then.
fn add_alone(
    out: &mut Vec<u8>,
    format: Format,
    known: &Known,
    told: &mut Told,
    number: u32,
    line: &[u8],
    left: u32,
) -> Result<u32, NoMemory>
    requires { 0 < left }
    ensures out { IfOk result
        (λ after.
        (others : List Remark) →
        out.old.items
        ++ remarks_text format
        (take left
        (with_error known.now number line.now
        (alone known.now told.old.undeclared line.now) others))
        ≡ out.new.items ++ remarks_text format (take after others)) }
    ensures told { OnOk result
        (told.new
        ≡ told_after known.now told.old line.now
        (alone known.now told.old.undeclared line.now)) }
{
    let Some(reason) = alone(known, &told.undeclared, line) else {
        return Ok(left);
    };
    add_error(out, format, known, false, number, reason, line)?;
    told.note(known, reason, line)?;
    Ok(left - 1)
}

// Tells of a last line that hasn't ended.
fn add_unended(
    out: &mut Vec<u8>,
    format: Format,
    known: &Known,
    number: u32,
    tail: &[u8],
    left: u32,
) -> Result<(), NoMemory>
    ensures { OnOk result
        (out.new.items
        ≡ out.old.items ++ remarks_text format (take left (end_remarks known.now number tail.now))) }
{
    if left == 0 || tail.is_empty() {
        return Ok(());
    }
    add_error(out, format, known, false, number, Reason::Unended, tail)
}

// Tells the errors of these lines, of which the first has this number, and no more than so many. All this was told above.
fn add_later(
    out: &mut Vec<u8>,
    format: Format,
    known: &Known,
    told: &mut Told,
    first: u32,
    text: &[u8],
    most: u32,
) -> Result<(), NoMemory>
    ensures { OnOk result
        (out.new.items
        ≡ out.old.items
        ++ remarks_text format
        (take most (later known.now told.old first (line_cut text.now).0 (line_cut text.now).1))) }
{
    let mut number = first;
    let mut rest = text;
    let mut left = most;
    while let Some((line, after)) = first_line(rest) {
        if left == 0 {
            return Ok(());
        }
        let seen = told.seen(line);
        left = add_alone(out, format, known, told, number, seen, left)?;
        number = number.checked_add(1).ok_or(NoMemory)?;
        rest = after;
    }
    add_unended(out, format, known, number, rest, left)
}

fn next_number(number: u32) -> Result<u32, NoMemory>
    ensures { IfOk result (λ n. n ≡ suc number) }
{
    number.checked_add(1).ok_or(NoMemory)
}

// Tells the first bad line of a text, for this reason, and then the errors of those after it, a thousand together.
fn add_from_first(
    alloc: Global,
    out: &mut Vec<u8>,
    format: Format,
    known: &Known,
    above: bool,
    number: u32,
    reason: Reason,
    bad: &[u8],
    after: &[u8],
) -> Result<(), NoMemory>
    ensures { OnOk result
        (out.new.items
        ≡ out.old.items
        ++ remarks_text format
        (take 1000
        (remark_of known.now above number reason bad.now
        ∷ later known.now (told_with known.now untold reason bad.now) (suc number)
        (line_cut after.now).0 (line_cut after.now).1))) }
{
    add_error(out, format, known, above, number, reason, bad)?;
    let mut told = Told::new(alloc);
    told.note(known, reason, bad)?;
    let next = next_number(number)?;
    add_later(out, format, known, &mut told, next, after, 999)
}

/// Tells the first thousand errors of a text whose first bad line is this, for this reason.
#[tactic(auto, unfolding(crate::specs::Errors::errors_at))]
pub fn add_errors(
    alloc: Global,
    out: &mut Vec<u8>,
    format: Format,
    text: &[u8],
    line: u32,
    reason: Reason,
) -> Result<(), NoMemory>
    ensures { OnOk result
        (out.new.items
        ≡ out.old.items ++ remarks_text format (take 1000 (errors_at text.now line reason))) }
{
    let known = Known::by(alloc, text)?;
    if line == 0 {
        return add_error(out, format, &known, false, 0, reason, &[]);
    }
    let rest = behind_lines(line - 1, text);
    let Some((bad, after)) = first_line(rest) else {
        return add_error(out, format, &known, false, line, reason, rest);
    };
    let above = any_declares(reason, line - 1, text, bad);
    add_from_first(alloc, out, format, &known, above, line, reason, bad, after)
}
