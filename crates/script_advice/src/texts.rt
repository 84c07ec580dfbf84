// How a remark is written. Each function appends its part to the bytes so far.
ghost use Rattle.std.specs.Prelude.{◌≡◌, ◌++◌, OnOk, map};
ghost use Rattle.script_advice.specs.Texts.{advice_text, column, head_text, json_advice, json_place, json_reason, json_text, labelled_form, line_advice, line_place, line_reason, line_text, line_with_caret, plain_text, remark_text, shown_byte, under, with_label};

use crate::forms::add_form;
use crate::remarks::{Remark, cause_text, severity_text, why_text};
use lwp_types::NoMemory;
use script_lines::Op;
use trace_text::{add_number, add_text};

/// For whom remarks are written.
#[derive(Clone, Copy)]
pub enum Format {
    /// Readers: some lines for each, with the bad line itself among them.
    Plain,
    /// Editors: a line for each, to which the name of the file belongs.
    Line,
    /// Programs: an object for each, on a line of its own.
    Json,
}

// A text after this one, if there is any.
fn add_labelled(out: &mut Vec<u8>, front: &[u8], text: &[u8], end: &[u8]) -> Result<(), NoMemory>
    ensures { OnOk result (out.new.items ≡ out.old.items ++ with_label front.now text.now end.now) }
{
    if text.is_empty() {
        return Ok(());
    }
    add_text(out, front)?;
    add_text(out, text)?;
    add_text(out, end)
}

// The form of this kind of line after this text, if there is one.
fn add_labelled_form(
    out: &mut Vec<u8>,
    front: &[u8],
    op: Option<Op>,
    end: &[u8],
) -> Result<(), NoMemory>
    ensures { OnOk result (out.new.items ≡ out.old.items ++ labelled_form front.now op end.now) }
{
    let Some(op) = op else {
        return Ok(());
    };
    add_text(out, front)?;
    add_form(out, op)?;
    add_text(out, end)
}

// How many bytes of the line come before the wrong word.
fn column(remark: &Remark<'_>) -> usize
    ensures { result ≡ column remark.now }
{
    remark.text.len().saturating_sub(remark.place.left)
}

// ---- For readers.

// The bytes as they are shown.
fn add_shown(out: &mut Vec<u8>, bytes: &[u8]) -> Result<(), NoMemory>
    ensures { OnOk result (out.new.items ≡ out.old.items ++ map shown_byte bytes.now) }
{
    for byte in bytes {
        let is_plain = 32 <= *byte && *byte <= 126;
        out.push(if is_plain { *byte } else { b'?' })?;
    }
    Ok(())
}

// The byte under one that is before the wrong word.
fn under(_byte: u8) -> u8
    ensures { result ≡ under _byte }
{
    b' '
}

// The bytes under these.
fn add_under(out: &mut Vec<u8>, bytes: &[u8]) -> Result<(), NoMemory>
    ensures { OnOk result (out.new.items ≡ out.old.items ++ map under bytes.now) }
{
    for byte in bytes {
        out.push(under(*byte))?;
    }
    Ok(())
}

// The line, and a caret after so many bytes of the next; nothing, where the line is empty.
fn add_quoted(out: &mut Vec<u8>, text: &[u8], at: usize) -> Result<(), NoMemory>
    ensures { OnOk result (out.new.items ≡ out.old.items ++ line_with_caret text.now at) }
{
    if text.is_empty() {
        return Ok(());
    }
    add_text(out, b"  ")?;
    add_shown(out, text)?;
    add_text(out, b"\n  ")?;
    add_under(out, &text[..at.min(text.len())])?;
    add_text(out, b"^\n")
}

// Whether it is an error, the number of its line, and why it is told.
#[tactic(auto, unfolding(crate::specs::Texts::head_text))]
fn add_head(out: &mut Vec<u8>, remark: &Remark<'_>) -> Result<(), NoMemory>
    ensures { OnOk result (out.new.items ≡ out.old.items ++ head_text remark.now) }
{
    add_text(out, severity_text(remark.cause))?;
    add_text(out, b" line ")?;
    add_number(out, u64::from(remark.line))?;
    add_text(out, b": ")?;
    add_text(out, cause_text(remark.cause))?;
    add_text(out, b"\n")
}

// What is wrong, what may be there, and the known word that it nearly is.
#[tactic(auto, unfolding(crate::specs::Texts::advice_text))]
fn add_advice(out: &mut Vec<u8>, remark: &Remark<'_>) -> Result<(), NoMemory>
    ensures { OnOk result (out.new.items ≡ out.old.items ++ advice_text remark.now) }
{
    add_labelled(out, b"here: ", why_text(remark.place.why), b"\n")?;
    add_labelled_form(out, b"expected: ", remark.form, b"\n")?;
    add_labelled(out, b"did you mean: ", remark.near, b"\n")
}

fn add_plain(out: &mut Vec<u8>, remark: &Remark<'_>) -> Result<(), NoMemory>
    ensures { OnOk result (out.new.items ≡ out.old.items ++ plain_text remark.now) }
{
    add_head(out, remark)?;
    add_quoted(out, remark.text, column(remark))?;
    add_advice(out, remark)
}

// ---- For editors.

#[tactic(auto, unfolding(crate::specs::Texts::line_place))]
fn add_line_place(out: &mut Vec<u8>, remark: &Remark<'_>) -> Result<(), NoMemory>
    ensures { OnOk result (out.new.items ≡ out.old.items ++ line_place remark.now) }
{
    add_number(out, u64::from(remark.line))?;
    add_text(out, b":")?;
    let at = column(remark) as u64 + 1;
    add_number(out, at)?;
    add_text(out, b": ")
}

#[tactic(auto, unfolding(crate::specs::Texts::line_reason))]
fn add_line_reason(out: &mut Vec<u8>, remark: &Remark<'_>) -> Result<(), NoMemory>
    ensures { OnOk result (out.new.items ≡ out.old.items ++ line_reason remark.now) }
{
    add_text(out, severity_text(remark.cause))?;
    add_text(out, b": ")?;
    add_text(out, why_text(remark.place.why))?;
    add_text(out, b" [")?;
    add_text(out, cause_text(remark.cause))?;
    add_text(out, b"]")
}

#[tactic(auto, unfolding(crate::specs::Texts::line_advice))]
fn add_line_advice(out: &mut Vec<u8>, remark: &Remark<'_>) -> Result<(), NoMemory>
    ensures { OnOk result (out.new.items ≡ out.old.items ++ line_advice remark.now) }
{
    add_labelled_form(out, b"; expected: ", remark.form, b"")?;
    add_labelled(out, b"; did you mean: ", remark.near, b"")?;
    add_text(out, b"\n")
}

fn add_line(out: &mut Vec<u8>, remark: &Remark<'_>) -> Result<(), NoMemory>
    ensures { OnOk result (out.new.items ≡ out.old.items ++ line_text remark.now) }
{
    add_line_place(out, remark)?;
    add_line_reason(out, remark)?;
    add_line_advice(out, remark)
}

// ---- For programs.

#[tactic(auto, unfolding(crate::specs::Texts::json_place))]
fn add_json_place(out: &mut Vec<u8>, remark: &Remark<'_>) -> Result<(), NoMemory>
    ensures { OnOk result (out.new.items ≡ out.old.items ++ json_place remark.now) }
{
    add_text(out, b"{\"line\":")?;
    add_number(out, u64::from(remark.line))?;
    add_text(out, b",\"column\":")?;
    add_number(out, column(remark) as u64 + 1)
}

#[tactic(auto, unfolding(crate::specs::Texts::json_reason))]
fn add_json_reason(out: &mut Vec<u8>, remark: &Remark<'_>) -> Result<(), NoMemory>
    ensures { OnOk result (out.new.items ≡ out.old.items ++ json_reason remark.now) }
{
    add_text(out, b",\"severity\":\"")?;
    add_text(out, severity_text(remark.cause))?;
    add_text(out, b"\",\"reason\":\"")?;
    add_text(out, cause_text(remark.cause))?;
    add_text(out, b"\"")
}

#[tactic(auto, unfolding(crate::specs::Texts::json_advice))]
fn add_json_advice(out: &mut Vec<u8>, remark: &Remark<'_>) -> Result<(), NoMemory>
    ensures { OnOk result (out.new.items ≡ out.old.items ++ json_advice remark.now) }
{
    add_labelled(out, b",\"what\":\"", why_text(remark.place.why), b"\"")?;
    add_labelled_form(out, b",\"expected\":\"", remark.form, b"\"")?;
    add_labelled(out, b",\"suggestion\":\"", remark.near, b"\"")
}

fn add_json(out: &mut Vec<u8>, remark: &Remark<'_>) -> Result<(), NoMemory>
    ensures { OnOk result (out.new.items ≡ out.old.items ++ json_text remark.now) }
{
    add_json_place(out, remark)?;
    add_json_reason(out, remark)?;
    add_json_advice(out, remark)?;
    add_text(out, b"}\n")
}

/// A remark, so written.
pub fn add_remark(out: &mut Vec<u8>, format: Format, remark: &Remark<'_>) -> Result<(), NoMemory>
    ensures { OnOk result (out.new.items ≡ out.old.items ++ remark_text format remark.now) }
{
    match format {
        Format::Plain => add_plain(out, remark),
        Format::Line => add_line(out, remark),
        Format::Json => add_json(out, remark),
    }
}
