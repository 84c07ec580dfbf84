// A script is read, and what is wrong with it is told.
ghost use Rattle.std.specs.Prelude.{◌≡◌, ◌++◌, IfOk, OnOk, map, string_bytes};
ghost use Rattle.script_text.specs.Spelling.{line_cut};
ghost use Rattle.script_advice.specs.Advice.{CheckSays, EndSays, NamedSays, fault_text, form_or, format_of, grade_of, grade_status, named_format_of, named_lines, report_of, status_of};
ghost use Rattle.streams.specs.Streams.{sides};

use crate::advice::{Grade, add_report};
use crate::lines::first_line;
use crate::texts::Format;
use lwp_types::{NoMemory, Sink, Source};
use std::alloc::Global;
use streams::{ReadFailure, read_up_to, write_all};
use trace_text::add_text;

// One byte more than a script may have: so much is read, and no more.
const MOST: usize = 16_777_217;

/// How the program ends.
#[derive(Clone, Copy)]
pub enum CheckEnd {
    /// All is told of a text that is so good.
    Told(Grade),
    /// The words ask for nothing.
    Usage,
    ReadFault,
    WriteFault,
    NoMemory,
}

fn grade_status(grade: Grade) -> u8
    ensures { result ≡ grade_status grade }
{
    match grade {
        Grade::Fine => 0,
        Grade::Warned => 1,
        Grade::Wrong => 2,
    }
}

/// The status of an end.
pub fn status_of(end: CheckEnd) -> u8
    ensures { result ≡ status_of end }
{
    match end {
        CheckEnd::Told(grade) => grade_status(grade),
        CheckEnd::Usage => 100,
        CheckEnd::ReadFault => 101,
        CheckEnd::WriteFault => 102,
        CheckEnd::NoMemory => 106,
    }
}

/// What is said of an end on standard error; no bytes, where nothing is.
pub fn fault_text(end: CheckEnd) -> &'static [u8]
    ensures { result.now ≡ fault_text end }
{
    match end {
        CheckEnd::Told(_) => &[],
        CheckEnd::Usage => b"lwpcheck: usage: [--json | --print]\n",
        CheckEnd::ReadFault => b"lwpcheck: read fault\n",
        CheckEnd::WriteFault => b"lwpcheck: write fault\n",
        CheckEnd::NoMemory => b"lwpcheck: no memory\n",
    }
}

// The form that the words ask for, which is this one where there are none.
fn form_or(format: Format, words: &Vec<String>) -> Option<Format>
    ensures { result ≡ form_or format (map string_bytes words.now.items) }
{
    match words.as_slice() {
        [] => Some(format),
        [word] if word.as_bytes() == b"--json".as_slice() => Some(Format::Json),
        _ => None,
    }
}

// The lines of a text, each after the name of a file.
fn add_named_lines(out: &mut Vec<u8>, name: &[u8], text: &[u8]) -> Result<(), NoMemory>
    ensures { OnOk result
        (out.new.items ≡ out.old.items ++ named_lines name.now (line_cut text.now).0) }
{
    let mut rest = text;
    while let Some((line, after)) = first_line(rest) {
        add_text(out, name)?;
        add_text(out, b":")?;
        add_text(out, line)?;
        add_text(out, b"\n")?;
        rest = after;
    }
    Ok(())
}

// All that is told of a text in a file of this name, and the text's grade.
fn add_report_of(
    alloc: Global,
    out: &mut Vec<u8>,
    name: &[u8],
    format: Format,
    text: &[u8],
) -> Result<Grade, NoMemory>
    ensures told { IfOk result
        (λ g. out.new.items ≡ out.old.items ++ report_of name.now format text.now) }
    ensures grade { IfOk result (λ g. g ≡ grade_of text.now) }
{
    match format {
        Format::Plain | Format::Json => add_report(alloc, out, format, text),
        Format::Line => {
            let mut report = Vec::new(alloc);
            let grade = add_report(alloc, &mut report, format, text)?;
            add_named_lines(out, name, &report)?;
            Ok(grade)
        }
    }
}

// What is told in this form of a file of this name.
fn tell<S: Source, K: Sink>(
    alloc: Global,
    name: &[u8],
    format: Format,
    source: &mut S,
    sink: &mut K,
) -> CheckEnd
    ensures { EndSays name.now format
        (sides S.left S.faults source.old source.new)
        (sides K.written K.faults sink.old sink.new) result }
{
    let text = match read_up_to(alloc, MOST, source) {
        Ok(text) => text,
        Err(ReadFailure::Fault) => return CheckEnd::ReadFault,
        Err(ReadFailure::NoMemory) => return CheckEnd::NoMemory,
    };
    let mut out = Vec::new(alloc);
    let Ok(grade) = add_report_of(alloc, &mut out, name, format, &text) else {
        return CheckEnd::NoMemory;
    };
    match write_all(sink, &out) {
        Ok(()) => CheckEnd::Told(grade),
        Err(_) => CheckEnd::WriteFault,
    }
}

/// Reads a script and writes what is wrong with it, by the program's words, which follow its name: none, or `--json`. Other
/// words are no command: nothing is read or written then.
pub fn check<S: Source, K: Sink>(
    alloc: Global,
    words: &Vec<String>,
    source: &mut S,
    sink: &mut K,
) -> CheckEnd
    ensures { CheckSays (format_of (map string_bytes words.now.items))
        (sides S.left S.faults source.old source.new)
        (sides K.written K.faults sink.old sink.new) result }
{
    match form_or(Format::Plain, words) {
        Some(format) => tell(alloc, &[], format, source, sink),
        None => CheckEnd::Usage,
    }
}

/// The same of a script in a file of this name. Without a word each error or warning is one line, which begins with the name, the number
/// of the line and the column, with a colon after each.
pub fn check_named<S: Source, K: Sink>(
    alloc: Global,
    name: &[u8],
    words: &Vec<String>,
    source: &mut S,
    sink: &mut K,
) -> CheckEnd
    ensures { NamedSays name.now (named_format_of (map string_bytes words.now.items))
        (sides S.left S.faults source.old source.new)
        (sides K.written K.faults sink.old sink.new) result }
{
    match form_or(Format::Line, words) {
        Some(format) => tell(alloc, name, format, source, sink),
        None => CheckEnd::Usage,
    }
}
