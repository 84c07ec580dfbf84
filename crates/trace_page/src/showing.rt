// A trace is read, and its page is written.
ghost use Rattle.std.specs.Prelude.{◌≡◌, ◌++◌, IfOk, OnOk, map, string_bytes};
ghost use Rattle.trace_page.specs.View.{EndSays, ViewSays, fault_text, line_front, status_of, window_of};
ghost use Rattle.trace_page.specs.Words.{range_of};
ghost use Rattle.streams.specs.Streams.{sides};

use crate::page::{PageErr, add_page, count_calls};
use crate::words::{Range, Window, range_of};
use lwp_types::{NoMemory, Sink, Source};
use std::alloc::Global;
use streams::{ReadFailure, read_all, write_all};
use trace_text::{add_number, add_text};

/// How the program ends.
#[derive(Clone, Copy)]
pub enum ViewEnd {
    /// The page is written.
    Shown,
    /// The words ask for nothing.
    Usage,
    ReadFault,
    WriteFault,
    /// This line, counted from 1, is no line of a trace.
    Line(u64),
    NoMemory,
}

/// The status of an end.
pub fn status_of(end: ViewEnd) -> u8
    ensures { result ≡ status_of end }
{
    match end {
        ViewEnd::Shown => 0,
        ViewEnd::Usage => 100,
        ViewEnd::ReadFault => 101,
        ViewEnd::WriteFault => 102,
        ViewEnd::Line(_) => 103,
        ViewEnd::NoMemory => 106,
    }
}

#[tactic(auto, unfolding(crate::specs::View::line_front))]
fn line_front() -> &'static [u8]
    ensures { result.now ≡ line_front }
{
    b"lwpview: trace line "
}

fn add_fault(out: &mut Vec<u8>, end: ViewEnd) -> Result<(), NoMemory>
    ensures { OnOk result (out.new.items ≡ out.old.items ++ fault_text end) }
{
    match end {
        ViewEnd::Shown => Ok(()),
        ViewEnd::Usage => add_text(out, b"lwpview: usage: [FROM TO | --last N]\n"),
        ViewEnd::ReadFault => add_text(out, b"lwpview: read fault\n"),
        ViewEnd::WriteFault => add_text(out, b"lwpview: write fault\n"),
        ViewEnd::Line(number) => {
            add_text(out, line_front())?;
            add_number(out, number)?;
            add_text(out, b"\n")
        }
        ViewEnd::NoMemory => add_text(out, b"lwpview: no memory\n"),
    }
}

/// What is said of an end on standard error; no bytes, where nothing is.
pub fn fault_text(alloc: Global, end: ViewEnd) -> Result<Vec<u8>, NoMemory>
    ensures { IfOk result (λ out. out.items ≡ fault_text end) }
{
    let mut out = Vec::new(alloc);
    add_fault(&mut out, end)?;
    Ok(out)
}

// The calls of a trace that are drawn.
fn window_of(range: Range, text: &[u8]) -> Window
    ensures { result ≡ window_of range text.now }
{
    match range {
        Range::Calls { window } => window,
        Range::Last { count } => {
            let calls = count_calls(text);
            Window {
                base: calls.saturating_sub(count),
                last: calls,
            }
        }
    }
}

// The page of so many calls.
fn show<S: Source, K: Sink>(alloc: Global, range: Range, source: &mut S, sink: &mut K) -> ViewEnd
    ensures { EndSays range
        (sides S.left S.faults source.old source.new)
        (sides K.written K.faults sink.old sink.new) result }
{
    let text = match read_all(alloc, source) {
        Ok(text) => text,
        Err(ReadFailure::Fault) => return ViewEnd::ReadFault,
        Err(ReadFailure::NoMemory) => return ViewEnd::NoMemory,
    };
    let window = window_of(range, &text);
    let mut page = Vec::new(alloc);
    match add_page(alloc, &mut page, window.base, window.last, &text) {
        Ok(()) => {}
        Err(PageErr::Line(number)) => return ViewEnd::Line(number),
        Err(PageErr::NoMemory) => return ViewEnd::NoMemory,
    }
    match write_all(sink, &page) {
        Ok(()) => ViewEnd::Shown,
        Err(_) => ViewEnd::WriteFault,
    }
}

/// Reads a trace and writes its page, by the program's words, which follow its name: none, or the numbers of the first call
/// that is to be drawn and of the last, or `--last` and how many at the end are. Other words are no command: nothing is read or written then.
pub fn view<S: Source, K: Sink>(
    alloc: Global,
    words: &Vec<String>,
    source: &mut S,
    sink: &mut K,
) -> ViewEnd
    ensures { ViewSays (range_of (map string_bytes words.now.items))
        (sides S.left S.faults source.old source.new)
        (sides K.written K.faults sink.old sink.new) result }
{
    match range_of(words) {
        Some(range) => show(alloc, range, source, sink),
        None => ViewEnd::Usage,
    }
}
