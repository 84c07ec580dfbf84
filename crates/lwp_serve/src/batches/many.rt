// An input of many scripts is read, and reported on.
ghost use Rattle.std.specs.Prelude.{◌≡◌, ◌≤◌, All, IfErr, IfOk, Ok, OnOk};
ghost use Rattle.batch.specs.Parts.{LiesIn};
ghost use Rattle.lwp_serve.specs.Batches.Batch.{IsBatch, IsInput, IsNoInput};
ghost use Rattle.lwp_serve.specs.Batches.Report.{report_of};
ghost use Rattle.streams.specs.Limited.{IsReadUp};
ghost use Rattle.streams.specs.Streams.{sides};

use crate::batches::planning::Planning;
use crate::batches::report::lines_of;
use batch::{BatchErr, INPUT_MAX, Part, run_parts, split};
use lwp_types::{NoMemory, Sink, Source};
use script_session::{Session, SessionEnd};
use std::alloc::Global;
use std::thread::Threads;
use streams::{ReadFailure, read_up_to, write_all};

// What was read, and where its parts lie.
#[derive(Drop)]
struct Input {
    text: Vec<u8>,
    parts: Vec<Part>,
}

// The input that a source holds, which is read to its end or one byte past what an input may have.
fn read_input<S: Source>(alloc: Global, source: &mut S) -> Result<Input, SessionEnd>
    ensures input { IfOk result
        (λ input. IsInput (S.left source.old) input.text.items input.parts.items) }
    ensures within { IfOk result (λ input. All (LiesIn input.text.items) input.parts.items) }
    ensures up { OnOk result (IsReadUp 33554433 (S.left source.old) (S.left source.new)) }
    ensures same { OnOk result (S.faults source.new ≡ S.faults source.old) }
    ensures none { IfErr result (λ e. IsNoInput (sides S.left S.faults source.old source.new) e) }
{
    let text = match read_up_to(alloc, INPUT_MAX + 1, source) {
        Ok(text) => text,
        Err(ReadFailure::Fault) => return Err(SessionEnd::ReadFault),
        Err(ReadFailure::NoMemory) => return Err(SessionEnd::NoMemory),
    };
    match split(alloc, &text) {
        Ok(parts) => Ok(Input { text, parts }),
        Err(BatchErr::NoMemory) => Err(SessionEnd::NoMemory),
        Err(BatchErr::Bad { part }) => Err(SessionEnd::Input { part }),
    }
}

// The report on the parts of a text.
fn report_on<R: Threads + Sync>(
    rt: &R,
    alloc: Global,
    threads: u32,
    turns: u64,
    text: &[u8],
    parts: &[Part],
) -> Result<Vec<u8>, NoMemory>
    requires threads { (1 ≤ threads) × (threads ≤ 16) }
    requires within { All (LiesIn text.now) parts.now }
    ensures { IfOk result (λ report. report.items ≡ report_of turns text.now parts.now) }
{
    let said = run_parts(rt, alloc, threads, &Planning { turns }, text, parts)?;
    lines_of(alloc, &said)
}

/// Reads an input of parts, plans each part that is a script, with so many turns allowed and all lines in place, by so many threads
/// of the system, and writes a line of each, in order. The lines are the same for every number of threads. Nothing is written before
/// all is planned, and no trace is kept.
pub fn batch_main<S: Source, K: Sink, R: Threads + Sync>(
    rt: &R,
    alloc: Global,
    threads: u32,
    turns: u64,
    source: &mut S,
    sink: &mut K,
) -> Session
    requires threads { (1 ≤ threads) × (threads ≤ 16) }
    requires turns { (1 ≤ turns) × (turns ≤ 1000000) }
    ensures { IsBatch turns (sides S.left S.faults source.old source.new)
        (sides K.written K.faults sink.old sink.new) result }
{
    let input = match read_input(alloc, source) {
        Ok(input) => input,
        Err(end) => return Session::unread(alloc, end),
    };
    let Ok(report) = report_on(rt, alloc, threads, turns, &input.text, &input.parts) else {
        return Session::unread(alloc, SessionEnd::NoMemory);
    };
    match write_all(sink, &report) {
        Ok(()) => Session::unread(alloc, SessionEnd::Reported),
        Err(_) => Session::unread(alloc, SessionEnd::WriteFault),
    }
}
