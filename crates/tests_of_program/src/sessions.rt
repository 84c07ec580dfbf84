use lwp_serve::{Session, SessionEnd, fault_text, make_main, plan_main};
use lwp_types::{MemSink, MemSource, NoMemory};
use std::alloc::Global;
use std::test::Fail;

const SCRIPT: &[u8] =
    b"lwp 1\npod 1\nclient 0 5\nproc main\nagent g 5\nrecv g wait\nreply g ok\npost 0 hi\n";

const TRACE: &[u8] =
    b"t0: agent 5\nt0 = t1\nevent 5 client 0 seq 0 hi\nt0: recv t1 wait\nt0 = letter t1 240 hi\nt0: reply t1 ok\nt0 = 0\nt0: return\nt0 dies\npod ends 0\n";

// A session's status, how many calls it made and lines it took, and what it wrote.
#[derive(Drop)]
struct Outcome {
    status: u8,
    turns: u64,
    taken: usize,
    written: Vec<u8>,
}

fn outcome_of(alloc: Global, session: &Session, sink: &MemSink) -> Result<Outcome, NoMemory> {
    Ok(Outcome {
        status: session.status,
        turns: session.turns,
        taken: session.taken.len(),
        written: sink.bytes().to_vec(alloc)?,
    })
}

// A plan, with reads and writes that fail.
fn plan(alloc: Global, reads: Vec<u32>, writes: Vec<u32>) -> Result<Outcome, NoMemory> {
    let mut source = MemSource::new(SCRIPT.to_vec(alloc)?, reads);
    // It takes four bytes at most at a time.
    let mut sink = MemSink::new(alloc, 4096, 4, writes)?;
    let session = plan_main(alloc, 100_000, &mut source, &mut sink);
    outcome_of(alloc, &session, &sink)
}

fn is(outcome: &Outcome, status: u8, turns: u64, written: &[u8]) -> bool {
    outcome.status == status && outcome.turns == turns && outcome.written.as_slice() == written
}

#[test]
fn a_read_that_fails_leaves_all_unwritten(rt: HostRuntime) -> Result<(), Fail> {
    let alloc = rt.alloc();
    // The first read gives all, and the second the end; there is no third.
    for (fails, status, turns, written) in [
        (0, 101, 0, b"".as_slice()),
        (1, 101, 0, b""),
        (2, 0, 4, TRACE),
    ] {
        let outcome = plan(alloc, vec![in alloc; fails]?, Vec::new(alloc))?;
        assert!(rt; is(&outcome, status, turns, written));
    }
    Ok(())
}

// How many calls were made, where so many bytes of the trace were written and no more: the steps end at bytes 20, 46, 85, 108 and
// 138, and the second of them is a take.
fn calls_by(written: usize) -> u64 {
    1 + u64::from(written >= 46) + u64::from(written >= 85) + u64::from(written >= 108)
}

// And how many lines were taken.
fn takes_by(written: usize) -> usize {
    usize::from(written >= 20)
}

// Whether a first part of the trace was written, and calls and takes are told as far as it goes.
fn is_part(outcome: &Outcome) -> bool {
    let written = outcome.written.len();
    outcome.status == 102
        && outcome.turns == calls_by(written)
        && outcome.taken == takes_by(written)
        && written < TRACE.len()
        && TRACE.starts_with(outcome.written.as_slice())
}

#[test]
fn a_write_that_fails_leaves_a_first_part(rt: HostRuntime) -> Result<(), Fail> {
    let alloc = rt.alloc();
    for fails in 0..100 {
        let outcome = plan(alloc, Vec::new(alloc), vec![in alloc; fails]?)?;
        if outcome.status == 0 {
            assert!(rt; is(&outcome, 0, 4, TRACE));
            return Ok(());
        }
        assert!(rt; is_part(&outcome), "at {fails}");
    }
    Err("each of a hundred writes fails".into())
}

// How a session that makes a script ends, with writes that fail: its status, how many lines were taken, and what it wrote.
fn make(alloc: Global, writes: Vec<u32>) -> Result<Outcome, NoMemory> {
    let mut sink = MemSink::new(alloc, 4096, 4, writes)?;
    let session = make_main(alloc, 7, 2, 3, &mut sink);
    outcome_of(alloc, &session, &sink)
}

fn is_made(made: &Outcome, status: u8, begin: &[u8], end: &[u8]) -> bool {
    made.status == status
        && made.taken == 8
        && made.written.starts_with(begin)
        && made.written.ends_with(end)
}

#[test]
fn a_script_that_is_made_is_summed_up(rt: HostRuntime) -> Result<(), Fail> {
    let alloc = rt.alloc();
    for (fails, status, begin, end) in [
        (
            100,
            0,
            b"script 283\ncalls ".as_slice(),
            b"\nstatus 0\n".as_slice(),
        ),
        (2, 102, b"script 2", b"script 2"),
    ] {
        let made = make(alloc, vec![in alloc; fails]?)?;
        assert!(rt; is_made(&made, status, begin, end));
    }
    Ok(())
}

#[test]
fn a_fault_is_told_on_a_line(rt: HostRuntime) -> Result<(), Fail> {
    for (end, text) in [
        (SessionEnd::Ended(7), b"".as_slice()),
        (SessionEnd::ReadFault, b"lwpserve: read fault\n"),
        (SessionEnd::WriteFault, b"lwpserve: write fault\n"),
        (SessionEnd::NoMemory, b"lwpserve: no memory\n"),
    ] {
        assert!(rt; fault_text(rt.alloc(), &end)?.as_slice() == text);
    }
    Ok(())
}
