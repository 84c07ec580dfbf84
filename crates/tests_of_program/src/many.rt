// Many scripts at once: what comes of a read or a write that fails. The corpus has what comes of inputs.
ghost use Rattle.std.specs.Prelude.{◌≤◌};

use lwp_serve::{SessionEnd, batch_main};
use lwp_types::{MemSink, MemSource, NoMemory};
use std::alloc::Global;
use std::test::Fail;
use std::thread::Threads;

const TWO: &[u8] =
    b"script 72\nlwp 1\npod 1\nproc main\ncreate a worker 1 -\nyield self\nproc worker\nsay hi\nscript 0\n";

const REPORT: &[u8] = b"0 status 0 calls 5 taken 0 left 0 trace 119\n1 status 103 line 1 Missing\n";

// How a session ended, and what it wrote.
#[derive(Drop)]
struct Outcome {
    end: SessionEnd,
    status: u8,
    written: Vec<u8>,
}

// A report on an input, with reads and writes that fail.
fn batch<R: Threads + Sync>(
    rt: &R,
    alloc: Global,
    threads: u32,
    input: &[u8],
    reads: Vec<u32>,
    writes: Vec<u32>,
) -> Result<Outcome, NoMemory>
    requires { (1 ≤ threads) × (threads ≤ 16) }
{
    let mut source = MemSource::new(input.to_vec(alloc)?, reads);
    // It takes four bytes at most at a time.
    let mut sink = MemSink::new(alloc, 4096, 4, writes)?;
    let session = batch_main(rt, alloc, threads, 100_000, &mut source, &mut sink);
    Ok(Outcome {
        end: session.end,
        status: session.status,
        written: sink.bytes().to_vec(alloc)?,
    })
}

fn is(outcome: &Outcome, end: SessionEnd, status: u8, written: &[u8]) -> bool {
    outcome.end == end && outcome.status == status && outcome.written.as_slice() == written
}

#[test]
fn a_read_that_fails_leaves_no_report(rt: HostRuntime) -> Result<(), Fail> {
    let alloc = rt.alloc();
    // The first read gives all, and the second the end; there is no third.
    for (fails, end, status, written) in [
        (0, SessionEnd::ReadFault, 101, b"".as_slice()),
        (1, SessionEnd::ReadFault, 101, b""),
        (2, SessionEnd::Reported, 0, REPORT),
    ] {
        let outcome = batch(&rt, alloc, 2, TWO, vec![in alloc; fails]?, Vec::new(alloc))?;
        assert!(rt; is(&outcome, end, status, written), "at {fails}");
    }
    Ok(())
}

#[test]
fn a_write_that_fails_leaves_a_first_part_of_the_report(rt: HostRuntime) -> Result<(), Fail> {
    let alloc = rt.alloc();
    for (fails, end, status, written) in [
        (0, SessionEnd::WriteFault, 102, b"".as_slice()),
        (2, SessionEnd::WriteFault, 102, b"0 status"),
        (18, SessionEnd::Reported, 0, REPORT),
    ] {
        let outcome = batch(&rt, alloc, 2, TWO, Vec::new(alloc), vec![in alloc; fails]?)?;
        assert!(rt; is(&outcome, end, status, written), "at {fails}");
    }
    Ok(())
}
