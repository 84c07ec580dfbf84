// A recorded trace before its script: what comes of a read or a write that fails. The corpus has what comes of inputs.
use lwp_serve::{SessionEnd, replay_main};
use lwp_types::{MemSink, MemSource, NoMemory};
use std::alloc::Global;
use std::test::Fail;

const SAME: &[u8] =
    b"replay 76\nlwp 1\npod 1\nclient 0 5\nproc main\nagent g 5\nrecv g wait\nreply g ok\npost 0 hi\n\
t0: agent 5\nt0 = t1\nevent 5 client 0 seq 0 hi\nt0: recv t1 wait\nt0 = letter t1 240 hi\nt0: reply t1 ok\nt0 = 0\nt0: return\nt0 dies\npod ends 0\n";

const SAME_TEXT: &[u8] = b"same 10\n";

// In the line that was taken, one byte differs.
const OTHER: &[u8] =
    b"replay 76\nlwp 1\npod 1\nclient 0 5\nproc main\nagent g 5\nrecv g wait\nreply g ok\npost 0 hi\n\
t0: agent 5\nt0 = t1\nevent 5 client 0 seq 0 ho\nt0: recv t1 wait\nt0 = letter t1 240 hi\nt0: reply t1 ok\nt0 = 0\nt0: return\nt0 dies\npod ends 0\n";

const OTHER_TEXT: &[u8] =
    b"differs 3\nwant event 5 client 0 seq 0 hi\ngot event 5 client 0 seq 0 ho\n";

// How a session ended, the calls and takes that its verdict tells of, and what it wrote.
#[derive(Drop)]
struct Outcome {
    end: SessionEnd,
    status: u8,
    turns: u64,
    taken: usize,
    written: Vec<u8>,
}

// A verdict on an input, with reads and writes that fail.
fn replay(
    alloc: Global,
    input: &[u8],
    reads: Vec<u32>,
    writes: Vec<u32>,
) -> Result<Outcome, NoMemory> {
    let mut source = MemSource::new(input.to_vec(alloc)?, reads);
    // It takes four bytes at most at a time.
    let mut sink = MemSink::new(alloc, 4096, 4, writes)?;
    let session = replay_main(alloc, 100_000, &mut source, &mut sink);
    Ok(Outcome {
        end: session.end,
        status: session.status,
        turns: session.turns,
        taken: session.taken.len(),
        written: sink.bytes().to_vec(alloc)?,
    })
}

fn is(outcome: &Outcome, end: SessionEnd, status: u8, written: &[u8]) -> bool {
    outcome.end == end && outcome.status == status && outcome.written.as_slice() == written
}

#[test]
fn a_read_that_fails_leaves_no_verdict(rt: HostRuntime) -> Result<(), Fail> {
    let alloc = rt.alloc();
    // The first read gives all, and the second the end; there is no third.
    for (fails, end, status, written) in [
        (0, SessionEnd::ReadFault, 101, b"".as_slice()),
        (1, SessionEnd::ReadFault, 101, b""),
        (2, SessionEnd::Same, 0, SAME_TEXT),
    ] {
        let outcome = replay(alloc, SAME, vec![in alloc; fails]?, Vec::new(alloc))?;
        assert!(rt; is(&outcome, end, status, written), "at {fails}");
    }
    Ok(())
}

// Whether a first part of this text was written and no more, and the session tells of as many calls and takes as the verdict.
fn is_part(outcome: &Outcome, fails: usize, text: &[u8], turns: u64, taken: usize) -> bool {
    let written = outcome.written.as_slice();
    outcome.end == SessionEnd::WriteFault
        && outcome.status == 102
        && outcome.turns == turns
        && outcome.taken == taken
        && written.len() == fails.saturating_mul(4)
        && text.starts_with(written)
}

#[test]
fn a_write_that_fails_leaves_a_first_part_of_the_verdict(rt: HostRuntime) -> Result<(), Fail> {
    let alloc = rt.alloc();
    // `same 10` and its newline take two writes.
    for fails in 0..2 {
        let outcome = replay(alloc, SAME, Vec::new(alloc), vec![in alloc; fails]?)?;
        assert!(rt;
            is_part(&outcome, fails as usize, SAME_TEXT, 4, 1),
            "at {fails}"
        );
    }
    let outcome = replay(alloc, SAME, Vec::new(alloc), vec![in alloc; 2]?)?;
    assert!(rt; is(&outcome, SessionEnd::Same, 0, SAME_TEXT));
    Ok(())
}

#[test]
fn a_line_that_differs_is_told_as_far_as_writes_go(rt: HostRuntime) -> Result<(), Fail> {
    let alloc = rt.alloc();
    // The text's 71 bytes take 18 writes.
    for fails in 0..18 {
        let outcome = replay(alloc, OTHER, Vec::new(alloc), vec![in alloc; fails]?)?;
        assert!(rt;
            is_part(&outcome, fails as usize, OTHER_TEXT, 1, 0),
            "at {fails}"
        );
    }
    let outcome = replay(alloc, OTHER, Vec::new(alloc), Vec::new(alloc))?;
    assert!(rt; is(&outcome, SessionEnd::Differs { line: 3 }, 107, OTHER_TEXT));
    assert!(rt; outcome.turns == 1 && outcome.taken == 0);
    Ok(())
}
