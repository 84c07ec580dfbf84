// Runs whose gate and sink wait for each other. They end well only where lines are posted, and taken, while the pod runs, and what
// is written is handed on before the pod waits.
ghost use Rattle.std.specs.Prelude.{◌≤◌};

use crossbeam_utils::atomic::AtomicCell;
use event_gate::PostGate;
use lwp_serve::run_main;
use lwp_types::{Failed, MemSink, MemSource, NoMemory, Sink};
use std::alloc::Global;
use std::sync::Wait;
use std::test::Fail;
use std::thread::{self, Threads};

// How often one looks for the other's flag.
const LOOKS: u32 = 100_000_000;

// What the gate and the sink tell each other: line 1 is about to be posted, the mark was handed on, one of them gave up.
#[derive(Drop)]
struct Flags {
    posting: AtomicCell<bool>,
    handed_on: AtomicCell<bool>,
    gave_up: AtomicCell<bool>,
}

impl Flags {
    fn new() -> Flags {
        Flags {
            posting: AtomicCell::new(false),
            handed_on: AtomicCell::new(false),
            gave_up: AtomicCell::new(false),
        }
    }

    // Looks for a flag until it is set, or gives up.
    fn look_for(&self, flag: &AtomicCell<bool>) {
        for _ in 0..LOOKS {
            if flag.load() {
                return;
            }
        }
        self.gave_up.store(true);
    }
}

// Before line 1 of client 0 it sets a flag; and it may wait for the sink's.
#[derive(Clone, Copy)]
struct Signals<'f> {
    flags: &'f Flags,
    waits: bool,
}

impl PostGate for Signals<'_> {
    ghost asked = { λ gate client seq. gate };

    fn before(&mut self, client: u8, seq: u32) {
        if client != 0 || seq != 1 {
            return;
        }
        self.flags.posting.store(true);
        if self.waits {
            self.flags.look_for(&self.flags.handed_on);
        }
    }
}

// When a step's lines first begin so, it waits for the gate's flag; once they are handed on, it sets its own.
#[derive(Drop)]
struct Watches<'f> {
    flags: &'f Flags,
    mark: &'f [u8],
    seen: bool,
}

impl Sink for Watches<'_> {
    ghost use Rattle.std.specs.Prelude.{None};

    ghost written = { λ s. None };

    ghost faults = { λ s. 0 };

    fn write(&mut self, bytes: &[u8]) -> Result<usize, Failed> {
        if !self.seen && bytes.starts_with(self.mark) {
            self.seen = true;
            self.flags.look_for(&self.flags.posting);
        }
        Ok(bytes.len())
    }

    fn hand_on(&mut self) {
        if self.seen {
            self.flags.handed_on.store(true);
        }
    }
}

// How a session ended: its status, how many lines it took and how many calls it made.
type Ended = (u8, usize, u64);

// Runs a script with so many calls. The sink waits at the first line that begins so, and the gate waits for that if it is to.
fn beside<'f, R: Threads + Wait + Sync>(
    rt: &R,
    alloc: Global,
    script: &[u8],
    turns: u64,
    sink: &mut Watches<'f>,
    gate: Signals<'f>,
) -> Result<Ended, NoMemory>
    requires least { 1 ≤ turns }
    requires most { turns ≤ 1000000 }
{
    let gates = vec![in alloc; gate; 16]?;
    let mut source = MemSource::new(script.to_vec(alloc)?, Vec::new(alloc));
    let live = run_main(rt, alloc, turns, &mut source, sink, gates);
    let session = &live.session;
    Ok((session.status, session.taken.len(), session.turns))
}

const REPLIES: &[u8] =
    b"lwp 1\npod 1\nclient 0 5\nproc main\nagent g 5\nrecv g wait\nreply g ok\nrecv g wait\nreply g ok\npost 0 one\npost 0 two\n";

#[test]
fn a_line_is_posted_once_the_one_before_it_has_its_reply(rt: HostRuntime) -> Result<(), Fail> {
    let flags = Flags::new();
    let mut sink = Watches {
        flags: &flags,
        mark: b"t0: reply",
        seen: false,
    };
    let gate = Signals {
        flags: &flags,
        waits: true,
    };
    let ended = beside(&rt, rt.alloc(), REPLIES, 100_000, &mut sink, gate)?;
    assert!(rt; !flags.gave_up.load());
    assert!(rt; ended == (0, 2, 6));
    Ok(())
}

// Whether a run in which the pod is never idle before its line has come takes one that is posted while the sink waits.
fn is_taken_meanwhile<R: Threads + Wait + Sync>(
    rt: &R,
    alloc: Global,
    script: &[u8],
) -> Result<bool, NoMemory> {
    let flags = Flags::new();
    let mut sink = Watches {
        flags: &flags,
        mark: b"t0: recv t1 poll",
        seen: false,
    };
    let gate = Signals {
        flags: &flags,
        waits: false,
    };
    let (status, _, turns) = beside(rt, alloc, script, 10, &mut sink, gate)?;
    Ok(!flags.gave_up.load() && status == 0 && (turns == 6 || turns == 7))
}

// Two clients have one event, so their lines come over a port.
const BUSY: &[u8] =
    b"lwp 1\npod 1\nclient 0 5\nclient 1 5\nproc main\nagent g 5\ncall loop\nreply g ok\nproc loop\nrecv g poll\nskip ok\nagain\npost 0 one\npost 0 two\n";

#[test]
fn a_line_is_taken_from_a_port_while_the_pod_is_busy(rt: HostRuntime) -> Result<(), Fail> {
    let taken = is_taken_meanwhile(&rt, rt.alloc(), BUSY)?;
    assert!(rt; taken);
    Ok(())
}

// One client has the event, so its lines come over a lane.
const BUSY_ALONE: &[u8] =
    b"lwp 1\npod 1\nclient 0 5\nproc main\nagent g 5\ncall loop\nreply g ok\nproc loop\nrecv g poll\nskip ok\nagain\npost 0 one\npost 0 two\n";

#[test]
fn a_line_is_taken_from_a_lane_while_the_pod_is_busy(rt: HostRuntime) -> Result<(), Fail> {
    let taken = is_taken_meanwhile(&rt, rt.alloc(), BUSY_ALONE)?;
    assert!(rt; taken);
    Ok(())
}

// Before each line but the first it waits until the reply to the one before it was handed on, and then lets others go on for a while,
// so that the pod is idle when the line is posted.
#[derive(Clone, Copy)]
struct AfterReplies<'f> {
    replies: &'f AtomicCell<u32>,
    gave_up: &'f AtomicCell<bool>,
}

impl PostGate for AfterReplies<'_> {
    ghost asked = { λ gate client seq. gate };

    fn before(&mut self, client: u8, seq: u32) {
        for _ in 0..LOOKS {
            if self.replies.load() >= seq {
                for _ in 0..1000 {
                    thread::yield_now();
                }
                return;
            }
        }
        self.gave_up.store(true);
    }
}

// Tells how many replies were handed on.
#[derive(Drop)]
struct CountsReplies<'f> {
    seen: u32,
    handed_on: &'f AtomicCell<u32>,
}

impl Sink for CountsReplies<'_> {
    ghost use Rattle.std.specs.Prelude.{None};

    ghost written = { λ s. None };

    ghost faults = { λ s. 0 };

    fn write(&mut self, bytes: &[u8]) -> Result<usize, Failed> {
        if bytes.starts_with(b"t0: reply") {
            self.seen = self.seen.wrapping_add(1);
        }
        Ok(bytes.len())
    }

    fn hand_on(&mut self) {
        self.handed_on.store(self.seen);
    }
}

// Two clients have one event, so their lines come over a port; the second has none. Its leaving rings the bell once, and so do the
// posts of the first.
const PORT_REPLIES: &[u8] =
    b"lwp 1\npod 1\nclient 0 5\nclient 1 5\nproc main\nagent g 5\nrecv g wait\nreply g ok\nrecv g wait\nreply g ok\n\
recv g wait\nreply g ok\nrecv g wait\nreply g ok\npost 0 one\npost 0 two\npost 0 three\npost 0 four\n";

#[test]
fn a_line_that_comes_over_a_port_wakes_the_pod(rt: HostRuntime) -> Result<(), Fail> {
    let replies = AtomicCell::new(0);
    let gave_up = AtomicCell::new(false);
    let mut sink = CountsReplies {
        seen: 0,
        handed_on: &replies,
    };
    let gate = AfterReplies {
        replies: &replies,
        gave_up: &gave_up,
    };
    let alloc = rt.alloc();
    let gates = vec![in alloc; gate; 16]?;
    let mut source = MemSource::new(PORT_REPLIES.to_vec(alloc)?, Vec::new(alloc));
    let live = run_main(&rt, alloc, 100_000, &mut source, &mut sink, gates);
    let session = &live.session;
    assert!(rt; !gave_up.load());
    assert!(rt; (session.status, session.taken.len(), session.turns) == (0, 4, 10));
    Ok(())
}

// Notes how often it was asked, and whether it was for another client than its own.
#[derive(Clone, Copy)]
struct OfClient<'f> {
    client: u8,
    asked: &'f AtomicCell<u32>,
    of_another: &'f AtomicCell<bool>,
}

impl PostGate for OfClient<'_> {
    ghost asked = { λ gate client seq. gate };

    fn before(&mut self, client: u8, seq: u32) {
        if client != self.client {
            self.of_another.store(true);
        }
        self.asked.store(self.asked.load().wrapping_add(1));
    }
}

const TWO_CLIENTS: &[u8] =
    b"lwp 1\npod 1\nclient 0 5\nclient 1 6\nproc main\nagent g 5\nrecv g wait\nreply g ok\npost 0 one\npost 1 two\npost 1 three\n";

#[test]
fn each_client_asks_the_gate_of_its_number(rt: HostRuntime) -> Result<(), Fail> {
    let (first, second) = (AtomicCell::new(0), AtomicCell::new(0));
    let of_another = AtomicCell::new(false);
    let a = OfClient {
        client: 0,
        asked: &first,
        of_another: &of_another,
    };
    let b = OfClient {
        client: 1,
        asked: &second,
        of_another: &of_another,
    };
    let alloc = rt.alloc();
    let gates = Vec::from_array(alloc, [a, b, a, a, a, a, a, a, a, a, a, a, a, a, a, a])?;
    let mut source = MemSource::new(TWO_CLIENTS.to_vec(alloc)?, Vec::new(alloc));
    let mut sink = MemSink::new(alloc, 4096, 4096, Vec::new(alloc))?;
    let live = run_main(&rt, alloc, 100_000, &mut source, &mut sink, gates);
    let session = &live.session;
    assert!(rt; (session.status, session.taken.len(), session.turns) == (0, 1, 4));
    assert!(rt; !of_another.load() && first.load() == 1 && second.load() == 2);
    Ok(())
}
