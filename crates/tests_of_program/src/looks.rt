// How looks at an inlet and calls alternate: before each call before which a line could be taken there is a look.
ghost use Rattle.event_gate.specs.Inlet.{port_intake};
ghost use Rattle.script_text.specs.Limits.{IsWithinLimits};

use crate::replayed::start;
use crossbeam_utils::atomic::AtomicCell;
use event_gate::{Inlet, Taker, open_port};
use lwp_types::{Failed, Line, NoMemory, Sink};
use pod_runner::{Live, run_live};
use script_text::{Script, read_script};
use std::alloc::Global;
use std::sync::Wait;
use std::test::Fail;
use trace_text::Halt;

// A port's end, and how often it was looked at.
#[derive(Drop)]
struct Looked<'f, 's> {
    taker: Taker<'s>,
    looks: &'f AtomicCell<u32>,
}

impl<'f, 's> Inlet<'s> for Looked<'f, 's> {
    ghost intake = { λ l. port_intake l.taker };

    fn event(&self) -> u8 {
        self.taker.event()
    }

    fn take<R: Wait>(&mut self, rt: &R) -> Option<Line<'s>> {
        self.looks.store(self.looks.load().wrapping_add(1));
        self.taker.take(rt)
    }

    fn told(&self) -> bool {
        self.taker.told()
    }

    fn left(&self, client: u8) -> u32 {
        self.taker.left(client)
    }
}

// How many receives were written, and whether one was without a look since the one before it.
#[derive(Drop)]
struct Between<'f> {
    looks: &'f AtomicCell<u32>,
    last: u32,
    receives: u32,
    unlooked: bool,
}

impl Sink for Between<'_> {
    ghost use Rattle.std.specs.Prelude.{None};

    ghost written = { λ s. None };

    ghost faults = { λ s. 0 };

    fn write(&mut self, bytes: &[u8]) -> Result<usize, Failed> {
        if bytes.starts_with(b"t0: recv t1 poll") {
            let looks = self.looks.load();
            self.unlooked = self.unlooked || looks == self.last;
            self.last = looks;
            self.receives = self.receives.wrapping_add(1);
        }
        Ok(bytes.len())
    }

    fn hand_on(&mut self) {}
}

// Its thread has an agent, and polls for a line of it for ever.
const POLLS: &[u8] =
    b"lwp 1\npod 1\nclient 0 5\nproc main\nagent g 5\ncall loop\nproc loop\nrecv g poll\nskip ok\nagain\n";

// Runs a script beside a client that posts nothing and doesn't leave, until so many calls were made.
fn run_beside<'s, R: Wait>(
    rt: &R,
    alloc: Global,
    script: &'s Script,
    turns: u64,
    sink: &mut Between<'s>,
) -> Result<Option<Live>, NoMemory>
    requires { IsWithinLimits script.now }
{
    let mut run = start(alloc, script, turns)?;
    let looks = sink.looks;
    let (taker, _posters) = open_port(rt, alloc, 5, &[0])?;
    let mut inlets = Vec::new(alloc);
    inlets.push(Looked { taker, looks })?;
    Ok(run_live(rt, &mut run, &mut inlets, sink).ok())
}

#[test]
fn each_call_has_a_look_of_its_own(rt: HostRuntime) -> Result<(), Fail> {
    let looks = AtomicCell::new(0);
    let script = read_script(rt.alloc(), POLLS);
    let Ok(script) = script else {
        assert!(rt; false);
        return Ok(());
    };
    let mut sink = Between {
        looks: &looks,
        last: 0,
        receives: 0,
        unlooked: false,
    };
    let live = run_beside(&rt, rt.alloc(), &script, 20, &mut sink)?;
    assert!(rt; live == Some(Live::Halt(Halt::Spent)));
    assert!(rt; sink.receives == 18 && !sink.unlooked);
    Ok(())
}

// A port's end, the event that was looked at last since the last call, how often a look at a greater one followed, and whether one at
// a lesser did.
#[derive(Drop)]
struct InOrder<'f, 's> {
    taker: Taker<'s>,
    last: &'f AtomicCell<u8>,
    rises: &'f AtomicCell<u32>,
    fell: &'f AtomicCell<bool>,
}

impl<'f, 's> Inlet<'s> for InOrder<'f, 's> {
    ghost intake = { λ l. port_intake l.taker };

    fn event(&self) -> u8 {
        self.taker.event()
    }

    fn take<R: Wait>(&mut self, rt: &R) -> Option<Line<'s>> {
        let (event, last) = (self.taker.event(), self.last.load());
        if event < last {
            self.fell.store(true);
        }
        if event > last && last > 0 {
            self.rises.store(self.rises.load().wrapping_add(1));
        }
        self.last.store(event);
        self.taker.take(rt)
    }

    fn told(&self) -> bool {
        self.taker.told()
    }

    fn left(&self, client: u8) -> u32 {
        self.taker.left(client)
    }
}

// Begins anew with each step that is written.
#[derive(Drop)]
struct Anew<'f> {
    last: &'f AtomicCell<u8>,
    rises: &'f AtomicCell<u32>,
    fell: &'f AtomicCell<bool>,
}

impl Sink for Anew<'_> {
    ghost use Rattle.std.specs.Prelude.{None};

    ghost written = { λ s. None };

    ghost faults = { λ s. 0 };

    fn write(&mut self, bytes: &[u8]) -> Result<usize, Failed> {
        self.last.store(0);
        Ok(bytes.len())
    }

    fn hand_on(&mut self) {}
}

// Its thread has an agent of each of two events, and polls for a line of one of them for ever.
const POLLS_OF_TWO: &[u8] =
    b"lwp 1\npod 1\nclient 0 5\nclient 1 6\nproc main\nagent g 5\nagent h 6\ncall loop\nproc loop\nrecv g poll\nskip ok\nagain\n";

// Runs it beside two clients that post nothing and don't leave.
fn run_beside_two<'s, R: Wait>(
    rt: &R,
    alloc: Global,
    script: &'s Script,
    sink: &mut Anew<'s>,
) -> Result<Option<Live>, NoMemory>
    requires { IsWithinLimits script.now }
{
    let mut run = start(alloc, script, 20)?;
    let (last, rises, fell) = (sink.last, sink.rises, sink.fell);
    let (first, _first_posters) = open_port(rt, alloc, 5, &[0])?;
    let (second, _second_posters) = open_port(rt, alloc, 6, &[1])?;
    let inlets = [
        InOrder {
            taker: first,
            last,
            rises,
            fell,
        },
        InOrder {
            taker: second,
            last,
            rises,
            fell,
        },
    ];
    let mut inlets = Vec::from_array(alloc, inlets)?;
    Ok(run_live(rt, &mut run, &mut inlets, sink).ok())
}

#[test]
fn the_looks_before_a_call_go_by_rising_event(rt: HostRuntime) -> Result<(), Fail> {
    let (last, rises) = (AtomicCell::new(0), AtomicCell::new(0));
    let fell = AtomicCell::new(false);
    let script = read_script(rt.alloc(), POLLS_OF_TWO);
    let Ok(script) = script else {
        assert!(rt; false);
        return Ok(());
    };
    let mut sink = Anew {
        last: &last,
        rises: &rises,
        fell: &fell,
    };
    let live = run_beside_two(&rt, rt.alloc(), &script, &mut sink)?;
    assert!(rt; live == Some(Live::Halt(Halt::Spent)));
    assert!(rt; rises.load() > 0 && !fell.load());
    Ok(())
}
