ghost use Rattle.script_run.specs.Served.{Gave};
ghost use Rattle.script_run.specs.Ties.{IsTied, any_intake};
ghost use Rattle.std.specs.Prelude.{All, IfOk, OnOk, length, ◌+◌, ◌%◌, ◌≡◌, ◌≤◌};
ghost use denote.Param.Send.{IsSync};

use crossbeam_utils::atomic::AtomicCell;
use event_gate::{Bell, Inlet, PostGate};
use lwp_types::{NoMemory, Text};
use script_run::{AllPosted, AnyInlet, Outside, draws_keep_ties};
use std::alloc::Global;
use std::sync::Wait;
use std::sync::atomic::{AtomicU64, Ordering};
use std::test::*;
use std::thread::{self, Scope, Threads};

// What gates tell: how often they were asked, and whether one was asked of a line that wasn't its client's next.
#[derive(Drop)]
struct Asked {
    times: AtomicU64,
    strange: AtomicCell<bool>,
}

// The gate of one client, which wants to be asked of its next line.
#[derive(Drop)]
struct Own<'a> {
    client: u8,
    next: u32,
    asked: &'a Asked,
}

impl PostGate for Own<'_> {
    ghost asked = { λ gate client seq. record gate { next = (gate.next + 1) % 4294967296 } };

    fn before(&mut self, client: u8, seq: u32) {
        if client != self.client || seq != self.next {
            self.asked.strange.store(true);
        }
        self.asked.times.fetch_add(1, Ordering::SeqCst);
        self.next = self.next.wrapping_add(1);
    }
}

fn own_gate<'a>(client: u8, asked: &'a Asked) -> Own<'a> {
    Own {
        client,
        next: 0,
        asked,
    }
}

fn three_gates<'a>(alloc: Global, asked: &'a Asked) -> Result<Vec<Own<'a>>, NoMemory>
    ensures { IfOk result (λ v. length v.items ≡ 3) }
{
    let mut gates = Vec::with_capacity(alloc, 3)?;
    gates.push(own_gate(0, asked))?;
    gates.push(own_gate(1, asked))?;
    gates.push(own_gate(2, asked))?;
    Ok(gates)
}

// How many lines came, by client, and whether each came in its place, from the inlet of its client's event.
#[derive(Drop)]
struct Tally {
    counts: [u32; 3],
    in_order: bool,
}

// Takes all lines that are there.
fn drain_one<R: Wait>(rt: &R, inlet: &mut AnyInlet, tally: &mut Tally)
    ensures { Gave (any_intake inlet.old) (any_intake inlet.new) }
{
    let event = inlet.event();
    for _ in rt.forever() {
        let Some(line) = inlet.take(rt) else { return };
        let client = usize::from(line.client);
        if client >= 3 || line.seq != tally.counts[client] || event != [7u8, 0, 7][client] {
            tally.in_order = false;
        } else {
            tally.counts[client] = tally.counts[client].wrapping_add(1);
        }
    }
    unreachable!()
}

fn drain<'s, R: Wait>(rt: &R, outside: &mut Outside<'s>, tally: &mut Tally)
    requires { IsTied outside.old }
    ensures { IsTied outside.new }
{
    draws_keep_ties();
    for place in 0..outside.inlets.len() {
        drain_one(rt, &mut outside.inlets[place], tally);
    }
}

// What an inlet says in the end: its event, and how many lines of its clients are left; 9 where a pass is missing.
fn last_word(inlet: &AnyInlet) -> (u8, u32) {
    if !inlet.told() {
        return (inlet.event(), 9);
    }
    let mut left = 0u32;
    for client in 0..3 {
        left = left.saturating_add(inlet.left(client));
    }
    (inlet.event(), left)
}

// Whether there is an inlet for each event, and no line is left.
fn are_empty(inlets: &[AnyInlet]) -> bool {
    inlets.len() == 2 && last_word(&inlets[0]) == (0, 0) && last_word(&inlets[1]) == (7, 0)
}

// How many lines were posted, where all were.
fn count_posted(posted: Option<AllPosted>) -> u32 {
    match posted {
        Some(posted) => posted.lines(),
        None => 0,
    }
}

// What came of it, how many lines were posted, as it was told before the last lines were taken and after them, and
// whether nothing was left.
#[derive(Drop)]
struct Harvest {
    tally: Tally,
    posted: [u32; 2],
    empty: bool,
}

// Lines are taken until all clients have left the bell, and the rest when their threads have ended.
fn take_while_posting<'s, R: Threads + Wait>(
    rt: &R,
    outside: &mut Outside<'s>,
    bell: &Bell,
) -> Harvest
    requires { IsTied outside.old }
{
    let mut tally = Tally {
        counts: [0; 3],
        in_order: true,
    };
    for _ in rt.forever() {
        drain(rt, outside, &mut tally);
        if bell.gone(rt) == 3 {
            break;
        }
        bell.park(rt);
    }
    let before = count_posted(outside.close(rt));
    drain(rt, outside, &mut tally);
    let posted = [before, count_posted(outside.close(rt))];
    let empty = are_empty(&outside.inlets);
    Harvest {
        tally,
        posted,
        empty,
    }
}

fn start_and_take<'s, E, R: Threads + Wait + Sync>(
    scope: &Scope<'s, E>,
    rt: &'s R,
    alloc: Global,
    texts: &'s [Vec<Text<'s>>],
    gates: Vec<Own<'s>>,
    bell: &'s Bell,
) -> Result<Harvest, NoMemory>
    requires texts { (length texts.now ≡ 3) × All (λ ts. length ts.items ≤ 20000) texts.now }
    requires gates { length gates.items ≡ 3 }
{
    let mut outside = Outside::start(scope, rt, alloc, &[7, 0, 7], texts, gates, bell)?;
    Ok(take_while_posting(rt, &mut outside, bell))
}

fn run_three<R: Threads + Wait + Sync>(
    rt: &R,
    alloc: Global,
    texts: &[Vec<Text>],
    asked: &Asked,
) -> Result<Harvest, NoMemory>
    requires { (length texts.now ≡ 3) × All (λ ts. length ts.items ≤ 20000) texts.now }
{
    let gates = three_gates(alloc, asked)?;
    let bell = Bell::new();
    let bell = &bell;
    thread::scope(
        thread::scope_env(),
        rt,
        move |scope| -> Result<Harvest, NoMemory>
            requires { IsSync R.row × (length gates.items ≡ 3) × (length texts.now ≡ 3)
                × All (λ ts. length ts.items ≤ 20000) texts.now }
        { start_and_take(scope, rt, alloc, texts, gates, bell) },
    )
}

// So many lines of one more client.
fn add_texts(alloc: Global, all: &mut Vec<Vec<Text<'_>>>, lines: usize) -> Result<(), NoMemory>
    requires lines { lines ≤ 20000 }
    requires before { All (λ ts. length ts.items ≤ 20000) all.old.items }
    ensures { OnOk result
        ((length all.new.items ≡ length all.old.items + 1)
        × All (λ ts. length ts.items ≤ 20000) all.new.items) }
{
    let mut texts = Vec::new(alloc);
    for _ in 0..lines {
        texts.push(Text::empty())?;
    }
    all.push(texts)?;
    Ok(())
}

fn three_texts<'s>(alloc: Global) -> Result<Vec<Vec<Text<'s>>>, NoMemory>
    ensures { IfOk result (λ v. (length v.items ≡ 3) × All (λ ts. length ts.items ≤ 20000) v.items) }
{
    let mut texts = Vec::new(alloc);
    add_texts(alloc, &mut texts, 300)?;
    add_texts(alloc, &mut texts, 200)?;
    add_texts(alloc, &mut texts, 100)?;
    Ok(texts)
}

fn is_whole(harvest: &Harvest) -> bool {
    harvest.tally.counts == [300, 200, 100]
        && harvest.tally.in_order
        && harvest.posted == [600, 600]
        && harvest.empty
}

#[test]
fn each_line_comes_once_and_in_order(rt: HostRuntime) -> Result<(), Fail> {
    let texts = three_texts(rt.alloc())?;
    let asked = Asked {
        times: AtomicU64::new(0),
        strange: AtomicCell::new(false),
    };
    let harvest = run_three(&rt, rt.alloc(), &texts, &asked)?;
    let times = asked.times.load(Ordering::SeqCst);
    assert!(rt; is_whole(&harvest) && times == 600 && !asked.strange.load());
    Ok(())
}
