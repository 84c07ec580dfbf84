// Who waits for whom after the last line, and who waits in a cycle.
ghost use Rattle.std.specs.Prelude.{◌≡◌, ◌++◌, ◌&&◌, ◌==◌, length, true, IfOk, OnOk};
ghost use Rattle.trace_page.specs.Spans.{is_held};
ghost use Rattle.trace_page.specs.Waits.{awaited, awaited_by, comes_back, cycle, cycles, deadlocks, holder, hops_from, is_stuck, link_at};
ghost use Rattle.trace_page.specs.Waits.{links_of, place_awaited};

use crate::scene::{Hop, Kind, Lane, Need, Span};
use crate::steps::{need_of, place};
use lwp_types::NoMemory;
use std::alloc::Global;
use trace_lines::NOBODY;

/// A lane, and the place of whom it waits for.
#[derive(Clone, Copy)]
pub struct Link {
    pub id: u64,
    pub next: usize,
}

fn holds(mon: u64, span: Span) -> bool
    ensures { result ≡ (is_held span.kind && (span.of == mon)) }
{
    match span.kind {
        Kind::Held => span.of == mon,
        Kind::Life | Kind::Parked | Kind::Given => false,
    }
}

/// Who holds a monitor; nobody, where it is free.
pub fn holder(mon: u64, spans: &[Span]) -> u64
    ensures { result ≡ holder mon spans.now }
{
    for span in spans {
        if holds(mon, *span) {
            return span.tid;
        }
    }
    NOBODY
}

fn awaited_by(need: Need, target: u64, spans: &[Span]) -> u64
    ensures { result ≡ awaited_by need target spans.now }
{
    match need {
        Need::Monitor => holder(target, spans),
        Need::Reply | Need::Letter | Need::Death => target,
        Need::Condition | Need::Clock | Need::Nothing => NOBODY,
    }
}

/// Whom a thread waits for; nobody, where it doesn't wait, or for no single thread.
pub fn awaited(lane: Lane, spans: &[Span]) -> u64
    ensures { result ≡ awaited spans.now lane }
{
    if lane.waits {
        awaited_by(need_of(lane.verb), lane.target, spans)
    } else {
        NOBODY
    }
}

/// The place of whom somebody waits for; after all lanes, where that is nobody.
pub fn place_awaited(id: u64, lanes: &[Lane]) -> usize
    ensures { result ≡ place_awaited id lanes.now }
{
    if id == NOBODY {
        lanes.len()
    } else {
        place(id, lanes)
    }
}

fn add_links(out: &mut Vec<Link>, lanes: &[Lane], spans: &[Span]) -> Result<(), NoMemory>
    ensures { OnOk result (out.new.items ≡ out.old.items ++ links_of lanes.now spans.now lanes.now) }
{
    for lane in lanes {
        out.push(Link {
            id: lane.id,
            next: place_awaited(awaited(*lane, spans), lanes),
        })?;
    }
    Ok(())
}

fn link_at(links: &[Link], at: usize) -> Link
    ensures { result ≡ link_at links.now at }
{
    if at < links.len() {
        links[at]
    } else {
        Link {
            id: NOBODY,
            next: links.len(),
        }
    }
}

// Whether the way from this place comes back to it, and to none before.
fn comes_back(links: &[Link], start: usize) -> bool
    ensures { result ≡ comes_back links.now start (length links.now) start }
{
    let mut at = start;
    let mut left = links.len();
    while left > 0 {
        left -= 1;
        let next = link_at(links, at).next;
        if next <= start || links.len() <= next {
            return next == start;
        }
        at = next;
    }
    false
}

// The steps of that way.
fn add_hops(out: &mut Vec<Hop>, links: &[Link], start: usize) -> Result<(), NoMemory>
    ensures { OnOk result
        (out.new.items
        ≡ out.old.items ++ hops_from links.now start (length links.now) start true) }
{
    let mut at = start;
    let mut begins = true;
    let mut left = links.len();
    while left > 0 {
        left -= 1;
        let link = link_at(links, at);
        let next = link.next;
        out.push(Hop {
            from: link.id,
            to: link_at(links, next).id,
            begins,
        })?;
        if next == start {
            return Ok(());
        }
        at = next;
        begins = false;
    }
    Ok(())
}

fn add_cycle(out: &mut Vec<Hop>, links: &[Link], start: usize) -> Result<(), NoMemory>
    ensures { OnOk result (out.new.items ≡ out.old.items ++ cycle links.now start) }
{
    if comes_back(links, start) {
        add_hops(out, links, start)
    } else {
        Ok(())
    }
}

fn add_cycles(out: &mut Vec<Hop>, links: &[Link]) -> Result<(), NoMemory>
    ensures { OnOk result (out.new.items ≡ out.old.items ++ cycles links.now) }
{
    let count = links.len();
    for start in 0..count {
        add_cycle(out, links, start)?;
    }
    Ok(())
}

/// Whether a thread is in one of these cycles.
pub fn is_stuck(id: u64, hops: &[Hop]) -> bool
    ensures { result ≡ is_stuck id hops.now }
{
    for hop in hops {
        if hop.from == id {
            return true;
        }
    }
    false
}

/// All deadlocks: the cycles of threads that wait for one another, step by step.
pub fn deadlocks(alloc: Global, lanes: &[Lane], spans: &[Span]) -> Result<Vec<Hop>, NoMemory>
    ensures { IfOk result (λ hops. hops.items ≡ deadlocks lanes.now spans.now) }
{
    let mut links = Vec::new(alloc);
    add_links(&mut links, lanes, spans)?;
    let mut hops = Vec::new(alloc);
    add_cycles(&mut hops, &links)?;
    Ok(hops)
}
