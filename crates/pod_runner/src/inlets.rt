// Inlets are served between two calls.
ghost use Rattle.std.specs.Prelude.{◌≡◌, ◌≤◌, ◌<◌, ◌↔◌, false, map, length, OnOk, IsTrue};
ghost use Rattle.std.specs.Slice.Scan.{HoldsNowhere};
ghost use Rattle.pod_events.specs.Events.{is_takeable};
ghost use Rattle.pod_runner.specs.Ready.{IsReady};
ghost use Rattle.pod_runner.specs.Run.{session_of};
ghost use Rattle.pod_runner.specs.Inlets.{AreBelow, Serves, ServesAt};
ghost use Rattle.event_gate.specs.Inlet.{AllTold, EventsRise};
ghost use Rattle.pod_runner.specs.Live.{LivesOn};
ghost use Rattle.streams.specs.Streams.{sides};

use crate::{Run, RunErr};
use event_gate::Inlet;
use lwp_types::{Polled, Program, Sink};
use std::sync::Wait;

/// Whether all passes came back to each.
pub fn all_told<'s, I: Inlet<'s>>(inlets: &[I]) -> bool
    ensures { IsTrue result ↔ AllTold (map I.intake inlets.now) }
{
    for inlet in inlets {
        if !inlet.told() {
            return false;
        }
    }
    true
}

// One line of the inlet is taken, if its event waits and a line is there.
fn serve<'s, B: Polled<'s>, P: Program<B>, I: Inlet<'s>, K: Sink, R: Wait>(
    rt: &R,
    run: &mut Run<'s, B, P>,
    inlets: &mut Vec<I>,
    i: usize,
    sink: &mut K,
) -> Result<(), RunErr>
    requires sound { run.old.failed ≡ false }
    requires rise { EventsRise (map I.intake inlets.old.items) }
    requires within { i < length inlets.old.items }
    ensures lives { LivesOn B.next P.bodies P.proc_names
        (sides K.written K.faults sink.old sink.new) run.old run.new (map I.intake inlets.old.items)
        (map I.intake inlets.new.items) result }
    ensures served { OnOk result
        (ServesAt B.next P.bodies i run.old run.new (map I.intake inlets.old.items)
        (map I.intake inlets.new.items)) }
{
    let inlet = &mut inlets[i];
    let event = inlet.event();
    if !run.wants(event) {
        return Ok(());
    }
    match inlet.take(rt) {
        Some(line) => run.offer(event, line, sink),
        None => Ok(()),
    }
}

// The first event from `from` on of which a line can be delivered; or 32, if there is none below.
fn next_event<'s, B: Polled<'s>, P: Program<B>>(run: &Run<'s, B, P>, from: u8) -> u8
    requires sound { run.now.failed ≡ false }
    ensures { HoldsNowhere (is_takeable (session_of B.next P.bodies run.now).live.pod) from result }
{
    match run.next_wanted(from) {
        Some(event) => event,
        None => 32,
    }
}

// The first place from `from` on whose inlet has this event or one above it, or the place past the last. Mostly no such
// inlet is left, which the last one tells.
fn place_of<'s, I: Inlet<'s>>(inlets: &[I], from: usize, event: u8) -> usize
    requires rise { EventsRise (map I.intake inlets.now) }
    requires some { 0 < length inlets.now }
    requires within { from ≤ length inlets.now }
    ensures least { from ≤ result }
    ensures most { result ≤ length inlets.now }
    ensures below { AreBelow (map I.intake inlets.now) from result event }
{
    let places = inlets.len();
    if inlets[places - 1].event() < event {
        return places;
    }
    for i in from..places {
        if inlets[i].event() >= event {
            return i;
        }
    }
    places
}

/// Each inlet in turn may have one line taken. One whose event doesn't wait is passed over: as long as somebody may run, or no line was
/// taken, its event still doesn't wait at the end.
pub fn serve_all<'s, B: Polled<'s>, P: Program<B>, I: Inlet<'s>, K: Sink, R: Wait>(
    rt: &R,
    run: &mut Run<'s, B, P>,
    inlets: &mut Vec<I>,
    sink: &mut K,
) -> Result<(), RunErr>
    requires ready { IsReady B.next P.bodies run.old }
    requires rise { EventsRise (map I.intake inlets.old.items) }
    ensures lives { LivesOn B.next P.bodies P.proc_names
        (sides K.written K.faults sink.old sink.new) run.old run.new (map I.intake inlets.old.items)
        (map I.intake inlets.new.items) result }
    ensures served { OnOk result
        (Serves B.next P.bodies (length (map I.intake inlets.old.items)) run.old run.new
        (map I.intake inlets.old.items) (map I.intake inlets.new.items)) }
{
    let mut i = 0;
    while i < inlets.len() {
        let event = inlets[i].event();
        let next = next_event(run, event);
        if event < next {
            i = place_of(inlets, i + 1, next);
        } else {
            serve(rt, run, inlets, i, sink)?;
            i += 1;
        }
    }
    Ok(())
}
