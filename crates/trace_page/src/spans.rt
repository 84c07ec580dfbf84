// What goes on, and what ends it.
ghost use Rattle.std.specs.Prelude.{◌≡◌, ◌++◌, ◌&&◌, ◌==◌, OnOk};
ghost use Rattle.trace_page.specs.Spans.{after, agent_of, bars, greater_level, is_agent, is_drawn, is_given, is_held, is_life, is_owned, is_parked, last_from, level_from, spans_after, top_from, touches, turned_spans};

use crate::scene::{Kind, Moment, Shape, Span};
use lwp_types::NoMemory;
use trace_lines::NOBODY;

/// What changes of all that goes on.
#[derive(Clone, Copy)]
pub enum Change {
    /// A thread or an agent dies, and the agents of that thread.
    Dies { tid: u64 },
    /// A suspended thread is resumed.
    Resumes { tid: u64 },
    /// A monitor is released, no matter who holds it.
    Breaks { mon: u64 },
    /// A thread leaves the monitor of this level.
    Leaves { tid: u64, level: u64 },
    /// A thread gives a monitor up for a wait.
    GivesUp { tid: u64, mon: u64 },
    /// It has that monitor again.
    Wakes { tid: u64, now: Moment },
    /// It has had that monitor all along, since its wait was refused.
    Stays { tid: u64 },
    /// All is told.
    Ends,
}

fn is_life(kind: Kind) -> bool
    ensures { result ≡ is_life kind }
{
    match kind {
        Kind::Life => true,
        Kind::Parked | Kind::Held | Kind::Given => false,
    }
}

fn is_parked(kind: Kind) -> bool
    ensures { result ≡ is_parked kind }
{
    match kind {
        Kind::Parked => true,
        Kind::Life | Kind::Held | Kind::Given => false,
    }
}

fn is_held(kind: Kind) -> bool
    ensures { result ≡ is_held kind }
{
    match kind {
        Kind::Held => true,
        Kind::Life | Kind::Parked | Kind::Given => false,
    }
}

fn is_given(kind: Kind) -> bool
    ensures { result ≡ is_given kind }
{
    match kind {
        Kind::Given => true,
        Kind::Life | Kind::Parked | Kind::Held => false,
    }
}

fn touches(change: Change, span: Span) -> bool
    ensures { result ≡ touches change span }
{
    match change {
        Change::Dies { tid } => span.tid == tid || (is_life(span.kind) && span.of == tid),
        Change::Resumes { tid } => is_parked(span.kind) && span.tid == tid,
        Change::Breaks { mon } => is_held(span.kind) && span.of == mon,
        Change::Leaves { tid, level } => {
            is_held(span.kind) && (span.tid == tid && span.level == level)
        }
        Change::GivesUp { tid, mon } => is_held(span.kind) && (span.tid == tid && span.of == mon),
        Change::Wakes { tid, now: _ } | Change::Stays { tid } => {
            is_given(span.kind) && span.tid == tid
        }
        Change::Ends => true,
    }
}

fn is_drawn(change: Change, span: Span) -> bool
    ensures { result ≡ is_drawn change span }
{
    if is_given(span.kind) {
        return false;
    }
    touches(change, span)
}

fn add_turned(out: &mut Vec<Span>, change: Change, span: Span) -> Result<(), NoMemory>
    ensures { OnOk result (out.new.items ≡ out.old.items ++ turned_spans change span) }
{
    let next = match change {
        Change::GivesUp { tid: _, mon: _ } => Span {
            kind: Kind::Given,
            ..span
        },
        Change::Wakes { tid: _, now } => Span {
            kind: Kind::Held,
            since: now,
            ..span
        },
        Change::Stays { tid: _ } => Span {
            kind: Kind::Held,
            ..span
        },
        Change::Dies { tid: _ }
        | Change::Resumes { tid: _ }
        | Change::Breaks { mon: _ }
        | Change::Leaves { tid: _, level: _ }
        | Change::Ends => return Ok(()),
    };
    out.push(next)?;
    Ok(())
}

fn add_after(out: &mut Vec<Span>, change: Change, span: Span) -> Result<(), NoMemory>
    ensures { OnOk result (out.new.items ≡ out.old.items ++ after change span) }
{
    if touches(change, span) {
        return add_turned(out, change, span);
    }
    out.push(span)?;
    Ok(())
}

/// What goes on after a change.
pub fn add_kept(out: &mut Vec<Span>, change: Change, spans: &[Span]) -> Result<(), NoMemory>
    ensures { OnOk result (out.new.items ≡ out.old.items ++ spans_after change spans.now) }
{
    for span in spans {
        add_after(out, change, *span)?;
    }
    Ok(())
}

/// What is drawn for a change.
pub fn add_bars(
    out: &mut Vec<Shape>,
    change: Change,
    to: Moment,
    spans: &[Span],
) -> Result<(), NoMemory>
    ensures { OnOk result (out.new.items ≡ out.old.items ++ bars change to spans.now) }
{
    for span in spans {
        if is_drawn(change, *span) {
            out.push(Shape::Bar { span: *span, to })?;
        }
    }
    Ok(())
}

fn is_owned(tid: u64, span: Span) -> bool
    ensures { result ≡ is_owned tid span }
{
    (is_held(span.kind) || is_given(span.kind)) && span.tid == tid
}

fn is_agent(event: u64, span: Span) -> bool
    ensures { result ≡ is_agent event span }
{
    is_life(span.kind) && span.event == event
}

/// The first agent of this event that lives; nobody, where there is none.
pub fn agent_of(event: u64, spans: &[Span]) -> u64
    ensures { result ≡ agent_of event spans.now }
{
    for span in spans {
        if is_agent(event, *span) {
            return span.tid;
        }
    }
    NOBODY
}

fn raised(counts: bool, level: u64, span: Span) -> u64
    ensures { result ≡ greater_level counts level span }
{
    if counts && level < span.level {
        span.level
    } else {
        level
    }
}

/// The greatest level of the monitors of a thread; 0, where it has none.
pub fn top_level(tid: u64, spans: &[Span]) -> u64
    ensures { result ≡ top_from 0 tid spans.now }
{
    let mut level = 0;
    for span in spans {
        level = raised(is_owned(tid, *span), level, *span);
    }
    level
}

/// The greatest level at which a thread has this monitor.
pub fn level_of(tid: u64, mon: u64, spans: &[Span]) -> u64
    ensures { result ≡ level_from 0 tid mon spans.now }
{
    let mut level = 0;
    for span in spans {
        level = raised(is_owned(tid, *span) && span.of == mon, level, *span);
    }
    level
}

/// The monitor of a level of a thread; nobody's, where there is none.
pub fn monitor_at(tid: u64, level: u64, spans: &[Span]) -> u64
    ensures { result ≡ last_from 18446744073709551615 tid level spans.now }
{
    let mut found = u64::MAX;
    for span in spans {
        if is_owned(tid, *span) && span.level == level {
            found = span.of;
        }
    }
    found
}
