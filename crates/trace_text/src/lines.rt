// The line of each effect.
ghost use Rattle.std.specs.Prelude.{◌≡◌, ◌≤◌, ◌<◌, ◌+◌, ◌++◌, [], IfOk, None, length, option_copied, take};
ghost use Rattle.trace_text.specs.Lines.{posted_text, taken_text, ticked_text, delivered_text, tick_text, trapped_text, rites_text, line_text, ended_line, step_lines};

use crate::answers::add_answer;
use crate::calls::{put_call, put_exit, put_word_id, put_word_number};
use crate::room::make_room;
use crate::rows::{put_byte, put_id, put_number, put_spaced, put_word};
use lists::TextList;
use lwp_types::{Answer, Call, Effect, Effects, ExitCall, Line, NoMemory, Tid};
use std::alloc::Global;

// Who posted a line, and as which of its own, and the line's text.
#[inline(always)]
fn put_posted(row: &mut [u8], at: usize, line: &Line) -> usize
    requires { at + 300 ≤ length row.old }
    ensures len { length row.new ≡ length row.old }
    ensures end { result ≤ at + 300 }
    ensures text { take result row.new ≡ take at row.old ++ posted_text line.now }
{
    let next = put_word_number(row, at, b" client ", u32::from(line.client));
    let next = put_word_number(row, next, b" seq ", line.seq);
    put_spaced(row, next, &line.text)
}

#[inline(never)]
fn put_taken(row: &mut [u8], at: usize, event: u8, line: &Line) -> usize
    requires { at + 600 ≤ length row.old }
    ensures len { length row.new ≡ length row.old }
    ensures end { result ≤ at + 600 }
    ensures text { take result row.new ≡ take at row.old ++ taken_text event line.now }
{
    let next = put_word_number(row, at, b"event ", u32::from(event));
    put_posted(row, next, line)
}

#[inline(never)]
fn put_tick(row: &mut [u8], at: usize, now: u64, line: &Line) -> usize
    requires { at + 600 ≤ length row.old }
    ensures len { length row.new ≡ length row.old }
    ensures end { result ≤ at + 600 }
    ensures text { take result row.new ≡ take at row.old ++ ticked_text now line.now }
{
    let word = put_word(row, at, b"tick ");
    let next = put_number(row, word, now);
    put_posted(row, next, line)
}

#[inline(always)]
fn put_called(row: &mut [u8], at: usize, procs: &TextList, tid: Tid, call: &Call) -> usize
    requires { at + 600 ≤ length row.old }
    ensures len { length row.new ≡ length row.old }
    ensures end { result ≤ at + 600 }
    ensures text { take result row.new
        ≡ take at row.old ++ line_text procs.now None (Effect.Called tid call.now) }
{
    let next = put_id(row, at, b't', tid.number);
    let word = put_word(row, next, b": ");
    put_call(row, word, procs, tid, call)
}

#[inline(always)]
fn add_answered(row: &mut Vec<u8>, at: usize, tid: Tid, answer: &Answer) -> Result<usize, NoMemory>
    requires { at + 640 ≤ length row.old.items }
    ensures text { IfOk result
        (λ end.
        take end row.new.items
        ≡ take at row.old.items ++ line_text [] None (Effect.Answered tid answer.now)) }
    ensures end { IfOk result (λ end. end < length row.new.items) }
{
    let next = put_id(row.as_mut_slice(), at, b't', tid.number);
    add_answer(row, next, answer)
}

#[inline(never)]
fn add_exited(
    row: &mut Vec<u8>,
    at: usize,
    reg: u64,
    call: &ExitCall,
    answer: &Answer,
) -> Result<usize, NoMemory>
    requires { at + 640 ≤ length row.old.items }
    ensures text { IfOk result
        (λ end.
        take end row.new.items
        ≡ take at row.old.items ++ line_text [] None (Effect.Exited 0 reg call.now answer.now)) }
    ensures end { IfOk result (λ end. end < length row.new.items) }
{
    let bytes = row.as_mut_slice();
    let word = put_word(bytes, at, b"exit x");
    let next = put_number(bytes, word, reg);
    let word = put_word(bytes, next, b" ");
    let next = put_exit(bytes, word, None, call);
    add_answer(row, next, answer)
}

fn put_died(row: &mut [u8], at: usize, tid: Tid) -> usize
    requires { at + 600 ≤ length row.old }
    ensures len { length row.new ≡ length row.old }
    ensures end { result ≤ at + 600 }
    ensures text { take result row.new ≡ take at row.old ++ line_text [] None (Effect.Died tid) }
{
    let next = put_id(row, at, b't', tid.number);
    put_word(row, next, b" dies")
}

fn put_delivered(row: &mut [u8], at: usize, agent: Tid, event: u8, took: Option<&Line>) -> usize
    requires { at + 600 ≤ length row.old }
    ensures len { length row.new ≡ length row.old }
    ensures end { result ≤ at + 600 }
    ensures text { take result row.new
        ≡ take at row.old ++ delivered_text agent event (option_copied took.entry) }
{
    match took {
        Some(line) => put_taken(row, at, event, line),
        None => put_word_id(row, at, b"also ", b't', agent.number),
    }
}

fn put_ticked(row: &mut [u8], at: usize, now: u64, took: Option<&Line>) -> usize
    requires { at + 600 ≤ length row.old }
    ensures len { length row.new ≡ length row.old }
    ensures end { result ≤ at + 600 }
    ensures text { take result row.new
        ≡ take at row.old ++ tick_text now (option_copied took.entry) }
{
    match took {
        Some(line) => put_tick(row, at, now, line),
        None => at,
    }
}

#[inline(never)]
fn put_trapped(row: &mut [u8], at: usize, tid: Tid, event: u8) -> usize
    requires { at + 600 ≤ length row.old }
    ensures len { length row.new ≡ length row.old }
    ensures end { result ≤ at + 600 }
    ensures text { take result row.new ≡ take at row.old ++ trapped_text tid event }
{
    let next = put_id(row, at, b't', tid.number);
    put_word_number(row, next, b" trap ", u32::from(event))
}

#[inline(never)]
fn put_rites(row: &mut [u8], at: usize, agent: Tid, dead: Tid) -> usize
    requires { at + 600 ≤ length row.old }
    ensures len { length row.new ≡ length row.old }
    ensures end { result ≤ at + 600 }
    ensures text { take result row.new ≡ take at row.old ++ rites_text agent dead }
{
    let next = put_word_id(row, at, b"rites ", b't', dead.number);
    put_word_id(row, next, b" to ", b't', agent.number)
}

// The line of an effect from `at` on, and a newline.
#[inline(always)]
fn add_line(
    row: &mut Vec<u8>,
    at: usize,
    e: &Effect,
    took: Option<&Line>,
    names: &TextList,
) -> Result<usize, NoMemory>
    requires { at ≤ length row.old.items }
    ensures text { IfOk result
        (λ end.
        take end row.new.items
        ≡ take at row.old.items
        ++ ended_line (line_text names.now (option_copied took.entry) e.now)) }
    ensures end { IfOk result (λ end. end ≤ length row.new.items) }
{
    make_room(row, at)?;
    let bytes = row.as_mut_slice();
    let end = match e {
        Effect::Called { tid, call } => put_called(bytes, at, names, *tid, call),
        Effect::Answered { tid, answer } => add_answered(row, at, *tid, answer)?,
        Effect::Exited {
            tid: _,
            reg,
            call,
            answer,
        } => add_exited(row, at, *reg, call, answer)?,
        Effect::Died { tid } => put_died(bytes, at, *tid),
        Effect::Delivered { agent, event } => put_delivered(bytes, at, *agent, *event, took),
        Effect::Ticked { now } => put_ticked(bytes, at, *now, took),
        Effect::Ended { status } => put_word_number(bytes, at, b"pod ends ", u32::from(*status)),
        Effect::Trapped { tid, event } => put_trapped(bytes, at, *tid, *event),
        Effect::Rites { agent, dead } => put_rites(bytes, at, *agent, *dead),
    };
    Ok(put_byte(row.as_mut_slice(), end, b'\n'))
}

/// The line of one effect, with its newline: the lines of a step's effects one after another are what `StepLines` has. `took` is the
/// line that was taken for the effect, if any. A delivery and a tick print it, and no other effect does. Without it a delivery prints
/// its agent, as the later ones of a step do, and a tick prints nothing but the newline. `names` are the procedures' names by number.
pub fn trace_line(
    alloc: Global,
    e: &Effect,
    took: Option<&Line>,
    names: &TextList,
) -> Result<Vec<u8>, NoMemory>
    ensures { IfOk result
        (λ line. line.items ≡ ended_line (line_text names.now (option_copied took.entry) e.now)) }
{
    let mut row = Vec::new(alloc);
    let end = add_line(&mut row, 0, e, took, names)?;
    row.truncate(end);
    Ok(row)
}

// A line for each effect from `at` on, as `StepLines` has them.
#[inline(always)]
pub(crate) fn add_lines(
    row: &mut Vec<u8>,
    at: usize,
    effects: &Effects,
    took: Option<&Line>,
    names: &TextList,
) -> Result<usize, NoMemory>
    requires { at ≤ length row.old.items }
    ensures text { IfOk result
        (λ end.
        take end row.new.items
        ≡ take at row.old.items
        ++ step_lines names.now (option_copied took.entry) effects.now) }
    ensures end { IfOk result (λ end. end ≤ length row.new.items) }
{
    let mut end = at;
    let mut left = took;
    for i in 0..effects.len() {
        end = add_line(row, end, effects.get(i), left.take(), names)?;
    }
    Ok(end)
}

// The line of a call that a thread makes from `at` on, and a newline.
#[inline(always)]
pub(crate) fn add_call_line(
    row: &mut Vec<u8>,
    at: usize,
    tid: Tid,
    call: &Call,
    names: &TextList,
) -> Result<usize, NoMemory>
    requires { at ≤ length row.old.items }
    ensures text { IfOk result
        (λ end.
        take end row.new.items
        ≡ take at row.old.items
        ++ ended_line (line_text names.now None (Effect.Called tid call.now))) }
    ensures end { IfOk result (λ end. end ≤ length row.new.items) }
{
    make_room(row, at)?;
    let bytes = row.as_mut_slice();
    let end = put_called(bytes, at, names, tid, call);
    Ok(put_byte(bytes, end, b'\n'))
}
