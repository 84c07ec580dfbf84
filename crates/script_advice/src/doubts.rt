// What is allowed in a script and hardly meant, line by line.
ghost use Rattle.std.specs.Prelude.{◌≡◌, ◌++◌, ◌∷◌, ◌||◌, [], Bool, IfOk, List, OnOk, suc, take};
ghost use Rattle.script_lines.specs.Reading.{phrase_at};
ghost use Rattle.script_advice.specs.Doubts.{are_some, doubt_if, doubt_of, doubt_remark, doubted_words, doubts, with_doubts, is_left, is_unset, name_doubt, near_set, or_words, role_doubt, thread_answered, ticks_awaited, wait_doubt, way_after_line};
ghost use Rattle.script_advice.specs.Remarks.{Remark, some_names, word_or_none};
ghost use Rattle.script_advice.specs.Near.{nearest, or_else};
ghost use Rattle.script_advice.specs.Texts.{remark_text, remarks_text};

use crate::ahead::looked_back;
use crate::faults::slot_at;
use crate::habits::ticks_in;
use crate::lines::first_line;
use crate::near_names::nearest;
use crate::remarks::{Cause, Doubt, Place, Remark, Why};
use crate::sets::{Sets, condition_used, monitor_used, priority_used, thread_used};
use crate::texts::{Format, add_remark};
use crate::way::Way;
use lwp_types::NoMemory;
use script_lines::{Kind, Op, Phrase, Role, phrase_at};
use script_text::NameList;
use std::alloc::Global;

fn doubt_if(doubtful: bool, doubt: Doubt) -> Option<Doubt>
    ensures { result ≡ doubt_if doubtful doubt }
{
    if doubtful { Some(doubt) } else { None }
}

// Whether a word is none of these names, and not empty.
fn is_unset(names: &NameList, word: &[u8]) -> bool
    ensures { result ≡ is_unset names.now word.now }
{
    !word.is_empty() && !names.contains(word)
}

// What is doubtful in the part that a line plays.
fn role_doubt(role: Role, sets: &Sets, way: Way, phrase: &Phrase<'_>) -> Option<Doubt>
    ensures { result ≡ role_doubt role sets.now way phrase.now }
{
    match role {
        Role::Client => doubt_if(phrase.event > 0 && !sets.asks(phrase.event), Doubt::Client),
        Role::Native => doubt_if(!sets.started.contains(phrase.procedure), Doubt::Procedure),
        Role::Proc => doubt_if(
            way.begun && !sets.started.contains(phrase.procedure),
            Doubt::Procedure,
        ),
        Role::Statement | Role::Skip | Role::Again => doubt_if(way.closed, Doubt::Statement),
        _ => None,
    }
}

// What is doubtful in the names of a line, in its priority, and in the monitor that it keeps.
fn name_doubt(sets: &Sets, keeps: bool, phrase: &Phrase<'_>) -> Option<Doubt>
    ensures { result ≡ name_doubt sets.now keeps phrase.now }
{
    if is_unset(&sets.threads, thread_used(phrase)) {
        return Some(Doubt::Thread);
    }
    if is_unset(&sets.monitors, monitor_used(phrase)) {
        return Some(Doubt::Monitor);
    }
    if is_unset(&sets.conditions, condition_used(phrase)) {
        return Some(Doubt::Condition);
    }
    if priority_used(phrase) > sets.most {
        return Some(Doubt::Priority);
    }
    doubt_if(
        keeps && !sets.promised.contains(phrase.monitor),
        Doubt::Kept,
    )
}

// The ticks that a line waits for; 0 for a line that waits for none.
fn ticks_awaited(phrase: &Phrase<'_>) -> u32
    ensures { result ≡ ticks_awaited phrase.now.op phrase.now }
{
    match phrase.op {
        Op::Sleep => phrase.number,
        Op::Recv => ticks_in(phrase.mode),
        _ => 0,
    }
}

// The thread that a line replies to, at once or as an exit procedure.
fn thread_answered<'l>(phrase: &Phrase<'l>) -> &'l [u8]
    ensures { result.now ≡ thread_answered phrase.now.op phrase.now }
{
    match phrase.op {
        Op::Reply | Op::ExitReply => phrase.thread,
        _ => &[],
    }
}

// Whether a line makes a server that takes lines, of which there are some, and no thread but servers may stay.
fn is_left(sets: &Sets, phrase: &Phrase<'_>) -> bool
    ensures { result ≡ is_left phrase.now.op sets.now phrase.now }
{
    match phrase.op {
        Op::Create => phrase.flags.server
            && sets.habits.taking.contains(phrase.procedure)
            && sets.posted
            && !sets.stayed,
        _ => false,
    }
}

// What is doubtful in what a line waits for, in the thread that it replies to, and in the server that it makes.
fn wait_doubt(sets: &Sets, phrase: &Phrase<'_>) -> Option<Doubt>
    ensures { result ≡ wait_doubt sets.now phrase.now }
{
    if ticks_awaited(phrase) > 0 && !sets.clocked {
        return Some(Doubt::Ticks);
    }
    if is_unset(&sets.senders, thread_answered(phrase)) && !sets.lent {
        return Some(Doubt::Reply);
    }
    doubt_if(is_left(sets, phrase), Doubt::Server)
}

// What is doubtful in a line but for the part that it plays.
fn later_doubt(sets: &Sets, keeps: bool, phrase: &Phrase<'_>) -> Option<Doubt>
    ensures { result ≡ or_else (name_doubt sets.now keeps phrase.now) (wait_doubt sets.now phrase.now) }
{
    match name_doubt(sets, keeps, phrase) {
        Some(doubt) => Some(doubt),
        None => wait_doubt(sets, phrase),
    }
}

// What is doubtful first in a line that keeps a monitor or not.
#[tactic(auto, unfolding(crate::specs::Doubts::doubt_of))]
fn doubt_of(sets: &Sets, way: Way, keeps: bool, phrase: &Phrase<'_>) -> Option<Doubt>
    ensures { result ≡ doubt_of sets.now way keeps phrase.now }
{
    match role_doubt(phrase.op.role(), sets, way, phrase) {
        Some(doubt) => Some(doubt),
        None => later_doubt(sets, keeps, phrase),
    }
}

// The first of two that isn't empty.
fn or_words<'l>(words: &'l [u8], other: &'l [u8]) -> &'l [u8]
    ensures { result.now ≡ or_words words.now other.now }
{
    if words.is_empty() { other } else { words }
}

// The line from the doubtful word on.
fn doubted_words(doubt: Doubt, op: Op, line: &[u8]) -> &[u8]
    ensures { result.now ≡ doubted_words doubt op line.now }
{
    match doubt {
        Doubt::Thread => or_words(
            slot_at(op, Kind::Who, line),
            or_words(
                slot_at(op, Kind::Source, line),
                slot_at(op, Kind::Built, line),
            ),
        ),
        Doubt::Monitor | Doubt::Kept => slot_at(op, Kind::Monitor, line),
        Doubt::Condition => slot_at(op, Kind::Condition, line),
        Doubt::Procedure => slot_at(op, Kind::Procedure, line),
        Doubt::Client => slot_at(op, Kind::Event, line),
        Doubt::Priority => slot_at(op, Kind::Priority, line),
        Doubt::Ticks => or_words(
            slot_at(op, Kind::Mode, line),
            slot_at(op, Kind::Number, line),
        ),
        Doubt::Reply => slot_at(op, Kind::Who, line),
        Doubt::Server => slot_at(op, Kind::Flags, line),
        Doubt::Statement => line,
    }
}

// The name of these that is nearly the word, or the empty word.
fn near_name<'n>(names: &'n NameList, word: &[u8]) -> &'n [u8]
    ensures { result.now ≡ word_or_none (nearest (some_names names.now) word.now) }
{
    match nearest(names, word) {
        Some(name) => name,
        None => &[],
    }
}

// The name that is set and nearly the doubtful one.
fn near_set<'s>(sets: &'s Sets, doubt: Doubt, phrase: &Phrase<'_>) -> &'s [u8]
    ensures { result.now ≡ near_set sets.now doubt phrase.now }
{
    match doubt {
        Doubt::Thread => near_name(&sets.threads, phrase.thread),
        Doubt::Monitor => near_name(&sets.monitors, phrase.monitor),
        Doubt::Condition => near_name(&sets.conditions, phrase.condition),
        _ => &[],
    }
}

// Tells one doubt.
fn add_doubt(
    out: &mut Vec<u8>,
    format: Format,
    sets: &Sets,
    number: u32,
    line: &[u8],
    phrase: &Phrase<'_>,
    doubt: Doubt,
) -> Result<(), NoMemory>
    ensures { OnOk result
        (out.new.items
        ≡ out.old.items
        ++ remark_text format (doubt_remark sets.now number line.now phrase.now doubt)) }
{
    let remark = Remark {
        line: number,
        cause: Cause::Doubted(doubt),
        text: line,
        place: Place {
            left: doubted_words(doubt, phrase.op, line).len(),
            why: Why::Doubted(doubt),
        },
        form: None,
        near: near_set(sets, doubt, phrase),
    };
    add_remark(out, format, &remark)
}

// The way to a line, the line's number, how many more doubts may be told, and whether there were any.
#[derive(Clone, Copy)]
struct Walk {
    way: Way,
    number: u32,
    left: u32,
    any: bool,
}

// Tells one doubt, if more may be told. Gives how many more may be told then.
fn add_counted(
    out: &mut Vec<u8>,
    format: Format,
    sets: &Sets,
    walk: Walk,
    line: &[u8],
    phrase: &Phrase<'_>,
    doubt: Doubt,
) -> Result<u32, NoMemory>
    ensures { IfOk result
        (λ after.
        (others : List Remark) →
        out.old.items
        ++ remarks_text format
        (take walk.left
        (doubt_remark sets.now walk.number line.now phrase.now doubt ∷ others))
        ≡ out.new.items ++ remarks_text format (take after others)) }
{
    if walk.left == 0 {
        return Ok(0);
    }
    add_doubt(out, format, sets, walk.number, line, phrase, doubt)?;
    Ok(walk.left - 1)
}

// Tells what is doubtful in a line, and goes on after it.
fn add_line(
    out: &mut Vec<u8>,
    format: Format,
    sets: &Sets,
    walk: Walk,
    keeps: bool,
    line: &[u8],
) -> Result<Walk, NoMemory>
    ensures told { IfOk result
        (λ w.
        (others : List Remark) →
        out.old.items
        ++ remarks_text format
        (take walk.left
        (with_doubts sets.now walk.way keeps walk.number line.now
        (phrase_at line.now) others))
        ≡ out.new.items ++ remarks_text format (take w.left others)) }
    ensures any { IfOk result
        (λ w.
        (others : List Remark) →
        (walk.any || are_some
        (with_doubts sets.now walk.way keeps walk.number line.now
        (phrase_at line.now) others))
        ≡ (w.any || are_some others)) }
    ensures way { IfOk result (λ w. w.way ≡ way_after_line walk.way (phrase_at line.now)) }
    ensures number { IfOk result (λ w. w.number ≡ suc walk.number) }
{
    let Some(number) = walk.number.checked_add(1) else {
        return Err(NoMemory);
    };
    let Some(phrase) = phrase_at(line) else {
        return Ok(Walk {
            way: walk.way,
            number,
            left: walk.left,
            any: walk.any,
        });
    };
    let way = walk.way.behind(&phrase);
    let Some(doubt) = doubt_of(sets, walk.way, keeps, &phrase) else {
        return Ok(Walk {
            way,
            number,
            left: walk.left,
            any: walk.any,
        });
    };
    let left = add_counted(out, format, sets, walk, line, &phrase, doubt)?;
    Ok(Walk {
        way,
        number,
        left,
        any: true,
    })
}

// Takes the last value.
fn last_kept(kept: &mut Vec<bool>) -> bool
    ensures last { (before : List Bool) (b : Bool) → kept.old.items ≡ before ++ b ∷ [] → result ≡ b }
    ensures rest { (before : List Bool) (b : Bool) → kept.old.items ≡ before ++ b ∷ [] →
        kept.new.items ≡ before }
{
    kept.pop().unwrap_or(false)
}

/// Tells the first thousand doubts of a text that spells a script, and gives whether there are any.
pub fn add_doubts(
    alloc: Global,
    out: &mut Vec<u8>,
    format: Format,
    text: &[u8],
) -> Result<bool, NoMemory>
    ensures told { OnOk result
        (out.new.items ≡ out.old.items ++ remarks_text format (take 1000 (doubts text.now))) }
    ensures any { IfOk result (λ any. any ≡ are_some (doubts text.now)) }
{
    let (mut kept, habits) = looked_back(alloc, text)?;
    let sets = Sets::by(alloc, habits, text)?;
    let mut walk = Walk {
        way: Way::new(),
        number: 1,
        left: 1000,
        any: false,
    };
    let mut rest = text;
    while let Some((line, after)) = first_line(rest) {
        let keeps = last_kept(&mut kept);
        walk = add_line(out, format, &sets, walk, keeps, line)?;
        rest = after;
    }
    Ok(walk.any)
}
