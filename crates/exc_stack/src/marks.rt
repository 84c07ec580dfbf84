// Searches in the marks of a stack, and the ways in which marks go.
ghost use Rattle.std.specs.Prelude.{◌≡◌, ◌++◌, ◌≤◌, ◌<◌, IfOk, length, take, drop};
ghost use Rattle.lwp_types.specs.Exceptions.{exit_of, first_frames, first_handlers, frames, handler_in, is_frame, matches};
ghost use Rattle.exc_stack.specs.Stack.{TakesTop, below_last_exit, is_handler, last_exit};

use lwp_types::{ExitMark, Found, Mark, NoMemory, Pattern, Sequence};
use std::alloc::{AllocError, Global};

/// The same marks, in memory of their own.
pub fn marks_again<'s>(marks: &Vec<Mark<'s>>) -> Result<Vec<Mark<'s>>, AllocError>
    ensures { IfOk result (λ copy. copy.items ≡ marks.now.items) }
{
    let mut copy = Vec::with_capacity(*marks.allocator(), marks.len())?;
    for mark in marks.iter() {
        copy.push_reserved(mark.again());
    }
    Ok(copy)
}

// Whether a procedure begins here.
pub fn is_frame(mark: &Mark) -> bool
    ensures { result ≡ is_frame mark.now }
{
    matches!(mark, Mark::Frame)
}

// Whether the mark is a handler.
fn is_handler(mark: &Mark) -> bool
    ensures { result ≡ is_handler mark.now }
{
    matches!(mark, Mark::Handler { .. })
}

// The exit procedure, if the mark is one.
fn exit_of<'s>(mark: Mark<'s>) -> Option<ExitMark<'s>>
    ensures { result ≡ exit_of mark.entry }
{
    match mark {
        Mark::Exit { reg, call } => Some(ExitMark { reg, call }),
        _ => None,
    }
}

// Whether a handler of this pattern catches the exception.
fn matches(exception: u32, pattern: Pattern) -> bool
    ensures { result ≡ matches exception pattern }
{
    match pattern {
        Pattern::All => true,
        Pattern::Num(number) => number == exception,
    }
}

// How many procedures are on the stack.
pub fn frames(marks: &[Mark]) -> usize
    ensures { result ≡ frames marks.now }
{
    marks.iter().filter(|mark| is_frame(mark)).count()
}

// How many marks the first `depth` frames have.
pub fn marks_below(marks: &[Mark], depth: u32) -> usize
    ensures { result ≡ length (first_frames depth marks.now) }
{
    let mut left = depth;
    for (place, mark) in marks.iter().enumerate() {
        if is_frame(mark) {
            if left == 0 {
                return place;
            }
            left -= 1;
        }
    }
    marks.len()
}

// The topmost handler that catches the exception.
pub fn found_in(marks: &[Mark], exception: u32) -> Option<Found>
    requires { length marks.now ≤ 256 }
    ensures { result ≡ handler_in exception marks.now }
{
    let mut frames = 0;
    let mut handlers = 0;
    let mut found = None;
    for mark in marks {
        match mark {
            Mark::Frame => {
                frames += 1;
                handlers = 0;
            }
            Mark::Handler { pattern, func, arg } => {
                if matches(exception, *pattern) {
                    found = Some(Found {
                        depth: frames,
                        mark: handlers,
                        func: *func,
                        arg: *arg,
                    });
                }
                handlers += 1;
            }
            Mark::Exit { .. } => {}
        }
    }
    found
}

// Takes the topmost mark, and gives it where it is an exit procedure.
fn take_top<'s>(marks: &mut Vec<Mark<'s>>) -> Option<ExitMark<'s>>
    requires { 0 < length marks.old.items }
    ensures { TakesTop marks.old.items marks.new.items result }
{
    exit_of(marks.pop()?)
}

// Takes marks from the top until one of them was an exit procedure, but none of the first `base`.
pub fn unwind<'s>(marks: &mut Vec<Mark<'s>>, base: usize) -> Option<ExitMark<'s>>
    requires { base ≤ length marks.old.items }
    ensures exit { result ≡ last_exit (drop base marks.old.items) }
    ensures left { marks.new.items
        ≡ take base marks.old.items ++ below_last_exit (drop base marks.old.items) }
{
    while base < marks.len() {
        let exit = take_top(marks);
        if exit.is_some() {
            return exit;
        }
    }
    None
}

// Of the marks from `base` on, which are those of one frame, only the first `number` handlers stay, and every exit.
pub fn settle(marks: &mut Vec<Mark>, base: usize, number: u32)
    requires { base ≤ length marks.old.items }
    ensures { marks.new.items
        ≡ take base marks.old.items ++ first_handlers number (drop base marks.old.items) }
{
    let mut kept = base;
    let mut left = number;
    for place in base..marks.len() {
        let mark = marks[place].again();
        if is_handler(&mark) {
            if left == 0 {
                continue;
            }
            left -= 1;
        }
        marks[kept] = mark;
        kept += 1;
    }
    marks.truncate(kept);
}

// A copy of the marks.
pub fn copied<'s>(alloc: Global, marks: &[Mark<'s>]) -> Result<Sequence<Mark<'s>>, NoMemory>
    ensures { IfOk result (λ copies. copies ≡ marks.now) }
{
    let mut copies = Sequence::new(alloc);
    for mark in marks {
        copies.push(mark.again())?;
    }
    Ok(copies)
}
