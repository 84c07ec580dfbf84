use crate::copies::is_copy;
use exc_stack::ExcStack;
use lwp_types::{ExitCall, ExitMark, Func, LwpErr, Mark, Pattern};
use std::alloc::Global;

const EXIT: ExitCall<'static> = ExitCall::SetExit { code: 3 };

// An exit is set in one frame, and handlers in a second one.
const MARKS: [Mark<'static>; 5] = [
    Mark::Exit { reg: 0, call: EXIT },
    Mark::Frame,
    Mark::Handler {
        pattern: Pattern::All,
        func: Func::Nothing,
        arg: 5,
    },
    Mark::Handler {
        pattern: Pattern::Num(7),
        func: Func::Give,
        arg: 6,
    },
    Mark::Handler {
        pattern: Pattern::Num(8),
        func: Func::Sum,
        arg: 7,
    },
];

// The call by which such a mark is set.
fn sets<'s>(stack: &mut ExcStack<'s>, mark: &Mark<'s>) -> bool {
    if stack.marks() == 0 {
        return false;
    }
    let set = match mark {
        Mark::Frame => stack.enter_frame(),
        Mark::Handler { pattern, func, arg } => stack.handle(*pattern, *func, *arg),
        Mark::Exit { reg, call } => stack.on_exit(*reg, call.again()),
    };
    set == Ok(true)
}

fn sets_all(stack: &mut ExcStack) -> bool {
    for mark in &MARKS {
        if !sets(stack, mark) {
            return false;
        }
    }
    true
}

// Why a handler isn't taken back.
fn refusal(stack: &mut ExcStack) -> Option<LwpErr> {
    if stack.marks() == 0 {
        return Some(LwpErr::NonExist);
    }
    stack.unhandle().err()
}

// The depth, the number and the argument of the handler that catches an exception.
fn found(stack: &ExcStack, exception: u32) -> (u32, u32, u32) {
    if stack.marks() == 0 {
        return (0, 0, 0);
    }
    match stack.find(exception) {
        Some(found) => (found.depth, found.mark, found.arg),
        None => (0, 0, 0),
    }
}

// Of the topmost frame, the handler that catches the exception goes, and those above it.
fn settles(stack: &mut ExcStack, exception: u32) -> bool {
    if stack.marks() == 0 {
        return false;
    }
    let Some(found) = stack.find(exception) else {
        return false;
    };
    if found.depth != stack.frames() {
        return false;
    }
    stack.settle(found.mark);
    true
}

const ROWS: [[u64; 4]; 5] = [[0; 4], [2, 0, 0, 0], [0; 4], [1, 5, 0, 0], [2, 4, 0, 0]];

fn unwinds(stack: &mut ExcStack) -> bool {
    if stack.frames() == 0 {
        return false;
    }
    let inner = matches!(stack.unwind_to(1), Some(ExitMark { reg: 4, .. }));
    let none = stack.unwind_to(1).is_none();
    let outer = matches!(stack.unwind_all(), Some(ExitMark { reg: 0, .. }));
    inner && none && outer && stack.unwind_all().is_none() && stack.marks() == 0
}

// The second frame is settled and left.
fn does_all(stack: &mut ExcStack) -> bool {
    sets_all(stack)
        && refusal(stack).is_none()
        && found(stack, 7) == (2, 1, 6)
        && sets(stack, &Mark::Exit { reg: 4, call: EXIT })
        && refusal(stack) == Some(LwpErr::InvalidArg)
        && settles(stack, 7)
        && found(stack, 7) == (2, 0, 5)
        && (stack.frames(), stack.marks()) == (2, 5)
        && is_copy(stack.copy(), &ROWS)
        && unwinds(stack)
}

fn is_done(alloc: Global) -> bool {
    let Ok(mut stack) = ExcStack::new(alloc) else {
        return false;
    };
    does_all(&mut stack)
}

#[test]
fn handlers_are_found_and_exits_unwound(rt: HostRuntime) {
    assert!(rt; is_done(rt.alloc()));
}
