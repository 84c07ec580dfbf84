// Calls on the caller's stack: procedures, handlers, exit procedures.
ghost use Rattle.std.specs.Prelude.{◌≡◌, ◌<◌, ◌≤◌, ◌++◌, ◌∷◌, [], Some, None, IfOk, IfSome, IsErr, IsTrue, OnErr, OnOk, length, not, option_map};
ghost use Rattle.std.specs.Result.{IsOkAnd, result_err};
ghost use Rattle.death_cleanup.specs.Comes.{Answers};
ghost use Rattle.death_cleanup.specs.Moves.{kind_with_marks, kind_marks};
ghost use Rattle.death_cleanup.specs.Ties.{InStep, LawfulParts};
ghost use Rattle.death_cleanup.specs.View.{state_of};
ghost use Rattle.exc_stack.specs.Stack.{IsInReach, after_unhandle, handlers_on_top, has_all_frames, is_full, refusal_on, after_settle_at, with_frame, with_mark};
ghost use Rattle.lwp_types.specs.Case.{answer_by};
ghost use Rattle.lwp_types.specs.Choice.{is_eligible_in};
ghost use Rattle.lwp_types.specs.Death.{return_from};
ghost use Rattle.lwp_types.specs.Effects.{most_of_a_call, most_of_a_death};
ghost use Rattle.lwp_types.specs.Exits.{catch_case, exc_notify, raise};
ghost use Rattle.lwp_types.specs.Families.{exception_call};
ghost use Rattle.lwp_types.specs.Exceptions.{bound, call_procedure, check_pattern, frames, handle, handler_in, handler_of, is_no_pattern, on_exit, unhandle, unique_pattern};
ghost use Rattle.lwp_types.specs.State.{marks_in};
ghost use Rattle.lwp_types.specs.Step.{case_of};
ghost use Rattle.lwp_types.specs.declared.call.Effect.TheVariants as effect;
ghost use Rattle.lwp_types.specs.declared.rows.Mark.TheVariants as Mark;
ghost use Rattle.lwp_calls.specs.Asks.{asks_memory};
ghost use Rattle.lwp_calls.specs.Comes.{ComesTo, IsAsBefore, Told};

use death_cleanup::{Kind, Parts, die, leave_frames};
use lwp_types::{
    Answer, Effects, ExceptionCall, ExitCall, Found, Func, LwpErr, NoMemory, Pattern, Tid,
};

// The greatest number of an exception, and as many exit procedures as may ever be set.
const MOST_PATTERN: u32 = 2_147_483_647;

const MOST_REGISTRATIONS: u64 = 4_294_967_295;

/// A call of this family.
#[inline(always)]
pub fn carry_out<'s>(
    parts: &mut Parts<'s>,
    tid: Tid,
    call: &ExceptionCall<'_, 's>,
    effects: &mut Effects<'s>,
) -> Result<(), NoMemory>
    requires lawful { LawfulParts parts.old }
    requires alone { parts.old.dying ≡ None }
    requires may_run { IsTrue (is_eligible_in (state_of parts.old) tid) }
    requires room { effects.old ≡ [] }
    ensures ok { OnOk result
        (Told parts.old parts.new effects.old effects.new tid
        (case_of (state_of parts.old) tid (exception_call call.now))) }
    ensures most { length effects.new ≤ most_of_a_call }
    ensures err { OnErr result (IsAsBefore parts.old parts.new) }
    ensures memory { IsErr result → IsTrue (asks_memory (exception_call call.now)) }
{
    let own = match call {
        ExceptionCall::CallProc(number) => {
            return tell(tid, call_procedure(parts, tid, *number), effects);
        }
        ExceptionCall::Return => return_from(parts, tid, effects),
        ExceptionCall::Handle(pattern, func, arg) => {
            return tell(tid, handle(parts, tid, *pattern, *func, *arg), effects);
        }
        ExceptionCall::Unhandle => Some(unhandle(parts, tid)),
        ExceptionCall::OnExit(exit) => return tell(tid, on_exit(parts, tid, exit), effects),
        ExceptionCall::Raise(pattern) => {
            raise(parts, tid, *pattern, effects);
            return Ok(());
        }
        ExceptionCall::ExcNotify(pattern) => {
            notify(parts, tid, *pattern, effects);
            return Ok(());
        }
        ExceptionCall::Bound(pattern) => {
            bound(parts, tid, *pattern, effects);
            return Ok(());
        }
        ExceptionCall::UniqPatt => Some(unique_pattern(parts)),
    };
    effects.done_now(tid, own);
    Ok(())
}

// Tells the caller of a call that asks for memory its answer, where there was memory.
#[inline(always)]
fn tell(
    tid: Tid,
    done: Result<Result<i64, LwpErr>, NoMemory>,
    effects: &mut Effects,
) -> Result<(), NoMemory>
    requires room { effects.old ≡ [] }
    ensures ok { OnOk result
        (IsOkAnd done (λ own. effects.new ≡ effects.old ++ effect.Answered tid (answer_by own) ∷ [])) }
    ensures most { length effects.new ≤ 1 }
    ensures err { OnErr result (IsErr done) }
{
    effects.done(tid, done?);
    Ok(())
}

// A procedure more on a stack. The answer is false where there is no room for its frame.
fn enter_frame(kind: &mut Kind) -> Result<bool, NoMemory>
    requires { 0 < length (kind_marks (Some kind.old)) }
    ensures room { IfOk result
        (λ entered. entered ≡ not (has_all_frames (kind_marks (Some kind.old)))) }
    ensures ok { OnOk result
        (kind.new ≡ kind_with_marks (with_frame (kind_marks (Some kind.old))) kind.old) }
    ensures err { OnErr result (kind.new ≡ kind.old) }
{
    match kind {
        Kind::Thread(rec) => rec.stack.enter_frame(),
        Kind::Agent => Ok(false),
    }
}

// A handler more on a stack. The answer is false where there is no room for it.
fn set_handler(kind: &mut Kind, pattern: Pattern, func: Func, arg: u32) -> Result<bool, NoMemory>
    requires { 0 < length (kind_marks (Some kind.old)) }
    ensures room { IfOk result (λ set. set ≡ not (is_full (kind_marks (Some kind.old)))) }
    ensures ok { OnOk result
        (kind.new
        ≡ kind_with_marks (with_mark (Mark.Handler pattern func arg) (kind_marks (Some kind.old)))
        kind.old) }
    ensures err { OnErr result (kind.new ≡ kind.old) }
{
    match kind {
        Kind::Thread(rec) => rec.stack.handle(pattern, func, arg),
        Kind::Agent => Ok(false),
    }
}

// An exit procedure more on a stack. The answer is false where there is no room for it.
fn set_exit<'s>(kind: &mut Kind<'s>, reg: u64, exit: &ExitCall<'s>) -> Result<bool, NoMemory>
    requires { 0 < length (kind_marks (Some kind.old)) }
    ensures room { IfOk result (λ set. set ≡ not (is_full (kind_marks (Some kind.old)))) }
    ensures ok { OnOk result
        (kind.new
        ≡ kind_with_marks (with_mark (Mark.Exit reg exit.now) (kind_marks (Some kind.old))) kind.old) }
    ensures err { OnErr result (kind.new ≡ kind.old) }
{
    match kind {
        Kind::Thread(rec) => rec.stack.on_exit(reg, exit.again()),
        Kind::Agent => Ok(false),
    }
}

// Takes the topmost handler of a stack back, if nothing was set above it.
fn take_handler(kind: &mut Kind) -> Result<(), LwpErr>
    requires { 0 < length (kind_marks (Some kind.old)) }
    ensures refusal { result_err result ≡ refusal_on (kind_marks (Some kind.old)) }
    ensures after { kind.new ≡ kind_with_marks (after_unhandle (kind_marks (Some kind.old))) kind.old }
{
    match kind {
        Kind::Thread(rec) => rec.stack.unhandle(),
        Kind::Agent => Err(LwpErr::NonExist),
    }
}

// The handler of a stack that catches an exception of this number.
fn found_on(kind: &Kind, pattern: u32) -> Option<Found>
    requires { 0 < length (kind_marks (Some kind.now)) }
    ensures value { result ≡ handler_in pattern (kind_marks (Some kind.now)) }
    ensures in_reach { IfSome result (IsInReach (kind_marks (Some kind.now))) }
{
    match kind {
        Kind::Thread(rec) => rec.stack.find(pattern),
        Kind::Agent => None,
    }
}

// Whether it is no number of an exception.
fn is_no_pattern(pattern: u32) -> bool
    ensures { result ≡ (is_no_pattern pattern).0 }
{
    pattern == 0 || pattern > MOST_PATTERN
}

// A frame more.
#[inline(always)]
fn call_procedure(parts: &mut Parts, tid: Tid, number: u32) -> Result<Result<i64, LwpErr>, NoMemory>
    requires lawful { LawfulParts parts.old }
    requires alone { parts.old.dying ≡ None }
    requires may_run { IsTrue (is_eligible_in (state_of parts.old) tid) }
    ensures ok { IfOk result
        (λ done.
        Answers parts.old parts.new [] [] (call_procedure (state_of parts.old) tid number)
        (answer_by done)) }
    ensures err { OnErr result (IsAsBefore parts.old parts.new) }
{
    if number >= parts.procs {
        return Ok(Err(LwpErr::InvalidArg));
    }
    let Some(kind) = parts.ids.get_mut(tid.number) else {
        return Ok(Err(LwpErr::NonExist));
    };
    let entered = enter_frame(kind)?;
    if !entered {
        return Ok(Err(LwpErr::NoRoom));
    }
    Ok(Ok(0))
}

// Whether a handler can't be set for this pattern.
fn is_bad(pattern: Pattern) -> bool
    ensures { result ≡ (check_pattern pattern).0 }
{
    match pattern {
        Pattern::All => false,
        Pattern::Num(number) => is_no_pattern(number),
    }
}

// A handler more, in the present frame.
#[inline(always)]
fn handle(
    parts: &mut Parts,
    tid: Tid,
    pattern: Pattern,
    func: Func,
    arg: u32,
) -> Result<Result<i64, LwpErr>, NoMemory>
    requires lawful { LawfulParts parts.old }
    requires alone { parts.old.dying ≡ None }
    requires may_run { IsTrue (is_eligible_in (state_of parts.old) tid) }
    ensures ok { IfOk result
        (λ done.
        Answers parts.old parts.new [] [] (handle (state_of parts.old) tid pattern func arg)
        (answer_by done)) }
    ensures err { OnErr result (IsAsBefore parts.old parts.new) }
{
    if is_bad(pattern) {
        return Ok(Err(LwpErr::InvalidArg));
    }
    let Some(kind) = parts.ids.get_mut(tid.number) else {
        return Ok(Err(LwpErr::NonExist));
    };
    let set = set_handler(kind, pattern, func, arg)?;
    if !set {
        return Ok(Err(LwpErr::NoRoom));
    }
    Ok(Ok(0))
}

// The topmost mark goes, if it is a handler.
#[inline(always)]
fn unhandle(parts: &mut Parts, tid: Tid) -> Result<i64, LwpErr>
    requires lawful { LawfulParts parts.old }
    requires alone { parts.old.dying ≡ None }
    requires may_run { IsTrue (is_eligible_in (state_of parts.old) tid) }
    ensures { Answers parts.old parts.new [] [] (unhandle (state_of parts.old) tid)
        (answer_by result) }
{
    let Some(kind) = parts.ids.get_mut(tid.number) else {
        return Err(LwpErr::NonExist);
    };
    match take_handler(kind) {
        Ok(()) => Ok(0),
        Err(err) => Err(err),
    }
}

// An exit procedure more, in the present frame; the answer is its number.
#[inline(always)]
fn on_exit<'s>(
    parts: &mut Parts<'s>,
    tid: Tid,
    exit: &ExitCall<'s>,
) -> Result<Result<i64, LwpErr>, NoMemory>
    requires lawful { LawfulParts parts.old }
    requires alone { parts.old.dying ≡ None }
    requires may_run { IsTrue (is_eligible_in (state_of parts.old) tid) }
    ensures ok { IfOk result
        (λ done.
        Answers parts.old parts.new [] [] (on_exit (state_of parts.old) tid exit.now)
        (answer_by done)) }
    ensures err { OnErr result (IsAsBefore parts.old parts.new) }
{
    let reg = parts.registration;
    if reg >= MOST_REGISTRATIONS {
        return Ok(Err(LwpErr::NoRoom));
    }
    let Some(kind) = parts.ids.get_mut(tid.number) else {
        return Ok(Err(LwpErr::NonExist));
    };
    let set = set_exit(kind, reg, exit)?;
    if !set {
        return Ok(Err(LwpErr::NoRoom));
    }
    parts.registration = reg + 1;
    Ok(Ok(reg as i64))
}

// The handler by which the thread catches an exception of this number.
#[inline(always)]
fn found(parts: &Parts, tid: Tid, pattern: u32) -> Option<Found>
    requires lawful { LawfulParts parts.now }
    requires alone { parts.now.dying ≡ None }
    requires may_run { IsTrue (is_eligible_in (state_of parts.now) tid) }
    ensures value { result ≡ handler_of (state_of parts.now) tid pattern }
    ensures in_reach { IfSome result (IsInReach (marks_in (state_of parts.now) tid)) }
{
    let Some(kind) = parts.ids.get(tid.number) else {
        return None;
    };
    found_on(kind, pattern)
}

// What the handler was set with.
fn bound<'s>(parts: &Parts<'s>, tid: Tid, pattern: u32, effects: &mut Effects<'s>)
    requires lawful { LawfulParts parts.now }
    requires alone { parts.now.dying ≡ None }
    requires may_run { IsTrue (is_eligible_in (state_of parts.now) tid) }
    requires room { effects.old ≡ [] }
    ensures told { Told parts.now parts.now effects.old effects.new tid
        (bound (state_of parts.now) tid pattern) }
    ensures most { length effects.new ≤ 1 }
{
    if is_no_pattern(pattern) {
        return effects.done(tid, Err(LwpErr::InvalidArg));
    }
    let Some(handler) = found(parts, tid, pattern) else {
        return effects.done(tid, Err(LwpErr::NonExist));
    };
    effects.answered(
        tid,
        Answer::Bound {
            func: handler.func,
            arg: handler.arg,
        },
    );
}

// A number of an exception that was never given before.
fn unique_pattern(parts: &mut Parts) -> Result<i64, LwpErr>
    requires step { InStep parts.old }
    ensures { Answers parts.old parts.new [] [] (unique_pattern (state_of parts.old))
        (answer_by result) }
{
    let pattern = parts.pattern;
    if pattern > MOST_PATTERN {
        return Err(LwpErr::NoRoom);
    }
    parts.pattern = pattern + 1;
    Ok(i64::from(pattern))
}

// How many procedures are on a stack.
fn frames_on(kind: &Kind) -> u32
    ensures { result ≡ frames (kind_marks (Some kind.now)) }
{
    match kind {
        Kind::Thread(rec) => rec.stack.frames(),
        Kind::Agent => 0,
    }
}

// How many procedures the thread is in.
#[inline(always)]
fn frames(parts: &Parts, tid: Tid) -> u32
    requires lawful { LawfulParts parts.now }
    requires alone { parts.now.dying ≡ None }
    requires may_run { IsTrue (is_eligible_in (state_of parts.now) tid) }
    ensures { result ≡ frames (marks_in (state_of parts.now) tid) }
{
    let Some(kind) = parts.ids.get(tid.number) else {
        return 0;
    };
    frames_on(kind)
}

// The topmost frame goes, or the caller dies.
#[inline(always)]
fn return_from<'s>(
    parts: &mut Parts<'s>,
    tid: Tid,
    effects: &mut Effects<'s>,
) -> Option<Result<i64, LwpErr>>
    requires lawful { LawfulParts parts.old }
    requires alone { parts.old.dying ≡ None }
    requires may_run { IsTrue (is_eligible_in (state_of parts.old) tid) }
    requires room { effects.old ≡ [] }
    ensures comes { ComesTo parts.old parts.new effects.old effects.new
        (return_from (state_of parts.old) tid) (option_map answer_by result) }
    ensures most { length effects.new ≤ most_of_a_death }
{
    let count = frames(parts, tid);
    if count < 2 {
        die(parts, tid, effects);
        return None;
    }
    leave_frames(parts, tid, count - 1, effects);
    Some(Ok(0))
}

// In the topmost frame of a stack, the handlers from this number on go.
fn settle(kind: &mut Kind, mark: u32)
    requires { mark < handlers_on_top (kind_marks (Some kind.old)) }
    ensures { kind.new ≡ kind_with_marks (after_settle_at mark (kind_marks (Some kind.old))) kind.old }
{
    match kind {
        Kind::Thread(rec) => rec.stack.settle(mark),
        Kind::Agent => {}
    }
}

// The exception is caught: the stack is cut back to the handler's frame, and the handler goes.
fn catch<'s>(
    parts: &mut Parts<'s>,
    tid: Tid,
    pattern: u32,
    handler: Found,
    effects: &mut Effects<'s>,
)
    requires lawful { LawfulParts parts.old }
    requires alone { parts.old.dying ≡ None }
    requires may_run { IsTrue (is_eligible_in (state_of parts.old) tid) }
    requires reach { IsInReach (marks_in (state_of parts.old) tid) handler }
    requires room { effects.old ≡ [] }
    ensures told { Told parts.old parts.new effects.old effects.new tid
        (catch_case (state_of parts.old) tid pattern handler) }
    ensures most { length effects.new ≤ most_of_a_call }
{
    leave_frames(parts, tid, handler.depth, effects);
    let Some(kind) = parts.ids.get_mut(tid.number) else {
        return;
    };
    settle(kind, handler.mark);
    effects.answered(
        tid,
        Answer::Caught {
            depth: handler.depth,
            mark: handler.mark,
            pattern,
        },
    );
}

// The caller goes on where the handler was set.
fn raise<'s>(parts: &mut Parts<'s>, tid: Tid, pattern: u32, effects: &mut Effects<'s>)
    requires lawful { LawfulParts parts.old }
    requires alone { parts.old.dying ≡ None }
    requires may_run { IsTrue (is_eligible_in (state_of parts.old) tid) }
    requires room { effects.old ≡ [] }
    ensures told { Told parts.old parts.new effects.old effects.new tid
        (raise (state_of parts.old) tid pattern) }
    ensures most { length effects.new ≤ most_of_a_call }
{
    if is_no_pattern(pattern) {
        return effects.done(tid, Err(LwpErr::InvalidArg));
    }
    let Some(handler) = found(parts, tid, pattern) else {
        return effects.done(tid, Err(LwpErr::NonExist));
    };
    catch(parts, tid, pattern, handler, effects);
}

// The exception is raised, but the handler may answer in place of catching.
fn notify<'s>(parts: &mut Parts<'s>, tid: Tid, pattern: u32, effects: &mut Effects<'s>)
    requires lawful { LawfulParts parts.old }
    requires alone { parts.old.dying ≡ None }
    requires may_run { IsTrue (is_eligible_in (state_of parts.old) tid) }
    requires room { effects.old ≡ [] }
    ensures told { Told parts.old parts.new effects.old effects.new tid
        (exc_notify (state_of parts.old) tid pattern) }
    ensures most { length effects.new ≤ most_of_a_call }
{
    if is_no_pattern(pattern) {
        return effects.done(tid, Err(LwpErr::InvalidArg));
    }
    let Some(handler) = found(parts, tid, pattern) else {
        return effects.done(tid, Err(LwpErr::NonExist));
    };
    let arg = i64::from(handler.arg);
    match handler.func {
        Func::Give => effects.done(tid, Ok(arg)),
        Func::Sum => effects.done(tid, Ok(arg + i64::from(pattern))),
        Func::Nothing => catch(parts, tid, pattern, handler, effects),
    }
}
