// Calls by which threads come and go.
ghost use Rattle.std.specs.Prelude.{◌≡◌, ◌<◌, ◌≤◌, ◌+◌, ◌∷◌, Some, None, IfNone, IsErr, IsTrue, OnErr, OnOk, length, nat_le, option_map, []};
ghost use Rattle.death_cleanup.specs.Comes.{Answers, CameTo};
ghost use Rattle.death_cleanup.specs.Ties.{InStep, LawfulParts};
ghost use Rattle.death_cleanup.specs.View.{state_of};
ghost use Rattle.lwp_types.specs.Case.{answer_by, is_at_limit, is_full, is_no_priority, list_case};
ghost use Rattle.lwp_types.specs.Choice.{is_eligible_in};
ghost use Rattle.lwp_types.specs.Death.{destroy};
ghost use Rattle.lwp_types.specs.Effects.{most_of_a_call, most_of_a_death};
ghost use Rattle.lwp_types.specs.Families.{thread_call};
ghost use Rattle.lwp_types.specs.State.{numbers, still};
ghost use Rattle.lwp_types.specs.Step.{case_of};
ghost use Rattle.lwp_types.specs.Threads.{after_create, create, join, ping, sleep};
ghost use Rattle.lwp_types.specs.declared.call.IdKind.TheVariants as kind;
ghost use Rattle.exc_stack.specs.Stack.{one_frame};
ghost use Rattle.lwp_calls.specs.Asks.{HasPlaces, asks_memory, first_refusal};
ghost use Rattle.lwp_calls.specs.Comes.{ComesTo, IsAsBefore, Told};

use crate::asks::{block, block_for, next_count, tell_ids, thread_count, threads};
use death_cleanup::{Kind, Parts, ThreadRec, die, end_agent, is_agent, is_id, is_thread};
use exc_stack::ExcStack;
use lwp_types::{Answer, Block, Effects, Flags, IdKind, LwpErr, NoMemory, ThreadCall, Tid};
use std::alloc::Global;

// The most threads that live at once.
const MOST_THREADS: usize = 1024;

/// A call of this family.
#[inline(always)]
pub fn carry_out<'s>(
    parts: &mut Parts<'s>,
    alloc: Global,
    tid: Tid,
    call: ThreadCall,
    effects: &mut Effects<'s>,
) -> Result<(), NoMemory>
    requires lawful { LawfulParts parts.old }
    requires alone { parts.old.dying ≡ None }
    requires may_run { IsTrue (is_eligible_in (state_of parts.old) tid) }
    requires room { effects.old ≡ [] }
    ensures ok { OnOk result
        (Told parts.old parts.new effects.old effects.new tid
        (case_of (state_of parts.old) tid (thread_call call))) }
    ensures most { length effects.new ≤ most_of_a_call }
    ensures err { OnErr result (IsAsBefore parts.old parts.new) }
    ensures memory { IsErr result → IsTrue (asks_memory (thread_call call)) }
{
    let own = match call {
        ThreadCall::Create(number, prio, flags) => {
            return create(parts, alloc, tid, number, prio, flags, effects);
        }
        ThreadCall::Destroy(other) => destroy(parts, tid, other, effects),
        ThreadCall::Ping(other) => Some(ping(parts, other)),
        ThreadCall::Join(other) => join(parts, tid, other),
        ThreadCall::Sleep(ticks) => sleep(parts, tid, ticks),
        ThreadCall::Threads => return list(parts, alloc, tid, effects),
    };
    effects.done_now(tid, own);
    Ok(())
}

// A thread more, which begins in a procedure.
fn create<'s>(
    parts: &mut Parts<'s>,
    alloc: Global,
    caller: Tid,
    number: u32,
    prio: u32,
    flags: Flags,
    effects: &mut Effects<'s>,
) -> Result<(), NoMemory>
    requires lawful { LawfulParts parts.old }
    requires alone { parts.old.dying ≡ None }
    requires room { effects.old ≡ [] }
    ensures ok { OnOk result
        (Told parts.old parts.new effects.old effects.new caller
        (create (state_of parts.old) number prio flags)) }
    ensures most { length effects.new ≤ 1 }
    ensures err { OnErr result (IsAsBefore parts.old parts.new) }
{
    if let Some(err) = create_refusal(parts, number, prio) {
        effects.done(caller, Err(err));
        return Ok(());
    }
    make_places(parts)?;
    let stack = ExcStack::new(alloc)?;
    let tid = begin(parts, prio, flags, stack);
    effects.answered(caller, Answer::Thread(tid));
    Ok(())
}

// Why no thread can be made, if so.
fn create_refusal(parts: &Parts, number: u32, prio: u32) -> Option<LwpErr>
    requires lawful { LawfulParts parts.now }
    requires alone { parts.now.dying ≡ None }
    ensures value { result
        ≡ first_refusal
        ((nat_le parts.now.procs number, LwpErr.InvalidArg)
        ∷ is_no_priority (state_of parts.now) prio
        ∷ is_full 1024 (state_of parts.now).threads
        ∷ is_at_limit (state_of parts.now).births (state_of parts.now) ∷ []) }
    ensures least { IfNone result (1 ≤ prio) }
    ensures most { IfNone result (prio ≤ parts.now.sched.maxpri) }
    ensures births { IfNone result (parts.now.ids.births < parts.now.ids.limit) }
{
    if number >= parts.procs {
        return Some(LwpErr::InvalidArg);
    }
    if prio == 0 || prio > parts.sched.maxpri() {
        return Some(LwpErr::IllPrio);
    }
    if thread_count(parts) >= MOST_THREADS || parts.ids.births() >= parts.ids.limit() {
        return Some(LwpErr::NoRoom);
    }
    None
}

// Places for one thread more, wherever a thread may have to wait.
fn make_places(parts: &mut Parts) -> Result<(), NoMemory>
    requires lawful { LawfulParts parts.old }
    requires alone { parts.old.dying ≡ None }
    requires births { parts.old.ids.births < parts.old.ids.limit }
    ensures ok { OnOk result (HasPlaces parts.new) }
    ensures as_before { IsAsBefore parts.old parts.new }
    ensures births { parts.new.ids.births ≡ parts.old.ids.births }
    ensures limit { parts.new.ids.limit ≡ parts.old.ids.limit }
{
    let count = thread_count(parts) + 1;
    let agents = parts.agents.len();
    let living = next_count(&parts.ids);
    let Ok(()) = parts.ids.reserve(living) else {
        return Err(NoMemory);
    };
    parts.sched.reserve(count)?;
    parts.mail.reserve(count + agents)?;
    parts.mons.reserve(count)?;
    parts.named.reserve(count)?;
    parts.conds.reserve(count)
}

// A thread begins, with one frame. There are places for it.
fn begin<'s>(parts: &mut Parts<'s>, prio: u32, flags: Flags, stack: ExcStack<'s>) -> Tid
    requires lawful { LawfulParts parts.old }
    requires alone { parts.old.dying ≡ None }
    requires places { HasPlaces parts.old }
    requires births { parts.old.ids.births < parts.old.ids.limit }
    requires least { 1 ≤ prio }
    requires most { prio ≤ parts.old.sched.maxpri }
    requires frame { stack ≡ one_frame }
    ensures number { result ≡ parts.old.ids.births }
    ensures came { CameTo parts.old parts.new [] []
        (still (after_create (state_of parts.old) prio flags)) }
{
    let number = parts.ids.births();
    let tid = Tid { number };
    parts.sched.admit(tid, prio, flags.suspended);
    let _ = parts.ids.insert(Kind::Thread(ThreadRec {
        flags,
        block: Block::Not,
        stack,
    }));
    tid
}

// An agent ends, or a thread dies.
fn destroy<'s>(
    parts: &mut Parts<'s>,
    caller: Tid,
    tid: Tid,
    effects: &mut Effects<'s>,
) -> Option<Result<i64, LwpErr>>
    requires lawful { LawfulParts parts.old }
    requires alone { parts.old.dying ≡ None }
    requires room { effects.old ≡ [] }
    ensures comes { ComesTo parts.old parts.new effects.old effects.new
        (destroy (state_of parts.old) caller tid) (option_map answer_by result) }
    ensures most { length effects.new ≤ most_of_a_death }
{
    if is_agent(&parts.agents, tid) {
        end_agent(parts, tid, effects);
        return Some(Ok(0));
    }
    if !is_thread(parts, tid) {
        return Some(Err(LwpErr::NonExist));
    }
    die(parts, tid, effects);
    if caller == tid { None } else { Some(Ok(0)) }
}

// Whether there is such a thread or agent.
fn ping(parts: &Parts, tid: Tid) -> Result<i64, LwpErr>
    requires { InStep parts.now }
    ensures { Answers parts.now parts.now [] [] (ping (state_of parts.now) tid) (answer_by result) }
{
    if is_id(parts, tid) {
        Ok(0)
    } else {
        Err(LwpErr::NonExist)
    }
}

// The caller waits for the death of another.
fn join(parts: &mut Parts, caller: Tid, tid: Tid) -> Option<Result<i64, LwpErr>>
    requires step { InStep parts.old }
    requires alone { parts.old.dying ≡ None }
    requires may_run { IsTrue (is_eligible_in (state_of parts.old) caller) }
    ensures { ComesTo parts.old parts.new [] [] (join (state_of parts.old) caller tid)
        (option_map answer_by result) }
{
    if !is_thread(parts, tid) {
        return Some(Err(LwpErr::NonExist));
    }
    if caller == tid {
        return Some(Err(LwpErr::InvalidArg));
    }
    block(parts, caller, Block::Joining(tid));
    None
}

// The caller waits for so many ticks.
fn sleep(parts: &mut Parts, caller: Tid, ticks: u32) -> Option<Result<i64, LwpErr>>
    requires lawful { LawfulParts parts.old }
    requires alone { parts.old.dying ≡ None }
    requires may_run { IsTrue (is_eligible_in (state_of parts.old) caller) }
    ensures { ComesTo parts.old parts.new [] [] (sleep (state_of parts.old) caller ticks)
        (option_map answer_by result) }
{
    if ticks == 0 {
        return Some(Ok(0));
    }
    block_for(parts, caller, Block::Sleeping, ticks);
    None
}

// The live threads.
fn list<'s>(
    parts: &Parts<'s>,
    alloc: Global,
    tid: Tid,
    effects: &mut Effects<'s>,
) -> Result<(), NoMemory>
    requires step { InStep parts.now }
    requires room { effects.old ≡ [] }
    ensures ok { OnOk result
        (Told parts.now parts.now effects.old effects.new tid
        (list_case (state_of parts.now) kind.Thread (numbers (state_of parts.now).threads))) }
    ensures most { length effects.new ≤ 1 }
{
    let list = threads(parts, alloc)?;
    tell_ids(tid, IdKind::Thread, list, effects);
    Ok(())
}
