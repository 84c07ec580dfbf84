// Unwinding: frames go, and the exit procedures that they have set are run.
ghost use Rattle.std.specs.Prelude.{◌≡◌, ◌≤◌, Some, map};
ghost use Rattle.exc_stack.specs.Stack.{UnwindsAll, UnwindsTo, unwound_all, unwound_to};
ghost use Rattle.lwp_types.specs.Death.{run_all_exits};
ghost use Rattle.lwp_types.specs.Exits.{unwind};
ghost use Rattle.lwp_types.specs.Exceptions.{first_frames, frames, later_frames};
ghost use Rattle.lwp_types.specs.State.{marks_in};
ghost use Rattle.death_cleanup.specs.Comes.{CameTo, HasRoom};
ghost use Rattle.death_cleanup.specs.Moves.{after_set_stack, stack_of, pair_with_stack};
ghost use Rattle.death_cleanup.specs.Ties.{LawfulParts};
ghost use Rattle.death_cleanup.specs.View.{state_of};
ghost use Rattle.stale_ids.specs.Register.{AreRising};

use crate::exits::exit_call;
use crate::parts::Parts;
use crate::rows::Kind;
use lwp_types::{Effects, ExitMark, Tid};
use stale_ids::Registry;

// The next exit procedure that a dying thread has to run, the last set first; its mark and those above it are gone.
fn next_exit<'s>(ids: &mut Registry<Kind<'s>>, tid: Tid) -> Option<ExitMark<'s>>
    ensures left { ids.new
        ≡ record ids.old
        { live = map (pair_with_stack tid (unwound_all (stack_of tid ids.old.live)).left) ids.old.live } }
    ensures next { UnwindsAll (stack_of tid ids.old.live)
        (unwound_all (stack_of tid ids.old.live)).left result }
    ensures rising { AreRising ids.old.live }
{
    let Some(kind) = ids.get_mut(tid.number) else {
        return None;
    };
    kind.unwind_all()
}

// The next exit procedure above the first frames, of a thread that keeps so many; its mark and those above it are gone.
fn next_exit_above<'s>(parts: &mut Parts<'s>, tid: Tid, depth: u32) -> Option<ExitMark<'s>>
    requires least { 1 ≤ depth }
    requires most { depth ≤ frames (marks_in (state_of parts.old) tid) }
    ensures left { parts.new
        ≡ after_set_stack parts.old tid (unwound_to depth (marks_in (state_of parts.old) tid)).left }
    ensures next { UnwindsTo depth (marks_in (state_of parts.old) tid)
        (unwound_to depth (marks_in (state_of parts.old) tid)).left result }
{
    let Some(kind) = parts.ids.get_mut(tid.number) else {
        return None;
    };
    kind.unwind_to(depth)
}

/// All marks of the dying thread go, and its exit procedures run, the last set first.
pub fn run_all_exits<'s>(parts: &mut Parts<'s>, tid: Tid, effects: &mut Effects<'s>)
    requires lawful { LawfulParts parts.old }
    requires dying { parts.old.dying ≡ Some tid }
    requires room { HasRoom effects.old (run_all_exits tid (state_of parts.old)) 1 }
    ensures came { CameTo parts.old parts.new effects.old effects.new
        (run_all_exits tid (state_of parts.old)) }
{
    while let Some(mark) = next_exit(&mut parts.ids, tid) {
        exit_call(parts, tid, &mark, effects);
    }
}

/// Of the thread's frames only the first `depth` stay. The exit procedures of the others run, the last set first.
pub fn leave_frames<'s>(parts: &mut Parts<'s>, tid: Tid, depth: u32, effects: &mut Effects<'s>)
    requires lawful { LawfulParts parts.old }
    requires least { 1 ≤ depth }
    requires most { depth ≤ frames (marks_in (state_of parts.old) tid) }
    requires room { HasRoom effects.old
        (unwind tid (first_frames depth (marks_in (state_of parts.old) tid))
        (later_frames depth (marks_in (state_of parts.old) tid)) (state_of parts.old))
        1 }
    ensures came { CameTo parts.old parts.new effects.old effects.new
        (unwind tid (first_frames depth (marks_in (state_of parts.old) tid))
        (later_frames depth (marks_in (state_of parts.old) tid)) (state_of parts.old)) }
{
    while let Some(mark) = next_exit_above(parts, tid, depth) {
        exit_call(parts, tid, &mark, effects);
    }
}
