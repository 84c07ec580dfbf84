// Calls on the pod itself: its own numbers, its end, a line of the trace.
ghost use Rattle.std.specs.Prelude.{◌≡◌, ◌≤◌, ◌++◌, ◌∷◌, length, option_map, [], None};
ghost use Rattle.death_cleanup.specs.Comes.{Answers};
ghost use Rattle.death_cleanup.specs.Ties.{InStep};
ghost use Rattle.death_cleanup.specs.View.{state_of};
ghost use Rattle.lwp_types.specs.Case.{answer_by};
ghost use Rattle.lwp_types.specs.Effects.{most_of_a_call};
ghost use Rattle.lwp_types.specs.Families.{pod_call};
ghost use Rattle.lwp_types.specs.Step.{case_of};
ghost use Rattle.lwp_types.specs.Threads.{pod_exit, set_maxpri};
ghost use Rattle.lwp_types.specs.declared.call.Effect.TheVariants as effect;
ghost use Rattle.lwp_calls.specs.Comes.{ComesTo, Told};

use death_cleanup::{Parts, set_exit};
use lwp_types::{Answer, Effects, LwpErr, PodCall, Tid};

// The greatest status, and the greatest priority that a pod may be given.
const MOST_STATUS: u32 = 99;

const MOST_PRIORITY: u32 = 255;

/// A call of this family.
#[inline(always)]
pub fn carry_out<'s>(
    parts: &mut Parts<'s>,
    tid: Tid,
    call: &PodCall<'_, 's>,
    effects: &mut Effects<'s>,
)
    requires step { InStep parts.old }
    requires alone { parts.old.dying ≡ None }
    requires room { effects.old ≡ [] }
    ensures told { Told parts.old parts.new effects.old effects.new tid
        (case_of (state_of parts.old) tid (pod_call call.now)) }
    ensures most { length effects.new ≤ most_of_a_call }
{
    let own = match call {
        PodCall::Me => return tell_itself(tid, effects),
        PodCall::SetMaxPri(prio) => Some(set_maxpri(parts, *prio)),
        PodCall::SetExit(code) => Some(set_exit(parts, *code)),
        PodCall::GetExit => Some(Ok(i64::from(parts.exit))),
        PodCall::PodExit(code) => pod_exit(parts, *code),
        PodCall::Say(_) => Some(Ok(0)),
    };
    effects.done_now(tid, own);
}

// The caller learns which thread it is.
fn tell_itself(tid: Tid, effects: &mut Effects)
    requires { effects.old ≡ [] }
    ensures { effects.new ≡ effects.old ++ effect.Answered tid (Answer.Thread tid) ∷ [] }
{
    effects.answered(tid, Answer::Thread(tid));
}

// The greatest priority grows.
fn set_maxpri(parts: &mut Parts, prio: u32) -> Result<i64, LwpErr>
    requires step { InStep parts.old }
    requires alone { parts.old.dying ≡ None }
    ensures { Answers parts.old parts.new [] [] (set_maxpri (state_of parts.old) prio)
        (answer_by result) }
{
    if prio < parts.sched.maxpri() || prio > MOST_PRIORITY {
        return Err(LwpErr::IllPrio);
    }
    parts.sched.set_maxpri(prio);
    Ok(0)
}

// The pod ends here.
fn pod_exit(parts: &mut Parts, code: u32) -> Option<Result<i64, LwpErr>>
    requires step { InStep parts.old }
    requires alone { parts.old.dying ≡ None }
    ensures { ComesTo parts.old parts.new [] [] (pod_exit (state_of parts.old) code)
        (option_map answer_by result) }
{
    if code > MOST_STATUS {
        return Some(Err(LwpErr::InvalidArg));
    }
    parts.exit = code;
    parts.ended = true;
    None
}
