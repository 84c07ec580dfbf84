// The call of a step, by the step's effects.
ghost use Rattle.std.specs.List.{fold};
ghost use Rattle.std.specs.Prelude.{◌≡◌};
ghost use Rattle.pod_runner.specs.Calls.{call_after_effect, call_begun, is_zero, call_with_answer, call_by_effect, call_of_effects, unanswered_call, with_call_by};

use crate::Made;
use crate::rows::thread_in;
use lwp_types::{Answer, Call, Effect, Effects, Tid};

// A call that isn't answered yet.
fn unanswered_call<'s>(tid: Tid, call: &Call<'s>) -> Made<'s>
    ensures { result ≡ unanswered_call tid call.now }
{
    Made {
        tid,
        call: call.again(),
        zero: false,
        thread: None,
    }
}

fn is_zero(answer: &Answer) -> bool
    ensures { result ≡ is_zero answer.now }
{
    match answer {
        Answer::Value(value) => *value == 0,
        _ => false,
    }
}

// The thread that made the call is answered so.
fn set_answered(made: &mut Made, answer: &Answer)
    ensures { made.new ≡ call_with_answer made.old answer.now }
{
    made.zero = is_zero(answer);
    made.thread = thread_in(answer);
}

// What an effect tells where no call was told yet.
fn call_begun<'s>(effect: &Effect<'s>) -> Option<Made<'s>>
    ensures { result ≡ call_begun effect.now }
{
    match effect {
        Effect::Called { tid, call } => Some(unanswered_call(*tid, call)),
        _ => None,
    }
}

// What an effect tells of a call before it.
fn set_answered_by(made: &mut Made, effect: &Effect)
    ensures { made.new ≡ call_after_effect made.old effect.now }
{
    if let Effect::Answered { tid, answer } = effect {
        if *tid == made.tid {
            set_answered(made, answer);
        }
    }
}

// What is known of the call, one effect more.
fn note<'s>(made: &mut Option<Made<'s>>, effect: &Effect<'s>)
    ensures { made.new ≡ call_by_effect made.old effect.now }
{
    match made {
        None => *made = call_begun(effect),
        Some(known) => set_answered_by(known, effect),
    }
}

// What is known of the call, all these effects more.
fn made_after<'s>(known: Option<Made<'s>>, effects: &Effects<'s>) -> Option<Made<'s>>
    ensures { result ≡ fold call_by_effect known.entry effects.now }
{
    let mut made = known;
    for i in 0..effects.len() {
        note(&mut made, effects.get(i));
    }
    made
}

/// The call of a step with these effects, and before them this call, if this thread made it and that was left out.
pub(crate) fn made_among<'s>(
    caller: Option<Tid>,
    call: &Call<'s>,
    effects: &Effects<'s>,
) -> Option<Made<'s>>
    ensures { result ≡ call_of_effects (with_call_by caller call.now effects.now) }
{
    match caller {
        Some(tid) => made_after(Some(unanswered_call(tid, call)), effects),
        None => made_after(None, effects),
    }
}
