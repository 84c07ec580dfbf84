// Effects as C reads them.
ghost use Rattle.std.specs.Prelude.{◌≡◌, length};
ghost use Rattle.c_pods.specs.Effects.{answer_text, effect_ids, effect_record, effect_text, error_number, kind_number, on_thread, put_front, with_answer};

use crate::calls::{CallRecord, NO_CALL};
use crate::records::{call_record, call_text, exit_record, exit_text, func_number};
use lwp_types::{Answer, Effect, IdKind, IdList, LwpErr, Text};

/// One thing that a step did. What isn't named for its kind is 0.
#[repr(C)]
#[derive(Clone, Copy, Drop)]
pub struct EffectRecord {
    pub kind: u32,
    /// What kind of answer, with an answer or an exit procedure.
    pub answer: u32,
    /// The thread that it happened to, or the agent.
    pub tid: u64,
    pub value: i64,
    /// A thread, a monitor, a condition, the sender of a letter, ticks, the dead thread.
    pub id: u64,
    /// The number of an exit procedure.
    pub reg: u64,
    /// An event, a status, an error, a room, the kind of a list or of what a handler gives.
    pub small: u32,
    pub arg: u32,
    pub depth: u32,
    pub mark: u32,
    pub pattern: u32,
    /// How many bytes the text has.
    pub text_len: usize,
    /// How many numbers the list has.
    pub ids_len: usize,
    /// The call that was made, or that set the exit procedure.
    pub call: CallRecord,
}

/// No effect, with nothing in it.
pub const NO_EFFECT: EffectRecord = EffectRecord {
    kind: 4_294_967_295,
    answer: 4_294_967_295,
    tid: 0,
    value: 0,
    id: 0,
    reg: 0,
    small: 0,
    arg: 0,
    depth: 0,
    mark: 0,
    pattern: 0,
    text_len: 0,
    ids_len: 0,
    call: NO_CALL,
};

fn error_number(error: LwpErr) -> u32
    ensures { result ≡ error_number error }
{
    match error {
        LwpErr::NoError => 0,
        LwpErr::NonExist => 1,
        LwpErr::Timeout => 2,
        LwpErr::InUse => 3,
        LwpErr::InvalidArg => 4,
        LwpErr::NoRoom => 5,
        LwpErr::NotOwned => 6,
        LwpErr::IllPrio => 7,
        LwpErr::NoWait => 8,
    }
}

fn kind_number(kind: IdKind) -> u32
    ensures { result ≡ kind_number kind }
{
    match kind {
        IdKind::Thread => 0,
        IdKind::Monitor => 1,
        IdKind::Cond => 2,
    }
}

// Puts an answer that is one number into a record.
#[inline(always)]
fn set_id(effect: &mut EffectRecord, answer: u32, id: u64)
    ensures { effect.new ≡ record effect.old { answer = answer; id = id } }
{
    effect.answer = answer;
    effect.id = id;
}

// Puts an answer into a record.
fn set_answer(answer: &Answer<'static>, effect: &mut EffectRecord)
    ensures { effect.new ≡ with_answer answer.now effect.old }
{
    match answer {
        Answer::Value(value) => {
            effect.answer = 0;
            effect.value = *value;
        }
        Answer::Thread(tid) => set_id(effect, 1, tid.number),
        Answer::Monitor(mon) => set_id(effect, 2, mon.number),
        Answer::Cond(cond) => set_id(effect, 3, cond.number),
        Answer::Letter { from, text, room } => {
            set_id(effect, 4, from.number);
            effect.small = u32::from(*room);
            effect.text_len = text.len();
        }
        Answer::Reply(text) => {
            effect.answer = 5;
            effect.text_len = text.len();
        }
        Answer::Bound { func, arg } => {
            effect.answer = 6;
            effect.small = u32::from(func_number(*func));
            effect.arg = *arg;
        }
        Answer::Caught {
            depth,
            mark,
            pattern,
        } => {
            effect.answer = 7;
            effect.depth = *depth;
            effect.mark = *mark;
            effect.pattern = *pattern;
        }
        Answer::Ids { kind, list } => {
            effect.answer = 8;
            effect.small = kind_number(*kind);
            effect.ids_len = list.len();
        }
        Answer::Refused(error) => {
            effect.answer = 9;
            effect.small = error_number(*error);
        }
    }
}

// Puts an effect of this kind on a thread into a record, with nothing else in it yet.
#[inline(always)]
fn set_thread(effect: &mut EffectRecord, kind: u32, tid: u64)
    ensures { effect.new ≡ on_thread kind tid }
{
    *effect = NO_EFFECT;
    effect.kind = kind;
    effect.tid = tid;
}

// Puts one more number into a record.
#[inline(always)]
fn set_small(effect: &mut EffectRecord, small: u8)
    ensures { effect.new ≡ record effect.old { small = small } }
{
    effect.small = u32::from(small);
}

/// Puts an effect into a record, in the place of what was there.
pub fn set_effect(told: &Effect<'static>, effect: &mut EffectRecord)
    ensures { effect.new ≡ effect_record told.now }
{
    match told {
        Effect::Called { tid, call } => {
            set_thread(effect, 0, tid.number);
            effect.text_len = call_text(call).len();
            effect.call = call_record(call);
        }
        Effect::Answered { tid, answer } => {
            set_thread(effect, 1, tid.number);
            set_answer(answer, effect);
        }
        Effect::Exited {
            tid,
            reg,
            call,
            answer,
        } => {
            set_thread(effect, 2, tid.number);
            set_answer(answer, effect);
            effect.reg = *reg;
            effect.text_len = exit_text(call).len();
            effect.call = exit_record(call);
        }
        Effect::Died { tid } => set_thread(effect, 3, tid.number),
        Effect::Delivered { agent, event } => {
            set_thread(effect, 4, agent.number);
            set_small(effect, *event);
        }
        Effect::Ticked { now } => {
            set_thread(effect, 5, 0);
            effect.id = *now;
        }
        Effect::Ended { status } => {
            set_thread(effect, 6, 0);
            set_small(effect, *status);
        }
        Effect::Trapped { tid, event } => {
            set_thread(effect, 7, tid.number);
            set_small(effect, *event);
        }
        Effect::Rites { agent, dead } => {
            set_thread(effect, 8, agent.number);
            effect.id = dead.number;
        }
    }
}

// The text of an answer; the empty one, where it has none.
fn answer_text(answer: &Answer<'static>) -> Text<'static>
    ensures { result ≡ answer_text answer.now }
{
    match answer {
        Answer::Letter { text, .. } | Answer::Reply(text) => text.again(),
        _ => Text::empty(),
    }
}

/// The text of an effect: of its call, its answer, or its exit procedure's call; the empty one, where it has none.
pub fn effect_text(effect: &Effect<'static>) -> Text<'static>
    ensures { result ≡ effect_text effect.now }
{
    match effect {
        Effect::Called { call, .. } => call_text(call),
        Effect::Answered { answer, .. } => answer_text(answer),
        Effect::Exited { call, .. } => exit_text(call),
        _ => Text::empty(),
    }
}

/// Puts bytes at the front of a buffer, as many as it has room for.
#[tactic(auto, using(crate::proofs::Fronts::by_count))]
pub fn put_bytes(bytes: &[u8], out: &mut [u8])
    ensures { out.new ≡ put_front bytes.now out.old }
{
    let count = bytes.len().min(out.len());
    out[..count].copy_from_slice(&bytes[..count]);
}

/// Puts the bytes of a text at the front of a buffer, as many as it has room for.
#[tactic(auto, using(crate::proofs::Fronts::two_parts, crate::proofs::Fronts::no_front))]
pub fn put_text(text: &Text<'static>, out: &mut [u8])
    ensures { out.new ≡ put_front text.now out.old }
{
    if text.len() == 0 {
        return;
    }
    let (lead, rest) = text.parts();
    let at = lead.len().min(out.len());
    put_bytes(lead, out);
    let (_, tail) = out.split_at_mut(at);
    put_bytes(rest, tail);
}

// Puts the numbers of a list at the front of a buffer, as many as it has room for.
#[tactic(auto, using(crate::proofs::Fronts::by_count))]
fn put_list(list: &IdList, out: &mut [u64])
    ensures { out.new ≡ put_front list.now out.old }
{
    let count = list.len().min(out.len());
    for i in 0..count {
        out[i] = list.get(i);
    }
}

/// Puts the numbers that an effect lists at the front of a buffer, as many as it has room for. Answers how many there are.
pub fn put_ids(effect: &Effect<'static>, out: &mut [u64]) -> usize
    ensures count { result ≡ length (effect_ids effect.now) }
    ensures front { out.new ≡ put_front (effect_ids effect.now) out.old }
{
    match effect {
        Effect::Answered {
            answer: Answer::Ids { list, .. },
            ..
        }
        | Effect::Exited {
            answer: Answer::Ids { list, .. },
            ..
        } => {
            put_list(list, out);
            list.len()
        }
        _ => 0,
    }
}
