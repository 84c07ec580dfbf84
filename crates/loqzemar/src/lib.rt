//! Pods for C programs.
//!
//! A C program keeps a `PodHandle`. `loq_pod_new` puts a pod into it, and `loq_pod_free` takes it away. The library never calls back:
//! `loq_current` says whose turn it is, `loq_call` makes that thread's next call, `loq_effect` tells one by one what the call did, and
//! `loq_deliver` takes a line of an event. `loq_lines` writes the trace of the last step, `loq_follow` compares it with a recorded
//! one, and `loq_state` writes how the pod stands. Each contract says which number is answered for which cause, and what is written
//! where; nothing is required of the caller but what its header says of pointers. Bytes that a call or a delivery carries are lent until
//! the pod is freed.
//!
//! `loq_plan`, `loq_answers`, `loq_replay` and `loq_check` need no pod: they take the bytes of a whole script. `loq_explore_ends`,
//! `loq_explore_trace` and `loq_explore_line` take them too, and go through all sessions of the script.
//!
//! The crate stands on `c_pods` and `c_sessions`.
#![tactic(auto)]

ghost use Rattle.c_pods.specs.Calls.{call_of};
ghost use Rattle.c_pods.specs.Effects.{put_front};
ghost use Rattle.c_pods.specs.Held.{Tells, last_called};
ghost use Rattle.c_pods.specs.Origins.{first_entries};
ghost use Rattle.c_pods.specs.declared.held_pod.Last.TheVariants as last;
ghost use Rattle.loqzemar.specs.Asked.{HasCalled, armed_or, asked, call_refusal, count_or, counts_in, current_or, current_status, delivery_status, effect_at, effect_status, effect_status_if, end_numbers_or, ids_or_none, is_out_of_range, line_status, pod_in, record_or_none, text_or_none, with_name};
ghost use Rattle.lwp_types.specs.State.{opening};
ghost use Rattle.lwp_types.specs.TextFields.{is_text};
ghost use Rattle.pod_events.specs.Events.{quiet_events, take_event};
ghost use Rattle.pod_events.specs.Machine.{asks_memory};
ghost use Rattle.pod_events.specs.Step.{event_step};
ghost use Rattle.std.specs.Prelude.{◌≡◌, ◌≢◌, ◌≤◌, ◌<◌, ◌^◌, [], false, IfSome, IsTrue, None, Some, is_some, length, nat_lt, option_copied, option_map, true};

mod explored;
mod sessions;
mod standing;
mod status;
mod traces;

use c_pods::{
    CallRecord, EffectRecord, HeldPod, NO_EFFECT, PodHandle, call_of, effect_text, put_ids,
    put_text, set_effect,
};
use lwp_types::{Call, Effect, Line, PodEnd, PodParams, Text, is_text};
use status::{
    BAD_CALL, BAD_NUMBER, BAD_TEXT, DONE, NO_MEMORY, NO_POD, NO_SUCH_EFFECT, NOBODY, NOT_ARMED,
    TOO_SMALL,
};
use std::alloc::Global;

// Whether a number isn't one that a pod can be made with.
fn is_out_of_range(maxpri: u32, births: u64, procs: u32) -> bool
    ensures value { result ≡ is_out_of_range maxpri births procs }
    ensures least { result ≡ false → 1 ≤ maxpri }
    ensures most { result ≡ false → maxpri ≤ 255 }
    ensures births { result ≡ false → 1 ≤ births }
    ensures few_births { result ≡ false → births < 2 ^ 32 }
    ensures procs { result ≡ false → 1 ≤ procs }
{
    maxpri == 0 || 255 < maxpri || births == 0 || 4_294_967_295 < births || procs == 0
}

/// Puts a new pod into the handle, and frees one that was there: the greatest priority from 1 to 255, births of each kind from 1 to
/// 4,294,967,295, procedures from 1.
#[unsafe(no_mangle)]
pub extern "C" fn loq_pod_new(
    alloc: Global,
    handle: &mut PodHandle,
    maxpri: u32,
    births: u64,
    procs: u32,
) -> u32
    ensures range { is_out_of_range maxpri births procs ≡ true → result ≡ 8 }
    ensures status { is_out_of_range maxpri births procs ≡ false → nat_lt result 2 ≡ true }
    ensures pod { result ≡ 0 → pod_in handle.new.pod
        ≡ Some (quiet_events (opening (record { maxpri = maxpri; births = births; procs = procs }))) }
    ensures quiet { result ≡ 0 → IfSome handle.new.pod
        (λ held. (held.last ≡ last.Nothing) × (held.effects ≡ []) × (held.names ≡ [])) }
    ensures began { result ≡ 0 → IfSome handle.new.pod
        (λ held. (held.origins.entries ≡ first_entries) × (held.calls ≡ 0)) }
    ensures same { result ≢ 0 → handle.new.pod ≡ handle.old.pod }
{
    if is_out_of_range(maxpri, births, procs) {
        return BAD_NUMBER;
    }
    let params = PodParams {
        maxpri,
        births,
        procs,
    };
    let Ok(held) = HeldPod::new(alloc, params) else {
        return NO_MEMORY;
    };
    match Box::new(alloc, held) {
        Ok(held) => {
            handle.fill(held);
            DONE
        }
        Err(_) => NO_MEMORY,
    }
}

/// Frees the pod, if there is one.
#[unsafe(no_mangle)]
pub extern "C" fn loq_pod_free(alloc: Global, handle: &mut PodHandle)
    ensures { handle.new.pod ≡ None }
{
    let _ = handle.take(alloc);
}

/// Whose turn it is.
#[unsafe(no_mangle)]
pub extern "C" fn loq_current(alloc: Global, handle: &mut PodHandle, tid: &mut u64) -> u32
    ensures status { result ≡ current_status handle.old.pod }
    ensures turn { tid.new ≡ current_or tid.old handle.old.pod }
    ensures same { handle.new.pod ≡ handle.old.pod }
{
    let Some(held) = handle.take(alloc) else {
        return NO_POD;
    };
    let current = held.pod.current();
    handle.fill(held);
    match current {
        Some(current) => {
            *tid = current.number;
            DONE
        }
        None => NOBODY,
    }
}

/// Why it is nobody's turn: 0 somebody has the turn, 1 the pod has ended with that status, 2 nobody may run as it is.
#[unsafe(no_mangle)]
pub extern "C" fn loq_ending(
    alloc: Global,
    handle: &mut PodHandle,
    why: &mut u32,
    status: &mut u32,
) -> u32
    ensures status { result ≡ asked handle.old.pod }
    ensures ending { (why.new, status.new) ≡ end_numbers_or (why.old, status.old) handle.old.pod }
    ensures same { handle.new.pod ≡ handle.old.pod }
{
    let Some(held) = handle.take(alloc) else {
        return NO_POD;
    };
    let ending = held.pod.ending();
    handle.fill(held);
    (*why, *status) = match ending {
        None => (0, 0),
        Some(PodEnd::Ended(status)) => (1, u32::from(status)),
        Some(PodEnd::Idle) => (2, 0),
    };
    DONE
}

/// Whether a line of the event can be taken.
#[unsafe(no_mangle)]
pub extern "C" fn loq_armed(
    alloc: Global,
    handle: &mut PodHandle,
    event: u8,
    armed: &mut bool,
) -> u32
    ensures status { result ≡ asked handle.old.pod }
    ensures armed { armed.new ≡ armed_or armed.old handle.old.pod event }
    ensures same { handle.new.pod ≡ handle.old.pod }
{
    let Some(held) = handle.take(alloc) else {
        return NO_POD;
    };
    *armed = held.pod.armed(event);
    handle.fill(held);
    DONE
}

// A call of the thread whose turn it is.
fn make_call(alloc: Global, handle: &mut PodHandle, call: Call<'static>) -> u32
    ensures refused { current_status handle.old.pod ≢ 0 → result ≡ current_status handle.old.pod }
    ensures status { current_status handle.old.pod ≡ 0 → nat_lt result 2 ≡ true }
    ensures after { IfSome handle.old.pod
        (λ held. result ≡ 0 → pod_in handle.new.pod ≡ Some (event_step held.pod call.entry).after) }
    ensures effects { IfSome handle.old.pod
        (λ held. result ≡ 0 → IfSome handle.new.pod (λ new. Tells held.pod call.entry new.effects)) }
    ensures last { IfSome handle.old.pod
        (λ held. result ≡ 0 → IfSome handle.new.pod (λ new. new.last ≡ last_called held.pod call.entry)) }
    ensures counts { IfSome handle.old.pod
        (λ held. result ≡ 0 → IfSome handle.new.pod (λ new. HasCalled call.entry held new)) }
    ensures counts_same { result ≢ 0 → counts_in handle.new.pod ≡ counts_in handle.old.pod }
    ensures memory { result ≡ 1 → IsTrue (asks_memory call.entry) }
    ensures forgotten { result ≡ 1 → IfSome handle.new.pod (λ new. (new.effects ≡ []) × (new.last ≡ last.Nothing)) }
    ensures other { result ≢ 0 → pod_in handle.new.pod ≡ pod_in handle.old.pod }
    ensures same { nat_lt 1 result ≡ true → handle.new.pod ≡ handle.old.pod }
    ensures names { option_map (λ held. held.names) handle.new.pod ≡ option_map (λ held. held.names) handle.old.pod }
{
    let Some(mut held) = handle.take(alloc) else {
        return NO_POD;
    };
    let Some(tid) = held.pod.current() else {
        handle.fill(held);
        return NOBODY;
    };
    let done = held.call(tid, call);
    handle.fill(held);
    match done {
        Ok(()) => DONE,
        Err(_) => NO_MEMORY,
    }
}

/// The call of the thread whose turn it is. What it did is then told by `loq_effect`.
#[unsafe(no_mangle)]
pub extern "C" fn loq_call(
    alloc: Global,
    handle: &mut PodHandle,
    call: &CallRecord,
    text: &'static [u8],
) -> u32
    ensures refused { call_refusal (is_text text.now) (is_some (call_of call.now text.now)) handle.old.pod ≢ 0
        → result ≡ call_refusal (is_text text.now) (is_some (call_of call.now text.now)) handle.old.pod }
    ensures status { call_refusal (is_text text.now) (is_some (call_of call.now text.now)) handle.old.pod ≡ 0
        → nat_lt result 2 ≡ true }
    ensures after { IfSome (call_of call.now text.now) (λ c. IfSome handle.old.pod
        (λ held. result ≡ 0 → pod_in handle.new.pod ≡ Some (event_step held.pod c).after)) }
    ensures effects { IfSome (call_of call.now text.now) (λ c. IfSome handle.old.pod
        (λ held. result ≡ 0 → IfSome handle.new.pod (λ new. Tells held.pod c new.effects))) }
    ensures last { IfSome (call_of call.now text.now) (λ c. IfSome handle.old.pod
        (λ held. result ≡ 0 → IfSome handle.new.pod (λ new. new.last ≡ last_called held.pod c))) }
    ensures counts { IfSome (call_of call.now text.now) (λ c. IfSome handle.old.pod
        (λ held. result ≡ 0 → IfSome handle.new.pod (λ new. HasCalled c held new))) }
    ensures counts_same { result ≢ 0 → counts_in handle.new.pod ≡ counts_in handle.old.pod }
    ensures memory { IfSome (call_of call.now text.now) (λ c. result ≡ 1 → IsTrue (asks_memory c)) }
    ensures forgotten { result ≡ 1 → IfSome handle.new.pod (λ new. (new.effects ≡ []) × (new.last ≡ last.Nothing)) }
    ensures other { result ≢ 0 → pod_in handle.new.pod ≡ pod_in handle.old.pod }
    ensures same { nat_lt 1 result ≡ true → handle.new.pod ≡ handle.old.pod }
    ensures names { option_map (λ held. held.names) handle.new.pod ≡ option_map (λ held. held.names) handle.old.pod }
{
    if !is_text(text) {
        return BAD_TEXT;
    }
    let Some(call) = call_of(call, Text::lent(text)) else {
        return BAD_CALL;
    };
    make_call(alloc, handle, call)
}

// Takes a line.
fn take_line(alloc: Global, handle: &mut PodHandle, event: u8, line: Line<'static>) -> u32
    ensures status { result ≡ line_status handle.old.pod event }
    ensures after { result ≡ 0 → pod_in handle.new.pod
        ≡ option_map (λ held. (take_event held.pod event line.entry.text).after) handle.old.pod }
    ensures effects { result ≡ 0 → option_map (λ held. held.effects) handle.new.pod
        ≡ option_map (λ held. (take_event held.pod event line.entry.text).effects) handle.old.pod }
    ensures last { result ≡ 0 → IfSome handle.new.pod (λ held. held.last ≡ last.Took line.entry) }
    ensures names { option_map (λ held. held.names) handle.new.pod ≡ option_map (λ held. held.names) handle.old.pod }
    ensures counts { counts_in handle.new.pod ≡ counts_in handle.old.pod }
    ensures other { result ≢ 0 → handle.new.pod ≡ handle.old.pod }
{
    let Some(mut held) = handle.take(alloc) else {
        return NO_POD;
    };
    let taken = held.deliver(event, line);
    handle.fill(held);
    if taken { DONE } else { NOT_ARMED }
}

/// Takes a line of an event.
#[unsafe(no_mangle)]
pub extern "C" fn loq_deliver(
    alloc: Global,
    handle: &mut PodHandle,
    event: u8,
    client: u8,
    seq: u32,
    text: &'static [u8],
) -> u32
    ensures status { result ≡ delivery_status (is_text text.now) handle.old.pod event }
    ensures after { result ≡ 0 → pod_in handle.new.pod
        ≡ option_map (λ held. (take_event held.pod event text.now).after) handle.old.pod }
    ensures effects { result ≡ 0 → option_map (λ held. held.effects) handle.new.pod
        ≡ option_map (λ held. (take_event held.pod event text.now).effects) handle.old.pod }
    ensures last { result ≡ 0 → IfSome handle.new.pod
        (λ held. held.last ≡ last.Took (record { client = client; seq = seq; text = text.now })) }
    ensures names { option_map (λ held. held.names) handle.new.pod ≡ option_map (λ held. held.names) handle.old.pod }
    ensures counts { counts_in handle.new.pod ≡ counts_in handle.old.pod }
    ensures other { result ≢ 0 → handle.new.pod ≡ handle.old.pod }
{
    if !is_text(text) {
        return BAD_TEXT;
    }
    let text = Text::lent(text);
    take_line(alloc, handle, event, Line { client, seq, text })
}

/// How many things the last call or delivery did. The call itself is one of them only where a trap was raised before it.
#[unsafe(no_mangle)]
pub extern "C" fn loq_effects(alloc: Global, handle: &mut PodHandle, count: &mut usize) -> u32
    ensures status { result ≡ asked handle.old.pod }
    ensures count { count.new ≡ count_or count.old handle.old.pod }
    ensures same { handle.new.pod ≡ handle.old.pod }
{
    let Some(held) = handle.take(alloc) else {
        return NO_POD;
    };
    *count = held.effects.len();
    handle.fill(held);
    DONE
}

// Tells an effect, if there is one.
fn tell(
    told: Option<&Effect<'static>>,
    effect: &mut EffectRecord,
    text: &mut [u8],
    ids: &mut [u64],
) -> u32
    ensures status { result ≡ effect_status_if (option_copied told.entry) (length text.old) (length ids.old) }
    ensures effect { effect.new ≡ record_or_none (option_copied told.entry) }
    ensures text { text.new ≡ put_front (text_or_none (option_copied told.entry)) text.old }
    ensures ids { ids.new ≡ put_front (ids_or_none (option_copied told.entry)) ids.old }
{
    let Some(told) = told else {
        *effect = NO_EFFECT;
        return NO_SUCH_EFFECT;
    };
    set_effect(told, effect);
    let (text_room, ids_room) = (text.len(), ids.len());
    let told_text = effect_text(told);
    put_text(&told_text, text);
    let count = put_ids(told, ids);
    if text_room < told_text.len() || ids_room < count {
        TOO_SMALL
    } else {
        DONE
    }
}

/// One of these things, counted from 0. The first bytes of its text and the first numbers of its list go to the front of the buffers;
/// the record says how many there are.
#[unsafe(no_mangle)]
pub extern "C" fn loq_effect(
    alloc: Global,
    handle: &mut PodHandle,
    at: usize,
    effect: &mut EffectRecord,
    text: &mut [u8],
    ids: &mut [u64],
) -> u32
    ensures status { result ≡ effect_status handle.old.pod at (length text.old) (length ids.old) }
    ensures effect { effect.new ≡ record_or_none (effect_at handle.old.pod at) }
    ensures text { text.new ≡ put_front (text_or_none (effect_at handle.old.pod at)) text.old }
    ensures ids { ids.new ≡ put_front (ids_or_none (effect_at handle.old.pod at)) ids.old }
    ensures same { handle.new.pod ≡ handle.old.pod }
{
    let Some(held) = handle.take(alloc) else {
        *effect = NO_EFFECT;
        return NO_POD;
    };
    let status = tell(held.effect_at(at), effect, text, ids);
    handle.fill(held);
    status
}

/// Names the next procedure, from 0 on, as traces print it.
#[unsafe(no_mangle)]
pub extern "C" fn loq_name(alloc: Global, handle: &mut PodHandle, name: &[u8]) -> u32
    ensures text { is_text name.now ≡ false → result ≡ 5 }
    ensures none { is_text name.now ≡ true → handle.old.pod ≡ None → result ≡ 2 }
    ensures some { is_text name.now ≡ true → is_some handle.old.pod ≡ true → nat_lt result 2 ≡ true }
    ensures named { result ≡ 0 → handle.new.pod
        ≡ option_map (with_name name.now) handle.old.pod }
    ensures other { result ≢ 0 → handle.new.pod ≡ handle.old.pod }
{
    if !is_text(name) {
        return BAD_TEXT;
    }
    let Some(mut held) = handle.take(alloc) else {
        return NO_POD;
    };
    let named = held.name(name);
    handle.fill(held);
    match named {
        Ok(()) => DONE,
        Err(_) => NO_MEMORY,
    }
}
