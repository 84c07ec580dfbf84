// Whole sessions over bytes.
ghost use Rattle.c_pods.specs.Effects.{put_front};
ghost use Rattle.c_sessions.specs.Advised.{format_of};
ghost use Rattle.c_sessions.specs.Answered.{answers_text};
ghost use Rattle.c_sessions.specs.Planned.{TellsPlan, plan_text};
ghost use Rattle.loqzemar.specs.Asked.{room_status};
ghost use Rattle.loqzemar.specs.Sessions.{TellsReplay, is_call_limit, is_told, outcome_status, session_status};
ghost use Rattle.script_advice.specs.Advice.{grade_of, grade_status, report};
ghost use Rattle.script_text.specs.Spelling.{verdict};
ghost use Rattle.std.specs.Prelude.{◌≡◌, ◌≢◌, ◌&&◌, false, is_ok, length, nat_le, true};

use crate::status::{BAD_NUMBER, BAD_SCRIPT, DONE, NO_MEMORY, TOO_SMALL};
use c_pods::put_bytes;
use c_sessions::{Outcome, SessionRecord, advise, answers, plan, replay};
use std::alloc::Global;

// Whether so many calls may be allowed.
fn is_call_limit(calls: u64) -> bool
    ensures { result ≡ is_call_limit calls }
{
    0 < calls && calls <= 1_000_000
}

// Tells what a session comes to.
pub(crate) fn tell(
    told: &Outcome,
    out: &mut [u8],
    len: &mut usize,
    session: &mut SessionRecord,
) -> u32
    ensures status { result ≡ outcome_status told.now (length out.old) }
    ensures text { out.new ≡ put_front told.now.front.items out.old }
    ensures len { len.new ≡ told.now.len }
    ensures session { session.new ≡ told.now.record }
    ensures told { is_told result ≡ true }
{
    put_bytes(&told.front, out);
    *len = told.len;
    *session = told.record;
    if out.len() < told.len {
        TOO_SMALL
    } else if told.record.reason == 0 {
        DONE
    } else {
        BAD_SCRIPT
    }
}

/// Runs a script with all lines of its clients in place, and at most so many calls, from 1 to 1,000,000: how many bytes its trace
/// has, or the line that says why it is no script; the first of them at the front of a buffer; and how the session ended.
#[tactic(auto, using(crate::proofs::Fronts::front_of_first))]
#[unsafe(no_mangle)]
pub extern "C" fn loq_plan(
    alloc: Global,
    script: &[u8],
    calls: u64,
    out: &mut [u8],
    len: &mut usize,
    session: &mut SessionRecord,
) -> u32
    ensures range { is_call_limit calls ≡ false → result ≡ 8 }
    ensures status { is_call_limit calls ≡ true → result ≢ 1
        → result ≡ session_status (is_ok (verdict script.now)) (length (plan_text script.now calls)) (length out.old) }
    ensures text { is_told result ≡ true → out.new ≡ put_front (plan_text script.now calls) out.old }
    ensures len { is_told result ≡ true → len.new ≡ length (plan_text script.now calls) }
    ensures session { is_told result ≡ true → TellsPlan (verdict script.now) calls session.new }
    ensures same { is_told result ≡ false
        → (out.new ≡ out.old) × (len.new ≡ len.old) × (session.new ≡ session.old) }
{
    if !is_call_limit(calls) {
        return BAD_NUMBER;
    }
    match plan(alloc, script, calls, out.len()) {
        Ok(told) => tell(&told, out, len, session),
        Err(_) => NO_MEMORY,
    }
}

/// Runs a script as `loq_plan` does, and tells in place of the trace what a client from 0 to 15 is told: of each accepted reply to an
/// agent of its event, the text and a newline.
#[tactic(auto, using(crate::proofs::Fronts::front_of_first))]
#[unsafe(no_mangle)]
pub extern "C" fn loq_answers(
    alloc: Global,
    script: &[u8],
    client: u8,
    calls: u64,
    out: &mut [u8],
    len: &mut usize,
    session: &mut SessionRecord,
) -> u32
    ensures range { (nat_le client 15 && is_call_limit calls) ≡ false → result ≡ 8 }
    ensures status { (nat_le client 15 && is_call_limit calls) ≡ true → result ≢ 1
        → result ≡ session_status (is_ok (verdict script.now)) (length (answers_text script.now client calls)) (length out.old) }
    ensures text { is_told result ≡ true → out.new ≡ put_front (answers_text script.now client calls) out.old }
    ensures len { is_told result ≡ true → len.new ≡ length (answers_text script.now client calls) }
    ensures session { is_told result ≡ true → TellsPlan (verdict script.now) calls session.new }
    ensures same { is_told result ≡ false
        → (out.new ≡ out.old) × (len.new ≡ len.old) × (session.new ≡ session.old) }
{
    if 15 < client || !is_call_limit(calls) {
        return BAD_NUMBER;
    }
    match answers(alloc, script, client, calls, out.len()) {
        Ok(told) => tell(&told, out, len, session),
        Err(_) => NO_MEMORY,
    }
}

/// Whether recorded bytes are a trace of a script, of a session of at most so many calls, from 1 to 1,000,000; or which of their
/// lines is the first that differs, which one was to come in its place, and which was recorded.
#[unsafe(no_mangle)]
pub extern "C" fn loq_replay(
    alloc: Global,
    script: &[u8],
    recorded: &[u8],
    calls: u64,
    out: &mut [u8],
    len: &mut usize,
    session: &mut SessionRecord,
) -> u32
    ensures range { is_call_limit calls ≡ false → result ≡ 8 }
    ensures limit { is_call_limit calls ≡ true → result ≢ 8 }
    ensures told { is_told result ≡ true
        → TellsReplay (verdict script.now) recorded.now calls out.old out.new len.new session.new result }
    ensures same { is_told result ≡ false
        → (out.new ≡ out.old) × (len.new ≡ len.old) × (session.new ≡ session.old) }
{
    if !is_call_limit(calls) {
        return BAD_NUMBER;
    }
    match replay(alloc, script, recorded, calls, out.len()) {
        Ok(told) => tell(&told, out, len, session),
        Err(_) => NO_MEMORY,
    }
}

/// What is wrong in a script, as text for readers or as an object a line; the grade is 0 for a script in which nothing is doubtful, 1
/// for another script, 2 for bytes that are none.
#[tactic(auto, using(crate::proofs::Fronts::front_of_first))]
#[unsafe(no_mangle)]
pub extern "C" fn loq_check(
    alloc: Global,
    script: &[u8],
    json: bool,
    out: &mut [u8],
    len: &mut usize,
    grade: &mut u32,
) -> u32
    ensures status { result ≢ 1 → result ≡ room_status (length (report (format_of json) script.now)) (length out.old) }
    ensures text { result ≢ 1 → out.new ≡ put_front (report (format_of json) script.now) out.old }
    ensures len { result ≢ 1 → len.new ≡ length (report (format_of json) script.now) }
    ensures grade { result ≢ 1 → grade.new ≡ grade_status (grade_of script.now) }
    ensures same { result ≡ 1 → (out.new ≡ out.old) × (len.new ≡ len.old) × (grade.new ≡ grade.old) }
{
    let room = out.len();
    let Ok(told) = advise(alloc, script, json, room) else {
        return NO_MEMORY;
    };
    put_bytes(&told.front, out);
    *len = told.len;
    *grade = told.grade;
    if room < told.len { TOO_SMALL } else { DONE }
}
