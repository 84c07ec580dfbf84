// What calls are answered.
ghost use Rattle.std.specs.Prelude.{◌≡◌, ◌≤◌, ◌<◌, ◌+◌, ◌++◌, ◌∷◌, [], IfOk, length, take};
ghost use Rattle.std.specs.List.{flat_map};
ghost use Rattle.trace_text.specs.Lines.{id_text, answer_text};

use crate::calls::{put_word_id, put_word_number, put_word_text};
use crate::room::make_room;
use crate::rows::{put_error, put_func, put_number, put_spaced, put_word};
use itoa::Buffer;
use lwp_types::{Answer, Func, IdKind, IdList, LwpErr, NoMemory, Text, Tid};

// A number after a space and a letter.
#[inline(always)]
fn add_id(row: &mut Vec<u8>, at: usize, letter: u8, n: u64) -> Result<usize, NoMemory>
    requires { at < length row.old.items }
    ensures text { IfOk result
        (λ end.
        take end row.new.items ≡ take at row.old.items ++ 32 ∷ id_text (letter ∷ []) n) }
    ensures end { IfOk result (λ end. end < length row.new.items) }
{
    make_room(row, at)?;
    Ok(put_word_id(row.as_mut_slice(), at, b" ", letter, n))
}

// The numbers of a list, each after a space and a letter.
fn add_ids(row: &mut Vec<u8>, at: usize, letter: u8, list: &IdList) -> Result<usize, NoMemory>
    requires { at < length row.old.items }
    ensures text { IfOk result
        (λ end.
        take end row.new.items
        ≡ take at row.old.items ++ flat_map (λ n. 32 ∷ id_text (letter ∷ []) n) list.now) }
    ensures end { IfOk result (λ end. end < length row.new.items) }
{
    let mut end = at;
    for i in 0..list.len() {
        end = add_id(row, end, letter, list.get(i))?;
    }
    Ok(end)
}

#[inline(never)]
fn add_id_list(row: &mut Vec<u8>, at: usize, kind: IdKind, list: &IdList) -> Result<usize, NoMemory>
    requires { at + 301 ≤ length row.old.items }
    ensures text { IfOk result
        (λ end.
        take end row.new.items
        ≡ take at row.old.items ++ answer_text (Answer.Ids kind list.now)) }
    ensures end { IfOk result (λ end. end < length row.new.items) }
{
    let end = put_word(row.as_mut_slice(), at, b" = ids");
    match kind {
        IdKind::Thread => add_ids(row, end, b't', list),
        IdKind::Monitor => add_ids(row, end, b'm', list),
        IdKind::Cond => add_ids(row, end, b'c', list),
    }
}

#[inline(never)]
fn put_letter(row: &mut [u8], at: usize, from: Tid, text: &Text, room: u8) -> usize
    requires { at + 300 ≤ length row.old }
    ensures len { length row.new ≡ length row.old }
    ensures end { result ≤ at + 300 }
    ensures text { take result row.new
        ≡ take at row.old ++ answer_text (Answer.Letter from text.now room) }
{
    let next = put_word_id(row, at, b" = letter ", b't', from.number);
    let next = put_word_number(row, next, b" ", u32::from(room));
    put_spaced(row, next, text)
}

fn put_bound(row: &mut [u8], at: usize, func: Func, arg: u32) -> usize
    requires { at + 300 ≤ length row.old }
    ensures len { length row.new ≡ length row.old }
    ensures end { result ≤ at + 300 }
    ensures text { take result row.new ≡ take at row.old ++ answer_text (Answer.Bound func arg) }
{
    let word = put_word(row, at, b" = bound ");
    let next = put_func(row, word, func);
    put_word_number(row, next, b" ", arg)
}

#[inline(never)]
fn put_negative(row: &mut [u8], at: usize, value: i64) -> usize
    requires { at + 300 ≤ length row.old }
    ensures len { length row.new ≡ length row.old }
    ensures end { result ≤ at + 300 }
    ensures text { take result row.new ≡ take at row.old ++ answer_text (Answer.Value value) }
{
    let mut buffer = Buffer::new();
    let next = put_word(row, at, b" = ");
    put_word(row, next, buffer.format(value).as_bytes())
}

#[inline(always)]
fn put_value(row: &mut [u8], at: usize, value: i64) -> usize
    requires { at + 300 ≤ length row.old }
    ensures len { length row.new ≡ length row.old }
    ensures end { result ≤ at + 300 }
    ensures text { take result row.new ≡ take at row.old ++ answer_text (Answer.Value value) }
{
    if value < 0 {
        return put_negative(row, at, value);
    }
    let next = put_word(row, at, b" = ");
    put_number(row, next, value as u64)
}

fn put_refusal(row: &mut [u8], at: usize, error: LwpErr) -> usize
    requires { at + 300 ≤ length row.old }
    ensures len { length row.new ≡ length row.old }
    ensures end { result ≤ at + 300 }
    ensures text { take result row.new ≡ take at row.old ++ answer_text (Answer.Refused error) }
{
    let next = put_word(row, at, b" ! ");
    put_error(row, next, error)
}

// An answer of whatever kind. It stands apart, so that a number, which is what most calls are answered, saves and restores nothing.
#[inline(never)]
fn add_any_answer(row: &mut Vec<u8>, at: usize, answer: &Answer) -> Result<usize, NoMemory>
    requires { at + 301 ≤ length row.old.items }
    ensures text { IfOk result
        (λ end. take end row.new.items ≡ take at row.old.items ++ answer_text answer.now) }
    ensures end { IfOk result (λ end. end < length row.new.items) }
{
    let bytes = row.as_mut_slice();
    let end = match answer {
        Answer::Value(value) => put_value(bytes, at, *value),
        Answer::Thread(tid) => put_word_id(bytes, at, b" = ", b't', tid.number),
        Answer::Monitor(mon) => put_word_id(bytes, at, b" = ", b'm', mon.number),
        Answer::Cond(cond) => put_word_id(bytes, at, b" = ", b'c', cond.number),
        Answer::Letter { from, text, room } => put_letter(bytes, at, *from, text, *room),
        Answer::Reply(text) => put_word_text(bytes, at, b" = reply", text),
        Answer::Bound { func, arg } => put_bound(bytes, at, *func, *arg),
        Answer::Caught {
            depth: _,
            mark: _,
            pattern,
        } => put_word_number(bytes, at, b" caught ", *pattern),
        Answer::Ids { kind, list } => return add_id_list(row, at, *kind, list),
        Answer::Refused(error) => put_refusal(bytes, at, *error),
    };
    Ok(end)
}

// An answer from `at` on.
#[inline(always)]
pub(crate) fn add_answer(row: &mut Vec<u8>, at: usize, answer: &Answer) -> Result<usize, NoMemory>
    requires { at + 301 ≤ length row.old.items }
    ensures text { IfOk result
        (λ end. take end row.new.items ≡ take at row.old.items ++ answer_text answer.now) }
    ensures end { IfOk result (λ end. end < length row.new.items) }
{
    match answer {
        Answer::Value(value) => Ok(put_value(row.as_mut_slice(), at, *value)),
        _ => add_any_answer(row, at, answer),
    }
}
