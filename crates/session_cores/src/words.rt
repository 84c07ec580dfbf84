// The words of threads, written into a key.
ghost use Rattle.std.specs.Prelude.{◌≡◌, ◌++◌, OnOk};
ghost use Rattle.keys.specs.Numbers.{bit};
ghost use Rattle.session_cores.specs.Words.{answer_numbers, error_number, exit_numbers, flags_numbers, func_number, kind_number, pattern_numbers, value_numbers};

use crate::part::{put_ids, put_text};
use keys::Key;
use lwp_types::{Answer, ExitCall, Flags, Func, IdKind, LwpErr, Pattern};
use std::alloc::AllocError;

/// 1 for true.
pub(crate) fn bit(b: bool) -> u64
    ensures { result ≡ bit b }
{
    if b { 1 } else { 0 }
}

/// The three flags.
pub(crate) fn put_flags(key: &mut Key, flags: &Flags) -> Result<(), AllocError>
    ensures { OnOk result (key.new ≡ key.old ++ flags_numbers flags.now) }
{
    key.put_all(&[
        bit(flags.suspended),
        bit(flags.nolastrites),
        bit(flags.server),
    ])
}

/// What a handler catches.
pub(crate) fn put_pattern(key: &mut Key, pattern: &Pattern) -> Result<(), AllocError>
    ensures { OnOk result (key.new ≡ key.old ++ pattern_numbers pattern.now) }
{
    match pattern {
        Pattern::All => key.put(0),
        Pattern::Num(n) => key.put_all(&[1, *n as u64]),
    }
}

/// What a handler answers.
pub(crate) fn func_number(func: Func) -> u64
    ensures { result ≡ func_number func }
{
    match func {
        Func::Nothing => 0,
        Func::Give => 1,
        Func::Sum => 2,
    }
}

fn kind_number(kind: IdKind) -> u64
    ensures { result ≡ kind_number kind }
{
    match kind {
        IdKind::Thread => 0,
        IdKind::Monitor => 1,
        IdKind::Cond => 2,
    }
}

fn error_number(error: LwpErr) -> u64
    ensures { result ≡ error_number error }
{
    match error {
        LwpErr::NoError => 0,
        LwpErr::NonExist => 1,
        LwpErr::Timeout => 2,
        LwpErr::InUse => 3,
        LwpErr::InvalidArg => 4,
        LwpErr::NoRoom => 5,
        LwpErr::NotOwned => 6,
        LwpErr::IllPrio => 7,
        LwpErr::NoWait => 8,
    }
}

fn put_value(key: &mut Key, value: i64) -> Result<(), AllocError>
    ensures { OnOk result (key.new ≡ key.old ++ value_numbers value) }
{
    if value >= 0 {
        key.put_all(&[0, value as u64])
    } else {
        key.put_all(&[1, (-(value + 1)) as u64])
    }
}

/// What an exit procedure does.
pub(crate) fn put_exit(key: &mut Key, call: &ExitCall) -> Result<(), AllocError>
    ensures { OnOk result (key.new ≡ key.old ++ exit_numbers call.now) }
{
    match call {
        ExitCall::MonExit { mon } => key.put_all(&[0, mon.number]),
        ExitCall::MonBreak { mon } => key.put_all(&[1, mon.number]),
        ExitCall::Notify { cond } => key.put_all(&[2, cond.number]),
        ExitCall::Broadcast { cond } => key.put_all(&[3, cond.number]),
        ExitCall::Reply { to, text } => {
            key.put_all(&[4, to.number])?;
            put_text(key, text)
        }
        ExitCall::Resume { tid } => key.put_all(&[5, tid.number]),
        ExitCall::SetExit { code } => key.put_all(&[6, *code as u64]),
        ExitCall::Note { text } => {
            key.put(7)?;
            put_text(key, text)
        }
    }
}

/// What a thread is polled with next.
pub(crate) fn put_answer(key: &mut Key, answer: &Answer) -> Result<(), AllocError>
    ensures { OnOk result (key.new ≡ key.old ++ answer_numbers answer.now) }
{
    match answer {
        Answer::Value(value) => {
            key.put(0)?;
            put_value(key, *value)
        }
        Answer::Thread(tid) => key.put_all(&[1, tid.number]),
        Answer::Monitor(mon) => key.put_all(&[2, mon.number]),
        Answer::Cond(cond) => key.put_all(&[3, cond.number]),
        Answer::Letter { from, text, room } => {
            key.put_all(&[4, from.number, *room as u64])?;
            put_text(key, text)
        }
        Answer::Reply(text) => {
            key.put(5)?;
            put_text(key, text)
        }
        Answer::Bound { func, arg } => key.put_all(&[6, func_number(*func), *arg as u64]),
        Answer::Caught {
            depth,
            mark,
            pattern,
        } => key.put_all(&[7, *depth as u64, *mark as u64, *pattern as u64]),
        Answer::Ids { kind, list } => {
            key.put_all(&[8, kind_number(*kind)])?;
            put_ids(key, list)
        }
        Answer::Refused(error) => key.put_all(&[9, error_number(*error)]),
    }
}
