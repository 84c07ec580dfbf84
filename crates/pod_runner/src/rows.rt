// What a step does to the rows of the live threads.
ghost use Rattle.std.specs.Prelude.{◌≡◌, ◌++◌, OnOk};
ghost use Rattle.pod_runner.specs.Session.{proc_of, thread_in, rows_born, after_settle_by, after_settle};

use crate::row_list::RowList;
use lwp_types::{Answer, Call, Effect, Effects, NoMemory, Polled, Program, Tid};

/// The procedure of a Create.
pub fn proc_of(call: &Call) -> Option<u32>
    ensures { result ≡ proc_of call.now }
{
    match call {
        Call::Create { proc, .. } => Some(*proc),
        _ => None,
    }
}

/// The thread or agent that an answer names.
pub fn thread_in(answer: &Answer) -> Option<Tid>
    ensures { result ≡ thread_in answer.now }
{
    match answer {
        Answer::Thread(tid) => Some(*tid),
        _ => None,
    }
}

// The row of the thread that was created, if the call creates one and was answered so.
#[inline(always)]
fn bear<'s, B: Polled<'s>, P: Program<B>>(
    rows: &mut RowList<'s, B>,
    program: &P,
    born: Option<u32>,
    named: Option<Tid>,
) -> Result<(), NoMemory>
    ensures { OnOk result
        (rows.new
        ≡ record rows.old {
          rows = rows.old.rows ++ rows_born (P.bodies program.now) born named;
        }) }
{
    match (born, named) {
        (Some(proc), Some(tid)) => rows.open(program, proc, tid),
        _ => Ok(()),
    }
}

#[inline(always)]
fn settle_one<'s, B: Polled<'s>, P: Program<B>>(
    rows: &mut RowList<'s, B>,
    program: &P,
    born: Option<u32>,
    effect: &Effect<'s>,
) -> Result<(), NoMemory>
    ensures { OnOk result
        (rows.new
        ≡ record rows.old {
          rows = after_settle_by (P.bodies program.now) born effect.now rows.old.rows;
        }) }
{
    match effect {
        Effect::Answered { tid, answer } => {
            rows.answer(*tid, answer)?;
            bear(rows, program, born, thread_in(answer))
        }
        Effect::Died { tid } => {
            rows.forget(*tid);
            Ok(())
        }
        _ => Ok(()),
    }
}

/// What the effects of a step do to the rows, one after the other.
#[inline(always)]
pub fn settle<'s, B: Polled<'s>, P: Program<B>>(
    rows: &mut RowList<'s, B>,
    program: &P,
    born: Option<u32>,
    effects: &Effects<'s>,
) -> Result<(), NoMemory>
    ensures { OnOk result
        (rows.new
        ≡ record rows.old {
          rows = after_settle (P.bodies program.now) born effects.now rows.old.rows;
        }) }
{
    for i in 0..effects.len() {
        settle_one(rows, program, born, effects.get(i))?;
    }
    Ok(())
}
