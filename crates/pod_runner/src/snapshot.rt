// A run as a plain value.
ghost use Rattle.std.specs.Prelude.{◌≡◌, ◌≤◌, IfOk, false, map};
ghost use Rattle.pod_runner.specs.Run.{session_of};
ghost use Rattle.pod_runner.specs.Snapshots.{IsSnapshot, note_of, taken_by, taken_of};

use crate::row_list::copy_list;
use crate::{Row, Run, TakeList};
use lwp_types::{Answer, NoMemory, Polled, Program, Sequence};
use snapshots::{Snapshot, ThreadNote};
use std::alloc::Global;

// A copy of the answer, with memory of its own for a list.
fn answer_again<'s>(alloc: Global, answer: &Answer<'s>) -> Result<Answer<'s>, NoMemory>
    ensures { IfOk result (λ copy. copy ≡ answer.now) }
{
    Ok(match answer {
        Answer::Value(value) => Answer::Value(*value),
        Answer::Thread(tid) => Answer::Thread(*tid),
        Answer::Monitor(mon) => Answer::Monitor(*mon),
        Answer::Cond(cond) => Answer::Cond(*cond),
        Answer::Letter { from, text, room } => Answer::Letter {
            from: *from,
            text: text.again(),
            room: *room,
        },
        Answer::Reply(text) => Answer::Reply(text.again()),
        Answer::Bound { func, arg } => Answer::Bound {
            func: *func,
            arg: *arg,
        },
        Answer::Caught {
            depth,
            mark,
            pattern,
        } => Answer::Caught {
            depth: *depth,
            mark: *mark,
            pattern: *pattern,
        },
        Answer::Ids { kind, list } => Answer::Ids {
            kind: *kind,
            list: copy_list(alloc, list)?,
        },
        Answer::Refused(error) => Answer::Refused(*error),
    })
}

// What is noted of a live thread.
fn note_of<'s, B>(alloc: Global, row: &Row<'s, B>) -> Result<ThreadNote<'s>, NoMemory>
    ensures { IfOk result (λ note. note ≡ note_of row.now) }
{
    let answer = answer_again(alloc, &row.answer)?;
    let last = if row.called {
        Some(row.call.again())
    } else {
        None
    };
    Ok(ThreadNote {
        tid: row.tid,
        proc: row.proc,
        answer,
        last,
    })
}

// What is noted of all live threads.
fn notes_of<'s, B>(alloc: Global, rows: &[Row<'s, B>]) -> Result<Sequence<ThreadNote<'s>>, NoMemory>
    ensures { IfOk result (λ notes. notes ≡ map note_of rows.now) }
{
    let mut notes = Sequence::new(alloc);
    for row in rows {
        notes.push(note_of(alloc, row)?)?;
    }
    Ok(notes)
}

// How many lines of each client were taken.
fn taken_by(alloc: Global, clients: usize, takes: &TakeList) -> Result<Sequence<u64>, NoMemory>
    ensures { IfOk result (λ counts. counts ≡ taken_by clients takes.now) }
{
    let mut counts = Sequence::new(alloc);
    for client in 0..clients {
        counts.push(takes.count_of(client))?;
    }
    Ok(counts)
}

impl<'s, B: Polled<'s>, P: Program<B>> Run<'s, B, P> {
    /// How the session stands, as a plain value, with the lines taken of so many clients. It goes over the takes once for each client.
    pub fn snapshot(&self, clients: usize) -> Result<Snapshot<'s>, NoMemory>
        requires { self.now.failed ≡ false }
        ensures { IfOk result
            (λ snap.
            IsSnapshot clients self.now.takes self.now.calls
            (session_of B.next P.bodies self.now).live snap) }
    {
        let rows = self.parts.rows.as_slice();
        let alloc = self.parts.rows.allocator();
        Ok(Snapshot {
            pod: self.parts.pod.copy()?,
            threads: notes_of(alloc, rows)?,
            calls: self.calls,
            taken: taken_by(alloc, clients, &self.takes)?,
        })
    }
}
