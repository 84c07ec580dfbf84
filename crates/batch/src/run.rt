// A job for each part, by several threads.
ghost use Rattle.std.specs.Prelude.{◌≡◌, ◌≤◌, All, IfOk, length, map, vec_items};
ghost use Rattle.batch.specs.Answers.{answers_to};
ghost use Rattle.batch.specs.Parts.{LiesIn};
ghost use Rattle.batch.specs.Working.{IsBelow, IsOf};

use crate::gathering::{answers_of, empty_slots, fill_all};
use crate::job::Job;
use crate::part::Part;
use crate::working::{Done, work};
use lwp_types::NoMemory;
use std::alloc::Global;
use std::sync::atomic::AtomicU64;
use std::thread::{self, Threads};

/// The most threads that work at once.
pub const THREADS_MAX: u32 = 16;

// What each of so many threads has brought back. The caller is one of them.
fn brought_back<J: Job, R: Threads + Sync>(
    rt: &R,
    alloc: Global,
    threads: usize,
    job: &J,
    bytes: &[u8],
    parts: &[Part],
) -> Result<Vec<Result<Vec<Done>, NoMemory>>, NoMemory>
    requires { All (LiesIn bytes.now) parts.now }
    ensures of { IfOk result
        (λ brought.
        All
        (λ done.
        IfOk done
        (λ all. All (IsOf (answers_to (J.means job.now) bytes.now parts.now)) all.items))
        brought.items) }
    ensures below { IfOk result
        (λ brought.
        All (λ done. IfOk done (λ all. All (IsBelow (length parts.now)) all.items))
        brought.items) }
{
    let next = AtomicU64::new(0);
    let worker = |_: usize| -> Result<Vec<Done>, NoMemory>
        requires { All (LiesIn bytes.now) parts.now }
        ensures { IfOk result
            (λ all.
            All (IsOf (answers_to (J.means job.entry.now) bytes.entry.now parts.entry.now))
            all.items
            × All (IsBelow (length parts.entry.now)) all.items) }
    { work(alloc, &next, job, bytes, parts) };
    Ok(thread::map_indices(rt, alloc, threads, &worker)?)
}

/// The answers of a job to the parts of a text, in order. So many threads of the system work at once, the caller among them, or as
/// many as there are parts, if those are fewer; each takes the next part that nobody has begun, and all have ended when this
/// returns. The work of a thread that can't be started is done by the others.
pub fn run_parts<J: Job, R: Threads + Sync>(
    rt: &R,
    alloc: Global,
    threads: u32,
    job: &J,
    bytes: &[u8],
    parts: &[Part],
) -> Result<Vec<Vec<u8>>, NoMemory>
    requires least { 1 ≤ threads }
    requires most { threads ≤ 16 }
    requires within { All (LiesIn bytes.now) parts.now }
    ensures { IfOk result
        (λ answers. map vec_items answers.items ≡ answers_to (J.means job.now) bytes.now parts.now) }
{
    let threads = parts.len().min(threads as usize);
    let brought = brought_back(rt, alloc, threads, job, bytes, parts)?;
    let mut slots = empty_slots(alloc, parts.len())?;
    fill_all(&mut slots, brought)?;
    answers_of(alloc, job, bytes, parts, slots)
}
