// What one thread does.
ghost use Rattle.std.specs.Prelude.{◌≡◌, ◌<◌, All, IfOk, Some, length, slice_get};
ghost use Rattle.batch.specs.Answers.{answers_to};
ghost use Rattle.batch.specs.Parts.{LiesIn};
ghost use Rattle.batch.specs.Working.{IsBelow, IsOf};

use crate::job::Job;
use crate::part::Part;
use lwp_types::NoMemory;
use std::alloc::Global;
use std::sync::atomic::{AtomicU64, Ordering};

/// The answer to a part, with the part's number.
#[derive(Drop)]
pub(crate) struct Done {
    pub(crate) number: usize,
    pub(crate) answer: Vec<u8>,
}

/// The answer to the part of this number.
pub(crate) fn answer_to<J: Job>(
    alloc: Global,
    job: &J,
    bytes: &[u8],
    parts: &[Part],
    number: usize,
) -> Result<Vec<u8>, NoMemory>
    requires within { All (LiesIn bytes.now) parts.now }
    requires there { number < length parts.now }
    ensures { IfOk result
        (λ answer.
        slice_get (answers_to (J.means job.now) bytes.now parts.now) number ≡ Some answer.items) }
{
    let Part { from, to } = parts[number];
    job.answer(alloc, &bytes[from..to])
}

/// Takes the next part that nobody has begun, and answers it, until none is left.
pub(crate) fn work<J: Job>(
    alloc: Global,
    next: &AtomicU64,
    job: &J,
    bytes: &[u8],
    parts: &[Part],
) -> Result<Vec<Done>, NoMemory>
    requires { All (LiesIn bytes.now) parts.now }
    ensures of { IfOk result
        (λ all. All (IsOf (answers_to (J.means job.now) bytes.now parts.now)) all.items) }
    ensures below { IfOk result (λ all. All (IsBelow (length parts.now)) all.items) }
{
    let mut all = Vec::new(alloc);
    for _ in 0..parts.len() {
        let number = next.fetch_add(1, Ordering::SeqCst) as usize;
        if number >= parts.len() {
            return Ok(all);
        }
        let answer = answer_to(alloc, job, bytes, parts, number)?;
        all.push(Done { number, answer })?;
    }
    Ok(all)
}
