// What the threads have brought back, in the order of the parts.
ghost use Rattle.std.specs.Prelude.{◌≡◌, ◌<◌, All, IfOk, List, OnOk, Some, length, map, slice_get, vec_items, ℕ};
ghost use Rattle.batch.specs.Answers.{answers_to};
ghost use Rattle.batch.specs.Parts.{LiesIn};
ghost use Rattle.batch.specs.Slots.{Fit};
ghost use Rattle.batch.specs.Working.{IsBelow, IsOf};

use crate::job::Job;
use crate::part::Part;
use crate::working::{Done, answer_to};
use lwp_types::NoMemory;
use std::alloc::Global;

/// So many slots, all empty.
pub(crate) fn empty_slots(alloc: Global, count: usize) -> Result<Vec<Option<Vec<u8>>>, NoMemory>
    ensures len { IfOk result (λ slots. length slots.items ≡ count) }
    ensures fit { IfOk result
        (λ slots. (wanted : List (List ℕ)) → length wanted ≡ count → Fit wanted slots.items) }
{
    let mut slots = Vec::with_capacity(alloc, count)?;
    for _ in 0..count {
        slots.push(None)?;
    }
    Ok(slots)
}

// Puts an answer into the slot of its number.
fn put(slots: &mut Vec<Option<Vec<u8>>>, number: usize, answer: Vec<u8>)
    requires { number < length slots.old.items }
    ensures len { length slots.new.items ≡ length slots.old.items }
    ensures fit { (wanted : List (List ℕ)) → Fit wanted slots.old.items →
        slice_get wanted number ≡ Some answer.items → Fit wanted slots.new.items }
{
    slots[number] = Some(answer);
}

// Puts each answer into the slot of its number.
fn fill(slots: &mut Vec<Option<Vec<u8>>>, done: Vec<Done>)
    requires { All (IsBelow (length slots.old.items)) done.items }
    ensures len { length slots.new.items ≡ length slots.old.items }
    ensures fit { (wanted : List (List ℕ)) → Fit wanted slots.old.items →
        All (IsOf wanted) done.items → Fit wanted slots.new.items }
{
    let mut left = done;
    while let Some(done) = left.pop() {
        let Done { number, answer } = done;
        put(slots, number, answer);
    }
}

/// Puts all that the threads have brought back into the slots, unless one of them ran out of memory.
pub(crate) fn fill_all(
    slots: &mut Vec<Option<Vec<u8>>>,
    brought: Vec<Result<Vec<Done>, NoMemory>>,
) -> Result<(), NoMemory>
    requires { All (λ done. IfOk done (λ all. All (IsBelow (length slots.old.items)) all.items))
        brought.items }
    ensures len { OnOk result (length slots.new.items ≡ length slots.old.items) }
    ensures fit { (wanted : List (List ℕ)) → Fit wanted slots.old.items →
        All (λ done. IfOk done (λ all. All (IsOf wanted) all.items)) brought.items →
        OnOk result (Fit wanted slots.new.items) }
{
    let mut left = brought;
    while let Some(done) = left.pop() {
        fill(slots, done?);
    }
    Ok(())
}

// The answer in the slot of this number. Where it is empty, the part is answered now.
fn answer_in<J: Job>(
    alloc: Global,
    job: &J,
    bytes: &[u8],
    parts: &[Part],
    slots: &mut Vec<Option<Vec<u8>>>,
    number: usize,
) -> Result<Vec<u8>, NoMemory>
    requires within { All (LiesIn bytes.now) parts.now }
    requires fit { Fit (answers_to (J.means job.now) bytes.now parts.now) slots.old.items }
    requires there { number < length slots.old.items }
    requires many { length slots.old.items ≡ length parts.now }
    ensures fit { Fit (answers_to (J.means job.now) bytes.now parts.now) slots.new.items }
    ensures many { length slots.new.items ≡ length slots.old.items }
    ensures answer { IfOk result
        (λ answer.
        slice_get (answers_to (J.means job.now) bytes.now parts.now) number ≡ Some answer.items) }
{
    match slots[number].take() {
        Some(answer) => Ok(answer),
        None => answer_to(alloc, job, bytes, parts, number),
    }
}

/// The answers in the slots, in order. Where a slot is empty, its part is answered now.
pub(crate) fn answers_of<J: Job>(
    alloc: Global,
    job: &J,
    bytes: &[u8],
    parts: &[Part],
    slots: Vec<Option<Vec<u8>>>,
) -> Result<Vec<Vec<u8>>, NoMemory>
    requires within { All (LiesIn bytes.now) parts.now }
    requires fit { Fit (answers_to (J.means job.now) bytes.now parts.now) slots.items }
    requires many { length slots.items ≡ length parts.now }
    ensures { IfOk result
        (λ answers. map vec_items answers.items ≡ answers_to (J.means job.now) bytes.now parts.now) }
{
    let mut slots = slots;
    let mut answers = Vec::with_capacity(alloc, parts.len())?;
    for number in 0..parts.len() {
        answers.push(answer_in(alloc, job, bytes, parts, &mut slots, number)?)?;
    }
    Ok(answers)
}
