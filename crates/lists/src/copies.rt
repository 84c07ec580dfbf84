// Vectors and queues of plain values, copied with as much room.
ghost use Rattle.std.specs.Prelude.{◌≡◌, ◌≤◌, IfOk, vec_capacity};
ghost use Rattle.std.specs.VecDeque.{deque_capacity};

use std::alloc::AllocError;
use std::collections::VecDeque;

/// The same values in memory of their own, and no less room.
pub fn cloned<T: Copy>(values: &Vec<T>) -> Result<Vec<T>, AllocError>
    ensures items { IfOk result (λ copy. copy.items ≡ values.now.items) }
    ensures room { IfOk result (λ copy. vec_capacity values.now ≤ vec_capacity copy) }
{
    let mut copy = Vec::with_capacity(*values.allocator(), values.capacity())?;
    copy.extend_from_slice(values.as_slice())?;
    Ok(copy)
}

/// The same values in memory of their own, and as much room.
pub fn cloned_exactly<T: Copy>(values: &Vec<T>) -> Result<Vec<T>, AllocError>
    ensures items { IfOk result (λ copy. copy.items ≡ values.now.items) }
    ensures room { IfOk result (λ copy. vec_capacity copy ≡ vec_capacity values.now) }
{
    let mut copy = Vec::with_capacity(*values.allocator(), values.capacity())?;
    for value in values.iter() {
        copy.push_reserved(*value);
    }
    Ok(copy)
}

/// The same values of a queue, and no less room.
pub fn cloned_queue<T: Copy>(values: &VecDeque<T>) -> Result<VecDeque<T>, AllocError>
    ensures items { IfOk result (λ copy. copy.items ≡ values.now.items) }
    ensures room { IfOk result (λ copy. deque_capacity values.now ≤ deque_capacity copy) }
{
    let (front, back) = values.as_slices();
    let mut copy = Vec::with_capacity(*values.allocator(), values.capacity())?;
    copy.extend_from_slice(front)?;
    copy.extend_from_slice(back)?;
    Ok(VecDeque::from_vec(copy))
}
