// The index: where each of the living is kept.
ghost use Rattle.std.specs.Prelude.{IfNone, IfSome};
ghost use Rattle.stale_ids.specs.Index.{IsAbsent, IsAt, IsRising};

/// A number, and the key of its value.
#[derive(Clone, Copy)]
pub struct Place {
    pub number: u64,
    pub slot: usize,
}

fn searched(index: &[Place], number: u64) -> Option<usize>
    requires { IsRising index.now }
    ensures absent { IfNone result (IsAbsent number index.now) }
    ensures found { IfSome result (IsAt number index.now) }
{
    index
        .binary_search_by_key(&number, |place| place.number)
        .ok()
}

/// Where the number stands in the index. It is looked for first as far after the oldest as it was born after that, or last: so it
/// is found at once where nobody died in between, and so is the youngest.
pub fn place_of(index: &[Place], number: u64) -> Option<usize>
    requires { IsRising index.now }
    ensures absent { IfNone result (IsAbsent number index.now) }
    ensures found { IfSome result (IsAt number index.now) }
{
    let oldest = index.first()?;
    let likely = (number.saturating_sub(oldest.number) as usize).min(index.len() - 1);
    if index[likely].number == number {
        return Some(likely);
    }
    searched(index, number)
}
