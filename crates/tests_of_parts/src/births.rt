use stale_ids::Registry;
use std::alloc::Global;

// Gives the next number to a value, if there is room.
fn inserts(registry: &mut Registry<u64>, value: u64) -> Option<u64> {
    if registry.reserve(3).is_err() || registry.len() >= 3 {
        return None;
    }
    registry.insert(value).ok()
}

// Writes 10 more, and answers what was written before.
fn raises(registry: &mut Registry<u64>, number: u64) -> Option<u64> {
    let value = registry.get_mut(number)?;
    let before = *value;
    *value = before.wrapping_add(10);
    Some(before)
}

// The number in a place, in the order of births.
fn number_at(registry: &Registry<u64>, place: usize) -> Option<u64> {
    if place < registry.len() {
        Some(registry.nth(place))
    } else {
        None
    }
}

// `i` insert, `r` remove, `g` get, `w` write 10 more, `n` the number in a place, `b` how many were born.
fn answers(registry: &mut Registry<u64>, letter: u8, number: u64) -> Option<u64> {
    match letter {
        b'i' => inserts(registry, number),
        b'r' => registry.remove(number),
        b'g' => registry.get(number).copied(),
        b'w' => raises(registry, number),
        b'n' => number_at(registry, number as usize),
        _ => Some(registry.births()),
    }
}

// A call by its letter, the number or the value that it is given, and what it answers.
const STEPS: [(u8, u64, Option<u64>); 17] = [
    (b'i', 10, Some(0)),
    (b'i', 11, Some(1)),
    (b'r', 0, Some(10)),
    // The slot is taken, and the number isn't.
    (b'i', 12, Some(2)),
    (b'g', 0, None),
    (b'w', 0, None),
    (b'r', 0, None),
    (b'w', 2, Some(12)),
    (b'g', 2, Some(22)),
    (b'g', 1, Some(11)),
    (b'n', 0, Some(1)),
    (b'n', 1, Some(2)),
    (b'i', 13, Some(3)),
    (b'b', 0, Some(4)),
    // A death makes room, but no birth.
    (b'r', 1, Some(11)),
    (b'i', 14, None),
    (b'n', 1, Some(3)),
];

fn does_all(registry: &mut Registry<u64>) -> bool {
    for (letter, number, wanted) in STEPS {
        if answers(registry, letter, number) != wanted {
            return false;
        }
    }
    registry.is_live(3) && !registry.is_live(1)
}

#[test]
fn an_old_number_never_finds_who_took_the_slot(rt: HostRuntime) {
    let mut registry = Registry::new(rt.alloc(), 4);
    assert!(rt; does_all(&mut registry));
}

// Makes place for one more, and fills it.
fn grows(registry: &mut Registry<Vec<u8>>, alloc: Global, n: usize) -> bool {
    if registry.reserve(n).is_err() || registry.len() >= n {
        return false;
    }
    registry.insert(Vec::new(alloc)).is_ok()
}

fn grows_to(registry: &mut Registry<Vec<u8>>, alloc: Global, most: usize) -> bool {
    for n in 1..=most {
        if !grows(registry, alloc, n) {
            return false;
        }
    }
    // Fewer places are there already.
    registry.reserve(7).is_ok() && registry.len() == most
}

#[test]
fn with_ample_memory_places_are_given(rt: HostRuntime) {
    let mut registry = Registry::new(rt.alloc(), 1000);
    assert!(rt; grows_to(&mut registry, rt.alloc(), 200));
}
