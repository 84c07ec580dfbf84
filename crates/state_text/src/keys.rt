// The keys of a list's entries, and where each stands.
ghost use Rattle.std.specs.Prelude.{◌≡◌, ◌≤◌, IfOk, length};
ghost use Rattle.state_text.specs.Keys.{IsNext, code, codes_from, place_under};

use lwp_types::NoMemory;
use std::alloc::Global;
use std::marker::Model;

/// The keys of a list's entries, seen as their list. Where a key comes next is found by halving.
#[derive(Drop)]
pub(crate) struct Keys {
    keys: Vec<u64>,
    // The key and the place of each entry, as one number; they rise.
    codes: Vec<u128>,
}

impl Model for Keys {
    ghost use Rattle.std.specs.Prelude.{ℕ, List};
    ghost use Rattle.state_text.specs.Keys.{AreCodes};

    ghost Value = { List ℕ };

    ghost view = { λ k. k.keys.items };

    ghost invariant = { λ k. AreCodes k.keys.items k.codes.items };
}

// How many places there may be under one key.
const PLACES: u128 = 18_446_744_073_709_551_616;

#[inline(always)]
fn code(key: u64, place: usize) -> u128
    ensures { result ≡ code key place }
{
    u128::from(key) * PLACES + place as u128
}

// The place, if it is one of this key.
#[inline(always)]
fn place_under(key: u64, code: u128) -> Option<usize>
    ensures { result ≡ place_under key code }
{
    let place = code.saturating_sub(u128::from(key) * PLACES);
    if place < PLACES {
        Some(place as usize)
    } else {
        None
    }
}

// The keys with their places, in the order of these.
fn codes_of(alloc: Global, keys: &[u64]) -> Result<Vec<u128>, NoMemory>
    ensures same { IfOk result (λ codes. codes.items ≡ codes_from 0 keys.now) }
    ensures few { length keys.now ≤ 18446744073709551616 }
{
    let mut codes = Vec::new(alloc);
    for i in 0..keys.len() {
        codes.push(code(keys[i], i))?;
    }
    Ok(codes)
}

impl Keys {
    /// These keys.
    pub(crate) fn of(alloc: Global, keys: Vec<u64>) -> Result<Keys, NoMemory>
        ensures { IfOk result (λ all. all ≡ keys.items) }
    {
        let mut codes = codes_of(alloc, &keys)?;
        codes.as_mut_slice().sort_unstable();
        Ok(Keys { keys, codes })
    }

    /// The first place of the key that is not before `from`.
    pub(crate) fn next(&self, key: u64, from: usize) -> Option<usize>
        ensures { IsNext self.now key from result }
    {
        let least = code(key, from);
        let at = self.codes.partition_point(|code| *code < least);
        match self.codes.get(at) {
            Some(code) => place_under(key, *code),
            None => None,
        }
    }
}
