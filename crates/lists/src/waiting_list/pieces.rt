// Keys that lie in one piece: how one goes past its neighbours, where they are few. A step over the ring costs twice as much,
// and to bring the ring into one piece first would move all keys.
ghost use Rattle.std.specs.Prelude.{◌≡◌, ◌<◌, IfOk, false, length, true};
ghost use Rattle.lists.specs.WaitingList.Keys.{GoesBack, GoesForward, IsAhead, IsBehind, IsFit, IsSorted, Walked, place_in};

use crate::waiting_list::keys::{Key, STEPS, is_before};

// Whether the key may stand after the one before that place, if there is one.
#[inline(always)]
fn is_behind(keys: &[Key], at: usize, key: Key) -> bool
    requires { at < length keys.now }
    ensures stays { result ≡ true → IsBehind key keys.now at }
    ensures goes { result ≡ false → GoesForward key keys.now at }
{
    at == 0 || !is_before(key, keys[at - 1])
}

// Whether the key may stand before the one after that place, if there is one.
#[inline(always)]
fn is_ahead(keys: &[Key], at: usize, key: Key) -> bool
    requires { at < length keys.now }
    ensures stays { result ≡ true → IsAhead key keys.now at }
    ensures goes { result ≡ false → GoesBack key keys.now at }
{
    at + 1 == keys.len() || !is_before(keys[at + 1], key)
}

// A place for a key that belongs no further back than that place: those that it belongs before make room one by one. Where
// they are too many it is the place to which it came.
fn go_forward(keys: &mut [Key], from: usize, key: Key) -> Result<usize, usize>
    requires within { from < length keys.old }
    requires ahead { IsAhead key keys.old from }
    ensures ok { IfOk result (λ at. IsFit key keys.new at) }
    ensures walked { Walked keys.old from keys.new (place_in result) }
{
    let mut at = from;
    for _ in 0..STEPS {
        if is_behind(keys, at, key) {
            return Ok(at);
        }
        keys[at] = keys[at - 1];
        at -= 1;
    }
    Err(at)
}

// A place for a key that belongs no further forward than that place, found in the same way.
fn go_back(keys: &mut [Key], from: usize, key: Key) -> Result<usize, usize>
    requires within { from < length keys.old }
    requires behind { IsBehind key keys.old from }
    ensures ok { IfOk result (λ at. IsFit key keys.new at) }
    ensures walked { Walked keys.old from keys.new (place_in result) }
{
    let mut at = from;
    for _ in 0..STEPS {
        if is_ahead(keys, at, key) {
            return Ok(at);
        }
        keys[at] = keys[at + 1];
        at += 1;
    }
    Err(at)
}

// A place for a key, wherever it belongs, in place of the one there.
pub fn walk(keys: &mut [Key], from: usize, key: Key) -> Result<usize, usize>
    requires within { from < length keys.old }
    requires sorted { IsSorted keys.old }
    ensures ok { IfOk result (λ at. IsFit key keys.new at) }
    ensures walked { Walked keys.old from keys.new (place_in result) }
{
    if is_ahead(keys, from, key) {
        go_forward(keys, from, key)
    } else {
        go_back(keys, from, key)
    }
}
