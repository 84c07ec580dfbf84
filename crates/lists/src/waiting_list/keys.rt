// Keys by which those that wait are found, in order.
ghost use Rattle.std.specs.Prelude.{◌≡◌, ◌+◌, ◌<◌, ◌≤◌, IfOk, IfSome, IsTrue, count_by, false, length, true};
ghost use Rattle.lwp_types.specs.CountLaws.{one};
ghost use Rattle.std.specs.List.{find, insert, remove};
ghost use Rattle.std.specs.VecDeque.{deque_capacity};
ghost use Rattle.lists.specs.WaitingList.Keys.{GoesBack, GoesForward, IsAhead, IsBehind, IsEnd, IsFit, IsPlace, IsSorted, IsStart, StandsAt, Walked, is_before, is_key, is_of, place_in};

use crate::waiting_list::pieces;
use std::collections::VecDeque;

/// What one waits for or who it is, the priority with which it waits, and when it came.
#[derive(Clone, Copy)]
pub struct Key {
    pub what: u64,
    pub prio: u32,
    pub arrival: u64,
}

// How many others make room one by one for a key that goes elsewhere.
pub const STEPS: usize = 16;

// Keys of the same thing stand together, those of a greater priority first, and among these those that came earlier.
#[inline(always)]
pub fn is_before(key: Key, other: Key) -> bool
    ensures { result ≡ is_before key other }
{
    if key.what != other.what {
        return key.what < other.what;
    }
    if key.prio != other.prio {
        return other.prio < key.prio;
    }
    key.arrival < other.arrival
}

// Whether it is the same key.
#[inline(always)]
fn is_same(key: Key, other: Key) -> bool
    ensures { result ≡ is_key other key }
{
    key.what == other.what && (key.prio == other.prio && key.arrival == other.arrival)
}

// All keys, where they lie in one piece.
#[inline(always)]
fn in_piece(keys: &VecDeque<Key>) -> Option<&[Key]>
    ensures { IfSome result (λ piece. piece.now ≡ keys.now.items) }
{
    let (first, rest) = keys.as_slices();
    if rest.is_empty() { Some(first) } else { None }
}

// Where the key stands, or belongs, by halving: in one piece with no look at where the ring ends.
fn place_by_halves(keys: &VecDeque<Key>, key: Key) -> usize
    requires { IsSorted keys.now.items }
    ensures { IsPlace key keys.now.items result }
{
    match in_piece(keys) {
        Some(piece) => piece.partition_point(|other| is_before(*other, key)),
        None => keys.partition_point(|other| is_before(*other, key)),
    }
}

// Whether the key belongs after all others.
#[inline(always)]
fn goes_last(keys: &VecDeque<Key>, key: Key) -> bool
    requires { IsSorted keys.now.items }
    ensures { IsTrue result → IsPlace key keys.now.items (length keys.now.items) }
{
    match keys.back() {
        Some(last) => is_before(*last, key),
        None => true,
    }
}

// Whether the key stands before all others, if it stands there.
#[inline(always)]
fn stands_first(keys: &VecDeque<Key>, key: Key) -> bool
    requires { IsSorted keys.now.items }
    ensures { IsTrue result → IsPlace key keys.now.items 0 }
{
    match keys.front() {
        Some(first) => !is_before(*first, key),
        None => true,
    }
}

// One key more, there.
#[inline(always)]
fn put(keys: &mut VecDeque<Key>, at: usize, key: Key)
    requires within { at ≤ length keys.old.items }
    requires room { length keys.old.items < deque_capacity keys.old }
    ensures items { keys.new.items ≡ insert keys.old.items at key }
    ensures capacity { deque_capacity keys.old ≤ deque_capacity keys.new }
{
    if at == keys.len() {
        keys.push_back_reserved(key);
    } else {
        // There is room, so no memory is asked for.
        let _ = keys.insert(at, key);
    }
}

// One key less, the one there.
#[inline(always)]
fn take_out(keys: &mut VecDeque<Key>, at: usize)
    requires { at < length keys.old.items }
    ensures items { keys.new.items ≡ remove keys.old.items at }
    ensures capacity { deque_capacity keys.new ≡ deque_capacity keys.old }
{
    if at == 0 {
        keys.pop_front();
    } else {
        keys.remove(at);
    }
}

// One key more, where halving says that it belongs.
#[inline(never)]
fn add_within(keys: &mut VecDeque<Key>, key: Key)
    requires sorted { IsSorted keys.old.items }
    requires room { length keys.old.items < deque_capacity keys.old }
    ensures sorted { IsSorted keys.new.items }
    ensures counts { (k : Key) →
        count_by (is_key k) keys.new.items ≡ count_by (is_key k) keys.old.items + one (is_key k key) }
    ensures len { length keys.new.items ≡ length keys.old.items + 1 }
    ensures capacity { deque_capacity keys.old ≤ deque_capacity keys.new }
{
    let at = place_by_halves(keys, key);
    put(keys, at, key);
}

// One key more, where it belongs: at a look where it is the last.
#[inline(always)]
pub fn add(keys: &mut VecDeque<Key>, key: Key)
    requires sorted { IsSorted keys.old.items }
    requires room { length keys.old.items < deque_capacity keys.old }
    ensures sorted { IsSorted keys.new.items }
    ensures counts { (k : Key) →
        count_by (is_key k) keys.new.items ≡ count_by (is_key k) keys.old.items + one (is_key k key) }
    ensures len { length keys.new.items ≡ length keys.old.items + 1 }
    ensures capacity { deque_capacity keys.old ≤ deque_capacity keys.new }
{
    if goes_last(keys, key) {
        let end = keys.len();
        put(keys, end, key);
    } else {
        add_within(keys, key);
    }
}

// One key less, found by halving.
#[inline(never)]
fn take_within(keys: &mut VecDeque<Key>, key: Key)
    requires sorted { IsSorted keys.old.items }
    requires there { 1 ≤ count_by (is_key key) keys.old.items }
    ensures sorted { IsSorted keys.new.items }
    ensures counts { (k : Key) →
        count_by (is_key k) keys.new.items + one (is_key k key) ≡ count_by (is_key k) keys.old.items }
    ensures len { length keys.new.items + 1 ≡ length keys.old.items }
    ensures capacity { deque_capacity keys.new ≡ deque_capacity keys.old }
{
    let at = place_by_halves(keys, key);
    take_out(keys, at);
}

// One key less: at a look where it is the first.
#[inline(always)]
pub fn take(keys: &mut VecDeque<Key>, key: Key)
    requires sorted { IsSorted keys.old.items }
    requires there { 1 ≤ count_by (is_key key) keys.old.items }
    ensures sorted { IsSorted keys.new.items }
    ensures counts { (k : Key) →
        count_by (is_key k) keys.new.items + one (is_key k key) ≡ count_by (is_key k) keys.old.items }
    ensures len { length keys.new.items + 1 ≡ length keys.old.items }
    ensures capacity { deque_capacity keys.new ≡ deque_capacity keys.old }
{
    if stands_first(keys, key) {
        take_out(keys, 0);
    } else {
        take_within(keys, key);
    }
}

// Whether the key may stand after the one before that place, if there is one.
#[inline(always)]
fn is_behind(keys: &VecDeque<Key>, at: usize, key: Key) -> bool
    requires { at < length keys.now.items }
    ensures stays { result ≡ true → IsBehind key keys.now.items at }
    ensures goes { result ≡ false → GoesForward key keys.now.items at }
{
    at == 0 || !is_before(key, keys[at - 1])
}

// Whether the key may stand before the one after that place, if there is one.
#[inline(always)]
fn is_ahead(keys: &VecDeque<Key>, at: usize, key: Key) -> bool
    requires { at < length keys.now.items }
    ensures stays { result ≡ true → IsAhead key keys.now.items at }
    ensures goes { result ≡ false → GoesBack key keys.now.items at }
{
    at + 1 == keys.len() || !is_before(keys[at + 1], key)
}

// The key there gives way to another, which goes where it belongs.
#[inline(never)]
fn replace(keys: &mut VecDeque<Key>, at: usize, key: Key)
    requires within { at < length keys.old.items }
    requires sorted { IsSorted (remove keys.old.items at) }
    requires room { length keys.old.items ≤ deque_capacity keys.old }
    ensures sorted { IsSorted keys.new.items }
    ensures counts { (k : Key) →
        count_by (is_key k) keys.new.items
        ≡ count_by (is_key k) (remove keys.old.items at) + one (is_key k key) }
    ensures len { length keys.new.items ≡ length keys.old.items }
    ensures capacity { deque_capacity keys.old ≤ deque_capacity keys.new }
{
    take_out(keys, at);
    add(keys, key);
}

// The key there gives way to another that belongs no further back: those that it belongs before make room one by one,
// where they are few.
#[inline(always)]
fn go_forward(keys: &mut VecDeque<Key>, from: usize, key: Key) -> usize
    requires within { from < length keys.old.items }
    requires sorted { IsSorted (remove keys.old.items from) }
    requires ahead { IsAhead key keys.old.items from }
    requires room { length keys.old.items ≤ deque_capacity keys.old }
    ensures sorted { IsSorted keys.new.items }
    ensures counts { (k : Key) →
        count_by (is_key k) keys.new.items
        ≡ count_by (is_key k) (remove keys.old.items from) + one (is_key k key) }
    ensures len { length keys.new.items ≡ length keys.old.items }
    ensures capacity { deque_capacity keys.old ≤ deque_capacity keys.new }
{
    let mut at = from;
    for _ in 0..STEPS {
        if is_behind(keys, at, key) {
            keys[at] = key;
            return at;
        }
        keys[at] = keys[at - 1];
        at -= 1;
    }
    replace(keys, at, key);
    at
}

// The key there gives way to another that belongs no further forward.
#[inline(always)]
fn go_back(keys: &mut VecDeque<Key>, from: usize, key: Key) -> usize
    requires within { from < length keys.old.items }
    requires sorted { IsSorted (remove keys.old.items from) }
    requires behind { IsBehind key keys.old.items from }
    requires room { length keys.old.items ≤ deque_capacity keys.old }
    ensures sorted { IsSorted keys.new.items }
    ensures counts { (k : Key) →
        count_by (is_key k) keys.new.items
        ≡ count_by (is_key k) (remove keys.old.items from) + one (is_key k key) }
    ensures len { length keys.new.items ≡ length keys.old.items }
    ensures capacity { deque_capacity keys.old ≤ deque_capacity keys.new }
{
    let mut at = from;
    for _ in 0..STEPS {
        if is_ahead(keys, at, key) {
            keys[at] = key;
            return at;
        }
        keys[at] = keys[at + 1];
        at += 1;
    }
    replace(keys, at, key);
    at
}

// A place for another key in place of the one there, or the place to which it came, among keys that lie in one piece.
fn walk(keys: &mut VecDeque<Key>, from: usize, key: Key) -> Result<usize, usize>
    requires within { from < length keys.old.items }
    requires sorted { IsSorted keys.old.items }
    ensures ok { IfOk result (λ at. IsFit key keys.new.items at) }
    ensures walked { Walked keys.old.items from keys.new.items (place_in result) }
    ensures capacity { deque_capacity keys.new ≡ deque_capacity keys.old }
{
    pieces::walk(keys.make_contiguous(), from, key)
}

// The key there becomes another, which goes where it belongs, where all lie in one piece. The answer is where that is, or where
// it came by the way.
#[inline(never)]
fn change_in_piece(keys: &mut VecDeque<Key>, at: usize, after: Key) -> usize
    requires within { at < length keys.old.items }
    requires sorted { IsSorted keys.old.items }
    requires room { length keys.old.items ≤ deque_capacity keys.old }
    ensures sorted { IsSorted keys.new.items }
    ensures counts { (k : Key) →
        count_by (is_key k) keys.new.items
        ≡ count_by (is_key k) (remove keys.old.items at) + one (is_key k after) }
    ensures len { length keys.new.items ≡ length keys.old.items }
    ensures capacity { deque_capacity keys.old ≤ deque_capacity keys.new }
{
    match walk(keys, at, after) {
        Ok(place) => {
            keys[place] = after;
            place
        }
        Err(place) => {
            replace(keys, place, after);
            place
        }
    }
}

// The key that stands there becomes another, which goes where it belongs, in however many pieces the keys lie.
#[inline(always)]
fn change_in_ring(keys: &mut VecDeque<Key>, at: usize, key: Key, after: Key) -> usize
    requires at { StandsAt key keys.old.items at }
    requires sorted { IsSorted keys.old.items }
    requires room { length keys.old.items ≤ deque_capacity keys.old }
    ensures sorted { IsSorted keys.new.items }
    ensures counts { (k : Key) →
        count_by (is_key k) keys.new.items
        ≡ count_by (is_key k) (remove keys.old.items at) + one (is_key k after) }
    ensures len { length keys.new.items ≡ length keys.old.items }
    ensures capacity { deque_capacity keys.old ≤ deque_capacity keys.new }
{
    if is_before(after, key) {
        go_forward(keys, at, after)
    } else {
        go_back(keys, at, after)
    }
}

// Where the key stands: at a look where it is likely to, and else by halving.
#[inline(always)]
fn place_of(keys: &VecDeque<Key>, likely: usize, key: Key) -> usize
    requires sorted { IsSorted keys.now.items }
    requires there { 1 ≤ count_by (is_key key) keys.now.items }
    ensures { StandsAt key keys.now.items result }
{
    match keys.get(likely) {
        Some(other) if is_same(*other, key) => likely,
        _ => place_by_halves(keys, key),
    }
}

// One key becomes another, which goes from its place to where it belongs. The answer is a place at which it is likely to stand.
#[inline(always)]
pub fn change(keys: &mut VecDeque<Key>, likely: usize, key: Key, after: Key) -> usize
    requires sorted { IsSorted keys.old.items }
    requires there { 1 ≤ count_by (is_key key) keys.old.items }
    requires room { length keys.old.items ≤ deque_capacity keys.old }
    ensures sorted { IsSorted keys.new.items }
    ensures counts { (k : Key) →
        count_by (is_key k) keys.new.items + one (is_key k key)
        ≡ count_by (is_key k) keys.old.items + one (is_key k after) }
    ensures len { length keys.new.items ≡ length keys.old.items }
    ensures capacity { deque_capacity keys.old ≤ deque_capacity keys.new }
{
    let at = place_of(keys, likely, key);
    if in_piece(keys).is_some() {
        change_in_piece(keys, at, after)
    } else {
        change_in_ring(keys, at, key, after)
    }
}

// Where the keys of this begin, by halving.
pub fn start_of(keys: &VecDeque<Key>, what: u64) -> usize
    requires { IsSorted keys.now.items }
    ensures { IsStart what keys.now.items result }
{
    keys.partition_point(|key| key.what < what)
}

// Where the keys of this end, by halving.
pub fn end_of(keys: &VecDeque<Key>, what: u64) -> usize
    requires { IsSorted keys.now.items }
    ensures { IsEnd what keys.now.items result }
{
    keys.partition_point(|key| key.what <= what)
}

// The first key of this, by halving.
#[inline(never)]
fn first_by_halves(keys: &VecDeque<Key>, what: u64) -> Option<Key>
    requires { IsSorted keys.now.items }
    ensures { result ≡ find (is_of what) keys.now.items }
{
    match keys.get(start_of(keys, what)) {
        Some(key) if key.what == what => Some(*key),
        _ => None,
    }
}

// The first key of this: at a look where it stands before all others, or there is none that could.
#[inline(always)]
pub fn first_of(keys: &VecDeque<Key>, what: u64) -> Option<Key>
    requires { IsSorted keys.now.items }
    ensures { result ≡ find (is_of what) keys.now.items }
{
    match keys.front() {
        Some(first) if first.what < what => first_by_halves(keys, what),
        Some(first) if first.what == what => Some(*first),
        _ => None,
    }
}
