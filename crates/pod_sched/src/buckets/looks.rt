// Looks that are counted, and the choice that can take no others.
ghost use Rattle.std.specs.Prelude.{◌≡◌, ◌+◌, ◌*◌, ◌<◌, ◌≤◌, Option, cond, is_some, ℕ};
ghost use Rattle.std.specs.Int.{bit_at};
ghost use Rattle.pod_sched.specs.Buckets.Last.{AreWithin, FindsLast, GivesLast};

use crate::buckets::marks::top_bit;
use std::marker::Model;
use std::sync::ledger::{Blank, Book, Ledger, Share};

/// How many looks were taken. It takes no bytes and no time, and is never lowered.
#[derive(Drop)]
pub struct Steps<L: Ledger> {
    book: Book<L>,
    share: Share<L>,
}

impl<L: Ledger> Model for Steps<L> {
    ghost use Rattle.std.specs.Prelude.{ℕ, ◌<◌};

    ghost Value = { ℕ };

    ghost view = { λ s. s.book.total };

    ghost invariant = { λ s. 0 < s.share.parts };
}

impl<L: Ledger> Steps<L> {
    /// No look yet, told in a ledger of its own.
    pub fn new(blank: Blank) -> Steps<L>
        requires name { blank.name ≡ L.name }
        requires parts { blank.parts ≡ L.parts }
        requires some { 0 < blank.parts }
        ensures { result ≡ 0 }
    {
        let (book, share) = blank.open::<L>();
        Steps { book, share }
    }

    /// One look.
    pub fn tick(&mut self)
        ensures { self.new ≡ self.old + 1 }
    {
        self.book.add(&mut self.share, 1);
    }
}

/// 256 lists, of which each look is told to the ledger `L`: a look at a word of bits, which says of 64 lists whether they
/// have anybody, or at a list, which gives its first.
///
/// Who knows of its lists only that they are these can look at them in no other way, and for a ledger that it doesn't know it
/// can open no other counter.
pub trait Looks<L: Ledger, K> {
    // the first of each list, if it has anybody
    ghost firsts: { Self → ℕ → Option K };

    /// Whether the lists from 64 times the place on have anybody, a bit for each.
    fn word(&self, at: usize, steps: &mut Steps<L>) -> u64
        requires { at < 4 }
        ensures value { (i : ℕ) → i < 64 →
            bit_at result i ≡ cond (is_some (firsts self.now (64 * at + i))) 1 0 }
        ensures cost { steps.new ≡ steps.old + 1 };

    /// The first of a list.
    fn first(&self, list: usize, steps: &mut Steps<L>) -> Option<K>
        requires { list < 256 }
        ensures value { result ≡ firsts self.now list }
        ensures cost { steps.new ≡ steps.old + 1 };
}

// The last of the 64 lists of a word that has anybody.
#[inline(always)]
fn last_of_word<L: Ledger, K, B: Looks<L, K>>(
    lists: &B,
    at: usize,
    steps: &mut Steps<L>,
) -> Option<usize>
    requires { at < 4 }
    ensures last { FindsLast (B.firsts lists.now) (64 * at) (64 * at + 64) result }
    ensures cost { steps.new ≡ steps.old + 1 }
{
    let word = lists.word(at, steps);
    if word == 0 {
        None
    } else {
        Some(64 * at + top_bit(word))
    }
}

// The last of all lists that has anybody.
#[inline(always)]
fn last_of_all<L: Ledger, K, B: Looks<L, K>>(lists: &B, steps: &mut Steps<L>) -> Option<usize>
    ensures last { FindsLast (B.firsts lists.now) 0 256 result }
    ensures cost { steps.new ≤ steps.old + 4 }
{
    if let Some(list) = last_of_word(lists, 3, steps) {
        return Some(list);
    }
    if let Some(list) = last_of_word(lists, 2, steps) {
        return Some(list);
    }
    if let Some(list) = last_of_word(lists, 1, steps) {
        return Some(list);
    }
    last_of_word(lists, 0, steps)
}

/// The first of the last list that has anybody, where only lists from 1 to `most` have. If that is one list, it is looked at
/// straight away. Up to 63 lists are in one word, which is looked at and then a list; and of more, up to four words and then
/// a list. It is told nothing of the lists but by looks that count.
#[inline(always)]
pub fn first_of_last<L: Ledger, K, B: Looks<L, K>>(
    lists: &B,
    most: usize,
    steps: &mut Steps<L>,
) -> Option<K>
    requires least { 1 ≤ most }
    requires within { AreWithin (B.firsts lists.now) most }
    ensures value { GivesLast (B.firsts lists.now) result }
    ensures cost { steps.new ≤ steps.old + 5 }
    ensures cost_by_lists { steps.new ≤ steps.old + most }
{
    let list = if most >= 64 {
        last_of_all(lists, steps)?
    } else if most > 1 {
        last_of_word(lists, 0, steps)?
    } else {
        1
    };
    lists.first(list, steps)
}
