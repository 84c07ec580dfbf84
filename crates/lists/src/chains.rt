// The lists.
ghost use Rattle.std.specs.Prelude.{List, ℕ, ◌∷◌, ◌++◌, ◌≡◌, ◌≢◌, ◌<◌, ◌≤◌, length, IsOk, IfOk, OnOk, OnErr, IfSome, slice_get};
ghost use Rattle.lists.specs.ChainLists.{after_clear, after_move_before, after_move_to_back, after_remove, empty_lists, items, with_limit};

use crate::chain_links::{Link, enter, grow, leave, next_of, prev_of, reset};
use crate::copies::cloned;
use std::alloc::{AllocError, Global};
use std::marker::Model;

/// A fixed number of lists over keys. The lists are numbered from 0, and the keys from the number of lists, up to a limit.
#[derive(Drop)]
pub struct Chains {
    // Each list is a ring through its head, and a key in no list is a ring by itself. The head of a list is the link at its
    // number, and that of a key at the key.
    links: Vec<Link>,
    heads: usize,
}

impl Model for Chains {
    ghost use Rattle.lists.specs.ChainLists.{Lists};
    ghost use Rattle.lists.specs.ChainLinks.{IsSound, lists_of};

    ghost Value = { Lists };

    ghost view = { λ s. lists_of s.links.items s.heads };

    ghost invariant = { λ s. IsSound s.links.items s.heads };
}

impl Chains {
    /// So many empty lists, and no key yet.
    pub fn new(alloc: Global, lists: usize) -> Result<Chains, AllocError>
        ensures { IfOk result (λ s. s ≡ empty_lists lists) }
    {
        let mut links = Vec::with_capacity(alloc, lists)?;
        grow(&mut links, lists);
        Ok(Chains {
            links,
            heads: lists,
        })
    }

    /// No list and no key, and no memory.
    pub fn bare(alloc: Global) -> Chains
        ensures { result ≡ empty_lists 0 }
    {
        Chains {
            links: Vec::new(alloc),
            heads: 0,
        }
    }

    /// The same lists in memory of their own.
    pub fn again(&self) -> Result<Chains, AllocError>
        ensures { IfOk result (λ copy. copy ≡ self.now) }
    {
        Ok(Chains {
            links: cloned(&self.links)?,
            heads: self.heads,
        })
    }

    /// Each list is empty from now on.
    pub fn clear(&mut self)
        ensures { self.new ≡ after_clear self.old }
    {
        reset(&mut self.links);
    }

    /// Takes memory for each key below `limit`.
    pub fn reserve(&mut self, limit: usize) -> Result<(), AllocError>
        ensures ok { OnOk result (self.new ≡ with_limit self.old limit) }
        ensures err { OnErr result (self.new ≡ self.old) }
        ensures has_room { limit ≤ self.old.limit → IsOk result }
    {
        let len = self.links.len();
        if limit <= len {
            return Ok(());
        }
        self.links.reserve(limit - len)?;
        grow(&mut self.links, limit);
        Ok(())
    }

    /// The first key of a list.
    pub fn first(&self, list: usize) -> Option<usize>
        requires { list < length self.now.lists }
        ensures value { result ≡ slice_get (items self.now list) 0 }
        ensures is_key { IfSome result (λ key. length self.now.lists ≤ key) }
        ensures in_limit { IfSome result (λ key. key < self.now.limit) }
    {
        let first = next_of(&self.links, list);
        if first == list { None } else { Some(first) }
    }

    /// The key after this one in its list.
    pub fn behind(&self, list: usize, key: usize) -> Option<usize>
        requires list_in { list < length self.now.lists }
        requires in_limit { key < self.now.limit }
        ensures { (before after : List ℕ) → items self.now list ≡ before ++ key ∷ after →
            result ≡ slice_get after 0 }
    {
        let behind = next_of(&self.links, key);
        if behind == list { None } else { Some(behind) }
    }

    /// Takes a key out of its list, if it is in one.
    pub fn remove(&mut self, key: usize)
        requires is_key { length self.old.lists ≤ key }
        requires in_limit { key < self.old.limit }
        ensures { self.new ≡ after_remove self.old key }
    {
        leave(&mut self.links, key);
    }

    /// Puts a key at the end of a list, wherever it was.
    pub fn move_to_back(&mut self, list: usize, key: usize)
        requires list_in { list < length self.old.lists }
        requires is_key { length self.old.lists ≤ key }
        requires in_limit { key < self.old.limit }
        ensures { self.new ≡ after_move_to_back self.old list key }
    {
        // The last key already stays, as one that has the list for itself does.
        if prev_of(&self.links, list) == key {
            return;
        }
        leave(&mut self.links, key);
        enter(&mut self.links, key, list);
    }

    /// Puts a key right before another one, wherever it was. Where the other is in no list, the key is in none either.
    pub fn move_before(&mut self, key: usize, other: usize)
        requires is_key { length self.old.lists ≤ key }
        requires in_limit { key < self.old.limit }
        requires other_is_key { length self.old.lists ≤ other }
        requires other_in_limit { other < self.old.limit }
        requires differs { key ≢ other }
        ensures { self.new ≡ after_move_before self.old key other }
    {
        leave(&mut self.links, key);
        enter(&mut self.links, key, other);
    }
}
