// The effects of one step.
ghost use Rattle.std.specs.Prelude.{◌≡◌, ◌<◌, ◌≤◌, ◌+◌, [], ◌∷◌, ◌++◌, length, option_map, IfOk, MatchOption, slice_index_or, slice_set, vec_capacity};
ghost use Rattle.lwp_types.specs.Case.{answer_by};
ghost use Rattle.lwp_types.specs.Effects.{effect_places};
ghost use Rattle.lwp_types.specs.Step.{own_effects};
ghost use Rattle.lwp_types.specs.declared.call.Effect.TheVariants as effect;

use crate::call::Effect;
use crate::{Answer, Letter, LwpErr, NoMemory, Text, Tid};
use std::alloc::Global;
use std::marker::Model;

/// The number of effects that a list of them has room for: more than any step has.
pub const PLACES: usize = 2048;

/// The effects of a step, first to last. All memory is taken at the making.
#[derive(Drop)]
pub struct Effects<'s> {
    places: Vec<Effect<'s>>,
}

impl<'s> Model for Effects<'s> {
    ghost use Rattle.std.specs.Prelude.{List, ◌≤◌, vec_capacity};
    ghost use Rattle.lwp_types.specs.Effects.{effect_places};
    ghost use Rattle.lwp_types.specs.declared.call.Effect.{Effect};

    ghost Value = { List Effect };

    ghost view = { λ e. e.places.items };

    ghost invariant = { λ e. effect_places ≤ vec_capacity e.places };
}

// Takes all out, the last one first. Mostly they are one or two, and the list's own `clear` costs more for these.
#[inline(always)]
fn empty(places: &mut Vec<Effect>)
    ensures items { places.new.items ≡ [] }
    ensures capacity { vec_capacity places.new ≡ vec_capacity places.old }
{
    while !places.is_empty() {
        let _ = places.pop();
    }
}

// Equal effects, and as much room for more.
fn list_again<'s>(places: &Vec<Effect<'s>>) -> Result<Vec<Effect<'s>>, NoMemory>
    ensures items { IfOk result (λ copy. copy.items ≡ places.now.items) }
    ensures room { IfOk result (λ copy. vec_capacity copy ≡ vec_capacity places.now) }
{
    let mut copy = Vec::with_capacity(*places.allocator(), places.capacity())?;
    for effect in places.iter() {
        copy.push_reserved(effect.again()?);
    }
    Ok(copy)
}

impl<'s> Effects<'s> {
    /// None, with places for 2,048.
    pub fn new(alloc: Global) -> Result<Effects<'s>, NoMemory>
        ensures { IfOk result (λ e. e ≡ []) }
    {
        let places = Vec::with_capacity(alloc, PLACES)?;
        Ok(Effects { places })
    }

    /// Equal effects, with places for as many.
    pub fn again(&self) -> Result<Effects<'s>, NoMemory>
        ensures { IfOk result (λ copy. copy ≡ self.now) }
    {
        Ok(Effects {
            places: list_again(&self.places)?,
        })
    }

    /// How many there are.
    pub fn len(&self) -> usize
        ensures { result ≡ length self.now }
    {
        self.places.len()
    }

    /// The effect at place `i`, counted from 0.
    pub fn get(&self, i: usize) -> &Effect<'s>
        requires { i < length self.now }
        ensures { result.now ≡ slice_index_or self.now i result.now }
    {
        &self.places[i]
    }

    /// Takes the first, if there is one, and moves up the others.
    pub fn pop_front(&mut self) -> Option<Effect<'s>>
        ensures { MatchOption result ((self.old ≡ []) × (self.new ≡ []))
            (λ e. self.old ≡ e ∷ self.new) }
    {
        if self.places.is_empty() {
            return None;
        }
        Some(self.places.remove(0))
    }

    /// One effect more, at the end. It takes no memory.
    pub fn push(&mut self, e: Effect<'s>)
        requires { length self.old < effect_places }
        ensures { self.new ≡ self.old ++ e.entry ∷ [] }
    {
        self.places.push_reserved(e);
    }

    /// Another effect stands in the place of the one at `i`, counted from 0.
    pub fn set(&mut self, i: usize, e: Effect<'s>)
        requires { i < length self.old }
        ensures { self.new ≡ slice_set self.old i e.entry }
    {
        self.places[i] = e;
    }

    /// All effects of another list go after these, in one piece, and none is left there. It takes no memory.
    pub fn append(&mut self, from: &mut Effects<'s>)
        requires { length self.old + length from.old ≤ effect_places }
        ensures after { self.new ≡ self.old ++ from.old }
        ensures rest { from.new ≡ [] }
    {
        let _ = self.places.append(&mut from.places);
    }

    /// The answer that a thread is given, at the end. It takes no memory.
    pub fn answered(&mut self, tid: Tid, answer: Answer<'s>)
        requires { length self.old < effect_places }
        ensures { self.new ≡ self.old ++ effect.Answered tid answer.entry ∷ [] }
    {
        self.push(Effect::Answered { tid, answer });
    }

    /// What a thread's call came to, a number or the error that it is refused for, at the end. It takes no memory.
    #[inline(always)]
    pub fn done(&mut self, tid: Tid, done: Result<i64, LwpErr>)
        requires { length self.old < effect_places }
        ensures { self.new ≡ self.old ++ effect.Answered tid (answer_by done) ∷ [] }
    {
        self.answered(tid, Answer::of(done));
    }

    /// What a thread's call came to, at the end, if the thread has an answer now. It takes no memory.
    pub fn done_now(&mut self, tid: Tid, own: Option<Result<i64, LwpErr>>)
        requires { length self.old < effect_places }
        ensures { self.new ≡ self.old ++ own_effects tid (option_map answer_by own) }
    {
        if let Some(done) = own {
            self.done(tid, done);
        }
    }

    /// The letter that a thread gets, at the end. It takes no memory.
    pub fn lettered(&mut self, tid: Tid, letter: &Letter<'s>)
        requires { length self.old < effect_places }
        ensures { self.new
            ≡ self.old
            ++ effect.Answered tid
            (Answer.Letter letter.now.from letter.now.text letter.now.room)
            ∷ [] }
    {
        self.answered(tid, Answer::letter(letter));
    }

    /// The reply that a thread gets to its letter, at the end. It takes no memory.
    pub fn replied(&mut self, tid: Tid, text: &Text<'s>)
        requires { length self.old < effect_places }
        ensures { self.new ≡ self.old ++ effect.Answered tid (Answer.Reply text.now) ∷ [] }
    {
        self.answered(tid, Answer::Reply(text.again()));
    }

    /// Forgets all, and keeps the places.
    #[inline(always)]
    pub fn clear(&mut self)
        ensures { self.new ≡ [] }
    {
        empty(&mut self.places);
    }
}
