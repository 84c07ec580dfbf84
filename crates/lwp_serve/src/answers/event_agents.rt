// The agents of an event, each found by its number.
ghost use Rattle.std.specs.Prelude.{◌≡◌, ◌++◌, ◌∷◌, ◌<◌, [], IsTrue, OnOk};
ghost use Rattle.std.specs.List.{AllByRecursion};
ghost use Rattle.lwp_serve.specs.Answers.Replies.{is_among};
ghost use Rattle.lwp_serve.specs.Answers.Rising.{AreRising};

use lwp_types::{NoMemory, Tid};
use std::alloc::Global;
use std::marker::Model;

/// The numbers of agents, as they were born.
#[derive(Drop)]
pub(crate) struct Agents {
    numbers: Vec<u64>,
    // Whether each is greater than those before it, as a pod gives them. Then one is found without going over the others.
    rising: bool,
}

impl Model for Agents {
    ghost use Rattle.std.specs.Prelude.{IsTrue, List, ℕ};
    ghost use Rattle.lwp_serve.specs.Answers.Rising.{AreRising};

    ghost Value = { List ℕ };

    ghost view = { λ a. a.numbers.items };

    ghost invariant = { λ a. IsTrue a.rising → AreRising a.numbers.items };
}

// Whether all numbers are less, if they rise.
fn are_less(numbers: &Vec<u64>, number: u64) -> bool
    ensures { IsTrue result → AreRising numbers.now.items →
        AllByRecursion (λ n. n < number) numbers.now.items }
{
    let count = numbers.len();
    count == 0 || numbers[count - 1] < number
}

// Whether a number is one of these, which rise.
fn is_found(numbers: &[u64], number: u64) -> bool
    requires { AreRising numbers.now }
    ensures { result ≡ is_among numbers.now number }
{
    numbers.binary_search(&number).is_ok()
}

// Whether a number is one of these, in any order.
fn is_scanned(numbers: &[u64], number: u64) -> bool
    ensures { result ≡ is_among numbers.now number }
{
    numbers.contains(&number)
}

impl Agents {
    /// None.
    pub(crate) fn new(alloc: Global) -> Agents
        ensures { result ≡ [] }
    {
        Agents {
            numbers: Vec::new(alloc),
            rising: true,
        }
    }

    /// One more, the last.
    pub(crate) fn push(&mut self, agent: Tid) -> Result<(), NoMemory>
        ensures { OnOk result (self.new ≡ self.old ++ agent ∷ []) }
    {
        let number = agent.number;
        self.rising = self.rising && are_less(&self.numbers, number);
        self.numbers.push(number)?;
        Ok(())
    }

    /// Whether the thread is one of them.
    pub(crate) fn has(&self, tid: Tid) -> bool
        ensures { result ≡ is_among self.now tid }
    {
        if self.rising {
            is_found(&self.numbers, tid.number)
        } else {
            is_scanned(&self.numbers, tid.number)
        }
    }
}
