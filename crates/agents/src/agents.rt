// The agents.
ghost use Rattle.std.specs.Prelude.{◌≡◌, ◌<◌, ◌≤◌, length, option_map, IfNone, IfSome, IsOk, IsTrue, IfOk, OnOk, OnErr};
ghost use Rattle.std.specs.Slice.Scan.{HoldsNowhere, IsFirstPlace};
ghost use Rattle.lwp_types.specs.Agents.{is_armed};
ghost use Rattle.lwp_types.specs.State.{agent_numbers, agent_of, all_below};
ghost use Rattle.agents.specs.Roster.{IsInBirthOrder, after_create, after_destroy, after_hold, after_release, after_reserve, first_of, is_idle, is_listed, no_agents, nth_of, without_first};

use crate::board::{Board, Tally, one_if};
use crate::index::Index;
use crate::rows::{copied, number_of, numbers, row_of, set_holding, take_out};
use lists::cloned_exactly;
use lwp_types::{AgentRow, IdList, NoMemory, Sequence, Tid};
use std::alloc::Global;
use std::marker::Model;

/// The live agents, in birth order.
pub struct Agents {
    rows: Vec<AgentRow>,
    // The agents of each event and of each owner, so that nobody looks at those of others.
    by_event: Index,
    by_owner: Index,
    // How many agents each event has, and how many of them hold a message.
    board: Board,
    // How many agents there may be with no more memory.
    places: usize,
}

// PROVER: written by hand, so that a function that drops one calls this instead of repeating its proof.
impl Drop for Agents {
    fn drop(self) {
        let Agents {
            rows: _,
            by_event: _,
            by_owner: _,
            board: _,
            places: _,
        } = self;
    }
}

impl Model for Agents {
    ghost use Rattle.std.specs.Prelude.{vec_capacity};
    ghost use Rattle.agents.specs.Roster.{Roster};
    ghost use Rattle.agents.specs.Kept.{IsKept};

    ghost Value = { Roster };

    ghost view = { λ a. record { agents = a.rows.items; places = a.places } };

    ghost invariant = { λ a. IsKept (record { agents = a.rows.items; places = a.places })
        (vec_capacity a.rows) a.by_event a.by_owner a.board };
}

impl Agents {
    /// No agents, and no places.
    pub fn new(alloc: Global) -> Agents
        ensures { result ≡ no_agents }
    {
        Agents {
            rows: Vec::new(alloc),
            by_event: Index::new(alloc),
            by_owner: Index::new(alloc),
            board: Board::new(),
            places: 0,
        }
    }

    /// The same agents, in memory of their own.
    pub fn again(&self) -> Result<Agents, NoMemory>
        ensures { IfOk result (λ copy. copy ≡ self.now) }
    {
        Ok(Agents {
            rows: cloned_exactly(&self.rows)?,
            by_event: self.by_event.again()?,
            by_owner: self.by_owner.again()?,
            board: self.board.again(),
            places: self.places,
        })
    }

    /// Makes places for `n` agents in all; so many can then be created with no more memory.
    pub fn reserve(&mut self, n: usize) -> Result<(), NoMemory>
        ensures ok { OnOk result (self.new ≡ after_reserve self.old n) }
        ensures err { OnErr result (self.new ≡ self.old) }
        ensures has_room { n ≤ self.old.places → IsOk result }
    {
        if n <= self.places {
            return Ok(());
        }
        self.rows.reserve(n - self.rows.len())?;
        self.by_event.reserve(n)?;
        self.by_owner.reserve(n)?;
        self.places = n;
        Ok(())
    }

    /// One agent more, of `owner` and for an event from 1 to 32, which may have others. It holds no message.
    pub fn create(&mut self, a: Tid, event: u8, owner: Tid)
        requires least { 1 ≤ event }
        requires most { event ≤ 32 }
        requires newest { IsTrue (all_below a (agent_numbers self.old.agents)) }
        requires room { length self.old.agents < self.old.places }
        ensures { self.new ≡ after_create self.old a event owner }
    {
        self.rows.push_reserved(AgentRow {
            number: a,
            event,
            owner,
            holding: false,
        });
        self.by_event.add(u64::from(event), number_of(a));
        self.by_owner.add(number_of(owner), number_of(a));
        let before = self.board.tally(event);
        let agents = before.agents + 1;
        self.board.put(event, Tally { agents, ..before });
    }

    /// The event's `i`-th agent in birth order, from 0, if it has so many.
    pub fn nth_of(&self, event: u8, i: usize) -> Option<Tid>
        ensures { result ≡ nth_of self.now.agents event i }
    {
        let number = self.by_event.nth(u64::from(event), i)?;
        Some(Tid { number })
    }

    /// How many agents there are.
    pub fn len(&self) -> usize
        ensures { result ≡ length self.now.agents }
    {
        self.rows.len()
    }

    /// The thread that gets the agent's messages, if there is such an agent.
    pub fn owner_of(&self, a: Tid) -> Option<Tid>
        ensures { result ≡ option_map (λ row. row.owner) (agent_of self.now.agents a) }
    {
        row_of(&self.rows, a).map(|row| row.owner)
    }

    /// Whether the event can be delivered: it has an agent, and none of its agents holds a message.
    pub fn armed(&self, event: u8) -> bool
        ensures { result ≡ is_armed self.now.agents event }
    {
        self.board.is_ready(event)
    }

    /// The first event from `from` on that can be delivered, if there is one below 32.
    pub fn next_armed(&self, from: u8) -> Option<u8>
        ensures none { IfNone result (HoldsNowhere (is_armed self.now.agents) from 32) }
        ensures below { IfSome result (λ event. event < 32) }
        ensures first { IfSome result
            (λ event. IsFirstPlace (is_armed self.now.agents) from 32 event) }
    {
        self.board.next_ready(from)
    }

    /// The agent has a message, which it holds until the reply.
    pub fn hold(&mut self, a: Tid)
        requires { IsTrue (is_idle self.old.agents a) }
        ensures { self.new ≡ after_hold self.old a }
    {
        if let Some(row) = set_holding(&mut self.rows, a, true) {
            let before = self.board.tally(row.event);
            let holding = before.holding + 1;
            self.board.put(row.event, Tally { holding, ..before });
        }
    }

    /// The agent's message is replied to.
    pub fn release(&mut self, a: Tid)
        requires { IsTrue (is_listed self.old.agents a) }
        ensures { self.new ≡ after_release self.old a }
    {
        if let Some(row) = set_holding(&mut self.rows, a, false) {
            let before = self.board.tally(row.event);
            let holding = before.holding - one_if(row.holding);
            self.board.put(row.event, Tally { holding, ..before });
        }
    }

    /// The agent is gone.
    pub fn destroy(&mut self, a: Tid)
        requires { IsTrue (is_listed self.old.agents a) }
        ensures { self.new ≡ after_destroy self.old a }
    {
        if let Some(row) = take_out(&mut self.rows, a) {
            self.by_event.take(u64::from(row.event), number_of(a));
            self.by_owner.take(number_of(row.owner), number_of(a));
            let before = self.board.tally(row.event);
            let agents = before.agents - 1;
            let others_holding = before.holding - one_if(row.holding);
            let rest = Tally {
                agents,
                holding: others_holding,
            };
            self.board.put(row.event, rest);
        }
    }

    /// The oldest agent of the thread is gone; the answer is which. Called until None, it leaves the thread without agents.
    pub fn forget_owner(&mut self, owner: Tid) -> Option<Tid>
        ensures value { result ≡ option_map (λ row. row.number) (first_of self.old.agents owner) }
        ensures after { self.new ≡ without_first self.old owner }
    {
        let number = self.by_owner.nth(number_of(owner), 0)?;
        let agent = Tid { number };
        self.destroy(agent);
        Some(agent)
    }

    /// All agents, in birth order.
    pub fn list(&self) -> Result<IdList, NoMemory>
        ensures value { IfOk result (λ ids. ids ≡ agent_numbers self.now.agents) }
        ensures in_birth_order { IsInBirthOrder self.now.agents }
    {
        numbers(*self.rows.allocator(), &self.rows)
    }

    /// A copy of all that is kept of the agents, in birth order.
    pub fn rows(&self) -> Result<Sequence<AgentRow>, NoMemory>
        ensures { IfOk result (λ rows. rows ≡ self.now.agents) }
    {
        copied(*self.rows.allocator(), &self.rows)
    }
}
