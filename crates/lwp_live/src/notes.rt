// What is known of agents and of the lines they hold, while a session is played.
ghost use Rattle.lists.specs.ThreadIndex.{place_of};
ghost use Rattle.lwp_serve.specs.Answers.Replies.{agent_event};
ghost use Rattle.lwp_live.specs.Answers.{Known, holder_of, event_in, known_after_call, nothing_known, reply_in, reply_lines, reply_of, reply_to};
ghost use Rattle.lwp_live.specs.Telling.{AreNotes, CanNote};
ghost use Rattle.pod_runner.specs.declared.session.Took.{Took};
ghost use Rattle.std.specs.Prelude.{◌≡◌, ◌∷◌, IfOk, OnOk, Option, ℕ};

use lists::Index;
use lwp_types::{Call, NoMemory, Text, Tid};
use pod_runner::{Made, Took};
use std::alloc::Global;
use trace_text::{add_number, add_spaced_text, add_text};

/// An agent, and the event that it waits for.
#[derive(Clone, Copy)]
pub struct AgentOf {
    pub number: u64,
    pub event: u32,
}

/// What a client is told.
#[derive(Drop)]
pub struct Reply<'s> {
    pub client: u8,
    pub text: Text<'s>,
}

/// The agents that were made, each with its event, and of each event whose line was taken last.
#[derive(Drop)]
pub struct Notes {
    pub(crate) agents: Index,
    pub(crate) lasts: Vec<Option<u8>>,
}

// How many events there may be.
const EVENTS: usize = 256;

// The event that a call asks an agent of.
fn agent_event(call: &Call) -> Option<u32>
    ensures { result ≡ agent_event call.now }
{
    match call {
        Call::Agent { event } => Some(*event),
        _ => None,
    }
}

// What a client is told, as a line; no bytes where there is no client.
fn line_to(alloc: Global, client: Option<u8>, text: &Text) -> Result<Vec<u8>, NoMemory>
    ensures { IfOk result (λ line. line.items ≡ reply_lines (reply_to client text.now)) }
{
    let mut line = Vec::new(alloc);
    if let Some(client) = client {
        add_number(&mut line, u64::from(client))?;
        add_spaced_text(&mut line, text)?;
        add_text(&mut line, b"\n")?;
    }
    Ok(line)
}

impl Notes {
    /// Before the first step.
    pub fn new(alloc: Global) -> Result<Notes, NoMemory>
        ensures { IfOk result (λ notes. AreNotes notes nothing_known) }
    {
        Ok(Notes {
            agents: Index::with_width(alloc, EVENTS)?,
            lasts: Vec::from_elem(alloc, None, EVENTS)?,
        })
    }

    /// A line was taken.
    pub fn take(&mut self, took: &Took)
        requires { CanNote self.old }
        ensures { (known : Known) → AreNotes self.old known →
            AreNotes self.new (record known { takes = took.now ∷ known.takes }) }
    {
        self.lasts[usize::from(took.event)] = Some(took.line.client);
    }

    // The client whose line of an event was taken last.
    fn last_of(&self, event: usize) -> Option<u8>
        ensures { (known : Known) → AreNotes self.now known → result ≡ holder_of known.takes (Some event) }
    {
        if event < self.lasts.len() {
            self.lasts[event]
        } else {
            None
        }
    }

    // The client whose line an agent holds.
    fn client_of(&self, tid: Tid) -> Option<u8>
        ensures { (known : Known) → AreNotes self.now known →
            result ≡ holder_of known.takes (event_in known.agents tid) }
    {
        match self.agents.place_of(tid) {
            Some(event) => self.last_of(event),
            None => None,
        }
    }

    // What a call tells a client, as a line.
    fn line_of(&self, alloc: Global, call: &Call) -> Result<Vec<u8>, NoMemory>
        ensures { (known : Known) → AreNotes self.now known →
            IfOk result (λ line. line.items ≡ reply_lines (reply_of known call.now)) }
    {
        match call {
            Call::Reply { to, text } => line_to(alloc, self.client_of(*to), text),
            _ => Ok(Vec::new(alloc)),
        }
    }

    /// What a call tells a client, if it was accepted, as a line; no bytes, where it tells nothing.
    pub fn told_of(&self, alloc: Global, made: &Option<Made>) -> Result<Vec<u8>, NoMemory>
        ensures { (known : Known) → AreNotes self.now known →
            IfOk result (λ line. line.items ≡ reply_lines (reply_in known made.now)) }
    {
        match made {
            Some(made) => {
                if made.zero {
                    self.line_of(alloc, &made.call)
                } else {
                    Ok(Vec::new(alloc))
                }
            }
            None => Ok(Vec::new(alloc)),
        }
    }

    // An agent was made for this event.
    fn add(&mut self, agent: Tid, event: u32) -> Result<(), NoMemory>
        requires { CanNote self.old }
        ensures { (known : Known) → AreNotes self.old known →
            OnOk result
            (AreNotes self.new
            (record known { agents = record { number = agent; event = event } ∷ known.agents })) }
    {
        if self.agents.place_of(agent).is_some() {
            self.agents.take(agent);
        }
        let Some(more) = self.agents.len().checked_add(1) else {
            return Err(NoMemory);
        };
        self.agents.reserve(more)?;
        self.agents.put(agent, event as usize);
        Ok(())
    }

    /// A call was made; it may have made an agent.
    pub fn pass(&mut self, made: &Option<Made>) -> Result<(), NoMemory>
        requires { CanNote self.old }
        ensures { (known : Known) → AreNotes self.old known →
            OnOk result (AreNotes self.new (known_after_call known made.now)) }
    {
        if let Some(made) = made {
            if let Some(event) = agent_event(&made.call) {
                if let Some(agent) = made.thread {
                    self.add(agent, event)?;
                }
            }
        }
        Ok(())
    }
}
