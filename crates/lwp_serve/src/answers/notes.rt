// What is known of a client while its session is played.
ghost use Rattle.std.specs.Prelude.{◌≡◌, ◌∷◌, ◌++◌, [], if◌then◌else◌, IfOk, OnOk};
ghost use Rattle.lwp_serve.specs.Answers.Replies.{agent_born, agent_event, agents_after, is_among, is_event, reply_line, texts_told};

use crate::answers::event_agents::Agents;
use lwp_types::{Call, NoMemory, Text, Tid};
use pod_runner::Made;
use std::alloc::Global;

/// The event of a client, if it is declared, and the agents of that event so far.
#[derive(Drop)]
pub(crate) struct Notes {
    pub(crate) event: Option<u8>,
    pub(crate) agents: Agents,
}

// The event that a call asks an agent of.
fn agent_event(call: &Call) -> Option<u32>
    ensures { result ≡ agent_event call.now }
{
    match call {
        Call::Agent { event } => Some(*event),
        _ => None,
    }
}

fn is_event(event: Option<u8>, asked: Option<u32>) -> bool
    ensures { result ≡ is_event event asked }
{
    match (event, asked) {
        (Some(event), Some(asked)) => asked == u32::from(event),
        _ => false,
    }
}

// The agent of the event that a call has made, if it has.
fn agent_born(event: Option<u8>, made: &Made) -> Option<Tid>
    ensures { result ≡ agent_born event made.now }
{
    if is_event(event, agent_event(&made.call)) {
        made.thread
    } else {
        None
    }
}

// A text on a line of its own.
fn line_of(alloc: Global, text: &Text) -> Result<Vec<u8>, NoMemory>
    ensures { IfOk result (λ line. line.items ≡ text.now ++ 10 ∷ []) }
{
    let mut line = Vec::new(alloc);
    let (lead, rest) = text.parts();
    line.extend_from_slice(lead)?;
    line.extend_from_slice(rest)?;
    line.push(b'\n')?;
    Ok(line)
}

impl Notes {
    /// Before the first call.
    pub(crate) fn new(alloc: Global, event: Option<u8>) -> Notes
        ensures event { result.event ≡ event }
        ensures agents { result.agents ≡ [] }
    {
        Notes {
            event,
            agents: Agents::new(alloc),
        }
    }

    // A reply's text on a line of its own, if it is made to one of these agents.
    fn text_for(&self, alloc: Global, to: Tid, text: &Text) -> Result<Vec<u8>, NoMemory>
        ensures { IfOk result
            (λ line. line.items ≡ (if is_among self.now.agents to then text.now ++ 10 ∷ [] else [])) }
    {
        if self.agents.has(to) {
            line_of(alloc, text)
        } else {
            Ok(Vec::new(alloc))
        }
    }

    // What a call says to the client, if it is a reply to one of these agents.
    fn reply_line(&self, alloc: Global, call: &Call) -> Result<Vec<u8>, NoMemory>
        ensures { IfOk result (λ line. line.items ≡ reply_line self.now.agents call.now) }
    {
        match call {
            Call::Reply { to, text } => self.text_for(alloc, *to, text),
            _ => Ok(Vec::new(alloc)),
        }
    }

    /// What is told of a call.
    pub(crate) fn texts_told(&self, alloc: Global, made: &Option<Made>) -> Result<Vec<u8>, NoMemory>
        ensures { IfOk result (λ line. line.items ≡ texts_told self.now.agents made.now) }
    {
        match made {
            Some(made) => {
                if made.zero {
                    self.reply_line(alloc, &made.call)
                } else {
                    Ok(Vec::new(alloc))
                }
            }
            None => Ok(Vec::new(alloc)),
        }
    }

    /// A call was made; it may have made an agent.
    pub(crate) fn pass(&mut self, made: &Option<Made>) -> Result<(), NoMemory>
        ensures agents { OnOk result
            (self.new.agents ≡ agents_after self.old.event self.old.agents made.now) }
        ensures event { self.new.event ≡ self.old.event }
    {
        if let Some(made) = made {
            if let Some(agent) = agent_born(self.event, made) {
                self.agents.push(agent)?;
            }
        }
        Ok(())
    }
}
