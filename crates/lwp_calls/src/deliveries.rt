// An event of the outside: each of its agents has the message for its owner.
ghost use Rattle.std.specs.Prelude.{◌≡◌, ◌+◌, ◌≤◌, [], IsTrue, None, length};
ghost use Rattle.death_cleanup.specs.Comes.{CameTo};
ghost use Rattle.death_cleanup.specs.Ties.{LawfulParts};
ghost use Rattle.death_cleanup.specs.View.{state_of};
ghost use Rattle.lwp_types.specs.Agents.{deliver_to, event_agents, is_armed};
ghost use Rattle.lwp_types.specs.Effects.{effect_places};
ghost use Rattle.lwp_types.specs.State.{agent_of, for_each};
ghost use Rattle.lwp_calls.specs.Deliveries.{deliver_to_found, waits_for};

use crate::message_calls::post;
use death_cleanup::Parts;
use lwp_types::{Effect, Effects, Letter, Text, Tid};

// An agent's letter has room for a reply of so many bytes.
const AGENT_ROOM: u8 = 240;

// An agent has the message: it holds it, and its owner has a letter from it.
fn deliver_to<'s>(
    parts: &mut Parts<'s>,
    agent: Tid,
    event: u8,
    text: &Text<'s>,
    effects: &mut Effects<'s>,
)
    requires lawful { LawfulParts parts.old }
    requires alone { parts.old.dying ≡ None }
    requires waits { IsTrue (waits_for event parts.old.agents.agents agent) }
    requires room { length effects.old + 2 ≤ effect_places }
    ensures { CameTo parts.old parts.new effects.old effects.new
        (deliver_to_found text.now (agent_of parts.old.agents.agents agent) (state_of parts.old)) }
{
    let Some(owner) = parts.agents.owner_of(agent) else {
        unreachable!()
    };
    parts.agents.hold(agent);
    effects.push(Effect::Delivered { agent, event });
    let letter = Letter {
        from: agent,
        to: owner,
        text: text.again(),
        room: AGENT_ROOM,
        received: false,
    };
    post(parts, &letter, effects);
}

/// Each agent of the event has the message, in the order of their births.
pub fn deliver_to_agents<'s>(
    parts: &mut Parts<'s>,
    event: u8,
    text: &Text<'s>,
    effects: &mut Effects<'s>,
)
    requires lawful { LawfulParts parts.old }
    requires alone { parts.old.dying ≡ None }
    requires armed { IsTrue (is_armed (state_of parts.old).agents event) }
    requires room { effects.old ≡ [] }
    ensures { CameTo parts.old parts.new effects.old effects.new
        (for_each (deliver_to text.now) (event_agents (state_of parts.old).agents event)
        (state_of parts.old)) }
{
    let mut count = 0;
    while let Some(agent) = parts.agents.nth_of(event, count) {
        deliver_to(parts, agent, event, text, effects);
        count += 1;
    }
}
