// Calls on agents.
ghost use Rattle.std.specs.Prelude.{◌≡◌, ◌<◌, ◌≤◌, None, IsErr, IsTrue, OnErr, OnOk, [], length};
ghost use Rattle.death_cleanup.specs.Comes.{CameTo};
ghost use Rattle.death_cleanup.specs.Ties.{InStep, LawfulParts};
ghost use Rattle.death_cleanup.specs.View.{state_of};
ghost use Rattle.lwp_types.specs.Agents.{after_agent_birth, make_agent};
ghost use Rattle.lwp_types.specs.Case.{list_case, refusal_case};
ghost use Rattle.lwp_types.specs.Effects.{most_of_a_call};
ghost use Rattle.lwp_types.specs.Families.{agent_call};
ghost use Rattle.lwp_types.specs.State.{agent_numbers, still};
ghost use Rattle.lwp_types.specs.Step.{case_of};
ghost use Rattle.lwp_types.specs.declared.call.IdKind.TheVariants as kind;
ghost use Rattle.lwp_types.specs.declared.call.LwpErr.TheVariants as error;
ghost use Rattle.lwp_calls.specs.Asks.{HasAgentPlaces, asks_memory};
ghost use Rattle.lwp_calls.specs.Comes.{IsAsBefore, Told};

use crate::asks::{next_count, tell_ids, thread_count};
use death_cleanup::{Kind, Parts};
use lwp_types::{AgentCall, Answer, Effects, IdKind, LwpErr, NoMemory, Tid};

// The events that an agent may have are numbered from 1 to this.
const MOST_EVENT: u32 = 32;

// The most agents that live at once.
const MOST_AGENTS: usize = 256;

/// A call of this family.
#[inline(always)]
pub fn carry_out<'s>(
    parts: &mut Parts<'s>,
    tid: Tid,
    call: AgentCall,
    effects: &mut Effects<'s>,
) -> Result<(), NoMemory>
    requires lawful { LawfulParts parts.old }
    requires alone { parts.old.dying ≡ None }
    requires room { effects.old ≡ [] }
    ensures ok { OnOk result
        (Told parts.old parts.new effects.old effects.new tid
        (case_of (state_of parts.old) tid (agent_call call))) }
    ensures most { length effects.new ≤ most_of_a_call }
    ensures err { OnErr result (IsAsBefore parts.old parts.new) }
    ensures memory { IsErr result → IsTrue (asks_memory (agent_call call)) }
{
    match call {
        AgentCall::Create(event) => create(parts, tid, event, effects),
        AgentCall::List => list(parts, tid, effects),
        AgentCall::Trap(_) => {
            refuse_trap(parts, tid, effects);
            Ok(())
        }
    }
}

// An agent of the caller. What a delivery needs later is reserved now.
#[inline(never)]
fn create<'s>(
    parts: &mut Parts<'s>,
    caller: Tid,
    event: u32,
    effects: &mut Effects<'s>,
) -> Result<(), NoMemory>
    requires lawful { LawfulParts parts.old }
    requires alone { parts.old.dying ≡ None }
    requires room { effects.old ≡ [] }
    ensures ok { OnOk result
        (Told parts.old parts.new effects.old effects.new caller
        (make_agent (state_of parts.old) caller event)) }
    ensures most { length effects.new ≤ 1 }
    ensures err { OnErr result (IsAsBefore parts.old parts.new) }
{
    if event == 0 || event > MOST_EVENT {
        effects.done(caller, Err(LwpErr::InvalidArg));
        return Ok(());
    }
    if parts.agents.len() >= MOST_AGENTS || parts.ids.births() >= parts.ids.limit() {
        effects.done(caller, Err(LwpErr::NoRoom));
        return Ok(());
    }
    make_places(parts)?;
    let agent = begin(parts, caller, event as u8);
    effects.answered(caller, Answer::Thread(agent));
    Ok(())
}

// An agent begins. There are places for it.
fn begin(parts: &mut Parts, caller: Tid, event: u8) -> Tid
    requires lawful { LawfulParts parts.old }
    requires alone { parts.old.dying ≡ None }
    requires places { HasAgentPlaces parts.old }
    requires births { parts.old.ids.births < parts.old.ids.limit }
    requires least { 1 ≤ event }
    requires most { event ≤ 32 }
    ensures number { result ≡ parts.old.ids.births }
    ensures came { CameTo parts.old parts.new [] []
        (still (after_agent_birth (state_of parts.old) caller event)) }
{
    let number = parts.ids.births();
    let tid = Tid { number };
    let _ = parts.ids.insert(Kind::Agent);
    parts.agents.create(tid, event, caller);
    tid
}

// Places for one agent more, and for its letter: so a delivery takes no memory, however many agents it goes to.
fn make_places(parts: &mut Parts) -> Result<(), NoMemory>
    requires lawful { LawfulParts parts.old }
    requires alone { parts.old.dying ≡ None }
    requires births { parts.old.ids.births < parts.old.ids.limit }
    ensures ok { OnOk result (HasAgentPlaces parts.new) }
    ensures as_before { IsAsBefore parts.old parts.new }
    ensures births { parts.new.ids.births ≡ parts.old.ids.births }
    ensures limit { parts.new.ids.limit ≡ parts.old.ids.limit }
    ensures agents { parts.new.agents.agents ≡ parts.old.agents.agents }
{
    let threads = thread_count(parts);
    let agents = parts.agents.len() + 1;
    let living = next_count(&parts.ids);
    let Ok(()) = parts.ids.reserve(living) else {
        return Err(NoMemory);
    };
    parts.agents.reserve(agents)?;
    parts.mail.reserve(threads + agents)
}

// A Trap is for the pod's own events, and never asked of the machine.
fn refuse_trap<'s>(parts: &Parts<'s>, tid: Tid, effects: &mut Effects<'s>)
    requires step { InStep parts.now }
    requires room { effects.old ≡ [] }
    ensures told { Told parts.now parts.now effects.old effects.new tid
        (refusal_case (state_of parts.now) error.InvalidArg) }
    ensures most { length effects.new ≤ 1 }
{
    effects.done(tid, Err(LwpErr::InvalidArg));
}

// The live agents.
fn list<'s>(parts: &Parts<'s>, tid: Tid, effects: &mut Effects<'s>) -> Result<(), NoMemory>
    requires step { InStep parts.now }
    requires room { effects.old ≡ [] }
    ensures ok { OnOk result
        (Told parts.now parts.now effects.old effects.new tid
        (list_case (state_of parts.now) kind.Thread (agent_numbers (state_of parts.now).agents))) }
    ensures most { length effects.new ≤ 1 }
{
    let list = parts.agents.list()?;
    tell_ids(tid, IdKind::Thread, list, effects);
    Ok(())
}
