// The parts, and the changes of one thread in them.
ghost use Rattle.std.specs.Prelude.{◌≡◌, ◌<◌, length, map, IfOk, IsTrue};
ghost use Rattle.agents.specs.Roster.{is_listed};
ghost use Rattle.lwp_types.specs.Case.{answer_by};
ghost use Rattle.lwp_types.specs.Effects.{effect_places};
ghost use Rattle.lwp_types.specs.State.{is_blocked_in, is_id, is_thread};
ghost use Rattle.lwp_types.specs.Unblock.{unblock};
ghost use Rattle.lwp_types.specs.declared.call.Answer.TheVariants as answer;
ghost use Rattle.pod_sched.specs.Schedule as sched;
ghost use Rattle.death_cleanup.specs.Comes.{CameTo};
ghost use Rattle.death_cleanup.specs.Moves.{after_wake, pair_with_block};
ghost use Rattle.death_cleanup.specs.Ties.{InStep};
ghost use Rattle.death_cleanup.specs.View.{state_of};

use crate::named::Named;
use crate::rows::Kind;
use agents::Agents;
use conditions::Conds;
use lwp_types::{Block, Effects, Letter, LwpErr, NoMemory, Text, Tid};
use monitors::Monitors;
use pod_sched::Sched;
use rendezvous::Mail;
use stale_ids::Registry;

/// All that a pod holds.
pub struct Parts<'s> {
    pub ids: Registry<Kind<'s>>,
    pub sched: Sched,
    pub mail: Mail<'s>,
    pub mons: Monitors,
    pub conds: Conds,
    pub agents: Agents,
    /// The exit status.
    pub exit: u32,
    pub ended: bool,
    /// How many procedures there are.
    pub procs: u32,
    /// The number of the next exit procedure that is set.
    pub registration: u64,
    /// The next pattern that is given.
    pub pattern: u32,
    /// The thread that is dying, which has left the scheduler.
    pub dying: Option<Tid>,
    /// The priority that the dying thread had.
    pub last_prio: u32,
    /// Who may wait by name.
    pub named: Named,
}

// PROVER: written by hand, so that a function that drops one calls this instead of repeating its proof.
impl<'s> Drop for Parts<'s> {
    fn drop(self) {
        let Parts {
            ids: _,
            sched: _,
            mail: _,
            mons: _,
            conds: _,
            agents: _,
            exit: _,
            ended: _,
            procs: _,
            registration: _,
            pattern: _,
            dying: _,
            last_prio: _,
            named: _,
        } = self;
    }
}

impl<'s> Parts<'s> {
    /// Equal parts, in memory of their own. It goes over each list once.
    pub fn again(&self) -> Result<Parts<'s>, NoMemory>
        ensures { IfOk result (λ copy. copy ≡ self.now) }
    {
        let Ok(ids) = self.ids.again() else {
            return Err(NoMemory);
        };
        Ok(Parts {
            ids,
            sched: self.sched.again()?,
            mail: self.mail.again()?,
            mons: self.mons.again()?,
            conds: self.conds.again()?,
            agents: self.agents.again()?,
            exit: self.exit,
            ended: self.ended,
            procs: self.procs,
            registration: self.registration,
            pattern: self.pattern,
            dying: self.dying,
            last_prio: self.last_prio,
            named: self.named.again()?,
        })
    }
}

/// Whether it is a live thread.
#[inline(always)]
pub fn is_thread(parts: &Parts, tid: Tid) -> bool
    ensures { result ≡ is_thread (state_of parts.now) tid }
{
    match parts.ids.get(tid.number) {
        Some(Kind::Thread(_)) => true,
        Some(Kind::Agent) => false,
        None => false,
    }
}

/// Whether it is a live agent.
pub fn is_agent(agents: &Agents, tid: Tid) -> bool
    ensures { result ≡ is_listed agents.now.agents tid }
{
    agents.owner_of(tid).is_some()
}

/// Whether it is a live thread or agent.
pub fn is_id(parts: &Parts, tid: Tid) -> bool
    ensures { result ≡ is_id (state_of parts.now) tid }
{
    is_thread(parts, tid) || is_agent(&parts.agents, tid)
}

/// Says of a live thread what it waits for.
#[inline(always)]
pub fn set_block(ids: &mut Registry<Kind>, tid: Tid, block: Block)
    ensures { ids.new ≡ record ids.old { live = map (pair_with_block tid block) ids.old.live } }
{
    if let Some(kind) = ids.get_mut(tid.number) {
        match kind {
            Kind::Thread(rec) => rec.block = block,
            Kind::Agent => {}
        }
    }
}

// A thread waits no more, and may run again. The caller tells its answer.
fn unblock(parts: &mut Parts, tid: Tid)
    requires { IsTrue (sched.is_blocked_in parts.old.sched tid) }
    ensures { parts.new ≡ after_wake parts.old tid }
{
    parts.sched.unblock(tid);
    set_block(&mut parts.ids, tid, Block::Not);
}

/// A thread that waits goes on. Its call was carried out, with a number, or is refused.
pub fn wake_done<'s>(
    parts: &mut Parts<'s>,
    tid: Tid,
    done: Result<i64, LwpErr>,
    effects: &mut Effects<'s>,
)
    requires step { InStep parts.old }
    requires waits { IsTrue (is_blocked_in (state_of parts.old) tid) }
    requires room { length effects.old < effect_places }
    ensures came { CameTo parts.old parts.new effects.old effects.new
        (unblock (answer_by done) tid (state_of parts.old)) }
    ensures named { parts.new.named ≡ parts.old.named }
{
    unblock(parts, tid);
    effects.done(tid, done);
}

/// A thread that waits for a letter gets this one, and goes on.
pub fn wake_lettered<'s>(
    parts: &mut Parts<'s>,
    tid: Tid,
    letter: &Letter<'s>,
    effects: &mut Effects<'s>,
)
    requires step { InStep parts.old }
    requires waits { IsTrue (is_blocked_in (state_of parts.old) tid) }
    requires room { length effects.old < effect_places }
    ensures came { CameTo parts.old parts.new effects.old effects.new
        (unblock (answer.Letter letter.now.from letter.now.text letter.now.room) tid
        (state_of parts.old)) }
{
    unblock(parts, tid);
    effects.lettered(tid, letter);
}

/// A thread that waits for the reply to its letter gets it, and goes on.
pub fn wake_replied<'s>(parts: &mut Parts<'s>, tid: Tid, text: &Text<'s>, effects: &mut Effects<'s>)
    requires step { InStep parts.old }
    requires waits { IsTrue (is_blocked_in (state_of parts.old) tid) }
    requires room { length effects.old < effect_places }
    ensures came { CameTo parts.old parts.new effects.old effects.new
        (unblock (answer.Reply text.now) tid (state_of parts.old)) }
{
    unblock(parts, tid);
    effects.replied(tid, text);
}
