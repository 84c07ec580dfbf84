// What the registry keeps under a number, and whom a thread waits for.
ghost use Rattle.std.specs.Prelude.{◌≡◌, ◌≤◌, IfOk, Some};
ghost use Rattle.death_cleanup.specs.Moves.{kind_with_marks, kind_marks};
ghost use Rattle.exc_stack.specs.Stack.{UnwindsAll, UnwindsTo, unwound_all, unwound_to};
ghost use Rattle.lwp_types.specs.Case.{answer_by};
ghost use Rattle.lwp_types.specs.Exceptions.{frames};
ghost use Rattle.death_cleanup.specs.Named.{block_name, named_wait, rank};
ghost use Rattle.death_cleanup.specs.Waits.{last_answer, waits_for};
ghost use Rattle.death_cleanup.specs.declared.rows.Kind.TheVariants as kinds;

use exc_stack::ExcStack;
use lwp_types::{Block, ExitMark, Flags, LwpErr, Tid};
use stale_ids::{Again, NoMemory as RefusedMemory};

/// What is kept of a thread, but for what the scheduler keeps.
#[derive(Drop)]
pub struct ThreadRec<'s> {
    pub flags: Flags,
    pub block: Block,
    pub stack: ExcStack<'s>,
}

/// Who lives under a number: a thread, or an agent.
#[derive(Drop)]
pub enum Kind<'s> {
    Thread(ThreadRec<'s>),
    Agent,
}

/// What of a thread or an agent others wait for: its death, or a letter of it.
#[derive(Clone, Copy)]
pub enum Awaited {
    Death,
    Letter,
}

/// A thread that waits for the death or a letter of another one, or of an agent.
#[derive(Clone, Copy)]
pub struct NamedWait {
    pub what: Awaited,
    pub of: Tid,
    pub tid: Tid,
}

/// The wait of a thread, if it waits for this by name.
pub fn wait_of(tid: Tid, block: &Block) -> Option<NamedWait>
    ensures { result ≡ named_wait tid (block_name block.now) }
{
    let (what, of) = match *block {
        Block::Joining(of) => (Awaited::Death, of),
        Block::Receiving(Some(from)) => (Awaited::Letter, from),
        Block::Receiving(None) => return None,
        Block::Not | Block::Sending | Block::Entering(_) | Block::Waiting(_) | Block::Sleeping => {
            return None;
        }
    };
    Some(NamedWait { what, of, tid })
}

impl<'s> Again for Kind<'s> {
    fn again(&self) -> Result<Kind<'s>, RefusedMemory> {
        match self {
            Kind::Thread(rec) => thread_again(rec),
            Kind::Agent => Ok(Kind::Agent),
        }
    }
}

// A thread with an equal record, in memory of its own.
fn thread_again<'s>(rec: &ThreadRec<'s>) -> Result<Kind<'s>, RefusedMemory>
    ensures { IfOk result (λ kind. kind ≡ kinds.Thread rec.now) }
{
    let Ok(stack) = rec.stack.again() else {
        return Err(RefusedMemory);
    };
    Ok(Kind::Thread(ThreadRec {
        flags: rec.flags,
        block: rec.block,
        stack,
    }))
}

impl Awaited {
    /// What those who wait are answered at the end of it.
    pub fn answer(self) -> Result<i64, LwpErr>
        ensures { answer_by result ≡ last_answer self }
    {
        match self {
            Awaited::Death => Ok(0),
            Awaited::Letter => Err(LwpErr::NonExist),
        }
    }

    /// Where those who wait for it stand in the note, among those who wait for the same thread or agent.
    pub fn rank(self) -> u8
        ensures { result ≡ rank self }
    {
        match self {
            Awaited::Letter => 0,
            Awaited::Death => 1,
        }
    }
}

impl<'s> Kind<'s> {
    /// Whether it is a thread that waits for this of that very thread or agent.
    pub fn waits_for(&self, what: Awaited, tid: Tid) -> bool
        ensures { result ≡ waits_for what tid self.now }
    {
        let Kind::Thread(rec) = self else {
            return false;
        };
        match (what, rec.block) {
            (Awaited::Death, Block::Joining(other)) => other == tid,
            (Awaited::Letter, Block::Receiving(Some(from))) => from == tid,
            _ => false,
        }
    }

    /// Takes marks from the top of a thread's stack until one of them was an exit procedure, which is given.
    pub fn unwind_all(&mut self) -> Option<ExitMark<'s>>
        ensures left { self.new
            ≡ kind_with_marks (unwound_all (kind_marks (Some self.old))).left self.old }
        ensures next { UnwindsAll (kind_marks (Some self.old))
            (unwound_all (kind_marks (Some self.old))).left result }
    {
        match self {
            Kind::Thread(rec) => rec.stack.unwind_all(),
            Kind::Agent => None,
        }
    }

    /// Takes marks from the top until one of them was an exit procedure, which is given, or only `depth` frames are
    /// left.
    pub fn unwind_to(&mut self, depth: u32) -> Option<ExitMark<'s>>
        requires least { 1 ≤ depth }
        requires most { depth ≤ frames (kind_marks (Some self.old)) }
        ensures left { self.new
            ≡ kind_with_marks (unwound_to depth (kind_marks (Some self.old))).left self.old }
        ensures next { UnwindsTo depth (kind_marks (Some self.old))
            (unwound_to depth (kind_marks (Some self.old))).left result }
    {
        match self {
            Kind::Thread(rec) => rec.stack.unwind_to(depth),
            Kind::Agent => None,
        }
    }
}
