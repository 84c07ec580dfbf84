ghost use Rattle.std.specs.Prelude.{◌≡◌, ◌<◌, ◌∷◌, [], IfOk, OnOk, length};
ghost use Rattle.death_cleanup.specs.Example as example;
ghost use Rattle.death_cleanup.specs.Example.{thread};
ghost use Rattle.death_cleanup.specs.Named.{IsNoteOf};
ghost use Rattle.death_cleanup.specs.Ties.{LawfulParts};
ghost use Rattle.tests_of_pods.specs.Living.{register_as};
ghost use Rattle.exc_stack.specs.Stack.{one_frame};
ghost use Rattle.monitors.specs.MonitorTable.{empty_table};
ghost use Rattle.stale_ids.specs.Register.{after_insert};

use agents::Agents;
use conditions::{Conds, WaitRec};
use death_cleanup::{Kind, Named, Parts, ThreadRec, die, note};
use exc_stack::ExcStack;
use lwp_types::{
    Answer, Block, Cid, Effect, Effects, ExitCall, Flags, Letter, LwpErr, Mid, NoMemory, Text, Tid,
};
use monitors::Monitors;
use pod_sched::Sched;
use rendezvous::Mail;
use stale_ids::Registry;
use std::alloc::Global;

const PLAIN: Flags = Flags {
    suspended: false,
    nolastrites: false,
    server: false,
};

const DYING: Tid = Tid { number: 0 };

const RECEIVES: Block = Block::Receiving(Some(DYING));

const JOINS: Block = Block::Joining(DYING);

const AGENT: Tid = Tid { number: 8 };

// A thread is born that waits so, with these marks.
fn bear_with<'s>(ids: &mut Registry<Kind<'s>>, block: Block, stack: ExcStack<'s>)
    requires room { length ids.old.live < ids.old.places }
    requires more { ids.old.births < ids.old.limit }
    ensures { ids.new ≡ after_insert ids.old (thread block stack.entry) }
{
    let _ = ids.insert(Kind::Thread(ThreadRec {
        flags: PLAIN,
        block,
        stack,
    }));
}

// A thread is born that waits so, in its procedure.
fn bear(ids: &mut Registry<Kind>, alloc: Global, block: Block) -> Result<(), NoMemory>
    requires room { length ids.old.live < ids.old.places }
    requires more { ids.old.births < ids.old.limit }
    ensures { OnOk result (ids.new ≡ after_insert ids.old (thread block one_frame)) }
{
    let stack = ExcStack::new(alloc)?;
    bear_with(ids, block, stack);
    Ok(())
}

// The stack with five exit procedures: one of them resumes the dying thread itself.
fn five_exits<'s>(alloc: Global) -> Result<ExcStack<'s>, NoMemory>
    ensures { IfOk result (λ s. s ≡ example.stack) }
{
    let mut stack = ExcStack::new(alloc)?;
    stack.on_exit(
        0,
        ExitCall::Note {
            text: Text::empty(),
        },
    )?;
    let to = Tid { number: 2 };
    let text = Text::empty();
    stack.on_exit(1, ExitCall::Reply { to, text })?;
    stack.on_exit(2, ExitCall::Resume { tid: DYING })?;
    let cond = Cid { number: 0 };
    stack.on_exit(3, ExitCall::Notify { cond })?;
    stack.on_exit(4, ExitCall::SetExit { code: 7 })?;
    Ok(stack)
}

// All are born; the threads 3 to 5 wait so.
fn bear_all(
    ids: &mut Registry<Kind>,
    alloc: Global,
    third: Block,
    fourth: Block,
    fifth: Block,
) -> Result<(), NoMemory>
    requires { ids.old ≡ record { live = []; births = 0; limit = 100; places = 9 } }
    ensures { OnOk result (ids.new ≡ register_as third fourth fifth) }
{
    let stack = five_exits(alloc)?;
    bear_with(ids, Block::Waiting(Cid { number: 0 }), stack);
    bear(ids, alloc, Block::Sending)?;
    bear(ids, alloc, Block::Sending)?;
    bear(ids, alloc, third)?;
    bear(ids, alloc, fourth)?;
    bear(ids, alloc, fifth)?;
    bear(ids, alloc, Block::Entering(Mid { number: 0 }))?;
    bear(ids, alloc, Block::Entering(Mid { number: 1 }))?;
    let _ = ids.insert(Kind::Agent);
    Ok(())
}

fn living<'s>(
    alloc: Global,
    third: Block,
    fourth: Block,
    fifth: Block,
) -> Result<Registry<Kind<'s>>, NoMemory>
    ensures { IfOk result (λ ids. ids ≡ register_as third fourth fifth) }
{
    let mut ids = Registry::new(alloc, 100);
    let Ok(()) = ids.reserve(9) else {
        return Err(NoMemory);
    };
    bear_all(&mut ids, alloc, third, fourth, fifth)?;
    Ok(ids)
}

fn all_waiting<'s>(alloc: Global) -> Result<Registry<Kind<'s>>, NoMemory>
    ensures { IfOk result (λ ids. ids ≡ example.ids) }
{
    living(alloc, RECEIVES, JOINS, JOINS)
}

fn scheduled(alloc: Global) -> Result<Sched, NoMemory>
    ensures { IfOk result (λ s. s ≡ example.sched) }
{
    let mut sched = Sched::new(alloc, 9)?;
    sched.reserve(8)?;
    sched.admit(DYING, 1, false);
    sched.block(DYING);
    sched.admit(Tid { number: 1 }, 5, false);
    sched.block(Tid { number: 1 });
    sched.admit(Tid { number: 2 }, 5, false);
    sched.block(Tid { number: 2 });
    sched.admit(Tid { number: 3 }, 5, false);
    sched.block(Tid { number: 3 });
    sched.admit(Tid { number: 4 }, 5, false);
    sched.block(Tid { number: 4 });
    sched.admit(Tid { number: 5 }, 5, false);
    sched.block(Tid { number: 5 });
    sched.admit(Tid { number: 6 }, 5, false);
    sched.block(Tid { number: 6 });
    sched.admit(Tid { number: 7 }, 5, false);
    sched.block(Tid { number: 7 });
    Ok(sched)
}

// A letter to the dying thread.
fn letter<'s>(from: u64, room: u8, received: bool) -> Letter<'s>
    ensures { result ≡ record { from = from; to = 0; text = []; room = room; received = received } }
{
    Letter {
        from: Tid { number: from },
        to: DYING,
        text: Text::empty(),
        room,
        received,
    }
}

fn posted<'s>(alloc: Global) -> Result<Mail<'s>, NoMemory>
    ensures { IfOk result (λ m. m ≡ example.mail) }
{
    let mut messages = Mail::new(alloc);
    messages.reserve(9)?;
    messages.post_letter(letter(1, 9, true));
    messages.post_letter(letter(2, 9, false));
    messages.post_letter(letter(8, 240, false));
    Ok(messages)
}

// Three monitors are born.
fn create_three(mons: &mut Monitors) -> Result<(), NoMemory>
    requires { mons.old ≡ empty_table 100 }
    ensures { OnOk result
        (mons.new
        ≡ record {
          monitors = 0 ∷ 1 ∷ 2
              ∷ [];
          births = 3;
          limit = 100;
          locks = [];
          requests = [];
          places = 8;
        }) }
{
    mons.reserve(8)?;
    mons.create()?;
    mons.create()?;
    mons.create()?;
    Ok(())
}

// The dying thread holds two of them, and somebody waits for each.
fn hold_two(mons: &mut Monitors)
    requires { mons.old
        ≡ record {
          monitors = 0 ∷ 1 ∷ 2
              ∷ [];
          births = 3;
          limit = 100;
          locks = [];
          requests = [];
          places = 8;
        } }
    ensures { mons.new ≡ example.mons }
{
    let first = Mid { number: 0 };
    let second = Mid { number: 1 };
    mons.enter(first, DYING);
    mons.enter(second, DYING);
    mons.request(first, Tid { number: 6 }, 5, 1);
    mons.request(second, Tid { number: 7 }, 5, 1);
}

fn held(alloc: Global) -> Result<Monitors, NoMemory>
    ensures { IfOk result (λ m. m ≡ example.mons) }
{
    let mut mons = Monitors::new(alloc, 100);
    create_three(&mut mons)?;
    hold_two(&mut mons);
    Ok(mons)
}

fn waited(alloc: Global) -> Result<Conds, NoMemory>
    ensures { IfOk result (λ c. c ≡ example.conds) }
{
    let mut conds = Conds::new(alloc, 100);
    conds.reserve(8)?;
    conds.create(Mid { number: 2 })?;
    conds.wait(WaitRec {
        cond: Cid { number: 0 },
        tid: DYING,
        prio: 1,
        depth: 1,
    });
    Ok(conds)
}

fn armed(alloc: Global) -> Result<Agents, NoMemory>
    ensures { IfOk result (λ a. a ≡ example.agents) }
{
    let mut agents = Agents::new(alloc);
    agents.reserve(1)?;
    agents.create(AGENT, 3, DYING);
    agents.hold(AGENT);
    Ok(agents)
}

// One after another waits by name: a thread receives from the dying one, and two join it.
fn noted(alloc: Global) -> Result<Named, NoMemory>
    ensures { IfOk result (λ n. IsNoteOf n example.ids.live) }
{
    let mut named = Named::new(alloc)?;
    let ids = living(alloc, Block::Not, Block::Not, Block::Not)?;
    note(&mut named, &ids, Tid { number: 3 }, &RECEIVES);
    let ids = living(alloc, RECEIVES, Block::Not, Block::Not)?;
    note(&mut named, &ids, Tid { number: 4 }, &JOINS);
    let ids = living(alloc, RECEIVES, JOINS, Block::Not)?;
    note(&mut named, &ids, Tid { number: 5 }, &JOINS);
    Ok(named)
}

fn parts<'s>(alloc: Global) -> Result<Parts<'s>, NoMemory>
    ensures same { IfOk result (λ p. p ≡ record example.parts { named = p.named }) }
    ensures lawful { IfOk result (λ p. LawfulParts p) }
{
    Ok(Parts {
        ids: all_waiting(alloc)?,
        sched: scheduled(alloc)?,
        mail: posted(alloc)?,
        mons: held(alloc)?,
        conds: waited(alloc)?,
        agents: armed(alloc)?,
        exit: 0,
        ended: false,
        procs: 1,
        registration: 5,
        pattern: 1_073_741_824,
        dying: None,
        last_prio: 0,
        named: noted(alloc)?,
    })
}

// An effect as its letter, whose it is or its number, and the answer: `x` an exit procedure, `=` an answer, `d` a death.
fn deed_of(effect: &Effect) -> (u8, u64, u8) {
    match effect {
        Effect::Exited { reg, answer, .. } => (b'x', *reg, letter_of(answer)),
        Effect::Answered { tid, answer } => (b'=', tid.number, letter_of(answer)),
        Effect::Died { tid } => (b'd', tid.number, 0),
        _ => (b'?', 0, 0),
    }
}

// `0` for the number 0, and a capital for a refusal.
fn letter_of(answer: &Answer) -> u8 {
    match answer {
        Answer::Value(0) => b'0',
        Answer::Refused(LwpErr::NonExist) => b'X',
        Answer::Refused(LwpErr::NotOwned) => b'O',
        Answer::Refused(LwpErr::NoWait) => b'W',
        _ => b'?',
    }
}

// The steps of a death in their order: exit procedures, the last set first; locks, the last acquired first; an agent, of which
// nothing is told; senders, the named receiver, joiners.
const TOLD: [(u8, u64, u8); 13] = [
    (b'x', 4, b'0'),
    (b'x', 3, b'O'),
    (b'x', 2, b'0'),
    (b'x', 1, b'W'),
    (b'x', 0, b'0'),
    (b'=', 7, b'0'),
    (b'=', 6, b'0'),
    (b'=', 1, b'X'),
    (b'=', 2, b'X'),
    (b'=', 3, b'X'),
    (b'=', 4, b'0'),
    (b'=', 5, b'0'),
    (b'd', 0, 0),
];

// The place of the first effect that isn't as it is to be; how many there are, where each is.
fn told(effects: &Effects) -> usize {
    for place in 0..TOLD.len() {
        if place >= effects.len() || deed_of(effects.get(place)) != TOLD[place] {
            return place;
        }
    }
    effects.len()
}

// The next of the waiting threads runs, with the exit code, and nothing is left of the dying one, its letters and its agent.
// Answers how many of that hold before one that doesn't.
fn left(parts: &mut Parts) -> u32 {
    if parts.sched.current() != Some(Tid { number: 7 }) {
        return 0;
    }
    if parts.exit != 7 {
        return 1;
    }
    if parts.ids.is_live(0) || parts.ids.is_live(8) {
        return 2;
    }
    if parts.mail.pop_to(DYING).is_some() {
        return 3;
    }
    if parts.agents.owner_of(AGENT).is_some() {
        return 4;
    }
    5
}

// The first thread dies.
fn dies(alloc: Global, effects: &mut Effects) -> Result<u32, NoMemory>
    requires { effects.old ≡ [] }
{
    let mut parts = parts(alloc)?;
    die(&mut parts, DYING, effects);
    Ok(left(&mut parts))
}

fn told_of_a_death(alloc: Global) -> Result<(usize, u32), NoMemory> {
    let mut effects = Effects::new(alloc)?;
    let left = dies(alloc, &mut effects)?;
    Ok((told(&effects), left))
}

#[test]
fn a_death_in_full(rt: HostRuntime) {
    let (told, left) = told_of_a_death(rt.alloc()).unwrap_or((0, 0));
    assert_eq!(rt; told, TOLD.len());
    assert_eq!(rt; left, 5);
}
