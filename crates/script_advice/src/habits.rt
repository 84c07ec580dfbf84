// What the procedures of a text do.
ghost use Rattle.std.specs.Prelude.{◌≡◌};
ghost use Rattle.script_advice.specs.Habits.{may_stay, may_wait, name_if, sends, takes, ticks_in};

use lwp_types::{Mode, NoMemory};
use script_lines::{Op, Phrase, Role};
use script_text::NameList;
use std::alloc::Global;

/// What the procedures do that begin ahead, and the lines ahead in the one that hasn't begun yet.
pub struct Habits {
    /// One of these lines sends a letter.
    pub sends: bool,
    /// One of them makes an agent for the lines of clients.
    pub takes: bool,
    /// A thread may wait at one of them, or go on elsewhere.
    pub stays: bool,
    /// A thread may stay in the first of the procedures.
    pub first: bool,
    /// The procedures that send letters.
    pub sending: NameList,
    /// The procedures that take the lines of clients.
    pub taking: NameList,
    /// The procedures in which a thread may stay.
    pub staying: NameList,
}

// PROVER: written by hand, so that a function that drops these calls this instead of repeating its proof.
impl Drop for Habits {
    fn drop(self) {
        let Habits {
            sends: _,
            takes: _,
            stays: _,
            first: _,
            sending: _,
            taking: _,
            staying: _,
        } = self;
    }
}

// Whether a line sends a letter.
fn sends(op: Op) -> bool
    ensures { result ≡ sends op }
{
    match op {
        Op::Send => true,
        _ => false,
    }
}

// Whether a line makes an agent that takes the lines of clients.
fn takes(phrase: &Phrase<'_>) -> bool
    ensures { result ≡ takes phrase.now.op phrase.now }
{
    match phrase.op {
        Op::Agent => 0 < phrase.number && phrase.number <= 31,
        _ => false,
    }
}

/// How many ticks a receive waits for at most; 0 where it waits for none.
pub fn ticks_in(mode: Mode) -> u32
    ensures { result ≡ ticks_in mode }
{
    match mode {
        Mode::Until { ticks } => ticks,
        Mode::Poll | Mode::Block => 0,
    }
}

// Whether a receive may wait.
fn may_wait(mode: Mode) -> bool
    ensures { result ≡ may_wait mode }
{
    match mode {
        Mode::Poll => false,
        Mode::Block => true,
        Mode::Until { ticks } => 0 < ticks,
    }
}

// Whether a thread may wait at a line, or go on elsewhere.
fn may_stay(phrase: &Phrase<'_>) -> bool
    ensures { result ≡ may_stay phrase.now.op phrase.now }
{
    match phrase.op {
        Op::Again
        | Op::CallProc
        | Op::CondEnter
        | Op::Enter
        | Op::Join
        | Op::Raise
        | Op::Send
        | Op::Suspend
        | Op::Wait => true,
        Op::Recv => may_wait(phrase.mode),
        Op::Sleep => 0 < phrase.number,
        _ => false,
    }
}

/// The name, if it is to be noted, and else the empty word.
pub fn name_if(noted: bool, name: &[u8]) -> &[u8]
    ensures { result.now ≡ name_if noted name.now }
{
    if noted { name } else { &[] }
}

impl Habits {
    ghost use Rattle.std.specs.Prelude.{◌≡◌, OnOk};
    ghost use Rattle.script_advice.specs.Habits.{habits_by, habits_of_native, habits_of_proc, habits_with, no_habits};

    /// Before all lines.
    pub fn none(alloc: Global) -> Habits
        ensures { result ≡ no_habits }
    {
        Habits {
            sends: false,
            takes: false,
            stays: false,
            first: false,
            sending: NameList::new(alloc),
            taking: NameList::new(alloc),
            staying: NameList::new(alloc),
        }
    }

    // Notes a built-in procedure of this event.
    fn note_native(&mut self, event: u8, name: &[u8]) -> Result<(), NoMemory>
        ensures { OnOk result (self.new ≡ habits_of_native event name.now self.old) }
    {
        let serves = 0 < event;
        self.sending.enter(name_if(serves, name))?;
        self.taking.enter(name_if(serves, name))?;
        self.staying.enter(name)
    }

    // Notes the procedure that begins here.
    fn note_proc(&mut self, name: &[u8]) -> Result<(), NoMemory>
        ensures { OnOk result (self.new ≡ habits_of_proc name.now self.old) }
    {
        self.sending.enter(name_if(self.sends, name))?;
        self.taking.enter(name_if(self.takes, name))?;
        self.staying.enter(name_if(self.stays, name))?;
        self.first = self.stays;
        self.sends = false;
        self.takes = false;
        self.stays = false;
        Ok(())
    }

    // Puts a line in front.
    fn put(&mut self, phrase: &Phrase<'_>)
        ensures { self.new ≡ habits_with phrase.now.op phrase.now self.old }
    {
        self.sends = self.sends || sends(phrase.op);
        self.takes = self.takes || takes(phrase);
        self.stays = self.stays || may_stay(phrase);
    }

    /// Puts a line of this role in front.
    pub fn note(&mut self, role: Role, phrase: &Phrase<'_>) -> Result<(), NoMemory>
        ensures { OnOk result (self.new ≡ habits_by role phrase.now self.old) }
    {
        match role {
            Role::Native => self.note_native(phrase.event, phrase.procedure)?,
            Role::Proc => self.note_proc(phrase.procedure)?,
            _ => self.put(phrase),
        }
        Ok(())
    }
}
