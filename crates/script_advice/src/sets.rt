// What the lines of a text set, start and ask for.
ghost use Rattle.std.specs.Prelude.{◌≡◌};
ghost use Rattle.script_advice.specs.Doubts.{condition_set, condition_used, event_asked, greater, is_asked, is_clock, is_poster, lends_send, makes_stayer, monitor_promised, monitor_set, monitor_used, priority_given, priority_used, procedure_started, sender_set, thread_set, thread_used};

use crate::habits::{Habits, name_if};
use crate::lines::first_line;
use lwp_types::{NoMemory, Sequence};
use script_lines::{Op, Phrase, phrase_at};
use script_text::NameList;
use std::alloc::Global;

/// The names that lines set, the monitors that their exit procedures leave, the procedures that they start, the events that they ask for,
/// and the greatest priority that they give the pod; 0 means a line that asks for no event.
pub struct Sets {
    pub threads: NameList,
    pub monitors: NameList,
    pub conditions: NameList,
    pub promised: NameList,
    pub started: NameList,
    pub asked: Sequence<u32>,
    pub most: u32,
    /// There is a client of event 0.
    pub clocked: bool,
    /// There is a client of another event.
    pub posted: bool,
    /// The agents, and the threads that begin in a procedure that sends.
    pub senders: NameList,
    /// A `call` begins a procedure that sends.
    pub lent: bool,
    /// A thread may stay that isn't a server.
    pub stayed: bool,
    pub habits: Habits,
}

// PROVER: written by hand, so that a function that drops these calls this instead of repeating its proof.
impl Drop for Sets {
    fn drop(self) {
        let Sets {
            threads: _,
            monitors: _,
            conditions: _,
            promised: _,
            started: _,
            asked: _,
            most: _,
            clocked: _,
            posted: _,
            senders: _,
            lent: _,
            stayed: _,
            habits: _,
        } = self;
    }
}

// The thread that a line names, if it sets the name.
fn thread_set<'l>(phrase: &Phrase<'l>) -> &'l [u8]
    ensures { result.now ≡ thread_set phrase.now.op phrase.now }
{
    match phrase.op {
        Op::Create | Op::Agent => phrase.thread,
        _ => &[],
    }
}

/// The thread that a line names, if it doesn't set the name.
pub fn thread_used<'l>(phrase: &Phrase<'l>) -> &'l [u8]
    ensures { result.now ≡ thread_used phrase.now.op phrase.now }
{
    match phrase.op {
        Op::Create | Op::Agent => &[],
        _ => phrase.thread,
    }
}

// The monitor that a line names, if it sets the name.
fn monitor_set<'l>(phrase: &Phrase<'l>) -> &'l [u8]
    ensures { result.now ≡ monitor_set phrase.now.op phrase.now }
{
    match phrase.op {
        Op::MonCreate => phrase.monitor,
        _ => &[],
    }
}

/// The monitor that a line names, if it doesn't set the name.
pub fn monitor_used<'l>(phrase: &Phrase<'l>) -> &'l [u8]
    ensures { result.now ≡ monitor_used phrase.now.op phrase.now }
{
    match phrase.op {
        Op::MonCreate => &[],
        _ => phrase.monitor,
    }
}

// The condition that a line names, if it sets the name.
fn condition_set<'l>(phrase: &Phrase<'l>) -> &'l [u8]
    ensures { result.now ≡ condition_set phrase.now.op phrase.now }
{
    match phrase.op {
        Op::CvCreate => phrase.condition,
        _ => &[],
    }
}

/// The condition that a line names, if it doesn't set the name.
pub fn condition_used<'l>(phrase: &Phrase<'l>) -> &'l [u8]
    ensures { result.now ≡ condition_used phrase.now.op phrase.now }
{
    match phrase.op {
        Op::CvCreate => &[],
        _ => phrase.condition,
    }
}

// The monitor that an exit procedure leaves which a line sets.
fn monitor_promised<'l>(phrase: &Phrase<'l>) -> &'l [u8]
    ensures { result.now ≡ monitor_promised phrase.now.op phrase.now }
{
    match phrase.op {
        Op::ExitMonExit | Op::ExitMonBreak => phrase.monitor,
        _ => &[],
    }
}

// The procedure that a line starts.
fn procedure_started<'l>(phrase: &Phrase<'l>) -> &'l [u8]
    ensures { result.now ≡ procedure_started phrase.now }
{
    if phrase.op.starts() {
        phrase.procedure
    } else {
        &[]
    }
}

// The event that a line asks for; 0 for a line that asks for none.
fn event_asked(phrase: &Phrase<'_>) -> u32
    ensures { result ≡ event_asked phrase.now.op phrase.now }
{
    match phrase.op {
        Op::Agent | Op::Trap => phrase.number,
        Op::Native => u32::from(phrase.event),
        _ => 0,
    }
}

// The greatest priority that a line gives the pod; 0 for a line that gives none.
fn priority_given(phrase: &Phrase<'_>) -> u32
    ensures { result ≡ priority_given phrase.now.op phrase.now }
{
    match phrase.op {
        Op::Pod | Op::SetMaxPri => phrase.number,
        _ => 0,
    }
}

/// The priority that a line gives a thread, or speaks of; 0 for a line that has none.
pub fn priority_used(phrase: &Phrase<'_>) -> u32
    ensures { result ≡ priority_used phrase.now.op phrase.now }
{
    if phrase.op.ranks() { phrase.number } else { 0 }
}

// Whether a line declares a client that posts ticks.
fn is_clock(phrase: &Phrase<'_>) -> bool
    ensures { result ≡ is_clock phrase.now.op phrase.now }
{
    match phrase.op {
        Op::Client => phrase.event == 0,
        _ => false,
    }
}

// Whether a line declares a client that posts lines, at another event.
fn is_poster(phrase: &Phrase<'_>) -> bool
    ensures { result ≡ is_poster phrase.now.op phrase.now }
{
    match phrase.op {
        Op::Client => 0 < phrase.event,
        _ => false,
    }
}

// The thread that a line makes, if a letter of it may come.
fn sender_set<'l>(habits: &Habits, phrase: &Phrase<'l>) -> &'l [u8]
    ensures { result.now ≡ sender_set habits.now phrase.now.op phrase.now }
{
    match phrase.op {
        Op::Create => name_if(habits.sending.contains(phrase.procedure), phrase.thread),
        Op::Agent => phrase.thread,
        _ => &[],
    }
}

// Whether a line lets any thread into a procedure that sends.
fn lends_send(habits: &Habits, phrase: &Phrase<'_>) -> bool
    ensures { result ≡ lends_send habits.now phrase.now.op phrase.now }
{
    match phrase.op {
        Op::CallProc => habits.sending.contains(phrase.procedure),
        _ => false,
    }
}

// Whether a line makes a thread that may stay, and isn't a server.
fn makes_stayer(habits: &Habits, phrase: &Phrase<'_>) -> bool
    ensures { result ≡ makes_stayer habits.now phrase.now.op phrase.now }
{
    match phrase.op {
        Op::Create => !phrase.flags.server
            && (phrase.flags.suspended || habits.staying.contains(phrase.procedure)),
        _ => false,
    }
}

fn greater(m: u32, n: u32) -> u32
    ensures { result ≡ greater m n }
{
    if m < n { n } else { m }
}

fn is_asked(events: &[u32], event: u32) -> bool
    ensures { result ≡ is_asked events.now event }
{
    events.iter().any(|asked| *asked == event)
}

impl Sets {
    ghost use Rattle.std.specs.Prelude.{◌≡◌, OnOk, IfOk, fold};
    ghost use Rattle.script_text.specs.Spelling.{line_cut};
    ghost use Rattle.script_lines.specs.Reading.{phrase_at};
    ghost use Rattle.script_advice.specs.Doubts.{is_asked, no_sets, sets_on, sets_after_phrase};

    // Nothing is set, in a text whose procedures do this.
    fn new(alloc: Global, habits: Habits) -> Sets
        ensures { result ≡ no_sets habits }
    {
        let stayed = habits.first;
        Sets {
            threads: NameList::new(alloc),
            monitors: NameList::new(alloc),
            conditions: NameList::new(alloc),
            promised: NameList::new(alloc),
            started: NameList::new(alloc),
            asked: Sequence::new(alloc),
            most: 0,
            clocked: false,
            posted: false,
            senders: NameList::new(alloc),
            lent: false,
            stayed,
            habits,
        }
    }

    // Notes what a line sets.
    fn note(&mut self, phrase: &Phrase<'_>) -> Result<(), NoMemory>
        ensures { OnOk result (self.new ≡ sets_after_phrase self.old phrase.now) }
    {
        self.threads.enter(thread_set(phrase))?;
        self.monitors.enter(monitor_set(phrase))?;
        self.conditions.enter(condition_set(phrase))?;
        self.promised.enter(monitor_promised(phrase))?;
        self.started.enter(procedure_started(phrase))?;
        self.senders.enter(sender_set(&self.habits, phrase))?;
        self.clocked = self.clocked || is_clock(phrase);
        self.posted = self.posted || is_poster(phrase);
        self.lent = self.lent || lends_send(&self.habits, phrase);
        self.stayed = self.stayed || makes_stayer(&self.habits, phrase);
        self.most = greater(self.most, priority_given(phrase));
        self.asked.push(event_asked(phrase))
    }

    // Notes what a line sets, if it says anything.
    fn note_line(&mut self, line: &[u8]) -> Result<(), NoMemory>
        ensures { OnOk result (self.new ≡ sets_on self.old line.now) }
    {
        match phrase_at(line) {
            Some(phrase) => self.note(&phrase),
            None => Ok(()),
        }
    }

    /// What the lines of a text set, whose procedures do this.
    pub fn by(alloc: Global, habits: Habits, text: &[u8]) -> Result<Sets, NoMemory>
        ensures { IfOk result
            (λ sets. sets ≡ fold sets_on (no_sets habits) (line_cut text.now).0) }
    {
        let mut sets = Sets::new(alloc, habits);
        let mut rest = text;
        while let Some((line, after)) = first_line(rest) {
            sets.note_line(line)?;
            rest = after;
        }
        Ok(sets)
    }

    /// Whether a line asks for the event.
    pub fn asks(&self, event: u8) -> bool
        ensures { result ≡ is_asked self.now.asked event }
    {
        is_asked(self.asked.as_slice(), u32::from(event))
    }
}
