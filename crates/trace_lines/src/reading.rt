// What a line tells.
ghost use Rattle.std.specs.Prelude.{◌≡◌};
ghost use Rattle.trace_lines.specs.Entries.{also_entry, answer_entry, call_entry, entry_of, event_entry, exit_entry, exit_entry_by, gain_of, id_of, is_closing, is_suspended, line_verb, rites_entry, statement_verb, taken_post, taken_post_of, target_of, thread_entry, tick_entry, trap_entry, verb_of, who_of};
ghost use Rattle.trace_lines.specs.Words.{behind, number, rest, word};

use crate::entry::{Entry, Gain, NOBODY, Verb};
use crate::words::{behind, ends, number, rest, skip, starts, whole_number, word};
use script_lines::{Op, Role};

// What is called by a statement of this kind.
fn statement_verb(op: Op) -> Verb
    ensures { result ≡ statement_verb op }
{
    match op {
        Op::Create => Verb::Create,
        Op::Destroy => Verb::Destroy,
        Op::Suspend => Verb::Suspend,
        Op::Resume => Verb::Resume,
        Op::Join => Verb::Join,
        Op::Sleep => Verb::Sleep,
        Op::Send => Verb::Send,
        Op::Recv => Verb::Receive,
        Op::Enter => Verb::Enter,
        Op::CondEnter => Verb::CondEnter,
        Op::MonExit => Verb::MonExit,
        Op::MonBreak => Verb::MonBreak,
        Op::Wait => Verb::Wait,
        Op::Agent => Verb::Agent,
        Op::Say => Verb::Say,
        _ => Verb::Other,
    }
}

// A line of a script makes a call where it is a statement.
fn line_verb(role: Role, op: Op) -> Option<Verb>
    ensures { result ≡ line_verb role op }
{
    match role {
        Role::Statement => Some(statement_verb(op)),
        _ => None,
    }
}

// The call of a word, if it is one: a trace has the words of a script's statements, and two of its own.
fn verb_of(word: &[u8]) -> Option<Verb>
    ensures { result ≡ verb_of word.now }
{
    if word == b"onexit".as_slice() {
        return Some(Verb::OnExit);
    }
    if word == b"note".as_slice() {
        return Some(Verb::Other);
    }
    match Op::at(word) {
        Some(op) => line_verb(op.role(), op),
        None => None,
    }
}

// A number after a letter, or nobody.
fn id_of(text: &[u8]) -> u64
    ensures { result ≡ id_of text.now }
{
    match number(skip(1, text)) {
        Some(id) => id,
        None => NOBODY,
    }
}

fn who_of(me: u64, text: &[u8]) -> u64
    ensures { result ≡ who_of me text.now }
{
    if starts(b"self", text) {
        me
    } else {
        id_of(text)
    }
}

fn event_of(text: &[u8]) -> u64
    ensures { result ≡ target_of Verb.Agent 0 text.now }
{
    match number(text) {
        Some(event) => event,
        None => NOBODY,
    }
}

fn target_of(verb: Verb, me: u64, text: &[u8]) -> u64
    ensures { result ≡ target_of verb me text.now }
{
    match verb {
        Verb::Create | Verb::OnExit | Verb::Sleep | Verb::Say | Verb::Other => NOBODY,
        Verb::Agent => event_of(text),
        Verb::Destroy | Verb::Suspend | Verb::Resume | Verb::Join | Verb::Send | Verb::Receive =>
            who_of(me, text),
        Verb::Enter | Verb::CondEnter | Verb::MonExit | Verb::MonBreak | Verb::Wait => id_of(text),
    }
}

fn is_suspended(verb: Verb, text: &[u8]) -> bool
    ensures { result ≡ is_suspended verb text.now }
{
    match verb {
        Verb::Create => starts(b"s", rest(rest(text))),
        _ => false,
    }
}

fn call_entry(tid: u64, text: &[u8]) -> Option<Entry>
    ensures { result ≡ call_entry tid text.now }
{
    let verb = verb_of(word(text))?;
    let behind = rest(text);
    Some(Entry::Called {
        tid,
        verb,
        target: target_of(verb, tid, behind),
        suspended: is_suspended(verb, behind),
    })
}

fn gain_of(text: &[u8]) -> Gain
    ensures { result ≡ gain_of text.now }
{
    if starts(b"letter ", text) {
        return Gain::Letter(id_of(skip(7, text)));
    }
    if starts(b"reply", text) {
        return Gain::Reply;
    }
    if starts(b"t", text) {
        return Gain::Thread(id_of(text));
    }
    match number(text) {
        Some(value) => Gain::Value(value),
        None => Gain::Other,
    }
}

// The line of a trap that is raised, after its word: nothing follows the number.
fn trap_entry(tid: u64, text: &[u8]) -> Option<Entry>
    ensures { result ≡ trap_entry tid text.now }
{
    let event = whole_number(text)?;
    Some(Entry::Trapped { tid, event })
}

fn answer_entry(tid: u64, text: &[u8]) -> Option<Entry>
    ensures { result ≡ answer_entry tid text.now }
{
    if starts(b" = ", text) {
        let gain = gain_of(skip(3, text));
        return Some(Entry::Answered { tid, gain });
    }
    if starts(b" ! ", text) {
        let gain = Gain::Refused;
        return Some(Entry::Answered { tid, gain });
    }
    if starts(b" caught ", text) {
        let gain = Gain::Caught;
        return Some(Entry::Answered { tid, gain });
    }
    if text == b" dies".as_slice() {
        return Some(Entry::Died { tid });
    }
    if starts(b" trap ", text) {
        return trap_entry(tid, skip(6, text));
    }
    None
}

// The line of a thread, after its letter.
fn thread_entry(text: &[u8]) -> Option<Entry>
    ensures { result ≡ thread_entry (number text.now) (behind text.now) }
{
    let tid = number(text)?;
    let behind = behind(text);
    if starts(b": ", behind) {
        call_entry(tid, skip(2, behind))
    } else {
        answer_entry(tid, behind)
    }
}

// What an exit procedure has done: it was refused, unless its line ends with a 0.
fn exit_call(reg: u64, text: &[u8]) -> Option<Entry>
    ensures { result ≡ exit_entry_by reg text.now (verb_of (word text.now)) }
{
    let verb = verb_of(word(text))?;
    let names = rest(text);
    Some(Entry::Exited {
        reg,
        verb,
        target: target_of(verb, NOBODY, names),
        refused: !ends(b" = 0", text),
    })
}

// The line of an exit procedure, after its letter.
fn exit_entry(text: &[u8]) -> Option<Entry>
    ensures { result ≡ exit_entry (number text.now) (behind text.now) }
{
    let reg = number(text)?;
    let behind = behind(text);
    if !starts(b" ", behind) {
        return None;
    }
    exit_call(reg, skip(1, behind))
}

fn posted_by(text: &[u8]) -> Option<(u64, u64)>
    ensures { result ≡ taken_post_of (number text.now) (behind text.now) }
{
    let client = number(text)?;
    let behind = behind(text);
    if !starts(b" seq ", behind) {
        return None;
    }
    let seq = number(skip(5, behind))?;
    Some((client, seq))
}

// Whose line was taken, and its number.
fn posted(text: &[u8]) -> Option<(u64, u64)>
    ensures { result ≡ taken_post text.now }
{
    if !starts(b" client ", text) {
        return None;
    }
    posted_by(skip(8, text))
}

// The line of a delivery, after its word.
fn event_entry(text: &[u8]) -> Option<Entry>
    ensures { result ≡ event_entry (number text.now) (behind text.now) }
{
    let event = number(text)?;
    let (client, seq) = posted(behind(text))?;
    Some(Entry::Event { event, client, seq })
}

// The line of a later delivery, after its letter: nothing follows the number.
fn also_entry(text: &[u8]) -> Option<Entry>
    ensures { result ≡ also_entry text.now }
{
    let agent = whole_number(text)?;
    Some(Entry::Also { agent })
}

// The line of a report, after the letter of the dead: nothing follows the agent.
fn rites_entry(text: &[u8]) -> Option<Entry>
    ensures { result ≡ rites_entry (number text.now) (behind text.now) }
{
    let dead = number(text)?;
    let behind = behind(text);
    if !starts(b" to t", behind) {
        return None;
    }
    let agent = whole_number(skip(5, behind))?;
    Some(Entry::Rites { agent, dead })
}

// The line of a tick, after its word.
fn tick_entry(text: &[u8]) -> Option<Entry>
    ensures { result ≡ tick_entry (number text.now) (behind text.now) }
{
    let now = number(text)?;
    let (client, seq) = posted(behind(text))?;
    Some(Entry::Tick { now, client, seq })
}

fn is_closing(line: &[u8]) -> bool
    ensures { result ≡ is_closing line.now }
{
    starts(b"pod ends ", line)
        || line == b"stuck".as_slice()
        || starts(b"spent ", line)
        || starts(b"left client ", line)
}

/// What a line tells, without its newline; None, where it is no line of a trace.
pub fn entry_of(line: &[u8]) -> Option<Entry>
    ensures { result ≡ entry_of line.now }
{
    if starts(b"tick ", line) {
        return tick_entry(skip(5, line));
    }
    if starts(b"t", line) {
        return thread_entry(skip(1, line));
    }
    if starts(b"exit x", line) {
        return exit_entry(skip(6, line));
    }
    if starts(b"event ", line) {
        return event_entry(skip(6, line));
    }
    if starts(b"also t", line) {
        return also_entry(skip(6, line));
    }
    if starts(b"rites t", line) {
        return rites_entry(skip(7, line));
    }
    if is_closing(line) {
        return Some(Entry::Closing);
    }
    None
}
