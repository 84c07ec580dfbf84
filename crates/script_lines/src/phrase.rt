// A line, taken apart by its row of the table.
ghost use Rattle.std.specs.Prelude.{◌≡◌, [], drop, Some, None, option_map};
ghost use Rattle.script_lines.specs.Words.{is_name};
ghost use Rattle.script_lines.specs.Table.{is_half, key_length};
ghost use Rattle.script_lines.specs.Line.{blank};
ghost use Rattle.trace_text.specs.Lines.{flags_text};
ghost use Rattle.script_lines.specs.Reading.{flags_by, flags_in, flags_at, room_at, client_at, event_at, agent_event_at, mode_at, pattern_at, func_at, value_at, test_at, name_in, who_at, source_at, session_at, built_at, fill_word, fill_text, fill_test, fill_built, slot_at, fill, phrase_at};

use crate::table::{Kind, Op, Test, Whom};
use crate::words::{is_name, is_text, number_at, reach};
use lwp_types::{Flags, Func, Mode, Pattern};
use std::marker::Model;

/// What a line says: its row, and what is in the slots. A slot that the row doesn't have is empty. Words are bytes of the
/// line.
pub struct Phrase<'l> {
    pub op: Op,
    pub who: Whom,
    pub thread: &'l [u8],
    pub procedure: &'l [u8],
    pub monitor: &'l [u8],
    pub condition: &'l [u8],
    pub number: u32,
    pub room: u8,
    pub client: u8,
    pub event: u8,
    pub flags: Flags,
    pub mode: Mode,
    pub pattern: Pattern,
    pub func: Func,
    pub test: Test,
    pub text: &'l [u8],
}

impl<'l> Drop for Phrase<'l> {
    fn drop(self) {
        let Phrase {
            op: _,
            who: _,
            thread: _,
            procedure: _,
            monitor: _,
            condition: _,
            number: _,
            room: _,
            client: _,
            event: _,
            flags: _,
            mode: _,
            pattern: _,
            func: _,
            test: _,
            text: _,
        } = self;
    }
}

impl<'l> Model for Phrase<'l> {
    ghost use Rattle.std.specs.Prelude.{IsTrue};
    ghost use Rattle.lwp_types.specs.TextFields.{is_text};
    ghost use Rattle.script_lines.specs.Phrase.{Phrase as AnyPhrase};

    ghost Value = { AnyPhrase };

    ghost view = { λ p. record {
      op = p.op;
      who = p.who;
      thread = p.thread.now;
      procedure = p.procedure.now;
      monitor = p.monitor.now;
      condition = p.condition.now;
      number = p.number;
      room = p.room;
      client = p.client;
      event = p.event;
      flags = p.flags;
      mode = p.mode;
      pattern = p.pattern;
      func = p.func;
      test = p.test;
      text = p.text.now;
    } };

    ghost invariant = { λ p. IsTrue (is_text p.text.now) };
}

fn flags_by(suspended: bool, nolastrites: bool, server: bool) -> Flags
    ensures { result ≡ flags_by suspended nolastrites server }
{
    Flags {
        suspended,
        nolastrites,
        server,
    }
}

/// A key with nothing after it.
pub fn blank<'l>(op: Op) -> Phrase<'l>
    ensures { result ≡ blank op }
{
    Phrase {
        op,
        who: Whom::Named,
        thread: &[],
        procedure: &[],
        monitor: &[],
        condition: &[],
        number: 0,
        room: 0,
        client: 0,
        event: 0,
        flags: flags_by(false, false, false),
        mode: Mode::Poll,
        pattern: Pattern::All,
        func: Func::Nothing,
        test: Test::Fine,
        text: &[],
    }
}

// The word, if it is a name.
fn name_in(word: &[u8]) -> Option<&[u8]>
    ensures { option_map (λ w. w.now) result ≡ name_in word.now }
{
    if is_name(word) { Some(word) } else { None }
}

// What the word is, if it means a thread, and its bytes if it is a name.
fn who_at(word: &[u8]) -> Option<(Whom, &[u8])>
    ensures { option_map (λ x. (x.0, x.1.now)) result ≡ who_at word.now }
{
    if is_name(word) {
        Some((Whom::Named, word))
    } else if word == b"self".as_slice() {
        Some((Whom::Me, &[]))
    } else if word == b"first".as_slice() {
        Some((Whom::First, &[]))
    } else if word == b"sender".as_slice() {
        Some((Whom::Sender, &[]))
    } else if word == b"none".as_slice() {
        Some((Whom::Nobody, &[]))
    } else {
        None
    }
}

// What a word is that says from whom to receive: `any`, or a word that means a thread.
fn source_at(word: &[u8]) -> Option<(Whom, &[u8])>
    ensures { option_map (λ x. (x.0, x.1.now)) result ≡ source_at word.now }
{
    if word == b"any".as_slice() {
        Some((Whom::Any, &[]))
    } else {
        who_at(word)
    }
}

// A number of bytes that a text may have.
fn room_at(word: &[u8]) -> Option<u8>
    ensures { result ≡ room_at word.now }
{
    match number_at(word) {
        Some(room) if room <= 240 => Some(room as u8),
        _ => None,
    }
}

/// A client that is written so.
pub fn client_at(word: &[u8]) -> Option<u8>
    ensures { result ≡ client_at word.now }
{
    match number_at(word) {
        Some(client) if client <= 15 => Some(client as u8),
        _ => None,
    }
}

fn event_at(word: &[u8]) -> Option<u8>
    ensures { result ≡ event_at word.now }
{
    match number_at(word) {
        Some(event) if event <= 31 => Some(event as u8),
        _ => None,
    }
}

// The number of an event that an agent may have: not the clock's.
fn agent_event_at(word: &[u8]) -> Option<u8>
    ensures { result ≡ agent_event_at word.now }
{
    match number_at(word) {
        Some(event) if 1 <= event && event <= 31 => Some(event as u8),
        _ => None,
    }
}

fn pattern_at(word: &[u8]) -> Option<Pattern>
    ensures { result ≡ pattern_at word.now }
{
    if word == b"all".as_slice() {
        Some(Pattern::All)
    } else {
        number_at(word).map(Pattern::Num)
    }
}

fn func_at(word: &[u8]) -> Option<Func>
    ensures { result ≡ func_at word.now }
{
    if word == b"-".as_slice() {
        Some(Func::Nothing)
    } else if word == b"give".as_slice() {
        Some(Func::Give)
    } else if word == b"sum".as_slice() {
        Some(Func::Sum)
    } else {
        None
    }
}

fn mode_at(word: &[u8]) -> Option<Mode>
    ensures { result ≡ mode_at word.now }
{
    if word == b"poll".as_slice() {
        Some(Mode::Poll)
    } else if word == b"wait".as_slice() {
        Some(Mode::Block)
    } else {
        number_at(word).map(|ticks| Mode::Until { ticks })
    }
}

fn letters(flags: Flags) -> &'static [u8]
    ensures { result.now ≡ flags_text flags }
{
    match (flags.suspended, flags.nolastrites, flags.server) {
        (false, false, false) => b"-",
        (true, false, false) => b"s",
        (false, true, false) => b"n",
        (true, true, false) => b"sn",
        (false, false, true) => b"v",
        (true, false, true) => b"sv",
        (false, true, true) => b"nv",
        (true, true, true) => b"snv",
    }
}

fn flags_in(all: &[Flags], word: &[u8]) -> Option<Flags>
    ensures { result ≡ flags_in all.now word.now }
{
    for flags in all {
        if letters(*flags) == word {
            return Some(*flags);
        }
    }
    None
}

#[tactic(auto, unfolding(crate::specs::Reading::flags_at))]
fn flags_at(word: &[u8]) -> Option<Flags>
    ensures { result ≡ flags_at word.now }
{
    let all = [
        flags_by(false, false, false),
        flags_by(true, false, false),
        flags_by(false, true, false),
        flags_by(true, true, false),
        flags_by(false, false, true),
        flags_by(true, false, true),
        flags_by(false, true, true),
        flags_by(true, true, true),
    ];
    flags_in(&all, word)
}

// `is` and a number.
fn value_at(words: &[u8]) -> Option<Test>
    ensures { result ≡ value_at words.now }
{
    match words {
        [b'i', b's', b' ', digits @ ..] => number_at(digits).map(Test::Value),
        _ => None,
    }
}

fn test_at(words: &[u8]) -> Option<Test>
    ensures { result ≡ test_at words.now }
{
    if words == b"ok".as_slice() {
        Some(Test::Fine)
    } else if words == b"err".as_slice() {
        Some(Test::Refused)
    } else if words == b"caught".as_slice() {
        Some(Test::Caught)
    } else {
        value_at(words)
    }
}

// The event and the name of a session.
fn session_at(words: &[u8]) -> Option<(u8, &[u8])>
    ensures { option_map (λ x. (x.0, x.1.now)) result ≡ session_at words.now }
{
    let (event, rest) = words.split_at(reach(b' ', words));
    match (agent_event_at(event), rest) {
        (Some(event), [b' ', name @ ..]) if is_name(name) => Some((event, name)),
        _ => None,
    }
}

// What a built-in procedure is: a store has no event.
fn built_at(words: &[u8]) -> Option<(u8, &[u8])>
    ensures { option_map (λ x. (x.0, x.1.now)) result ≡ built_at words.now }
{
    if words == b"store".as_slice() {
        return Some((0, &[]));
    }
    match words.strip_prefix(b"session ") {
        Some(more) => session_at(more),
        None => None,
    }
}

// Puts what a word says into its slot, if it says what may stand there.
fn put<T: Copy>(slot: &mut T, said: Option<T>) -> Option<()>
    ensures { option_map (λ done. slot.new) result ≡ said }
{
    *slot = said?;
    Some(())
}

// Sets whom a phrase speaks of, if a word says so.
fn put_who<'l>(phrase: &mut Phrase<'l>, said: Option<(Whom, &'l [u8])>) -> Option<()>
    ensures { option_map (λ done. phrase.new) result
        ≡ option_map (λ x. record phrase.old { who = x.0; thread = x.1.now }) said.entry }
{
    (phrase.who, phrase.thread) = said?;
    Some(())
}

// Fills a slot by a word.
fn fill_word<'l>(kind: Kind, phrase: &mut Phrase<'l>, word: &'l [u8]) -> Option<()>
    ensures { option_map (λ done. phrase.new) result ≡ fill_word kind phrase.old word.now }
{
    match kind {
        Kind::Thread => put(&mut phrase.thread, name_in(word)),
        Kind::Who => put_who(phrase, who_at(word)),
        Kind::Source => put_who(phrase, source_at(word)),
        Kind::Procedure => put(&mut phrase.procedure, name_in(word)),
        Kind::Monitor => put(&mut phrase.monitor, name_in(word)),
        Kind::Condition => put(&mut phrase.condition, name_in(word)),
        Kind::Number | Kind::Priority => put(&mut phrase.number, number_at(word)),
        Kind::Room => put(&mut phrase.room, room_at(word)),
        Kind::Client => put(&mut phrase.client, client_at(word)),
        Kind::Event => put(&mut phrase.event, event_at(word)),
        Kind::Flags => put(&mut phrase.flags, flags_at(word)),
        Kind::Mode => put(&mut phrase.mode, mode_at(word)),
        Kind::Pattern => put(&mut phrase.pattern, pattern_at(word)),
        Kind::Func => put(&mut phrase.func, func_at(word)),
        Kind::Test | Kind::Built | Kind::Text => None,
    }
}

// Fills the text by all that is left.
fn fill_text<'l>(phrase: &mut Phrase<'l>, rest: &'l [u8]) -> Option<&'l [u8]>
    ensures { option_map (λ more. (phrase.new, more.now)) result ≡ fill_text phrase.old rest.now }
{
    match rest {
        [] => {
            phrase.text = &[];
            Some(&[])
        }
        [b' ', text @ ..] if !text.is_empty() && is_text(text) => {
            phrase.text = text;
            Some(&[])
        }
        _ => None,
    }
}

fn fill_test<'l>(phrase: &mut Phrase<'l>, rest: &'l [u8]) -> Option<&'l [u8]>
    ensures { option_map (λ more. (phrase.new, more.now)) result ≡ fill_test phrase.old rest.now }
{
    match rest {
        [b' ', words @ ..] => {
            put(&mut phrase.test, test_at(words))?;
            Some(&[])
        }
        _ => None,
    }
}

fn fill_built<'l>(phrase: &mut Phrase<'l>, rest: &'l [u8]) -> Option<&'l [u8]>
    ensures { option_map (λ more. (phrase.new, more.now)) result ≡ fill_built phrase.old rest.now }
{
    match rest {
        [b' ', words @ ..] => {
            (phrase.event, phrase.thread) = built_at(words)?;
            Some(&[])
        }
        _ => None,
    }
}

// Fills the next slot, and gives what is left.
fn slot_at<'l>(kind: Kind, phrase: &mut Phrase<'l>, rest: &'l [u8]) -> Option<&'l [u8]>
    ensures { option_map (λ more. (phrase.new, more.now)) result ≡ slot_at kind phrase.old rest.now }
{
    if kind == Kind::Text {
        return fill_text(phrase, rest);
    }
    if kind == Kind::Test {
        return fill_test(phrase, rest);
    }
    if kind == Kind::Built {
        return fill_built(phrase, rest);
    }
    match rest {
        [b' ', more @ ..] => {
            let (word, after) = more.split_at(reach(b' ', more));
            match fill_word(kind, phrase, word) {
                None => None,
                Some(()) => Some(after),
            }
        }
        _ => None,
    }
}

// Fills all slots, where nothing is left.
fn fill<'l>(kinds: &[Kind], phrase: &mut Phrase<'l>, rest: &'l [u8]) -> Option<()>
    ensures { option_map (λ done. phrase.new) result ≡ fill kinds.now phrase.old rest.now }
{
    let mut left = rest;
    for kind in kinds {
        match slot_at(*kind, phrase, left) {
            None => return None,
            Some(more) => left = more,
        }
    }
    if left.is_empty() { Some(()) } else { None }
}

// Whether the word is no key without the next one.
fn is_half(word: &[u8]) -> bool
    ensures { result ≡ is_half word.now }
{
    match word {
        [b'l', ..] => word == b"limit".as_slice(),
        [b'o', ..] => word == b"onexit".as_slice(),
        _ => false,
    }
}

// How long the key of a line is.
fn key_length(line: &[u8]) -> usize
    ensures { result ≡ key_length line.now }
{
    let first = reach(b' ', line);
    if !is_half(&line[..first]) {
        return first;
    }
    if first == line.len() {
        return first + 1;
    }
    first + 1 + reach(b' ', &line[first + 1..])
}

/// What the line says, if its row of the table has what is in it.
pub fn phrase_at(line: &[u8]) -> Option<Phrase<'_>>
    ensures { result ≡ phrase_at line.now }
{
    let (key, rest) = line.split_at(key_length(line).min(line.len()));
    let op = Op::at(key)?;
    let mut phrase = blank(op);
    fill(op.slots(), &mut phrase, rest)?;
    Some(phrase)
}
