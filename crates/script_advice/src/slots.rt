// Which words may stand in a slot, as the reader of lines takes them.
ghost use Rattle.std.specs.Prelude.{◌≡◌, is_some};
ghost use Rattle.script_lines.specs.Reading.{agent_event_at, client_at, event_at, flags_at, func_at, mode_at, pattern_at, room_at, session_at, source_at, value_at, who_at};
ghost use Rattle.script_advice.specs.Slots.{fits, is_built, is_test};

use script_lines::{Kind, is_name, number_at, reach};

fn is_who(word: &[u8]) -> bool
    ensures { result ≡ is_some (who_at word.now) }
{
    is_name(word)
        || word == b"self".as_slice()
        || word == b"first".as_slice()
        || word == b"sender".as_slice()
        || word == b"none".as_slice()
}

fn is_source(word: &[u8]) -> bool
    ensures { result ≡ is_some (source_at word.now) }
{
    word == b"any".as_slice() || is_who(word)
}

// A number of at most so much.
fn is_room(word: &[u8]) -> bool
    ensures { result ≡ is_some (room_at word.now) }
{
    matches!(number_at(word), Some(n) if n <= 240)
}

fn is_client(word: &[u8]) -> bool
    ensures { result ≡ is_some (client_at word.now) }
{
    matches!(number_at(word), Some(n) if n <= 15)
}

fn is_event(word: &[u8]) -> bool
    ensures { result ≡ is_some (event_at word.now) }
{
    matches!(number_at(word), Some(n) if n <= 31)
}

fn is_agent_event(word: &[u8]) -> bool
    ensures { result ≡ is_some (agent_event_at word.now) }
{
    matches!(number_at(word), Some(n) if 1 <= n && n <= 31)
}

// Flags by their letters.
#[tactic(auto, unfolding(script_lines::specs::Reading::flags_at))]
fn is_flags(word: &[u8]) -> bool
    ensures { result ≡ is_some (flags_at word.now) }
{
    b"-".as_slice() == word
        || b"s".as_slice() == word
        || b"n".as_slice() == word
        || b"sn".as_slice() == word
        || b"v".as_slice() == word
        || b"sv".as_slice() == word
        || b"nv".as_slice() == word
        || b"snv".as_slice() == word
}

fn is_mode(word: &[u8]) -> bool
    ensures { result ≡ is_some (mode_at word.now) }
{
    word == b"poll".as_slice() || word == b"wait".as_slice() || number_at(word).is_some()
}

fn is_pattern(word: &[u8]) -> bool
    ensures { result ≡ is_some (pattern_at word.now) }
{
    word == b"all".as_slice() || number_at(word).is_some()
}

fn is_func(word: &[u8]) -> bool
    ensures { result ≡ is_some (func_at word.now) }
{
    word == b"-".as_slice() || word == b"give".as_slice() || word == b"sum".as_slice()
}

/// Whether the word may stand in the slot. A condition, what a built-in procedure is, and a text aren't single words.
pub fn fits(kind: Kind, word: &[u8]) -> bool
    ensures { result ≡ fits kind word.now }
{
    match kind {
        Kind::Thread | Kind::Procedure | Kind::Monitor | Kind::Condition => is_name(word),
        Kind::Who => is_who(word),
        Kind::Source => is_source(word),
        Kind::Number | Kind::Priority => number_at(word).is_some(),
        Kind::Room => is_room(word),
        Kind::Client => is_client(word),
        Kind::Event => is_event(word),
        Kind::Flags => is_flags(word),
        Kind::Mode => is_mode(word),
        Kind::Pattern => is_pattern(word),
        Kind::Func => is_func(word),
        Kind::Test | Kind::Built | Kind::Text => false,
    }
}

// `is` and a number.
fn is_value(words: &[u8]) -> bool
    ensures { result ≡ is_some (value_at words.now) }
{
    match words {
        [b'i', b's', b' ', digits @ ..] => number_at(digits).is_some(),
        _ => false,
    }
}

/// Whether the words are a condition.
pub fn is_test(words: &[u8]) -> bool
    ensures { result ≡ is_test words.now }
{
    words == b"ok".as_slice()
        || words == b"err".as_slice()
        || words == b"caught".as_slice()
        || is_value(words)
}

// The event and the name of a session.
fn is_session(words: &[u8]) -> bool
    ensures { result ≡ is_some (session_at words.now) }
{
    let (event, rest) = words.split_at(reach(b' ', words));
    match rest {
        [b' ', name @ ..] => is_agent_event(event) && is_name(name),
        _ => false,
    }
}

/// Whether the words say what a built-in procedure is.
pub fn is_built(words: &[u8]) -> bool
    ensures { result ≡ is_built words.now }
{
    if words == b"store".as_slice() {
        return true;
    }
    match words.strip_prefix(b"session ") {
        Some(more) => is_session(more),
        None => false,
    }
}
