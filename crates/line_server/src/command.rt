// What a client's text asks for.
ghost use Rattle.line_server.specs.Commands.{Put, Get, Del, is_key_byte, key_len, put_command, command_by, command_of};
ghost use Rattle.line_server.specs.Read.{read_command};
ghost use Rattle.std.specs.Option.{option_map};
ghost use Rattle.lwp_types.specs.TextFields.{is_text};
ghost use Rattle.std.specs.Prelude.{◌≡◌, ◌≤◌, IsTrue, length};

use lwp_types::Text;

/// A command; its key and its value lie in the text.
#[derive(Clone, Copy)]
pub enum Asked<'t> {
    Put { key: &'t [u8], value: &'t [u8] },
    Get { key: &'t [u8] },
    Del { key: &'t [u8] },
}

fn is_key_byte(byte: u8) -> bool
    ensures { result ≡ is_key_byte byte }
{
    byte.is_ascii_lowercase() || byte.is_ascii_digit() || byte == b'_'
}

// The length of the key that bytes begin with.
fn key_len(text: &[u8]) -> usize
    ensures len { result ≡ key_len text.now }
    ensures within { result ≤ length text.now }
{
    let mut len = 0;
    while len < text.len() && is_key_byte(text[len]) {
        len += 1;
    }
    len
}

fn put_command<'t>(key: &'t [u8], behind: &'t [u8]) -> Option<Asked<'t>>
    ensures { option_map read_command result ≡ put_command key.now behind.now }
{
    match behind {
        [] => Some(Asked::Put { key, value: behind }),
        [b' ', value @ ..] if !value.is_empty() => Some(Asked::Put { key, value }),
        _ => None,
    }
}

// What a word asks for, by its key and what follows that.
fn command_by<'t>(word: &[u8], key: &'t [u8], behind: &'t [u8]) -> Option<Asked<'t>>
    ensures { option_map read_command result ≡ command_by word.now key.now behind.now }
{
    match word {
        [b'p', b'u', b't', b' '] => put_command(key, behind),
        [b'g', b'e', b't', b' '] if behind.is_empty() => Some(Asked::Get { key }),
        [b'd', b'e', b'l', b' '] if behind.is_empty() => Some(Asked::Del { key }),
        _ => None,
    }
}

// What bytes ask for, if they are a command.
#[inline(always)]
fn command_in(text: &[u8]) -> Option<Asked<'_>>
    ensures { option_map read_command result ≡ command_of text.now }
{
    if text.len() < 4 {
        return None;
    }
    let (word, rest) = text.split_at(4);
    let len = key_len(rest);
    if len < 1 || 16 < len {
        return None;
    }
    let (key, behind) = rest.split_at(len);
    command_by(word, key, behind)
}

/// What a text asks for, if it is a command. One that lies in parts is none.
#[inline(always)]
pub fn command_of<'t>(text: &Text<'t>) -> Option<Asked<'t>>
    ensures value { option_map read_command result ≡ command_of text.now }
    ensures is_text { IsTrue (is_text text.now) }
{
    match text.plain() {
        Some(bytes) => command_in(bytes),
        None => None,
    }
}
