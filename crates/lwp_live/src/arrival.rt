// A line of the input: a post of a client, or why it is none.
ghost use Rattle.lwp_live.specs.Input.{client_by, rest_of, word_of};
ghost use Rattle.std.specs.Prelude.{◌≡◌, ◌<◌, IfSome};

use lwp_types::Text;
use script_lines::{number_at, reach};

/// A line that a client posts.
#[derive(Drop)]
pub struct Arrival<'s> {
    pub client: u8,
    pub text: Text<'s>,
}

/// Why a line of the input is no post.
#[derive(Clone, Copy, Debug, PartialEq, Eq)]
pub enum Fault {
    /// Its first word is not the number of a client.
    Client,
    /// Its text has more than 240 bytes.
    Length,
    /// A byte of its text is outside 0x20 to 0x7e.
    Byte,
    /// The client has posted as many lines as it may, or the script would be too long.
    Limit,
}

// The first word of a line.
fn word_of(line: &[u8]) -> &[u8]
    ensures { result.now ≡ word_of line.now }
{
    &line[..reach(b' ', line)]
}

/// What stands after the first space of a line.
pub fn rest_of(line: &[u8]) -> &[u8]
    ensures { result.now ≡ rest_of line.now }
{
    let end = reach(b' ', line);
    if end < line.len() {
        &line[end + 1..]
    } else {
        &[]
    }
}

/// The client that a line's first word names, where there are so many.
pub fn client_of(line: &[u8], clients: usize) -> Option<u8>
    requires { clients < 257 }
    ensures value { result ≡ client_by clients (word_of line.now) }
    ensures low { IfSome result (λ client. client < clients) }
{
    let number = number_at(word_of(line))?;
    if (number as usize) < clients {
        Some(number as u8)
    } else {
        None
    }
}
