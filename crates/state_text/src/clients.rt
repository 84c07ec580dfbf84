// The clients of a session.
ghost use Rattle.std.specs.Prelude.{◌≡◌, ◌++◌, List, OnOk, ℕ};
ghost use Rattle.state_text.specs.Text.{client_line, client_lines, taken_of};

use crate::words::add_word_number;
use lwp_types::{NoMemory, Sequence};
use trace_text::add_text;

/// A client: its event, from 0 to 31, and how many lines it posts in all.
#[derive(Clone, Copy)]
pub struct ClientLines {
    pub event: u8,
    pub posts: u64,
}

// How many lines of a client were taken.
pub(crate) fn taken_of(taken: &Sequence<u64>, client: usize) -> u64
    ensures { result ≡ taken_of taken.now client }
{
    taken.as_slice().get(client).copied().unwrap_or(0)
}

fn add_client(
    out: &mut Vec<u8>,
    number: u64,
    client: &ClientLines,
    taken: u64,
) -> Result<(), NoMemory>
    ensures { (all : List ℕ) → taken_of all number ≡ taken →
        OnOk result (out.new.items ≡ out.old.items ++ client_line all number client.now) }
{
    add_word_number(out, b"client ", number)?;
    add_word_number(out, b" event ", u64::from(client.event))?;
    add_word_number(out, b" taken ", taken)?;
    add_word_number(out, b" left ", client.posts.saturating_sub(taken))?;
    add_text(out, b"\n")
}

// A line for each client.
pub(crate) fn add_clients(
    out: &mut Vec<u8>,
    clients: &[ClientLines],
    taken: &Sequence<u64>,
) -> Result<(), NoMemory>
    ensures { OnOk result (out.new.items ≡ out.old.items ++ client_lines taken.now 0 clients.now) }
{
    for i in 0..clients.len() {
        add_client(out, i as u64, &clients[i], taken_of(taken, i))?;
    }
    Ok(())
}
