// How far the input was read, and what its next line is.
ghost use Rattle.lwp_live.specs.Input.{post_line};
ghost use Rattle.std.specs.Prelude.{◌≡◌, ◌≤◌, IfOk, decimal, length};
ghost use Rattle.trace_text.specs.Lines.{with_space};

use crate::arrival::{Arrival, Fault, client_of, rest_of};
use lwp_types::{NoMemory, TEXT_MAX, Text};
use script_lines::is_printable;
use script_session::SCRIPT_MAX;
use std::alloc::Global;
use std::marker::Model;
use trace_text::{add_number, add_spaced_text, add_text};

/// The most lines that a client may post.
pub(crate) const CLIENT_LINES: u32 = 20_000;

/// How many lines each client has, how many bytes the script has with them, and how many lines of the input there were.
#[derive(Drop)]
pub struct Desk {
    counts: Vec<u32>,
    size: u64,
    lines: u64,
}

impl Model for Desk {
    ghost use Rattle.lwp_live.specs.Input.{Standing};

    ghost Value = { Standing };

    ghost view = { λ d. record { counts = d.counts.items; size = d.size; lines = d.lines } };
}

/// A post as a line of a script.
pub fn post_line(alloc: Global, arrival: &Arrival) -> Result<Vec<u8>, NoMemory>
    ensures { IfOk result (λ line. line.items ≡ post_line arrival.now) }
{
    let mut line = Vec::new(alloc);
    add_text(&mut line, b"post ")?;
    add_number(&mut line, u64::from(arrival.client))?;
    add_spaced_text(&mut line, &arrival.text)?;
    add_text(&mut line, b"\n")?;
    Ok(line)
}

// How many digits a client's number has.
#[tactic(auto, using(crate::proofs::DeskLaws::one_digit, crate::proofs::DeskLaws::two_digits, crate::proofs::DeskLaws::length_three))]
fn digits_of(client: u8) -> u64
    ensures value { result ≡ length (decimal client) }
    ensures few { result ≤ 3 }
{
    if client < 10 {
        return 1;
    }
    if client < 100 {
        return 2;
    }
    3
}

// How many bytes a text has on its line, with the space before it.
#[tactic(auto, using(crate::proofs::DeskLaws::no_space, crate::proofs::DeskLaws::length_space))]
fn spaced_len(text: &Text) -> u64
    requires { length text.now ≤ 16777216 }
    ensures value { result ≡ length (with_space text.now) }
    ensures few { result ≤ 16777217 }
{
    let len = text.len() as u64;
    if len == 0 {
        return 0;
    }
    len + 1
}

// How many bytes the line of a post has.
#[tactic(auto, using(crate::proofs::DeskLaws::length_line))]
fn line_len(arrival: &Arrival) -> u64
    requires { length arrival.now.text ≤ 16777216 }
    ensures { result ≡ length (post_line arrival.now) }
{
    5 + digits_of(arrival.client) + spaced_len(&arrival.text) + 1
}

impl Desk {
    ghost use Rattle.lwp_live.specs.Input.{after_arrival, after_line, counted, has_room, judge, judge_text};
    ghost use Rattle.std.specs.Prelude.{◌≡◌, ◌<◌, ◌≤◌, IfOk, IsTrue, length, replicate, slice_index_or};

    /// Before the first line of an input: no client has a line, and the script has so many bytes.
    pub fn new(alloc: Global, clients: usize, size: u64) -> Result<Desk, NoMemory>
        ensures { IfOk result
            (λ d. d ≡ record { counts = replicate clients 0; size = size; lines = 0 }) }
    {
        Ok(Desk {
            counts: Vec::from_elem(alloc, 0, clients)?,
            size,
            lines: 0,
        })
    }

    /// How many lines of the input there were.
    pub fn lines(&self) -> u64
        ensures { result ≡ self.now.lines }
    {
        self.lines
    }

    // How many lines a client has; the most that it may, where there is no such client.
    fn count_of(&self, client: u8) -> u32
        ensures { result ≡ slice_index_or self.now.counts client 20000 }
    {
        let client = usize::from(client);
        if client < self.counts.len() {
            return self.counts[client];
        }
        CLIENT_LINES
    }

    // Whether the client may post one line more, of this text.
    fn has_room(&self, arrival: &Arrival) -> bool
        requires { length arrival.now.text ≤ 240 }
        ensures { result ≡ has_room self.now arrival.now }
    {
        self.count_of(arrival.client) < CLIENT_LINES
            && self.size.saturating_add(line_len(arrival)) <= SCRIPT_MAX as u64
    }

    // What a client's text is.
    fn judge_text<'s>(&self, client: u8, text: &'s [u8]) -> Result<Arrival<'s>, Fault>
        ensures { result ≡ judge_text self.now (record { client = client; text = text.now }) }
    {
        if text.len() > TEXT_MAX {
            return Err(Fault::Length);
        }
        if !is_printable(text) {
            return Err(Fault::Byte);
        }
        let arrival = Arrival {
            client,
            text: Text::lent(text),
        };
        if self.has_room(&arrival) {
            Ok(arrival)
        } else {
            Err(Fault::Limit)
        }
    }

    /// What a line of the input is: a post, or why it is none.
    pub fn judge<'s>(&self, line: &'s [u8]) -> Result<Arrival<'s>, Fault>
        requires { length self.now.counts < 257 }
        ensures { result ≡ judge self.now line.now }
    {
        match client_of(line, self.counts.len()) {
            Some(client) => self.judge_text(client, rest_of(line)),
            None => Err(Fault::Client),
        }
    }

    /// A client has one line more, which the script has already.
    #[tactic(auto, using(crate::proofs::DeskLaws::set_counted, crate::proofs::DeskLaws::inside))]
    pub fn count(&mut self, client: u8)
        requires { slice_index_or self.old.counts client 20000 < 20000 }
        ensures { self.new ≡ record self.old { counts = counted client self.old.counts } }
    {
        self.counts[usize::from(client)] += 1;
    }

    /// A client has posted one line more.
    pub fn admit(&mut self, arrival: &Arrival)
        requires { IsTrue (has_room self.old arrival.now) }
        ensures { self.new ≡ after_arrival self.old arrival.now }
    {
        self.count(arrival.client);
        self.size += line_len(arrival);
    }

    /// One line of the input more was read.
    pub fn pass(&mut self)
        ensures { self.new ≡ after_line self.old }
    {
        self.lines = self.lines.saturating_add(1);
    }
}
