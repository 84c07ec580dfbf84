// What a seat of a gauge knows of the lines that were announced. No value of it is made.
use crate::view::Told;
use lwp_types::Line;
use std::collections::LinkedList;

/// Which lines a seat has announced, of which it has the tickets, and what it was told.
pub struct Book<'s> {
    /// It is a client's poster.
    pub posts: bool,
    pub client: u8,
    /// The lines that it has announced and not taken back, in order.
    pub sent: LinkedList<Line<'s>>,
    /// The lines of its tickets.
    pub lines: LinkedList<Line<'s>>,
    /// It is the taker.
    pub takes: bool,
    /// The clients of which a poster was made.
    pub noted: LinkedList<u8>,
    /// The client of the next poster.
    pub next: u8,
    /// What the clients whose seats came back have announced in all.
    pub known: LinkedList<Told<'s>>,
}
