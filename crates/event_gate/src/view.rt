// What a pass of a port's queue knows. No value of these types is made.
ghost use base.Fml.{ftrue};
ghost use Rattle.atomic_table.specs.Seated.{TableId, table_id_coded};

use lwp_types::Line;
use std::collections::LinkedList;
use std::marker::Model;

/// Which gauge it is.
pub struct GaugeName {
    pub ghost table: { TableId } by { table_id_coded },
}

impl Model for GaugeName {
    ghost also_owns = { λ _. ftrue };
}

/// What a client has posted in all.
pub struct Told<'s> {
    pub client: u8,
    pub posted: LinkedList<Line<'s>>,
}

/// What a pass may do and what it knows.
pub struct View<'s> {
    /// It is a client's poster.
    pub posts: bool,
    pub client: u8,
    pub posted: LinkedList<Line<'s>>,
    /// It is the taker.
    pub takes: bool,
    pub taken: LinkedList<Line<'s>>,
    /// The clients of which a poster was made.
    pub noted: LinkedList<u8>,
    /// What the clients whose passes came back have posted in all.
    pub known: LinkedList<Told<'s>>,
    /// The client of the next poster.
    pub next: u8,
    /// The port isn't open yet.
    pub opens: bool,
    /// The gauge of which the lines bring tickets.
    pub gauge: GaugeName,
}
