// The end of a port that the runner takes from.
ghost use Rattle.std.specs.Prelude.{true, ◌≡◌, ◌↔◌, ◌%◌, ◌^◌, [], IfOk, IfSome, IfNone, IsTrue, IsNone};
ghost use Rattle.event_gate.specs.Ends.{TakesLine, FindsNothing, TakesIn, IsTold, IsAllTaken, IsOpen, IsOpenGauge, new_taking, left_of, port_id};
ghost use Rattle.std.specs.Arc.{arc_value};
ghost use Rattle.crossbeam_queue.specs.SegTies.{IsSegPassOf};
ghost use Rattle.event_gate.specs.Gauge.{Glimpse, IsAtGauge, after_find, after_redeem};
ghost use Rattle.event_gate.specs.Port.{Sees, Takes};

use crate::gauge::{GaugeSeat, glance, redeem, take_in_seat};
use crate::port::{Pass, Port};
use crate::poster::PostPass;
use crate::rule::{Take, TakeIn};
use crate::sent::Sent;
use lwp_types::Line;
use std::alloc::{AllocError, Global};
use std::marker::Model;
use std::sync::{Arc, Wait};
use std::thread;

/// The end of a port that the runner takes from.
pub struct Taker<'s> {
    event: u8,
    port: Arc<Port<'s>, Global>,
    pass: Pass<'s>,
    seat: GaugeSeat<'s>,
    // How many lines were taken, modulo 2^64.
    count: u64,
    clients: Vec<u8>,
    // Of each client number, how many of its lines were taken, whether its pass came back, and then how many it posted.
    taken: Vec<u32>,
    told: Vec<bool>,
    posted: Vec<u32>,
}

// PROVER: written by hand, so that a function that drops one calls this instead of repeating its proof.
impl<'s> Drop for Taker<'s> {
    fn drop(self) {
        let Taker {
            event: _,
            port: _,
            pass: _,
            seat: _,
            count: _,
            clients: _,
            taken: _,
            told: _,
            posted: _,
        } = self;
    }
}

impl<'s> Model for Taker<'s> {
    ghost use Rattle.event_gate.specs.Ends.{Taking};
    ghost use Rattle.std.specs.Prelude.{◌≡◌};
    ghost use Rattle.std.specs.Arc.{arc_value};
    ghost use Rattle.crossbeam_queue.specs.SegTies.{IsSegPassOf};
    ghost use Rattle.event_gate.specs.Ends.{IsTakersBook, IsTakersView, port_id, taking};
    ghost use Rattle.event_gate.specs.Gauge.{IsAtGauge};

    ghost Value = { Taking };

    ghost view = { λ s. taking (port_id s.pass.web s.seat.table_id) s.event s.pass.me.view.client s.seat.me.0 };

    // The pass is of the port's queue, and its view is a taker's, of which the fields hold the counts. The seat is of the
    // port's gauge, which is the one that the view names, and its book has the lines that the view took.
    ghost invariant = { λ s. IsSegPassOf (arc_value s.port).queue s.pass
        × IsTakersView s.pass.me.view.client s.clients.items s.taken.items s.told.items s.posted.items s.count
        × IsAtGauge (arc_value s.port).gauge.shared.table_id s.seat.table_id
        × (s.pass.me.view.client.gauge.table ≡ s.seat.table_id)
        × IsTakersBook s.pass.me.view.client s.seat.me.0 };
}

impl<'s> Taker<'s> {
    /// The event that the port is for.
    pub fn event(&self) -> u8
        ensures { result ≡ self.now.event }
    {
        self.event
    }

    /// The end of a port that has posters of these clients, and no lines yet.
    pub(crate) fn new(
        alloc: Global,
        event: u8,
        port: Arc<Port<'s>, Global>,
        pass: Pass<'s>,
        seat: GaugeSeat<'s>,
        clients: &[u8],
    ) -> Result<Taker<'s>, AllocError>
        requires queue { IsSegPassOf (arc_value port).queue pass }
        requires view { IsOpen seat.table_id clients.now pass.me.view.client }
        requires gauge { IsAtGauge (arc_value port).gauge.shared.table_id seat.table_id
            × IsOpenGauge clients.now seat.me.0 }
        ensures { IfOk result
            (λ t. t ≡ new_taking (port_id pass.entry.web seat.entry.table_id) event clients.now) }
    {
        let clients = Vec::from_slice(alloc, clients)?;
        let taken = Vec::from_elem(alloc, 0, 256)?;
        let told = Vec::from_elem(alloc, false, 256)?;
        let posted = Vec::from_elem(alloc, 0, 256)?;
        Ok(Taker {
            event,
            port,
            pass,
            seat,
            count: 0,
            clients,
            taken,
            told,
            posted,
        })
    }

    /// Whether all passes came back.
    pub fn told(&self) -> bool
        ensures { IsTrue result ↔ IsTold self.now }
    {
        for client in &self.clients {
            if !self.told[usize::from(*client)] {
                return false;
            }
        }
        true
    }

    /// Takes the next line. `None` exactly where a step of this call found that all tickets were taken in. A post draws one
    /// before its push, which its line brings along or which goes back where the post is refused. So at that step no post
    /// was under way, and each that was announced before and not refused was among the lines taken (`every_true_find`).
    pub fn take<R: Wait>(&mut self, rt: &R) -> Option<Line<'s>>
        ensures line { IfSome result (TakesLine self.old self.new) }
        ensures nothing { IfNone result (FindsNothing self.old self.new) }
        ensures told { IsTold self.old → IsNone result ↔ IsAllTaken self.old }
    {
        let line = next_line(rt, &self.port, &mut self.pass, &mut self.seat, self.count)?;
        self.count = self.count.wrapping_add(1);
        let client = client_of(&line);
        self.taken[usize::from(client)] = line.seq + 1;
        Some(line)
    }

    /// Takes in what a client has posted in all. It waits for nobody.
    pub fn take_in(&mut self, pass: PostPass<'s>)
        requires port { pass.port ≡ self.old.port }
        ensures { TakesIn self.old pass.entry self.new }
    {
        let PostPass {
            client,
            count,
            pass: other,
            seat: theirs,
        } = pass;
        self.port.queue.absorb::<TakeIn>(&mut self.pass, other);
        take_in_seat(&self.port.gauge, &mut self.seat, theirs);
        self.told[usize::from(client)] = true;
        self.posted[usize::from(client)] = count;
    }

    /// How many lines of the client are left, where its pass came back.
    pub fn left(&self, client: u8) -> u32
        ensures { result ≡ left_of client self.now }
    {
        let client = usize::from(client);
        self.posted[client].saturating_sub(self.taken[client])
    }
}

// Whose line it is. A result has the range of its type, which a field of a value with a lifetime doesn't bring along.
pub(crate) fn client_of(line: &Line) -> u8
    ensures { result ≡ line.now.client }
{
    line.client
}

// The next line, whose ticket is then taken in, or the empty find. Where the queue is empty and somebody else has a ticket,
// a post is under way or has just ended, so it looks again.
fn next_line<'s, R: Wait>(
    rt: &R,
    port: &Port<'s>,
    pass: &mut Pass<'s>,
    seat: &mut GaugeSeat<'s>,
    count: u64,
) -> Option<Line<'s>>
    requires queue { IsSegPassOf port.now.queue pass.old }
    requires gauge { IsAtGauge port.now.gauge.shared.table_id seat.old.table_id }
    requires view { pass.old.me.view.client.takes ≡ true }
    requires named { pass.old.me.view.client.gauge.table ≡ seat.old.table_id }
    requires taker { seat.old.me.0.book.takes ≡ true }
    requires own { count ≡ seat.old.me.0.tickets % 2 ^ 64 }
    ensures queue { IsSegPassOf port.now.queue pass.new × (pass.new.web ≡ pass.old.web) }
    ensures gauge { seat.new.table_id ≡ seat.old.table_id }
    ensures line { IfSome result
        (λ x.
        Takes pass.old.me.view.client x pass.new.me.view.client
        × (seat.new.me.0 ≡ after_redeem seat.old.me.0 x)) }
    ensures nothing { IfNone result
        ((pass.new.me.view.client ≡ pass.old.me.view.client) × Sees pass.old.me.view.client []
        × (seat.new.me.0 ≡ after_find seat.old.me.0 count) × Glimpse count seat.old.me.0) }
{
    for _ in rt.forever() {
        if let Some(sent) = port.queue.pop_as::<Take, R>(rt, pass) {
            let Sent { line, ticket } = sent;
            redeem(&port.gauge, seat, ticket, &line);
            return Some(line);
        }
        if glance(&port.gauge, seat, count) {
            return None;
        }
        thread::yield_now();
    }
    unreachable!()
}
