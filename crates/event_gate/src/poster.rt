// The end of a port that one client posts to.
ghost use Rattle.std.specs.Prelude.{◌≡◌, ◌+◌, ◌<◌, true, length, [], OnOk, IfErr};
ghost use Rattle.std.specs.Arc.{arc_value};
ghost use Rattle.crossbeam_queue.specs.SegTies.{IsSegPassOf};
ghost use Rattle.event_gate.specs.Port.{poster, after_post, name_of, IsTicketed};
ghost use Rattle.event_gate.specs.Gauge.{IsAtGauge, posting_seat};
ghost use Rattle.event_gate.specs.Ends.{once_refused, port_id, posting, posting_with};

use crate::gauge::{GaugeSeat, announce, withdraw};
use crate::port::{Pass, Port};
use crate::rule::Post;
use crate::sent::Sent;
use lwp_types::Line;
use std::alloc::Global;
use std::marker::Model;
use std::sync::{Arc, Wait};

/// A line that was not posted, since the post ran out of memory.
#[derive(Drop)]
pub struct PostRefused<'s> {
    pub line: Line<'s>,
}

/// The end of a port that one client posts to. Contracts see the client, the lines that it has posted, how many posts it has
/// announced and not taken back, and how many were refused.
pub struct Poster<'s> {
    client: u8,
    count: u32,
    port: Arc<Port<'s>, Global>,
    pass: Pass<'s>,
    seat: GaugeSeat<'s>,
}

// PROVER: written by hand, so that a function that drops one calls this instead of repeating its proof.
impl<'s> Drop for Poster<'s> {
    fn drop(self) {
        let Poster {
            client: _,
            count: _,
            port: _,
            pass: _,
            seat: _,
        } = self;
    }
}

impl<'s> Model for Poster<'s> {
    ghost use Rattle.event_gate.specs.Ends.{Posting};
    ghost use Rattle.std.specs.Prelude.{◌≡◌, ◌+◌, [], length};
    ghost use Rattle.std.specs.Arc.{arc_value};
    ghost use Rattle.crossbeam_queue.specs.SegTies.{IsSegPassOf};
    ghost use Rattle.event_gate.specs.Ends.{IsPostersView, port_id};
    ghost use Rattle.event_gate.specs.Gauge.{IsAtGauge, at_work, posts_each};

    ghost Value = { Posting };

    ghost view = { λ s. record {
      port = port_id s.pass.web s.seat.table_id;
      client = s.client;
      posted = s.pass.me.view.client.posted;
      announced = s.seat.me.0.announced;
      refused = s.seat.me.0.marks.refused;
    } };

    // The pass is of the port's queue, and its view is this client's poster's, of which the field holds the count. The
    // seat is of the port's gauge, has announced what the view posted and carries nothing, and has room for the rest; and the
    // view names this gauge.
    ghost invariant = { λ s. IsSegPassOf (arc_value s.port).queue s.pass
        × IsPostersView s.pass.me.view.client s.client s.count
        × IsAtGauge (arc_value s.port).gauge.shared.table_id s.seat.table_id
        × (s.seat.me ≡ (at_work s.client s.pass.me.view.client.posted s.seat.me.0.marks, []))
        × (s.pass.me.view.client.gauge.table ≡ s.seat.table_id)
        × (s.seat.me.0.marks.room + length s.pass.me.view.client.posted ≡ posts_each) };
}

impl<'s> Poster<'s> {
    /// The end of a client that has posted nothing.
    pub(crate) fn new(
        client: u8,
        port: Arc<Port<'s>, Global>,
        pass: Pass<'s>,
        seat: GaugeSeat<'s>,
    ) -> Poster<'s>
        requires queue { IsSegPassOf (arc_value port).queue pass }
        requires view { pass.me.view.client ≡ poster (name_of seat.table_id) client [] }
        requires gauge { IsAtGauge (arc_value port).gauge.shared.table_id seat.table_id
            × (seat.me ≡ (posting_seat client, [])) }
        ensures { result ≡ posting (port_id pass.entry.web seat.entry.table_id) client }
    {
        Poster {
            client,
            count: 0,
            port,
            pass,
            seat,
        }
    }

    /// Whose end it is.
    pub fn client(&self) -> u8
        ensures { result ≡ self.now.client }
    {
        self.client
    }

    /// How many lines the client has posted.
    pub fn count(&self) -> u32
        ensures { result ≡ length self.now.posted }
    {
        self.count
    }

    /// Announces the client's next post, and then posts its line. A line that was refused is not posted, and its announcement
    /// is taken back. Nothing else counts as refused.
    pub fn post<R: Wait>(&mut self, rt: &R, line: Line<'s>) -> Result<(), PostRefused<'s>>
        requires client { line.client ≡ self.old.client }
        requires next { line.seq ≡ length self.old.posted }
        requires room { length self.old.posted < 4294967295 }
        ensures posted { OnOk result (self.new ≡ posting_with self.old line.entry) }
        ensures refused { IfErr result (λ e. (e.line ≡ line.entry) × (self.new ≡ once_refused self.old)) }
    {
        let ticket = announce(&self.port.gauge, &mut self.seat, &line);
        if let Err(sent) = push_announced(rt, &self.port, &mut self.pass, Sent { line, ticket }) {
            let Sent { line, ticket } = sent;
            withdraw(&self.port.gauge, &mut self.seat, ticket, &line);
            return Err(PostRefused { line });
        }
        self.count += 1;
        Ok(())
    }

    /// What the client has posted, for good.
    pub fn finish(self) -> PostPass<'s>
        ensures { result ≡ self.entry }
    {
        let Poster {
            client,
            count,
            port: _,
            pass,
            seat,
        } = self;
        PostPass {
            client,
            count,
            pass,
            seat,
        }
    }
}

// The one push of a line. It brings the ticket of its announcement, which was made before.
fn push_announced<'s, R: Wait>(
    rt: &R,
    port: &Port<'s>,
    pass: &mut Pass<'s>,
    sent: Sent<'s>,
) -> Result<(), Sent<'s>>
    requires queue { IsSegPassOf port.now.queue pass.old }
    requires ticket { IsTicketed pass.old.me.view.client.gauge.table sent }
    requires view { pass.old.me.view.client.posts ≡ true }
    requires line { (sent.line.client ≡ pass.old.me.view.client.client)
        × (sent.line.seq ≡ length pass.old.me.view.client.posted) × (sent.line.seq < 4294967295) }
    ensures queue { IsSegPassOf port.now.queue pass.new × (pass.new.web ≡ pass.old.web) }
    ensures posted { OnOk result
        (pass.new.me.view.client ≡ after_post pass.old.me.view.client sent.entry.line) }
    ensures refused { IfErr result
        (λ x. (x ≡ sent.entry) × (pass.new.me.view.client ≡ pass.old.me.view.client)) }
{
    port.queue.push_as::<Post, R>(rt, pass, sent)
}

/// What a client has posted, for good. Contracts see it as its poster.
#[derive(Drop)]
pub struct PostPass<'s> {
    pub(crate) client: u8,
    pub(crate) count: u32,
    pub(crate) pass: Pass<'s>,
    pub(crate) seat: GaugeSeat<'s>,
}

impl<'s> Model for PostPass<'s> {
    ghost use Rattle.event_gate.specs.Ends.{Posting};
    ghost use Rattle.std.specs.Prelude.{◌≡◌, [], None};
    ghost use Rattle.event_gate.specs.Ends.{IsPostersView, port_id};
    ghost use Rattle.event_gate.specs.Gauge.{at_work};

    ghost Value = { Posting };

    ghost view = { λ s. record {
      port = port_id s.pass.web s.seat.table_id;
      client = s.client;
      posted = s.pass.me.view.client.posted;
      announced = s.seat.me.0.announced;
      refused = s.seat.me.0.marks.refused;
    } };

    // The pass carries nothing, and its view is this client's poster's, of which the field holds the count. The seat has
    // announced what the view posted, and carries nothing.
    ghost invariant = { λ s. (s.pass.me.hand ≡ None)
        × (s.pass.me.spare ≡ None)
        × IsPostersView s.pass.me.view.client s.client s.count
        × (s.seat.me ≡ (at_work s.client s.pass.me.view.client.posted s.seat.me.0.marks, [])) };
}
