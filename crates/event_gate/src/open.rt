// How a port is made.
ghost use Rattle.std.specs.Prelude.{◌≡◌, ◌≢◌, false, true, [], ◌∷◌, ◌++◌, map, AllPairs, IfOk, OnOk};
ghost use Rattle.std.specs.Arc.{arc_value};
ghost use Rattle.crossbeam_queue.specs.SegTies.{IsSegPassOf};
ghost use Rattle.event_gate.specs.Port.{is_noted, starting, unnamed_view, with_next};
ghost use Rattle.event_gate.specs.Gauge.{IsAtGauge};
ghost use Rattle.event_gate.specs.Ends.{IsOpen, IsOpenGauge, new_taking, port_id, posting};

use crate::gauge::{GaugeSeat, another_seat, enroll, open_gauge};
use crate::port::{Pass, Port};
use crate::poster::Poster;
use crate::rule::{Name, Next, Open, Start, Zero};
use crate::sent::Sent;
use crate::taker::Taker;
use crossbeam_queue::RuledSegQueue;
use lwp_types::{Line, NoMemory, Text};
use std::alloc::{AllocError, Global};
use std::sync::{Arc, Wait};

// PROVER: counts up the number of the next client in the taker's view, pass by pass, since a view is made of views
// alone. The passes are dropped.
fn aim<'s>(port: &Port<'s>, pass: &mut Pass<'s>, client: u8)
    requires queue { IsSegPassOf port.now.queue pass.old }
    requires view { pass.old.me.view.client.takes ≡ true }
    ensures queue { IsSegPassOf port.now.queue pass.new × (pass.new.web ≡ pass.old.web) }
    ensures view { pass.new.me.view.client ≡ with_next pass.old.me.view.client client }
{
    let _ = port.queue.another::<Zero>(pass);
    for _ in 0..client {
        let _ = port.queue.another::<Next>(pass);
    }
}

// PROVER: the first element is pushed through the new queue, and popped again, so that the queue's rule learns which
// gauge the port has. Nobody else has a pass yet, so it comes back.
fn name_port<'s, R: Wait>(
    rt: &R,
    port: &Port<'s>,
    pass: &mut Pass<'s>,
    seat: &mut GaugeSeat<'s>,
) -> Result<(), NoMemory>
    requires gauge { IsAtGauge port.now.gauge.shared.table_id seat.old.table_id }
    requires queue { IsSegPassOf port.now.queue pass.old }
    requires view { pass.old.me.view.client ≡ unnamed_view }
    ensures gauge { (seat.new.table_id ≡ seat.old.table_id) × (seat.new.me.0 ≡ seat.old.me.0) }
    ensures queue { IsSegPassOf port.now.queue pass.new }
    ensures view { OnOk result (pass.new.me.view.client ≡ starting seat.old.table_id) }
{
    let ticket = another_seat(&port.gauge, seat);
    let line = Line {
        client: 0,
        seq: 0,
        text: Text::empty(),
    };
    let Ok(()) = port
        .queue
        .push_as::<Name, R>(rt, pass, Sent { line, ticket })
    else {
        return Err(NoMemory);
    };
    let Some(_) = port.queue.pop_as::<Start, R>(rt, pass) else {
        return Err(NoMemory);
    };
    Ok(())
}

// A poster of one more client.
fn open_poster<'s>(
    port: &Arc<Port<'s>, Global>,
    pass: &mut Pass<'s>,
    seat: &mut GaugeSeat<'s>,
    client: u8,
) -> Result<Poster<'s>, AllocError>
    requires gauge { IsAtGauge (arc_value port.now).gauge.shared.table_id seat.old.table_id }
    requires queue { IsSegPassOf (arc_value port.now).queue pass.old }
    requires view { IsOpen seat.old.table_id pass.old.me.view.client.noted pass.old.me.view.client }
    requires seats { IsOpenGauge pass.old.me.view.client.noted seat.old.me.0 }
    requires new { is_noted client pass.old.me.view.client.noted ≡ false }
    ensures gauge { seat.new.table_id ≡ seat.old.table_id }
    ensures queue { IsSegPassOf (arc_value port.now).queue pass.new × (pass.new.web ≡ pass.old.web) }
    ensures view { IfOk result
        (λ p.
        IsOpen seat.old.table_id (pass.old.me.view.client.noted ++ client ∷ [])
        pass.new.me.view.client) }
    ensures seats { IfOk result
        (λ p. IsOpenGauge (pass.old.me.view.client.noted ++ client ∷ []) seat.new.me.0) }
    ensures poster { IfOk result (λ p. p ≡ posting (port_id pass.old.web seat.old.table_id) client) }
{
    let port = Arc::try_clone(port)?;
    aim(&port, pass, client);
    let theirs = port.queue.another::<Open>(pass);
    let announces = enroll(&port.gauge, seat, client);
    Ok(Poster::new(client, port, theirs, announces))
}

// A poster of each client, in order.
fn open_posters<'s>(
    alloc: Global,
    port: &Arc<Port<'s>, Global>,
    pass: &mut Pass<'s>,
    seat: &mut GaugeSeat<'s>,
    clients: &[u8],
) -> Result<Vec<Poster<'s>>, AllocError>
    requires gauge { IsAtGauge (arc_value port.now).gauge.shared.table_id seat.old.table_id }
    requires queue { IsSegPassOf (arc_value port.now).queue pass.old }
    requires view { IsOpen seat.old.table_id [] pass.old.me.view.client }
    requires seats { IsOpenGauge [] seat.old.me.0 }
    requires distinct { AllPairs (λ a b. a ≢ b) clients.now }
    ensures gauge { seat.new.table_id ≡ seat.old.table_id }
    ensures queue { IsSegPassOf (arc_value port.now).queue pass.new × (pass.new.web ≡ pass.old.web) }
    ensures view { IfOk result (λ v. IsOpen seat.old.table_id clients.now pass.new.me.view.client) }
    ensures seats { IfOk result (λ v. IsOpenGauge clients.now seat.new.me.0) }
    ensures posters { IfOk result
        (λ v. v.items ≡ map (posting (port_id pass.old.web seat.old.table_id)) clients.now) }
{
    let mut posters = Vec::new(alloc);
    for client in clients {
        posters.reserve(1)?;
        let poster = open_poster(port, pass, seat, *client)?;
        posters.push_reserved(poster);
    }
    Ok(posters)
}

/// A port for this event, and a poster for each client, in order. All memory that the taker ever needs is taken here.
pub fn open_port<'s, R: Wait>(
    rt: &R,
    alloc: Global,
    event: u8,
    clients: &[u8],
) -> Result<(Taker<'s>, Vec<Poster<'s>>), NoMemory>
    requires { AllPairs (λ a b. a ≢ b) clients.now }
    ensures taker { IfOk result (λ r. r.0 ≡ new_taking r.0.port event clients.now) }
    ensures posters { IfOk result (λ r. r.1.items ≡ map (posting r.0.port) clients.now) }
{
    let (gauge, mut seat) = open_gauge(alloc)?;
    let (queue, mut pass) = RuledSegQueue::with_rule(alloc)?;
    let port = Arc::new(alloc, Port { queue, gauge })?;
    name_port(rt, &port, &mut pass, &mut seat)?;
    let posters = open_posters(alloc, &port, &mut pass, &mut seat, clients)?;
    let taker = Taker::new(alloc, event, port, pass, seat, clients)?;
    Ok((taker, posters))
}
