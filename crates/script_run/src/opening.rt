// How the inlets are opened.
ghost use Rattle.script_run.specs.Inlets.{fresh, is_lane};
ghost use Rattle.script_run.specs.Opening.{AreOpen, AreSeated};
ghost use Rattle.script_run.specs.Served.{clients_of};
ghost use Rattle.script_run.specs.Ties.{any_intake};
ghost use Rattle.std.specs.Prelude.{All, AllPairs, IfOk, MatchOption, OnOk, [], eqb, false, length, map, set, true, vec_len, ◌<◌, ◌∷◌, ◌≡◌, ◌≢◌, ◌≤◌, ◌+◌};

use crate::inlet::{AnyInlet, RunnerEnd};
use crate::poster::AnyPoster;
use event_gate::open_port;
use lanes::open_lane;
use lwp_types::NoMemory;
use std::alloc::Global;
use std::sync::Wait;

// How many events there are, from 0 on.
const EVENTS: u8 = 32;

/// A client's end, and the place of its inlet.
#[derive(Drop)]
pub struct Seat<'s> {
    pub inlet: usize,
    pub poster: AnyPoster<'s>,
}

/// All inlets, and of each client its seat.
#[derive(Drop)]
pub struct Opened<'s> {
    pub inlets: Vec<AnyInlet<'s>>,
    pub seats: Vec<Option<Seat<'s>>>,
}

// The clients that post to an event, in order.
fn clients_of(alloc: Global, events: &[u8], event: u8) -> Result<Vec<u8>, NoMemory>
    requires { length events.now ≤ 16 }
    ensures { IfOk result (λ v. v.items ≡ clients_of events.now event) }
{
    let mut clients = Vec::new(alloc);
    for client in 0..events.len() {
        if events[client] == event {
            clients.push(client as u8)?;
        }
    }
    Ok(clients)
}

fn put_seat<'s>(seats: &mut Vec<Option<Seat<'s>>>, client: u8, seat: Seat<'s>)
    requires { client < vec_len seats.old }
    ensures { seats.new.items ≡ set seats.old.items client (Some seat.entry) }
{
    seats[usize::from(client)] = Some(seat);
}

// A lane for the one client of an event.
fn open_for_one<'s>(
    alloc: Global,
    event: u8,
    client: u8,
    rooms: &[u32],
    index: usize,
    seats: &mut Vec<Option<Seat<'s>>>,
) -> Result<AnyInlet<'s>, NoMemory>
    requires rooms { client < length rooms.now }
    requires few { All (λ room. room ≤ 20000) rooms.now }
    requires seats { client < vec_len seats.old }
    ensures inlet { IfOk result (λ r. any_intake r ≡ fresh (any_intake r).place event (client ∷ [])) }
    ensures lane { IfOk result (λ r. is_lane (any_intake r).place ≡ true) }
    ensures seats { IfOk result
        (λ r.
        AreSeated rooms.now index (any_intake r).place (client ∷ [])
        seats.old.items seats.new.items) }
{
    let lines = rooms[usize::from(client)];
    let (lane, poster) = open_lane(alloc, event, client, lines)?;
    let poster = AnyPoster::Lane(poster);
    let seat = Seat {
        inlet: index,
        poster,
    };
    put_seat(seats, client, seat);
    Ok(AnyInlet {
        end: RunnerEnd::Lane(lane),
    })
}

// A port for the clients of an event.
fn open_for_many<'s, R: Wait>(
    rt: &R,
    alloc: Global,
    event: u8,
    clients: &[u8],
    rooms: &[u32],
    index: usize,
    seats: &mut Vec<Option<Seat<'s>>>,
) -> Result<AnyInlet<'s>, NoMemory>
    requires distinct { AllPairs (λ a b. a ≢ b) clients.now }
    requires few { All (λ room. room ≤ 20000) rooms.now }
    requires seats { All (λ c. c < vec_len seats.old) clients.now }
    ensures inlet { IfOk result (λ r. any_intake r ≡ fresh (any_intake r).place event clients.now) }
    ensures port { IfOk result (λ r. is_lane (any_intake r).place ≡ false) }
    ensures seats { IfOk result
        (λ r.
        AreSeated rooms.now index (any_intake r).place clients.now
        seats.old.items seats.new.items) }
{
    let (port, posters) = open_port(rt, alloc, event, clients)?;
    for poster in posters {
        let client = poster.client();
        let poster = AnyPoster::Port(poster);
        let seat = Seat {
            inlet: index,
            poster,
        };
        put_seat(seats, client, seat);
    }
    Ok(AnyInlet {
        end: RunnerEnd::Port(port),
    })
}

// The client, where there is no other.
fn sole_client(clients: &[u8]) -> Option<u8>
    ensures { MatchOption result (length clients.now ≢ 1) (λ c. clients.now ≡ c ∷ []) }
{
    match clients {
        [client] => Some(*client),
        _ => None,
    }
}

// The inlet of an event that has these clients, and their seats.
fn open_inlet<'s, R: Wait>(
    rt: &R,
    alloc: Global,
    event: u8,
    clients: &[u8],
    rooms: &[u32],
    index: usize,
    seats: &mut Vec<Option<Seat<'s>>>,
) -> Result<AnyInlet<'s>, NoMemory>
    requires distinct { AllPairs (λ a b. a ≢ b) clients.now }
    requires rooms { All (λ c. c < length rooms.now) clients.now }
    requires few { All (λ room. room ≤ 20000) rooms.now }
    requires seats { vec_len seats.old ≡ length rooms.now }
    ensures inlet { IfOk result (λ r. any_intake r ≡ fresh (any_intake r).place event clients.now) }
    ensures lane { IfOk result (λ r. is_lane (any_intake r).place ≡ eqb (length clients.now) 1) }
    ensures seats { IfOk result
        (λ r.
        AreSeated rooms.now index (any_intake r).place clients.now
        seats.old.items seats.new.items) }
{
    if let Some(client) = sole_client(clients) {
        open_for_one(alloc, event, client, rooms, index, seats)
    } else {
        open_for_many(rt, alloc, event, clients, rooms, index, seats)
    }
}

// As many seats as there are clients, all vacant.
fn vacant_seats<'s>(alloc: Global, clients: usize) -> Result<Vec<Option<Seat<'s>>>, NoMemory>
    ensures { IfOk result (λ v. vec_len v ≡ clients) }
{
    let mut seats = Vec::new(alloc);
    for _ in 0..clients {
        seats.push(None)?;
    }
    Ok(seats)
}

// The inlet of an event and the seats of its clients, if it has clients.
fn open_event<'s, R: Wait>(
    rt: &R,
    alloc: Global,
    event: u8,
    events: &[u8],
    rooms: &[u32],
    inlets: &mut Vec<AnyInlet<'s>>,
    seats: &mut Vec<Option<Seat<'s>>>,
) -> Result<(), NoMemory>
    requires event { event < 32 }
    requires clients { length events.now ≤ 16 }
    requires rooms { length rooms.now ≡ length events.now }
    requires few { All (λ room. room ≤ 20000) rooms.now }
    requires before { AreOpen events.now rooms.now event
        (map any_intake inlets.old.items) seats.old.items }
    ensures { OnOk result
        (AreOpen events.now rooms.now (event + 1)
        (map any_intake inlets.new.items) seats.new.items) }
{
    let clients = clients_of(alloc, events, event)?;
    if clients.is_empty() {
        return Ok(());
    }
    let inlet = open_inlet(rt, alloc, event, &clients, rooms, inlets.len(), seats)?;
    inlets.push(inlet)?;
    Ok(())
}

/// An inlet for each event that has a client, and a seat for each client, which can post as many lines as its room says.
pub fn open_all<'s, R: Wait>(
    rt: &R,
    alloc: Global,
    events: &[u8],
    rooms: &[u32],
) -> Result<Opened<'s>, NoMemory>
    requires clients { length events.now ≤ 16 }
    requires events { All (λ e. e ≤ 31) events.now }
    requires rooms { length rooms.now ≡ length events.now }
    requires few { All (λ room. room ≤ 20000) rooms.now }
    ensures { IfOk result
        (λ o.
        AreOpen events.now rooms.now 32 (map any_intake o.inlets.items)
        o.seats.items) }
{
    let mut inlets = Vec::new(alloc);
    let mut seats = vacant_seats(alloc, events.len())?;
    for event in 0..EVENTS {
        open_event(rt, alloc, event, events, rooms, &mut inlets, &mut seats)?;
    }
    Ok(Opened { inlets, seats })
}
