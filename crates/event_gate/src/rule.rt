// The rule of a port, and the kinds of step that it allows.
use crate::sent::Sent;
use crate::view::View;
use crossbeam_queue::protocol::{Join, Lesson, Outcome, Protocol, Split};

/// The rule of a port.
pub struct InPort;

impl<'s> Protocol<Sent<'s>, View<'s>> for InPort {
    ghost use Rattle.event_gate.specs.Port.{IsRuled, unnamed_view};

    ghost holds = { IsRuled };

    ghost first = { unnamed_view };
}

/// A push of a seat, which says which gauge the port has.
pub struct Name;

impl<'s> Outcome<Sent<'s>, View<'s>> for Name {
    ghost use Rattle.std.specs.Prelude.{◌≡◌};
    ghost use Rattle.event_gate.specs.Port.{named_view};

    ghost then = { λ v x w. w ≡ named_view x.ticket.table_id };
}

/// The pop of that seat. Then the port is open.
pub struct Start;

impl<'s> Outcome<Sent<'s>, View<'s>> for Start {
    ghost use Rattle.std.specs.Prelude.{◌≡◌};
    ghost use Rattle.event_gate.specs.Port.{starting};

    ghost then = { λ v x w. w ≡ starting v.gauge.table };
}

impl<'s> Lesson<Sent<'s>, View<'s>> for Start {
    ghost use Rattle.std.specs.Prelude.{⊤};

    ghost fact = { λ v items. ⊤ };
}

/// A push of a line.
pub struct Post;

impl<'s> Outcome<Sent<'s>, View<'s>> for Post {
    ghost use Rattle.std.specs.Prelude.{◌≡◌};
    ghost use Rattle.event_gate.specs.Port.{after_post};

    ghost then = { λ v x w. w ≡ after_post v x.line };
}

/// A pop that gives a line, or that finds the queue empty.
pub struct Take;

impl<'s> Outcome<Sent<'s>, View<'s>> for Take {
    ghost use Rattle.event_gate.specs.Port.{TakesSent};

    ghost then = { TakesSent };
}

impl<'s> Lesson<Sent<'s>, View<'s>> for Take {
    ghost use Rattle.event_gate.specs.Port.{SeesSent};

    ghost fact = { SeesSent };
}

/// The next poster is of client 0.
pub struct Zero;

impl<'s> Split<View<'s>> for Zero {
    ghost use Rattle.event_gate.specs.Port.{with_next, nobody};

    ghost left = { λ v. with_next v 0 };

    ghost right = { λ v. nobody };
}

/// The next poster is of the client after.
pub struct Next;

impl<'s> Split<View<'s>> for Next {
    ghost use Rattle.std.specs.Prelude.{◌+◌};
    ghost use Rattle.event_gate.specs.Port.{with_next, nobody};

    ghost left = { λ v. with_next v (v.next + 1) };

    ghost right = { λ v. nobody };
}

/// The making of a poster for a new client.
pub struct Open;

impl<'s> Split<View<'s>> for Open {
    ghost use Rattle.std.specs.Prelude.{[]};
    ghost use Rattle.event_gate.specs.Port.{after_open, poster};

    ghost left = { after_open };

    ghost right = { λ v. poster v.gauge v.next [] };
}

/// The taking in of a pass.
pub struct TakeIn;

impl<'s> Join<View<'s>> for TakeIn {
    ghost use Rattle.event_gate.specs.Port.{after_take_in, nobody};

    ghost both = { after_take_in };

    ghost spent = { nobody };
}
