ghost use Rattle.std.specs.Prelude.{◌≡◌, false};
ghost use Rattle.rendezvous.specs.MessageTable.{no_messages};

use crate::copies::is_copy;
use crate::id_lists::holds;
use lwp_types::{Letter, LwpErr, Text, Tid};
use rendezvous::Mail;

const A: Tid = Tid { number: 0 };

const B: Tid = Tid { number: 1 };

const C: Tid = Tid { number: 2 };

const D: Tid = Tid { number: 3 };

// A letter that nobody has received, with room for a reply of four bytes.
fn letter<'s>(from: Tid, to: Tid, text: Text<'s>) -> Letter<'s>
    ensures { result
        ≡ record { from = from; to = to; text = text.entry; room = 4; received = false } }
{
    Letter {
        from,
        to,
        text,
        room: 4,
        received: false,
    }
}

// The letter of a named sender is received, or of any.
fn takes(messages: &mut Mail, from: Option<Tid>, wanted: Tid) -> bool {
    let Some(letter) = messages.take_letter(D, from) else {
        return false;
    };
    letter.from == wanted && letter.received && letter.text.equals(b"hello")
}

const LETTERS: [[u64; 4]; 3] = [[2, 3, 4, 1], [0, 3, 4, 1], [1, 3, 4, 0]];

fn is_received(messages: &mut Mail) -> bool {
    holds(messages.senders(D), &[2, 0, 1])
        && takes(messages, Some(A), A)
        && takes(messages, None, C)
        && is_copy(messages.letters(), &LETTERS)
        && messages.take_letter(D, Some(D)).is_none()
}

const REPLIES: [(Tid, usize, Option<LwpErr>); 4] = [
    (B, 4, Some(LwpErr::NoWait)),
    (A, 5, Some(LwpErr::InvalidArg)),
    (A, 4, None),
    (A, 4, Some(LwpErr::NoWait)),
];

fn replies(messages: &mut Mail) -> bool {
    for (from, len, refusal) in REPLIES {
        if messages.reply(D, from, len).err() != refusal {
            return false;
        }
    }
    true
}

// They go with their senders and receivers.
fn forgets(messages: &mut Mail) -> bool {
    messages.forget(D);
    messages.pop_to(C).is_none()
        && messages.pop_to(D) == Some(C)
        && messages.pop_to(D) == Some(B)
        && messages.pop_to(D).is_none()
}

// Three letters are received in the order of sending, and replied to.
fn does_all(messages: &mut Mail) -> bool
    requires { messages.old ≡ no_messages }
{
    let Ok(()) = messages.reserve(3) else {
        return false;
    };
    let Some(text) = Text::new(b"hello") else {
        return false;
    };
    messages.post_letter(letter(C, D, text.again()));
    messages.post_letter(letter(A, D, text.again()));
    messages.post_letter(letter(B, D, text));
    is_received(messages) && replies(messages) && forgets(messages)
}

#[test]
fn letters_are_received_in_send_order_and_replied_to(rt: HostRuntime) {
    let mut messages = Mail::new(rt.alloc());
    assert!(rt; does_all(&mut messages));
}
