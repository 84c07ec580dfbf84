// The threads that create the others and that serve.
ghost use Rattle.std.specs.Prelude.{◌≡◌};
ghost use Rattle.queue_model.specs.Threads.{asks, host_next, servant, server_next, serves, word_to_host};

use crate::chance::Chance;
use crate::stamp::{stamp, time_of};
use lwp_types::{Answer, Call, Flags, Mode, Text, Tid};

/// The desk, which is born right after the first thread.
pub const DESK: Tid = Tid { number: 1 };

// The first thread.
const HOST: Tid = Tid { number: 0 };

// A reply may have any length.
const WHOLE: u8 = 240;

// A thread for which the pod doesn't go on.
fn servant() -> Flags
    ensures { result ≡ servant }
{
    Flags {
        suspended: false,
        nolastrites: false,
        server: true,
    }
}

/// The first thread: it creates the desk and the servers, and waits until the desk has no customer any more.
#[derive(Drop)]
pub struct Host {
    pub created: u32,
    pub crew: u32,
    pub done: bool,
}

impl Host {
    /// Sets the next call.
    pub fn next(&mut self, call: &mut Call)
        ensures { (call.new, self.new) ≡ host_next self.old }
    {
        if self.created < self.crew {
            self.created += 1;
            *call = Call::Create {
                proc: self.created,
                prio: 1,
                flags: servant(),
            };
            return;
        }
        if self.done {
            *call = Call::Return;
            return;
        }
        self.done = true;
        *call = Call::Recv {
            from: None,
            mode: Mode::Block,
        };
    }
}

/// What the desk says to the host once the last customer was served.
pub fn word_to_host<'s>(text: Text<'s>) -> Call<'s>
    ensures { result ≡ word_to_host text.entry }
{
    Call::Send {
        to: HOST,
        room: 0,
        text,
    }
}

/// Serves one customer after the other: sleeps as long as that takes, and tells the desk when it ended.
#[derive(Drop)]
pub struct Server {
    pub services: Chance,
    /// When the last service ends, once there was one.
    pub end: u64,
    pub serves: bool,
}

impl Server {
    fn begin(&mut self, now: u64, call: &mut Call)
        ensures { (call.new, self.new) ≡ serves now self.old }
    {
        let ticks = self.services.draw();
        self.end = now.saturating_add(u64::from(ticks));
        self.serves = true;
        *call = Call::Sleep { ticks };
    }

    fn ask<'s>(&self, call: &mut Call<'s>)
        ensures { (call.new, self.now) ≡ asks self.now }
    {
        let text = if self.serves {
            stamp(self.end)
        } else {
            Text::empty()
        };
        *call = Call::Send {
            to: DESK,
            room: WHOLE,
            text,
        };
    }

    /// Sets the next call, by the answer to the last one.
    pub fn next<'s>(&mut self, got: &Answer<'s>, call: &mut Call<'s>)
        ensures { (call.new, self.new) ≡ server_next self.old got.now }
    {
        match got {
            Answer::Reply(text) => self.begin(time_of(text), call),
            _ => self.ask(call),
        }
    }
}
