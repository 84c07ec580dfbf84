// The threads that bring items and those that fetch them.
ghost use Rattle.bounded_buffer.specs.Clients.{asks, consumes, produces};
ghost use Rattle.std.specs.Prelude.{◌≡◌};

use lwp_types::{Answer, Call, Text, Tid};

// The buffer is the first thread, and a reply may have any length.
const BUFFER: Tid = Tid { number: 0 };

const WHOLE: u8 = 240;

/// Brings the same item so many times.
#[derive(Drop)]
pub struct Producer<'s> {
    pub item: Text<'s>,
    pub left: u32,
}

/// Fetches so many items, and says what each is.
#[derive(Drop)]
pub struct Consumer {
    pub left: u32,
}

impl<'s> Producer<'s> {
    /// Sets the next call.
    pub fn next(&mut self, call: &mut Call<'s>)
        ensures { (call.new, self.new) ≡ produces self.old }
    {
        if self.left == 0 {
            *call = Call::Return;
            return;
        }
        self.left -= 1;
        *call = Call::Send {
            to: BUFFER,
            room: WHOLE,
            text: self.item.again(),
        };
    }
}

impl Consumer {
    fn ask(&mut self, call: &mut Call)
        ensures { (call.new, self.new) ≡ asks self.old }
    {
        if self.left == 0 {
            *call = Call::Return;
            return;
        }
        self.left -= 1;
        *call = Call::Send {
            to: BUFFER,
            room: WHOLE,
            text: Text::empty(),
        };
    }

    /// Sets the next call, by the answer to the last one.
    pub fn next<'s>(&mut self, got: &Answer<'s>, call: &mut Call<'s>)
        ensures { (call.new, self.new) ≡ consumes self.old got.now }
    {
        match got {
            Answer::Reply(item) => *call = Call::Say { text: item.again() },
            _ => self.ask(call),
        }
    }
}
