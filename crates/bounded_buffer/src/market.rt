// The procedures that the threads run.
use crate::actor::Actor;
use crate::buffer::Buffer;
use crate::clients::{Consumer, Producer};
use lwp_types::{NoMemory, Program, Text};
use std::alloc::Global;

/// A buffer with room for one item, two producers and a consumer.
#[derive(Drop)]
pub struct Market {
    alloc: Global,
}

impl Market {
    /// The program, whose bodies keep what they hold in the memory of `alloc`.
    pub fn new(alloc: Global) -> Market {
        Market { alloc }
    }
}

impl<'s> Program<Actor<'s>> for Market {
    ghost use Rattle.bounded_buffer.specs.Actors.{cast, cast_names};
    ghost use Rattle.lwp_types.specs.TextFields.{is_text};
    ghost use Rattle.std.specs.Prelude.{IsTrue, Some, length, refl, slice_get, ◌<◌, ◌≡◌};

    ghost bodies = { λ market. cast };

    ghost proc_names = { λ market. cast_names };

    // PROVER: the market has no `'s`, so the methods that don't name it state their clauses themselves.
    fn procs(&self) -> u32
        ensures { result ≡ length cast }
    {
        4
    }

    fn proc_name(&self, proc: u32) -> &[u8]
        requires { proc < length cast }
        ensures same { slice_get cast_names proc ≡ Some result.now }
        ensures is_text { IsTrue (is_text result.now) }
    {
        match proc {
            0 => b"buffer",
            1 => b"apples",
            2 => b"pears",
            _ => b"eater",
        }
    }

    fn body_of(&self, proc: u32) -> Result<Actor<'s>, NoMemory> {
        let actor = match proc {
            0 => Actor::Buffering(Buffer::new(self.alloc, 3, 1, 4)),
            1 => Actor::Producing(Producer {
                item: Text::lent(b"apple"),
                left: 2,
            }),
            2 => Actor::Producing(Producer {
                item: Text::lent(b"pear"),
                left: 2,
            }),
            _ => Actor::Consuming(Consumer { left: 4 }),
        };
        Ok(actor)
    }

    ghost as_many = { λ market. refl };
}
