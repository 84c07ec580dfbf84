// What a thread of the example is.
use crate::buffer::Buffer;
use crate::clients::{Consumer, Producer};
use lwp_types::{Answer, Body, Call, Env, NoMemory, Polled};

/// A thread's body.
#[derive(Drop)]
pub enum Actor<'s> {
    Buffering(Buffer<'s>),
    Producing(Producer<'s>),
    Consuming(Consumer),
}

impl<'s> Body for Actor<'s> {
    ghost use Rattle.bounded_buffer.specs.Actors.{actor_next};

    ghost next = { actor_next };
}

impl<'s> Polled<'s> for Actor<'s> {
    ghost use Rattle.bounded_buffer.specs.Actors.{actor_next-keeps_lengths};

    #[tactic(auto, unfolding(crate::specs::Actors::actor_next))]
    fn poll(
        &mut self,
        _env: &mut Env,
        got: &Answer<'s>,
        call: &mut Call<'s>,
    ) -> Result<(), NoMemory> {
        match self {
            Actor::Buffering(buffer) => buffer.next(got, call)?,
            Actor::Producing(producer) => producer.next(call),
            Actor::Consuming(consumer) => consumer.next(got, call),
        }
        Ok(())
    }

    ghost keeps_lengths = { actor_next-keeps_lengths };
}
