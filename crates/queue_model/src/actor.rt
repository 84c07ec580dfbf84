// What a thread of the model is.
use crate::desk::Desk;
use crate::threads::{Host, Server};
use lwp_types::{Answer, Body, Call, Env, NoMemory, Polled};

/// A thread's body.
#[derive(Drop)]
pub enum Actor<'s> {
    Hosting(Host),
    Keeping(Desk<'s>),
    Serving(Server),
}

impl<'s> Body for Actor<'s> {
    ghost use Rattle.queue_model.specs.Actors.{actor_next};

    ghost next = { actor_next };
}

impl<'s> Polled<'s> for Actor<'s> {
    ghost use Rattle.queue_model.specs.Actors.{actor_next-keeps_lengths};

    #[tactic(auto, unfolding(crate::specs::Actors::actor_next))]
    fn poll(
        &mut self,
        _env: &mut Env,
        got: &Answer<'s>,
        call: &mut Call<'s>,
    ) -> Result<(), NoMemory> {
        match self {
            Actor::Hosting(host) => host.next(call),
            Actor::Keeping(desk) => desk.next(got, call)?,
            Actor::Serving(server) => server.next(got, call),
        }
        Ok(())
    }

    ghost keeps_lengths = { actor_next-keeps_lengths };
}
