// The procedures that the threads run.
ghost use Rattle.std.specs.Prelude.{◌≡◌};
ghost use Rattle.queue_model.specs.Actors.{desk_of, host_of, server_of};

use crate::actor::Actor;
use crate::chance::Chance;
use crate::desk::Desk;
use crate::threads::{Host, Server};
use lwp_types::{NoMemory, Program};
use std::alloc::Global;
use text_store::TextStore;

/// A queue: how many customers come, with which gaps on average, how long a service takes on average, in ticks, how many servers
/// there are, and how many customers may wait.
#[derive(Drop)]
pub struct Hall<'s> {
    pub alloc: Global,
    pub store: &'s TextStore,
    pub seed: u64,
    pub customers: u64,
    pub gap: u16,
    pub service: u16,
    pub servers: u16,
    pub room: usize,
}

impl<'s> Hall<'s> {
    fn host(&self) -> Actor<'s>
        ensures { result ≡ host_of self.now }
    {
        Actor::Hosting(Host {
            created: 0,
            crew: u32::from(self.servers) + 1,
            done: false,
        })
    }

    fn desk(&self) -> Actor<'s>
        ensures { result ≡ desk_of self.now }
    {
        Actor::Keeping(Desk::new(
            self.alloc,
            self.store,
            self.customers,
            Chance::new(self.seed, 0, self.gap),
            self.room,
            u64::from(self.service / 4),
        ))
    }

    // The stream of its random numbers is that of the procedure's number.
    fn server(&self, proc: u32) -> Actor<'s>
        ensures { result ≡ server_of self.now proc }
    {
        Actor::Serving(Server {
            services: Chance::new(self.seed, u64::from(proc), self.service),
            end: 0,
            serves: false,
        })
    }
}

impl<'s> Program<Actor<'s>> for Hall<'s> {
    ghost use Rattle.queue_model.specs.Actors.{cast, cast_names, names-as_many};

    ghost bodies = { cast };

    ghost proc_names = { cast_names };

    fn procs(&self) -> u32 {
        2 + u32::from(self.servers)
    }

    fn proc_name(&self, proc: u32) -> &[u8] {
        match proc {
            0 => b"host",
            1 => b"desk",
            _ => b"server",
        }
    }

    fn body_of(&self, proc: u32) -> Result<Actor<'s>, NoMemory> {
        match proc {
            0 => Ok(self.host()),
            1 => Ok(self.desk()),
            _ => Ok(self.server(proc)),
        }
    }

    ghost as_many = { names-as_many };
}
