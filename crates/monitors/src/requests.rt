// The requests to enter.
ghost use Rattle.std.specs.Prelude.{◌≡◌, IfOk, map};
ghost use Rattle.monitors.specs.MonitorTable.{machine_row};
ghost use Rattle.monitors.specs.Requests.{request_of};

use lists::Waiting;
use lwp_types::{Mid, NoMemory, Request, Sequence, Tid};
use std::alloc::Global;

/// A thread that waits to enter a monitor: the priority that it was last given, and the depth at which it will hold it.
#[derive(Clone, Copy)]
pub struct EntryRequest {
    pub mon: Mid,
    pub tid: Tid,
    pub prio: u32,
    pub depth: u32,
}

// The machine's row of the request that stands so in a line.
fn machine_row(waiting: &Waiting) -> Request
    ensures { result ≡ machine_row (request_of waiting.now) }
{
    Request {
        mon: Mid {
            number: waiting.what,
        },
        tid: waiting.tid,
        depth: waiting.depth,
    }
}

// The machine's rows of all requests.
pub fn machine_rows(alloc: Global, line: &[Waiting]) -> Result<Sequence<Request>, NoMemory>
    ensures { IfOk result (λ rows. rows ≡ map machine_row (map request_of line.now)) }
{
    let mut rows = Sequence::new(alloc);
    for waiting in line {
        rows.push(machine_row(waiting))?;
    }
    Ok(rows)
}
