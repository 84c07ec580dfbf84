// A run of any program that is fed while it runs. What it comes to, `specs/Feeding.antt` says.
use crate::arrivals::Arrivals;
use crate::reader::Supply;
use crate::stop::Stop;
use lwp_types::Sink;
use trace_text::Halt;

/// How a run that was fed has ended, and its supply.
#[derive(Drop)]
pub struct Fed<I: Arrivals, P: Sink + Send + Drop, C: Sink + Send + Drop> {
    pub halt: Result<Halt, Stop>,
    pub supply: Supply<I, P, C>,
}
