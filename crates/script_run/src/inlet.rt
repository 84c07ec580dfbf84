// The runner's end of a lane or of a port.
ghost use Rattle.script_run.specs.Inlets.{intake_of, TakesFirst, TakesNone};

use crate::poster::AnyPass;
use event_gate::{Inlet, Taker};
use lanes::LaneTaker;
use lwp_types::Line;
use std::sync::Wait;

/// Which of the two it is.
#[derive(Drop)]
pub(crate) enum RunnerEnd<'s> {
    Lane(LaneTaker<'s>),
    Port(Taker<'s>),
}

/// The runner's end of a lane or of a port.
#[derive(Drop)]
pub struct AnyInlet<'s> {
    pub(crate) end: RunnerEnd<'s>,
    ghost first: { TakesFirst (intake_of end) },
    ghost none: { TakesNone (intake_of end) },
}

impl<'s> AnyInlet<'s> {
    ghost use Rattle.event_gate.specs.Port.{is_noted};
    ghost use Rattle.script_run.specs.Ends.{IsTakenIn, pass_posting};
    ghost use Rattle.script_run.specs.Ties.{any_intake};
    ghost use Rattle.std.specs.Prelude.{true, ◌≡◌};

    /// Takes in what a client has posted in all.
    pub fn take_in(&mut self, pass: AnyPass<'s>)
        requires place { (pass_posting pass).place ≡ (any_intake self.old).place }
        requires client { is_noted (pass_posting pass).client (any_intake self.old).noted ≡ true }
        ensures { IsTakenIn (any_intake self.old) (pass_posting pass.entry) (any_intake self.new) }
    {
        match (&mut self.end, pass) {
            (RunnerEnd::Lane(lane), AnyPass::Lane(pass)) => lane.take_in(pass),
            (RunnerEnd::Port(port), AnyPass::Port(pass)) => port.take_in(pass),
            (RunnerEnd::Lane(_), AnyPass::Port(_)) => unreachable!(),
            (RunnerEnd::Port(_), AnyPass::Lane(_)) => unreachable!(),
        }
    }
}

impl<'s> Inlet<'s> for AnyInlet<'s> {
    ghost use Rattle.script_run.specs.Ties.{any_intake};

    ghost intake = { any_intake };

    fn event(&self) -> u8 {
        match &self.end {
            RunnerEnd::Lane(lane) => lane.event(),
            RunnerEnd::Port(port) => port.event(),
        }
    }

    fn take<R: Wait>(&mut self, rt: &R) -> Option<Line<'s>> {
        match &mut self.end {
            RunnerEnd::Lane(lane) => Inlet::take(lane, rt),
            RunnerEnd::Port(port) => Inlet::take(port, rt),
        }
    }

    fn told(&self) -> bool {
        match &self.end {
            RunnerEnd::Lane(lane) => Inlet::told(lane),
            RunnerEnd::Port(port) => Inlet::told(port),
        }
    }

    fn left(&self, client: u8) -> u32 {
        match &self.end {
            RunnerEnd::Lane(lane) => Inlet::left(lane, client),
            RunnerEnd::Port(port) => Inlet::left(port, client),
        }
    }
}
