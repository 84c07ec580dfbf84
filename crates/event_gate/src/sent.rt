// What a port's queue holds.
use crate::gauge::GaugeSeat;
use lwp_types::Line;

/// A line, and the ticket of its announcement.
#[derive(Drop)]
pub struct Sent<'s> {
    pub line: Line<'s>,
    pub ticket: GaugeSeat<'s>,
}
