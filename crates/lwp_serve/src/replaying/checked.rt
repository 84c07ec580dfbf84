// An input is read, a replay made of it, and its verdict written.
ghost use Rattle.lwp_serve.specs.Replaying.Replay.{IsReplay};
ghost use Rattle.std.specs.Prelude.{◌≤◌};
ghost use Rattle.streams.specs.Streams.{sides};

use crate::replaying::input::read_input;
use crate::replaying::told::{Told, told_of};
use lwp_types::{Sink, Source};
use script_session::{Session, SessionEnd};
use std::alloc::Global;
use streams::write_all;

/// Reads a script and a recorded trace, and writes whether the recorded bytes are a trace of that script, of a session of at most so
/// many calls; or which of their lines is the first that differs, which one was to come in its place, and which was recorded. Nothing
/// is written before the verdict stands.
pub fn replay_main<S: Source, K: Sink>(
    alloc: Global,
    turns: u64,
    source: &mut S,
    sink: &mut K,
) -> Session
    requires least { 1 ≤ turns }
    requires most { turns ≤ 1000000 }
    ensures { IsReplay turns (sides S.left S.faults source.old source.new)
        (sides K.written K.faults sink.old sink.new) result }
{
    let input = match read_input(alloc, source) {
        Ok(input) => input,
        Err(end) => return Session::unread(alloc, end),
    };
    let Told {
        end,
        taken,
        turns: calls,
        text,
    } = match told_of(alloc, turns, &input.text, input.part) {
        Ok(told) => told,
        Err(end) => return Session::unread(alloc, end),
    };
    match write_all(sink, &text) {
        Ok(()) => Session::new(end, taken, calls),
        Err(_) => Session::new(SessionEnd::WriteFault, taken, calls),
    }
}
