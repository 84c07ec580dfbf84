// What a run comes to into which other threads post.
use trace_text::Halt;

/// What a live run comes to: its end; or nobody may run, and a client may post still.
#[derive(Clone, Copy, Debug, PartialEq, Eq)]
pub enum Live {
    Halt(Halt),
    Quiet,
}
