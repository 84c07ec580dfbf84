//! Bytes that are read to their end, written to their last, and counted; and the standard streams of a process.
//!
//! `write_all` writes bytes to a sink, however few of them each write takes. Its contract says: all of them come after what was
//! written before; or a write failed, and the first of them do, but not the last (`AppendsPart` in `specs/Writing.antt`).
//!
//! `feed_up_to` reads a source to its end, or up to so many bytes, and hands them on piece by piece to a `Feed`
//! (`specs/Limited.antt`). There is no other loop that reads: `read_up_to` gathers the pieces in a vector, and `read_all` does so
//! without a limit and gives all bytes that the source had left (`specs/Reading.antt`). Where one of them fails, `ReadFailure` says
//! why, and some first part of the bytes is gone. `specs/Streams.antt` has what a source or a sink is seen as before and after a call.
//!
//! A `CountSink` counts bytes and keeps none. What it was given is remembered in proofs alone. So a function that is proved for every
//! sink, and says what it writes, says it of this one too, and the count is then the length of that.
//!
//! A `ReaderSource` reads from any reader, and a `GatheringSink` gathers what it is given and writes it to any writer; `StdSource` and
//! `StdSink` are those over standard input and standard output. Both keep the rules that `lwp_types` has for every source and sink.
//! As sources and sinks they tell no bytes, so a function that is proved for every source and sink says of them how often they
//! failed. Of a reader or a writer that tells its bytes, their own clauses say which bytes are taken and which reach it, in order
//! (`bytes`; `specs/StdStreams.antt`); what the streams of the process themselves give and take, no contract says. A signal that
//! comes in between is no failure. `GatheringSink::finish` writes what is gathered still, and leaves nothing where it answers Ok;
//! `hand_on` does so in the midst of a run, and leaves it to the next write to tell of a failure. A write that failed is the last:
//! the sink then refuses every other, and hands no byte on any more (`UntilFault`).
//!
//! The crate stands on `lwp_types`, whose sources and sinks these are.
#![tactic(auto)]

mod count;
mod ghost_bytes;
mod reading;
mod std_streams;
mod until_fault;
mod writing;

pub use count::CountSink;
pub use ghost_bytes::{GhostBytes, More};
pub use reading::{Feed, ReadFailure, feed_up_to, read_all, read_up_to};
pub use std_streams::{GATHERED, GatheringSink, ReaderSource, StdSink, StdSource};
pub use until_fault::UntilFault;
pub use writing::write_all;
