//! A trace as a picture: it is read, and its page is written.
//!
//! `view` takes words, a source and a sink. Its contract says: where the words ask for calls of the trace, the source is read to its
//! end, and where it held lines of a trace, the sink is told exactly the page of these lines; or the end names what was in the way: a
//! read or a write that failed, the first line that is no line of a trace, or that memory was refused. Nothing is written then, but where a
//! write failed the first part of the page.
//!
//! `add_page` builds the page, in HTML with an inline SVG. Its contract is `page` in `specs/Page.antt`: the page is a function of the
//! trace's lines and of the calls that are to be drawn. `Scene.antt`, `Spans.antt` and `Steps.antt` in `specs` say what is known
//! after each line and what is drawn for it; `Waits.antt` says who waits for whom at the end, and which threads are in a deadlock;
//! `Shapes.antt` and `Frame.antt` are the text of that, by the measures of `Measures.antt`.
//!
//! The crate stands on `trace_lines`, which reads the lines, on `trace_text` for numbers, and reads and writes by `streams`.
#![tactic(auto)]

mod frame;
mod laws;
mod measures;
mod page;
mod scene;
mod shapes;
mod showing;
mod spans;
mod steps;
mod waits;
mod words;

pub use laws::{elements_are_closed, lines_are_titles, some_are_closed, texts_are_plain};
pub use showing::{ViewEnd, fault_text, status_of, view};
