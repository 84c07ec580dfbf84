//! Many scripts are planned at once, and a line is told of each.
//!
//! `batch_main` reads an input of parts, each a script or not, and plans each part as `plan` plans a script, by several threads of
//! the system. Of each it writes one line: how its session ended, how many calls were made, how many lines were taken and how many
//! are left, and how long the trace is; or which line of the part is the first bad one, and why. Its contract says: where the input
//! has its parts, the sink is told exactly these lines, in the order of the parts, for every number of threads and every schedule
//! (`specs/Batches/Report.antt`); or the session's end names what was in the way (`specs/Batches/Batch.antt`). No trace is kept.

mod many;
mod planning;
mod report;

pub use many::batch_main;
