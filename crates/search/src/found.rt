// What a search found.
ghost use Rattle.std.specs.Prelude.{◌≡◌, ◌<◌, IfOk, length};
ghost use Rattle.search.specs.Found.{HasParentsBelow, path_of};

use crate::NoMemory;
use std::alloc::Global;

/// How a core was found first: by which step from which core, by its number, and its kind. The first core has parent 0 and step 0,
/// which say nothing.
#[derive(Clone, Copy, Debug, PartialEq, Eq)]
pub struct Row {
    pub parent: usize,
    pub step: u32,
    pub kind: Option<u32>,
}

/// The cores that were found, in the order in which they were, and whether these are all.
#[derive(Debug, Drop)]
pub struct Found {
    pub rows: Vec<Row>,
    pub whole: bool,
    /// How many steps lead on from the cores that were gone from, or `u64::MAX` if they are more.
    pub tried: u64,
    /// Of each core that was gone from, the core to which the last of its steps leads, if it has a step, and that core is among these.
    pub lasts: Vec<Option<usize>>,
    /// The first step that is looked for, if there is one.
    pub marked: Option<Place>,
}

/// A step from a core, by the core's number.
#[derive(Clone, Copy, Debug, PartialEq, Eq)]
pub struct Place {
    pub core: usize,
    pub step: u32,
}

/// The numbers of the steps that lead from the first core to that of this number.
pub fn path_to(alloc: Global, rows: &[Row], number: usize) -> Result<Vec<u32>, NoMemory>
    requires tree { HasParentsBelow rows.now }
    requires within { number < length rows.now }
    ensures { IfOk result (λ path. path.items ≡ path_of rows.now number) }
{
    let mut path = Vec::new(alloc);
    let mut at = number;
    while at > 0 {
        let row = rows[at];
        path.push(row.step)?;
        at = row.parent;
    }
    path.reverse();
    Ok(path)
}
