// What a search says of a line that is looked for.
ghost use Rattle.lwp_explore.specs.Cores.{after, first_core};
ghost use Rattle.lwp_explore.specs.Explored.{IsAtFirst};
ghost use Rattle.lwp_explore.specs.LineSaid.{LineSays};
ghost use Rattle.lwp_explore.specs.Sessions.{world_of};
ghost use Rattle.lwp_explore.specs.Ways.{length_text, way};
ghost use Rattle.script_body.specs.Posted.{IsPosted};
ghost use Rattle.script_text.specs.Script.{proc_names};
ghost use Rattle.search.specs.Found.{HasParentsBelow, path_of};
ghost use Rattle.search.specs.Moves.{walk};
ghost use Rattle.std.specs.Prelude.{[], List, Some, ℕ, ◌≡◌, ◌++◌, ◌∷◌, ◌<◌, ◌≤◌, IfOk, IsSome, length};

use crate::along::stand_after;
use crate::ending::Ending;
use crate::ends::add_length;
use crate::kind_text::add;
use crate::machine::ScriptMachine;
use crate::searching::search_until;
use lwp_types::NoMemory;
use search::{Place, Row, path_to};
use std::alloc::Global;

// How long the way is to a session.
fn way_text(alloc: Global, machine: &ScriptMachine, path: &[u32]) -> Result<Vec<u8>, NoMemory>
    requires first { IsAtFirst machine.now }
    requires leads { IsSome (walk (after (world_of machine.now.script)) (first_core (world_of machine.now.script)) path.now) }
    ensures { IfOk result (λ text. text.items ≡ length_text (way (world_of machine.now.script) path.now) ++ 10 ∷ []) }
{
    let mut out = Vec::new(alloc);
    let here = stand_after(machine, path)?;
    add_length(&mut out, &here)?;
    add(&mut out, b"\n")?;
    Ok(out)
}

// The path to a step, with that step.
fn path_with(alloc: Global, rows: &[Row], place: Place) -> Result<Vec<u32>, NoMemory>
    requires below { HasParentsBelow rows.now }
    requires within { place.core < length rows.now }
    ensures { IfOk result (λ path. path.items ≡ path_of rows.now place.core ++ place.step ∷ []) }
{
    let Ok(path) = path_to(alloc, rows, place.core) else {
        return Err(NoMemory);
    };
    let mut path = path;
    path.push(place.step)?;
    Ok(path)
}

// A text that is one line.
fn line_of(alloc: Global, line: &[u8]) -> Result<Vec<u8>, NoMemory>
    ensures { IfOk result (λ text. text.items ≡ line.now) }
{
    let mut out = Vec::new(alloc);
    add(&mut out, line)?;
    Ok(out)
}

/// What is said of the line that a machine looks for, and what that comes to.
pub fn line_text(
    alloc: Global,
    machine: &ScriptMachine,
    cores: usize,
) -> Result<(Vec<u8>, Ending), NoMemory>
    requires first { IsAtFirst machine.now }
    requires posted { IsPosted machine.now.script }
    requires some { 1 ≤ cores }
    requires few { cores ≤ 1000000 }
    ensures { IfOk result (λ told. (line : List ℕ) → machine.now.sought ≡ Some line
        → LineSays (world_of machine.now.script) (proc_names machine.now.script) line cores told.0.items told.1) }
{
    let found = search_until(alloc, machine, cores)?;
    let Some(place) = found.marked else {
        if found.whole {
            return Ok((line_of(alloc, b"never\n")?, Ending::Well));
        }
        return Ok((line_of(alloc, b"cut\n")?, Ending::Cut));
    };
    let path = path_with(alloc, &found.rows, place)?;
    let text = way_text(alloc, machine, &path)?;
    Ok((text, Ending::Told))
}
