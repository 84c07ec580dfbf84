// The search over the sessions of a script.
ghost use Rattle.lwp_explore.specs.Cycles.{AreCycles, AreWithin};
ghost use Rattle.lwp_explore.specs.Explored.{IsAtFirst, IsExplored, IsSoughtOut};
ghost use Rattle.lwp_explore.specs.Listing.{listing};
ghost use Rattle.lwp_explore.specs.Quiet.{kinds_at, quiet_nexts};
ghost use Rattle.lwp_explore.specs.Searching.{script_moves};
ghost use Rattle.script_body.specs.Posted.{IsPosted};
ghost use Rattle.script_text.specs.Limits.{IsWithinLimits};
ghost use Rattle.std.specs.Prelude.{◌≡◌, Bool, IfOk, List, option_map};

use crate::listing::Listed;
use crate::machine::ScriptMachine;
use crate::posts::ClientPosts;
use crate::quiet::{kinds_of, quiet_nexts};
use lwp_types::NoMemory;
use script_session::start;
use script_text::Script;
use search::{Found, Limits, NoMemory as Refused, explore};
use std::alloc::Global;

// So many copies of a session wait at one time to be gone from.
const COPIES: usize = 2048;

// The most calls of a session.
const CALLS: u64 = u64::MAX;

/// A session of a script before its first step. Its steps are searched for a line, if one is given.
pub fn machine_of<'s, 'p>(
    alloc: Global,
    script: &'s Script,
    posts: &'p ClientPosts<'s>,
    sought: Option<&'p [u8]>,
) -> Result<ScriptMachine<'s, 'p>, NoMemory>
    requires within { IsWithinLimits script.now }
    requires posted { IsPosted script.now }
    requires same { posts.now ≡ script.now }
    ensures first { IfOk result IsAtFirst }
    ensures script { IfOk result (λ machine. machine.script ≡ script.now) }
    ensures sought { IfOk result (λ machine. machine.sought ≡ option_map (λ line. line.now) sought.entry) }
{
    let run = start(alloc, script, CALLS)?;
    ScriptMachine::new(alloc, run, posts, sought)
}

/// The cores of a script, up to so many.
pub fn search_all(alloc: Global, machine: &ScriptMachine, cores: usize) -> Result<Found, NoMemory>
    requires { IsAtFirst machine.now }
    ensures { IfOk result (λ found. IsExplored (script_moves machine.now.script machine.now.sought) cores found) }
{
    let limits = Limits {
        cores,
        copies: COPIES,
        until: false,
    };
    match explore(alloc, machine, limits) {
        Ok(found) => Ok(found),
        Err(Refused) => Err(NoMemory),
    }
}

/// The cores of a script, up to so many, as far as the first step that is looked for.
pub fn search_until(alloc: Global, machine: &ScriptMachine, cores: usize) -> Result<Found, NoMemory>
    requires { IsAtFirst machine.now }
    ensures { IfOk result (λ found. IsSoughtOut (script_moves machine.now.script machine.now.sought) cores found) }
{
    let limits = Limits {
        cores,
        copies: COPIES,
        until: true,
    };
    match explore(alloc, machine, limits) {
        Ok(found) => Ok(found),
        Err(Refused) => Err(NoMemory),
    }
}

/// Of each core where a call is the only step, where it leads, if a call is the only step there too; and the kinds of ends.
pub fn kinds_in(alloc: Global, found: &Found) -> Result<(Vec<Option<usize>>, Vec<Listed>), NoMemory>
    requires { AreWithin (quiet_nexts found.now.rows.items found.now.lasts.items) }
    ensures nexts { IfOk result (λ all. all.0.items ≡ quiet_nexts found.now.rows.items found.now.lasts.items) }
    ensures kinds { IfOk result (λ all. (rounds : List Bool) × AreCycles (quiet_nexts found.now.rows.items found.now.lasts.items) rounds
        × (all.1.items ≡ listing (kinds_at found.now.rows.items rounds))) }
{
    let nexts = quiet_nexts(alloc, &found.rows, &found.lasts)?;
    let kinds = kinds_of(alloc, &found.rows, &nexts)?;
    Ok((nexts, kinds))
}
