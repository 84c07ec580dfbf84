// Bytes to a script.
ghost use Rattle.std.specs.Prelude.{IfOk};
ghost use Rattle.script_text.specs.Grammar.{Spells};
ghost use Rattle.script_text.specs.Limits.{IsWithinLimits};
ghost use Rattle.script_text.specs.Spelling.{verdict, Gives, IsReadAs};

use crate::Script;
use crate::pieces::ScriptReader;
use crate::reason::ReadErr;
use std::alloc::Global;

/// The script that these bytes spell, if they spell one, and else their first bad line.
pub fn read_script(alloc: Global, bytes: &[u8]) -> Result<Script, ReadErr>
    // A script is read only where the bytes spell it.
    ensures spelt { IfOk result (λ s. Spells bytes.now s) }
    // The first line that is bad, and the first reason that fits it.
    ensures exact { Gives (verdict bytes.now) result }
    // A script that is spelt is read, and no other: bytes spell one script at most.
    ensures only { (s : Script) → Spells bytes.now s → IsReadAs s result }
    // A pod can be made for each script that is read.
    ensures within { IfOk result IsWithinLimits }
{
    let mut reader = ScriptReader::new(alloc);
    reader.feed(bytes)?;
    reader.finish()
}
