// A thread of a script, written into a key.
ghost use Rattle.std.specs.Prelude.{◌≡◌, ◌++◌, OnOk, option_map};
ghost use Rattle.keys.specs.Numbers.{list_numbers};
ghost use Rattle.script_body.specs.BodyKeys.{frame_numbers, last_number};
ghost use Rattle.script_body.specs.ScriptBody.{is_return};

use crate::ScriptBody;
use crate::frame::Frame;
use keys::{Key, Keyed};
use script_text::Stmt;
use std::alloc::AllocError;

fn is_return(stmt: &Stmt) -> bool
    ensures { result ≡ is_return stmt.now }
{
    matches!(stmt, Stmt::Return)
}

// What is told of the statement of its last call: which one it is, the place after it tells.
fn last_number(last: Option<&Stmt>) -> u64
    ensures { result ≡ last_number (option_map (λ s. s.now) last.entry) }
{
    match last {
        None => 0,
        Some(stmt) => { if is_return(stmt) { 1 } else { 2 } }
    }
}

// How many there are, and each of them.
fn put_frames(key: &mut Key, frames: &Vec<Frame>) -> Result<(), AllocError>
    ensures { OnOk result (key.new ≡ key.old ++ list_numbers frame_numbers frames.now.items) }
{
    key.put(frames.len() as u64)?;
    for frame in frames.iter() {
        frame.put(key)?;
    }
    Ok(())
}

impl<'s> Keyed for ScriptBody<'s> {
    ghost use Rattle.script_body.specs.BodyKeys.{IsScripted, script_numbers};
    ghost use Rattle.script_body.specs.BodyKeyLaws.{script_is_code};
    ghost use Rattle.script_text.specs.declared.script.Script.{Script};

    ghost Home = { Script };

    ghost is_of = { IsScripted };

    ghost numbers = { script_numbers };

    fn put(&self, key: &mut Key) -> Result<(), AllocError> {
        self.top.put(key)?;
        put_frames(key, &self.below)?;
        key.put_turned(self.sender.number)?;
        key.put(last_number(self.last))
    }

    ghost told_apart = { script_is_code };
}
