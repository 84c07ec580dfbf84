// What holds of the threads of every script.
ghost use Rattle.lwp_types.specs.Names.{Names};
ghost use Rattle.lwp_types.specs.declared.call.Answer.{Answer};
ghost use Rattle.script_body.specs.Bodies.{bodies_of, body_next};
ghost use Rattle.script_body.specs.BodyKeys.{IsBodyOf};
ghost use Rattle.script_body.specs.declared.thread_body.ThreadBody.{ThreadBody};
ghost use Rattle.script_text.specs.declared.script.Script.{Script};
ghost use Rattle.std.specs.List.{AllByRecursion};

/// The bodies that a script's threads begin as are of that script, and whatever one of them does next, it still is: what keys ask of the
/// bodies that they tell apart. It runs nothing.
pub fn every_body()
    ensures opens { (script : Script) → AllByRecursion (IsBodyOf script) (bodies_of script) }
    ensures stays { (script : Script) (body : ThreadBody) (names : Names) (got : Answer) → IsBodyOf script body →
        IsBodyOf script (body_next body names got).1 }
{}
