// The procedures of a script as a program.
ghost use Rattle.script_body.specs.Bodies.{native_body};
ghost use Rattle.std.specs.Prelude.{◌≡◌, ◌<◌, ◌^◌, ◌+◌, length, slice_index};
ghost use Rattle.script_text.specs.Script.{proc_places};

use crate::ScriptBody;
use crate::thread_body::ThreadBody;
use line_server::{SessionBody, StoreBody};
use lwp_types::{Again, NoMemory, Program};
use script_text::{NativeKind, Script};
use std::alloc::Global;
use std::marker::Model;

/// The procedures of a script: first those of statements, then those that are built in.
#[derive(Drop)]
pub struct ScriptProgram<'s> {
    alloc: Global,
    script: &'s Script,
}

impl<'s> Model for ScriptProgram<'s> {
    ghost use Rattle.std.specs.Prelude.{◌<◌, ◌^◌, ◌+◌, length};
    ghost use Rattle.script_text.specs.declared.script.Script.{Script as AnyScript};

    ghost Value = { AnyScript };

    ghost view = { λ p. p.script.now };

    ghost invariant = { λ p. length p.script.now.procs + length p.script.now.natives < 2 ^ 32 };
}

// A built-in procedure at its start.
fn native_body<'s>(alloc: Global, kind: NativeKind) -> ThreadBody<'s>
    ensures { result ≡ native_body kind }
{
    match kind {
        NativeKind::Store => ThreadBody::Storing(StoreBody::new(alloc)),
        NativeKind::Session { event, store } => ThreadBody::Serving(SessionBody::new(event, store)),
    }
}

// The place of a procedure's name.
fn name_place(script: &Script, proc: usize) -> usize
    requires { proc < length (proc_places script.now) }
    ensures { result ≡ slice_index (proc_places script.now) proc }
{
    match script.procs.as_slice().get(proc) {
        Some(found) => found.name as usize,
        None => script.natives.as_slice()[proc - script.procs.len()].name as usize,
    }
}

impl<'s> ScriptProgram<'s> {
    /// The program of a script.
    pub fn new(alloc: Global, script: &'s Script) -> ScriptProgram<'s>
        requires few { length script.now.procs + length script.now.natives < 2 ^ 32 }
        ensures { result ≡ script.now }
    {
        ScriptProgram { alloc, script }
    }
}

impl<'s> Program<ThreadBody<'s>> for ScriptProgram<'s> {
    ghost use Rattle.script_body.specs.Bodies.{bodies_of};
    ghost use Rattle.script_body.specs.BodyLaws.{as_many-of};
    ghost use Rattle.script_text.specs.Script.{proc_names as names_of_procs};

    ghost bodies = { bodies_of };

    ghost proc_names = { names_of_procs };

    fn procs(&self) -> u32 {
        (self.script.procs.len() + self.script.natives.len()) as u32
    }

    fn proc_name(&self, proc: u32) -> &[u8] {
        let place = name_place(self.script, proc as usize);
        self.script.names.procs.bytes(place)
    }

    fn body_of(&self, proc: u32) -> Result<ThreadBody<'s>, NoMemory> {
        let number = proc as usize;
        let scripted = self.script.procs.len();
        if number < scripted {
            let body = ScriptBody::new(self.alloc, self.script, proc)?;
            return Ok(ThreadBody::Scripted(body));
        }
        let native = self.script.natives.as_slice()[number - scripted];
        Ok(native_body(self.alloc, native.kind))
    }

    ghost as_many = { as_many-of };
}

impl<'s> Again for ScriptProgram<'s> {
    fn again(&self) -> Result<ScriptProgram<'s>, NoMemory> {
        Ok(ScriptProgram {
            alloc: self.alloc,
            script: self.script,
        })
    }
}
