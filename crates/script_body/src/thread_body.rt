// What a thread of a script runs.
use crate::ScriptBody;
use keys::{Key, Keyed};
use line_server::{SessionBody, StoreBody};
use lwp_types::{Again, Answer, Body, Call, Env, NoMemory, Polled};
use std::alloc::AllocError;

/// A thread's body: a procedure of statements, or one of the two that are built in.
#[derive(Drop)]
pub enum ThreadBody<'s> {
    Scripted(ScriptBody<'s>),
    Serving(SessionBody),
    Storing(StoreBody<'s>),
}

impl<'s> Body for ThreadBody<'s> {
    ghost use Rattle.script_body.specs.Bodies.{body_next};

    ghost next = { body_next };
}

impl<'s> Polled<'s> for ThreadBody<'s> {
    ghost use Rattle.script_body.specs.BodyLaws.{body_next-keeps_lengths};

    #[inline(always)]
    fn poll(
        &mut self,
        env: &mut Env,
        got: &Answer<'s>,
        call: &mut Call<'s>,
    ) -> Result<(), NoMemory> {
        match self {
            ThreadBody::Scripted(body) => body.poll(env, got, call),
            ThreadBody::Serving(body) => body.poll(env, got, call),
            ThreadBody::Storing(body) => body.poll(env, got, call),
        }
    }

    ghost keeps_lengths = { body_next-keeps_lengths };
}

impl<'s> Again for ThreadBody<'s> {
    fn again(&self) -> Result<ThreadBody<'s>, NoMemory> {
        Ok(match self {
            ThreadBody::Scripted(body) => ThreadBody::Scripted(body.again()?),
            ThreadBody::Serving(body) => ThreadBody::Serving(body.again()?),
            ThreadBody::Storing(body) => ThreadBody::Storing(body.again()?),
        })
    }
}

impl<'s> Keyed for ThreadBody<'s> {
    ghost use Rattle.script_body.specs.BodyKeys.{IsBodyOf, body_numbers};
    ghost use Rattle.script_body.specs.BodyKeyLaws.{body_is_code};
    ghost use Rattle.script_text.specs.declared.script.Script.{Script};

    ghost Home = { Script };

    ghost is_of = { IsBodyOf };

    ghost numbers = { body_numbers };

    fn put(&self, key: &mut Key) -> Result<(), AllocError> {
        match self {
            ThreadBody::Scripted(body) => {
                key.put(0)?;
                body.put(key)
            }
            ThreadBody::Serving(body) => {
                key.put(1)?;
                body.put(key)
            }
            ThreadBody::Storing(body) => {
                key.put(2)?;
                body.put(key)
            }
        }
    }

    ghost told_apart = { body_is_code };
}
