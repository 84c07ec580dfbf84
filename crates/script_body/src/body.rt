// A thread that runs a procedure of a script.
ghost use Rattle.std.specs.Prelude.{◌≡◌, ◌<◌, ◌≤◌, ◌^◌, Some, false, is_some, unwrap_or, length, IfOk, IsTrue, OnOk, OnErr};
ghost use Rattle.script_text.specs.Script.{proc_number, proc_places};
ghost use Rattle.script_body.specs.Calls.{call_of};
ghost use Rattle.script_body.specs.Naming.{after_name};
ghost use Rattle.script_body.specs.ScriptBody.{script_opening, frame_above, back_at, after_take_caught, after_unhandle, with_frame, after_return, with_sender_by, after_take_by, after_take_refused, after_take_plain, after_take, stmt_after, behind, script_next};

mod keyed;

use crate::calls::{set_call, set_return};
use crate::frame::Frame;
use crate::names::{name_by, name_condition, name_monitor, name_thread};
use crate::numbers::{has_numbers, proc_number, stmts_at};
use crate::walk::{is_refused, near_stmt, next_stmt};
use lwp_types::{Again, Answer, Body, Call, Env, NULL_TID, NoMemory, Polled, Tid};
use script_text::{Script, Stmt};
use std::alloc::Global;
use std::marker::Model;
use std::mem;

/// A thread that runs a procedure of a script. It takes memory only to set a handler or to call a procedure.
pub struct ScriptBody<'s> {
    alloc: Global,
    script: &'s Script,
    top: Frame,
    // Those that it will return to, the innermost last.
    below: Vec<Frame>,
    sender: Tid,
    last: Option<&'s Stmt>,
}

// PROVER: written by hand, so that a function that drops one calls this instead of repeating its proof.
impl<'s> Drop for ScriptBody<'s> {
    fn drop(self) {
        let ScriptBody {
            alloc: _,
            script: _,
            top: _,
            below: _,
            sender: _,
            last: _,
        } = self;
    }
}

impl<'s> Model for ScriptBody<'s> {
    ghost use Rattle.std.specs.Prelude.{◌<◌, ◌^◌, length, option_map};
    ghost use Rattle.script_text.specs.Script.{proc_places};
    ghost use Rattle.script_body.specs.ScriptBody.{ScriptBody};

    ghost Value = { ScriptBody };

    ghost view = { λ b. record {
      script = b.script.now;
      top = b.top;
      below = b.below.items;
      sender = b.sender;
      last = option_map (λ s. s.now) b.last;
    } };

    ghost invariant = { λ b. length (proc_places b.script.now) < 2 ^ 32 };
}

impl<'s> ScriptBody<'s> {
    /// A thread at the start of a procedure. No memory is asked for: `NoMemory` is the answer only to a script with more
    /// procedures than a `u32` can number.
    pub fn new(alloc: Global, script: &'s Script, proc: u32) -> Result<ScriptBody<'s>, NoMemory>
        requires { proc < length script.now.procs }
        ensures ok { IfOk result (λ b. b ≡ script_opening script.now proc) }
        ensures err { OnErr result (2 ^ 32 ≤ length (proc_places script.now)) }
    {
        if !has_numbers(script) {
            return Err(NoMemory);
        }
        Ok(ScriptBody {
            alloc,
            script,
            top: Frame::new(alloc, proc),
            below: Vec::new(alloc),
            sender: NULL_TID,
            last: None,
        })
    }

    // The frame that has so many below it; the present one where no other has.
    fn frame_above(&self, depth: usize) -> &Frame
        ensures { result.now ≡ frame_above self.now depth }
    {
        match self.below.get(depth) {
            Some(frame) => frame,
            None => &self.top,
        }
    }

    // Makes that frame the present one, and goes on in it after a handler.
    fn go_back(&mut self, depth: usize, mark: usize, place: usize)
        ensures { self.new ≡ back_at self.old depth mark place }
    {
        if depth < self.below.len() {
            self.top = self.below.remove(depth);
            self.below.truncate(depth);
        }
        self.top.catch_at(mark, place);
    }

    // Whether there is such a handler. If not, nothing changes.
    fn take_caught(&mut self, depth: usize, mark: usize) -> bool
        ensures took { result ≡ is_some (after_take_caught self.old depth mark) }
        ensures after { self.new ≡ unwrap_or (after_take_caught self.old depth mark) self.old }
    {
        if depth == 0 || self.below.len() + 1 < depth {
            return false;
        }
        match self.frame_above(depth - 1).handler(mark) {
            Some(place) => {
                self.go_back(depth - 1, mark, place);
                true
            }
            None => false,
        }
    }

    // Whether there is a frame to return to.
    fn take_returned(&mut self) -> bool
        ensures took { result ≡ is_some (after_return self.old) }
        ensures after { self.new ≡ unwrap_or (after_return self.old) self.old }
    {
        match self.below.pop() {
            Some(frame) => {
                self.top = frame;
                true
            }
            None => false,
        }
    }

    // Whether there is a handler to remove.
    fn take_unhandled(&mut self) -> bool
        ensures took { result ≡ is_some (after_unhandle self.old) }
        ensures after { self.new ≡ unwrap_or (after_unhandle self.old) self.old }
    {
        self.top.remove_handler()
    }

    // Begins the procedure with this name.
    fn begin(&mut self, name: u32) -> Result<(), NoMemory>
        ensures { OnOk result (self.new ≡ with_frame self.old (proc_number self.old.script name)) }
    {
        let opened = Frame::new(self.alloc, proc_number(self.script, name));
        let caller = mem::replace(&mut self.top, opened);
        self.below.push(caller)?;
        Ok(())
    }

    fn know_sender(&mut self, got: &Answer)
        ensures { self.new ≡ with_sender_by got.now self.old }
    {
        if let Answer::Letter { from, .. } = got {
            self.sender = *from;
        }
    }

    // Takes an answer that is neither a catch nor a refusal, by the statement of the last call.
    fn take_by(&mut self, got: &Answer, stmt: &Stmt) -> Result<bool, NoMemory>
        ensures took { IfOk result
            (λ took. took ≡ is_some (after_take_by self.old got.now stmt.now)) }
        ensures after { OnOk result
            (self.new ≡ unwrap_or (after_take_by self.old got.now stmt.now) self.old) }
    {
        match stmt {
            Stmt::Recv { .. } => self.know_sender(got),
            Stmt::Handle { .. } => self.top.set_handler()?,
            Stmt::Unhandle => return Ok(self.take_unhandled()),
            Stmt::CallProc { proc } => self.begin(*proc)?,
            Stmt::Return => return Ok(self.take_returned()),
            _ => {}
        }
        Ok(true)
    }

    fn take_refused(&mut self, stmt: &Stmt) -> bool
        ensures took { result ≡ is_some (after_take_refused self.old stmt.now) }
        ensures after { self.new ≡ unwrap_or (after_take_refused self.old stmt.now) self.old }
    {
        match stmt {
            Stmt::Return => self.take_returned(),
            _ => true,
        }
    }

    fn take_plain(&mut self, got: &Answer) -> Result<bool, NoMemory>
        ensures took { IfOk result
            (λ took. took ≡ is_some (after_take_plain self.old got.now self.old.last)) }
        ensures after { OnOk result
            (self.new ≡ unwrap_or (after_take_plain self.old got.now self.old.last) self.old) }
    {
        let Some(stmt) = self.last else {
            return Ok(true);
        };
        if is_refused(got) {
            return Ok(self.take_refused(stmt));
        }
        self.take_by(got, stmt)
    }

    // Takes the answer to the last call, if it can be one. If not, nothing changes.
    fn take(&mut self, got: &Answer) -> Result<bool, NoMemory>
        ensures took { IfOk result (λ took. took ≡ is_some (after_take self.old got.now)) }
        ensures after { OnOk result (self.new ≡ unwrap_or (after_take self.old got.now) self.old) }
    {
        match got {
            Answer::Caught { depth, mark, .. } => {
                Ok(self.take_caught(*depth as usize, *mark as usize))
            }
            _ => self.take_plain(got),
        }
    }

    // Takes an answer that changes no more than the names and the sender, as most do. Any other is left, and nothing changes.
    #[inline(always)]
    fn settle(&mut self, env: &mut Env, got: &Answer) -> bool
        ensures took { IsTrue result → after_take self.old got.now ≡ Some self.new }
        ensures names { IsTrue result → env.new ≡ after_name got.now self.old.last env.old }
        ensures same { result ≡ false → self.new ≡ self.old }
        ensures same_names { result ≡ false → env.new ≡ env.old }
    {
        let Some(stmt) = self.last else {
            return false;
        };
        if matches!(got, Answer::Caught { .. } | Answer::Refused(_)) {
            return false;
        }
        match stmt {
            Stmt::Handle { .. } | Stmt::Unhandle | Stmt::CallProc { .. } | Stmt::Return => {
                return false;
            }
            Stmt::Recv { .. } => self.know_sender(got),
            Stmt::Create { name, .. } | Stmt::Agent { name, .. } => name_thread(env, *name, got),
            Stmt::MonCreate { mon } => name_monitor(env, *mon, got),
            Stmt::CvCreate { cond, .. } => name_condition(env, *cond, got),
            _ => {}
        }
        true
    }

    // Goes on after this statement, and makes its call.
    #[inline(always)]
    fn make(&mut self, env: &Env, stmt: &'s Stmt, place: usize, call: &mut Call<'s>)
        ensures call { call.new ≡ call_of self.old.script self.old.sender env.now stmt.now }
        ensures after { self.new ≡ behind self.old (record { stmt = stmt.now; place = place }) }
    {
        self.top.go_on_at(place);
        self.last = Some(stmt);
        set_call(self.script, self.sender, env, stmt, call);
    }

    // Makes the next call, where skips may come before it. As `take_and_call` it is a function of its own, so that what saves and
    // restores registers isn't on the way of most calls.
    #[inline(never)]
    fn call_after_skips(&mut self, env: &Env, got: &Answer, call: &mut Call<'s>)
        ensures call { call.new
            ≡ call_of self.old.script self.old.sender env.now (stmt_after got.now self.old).stmt }
        ensures after { self.new ≡ behind self.old (stmt_after got.now self.old) }
    {
        let stmts = stmts_at(self.script, self.top.number());
        let (stmt, place) = next_stmt(stmts, self.top.place(), got);
        self.make(env, stmt, place, call);
    }

    // Goes on to the next statement that makes a call, and makes it.
    #[inline(always)]
    fn call_next(&mut self, env: &Env, got: &Answer, call: &mut Call<'s>)
        ensures call { call.new
            ≡ call_of self.old.script self.old.sender env.now (stmt_after got.now self.old).stmt }
        ensures after { self.new ≡ behind self.old (stmt_after got.now self.old) }
    {
        let stmts = stmts_at(self.script, self.top.number());
        match near_stmt(stmts, self.top.place()) {
            Some((stmt, place)) => self.make(env, stmt, place, call),
            None => self.call_after_skips(env, got, call),
        }
    }

    // Takes any answer, and makes the next call: a function of its own, so that what saves and restores registers isn't on the
    // way of an answer that is settled.
    #[inline(never)]
    #[tactic(auto, unfolding(crate::specs::ScriptBody::script_next))]
    fn take_and_call(
        &mut self,
        env: &mut Env,
        got: &Answer,
        call: &mut Call<'s>,
    ) -> Result<(), NoMemory>
        ensures { OnOk result (script_next self.old env.old got.now ≡ (call.new, self.new, env.new)) }
    {
        let made = self.last;
        if !self.take(got)? {
            set_return(call);
            return Ok(());
        }
        if let Some(stmt) = made {
            name_by(env, got, stmt);
        }
        self.call_next(env, got, call);
        Ok(())
    }
}

impl<'s> Body for ScriptBody<'s> {
    ghost use Rattle.script_body.specs.ScriptBody.{script_next};

    ghost next = { script_next };
}

impl<'s> Polled<'s> for ScriptBody<'s> {
    ghost use Rattle.script_body.specs.NameLaws.{script_next-keeps_lengths};

    #[tactic(auto, unfolding(crate::specs::ScriptBody::script_next))]
    fn poll(
        &mut self,
        env: &mut Env,
        got: &Answer<'s>,
        call: &mut Call<'s>,
    ) -> Result<(), NoMemory> {
        if self.settle(env, got) {
            self.call_next(env, got, call);
            return Ok(());
        }
        self.take_and_call(env, got, call)
    }

    ghost keeps_lengths = { script_next-keeps_lengths };
}

// Equal frames, in memory of their own.
fn frames_again(frames: &Vec<Frame>) -> Result<Vec<Frame>, NoMemory>
    ensures { IfOk result (λ copy. copy.items ≡ frames.now.items) }
{
    let mut copy = Vec::with_capacity(*frames.allocator(), frames.len())?;
    for frame in frames.iter() {
        copy.push_reserved(frame.again()?);
    }
    Ok(copy)
}

impl<'s> Again for ScriptBody<'s> {
    fn again(&self) -> Result<ScriptBody<'s>, NoMemory> {
        Ok(ScriptBody {
            alloc: self.alloc,
            script: self.script,
            top: self.top.again()?,
            below: frames_again(&self.below)?,
            sender: self.sender,
            last: self.last,
        })
    }
}
