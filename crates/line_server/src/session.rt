// A thread that serves the client of one event.
ghost use Rattle.line_server.specs.Sessions.{session_receives, session_returns, session_replies, session_next, session_next-keeps_lengths, session_opening, session_turn_after_letter, session_reads, session_turn_after_reply, session_turn_after_agent, session_at, session_by};
ghost use Rattle.line_server.specs.Keys.{session_place_number};
ghost use Rattle.line_server.specs.Tables.{is_quit};
ghost use Rattle.line_server.specs.declared.session.SessionPlace.TheVariants as place_kind;
ghost use Rattle.lwp_types.specs.TextFields.{is_text};
ghost use Rattle.lwp_types.specs.declared.call.Call.TheVariants as call_kind;
ghost use Rattle.std.specs.Prelude.{◌≡◌, IsTrue, codes, if◌then◌else◌};

use crate::calls::{set_agent, set_recv, set_reply, set_return, set_send, set_word};
use crate::command::command_of;
use crate::words::was_replied;
use keys::{Key, Keyed};
use lwp_types::{Again, Answer, Body, Call, Env, NULL_TID, NoMemory, Polled, Text, Tid};
use std::alloc::AllocError;
use std::marker::Model;

/// What a session's last call was.
#[derive(Clone, Copy)]
pub enum SessionPlace {
    Start,
    Agent,
    Recv,
    Send,
    Reply,
    Bye,
    End,
}

/// A thread that carries the commands of an event's client to a store, and the store's replies back. It takes no memory.
pub struct SessionBody {
    event: u8,
    store: u32,
    agent: Tid,
    place: SessionPlace,
}

// PROVER: written by hand, so that a function that drops one calls this instead of repeating its proof.
impl Drop for SessionBody {
    fn drop(self) {
        let SessionBody {
            event: _,
            store: _,
            agent: _,
            place: _,
        } = self;
    }
}

impl Model for SessionBody {
    ghost use Rattle.line_server.specs.Sessions.{SessionBody};

    ghost Value = { SessionBody };

    ghost view = { λ b. record { event = b.event; store = b.store; agent = b.agent; place = b.place } };
}

// Whether a client says that it ends.
fn is_quit(text: &Text) -> bool
    ensures { result ≡ is_quit text.now }
{
    text.equals(b"quit")
}

impl SessionBody {
    /// A session at its start, for the client of an event. Its store is the thread whose name has the number `store`.
    pub fn new(event: u8, store: u32) -> SessionBody
        ensures { result ≡ session_opening event store }
    {
        SessionBody {
            event,
            store,
            agent: NULL_TID,
            place: SessionPlace::Start,
        }
    }

    fn receive(&mut self, call: &mut Call)
        ensures { (call.new, self.new) ≡ session_receives self.old }
    {
        self.place = SessionPlace::Recv;
        set_recv(call, Some(self.agent));
    }

    fn end(&mut self, call: &mut Call)
        ensures { (call.new, self.new) ≡ session_returns self.old }
    {
        self.place = SessionPlace::End;
        set_return(call);
    }

    fn reply<'s>(&mut self, text: &Text<'s>, call: &mut Call<'s>)
        ensures { (call.new, self.new) ≡ session_replies self.old text.now }
    {
        self.place = SessionPlace::Reply;
        set_reply(call, self.agent, text);
    }

    fn reply_word(&mut self, word: &'static [u8], call: &mut Call)
        requires { IsTrue (is_text word.now) }
        ensures { (call.new, self.new) ≡ session_replies self.old word.now }
    {
        self.place = SessionPlace::Reply;
        set_word(call, self.agent, word);
    }

    // A line that is no command was received. It stands apart, so that whatever else a session does saves no registers for the
    // calls that are made here.
    #[inline(never)]
    fn read_other(&mut self, text: &Text, call: &mut Call)
        ensures { (call.new, self.new)
            ≡ (if is_quit text.now then (
              call_kind.Reply self.old.agent (codes "bye"),
              session_at self.old
                  place_kind.Bye,
            )
            else session_replies self.old (codes "bad")) }
    {
        if is_quit(text) {
            self.place = SessionPlace::Bye;
            set_word(call, self.agent, b"bye");
        } else {
            self.reply_word(b"bad", call);
        }
    }

    // A line was received. Most are commands, so that is asked first.
    fn read<'s>(&mut self, env: &Env, text: &Text<'s>, call: &mut Call<'s>)
        ensures { (call.new, self.new) ≡ session_reads self.old env.now text.now }
    {
        if command_of(text).is_some() {
            self.place = SessionPlace::Send;
            set_send(call, env.thread(self.store), text);
        } else {
            self.read_other(text, call);
        }
    }

    fn take_agent(&mut self, got: &Answer, call: &mut Call)
        ensures { (call.new, self.new) ≡ session_turn_after_agent self.old got.now }
    {
        match got {
            Answer::Thread(agent) => {
                self.agent = *agent;
                self.receive(call);
            }
            Answer::Refused(_) => self.end(call),
            _ => set_return(call),
        }
    }

    fn take_line<'s>(&mut self, env: &Env, got: &Answer<'s>, call: &mut Call<'s>)
        ensures { (call.new, self.new) ≡ session_turn_after_letter self.old env.now got.now }
    {
        match got {
            Answer::Letter { text, .. } => self.read(env, text, call),
            Answer::Refused(_) => self.end(call),
            _ => set_return(call),
        }
    }

    fn take_reply<'s>(&mut self, got: &Answer<'s>, call: &mut Call<'s>)
        ensures { (call.new, self.new) ≡ session_turn_after_reply self.old got.now }
    {
        match got {
            Answer::Reply(text) => self.reply(text, call),
            Answer::Refused(_) => self.reply_word(b"down", call),
            _ => set_return(call),
        }
    }

    // The next call, by the last one.
    fn go_on<'s>(&mut self, env: &Env, got: &Answer<'s>, call: &mut Call<'s>)
        ensures { (call.new, self.new) ≡ session_by self.old env.now got.now self.old.place }
    {
        match self.place {
            SessionPlace::Start => {
                self.place = SessionPlace::Agent;
                set_agent(call, self.event);
            }
            SessionPlace::Agent => self.take_agent(got, call),
            SessionPlace::Recv => self.take_line(env, got, call),
            SessionPlace::Send => self.take_reply(got, call),
            SessionPlace::Reply if was_replied(got) => self.receive(call),
            SessionPlace::Bye if was_replied(got) => self.end(call),
            _ => set_return(call),
        }
    }
}

impl Body for SessionBody {
    ghost next = { session_next };
}

impl<'s> Polled<'s> for SessionBody {
    #[tactic(auto, unfolding(crate::specs::Sessions::session_next))]
    fn poll(
        &mut self,
        env: &mut Env,
        got: &Answer<'s>,
        call: &mut Call<'s>,
    ) -> Result<(), NoMemory> {
        self.go_on(env, got, call);
        Ok(())
    }

    ghost keeps_lengths = { session_next-keeps_lengths };
}

impl Again for SessionBody {
    fn again(&self) -> Result<SessionBody, NoMemory> {
        Ok(SessionBody {
            event: self.event,
            store: self.store,
            agent: self.agent,
            place: self.place,
        })
    }
}

fn place_number(place: SessionPlace) -> u64
    ensures { result ≡ session_place_number place }
{
    match place {
        SessionPlace::Start => 0,
        SessionPlace::Agent => 1,
        SessionPlace::Recv => 2,
        SessionPlace::Send => 3,
        SessionPlace::Reply => 4,
        SessionPlace::Bye => 5,
        SessionPlace::End => 6,
    }
}

impl Keyed for SessionBody {
    ghost use Rattle.keys.specs.Numbers.{Always};
    ghost use Rattle.line_server.specs.Keys.{session_numbers};
    ghost use Rattle.line_server.specs.KeyLaws.{session_is_code};

    ghost Home = { Unit {0} };

    ghost is_of = { λ home. Always };

    ghost numbers = { session_numbers };

    fn put(&self, key: &mut Key) -> Result<(), AllocError> {
        key.put_all(&[self.event as u64, self.store as u64])?;
        key.put_turned(self.agent.number)?;
        key.put(place_number(self.place))
    }

    ghost told_apart = { λ home. session_is_code.apart };
}
