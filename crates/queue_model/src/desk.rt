// The thread that customers come to.
ghost use Rattle.std.specs.Prelude.{◌≡◌, OnOk};
ghost use Rattle.queue_model.specs.Desks.{after_come, after_offer, after_start, calls_by, closes, coming, desk_next, heard, is_deserted, opening, told_end, waits};

use crate::chance::Chance;
use crate::stamp::{stamp, time_of};
use crate::tally::Tally;
use crate::threads::word_to_host;
use crate::words::put_summary;
use lwp_types::{Answer, Call, LwpErr, Mode, NoMemory, Text, Tid};
use std::alloc::Global;
use std::collections::VecDeque;
use std::marker::Model;
use text_store::TextStore;

/// Customers come here, and wait until a server is free.
pub struct Desk<'s> {
    tally: Tally,
    // What time it is, and when the next customer comes; how many are still to come.
    now: u64,
    next: u64,
    left: u64,
    gaps: Chance,
    // When those came who wait, the oldest first, and how many may wait.
    waiting: VecDeque<u64>,
    room: usize,
    // The servers that are free, how many serve, and the one that is to begin.
    free: VecDeque<Tid>,
    serving: u64,
    begins: Option<Tid>,
    closed: bool,
    // Where the last word is put together, and where it is kept.
    buffer: Vec<u8>,
    store: &'s TextStore,
}

// PROVER: written by hand, so that a function that drops one calls this instead of repeating its proof.
impl<'s> Drop for Desk<'s> {
    fn drop(self) {
        let Desk {
            tally: _,
            now: _,
            next: _,
            left: _,
            gaps: _,
            waiting: _,
            room: _,
            free: _,
            serving: _,
            begins: _,
            closed: _,
            buffer: _,
            store: _,
        } = self;
    }
}

impl<'s> Model for Desk<'s> {
    ghost use Rattle.queue_model.specs.Desks.{Desk};

    ghost Value = { Desk };

    ghost view = { λ d. record {
      tally = d.tally;
      now = d.now;
      next = d.next;
      left = d.left;
      gaps = d.gaps;
      waiting = d.waiting.items;
      room = d.room;
      free = d.free.items;
      serving = d.serving;
      begins = d.begins;
      closed = d.closed;
    } };
}

impl<'s> Desk<'s> {
    /// A desk to which so many customers come, with such gaps between them, and where at most `room` may wait. Each bar of
    /// the histogram of waits is `width` ticks wide.
    pub fn new(
        alloc: Global,
        store: &'s TextStore,
        customers: u64,
        gaps: Chance,
        room: usize,
        width: u64,
    ) -> Desk<'s>
        ensures { result ≡ opening customers gaps room width }
    {
        let mut gaps = gaps;
        let next = u64::from(gaps.draw());
        Desk {
            tally: Tally::new(width),
            now: 0,
            next,
            left: customers,
            gaps,
            waiting: VecDeque::new(alloc),
            room,
            free: VecDeque::new(alloc),
            serving: 0,
            begins: None,
            closed: false,
            buffer: Vec::new(alloc),
            store,
        }
    }

    /// What was counted.
    pub fn tally(&self) -> &Tally
        ensures { result.now ≡ self.entry.now.tally }
    {
        &self.tally
    }

    // The customer who came then is served by this server from now on.
    fn start(&mut self, server: Tid, came: u64)
        ensures { self.new ≡ after_start server came self.old }
    {
        self.tally.begin(came, self.now);
        self.serving = self.serving.saturating_add(1);
        self.begins = Some(server);
    }

    // It is the time at which a customer comes, and the next one comes later.
    fn pass(&mut self)
        ensures { self.new ≡ coming self.old }
    {
        self.now = self.next;
        self.left = self.left.saturating_sub(1);
        self.next = self.now.saturating_add(u64::from(self.gaps.draw()));
        self.tally.arrive(self.now);
    }

    // A customer comes.
    fn come(&mut self) -> Result<(), NoMemory>
        ensures { OnOk result (self.new ≡ after_come self.old) }
    {
        self.pass();
        match self.free.pop_front() {
            Some(server) => self.start(server, self.now),
            None => {
                if self.waiting.len() < self.room {
                    self.waiting.push_back(self.now)?;
                } else {
                    self.tally.lose();
                }
            }
        }
        Ok(())
    }

    // The server is free: it serves the customer who has waited longest, if one waits.
    fn offer(&mut self, server: Tid) -> Result<(), NoMemory>
        ensures { OnOk result (self.new ≡ after_offer server self.old) }
    {
        match self.waiting.pop_front() {
            Some(came) => self.start(server, came),
            None => self.free.push_back(server)?,
        }
        Ok(())
    }

    // A server tells when it has ended; at first it says nothing.
    fn note(&mut self, text: &Text)
        ensures { self.new ≡ told_end text.now self.old }
    {
        if text.len() > 0 {
            self.now = time_of(text);
            self.serving = self.serving.saturating_sub(1);
            self.tally.end(self.now);
        }
    }

    fn hear(&mut self, got: &Answer<'s>) -> Result<(), NoMemory>
        ensures { OnOk result (self.new ≡ heard got.now self.old) }
    {
        match got {
            Answer::Letter { from, text, .. } => {
                self.note(text);
                self.offer(*from)
            }
            Answer::Refused(LwpErr::Timeout) => self.come(),
            _ => Ok(()),
        }
    }

    // Tells the host what was counted.
    fn close(&mut self, call: &mut Call<'s>) -> Result<(), NoMemory>
        ensures { OnOk result ((call.new, self.new) ≡ closes self.old) }
    {
        put_summary(&mut self.buffer, &self.tally)?;
        let text = match self.store.keep(&self.buffer)? {
            Some(text) => text,
            None => Text::empty(),
        };
        self.closed = true;
        *call = word_to_host(text);
        Ok(())
    }

    fn is_deserted(&self) -> bool
        ensures { result ≡ is_deserted self.entry.now }
    {
        self.waiting.len() == 0 && self.serving == 0
    }

    // Waits for the next customer, or for a server; once nobody comes, waits or is served any more, it says so.
    fn wait(&mut self, call: &mut Call<'s>) -> Result<(), NoMemory>
        ensures { OnOk result ((call.new, self.new) ≡ waits self.old) }
    {
        if self.left > 0 {
            let ticks = self.next.saturating_sub(self.now).min(4_294_967_295) as u32;
            *call = Call::Recv {
                from: None,
                mode: Mode::Until { ticks },
            };
            return Ok(());
        }
        if self.is_deserted() && !self.closed {
            return self.close(call);
        }
        *call = Call::Recv {
            from: None,
            mode: Mode::Block,
        };
        Ok(())
    }

    fn go_on(&mut self, call: &mut Call<'s>) -> Result<(), NoMemory>
        ensures { OnOk result ((call.new, self.new) ≡ calls_by self.old self.old.begins) }
    {
        match self.begins {
            Some(server) => {
                self.begins = None;
                *call = Call::Reply {
                    to: server,
                    text: stamp(self.now),
                };
                Ok(())
            }
            None => self.wait(call),
        }
    }

    /// Sets the next call, by the answer to the last one.
    pub fn next(&mut self, got: &Answer<'s>, call: &mut Call<'s>) -> Result<(), NoMemory>
        ensures { OnOk result ((call.new, self.new) ≡ desk_next self.old got.now) }
    {
        self.hear(got)?;
        self.go_on(call)
    }
}
