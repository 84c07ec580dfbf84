// The thread that keeps items.
ghost use Rattle.bounded_buffer.specs.Buffer.{after_answer, after_get, after_hand, after_keep, after_put, after_refill, after_reply, after_store, after_take_letter, after_thank, buffer_next, calls, opening, replies_or_rests, rests};
ghost use Rattle.std.specs.Prelude.{◌≡◌, OnOk};

use lwp_types::{Answer, Call, Flags, Mode, NoMemory, Text, Tid};
use std::alloc::Global;
use std::collections::VecDeque;
use std::marker::Model;

/// Keeps items in the order in which they came, at most so many. Who comes at the wrong time is replied to later.
pub struct Buffer<'s> {
    crew: u32,
    created: u32,
    room: usize,
    items: VecDeque<Text<'s>>,
    waiting: VecDeque<(Tid, Text<'s>)>,
    asking: VecDeque<Tid>,
    replies: VecDeque<(Tid, Text<'s>)>,
    left: u32,
}

impl<'s> Drop for Buffer<'s> {
    fn drop(self) {
        let Buffer {
            crew: _,
            created: _,
            room: _,
            items: _,
            waiting: _,
            asking: _,
            replies: _,
            left: _,
        } = self;
    }
}

impl<'s> Model for Buffer<'s> {
    ghost use Rattle.bounded_buffer.specs.Buffer.{Buffer};

    ghost Value = { Buffer };

    ghost view = { λ b. record {
      crew = b.crew;
      created = b.created;
      room = b.room;
      items = b.items.items;
      waiting = b.waiting.items;
      asking = b.asking.items;
      replies = b.replies.items;
      left = b.left;
    } };
}

impl<'s> Buffer<'s> {
    /// A buffer that is to create `crew` threads, holds at most `room` items, and hands out `left` in all.
    pub fn new(alloc: Global, crew: u32, room: usize, left: u32) -> Buffer<'s>
        ensures { result ≡ opening crew room left }
    {
        Buffer {
            crew,
            created: 0,
            room,
            items: VecDeque::new(alloc),
            waiting: VecDeque::new(alloc),
            asking: VecDeque::new(alloc),
            replies: VecDeque::new(alloc),
            left,
        }
    }

    fn reply(&mut self, to: Tid, text: Text<'s>) -> Result<(), NoMemory>
        ensures { OnOk result (self.new ≡ after_reply to text.entry self.old) }
    {
        self.replies.push_back((to, text))?;
        Ok(())
    }

    fn thank(&mut self, producer: Tid) -> Result<(), NoMemory>
        ensures { OnOk result (self.new ≡ after_thank producer self.old) }
    {
        self.reply(producer, Text::empty())
    }

    fn hand(&mut self, consumer: Tid, item: Text<'s>) -> Result<(), NoMemory>
        ensures { OnOk result (self.new ≡ after_hand consumer item.entry self.old) }
    {
        self.left = self.left.saturating_sub(1);
        self.reply(consumer, item)
    }

    fn store(&mut self, item: Text<'s>) -> Result<(), NoMemory>
        ensures { OnOk result (self.new ≡ after_store item.entry self.old) }
    {
        self.items.push_back(item)?;
        Ok(())
    }

    fn keep(&mut self, producer: Tid, item: Text<'s>) -> Result<(), NoMemory>
        ensures { OnOk result (self.new ≡ after_keep producer item.entry self.old) }
    {
        if self.items.len() < self.room {
            self.store(item)?;
            return self.thank(producer);
        }
        self.waiting.push_back((producer, item))?;
        Ok(())
    }

    fn put(&mut self, producer: Tid, item: Text<'s>) -> Result<(), NoMemory>
        ensures { OnOk result (self.new ≡ after_put producer item.entry self.old) }
    {
        match self.asking.pop_front() {
            Some(consumer) => {
                self.hand(consumer, item)?;
                self.thank(producer)
            }
            None => self.keep(producer, item),
        }
    }

    fn refill(&mut self) -> Result<(), NoMemory>
        ensures { OnOk result (self.new ≡ after_refill self.old) }
    {
        match self.waiting.pop_front() {
            Some((producer, item)) => {
                self.store(item)?;
                self.thank(producer)
            }
            None => Ok(()),
        }
    }

    fn get(&mut self, consumer: Tid) -> Result<(), NoMemory>
        ensures { OnOk result (self.new ≡ after_get consumer self.old) }
    {
        match self.items.pop_front() {
            Some(item) => {
                self.hand(consumer, item)?;
                self.refill()
            }
            None => {
                self.asking.push_back(consumer)?;
                Ok(())
            }
        }
    }

    fn take_letter(&mut self, from: Tid, text: Text<'s>) -> Result<(), NoMemory>
        ensures { OnOk result (self.new ≡ after_take_letter from text.entry self.old) }
    {
        if text.len() == 0 {
            self.get(from)
        } else {
            self.put(from, text)
        }
    }

    fn hear(&mut self, got: &Answer<'s>) -> Result<(), NoMemory>
        ensures { OnOk result (self.new ≡ after_answer got.now self.old) }
    {
        match got {
            Answer::Letter { from, text, .. } => self.take_letter(*from, text.again()),
            _ => Ok(()),
        }
    }

    fn rest(&self, call: &mut Call)
        ensures { (call.new, self.now) ≡ rests self.now }
    {
        if self.left == 0 {
            *call = Call::Return;
        } else {
            *call = Call::Recv {
                from: None,
                mode: Mode::Block,
            };
        }
    }

    fn reply_or_rest(&mut self, call: &mut Call<'s>)
        ensures { (call.new, self.new) ≡ replies_or_rests self.old self.old.replies }
    {
        match self.replies.pop_front() {
            Some((to, text)) => *call = Call::Reply { to, text },
            None => self.rest(call),
        }
    }

    fn go_on(&mut self, call: &mut Call<'s>)
        ensures { (call.new, self.new) ≡ calls self.old }
    {
        if self.created >= self.crew {
            self.reply_or_rest(call);
            return;
        }
        self.created += 1;
        *call = Call::Create {
            proc: self.created,
            prio: 1,
            flags: Flags {
                suspended: false,
                nolastrites: false,
                server: false,
            },
        };
    }

    /// Sets the next call, by the answer to the last one.
    pub fn next(&mut self, got: &Answer<'s>, call: &mut Call<'s>) -> Result<(), NoMemory>
        ensures { OnOk result ((call.new, self.new) ≡ buffer_next self.old got.now) }
    {
        self.hear(got)?;
        self.go_on(call);
        Ok(())
    }
}
