// A thread that keeps tables for those that send to it.
ghost use Rattle.line_server.specs.Stores.{store_by, store_next, store_next-keeps_lengths, store_opening, store_receives, store_turn_after_letter, store_turn_after_reply, store_tells, served_sender, tables_after};
ghost use Rattle.keys.specs.Numbers.{list_numbers};
ghost use Rattle.line_server.specs.Keys.{store_place_number, table_numbers};
ghost use Rattle.std.specs.Prelude.{◌≡◌, ◌++◌, IfOk, OnOk};

use crate::calls::{set_recv, set_reply, set_return, set_word};
use crate::table::Table;
use crate::words::was_replied;
use keys::{Key, Keyed};
use lwp_types::{Again, Answer, Body, Call, Env, LwpErr, NULL_TID, NoMemory, Polled, Text, Tid};
use std::alloc::{AllocError, Global};
use std::collections::BTreeMap;
use std::marker::Model;

/// What a store's last call was.
#[derive(Clone, Copy)]
pub enum StorePlace {
    Start,
    Recv,
    Reply,
    Empty,
}

/// A thread that keeps a table for each thread that sends to it, for its whole life. It takes memory only for a new sender
/// and for a put, and finds a table by its sender's number in an ordered map and a key in it by halves, so that no hash can be
/// made to collide.
pub struct StoreBody<'s> {
    alloc: Global,
    tables: BTreeMap<u64, Table<'s>>,
    client: Tid,
    place: StorePlace,
}

// PROVER: written by hand, so that a function that drops one calls this instead of repeating its proof.
impl<'s> Drop for StoreBody<'s> {
    fn drop(self) {
        let StoreBody {
            alloc: _,
            tables: _,
            client: _,
            place: _,
        } = self;
    }
}

impl<'s> Model for StoreBody<'s> {
    ghost use Rattle.line_server.specs.Stores.{StoreBody};

    ghost Value = { StoreBody };

    ghost view = { λ b. record { tables = b.tables.entries; client = b.client; place = b.place } };
}

// What a sender's text is told, by its own table.
fn tell<'s>(
    alloc: Global,
    tables: &mut BTreeMap<u64, Table<'s>>,
    from: u64,
    text: &Text<'s>,
) -> Result<Text<'s>, NoMemory>
    ensures reply { IfOk result
        (λ reply. reply ≡ (served_sender from text.now tables.old.entries).reply) }
    ensures after { OnOk result (tables.new.entries ≡ tables_after from text.now tables.old.entries) }
{
    if let Some(table) = tables.get_mut(&from) {
        return table.tell(text);
    }
    let mut table = Table::new(alloc);
    let reply = table.tell(text)?;
    tables.insert(from, table)?;
    Ok(reply)
}

impl<'s> StoreBody<'s> {
    /// A store at its start, without tables.
    pub fn new(alloc: Global) -> StoreBody<'s>
        ensures { result ≡ store_opening }
    {
        StoreBody {
            alloc,
            tables: BTreeMap::new(alloc),
            client: NULL_TID,
            place: StorePlace::Start,
        }
    }

    fn receive(&mut self, call: &mut Call)
        ensures { (call.new, self.new) ≡ store_receives self.old }
    {
        self.place = StorePlace::Recv;
        set_recv(call, None);
    }

    // The call becomes a reply of what the sender is told.
    fn tell(&mut self, from: Tid, text: &Text<'s>, call: &mut Call<'s>) -> Result<(), NoMemory>
        ensures { OnOk result ((call.new, self.new) ≡ store_tells self.old from text.now) }
    {
        self.client = from;
        self.place = StorePlace::Reply;
        let reply = tell(self.alloc, &mut self.tables, from.number, text)?;
        set_reply(call, from, &reply);
        Ok(())
    }

    fn take_letter(&mut self, got: &Answer<'s>, call: &mut Call<'s>) -> Result<(), NoMemory>
        ensures { OnOk result ((call.new, self.new) ≡ store_turn_after_letter self.old got.now) }
    {
        match got {
            Answer::Letter { from, text, .. } => self.tell(*from, text, call)?,
            Answer::Refused(_) => self.receive(call),
            _ => set_return(call),
        }
        Ok(())
    }

    // A reply that was too long is made once more, empty.
    fn take_reply(&mut self, got: &Answer, call: &mut Call)
        ensures { (call.new, self.new) ≡ store_turn_after_reply self.old got.now }
    {
        if let Answer::Refused(LwpErr::InvalidArg) = got {
            self.place = StorePlace::Empty;
            set_word(call, self.client, b"");
        } else if was_replied(got) {
            self.receive(call);
        } else {
            set_return(call);
        }
    }

    // The next call, by the last one.
    fn go_on(&mut self, got: &Answer<'s>, call: &mut Call<'s>) -> Result<(), NoMemory>
        ensures { OnOk result ((call.new, self.new) ≡ store_by self.old got.now self.old.place) }
    {
        match self.place {
            StorePlace::Start => self.receive(call),
            StorePlace::Recv => self.take_letter(got, call)?,
            StorePlace::Reply => self.take_reply(got, call),
            StorePlace::Empty if was_replied(got) => self.receive(call),
            StorePlace::Empty => set_return(call),
        }
        Ok(())
    }
}

impl<'s> Body for StoreBody<'s> {
    ghost next = { store_next };
}

impl<'s> Polled<'s> for StoreBody<'s> {
    #[tactic(auto, unfolding(crate::specs::Stores::store_next))]
    fn poll(
        &mut self,
        env: &mut Env,
        got: &Answer<'s>,
        call: &mut Call<'s>,
    ) -> Result<(), NoMemory> {
        self.go_on(got, call)
    }

    ghost keeps_lengths = { store_next-keeps_lengths };
}

// Equal tables, in memory of their own.
fn tables_again<'s>(tables: &BTreeMap<u64, Table<'s>>) -> Result<BTreeMap<u64, Table<'s>>, NoMemory>
    ensures { IfOk result (λ copy. copy.entries ≡ tables.now.entries) }
{
    let copy = tables.clone()?;
    Ok(copy)
}

impl<'s> Again for StoreBody<'s> {
    fn again(&self) -> Result<StoreBody<'s>, NoMemory> {
        Ok(StoreBody {
            alloc: self.alloc,
            tables: tables_again(&self.tables)?,
            client: self.client,
            place: self.place,
        })
    }
}

fn place_number(place: StorePlace) -> u64
    ensures { result ≡ store_place_number place }
{
    match place {
        StorePlace::Start => 0,
        StorePlace::Recv => 1,
        StorePlace::Reply => 2,
        StorePlace::Empty => 3,
    }
}

// How many senders there are, and each with its table.
fn put_tables<'s>(tables: &BTreeMap<u64, Table<'s>>, key: &mut Key) -> Result<(), AllocError>
    ensures { OnOk result (key.new ≡ key.old ++ list_numbers table_numbers tables.now.entries) }
{
    key.put(tables.len() as u64)?;
    for (sender, table) in tables {
        key.put(*sender)?;
        table.put_numbers(key)?;
    }
    Ok(())
}

impl<'s> Keyed for StoreBody<'s> {
    ghost use Rattle.keys.specs.Numbers.{Always};
    ghost use Rattle.line_server.specs.Keys.{store_numbers};
    ghost use Rattle.line_server.specs.KeyLaws.{store_is_code};

    ghost Home = { Unit {0} };

    ghost is_of = { λ home. Always };

    ghost numbers = { store_numbers };

    fn put(&self, key: &mut Key) -> Result<(), AllocError> {
        key.put_turned(self.client.number)?;
        key.put(place_number(self.place))?;
        put_tables(&self.tables, key)
    }

    ghost told_apart = { λ home. store_is_code.apart };
}
