// What one client has put into a store.
ghost use Rattle.keys.specs.Numbers.{list_numbers};
ghost use Rattle.line_server.specs.Commands.{command_of};
ghost use Rattle.line_server.specs.Keys.{entry_numbers};
ghost use Rattle.line_server.specs.Tables.{at_key, served_text, served_put, served_del, get_reply};
ghost use Rattle.lwp_types.specs.TextFields.{is_printable};
ghost use Rattle.std.specs.Prelude.{◌≡◌, ◌++◌, ◌≤◌, [], length, IfOk, IsTrue, OnOk};

use crate::command::{Asked, command_of};
use crate::entries;
use crate::entry::Entry;
use keys::Key;
use lwp_types::{NoMemory, Text};
use std::alloc::{AllocError, Global};
use std::marker::Model;

/// How many keys a table may have.
pub const KEYS_MAX: usize = 100;

/// The keys of one client in their order, and the value of each. They lie in a vector, which takes little more memory than
/// they do: most clients have few keys, and the first node of an ordered map has room for fifteen. Even of 100 it costs little
/// to move those after a new one.
#[derive(Drop)]
pub struct Table<'s> {
    entries: Vec<Entry<'s>>,
}

impl<'s> Model for Table<'s> {
    ghost use Rattle.line_server.specs.Places.{AreInOrder};
    ghost use Rattle.line_server.specs.Tables.{Table};

    ghost Value = { Table };

    ghost view = { λ t. t.entries.items };

    ghost invariant = { λ t. AreInOrder t.entries.items };
}

impl<'s> Table<'s> {
    /// A table without keys.
    pub fn new(alloc: Global) -> Table<'s>
        ensures { result ≡ [] }
    {
        Table {
            entries: Vec::new(alloc),
        }
    }

    fn put(&mut self, key: &'s [u8], value: &'s [u8]) -> Result<Text<'s>, NoMemory>
        requires short { length value.now ≤ 237 }
        requires printable { IsTrue (is_printable value.now) }
        ensures reply { IfOk result (λ reply. reply ≡ (served_put key.now value.now self.old).reply) }
        ensures after { OnOk result (self.new ≡ (served_put key.now value.now self.old).table) }
    {
        let place = entries::place_of(&self.entries, key);
        if KEYS_MAX <= self.entries.len() && place.is_err() {
            return Ok(Text::lent(b"full"));
        }
        entries::put(&mut self.entries, place, Entry::new(key, value))?;
        Ok(Text::lent(b"ok"))
    }

    fn get(&self, key: &[u8]) -> Text<'s>
        ensures { result ≡ get_reply (at_key key.now self.now) }
    {
        match entries::find(&self.entries, key) {
            Some(entry) => entry.text(),
            None => Text::lent(b"none"),
        }
    }

    fn del(&mut self, key: &[u8]) -> Text<'s>
        ensures reply { result ≡ (served_del key.now self.old).reply }
        ensures after { self.new ≡ (served_del key.now self.old).table }
    {
        if entries::take(&mut self.entries, key) {
            Text::lent(b"ok")
        } else {
            Text::lent(b"none")
        }
    }

    /// Writes how many keys there are, and each with what is kept for it.
    pub fn put_numbers(&self, key: &mut Key) -> Result<(), AllocError>
        ensures { OnOk result (key.new ≡ key.old ++ list_numbers entry_numbers self.now) }
    {
        entries::put_numbers(&self.entries, key)
    }

    /// What a text is replied to. After `NoMemory` the table may be anything.
    #[inline(always)]
    pub fn tell(&mut self, text: &Text<'s>) -> Result<Text<'s>, NoMemory>
        ensures reply { IfOk result (λ reply. reply ≡ (served_text text.now self.old).reply) }
        ensures after { OnOk result (self.new ≡ (served_text text.now self.old).table) }
    {
        match command_of(text) {
            Some(Asked::Put { key, value }) => self.put(key, value),
            Some(Asked::Get { key }) => Ok(self.get(key)),
            Some(Asked::Del { key }) => Ok(self.del(key)),
            None => Ok(Text::lent(b"bad")),
        }
    }
}

impl<'s> Clone for Table<'s> {
    ghost is_clone = { λ table copy. copy ≡ table };

    fn clone(&self) -> Result<Table<'s>, AllocError> {
        Ok(Table {
            entries: entries::again(&self.entries)?,
        })
    }
}
