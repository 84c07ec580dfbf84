// The lines that a run has taken.
ghost use Rattle.std.specs.Prelude.{◌≡◌, ◌<◌, ◌∷◌, ◌++◌, [], length, slice_index_or, IfOk, OnErr, OnOk};
ghost use Rattle.std.specs.List.{count_by};
ghost use Rattle.pod_runner.specs.Snapshots.{taken_of};
ghost use Rattle.pod_runner.specs.Takes.{is_of};

use crate::Took;
use lists::{TextList, cloned};
use lwp_types::{Line, NoMemory};
use std::alloc::Global;
use std::marker::Model;

/// A take without its text.
#[derive(Clone, Copy)]
pub struct TakeRow {
    pub turn: u64,
    pub event: u8,
    pub client: u8,
    pub seq: u32,
}

/// Takes in order, seen as their list. Their texts lie in one piece of memory, so that they outlive what the lines were lent from.
#[derive(Drop)]
pub struct TakeList {
    rows: Vec<TakeRow>,
    texts: TextList,
}

impl Model for TakeList {
    ghost use Rattle.std.specs.Prelude.{List, length, ◌≡◌};
    ghost use Rattle.pod_runner.specs.Takes.{takes_of};
    ghost use Rattle.pod_runner.specs.declared.session.Took.{Took};

    ghost Value = { List Took };

    ghost view = { λ l. takes_of l.rows.items l.texts };

    ghost invariant = { λ l. length l.rows.items ≡ length l.texts };
}

// How many rows there are of a client.
fn rows_of(rows: &[TakeRow], client: usize) -> u64
    ensures { result ≡ count_by (is_of client) rows.now }
{
    let mut count = 0;
    for row in rows {
        if row.client as usize == client {
            count += 1;
        }
    }
    count
}

impl TakeList {
    /// No takes.
    pub fn new(alloc: Global) -> TakeList
        ensures { result ≡ [] }
    {
        TakeList {
            rows: Vec::new(alloc),
            texts: TextList::new(alloc),
        }
    }

    /// Equal takes, in memory of their own.
    pub fn again(&self) -> Result<TakeList, NoMemory>
        ensures { IfOk result (λ copy. copy ≡ self.now) }
    {
        Ok(TakeList {
            rows: cloned(&self.rows)?,
            texts: self.texts.again()?,
        })
    }

    /// How many takes there are.
    pub fn len(&self) -> usize
        ensures { result ≡ length self.now }
    {
        self.rows.len()
    }

    /// The take at place `i`, counted from 0.
    pub fn get(&self, i: usize) -> Took<'_>
        requires { i < length self.now }
        ensures { result ≡ slice_index_or self.now i result }
    {
        let row = self.rows[i];
        Took {
            turn: row.turn,
            line: Line {
                client: row.client,
                seq: row.seq,
                text: self.texts.get(i),
            },
            event: row.event,
        }
    }

    /// How many lines of a client there are.
    pub fn count_of(&self, client: usize) -> u64
        ensures { result ≡ taken_of self.now client }
    {
        rows_of(&self.rows, client)
    }

    /// One take more, at the end.
    pub fn push(&mut self, took: &Took) -> Result<(), NoMemory>
        ensures ok { OnOk result (self.new ≡ self.old ++ took.now ∷ []) }
        ensures err { OnErr result (self.new ≡ self.old) }
    {
        self.rows.reserve(1)?;
        self.texts.push_text(&took.line.text)?;
        self.rows.push_reserved(TakeRow {
            turn: took.turn,
            event: took.event,
            client: took.line.client,
            seq: took.line.seq,
        });
        Ok(())
    }
}
