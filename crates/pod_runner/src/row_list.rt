// The bodies of the live threads, each found by its thread's number.
ghost use Rattle.std.specs.Prelude.{◌≡◌, ◌++◌, ◌<◌, if◌then◌else◌, [], length, nat_lt, slice_get, slice_set, true, Some, OnOk, IfOk, IsTrue};
ghost use Rattle.pod_runner.specs.Session.{after_answer, without_row, rows_of_new};
ghost use Rattle.pod_runner.specs.Polls.{AreRising, ComesLast, IsLeft, Polls, call_at, place_of, polled_row};
ghost use Rattle.lwp_types.specs.declared.call.Answer.TheVariants as answer;
ghost use Rattle.lwp_types.specs.declared.call.Call.TheVariants as call;
ghost use Rattle.pod_runner.specs.declared.session.Row.{Row};
ghost use Rattle.lwp_types.specs.declared.call.Call.{Call};
ghost use Rattle.std.specs.List.{remove};

use crate::Row;
use lwp_types::{
    Again, Answer, Body, Call, Env, IdKind, IdList, NoMemory, Polled, Program, Tid, likely_place,
};
use std::alloc::Global;
use std::marker::Model;
use std::mem::replace;

/// The rows of the live threads, seen as their list, and the call of the row that was polled last.
#[derive(Drop)]
pub struct RowList<'s, B> {
    rows: Vec<Row<'s, B>>,
    // Whether the numbers rise from row to row, as a pod gives them. Then a row is found without going over the others.
    rising: bool,
    // The place of the row that was polled last, or past all places if it has gone.
    last: usize,
    // The call of the row that was polled last, if it has gone.
    gone: Call<'s>,
}

impl<'s, B> Model for RowList<'s, B> {
    ghost use Rattle.std.specs.Prelude.{IsTrue};
    ghost use Rattle.pod_runner.specs.Polls.{AreRising, Rows, call_at};

    ghost Value = { Rows B };

    ghost view = { λ l. record { rows = l.rows.items; call = call_at l.gone l.rows.items l.last } };

    ghost invariant = { λ l. IsTrue l.rising → AreRising l.rows.items };
}

/// A copy of the list, in memory of its own.
pub fn copy_list(alloc: Global, list: &IdList) -> Result<IdList, NoMemory>
    ensures { IfOk result (λ copy. copy ≡ list.now) }
{
    let mut copy = IdList::new(alloc);
    for i in 0..list.len() {
        copy.push(list.get(i))?;
    }
    Ok(copy)
}

// An equal row, in memory of its own.
fn row_again<'s, B: Again>(row: &Row<'s, B>) -> Result<Row<'s, B>, NoMemory>
    ensures { IfOk result (λ copy. copy ≡ row.now) }
{
    Ok(Row {
        tid: row.tid,
        proc: row.proc,
        body: row.body.again()?,
        answer: row.answer.again()?,
        called: row.called,
        call: row.call.again(),
    })
}

// Equal rows, in memory of their own.
fn rows_again<'s, B: Again>(rows: &Vec<Row<'s, B>>) -> Result<Vec<Row<'s, B>>, NoMemory>
    ensures { IfOk result (λ copy. copy.items ≡ rows.now.items) }
{
    let mut copy = Vec::with_capacity(*rows.allocator(), rows.len())?;
    for row in rows.iter() {
        copy.push_reserved(row_again(row)?);
    }
    Ok(copy)
}

// A row is polled with this list next. It takes memory, and stands apart from the answers that don't.
#[inline(never)]
fn set_list<'s, B>(
    row: &mut Row<'s, B>,
    alloc: Global,
    kind: IdKind,
    list: &IdList,
) -> Result<(), NoMemory>
    ensures set { OnOk result (row.new ≡ record row.old { answer = answer.Ids kind list.now }) }
    ensures same { row.new.tid ≡ row.old.tid }
{
    row.answer = Answer::Ids {
        kind,
        list: copy_list(alloc, list)?,
    };
    Ok(())
}

// A row is polled with the same answer next. Each kind of answer is set where it lies.
#[inline(always)]
fn set_answer<'s, B>(
    row: &mut Row<'s, B>,
    alloc: Global,
    answer: &Answer<'s>,
) -> Result<(), NoMemory>
    ensures set { OnOk result (row.new ≡ record row.old { answer = answer.now }) }
    ensures same { row.new.tid ≡ row.old.tid }
{
    match answer {
        Answer::Value(value) => row.answer = Answer::Value(*value),
        Answer::Thread(tid) => row.answer = Answer::Thread(*tid),
        Answer::Monitor(mon) => row.answer = Answer::Monitor(*mon),
        Answer::Cond(cond) => row.answer = Answer::Cond(*cond),
        Answer::Letter { from, text, room } => {
            row.answer = Answer::Letter {
                from: *from,
                text: text.again(),
                room: *room,
            }
        }
        Answer::Reply(text) => row.answer = Answer::Reply(text.again()),
        Answer::Bound { func, arg } => {
            row.answer = Answer::Bound {
                func: *func,
                arg: *arg,
            }
        }
        Answer::Caught {
            depth,
            mark,
            pattern,
        } => {
            row.answer = Answer::Caught {
                depth: *depth,
                mark: *mark,
                pattern: *pattern,
            }
        }
        Answer::Ids { kind, list } => return set_list(row, alloc, *kind, list),
        Answer::Refused(error) => row.answer = Answer::Refused(*error),
    }
    Ok(())
}

// Polls the body of a row, whose call lies in the row then.
fn poll_row<'s, B: Polled<'s>>(row: &mut Row<'s, B>, env: &mut Env) -> Result<(), NoMemory>
    ensures polls { OnOk result
        ((row.new ≡ polled_row (B.next row.old.body env.old row.old.answer) row.old)
        × (env.new ≡ (B.next row.old.body env.old row.old.answer).2)) }
    ensures same { row.new.tid ≡ row.old.tid }
{
    row.called = true;
    row.body.poll(env, &row.answer, &mut row.call)
}

// The place of a thread's row, or how many rows there are.
fn scanned<'s, B>(rows: &Vec<Row<'s, B>>, tid: Tid) -> usize
    ensures { result ≡ place_of tid rows.now.items }
{
    let mut i = 0;
    while i < rows.len() {
        if rows[i].tid == tid {
            return i;
        }
        i += 1;
    }
    i
}

fn is_older(a: Tid, b: Tid) -> bool
    ensures { result ≡ nat_lt a b }
{
    a.number < b.number
}

// The place of a thread's row, or how many rows there are, by halving, where the numbers rise.
fn searched<'s, B>(rows: &Vec<Row<'s, B>>, tid: Tid) -> usize
    requires { AreRising rows.now.items }
    ensures { result ≡ place_of tid rows.now.items }
{
    let mut low = 0;
    let mut high = rows.len();
    while low < high {
        let middle = low + (high - low) / 2;
        let found = rows[middle].tid;
        if found == tid {
            return middle;
        }
        if is_older(found, tid) {
            low = middle + 1;
        } else {
            high = middle;
        }
    }
    rows.len()
}

// Whether the thread's row is at a place, if the numbers rise.
fn is_at<'s, B>(rows: &Vec<Row<'s, B>>, tid: Tid, at: usize) -> bool
    ensures { IsTrue result → AreRising rows.now.items → place_of tid rows.now.items ≡ at }
{
    at < rows.len() && rows[at].tid == tid
}

// Where a thread's row most likely is.
fn guessed<'s, B>(rows: &Vec<Row<'s, B>>, tid: Tid) -> usize {
    match rows.first() {
        Some(oldest) => likely_place(tid.number, oldest.tid.number, rows.len()),
        None => 0,
    }
}

// Whether all rows are of older threads, if their numbers rise.
fn are_older<'s, B>(rows: &Vec<Row<'s, B>>, tid: Tid) -> bool
    ensures { IsTrue result → AreRising rows.now.items → ComesLast tid rows.now.items }
{
    let count = rows.len();
    count == 0 || is_older(rows[count - 1].tid, tid)
}

// Sets what a thread is polled with next, whose row is at a place.
#[inline(always)]
fn put_answer<'s, B>(
    rows: &mut Vec<Row<'s, B>>,
    i: usize,
    tid: Tid,
    answer: &Answer<'s>,
) -> Result<(), NoMemory>
    requires at { i ≡ place_of tid rows.old.items }
    requires within { i < length rows.old.items }
    ensures after { OnOk result (rows.new.items ≡ after_answer tid answer.now rows.old.items) }
    ensures rising { AreRising rows.old.items → AreRising rows.new.items }
    ensures as_many { length rows.new.items ≡ length rows.old.items }
{
    let alloc = *rows.allocator();
    let row = &mut rows[i];
    set_answer(row, alloc, answer)
}

// A place among so many rows, or past all of them.
fn place_or_past(here: bool, place: usize, count: usize) -> usize
    ensures { result ≡ if here then place else count }
{
    if here { place } else { count }
}

// One row more, the last. If the row that was polled last has gone, its place stays past all others.
fn add_row<'s, B: Drop>(
    rows: &mut Vec<Row<'s, B>>,
    last: &mut usize,
    tid: Tid,
    proc: u32,
    body: B,
) -> Result<(), NoMemory>
    ensures after { OnOk result
        ((rows.new.items ≡ rows.old.items ++ rows_of_new tid proc (Some body))
        × ((other : Call) →
        call_at other rows.new.items last.new ≡ call_at other rows.old.items last.old)) }
    ensures rising { AreRising rows.old.items → ComesLast tid rows.old.items →
        AreRising rows.new.items }
{
    let before = rows.len();
    rows.push(Row {
        tid,
        proc,
        body,
        answer: Answer::Value(0),
        called: false,
        call: Call::Return,
    })?;
    let after = rows.len();
    let kept = place_or_past(*last < before, *last, after);
    *last = kept;
    Ok(())
}

// The call in the row at a place, which goes next.
fn take_call<'s, B>(rows: &mut Vec<Row<'s, B>>, i: usize) -> Call<'s>
    requires { i < length rows.old.items }
    ensures { (row : Row B) → slice_get rows.old.items i ≡ Some row →
        (result ≡ row.call)
        × (rows.new.items ≡ slice_set rows.old.items i (record row { call = call.Return })) }
{
    replace(&mut rows[i].call, Call::Return)
}

// The row at a place goes next: where the row that was polled last is then, and its call, if it is this one.
fn part_from<'s, B>(rows: &mut Vec<Row<'s, B>>, i: usize, last: &mut usize, gone: &mut Call<'s>)
    requires { i < length rows.old.items }
    ensures call { call_at gone.new (remove rows.old.items i) last.new
        ≡ call_at gone.old rows.old.items last.old }
    ensures rows { IsLeft rows.old.items rows.new.items i }
{
    if i == *last {
        *gone = take_call(rows, i);
        *last = rows.len();
    } else if i < *last {
        *last -= 1;
    }
}

// Forgets a thread, whose row is at a place.
fn take_out<'s, B: Drop>(rows: &mut Vec<Row<'s, B>>, i: usize, tid: Tid)
    requires at { i ≡ place_of tid rows.old.items }
    requires within { i < length rows.old.items }
    ensures after { rows.new.items ≡ without_row tid rows.old.items }
    ensures rest { rows.new.items ≡ remove rows.old.items i }
    ensures rising { AreRising rows.old.items → AreRising rows.new.items }
{
    // PROVER: the thread is there for the clauses alone.
    let _ = tid;
    if i + 1 == rows.len() {
        // The last row isn't moved out.
        rows.truncate(i);
    } else {
        rows.remove(i);
    }
}

// Polls the body of the row at a place.
fn poll_in<'s, B: Polled<'s>>(
    rows: &mut Vec<Row<'s, B>>,
    i: usize,
    env: &mut Env,
) -> Result<(), NoMemory>
    requires { i < length rows.old.items }
    ensures polls { OnOk result
        ((row : Row B) → slice_get rows.old.items i ≡ Some row →
        (rows.new.items
        ≡ slice_set rows.old.items i (polled_row (B.next row.body env.old row.answer) row))
        × (env.new ≡ (B.next row.body env.old row.answer).2)) }
    ensures rising { AreRising rows.old.items → AreRising rows.new.items }
    ensures as_many { length rows.new.items ≡ length rows.old.items }
{
    let row = &mut rows[i];
    poll_row(row, env)
}

impl<'s, B> RowList<'s, B> {
    /// No rows.
    pub fn new(alloc: Global) -> RowList<'s, B>
        ensures { result ≡ record { rows = []; call = call.Return } }
    {
        RowList {
            rows: Vec::new(alloc),
            rising: true,
            last: 0,
            gone: Call::Return,
        }
    }

    /// Equal rows, in memory of their own.
    pub fn again(&self) -> Result<RowList<'s, B>, NoMemory>
    where
        B: Again,
        ensures { IfOk result (λ copy. copy ≡ self.now) }
    {
        Ok(RowList {
            rows: rows_again(&self.rows)?,
            rising: self.rising,
            last: self.last,
            gone: self.gone.again(),
        })
    }

    /// How many rows there are.
    pub fn len(&self) -> usize
        ensures { result ≡ length self.now.rows }
    {
        self.rows.len()
    }

    /// All rows.
    pub fn as_slice(&self) -> &[Row<'s, B>]
        ensures { result.now ≡ self.now.rows }
    {
        self.rows.as_slice()
    }

    /// Where the memory for the rows comes from.
    pub fn allocator(&self) -> Global {
        *self.rows.allocator()
    }

    /// The place of a thread's row, or how many rows there are.
    pub fn place(&self, tid: Tid) -> usize
        ensures { result ≡ place_of tid self.now.rows }
    {
        if self.rising && is_at(&self.rows, tid, self.last) {
            return self.last;
        }
        self.other_place(tid)
    }

    // The place of a row that isn't the one polled last. It stands apart, since mostly it is that one: so a turn's way
    // has no registers to save for a search.
    #[inline(never)]
    fn other_place(&self, tid: Tid) -> usize
        ensures { result ≡ place_of tid self.now.rows }
    {
        if !self.rising {
            return scanned(&self.rows, tid);
        }
        let likely = guessed(&self.rows, tid);
        if is_at(&self.rows, tid, likely) {
            return likely;
        }
        searched(&self.rows, tid)
    }

    // One row more, the last.
    fn push(&mut self, tid: Tid, proc: u32, body: B) -> Result<(), NoMemory>
    where
        B: Drop,
        ensures { OnOk result
            (self.new ≡ record self.old { rows = self.old.rows ++ rows_of_new tid proc (Some body) }) }
    {
        self.rising = self.rising && are_older(&self.rows, tid);
        add_row(&mut self.rows, &mut self.last, tid, proc, body)
    }

    /// Sets what a thread is polled with next.
    #[inline(always)]
    pub fn answer(&mut self, tid: Tid, answer: &Answer<'s>) -> Result<(), NoMemory>
        ensures { OnOk result
            (self.new ≡ record self.old { rows = after_answer tid answer.now self.old.rows }) }
    {
        let i = self.place(tid);
        if i < self.rows.len() {
            return put_answer(&mut self.rows, i, tid, answer);
        }
        Ok(())
    }

    /// Forgets a thread.
    pub fn forget(&mut self, tid: Tid)
    where
        B: Drop,
        ensures { self.new ≡ record self.old { rows = without_row tid self.old.rows } }
    {
        let i = self.place(tid);
        if i < self.rows.len() {
            part_from(&mut self.rows, i, &mut self.last, &mut self.gone);
            take_out(&mut self.rows, i, tid);
        }
    }

    /// Polls the body of the row at a place.
    pub fn poll_at(&mut self, i: usize, env: &mut Env) -> Result<(), NoMemory>
    where
        B: Polled<'s>,
        requires { i < length self.old.rows }
        ensures as_many { length self.new.rows ≡ length self.old.rows }
        ensures call { (other : Call) → call_at other self.new.rows i ≡ self.new.call }
        ensures polls { OnOk result
            ((row : Row B) → slice_get self.old.rows i ≡ Some row →
            Polls B.next row env.old self.new.call i self.old.rows self.new.rows env.new) }
    {
        self.last = i;
        poll_in(&mut self.rows, i, env)
    }

    /// The call in the row at a place.
    #[inline(always)]
    pub fn call_at(&self, i: usize) -> &Call<'s>
        requires { i < length self.now.rows }
        ensures { (other : Call) → result.now ≡ call_at other self.now.rows i }
    {
        &self.rows[i].call
    }

    /// The call of the row that was polled last.
    pub fn call(&self) -> &Call<'s>
        ensures { result.now ≡ self.now.call }
    {
        if self.last < self.rows.len() {
            &self.rows[self.last].call
        } else {
            &self.gone
        }
    }

    /// The row of a new thread, if there is such a procedure. It stands apart from the steps that bear nobody.
    #[inline(never)]
    pub fn open<P: Program<B>>(&mut self, program: &P, proc: u32, tid: Tid) -> Result<(), NoMemory>
    where
        B: Body,
        ensures { OnOk result
            (self.new
            ≡ record self.old {
              rows = self.old.rows
                  ++ rows_of_new tid proc (slice_get (P.bodies program.now) proc);
            }) }
    {
        if proc < program.procs() {
            let body = program.body_of(proc)?;
            self.push(tid, proc, body)?;
        }
        Ok(())
    }
}
