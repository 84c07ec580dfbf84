// The place of each thread.
ghost use Rattle.std.specs.Prelude.{◌≡◌, ◌+◌, ◌<◌, ◌≤◌, IfNone, IfOk, IfSome, IsSome, None, OnOk, Some, length, replicate, slice_index_or, slice_set, vec_capacity};
ghost use Rattle.std.specs.List.{find};
ghost use Rattle.lwp_types.specs.State.{passes};
ghost use Rattle.lists.specs.declared.thread_index.Entry.{Entry};
ghost use Rattle.lists.specs.ThreadIndex.{IsAbsent, IsAt, IsEmpty, IsGapAt, IsMask, IsRising, Puts, cell_in, count_of, home, is_entry_of, place_in, place_of, no_entry, width_of, without_entry};

use crate::copies::{cloned, cloned_exactly};
use lwp_types::{NoMemory, Tid};
use std::alloc::Global;
use std::marker::Model;

/// The number of a thread, and its place.
#[derive(Clone, Copy)]
pub struct Entry {
    pub number: u64,
    pub place: usize,
}

// No hash map: the kit's don't promise room back after a removal, and a call that takes no memory can't rest on that.
/// An entry for each thread that has a place.
#[derive(Drop)]
pub struct Index {
    // Each in the cell of its number, as long as no other stands there.
    cells: Vec<Option<Entry>>,
    // The bits of a number that say which cell is its own.
    mask: usize,
    // Those whose cell another had, by rising numbers.
    strays: Vec<Entry>,
    // How many entries there are.
    count: usize,
}

impl Model for Index {
    ghost use Rattle.std.specs.Prelude.{vec_capacity};
    ghost use Rattle.lists.specs.ThreadIndex.{Found, IsKept};

    ghost Value = { Found };

    ghost view = { λ i. record { cells = i.cells.items; mask = i.mask; strays = i.strays.items; room = vec_capacity i.strays } };

    ghost invariant = { λ i. IsKept i.cells.items i.mask i.strays.items i.count };
}

// The entry there.
fn stray_at(strays: &Vec<Entry>, at: usize) -> Entry
    requires { at < length strays.now.items }
    ensures { result ≡ slice_index_or strays.now.items at no_entry }
{
    strays[at]
}

// Where a number stands among rising ones.
fn stray_of(strays: &[Entry], number: u64) -> Option<usize>
    requires { IsRising strays.now }
    ensures absent { IfNone result (IsAbsent number strays.now) }
    ensures found { IfSome result (IsAt number strays.now) }
{
    strays
        .binary_search_by_key(&number, |entry| entry.number)
        .ok()
}

// Where a number that isn't there belongs among rising ones.
fn gap_of(strays: &[Entry], number: u64) -> Option<usize>
    requires { IsRising strays.now }
    ensures gap { IfSome result (IsGapAt number strays.now) }
    ensures found { IfNone result (IsSome (find (is_entry_of number) strays.now)) }
{
    strays
        .binary_search_by_key(&number, |entry| entry.number)
        .err()
}

// The place under a number, among rising ones.
fn halving(strays: &Vec<Entry>, number: u64) -> Option<usize>
    requires { IsRising strays.now.items }
    ensures { result ≡ place_in strays.now.items number }
{
    match stray_of(strays, number) {
        Some(at) => Some(stray_at(strays, at).place),
        None => None,
    }
}

// All entries but that of a number. Like `put_in` it stands apart, so that a thread in its own cell saves no registers for it.
#[inline(never)]
fn take_out(strays: &mut Vec<Entry>, number: u64)
    requires { IsRising strays.old.items }
    ensures items { strays.new.items ≡ without_entry number strays.old.items }
    ensures capacity { vec_capacity strays.new ≡ vec_capacity strays.old }
{
    if let Some(at) = stray_of(strays, number) {
        strays.remove(at);
    }
}

// One entry more, where its number belongs.
#[inline(never)]
fn put_in(strays: &mut Vec<Entry>, number: u64, place: usize)
    requires rising { IsRising strays.old.items }
    requires new { place_in strays.old.items number ≡ None }
    requires room { length strays.old.items < vec_capacity strays.old }
    ensures rising { IsRising strays.new.items }
    ensures puts { Puts (place_in strays.old.items) (place_in strays.new.items) number (Some place) }
    ensures len { length strays.new.items ≡ length strays.old.items + 1 }
    ensures capacity { vec_capacity strays.new ≡ vec_capacity strays.old }
{
    if let Some(at) = gap_of(strays, number) {
        // There is room, so no memory is asked for.
        let _ = strays.insert(at, Entry { number, place });
    }
}

// What is in the cell of a number, where there are cells.
fn own_cell(cells: &Vec<Option<Entry>>, mask: usize, number: u64) -> Option<Entry>
    requires mask { IsMask mask cells.now.items }
    requires some { 1 ≤ length cells.now.items }
    ensures { result ≡ cell_in cells.now.items mask number }
{
    cells[number as usize & mask]
}

// What is in the cell of a number: its own entry, another's or none.
fn cell(cells: &Vec<Option<Entry>>, mask: usize, number: u64) -> Option<Entry>
    requires { IsMask mask cells.now.items }
    ensures { result ≡ cell_in cells.now.items mask number }
{
    if cells.is_empty() {
        return None;
    }
    own_cell(cells, mask, number)
}

// Whether the cell of a number has its own entry.
fn is_own(cells: &Vec<Option<Entry>>, mask: usize, number: u64) -> bool
    requires { IsMask mask cells.now.items }
    ensures { result ≡ passes (is_entry_of number) (cell_in cells.now.items mask number) }
{
    cell(cells, mask, number).is_some_and(|entry| entry.number == number)
}

// The cell of a number has this entry, or none, from now on.
fn set_cell(cells: &mut Vec<Option<Entry>>, mask: usize, number: u64, entry: Option<Entry>)
    requires mask { IsMask mask cells.old.items }
    requires some { 1 ≤ length cells.old.items }
    ensures { cells.new.items ≡ slice_set cells.old.items (home mask number) entry }
{
    cells[number as usize & mask] = entry;
}

// The mask of the greatest power of two that is no more than so many cells.
fn mask_for(width: usize) -> usize
    ensures { 1 ≤ width → result < width }
{
    let mut mask = 0;
    while mask < width / 2 {
        mask = mask + mask + 1;
    }
    mask
}

// So many cells that have no entry.
fn bare(alloc: Global, width: usize) -> Result<Vec<Option<Entry>>, NoMemory>
    ensures { IfOk result (λ v. v.items ≡ replicate width None) }
{
    let mut cells = Vec::new(alloc);
    cells.resize(width, None)?;
    Ok(cells)
}

// No cell has an entry from now on.
fn strip(cells: &mut Vec<Option<Entry>>)
    ensures { cells.new.items ≡ replicate (length cells.old.items) None }
{
    cells.fill(None);
}

impl Index {
    /// No entry, and no memory.
    pub fn new(alloc: Global) -> Index
        ensures empty { IsEmpty result }
        ensures width { width_of result ≡ 0 }
    {
        Index {
            cells: Vec::new(alloc),
            mask: 0,
            strays: Vec::new(alloc),
            count: 0,
        }
    }

    /// No entry, and so many cells.
    pub fn with_width(alloc: Global, width: usize) -> Result<Index, NoMemory>
        ensures empty { IfOk result IsEmpty }
        ensures width { IfOk result (λ i. width_of i ≡ width) }
    {
        Ok(Index {
            cells: bare(alloc, width)?,
            mask: mask_for(width),
            strays: Vec::new(alloc),
            count: 0,
        })
    }

    /// No entry, and memory for so many.
    pub fn with_cells(alloc: Global, width: usize) -> Result<Index, NoMemory>
        ensures empty { IfOk result IsEmpty }
        ensures width { IfOk result (λ i. width_of i ≡ width) }
        ensures room { IfOk result (λ i. width ≤ i.room) }
    {
        Ok(Index {
            cells: bare(alloc, width)?,
            mask: mask_for(width),
            strays: Vec::with_capacity(alloc, width)?,
            count: 0,
        })
    }

    /// The same entries in memory of their own.
    pub fn again(&self) -> Result<Index, NoMemory>
        ensures { IfOk result (λ copy. copy ≡ self.now) }
    {
        Ok(Index {
            cells: cloned(&self.cells)?,
            mask: self.mask,
            strays: cloned_exactly(&self.strays)?,
            count: self.count,
        })
    }

    /// How many cells there are.
    pub fn width(&self) -> usize
        ensures { result ≡ width_of self.now }
    {
        self.cells.len()
    }

    /// The place of the thread, if it has one.
    pub fn place_of(&self, tid: Tid) -> Option<usize>
        ensures { result ≡ place_of self.now tid }
    {
        match cell(&self.cells, self.mask, tid.number) {
            Some(entry) if entry.number == tid.number => Some(entry.place),
            _ => halving(&self.strays, tid.number),
        }
    }

    /// The place of a thread that has one.
    pub fn known_place(&self, tid: Tid) -> usize
        requires some { 1 ≤ width_of self.now }
        requires known { IsSome (place_of self.now tid) }
        ensures { place_of self.now tid ≡ Some result }
    {
        match own_cell(&self.cells, self.mask, tid.number) {
            Some(entry) if entry.number == tid.number => entry.place,
            _ => halving(&self.strays, tid.number).unwrap(),
        }
    }

    /// How many threads have a place.
    pub fn len(&self) -> usize
        ensures { result ≡ count_of self.now }
    {
        self.count
    }

    /// Memory for so many threads in all, in the cells that there are.
    pub fn reserve(&mut self, n: usize) -> Result<(), NoMemory>
        ensures cells { self.new.cells ≡ self.old.cells }
        ensures mask { self.new.mask ≡ self.old.mask }
        ensures strays { self.new.strays ≡ self.old.strays }
        ensures more { self.old.room ≤ self.new.room }
        ensures ok { OnOk result (n ≤ self.new.room) }
    {
        if n > self.strays.len() {
            self.strays.reserve(n - self.strays.len())?;
        }
        Ok(())
    }

    /// The thread has this place.
    pub fn put(&mut self, tid: Tid, place: usize)
        requires new { place_of self.old tid ≡ None }
        requires some { 1 ≤ width_of self.old }
        requires room { count_of self.old < self.old.room }
        ensures puts { Puts (place_of self.old) (place_of self.new) tid (Some place) }
        ensures count { count_of self.new ≡ count_of self.old + 1 }
        ensures width { width_of self.new ≡ width_of self.old }
        ensures room { self.new.room ≡ self.old.room }
    {
        self.count += 1;
        if cell(&self.cells, self.mask, tid.number).is_none() {
            let number = tid.number;
            set_cell(
                &mut self.cells,
                self.mask,
                number,
                Some(Entry { number, place }),
            );
        } else {
            put_in(&mut self.strays, tid.number, place);
        }
    }

    /// The thread has no place any more.
    pub fn take(&mut self, tid: Tid)
        requires { IsSome (place_of self.old tid) }
        ensures puts { Puts (place_of self.old) (place_of self.new) tid None }
        ensures count { count_of self.new + 1 ≡ count_of self.old }
        ensures width { width_of self.new ≡ width_of self.old }
        ensures room { self.new.room ≡ self.old.room }
    {
        self.count = self.count.saturating_sub(1);
        if is_own(&self.cells, self.mask, tid.number) {
            set_cell(&mut self.cells, self.mask, tid.number, None);
        } else {
            take_out(&mut self.strays, tid.number);
        }
    }

    /// Nobody has a place any more.
    pub fn clear(&mut self)
        ensures empty { IsEmpty self.new }
        ensures width { width_of self.new ≡ width_of self.old }
        ensures room { self.new.room ≡ self.old.room }
    {
        strip(&mut self.cells);
        self.strays.clear();
        self.count = 0;
    }
}
