// The entries of a table, in the order of their keys.
ghost use Rattle.keys.specs.Numbers.{list_numbers};
ghost use Rattle.line_server.specs.Keys.{entry_numbers};
ghost use Rattle.line_server.specs.Places.{AreInOrder, IsPlace};
ghost use Rattle.line_server.specs.Tables.{at_key, key_cmp};
ghost use Rattle.std.specs.BTreeMap.{insert_entry, is_at};
ghost use Rattle.std.specs.Map.{remove_entry};
ghost use Rattle.std.specs.Option.{option_map};
ghost use Rattle.std.specs.Prelude.{◌≡◌, ◌++◌, if◌then◌else◌, is_err, is_none, is_ok, is_some, IfOk, OnOk};

use crate::entry::Entry;
use keys::Key;
use lwp_types::NoMemory;
use std::alloc::AllocError;
use std::cmp::Ordering;

/// Where a key stands, found by halving, or else where it belongs.
// The kit's `binary_search_by` asks of each key only whether it is greater, and doesn't end where it meets the key.
pub fn place_of(entries: &[Entry], key: &[u8]) -> Result<usize, usize>
    requires { AreInOrder entries.now }
    ensures place { IsPlace key.now entries.now result }
    ensures missing { is_err result ≡ is_none (at_key key.now entries.now) }
{
    let mut low = 0;
    let mut high = entries.len();
    while low < high {
        let mid = low + (high - low) / 2;
        match entries[mid].order(key) {
            Ordering::Less => low = mid + 1,
            Ordering::Equal => return Ok(mid),
            Ordering::Greater => high = mid,
        }
    }
    Err(low)
}

// A quarter more room where there is none: most senders have few keys, and a table of 100 has grown seventeen times.
fn make_room(entries: &mut Vec<Entry>) -> Result<(), NoMemory>
    ensures { entries.new.items ≡ entries.old.items }
{
    let len = entries.len();
    if len == entries.capacity() {
        entries.reserve_exact(1 + len / 4)?;
    }
    Ok(())
}

/// The entry of a key, if it is there.
pub fn find<'e, 's>(entries: &'e [Entry<'s>], key: &[u8]) -> Option<&'e Entry<'s>>
    requires { AreInOrder entries.now }
    ensures { option_map (λ e. e.now.1) result ≡ at_key key.now entries.now }
{
    match place_of(entries, key) {
        Ok(at) => Some(&entries[at]),
        Err(_) => None,
    }
}

/// Takes a key out, and tells whether it was there.
pub fn take(entries: &mut Vec<Entry>, key: &[u8]) -> bool
    requires { AreInOrder entries.old.items }
    ensures value { result ≡ is_some (at_key key.now entries.old.items) }
    ensures items { entries.new.items ≡ remove_entry (is_at (key_cmp key.now)) entries.old.items }
    ensures order { AreInOrder entries.new.items }
{
    match place_of(entries, key) {
        Ok(at) => {
            entries.remove(at);
            true
        }
        Err(_) => false,
    }
}

/// The entry stands at its key's place from now on. If memory is refused, nothing has changed.
pub fn put<'s>(
    entries: &mut Vec<Entry<'s>>,
    place: Result<usize, usize>,
    fresh: Entry<'s>,
) -> Result<(), NoMemory>
    requires order { AreInOrder entries.old.items }
    requires place { IsPlace fresh.0 entries.old.items place }
    ensures order { AreInOrder entries.new.items }
    ensures items { entries.new.items
        ≡ (if is_ok result then insert_entry key_cmp entries.old.items fresh.entry.0 fresh.entry.1
        else entries.old.items) }
{
    match place {
        Ok(at) => entries[at] = fresh,
        Err(at) => {
            make_room(entries)?;
            entries.insert(at, fresh)?;
        }
    }
    Ok(())
}

/// Equal entries, in memory of their own.
pub fn again<'s>(entries: &Vec<Entry<'s>>) -> Result<Vec<Entry<'s>>, AllocError>
    ensures { IfOk result (λ copy. copy.items ≡ entries.now.items) }
{
    let mut copy = Vec::with_capacity(*entries.allocator(), entries.len())?;
    for entry in entries.iter() {
        copy.push_reserved(entry.again());
    }
    Ok(copy)
}

/// Writes how many entries there are, and each of them.
pub fn put_numbers(entries: &[Entry], key: &mut Key) -> Result<(), AllocError>
    ensures { OnOk result (key.new ≡ key.old ++ list_numbers entry_numbers entries.now) }
{
    key.put(entries.len() as u64)?;
    for entry in entries {
        entry.put_numbers(key)?;
    }
    Ok(())
}
