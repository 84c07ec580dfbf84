// The kinds of cores, each where it comes first.
ghost use Rattle.lwp_explore.specs.Listing.{has_number, listing};
ghost use Rattle.std.specs.List.{count_by, list_any};
ghost use Rattle.std.specs.Prelude.{◌≡◌, ◌==◌, IfOk};

use lwp_types::NoMemory;
use std::alloc::Global;

/// A kind by its number, the first core that has it, and how many have.
#[derive(Clone, Copy)]
pub struct Listed {
    pub number: u32,
    pub first: usize,
    pub cores: u64,
}

fn is_listed(listed: &[Listed], number: u32) -> bool
    ensures { result ≡ list_any (λ l. l.number == number) listed.now }
{
    for place in 0..listed.len() {
        if listed[place].number == number {
            return true;
        }
    }
    false
}

// How many have this number.
fn count_of(numbers: &[Option<u32>], number: u32) -> u64
    ensures { result ≡ count_by (has_number number) numbers.now }
{
    let mut count = 0;
    for place in 0..numbers.len() {
        if numbers[place] == Some(number) {
            count += 1;
        }
    }
    count
}

/// The numbers of cores, of which some have none, each where it comes first. All are gone over once for each number that there is.
pub fn list_kinds(alloc: Global, numbers: &[Option<u32>]) -> Result<Vec<Listed>, NoMemory>
    ensures { IfOk result (λ listed. listed.items ≡ listing numbers.now) }
{
    let mut listed = Vec::new(alloc);
    for place in 0..numbers.len() {
        match numbers[place] {
            Some(number) => {
                if !is_listed(&listed, number) {
                    listed.push(Listed {
                        number,
                        first: place,
                        cores: count_of(numbers, number),
                    })?;
                }
            }
            None => {}
        }
    }
    Ok(listed)
}
