// The name that a word is nearly.
ghost use Rattle.std.specs.Prelude.{◌≡◌, option_map};
ghost use Rattle.script_advice.specs.Near.{first_near, nearest, one_apart, two_apart};
ghost use Rattle.script_advice.specs.Remarks.{some_names};

use crate::near::{one_apart, two_apart};
use script_text::NameList;

// So many of the first names are looked at.
const MOST: usize = 256;

// The first of these names that is one edit away from the word.
fn first_one_apart<'n>(names: &'n NameList, word: &[u8]) -> Option<&'n [u8]>
    ensures { option_map (λ w. w.now) result
        ≡ first_near (λ v. one_apart v word.now) (some_names names.now) }
{
    for place in 0..names.len().min(MOST) {
        let name = names.bytes(place);
        if one_apart(name, word) {
            return Some(name);
        }
    }
    None
}

// The first of these names that is two edits away from the word.
fn first_two_apart<'n>(names: &'n NameList, word: &[u8]) -> Option<&'n [u8]>
    ensures { option_map (λ w. w.now) result
        ≡ first_near (λ v. two_apart v word.now) (some_names names.now) }
{
    for place in 0..names.len().min(MOST) {
        let name = names.bytes(place);
        if two_apart(name, word) {
            return Some(name);
        }
    }
    None
}

/// The first of these names that is one edit away from the word, or else the first that is two away.
pub(crate) fn nearest<'n>(names: &'n NameList, word: &[u8]) -> Option<&'n [u8]>
    ensures { option_map (λ w. w.now) result ≡ nearest (some_names names.now) word.now }
{
    match first_one_apart(names, word) {
        Some(name) => Some(name),
        None => first_two_apart(names, word),
    }
}
