use lwp_types::NoMemory;
use script_text::{NameList, WordIndex};
use std::alloc::Global;
use std::test::Fail;

// Words that differ in their length, in their last byte, in a byte that is 0, and in a byte after the sixteenth.
const WORDS: [&[u8]; 10] = [
    b"a",
    b"aa",
    b"a\0",
    b"\0",
    b"abcdefgh",
    b"abcdefghi",
    b"abcdefghijklmnop",
    b"abcdefghijklmnopq",
    b"abcdefghijklmnopr",
    b"",
];

fn puts_all(index: &mut WordIndex) -> Result<(), NoMemory> {
    for (number, word) in WORDS.iter().enumerate() {
        index.put(word, number as u32)?;
    }
    Ok(())
}

fn finds_all(index: &WordIndex) -> bool {
    WORDS
        .iter()
        .enumerate()
        .all(|(number, word)| index.get(word) == Some(number as u32))
}

fn takes_all(index: &mut WordIndex) {
    for word in &WORDS {
        index.take(word);
    }
}

fn finds_none(index: &WordIndex) -> bool {
    WORDS.iter().all(|word| index.get(word).is_none())
}

fn is_found(alloc: Global) -> Result<bool, NoMemory> {
    let mut index = WordIndex::new(alloc);
    let first = finds_none(&index);
    puts_all(&mut index)?;
    let full = finds_all(&index);
    index.put(b"aa", 77)?;
    let again = index.get(b"aa") == Some(77);
    takes_all(&mut index);
    Ok(first && full && again && finds_none(&index))
}

// A list of so many names, each entered twice; the number of each is its place.
fn is_numbered(alloc: Global) -> Result<bool, NoMemory> {
    let mut names = NameList::new(alloc);
    for _ in 0..2 {
        for (number, word) in WORDS[4..9].iter().enumerate() {
            if names.numbered(word)? != number as u32 {
                return Ok(false);
            }
        }
    }
    Ok(names.len() == 5 && !names.contains(b"abcdefg"))
}

#[test]
fn words_have_numbers(rt: HostRuntime) -> Result<(), Fail> {
    assert!(rt; is_found(rt.alloc())?);
    Ok(())
}

#[test]
fn names_are_numbered(rt: HostRuntime) -> Result<(), Fail> {
    assert!(rt; is_numbered(rt.alloc())?);
    Ok(())
}
