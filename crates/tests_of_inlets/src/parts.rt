use batch::{BatchErr, Part, split};
use lwp_types::NoMemory;
use std::alloc::Global;
use std::test::*;

// Texts, and where their parts lie.
const GOOD: [(&[u8], &[(usize, usize)]); 4] = [
    (b"", &[]),
    (b"script 0\n", &[(9, 9)]),
    (b"script 3\nabc", &[(9, 12)]),
    (
        b"script 3\nabcscript 0\nscript 1\n\n",
        &[(9, 12), (21, 21), (30, 31)],
    ),
];

// Texts, and which part is the first bad one.
const BAD: [(&[u8], u32); 17] = [
    (b"script 9\nabc", 0),
    (b"x", 0),
    (b"\n", 0),
    (b"script \na", 0),
    (b"script 1", 0),
    (b"script 1\n", 0),
    (b"script 01\na", 0),
    (b"script +1\na", 0),
    (b"script 1 \na", 0),
    (b"script  1\na", 0),
    (b"scripts 1\na", 0),
    (b" script 1\na", 0),
    (b"script 16777217\n", 0),
    (b"script 4294967297\n", 0),
    (b"script 1\naScript 1\na", 1),
    (b"script 0\nscript 0\nx", 2),
    (b"script 0\nscript 1\n\nscript 2\n\n", 2),
];

fn lie_there(parts: &[Part], wanted: &[(usize, usize)]) -> bool {
    if parts.len() != wanted.len() {
        return false;
    }
    for (part, (from, to)) in parts.iter().zip(wanted) {
        if part.from != *from || part.to != *to {
            return false;
        }
    }
    true
}

fn is_good(alloc: Global, text: &[u8], wanted: &[(usize, usize)]) -> bool {
    match split(alloc, text) {
        Ok(parts) => lie_there(&parts, wanted),
        Err(_) => false,
    }
}

fn is_bad(alloc: Global, text: &[u8], wanted: u32) -> bool {
    match split(alloc, text) {
        Ok(_) => false,
        Err(err) => err == BatchErr::Bad { part: wanted },
    }
}

#[test]
fn good_texts_have_their_parts(rt: HostRuntime) {
    for (text, wanted) in &GOOD {
        assert!(rt; is_good(rt.alloc(), text, wanted));
    }
}

#[test]
fn of_bad_texts_the_first_bad_part_is_told(rt: HostRuntime) {
    for (text, wanted) in &BAD {
        assert!(rt; is_bad(rt.alloc(), text, *wanted));
    }
}

fn count_of(alloc: Global, text: &[u8]) -> Option<usize> {
    match split(alloc, text) {
        Ok(parts) => Some(parts.len()),
        Err(_) => None,
    }
}

// So many empty parts.
fn empty_parts(alloc: Global, count: u32) -> Result<Vec<u8>, NoMemory> {
    let mut text = Vec::new(alloc);
    for _ in 0..count {
        text.extend_from_slice(b"script 0\n")?;
    }
    Ok(text)
}

#[test]
fn a_thousand_parts_may_come(rt: HostRuntime) -> Result<(), Fail> {
    let mut text = empty_parts(rt.alloc(), 1000)?;
    assert!(rt; count_of(rt.alloc(), &text) == Some(1000));
    text.push(b'x')?;
    assert!(rt; is_bad(rt.alloc(), &text, 1000));
    Ok(())
}

// A part of the most bytes that one may have, and one of so many bytes, whose line this is.
fn large_parts(alloc: Global, line: &[u8], bytes: usize) -> Result<Vec<u8>, NoMemory> {
    let mut text = Vec::new(alloc);
    text.extend_from_slice(b"script 16777216\n")?;
    text.resize(16 + 16_777_216, b'a')?;
    text.extend_from_slice(line)?;
    let all = text.len().saturating_add(bytes);
    text.resize(all, b'b')?;
    Ok(text)
}

#[test]
fn a_text_may_have_two_to_the_25_bytes(rt: HostRuntime) -> Result<(), Fail> {
    let full = large_parts(rt.alloc(), b"script 16777184\n", 16_777_184)?;
    let wanted = [(16, 16_777_232), (16_777_248, 33_554_432)];
    assert!(rt; is_good(rt.alloc(), &full, &wanted));
    let over = large_parts(rt.alloc(), b"script 16777185\n", 16_777_185)?;
    assert!(rt; is_bad(rt.alloc(), &over, 0));
    Ok(())
}
