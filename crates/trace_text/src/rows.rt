// Short words in a row of bytes that has room for them. Each function puts its part from `at` on, and answers where that ends.
ghost use Rattle.std.specs.Prelude.{◌≡◌, ◌≤◌, ◌+◌, ◌/◌, ◌%◌, ◌<◌, ◌++◌, ◌∷◌, [], length, take};
ghost use Rattle.std.specs.Fmt.{decimal};
ghost use Rattle.trace_text.specs.Pairs.{pair_of, pairs_from};
ghost use Rattle.trace_text.specs.Lines.{with_space, id_text, who_text, proc_text, letter_if, flags_text, source_text, mode_text, pattern_text, func_text, error_text};

use itoa::Buffer;
use lists::TextList;
use lwp_types::{Flags, Func, LwpErr, Mode, Pattern, Text, Tid};

// A byte.
#[inline(always)]
pub(crate) fn put_byte(row: &mut [u8], at: usize, byte: u8) -> usize
    requires { at < length row.old }
    ensures len { length row.new ≡ length row.old }
    ensures end { result ≡ at + 1 }
    ensures text { take result row.new ≡ take at row.old ++ byte ∷ [] }
{
    row[at] = byte;
    at + 1
}

// A word.
#[inline(always)]
pub(crate) fn put_word(row: &mut [u8], at: usize, word: &[u8]) -> usize
    requires { at + length word.now ≤ length row.old }
    ensures len { length row.new ≡ length row.old }
    ensures end { result ≡ at + length word.now }
    ensures text { take result row.new ≡ take at row.old ++ word.now }
{
    for i in 0..word.len() {
        row[at + i] = word[i];
    }
    at + word.len()
}

// The first bytes of a text and its last, so many of each, where it has no more than both together. The text is copied whole, by two
// moves of a constant length; some bytes are put twice.
#[inline(always)]
fn put_ends(row: &mut [u8], at: usize, text: &[u8], half: usize) -> usize
    requires least { half ≤ length text.now }
    requires most { length text.now ≤ half + half }
    requires room { at + length text.now ≤ length row.old }
    ensures len { length row.new ≡ length row.old }
    ensures end { result ≡ at + length text.now }
    ensures text { take result row.new ≡ take at row.old ++ text.now }
{
    let end = at + text.len();
    row[at..at + half].copy_from_slice(&text[..half]);
    row[end - half..end].copy_from_slice(&text[text.len() - half..]);
    end
}

// A text, which mostly is short.
#[inline(always)]
fn put_text(row: &mut [u8], at: usize, text: &[u8]) -> usize
    requires { at + length text.now ≤ length row.old }
    ensures len { length row.new ≡ length row.old }
    ensures end { result ≡ at + length text.now }
    ensures text { take result row.new ≡ take at row.old ++ text.now }
{
    let len = text.len();
    if len < 4 {
        put_word(row, at, text)
    } else if len <= 8 {
        put_ends(row, at, text, 4)
    } else if len <= 16 {
        put_ends(row, at, text, 8)
    } else if len <= 32 {
        put_ends(row, at, text, 16)
    } else {
        row[at..at + len].copy_from_slice(text);
        at + len
    }
}

// A text after a space; nothing, where it is empty.
pub(crate) fn put_spaced(row: &mut [u8], at: usize, text: &Text) -> usize
    requires { at + 241 ≤ length row.old }
    ensures len { length row.new ≡ length row.old }
    ensures end { result ≤ at + 241 }
    ensures text { take result row.new ≡ take at row.old ++ with_space text.now }
{
    let (lead, rest) = text.parts();
    if lead.is_empty() && rest.is_empty() {
        return at;
    }
    let next = put_byte(row, at, b' ');
    let next = put_word(row, next, lead);
    put_text(row, next, rest)
}

// The digit of a number below 10.
#[inline(always)]
fn digit(n: u32) -> u8
    requires { n < 10 }
    ensures { result ≡ 48 + n }
{
    b'0' + n as u8
}

// The numbers below 100, by two digits each.
static PAIRS: [[u8; 2]; 100] = [
    *b"00", *b"01", *b"02", *b"03", *b"04", *b"05", *b"06", *b"07", *b"08", *b"09", *b"10", *b"11",
    *b"12", *b"13", *b"14", *b"15", *b"16", *b"17", *b"18", *b"19", *b"20", *b"21", *b"22", *b"23",
    *b"24", *b"25", *b"26", *b"27", *b"28", *b"29", *b"30", *b"31", *b"32", *b"33", *b"34", *b"35",
    *b"36", *b"37", *b"38", *b"39", *b"40", *b"41", *b"42", *b"43", *b"44", *b"45", *b"46", *b"47",
    *b"48", *b"49", *b"50", *b"51", *b"52", *b"53", *b"54", *b"55", *b"56", *b"57", *b"58", *b"59",
    *b"60", *b"61", *b"62", *b"63", *b"64", *b"65", *b"66", *b"67", *b"68", *b"69", *b"70", *b"71",
    *b"72", *b"73", *b"74", *b"75", *b"76", *b"77", *b"78", *b"79", *b"80", *b"81", *b"82", *b"83",
    *b"84", *b"85", *b"86", *b"87", *b"88", *b"89", *b"90", *b"91", *b"92", *b"93", *b"94", *b"95",
    *b"96", *b"97", *b"98", *b"99",
];

// All of them.
#[inline(always)]
fn pairs() -> &'static [[u8; 2]; 100]
    ensures { result.now ≡ pairs_from 0 100 }
{
    &PAIRS
}

// The two digits of a number below 100.
#[inline(always)]
fn pair(n: u32) -> &'static [u8; 2]
    requires { n < 100 }
    ensures { result.now ≡ pair_of n }
{
    &pairs()[n as usize]
}

// A number below 100, by two digits.
#[inline(always)]
fn put_pair(row: &mut [u8], at: usize, n: u32) -> usize
    requires most { n < 100 }
    requires room { at + 2 ≤ length row.old }
    ensures len { length row.new ≡ length row.old }
    ensures end { result ≡ at + 2 }
    ensures text { take result row.new ≡ take at row.old ++ pair_of n }
{
    let digits = pair(n);
    let next = put_byte(row, at, digits[0]);
    put_byte(row, next, digits[1])
}

// A number below 100.
#[tactic(auto, using(crate::proofs::Digits::decimal_of_two, std::proofs::lemmas::Fmt::decimal_digit))]
#[inline(always)]
fn put_up_to_two(row: &mut [u8], at: usize, n: u32) -> usize
    requires most { n < 100 }
    requires room { at + 2 ≤ length row.old }
    ensures len { length row.new ≡ length row.old }
    ensures end { result ≤ at + 2 }
    ensures text { take result row.new ≡ take at row.old ++ decimal n }
{
    if n < 10 {
        put_byte(row, at, digit(n))
    } else {
        put_pair(row, at, n)
    }
}

// A number of three digits or of four.
#[inline(always)]
fn put_hundreds(row: &mut [u8], at: usize, n: u32) -> usize
    requires least { 100 ≤ n }
    requires most { n < 10000 }
    requires room { at + 4 ≤ length row.old }
    ensures len { length row.new ≡ length row.old }
    ensures end { result ≤ at + 4 }
    ensures text { take result row.new ≡ take at row.old ++ decimal n }
{
    let next = put_up_to_two(row, at, n / 100);
    put_pair(row, next, n % 100)
}

// A number of five digits or of six.
#[inline(always)]
fn put_myriads(row: &mut [u8], at: usize, n: u32) -> usize
    requires least { 10000 ≤ n }
    requires most { n < 1000000 }
    requires room { at + 6 ≤ length row.old }
    ensures len { length row.new ≡ length row.old }
    ensures end { result ≤ at + 6 }
    ensures text { take result row.new ≡ take at row.old ++ decimal n }
{
    let next = put_hundreds(row, at, n / 100);
    put_pair(row, next, n % 100)
}

// A number of any length. It stands apart, so that a shorter one makes no room for so many digits.
#[inline(never)]
fn put_digits(row: &mut [u8], at: usize, n: u64) -> usize
    requires { at + 20 ≤ length row.old }
    ensures len { length row.new ≡ length row.old }
    ensures end { result ≤ at + 20 }
    ensures text { take result row.new ≡ take at row.old ++ decimal n }
{
    let mut buffer = Buffer::new();
    put_word(row, at, buffer.format(n).as_bytes())
}

// A number of two digits or more.
#[tactic(auto, using(crate::proofs::Digits::decimal_of_two))]
#[inline(never)]
fn put_longer(row: &mut [u8], at: usize, n: u64) -> usize
    requires least { 10 ≤ n }
    requires room { at + 20 ≤ length row.old }
    ensures len { length row.new ≡ length row.old }
    ensures end { result ≤ at + 20 }
    ensures text { take result row.new ≡ take at row.old ++ decimal n }
{
    if n < 100 {
        put_pair(row, at, n as u32)
    } else if n < 10_000 {
        put_hundreds(row, at, n as u32)
    } else if n < 1_000_000 {
        put_myriads(row, at, n as u32)
    } else {
        put_digits(row, at, n)
    }
}

// A number in decimal.
#[tactic(auto, using(std::proofs::lemmas::Fmt::decimal_digit))]
#[inline(always)]
pub(crate) fn put_number(row: &mut [u8], at: usize, n: u64) -> usize
    requires { at + 20 ≤ length row.old }
    ensures len { length row.new ≡ length row.old }
    ensures end { result ≤ at + 20 }
    ensures text { take result row.new ≡ take at row.old ++ decimal n }
{
    if n < 10 {
        put_byte(row, at, digit(n as u32))
    } else {
        put_longer(row, at, n)
    }
}

// A number after its letter, or `none` for the number that nobody has.
#[inline(always)]
pub(crate) fn put_id(row: &mut [u8], at: usize, letter: u8, n: u64) -> usize
    requires { at + 21 ≤ length row.old }
    ensures len { length row.new ≡ length row.old }
    ensures end { result ≤ at + 21 }
    ensures text { take result row.new ≡ take at row.old ++ id_text (letter ∷ []) n }
{
    if n == u64::MAX {
        return put_word(row, at, b"none");
    }
    let at = put_byte(row, at, letter);
    put_number(row, at, n)
}

// A thread, in what `me` calls.
#[inline(always)]
pub(crate) fn put_who(row: &mut [u8], at: usize, me: Option<Tid>, tid: Tid) -> usize
    requires { at + 21 ≤ length row.old }
    ensures len { length row.new ≡ length row.old }
    ensures end { result ≤ at + 21 }
    ensures text { take result row.new ≡ take at row.old ++ who_text me tid }
{
    match me {
        Some(caller) => {
            if caller.number == tid.number {
                put_word(row, at, b"self")
            } else {
                put_id(row, at, b't', tid.number)
            }
        }
        None => put_id(row, at, b't', tid.number),
    }
}

// Whom a receive names, if anybody.
#[inline(always)]
pub(crate) fn put_source(row: &mut [u8], at: usize, me: Option<Tid>, from: Option<Tid>) -> usize
    requires { at + 21 ≤ length row.old }
    ensures len { length row.new ≡ length row.old }
    ensures end { result ≤ at + 21 }
    ensures text { take result row.new ≡ take at row.old ++ source_text me from }
{
    match from {
        None => put_word(row, at, b"any"),
        Some(tid) => put_who(row, at, me, tid),
    }
}

// How a receive waits: a word, or the number of ticks.
#[inline(always)]
pub(crate) fn put_mode(row: &mut [u8], at: usize, mode: Mode) -> usize
    requires { at + 20 ≤ length row.old }
    ensures len { length row.new ≡ length row.old }
    ensures end { result ≤ at + 20 }
    ensures text { take result row.new ≡ take at row.old ++ mode_text mode }
{
    match mode {
        Mode::Poll => put_word(row, at, b"poll"),
        Mode::Block => put_word(row, at, b"wait"),
        Mode::Until { ticks } => put_number(row, at, u64::from(ticks)),
    }
}

// A handler's pattern.
#[inline(always)]
pub(crate) fn put_pattern(row: &mut [u8], at: usize, pattern: Pattern) -> usize
    requires { at + 20 ≤ length row.old }
    ensures len { length row.new ≡ length row.old }
    ensures end { result ≤ at + 20 }
    ensures text { take result row.new ≡ take at row.old ++ pattern_text pattern }
{
    match pattern {
        Pattern::All => put_word(row, at, b"all"),
        Pattern::Num(number) => put_number(row, at, u64::from(number)),
    }
}

// The function of a handler.
pub(crate) fn put_func(row: &mut [u8], at: usize, func: Func) -> usize
    requires { at + 4 ≤ length row.old }
    ensures len { length row.new ≡ length row.old }
    ensures end { result ≤ at + 4 }
    ensures text { take result row.new ≡ take at row.old ++ func_text func }
{
    match func {
        Func::Nothing => put_byte(row, at, b'-'),
        Func::Give => put_word(row, at, b"give"),
        Func::Sum => put_word(row, at, b"sum"),
    }
}

// An error by its name.
pub(crate) fn put_error(row: &mut [u8], at: usize, error: LwpErr) -> usize
    requires { at + 20 ≤ length row.old }
    ensures len { length row.new ≡ length row.old }
    ensures end { result ≤ at + 20 }
    ensures text { take result row.new ≡ take at row.old ++ error_text error }
{
    match error {
        LwpErr::NoError => put_word(row, at, b"LE_NOERROR"),
        LwpErr::NonExist => put_word(row, at, b"LE_NONEXIST"),
        LwpErr::Timeout => put_word(row, at, b"LE_TIMEOUT"),
        LwpErr::InUse => put_word(row, at, b"LE_INUSE"),
        LwpErr::InvalidArg => put_word(row, at, b"LE_INVALIDARG"),
        LwpErr::NoRoom => put_word(row, at, b"LE_NOROOM"),
        LwpErr::NotOwned => put_word(row, at, b"LE_NOTOWNED"),
        LwpErr::IllPrio => put_word(row, at, b"LE_ILLPRIO"),
        LwpErr::NoWait => put_word(row, at, b"LE_NOWAIT"),
    }
}

// A procedure by its name.
pub(crate) fn put_proc(row: &mut [u8], at: usize, procs: &TextList, number: u32) -> usize
    requires { at + 240 ≤ length row.old }
    ensures len { length row.new ≡ length row.old }
    ensures end { result ≤ at + 240 }
    ensures text { take result row.new ≡ take at row.old ++ proc_text procs.now number }
{
    let place = number as usize;
    if place < procs.len() {
        put_text(row, at, procs.bytes(place))
    } else {
        put_word(row, at, b"none")
    }
}

#[inline(always)]
fn put_if(row: &mut [u8], at: usize, is_set: bool, letter: u8) -> usize
    requires { at < length row.old }
    ensures len { length row.new ≡ length row.old }
    ensures end { result ≤ at + 1 }
    ensures text { take result row.new ≡ take at row.old ++ letter_if is_set (letter ∷ []) }
{
    if is_set {
        put_byte(row, at, letter)
    } else {
        at
    }
}

// The flags of a new thread.
#[inline(always)]
pub(crate) fn put_flags(row: &mut [u8], at: usize, flags: Flags) -> usize
    requires { at + 3 ≤ length row.old }
    ensures len { length row.new ≡ length row.old }
    ensures end { result ≤ at + 3 }
    ensures text { take result row.new ≡ take at row.old ++ flags_text flags }
{
    if !(flags.suspended || (flags.nolastrites || flags.server)) {
        return put_byte(row, at, b'-');
    }
    let next = put_if(row, at, flags.suspended, b's');
    let next = put_if(row, next, flags.nolastrites, b'n');
    put_if(row, next, flags.server, b'v')
}
