// The lines of a text, one by one.
ghost use Rattle.std.specs.Prelude.{◌≡◌, ◌<◌, ◌++◌, ◌∷◌, [], drop, length, IfSome, IfNone};
ghost use Rattle.script_text.specs.Spelling.{line_cut};

use memchr::{memchr, memrchr};

/// The first line and the bytes after its end.
pub fn first_line(text: &[u8]) -> Option<(&[u8], &[u8])>
    ensures some { IfSome result
        (λ x. line_cut text.now ≡ (x.0.now ∷ (line_cut x.1.now).0, (line_cut x.1.now).1)) }
    ensures shorter { IfSome result (λ x. length x.1.now < length text.now) }
    ensures none { IfNone result (line_cut text.now ≡ ([], text.now)) }
{
    match memchr(b'\n', text) {
        None => None,
        Some(end) => Some((&text[..end], &text[end + 1..])),
    }
}

// The bytes before the last newline, and those after it.
fn last_end(text: &[u8]) -> Option<(&[u8], &[u8])>
    ensures some { IfSome result (λ x. text.now ≡ x.0.now ++ 10 ∷ x.1.now) }
    ensures tail { IfSome result (λ x. line_cut x.1.now ≡ ([], x.1.now)) }
    ensures none { IfNone result (line_cut text.now ≡ ([], text.now)) }
{
    match memrchr(b'\n', text) {
        None => None,
        Some(end) => Some((&text[..end], &text[end + 1..])),
    }
}

/// The text before the last line that has ended, and that line.
pub fn last_line(text: &[u8]) -> Option<(&[u8], &[u8])>
    ensures some { IfSome result (λ x. (line_cut text.now).0 ≡ (line_cut x.0.now).0 ++ x.1.now ∷ []) }
    ensures shorter { IfSome result (λ x. length x.0.now < length text.now) }
    ensures none { IfNone result ((line_cut text.now).0 ≡ []) }
{
    let (lines, _) = last_end(text)?;
    match last_end(lines) {
        None => Some((&[], lines)),
        Some((front, line)) => Some((&lines[..front.len() + 1], line)),
    }
}

/// The text after so many lines; where there are fewer, the text after all of them.
pub fn behind_lines(count: u32, text: &[u8]) -> &[u8]
    ensures lines { (line_cut result.now).0 ≡ drop count (line_cut text.now).0 }
    ensures tail { (line_cut result.now).1 ≡ (line_cut text.now).1 }
{
    let mut rest = text;
    let mut left = count;
    while left > 0 {
        match first_line(rest) {
            Some((_, after)) => rest = after,
            None => return rest,
        }
        left -= 1;
    }
    rest
}
