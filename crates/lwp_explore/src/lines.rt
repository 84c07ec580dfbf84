// Lines of a trace.
ghost use Rattle.lwp_explore.specs.Lines.{has_line};
ghost use Rattle.std.specs.Prelude.{◌≡◌};

/// Whether one of these lines, each of which ends with a newline, is this one.
pub fn has_line(text: &[u8], line: &[u8]) -> bool
    ensures { result ≡ has_line text.now line.now }
{
    let mut start = 0;
    for place in 0..text.len() {
        if text[place] == b'\n' {
            if &text[start..place] == line {
                return true;
            }
            start = place + 1;
        }
    }
    false
}
