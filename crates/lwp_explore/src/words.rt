// What the program's words ask for.
ghost use Rattle.lwp_explore.specs.Words.{MayBe, command_of, cores_by, ends_by, is_ends, is_line, is_trace, kind_by, line_by, trace_by};
ghost use Rattle.script_lines.specs.Words.{number_at};
ghost use Rattle.std.specs.Prelude.{◌≡◌, ◌≤◌, IfSome, map, string_bytes};

use script_lines::number_at;

// How many cores are kept, where nobody says so.
const CORES_UNSAID: u32 = 100_000;

// The most cores that may be kept.
const MOST_CORES: u32 = 1_000_000;

/// What is asked for: the kinds of ends; the trace of the first of a kind; or the first way to a line, which is the second word. So many
/// cores are kept at most.
#[derive(Clone, Copy)]
pub enum Command {
    Ends { cores: u32 },
    Trace { kind: u32, cores: u32 },
    Line { cores: u32 },
}

fn is_ends(word: &[u8]) -> bool
    ensures { result ≡ is_ends word.now }
{
    word == b"ends".as_slice()
}

fn is_trace(word: &[u8]) -> bool
    ensures { result ≡ is_trace word.now }
{
    word == b"trace".as_slice()
}

fn is_line(word: &[u8]) -> bool
    ensures { result ≡ is_line word.now }
{
    word == b"line".as_slice()
}

// A number of cores that may be asked for.
fn cores_at(word: &[u8]) -> Option<u32>
    ensures value { result ≡ cores_by (number_at word.now) }
    ensures some { IfSome result (λ cores. 1 ≤ cores) }
    ensures few { IfSome result (λ cores. cores ≤ 1000000) }
{
    let cores = number_at(word)?;
    if cores < 1 || cores > MOST_CORES {
        return None;
    }
    Some(cores)
}

// The number of a kind.
fn kind_at(word: &[u8]) -> Option<u32>
    ensures value { result ≡ kind_by (number_at word.now) }
    ensures some { IfSome result (λ kind. 1 ≤ kind) }
{
    let kind = number_at(word)?;
    if kind < 1 {
        return None;
    }
    Some(kind)
}

fn ends_by(cores: Option<u32>) -> Option<Command>
    requires some { IfSome cores (λ n. 1 ≤ n) }
    requires few { IfSome cores (λ n. n ≤ 1000000) }
    ensures value { result ≡ ends_by cores }
    ensures may_be { IfSome result MayBe }
{
    Some(Command::Ends { cores: cores? })
}

fn trace_by(kind: Option<u32>, cores: Option<u32>) -> Option<Command>
    requires kind { IfSome kind (λ n. 1 ≤ n) }
    requires some { IfSome cores (λ n. 1 ≤ n) }
    requires few { IfSome cores (λ n. n ≤ 1000000) }
    ensures value { result ≡ trace_by kind cores }
    ensures may_be { IfSome result MayBe }
{
    Some(Command::Trace {
        kind: kind?,
        cores: cores?,
    })
}

fn line_by(cores: Option<u32>) -> Option<Command>
    requires some { IfSome cores (λ n. 1 ≤ n) }
    requires few { IfSome cores (λ n. n ≤ 1000000) }
    ensures value { result ≡ line_by cores }
    ensures may_be { IfSome result MayBe }
{
    Some(Command::Line { cores: cores? })
}

/// The command of these words, if they are one.
pub fn command_of(words: &Vec<String>) -> Option<Command>
    ensures value { result ≡ command_of (map string_bytes words.now.items) }
    ensures may_be { IfSome result MayBe }
{
    match words.as_slice() {
        [word] if is_ends(word.as_bytes()) => ends_by(Some(CORES_UNSAID)),
        [word, cores] if is_ends(word.as_bytes()) => ends_by(cores_at(cores.as_bytes())),
        [word, kind] if is_trace(word.as_bytes()) => {
            trace_by(kind_at(kind.as_bytes()), Some(CORES_UNSAID))
        }
        [word, _] if is_line(word.as_bytes()) => line_by(Some(CORES_UNSAID)),
        [word, kind, cores] if is_trace(word.as_bytes()) => {
            trace_by(kind_at(kind.as_bytes()), cores_at(cores.as_bytes()))
        }
        [word, _, cores] if is_line(word.as_bytes()) => line_by(cores_at(cores.as_bytes())),
        _ => None,
    }
}
