// What the program does, by its words.
ghost use Rattle.lwp_live.specs.Words.{asked, asked_by, command_of, is_record};
ghost use Rattle.lwp_serve.specs.Words.{turns_of};
ghost use Rattle.std.specs.Prelude.{◌≡◌, ◌≤◌, IfSome, map, option_map, string_bytes};

use script_lines::number_at;

// How many calls a run may make, where nobody says so.
const CALLS_UNSAID: u64 = 100_000;

// The most calls that a run may make.
const MOST_CALLS: u64 = 1_000_000;

/// What is asked for: the file of the script, how many calls are allowed, and, where the session is to be recorded, the beginning of
/// the names of the record's two files.
#[derive(Clone, Copy)]
pub struct Command<'w> {
    pub script: &'w str,
    pub calls: u64,
    pub base: Option<&'w str>,
}

fn is_record(word: &[u8]) -> bool
    ensures { result ≡ is_record word.now }
{
    word == b"--record".as_slice()
}

// The calls allowed, where a word says so.
fn calls_of(word: &[u8]) -> Option<u64>
    ensures value { result ≡ turns_of word.now }
    ensures least { IfSome result (λ calls. 1 ≤ calls) }
    ensures most { IfSome result (λ calls. calls ≤ 1000000) }
{
    let calls = u64::from(number_at(word)?);
    if calls == 0 || calls > MOST_CALLS {
        return None;
    }
    Some(calls)
}

// The command of a script, of how many calls a word allows, and of a record.
fn command_by<'w>(script: &'w str, calls: Option<u64>, base: Option<&'w str>) -> Option<Command<'w>>
    requires least { IfSome calls (λ n. 1 ≤ n) }
    requires most { IfSome calls (λ n. n ≤ 1000000) }
    ensures value { option_map asked result ≡ asked_by script.now calls (option_map (λ w. w.now) base.entry) }
    ensures least { IfSome result (λ c. 1 ≤ c.calls) }
    ensures most { IfSome result (λ c. c.calls ≤ 1000000) }
{
    let calls = calls?;
    Some(Command {
        script,
        calls,
        base,
    })
}

/// The command of the program's words, which stand after its name, if they are one: the name of a file, after which perhaps stands
/// how many calls are allowed, 1 to 1,000,000, or 100,000 without it; and after these perhaps `--record` and the beginning of the
/// names of two files.
pub fn command_of(words: &Vec<String>) -> Option<Command<'_>>
    ensures value { option_map asked result ≡ command_of (map string_bytes words.now.items) }
    ensures least { IfSome result (λ c. 1 ≤ c.calls) }
    ensures most { IfSome result (λ c. c.calls ≤ 1000000) }
{
    match words.as_slice() {
        [script] => command_by(script.as_str(), Some(CALLS_UNSAID), None),
        [script, calls] => command_by(script.as_str(), calls_of(calls.as_bytes()), None),
        [script, word, base] if is_record(word.as_bytes()) => {
            command_by(script.as_str(), Some(CALLS_UNSAID), Some(base.as_str()))
        }
        [script, calls, word, base] if is_record(word.as_bytes()) => command_by(
            script.as_str(),
            calls_of(calls.as_bytes()),
            Some(base.as_str()),
        ),
        _ => None,
    }
}
