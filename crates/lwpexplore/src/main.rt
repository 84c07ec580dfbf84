//! The program: its words say what is asked of all sessions of a script, standard input or the file that the last word names holds the
//! script, and standard output takes the answer.
//!
//! Where its one word is `--help` or `--version`, it says so much of itself, by the crate `about`. All else that it does is
//! `lwp_explore::explore_main`, on the standard streams or, by the crate `named_input`, on a file; no contract can say what those hold.
//! What is written is gathered, and goes out 64 KiB at a time. What went wrong is said on standard error, which is also told for how long
//! the search has been at work, if it is a terminal. The exit status is that of the search.
#![tactic(auto)]

ghost use Rattle.std.specs.Prelude.{◌≡◌, ◌≢◌};
ghost use Rattle.std.specs.IoError.{error_kind};
ghost use Rattle.script_session.specs.declared.session.SessionEnd.TheVariants.{NoMemory, Usage};

use about::{
    Question, is_stack_too_small, print_answer, question_of, suggest_check, tell_time_while,
};
use lwp_explore::{Ending, explore_main, fault_text, status_of};
use lwp_types::{Failed, Source};
use named_input::{FileSource, take_file};
use script_session::SessionEnd;
use std::io::{ErrorKind, IsTerminal, Write};
use std::process::ExitCode;
use std::sync::Wait;
use std::thread::Threads;
use std::{env, io};
use streams::{GATHERED, StdSink, StdSource};

const HELP: &str = "\
usage: lwpexplore WORD .. [CORES] [FILE]

  ends [CORES] [FILE]        go through all sessions of a script, and write how they end
  trace K [CORES] [FILE]     write the trace of the shortest session that ends in the K-th of these ways
  line LINE [CORES] [FILE]   write how soon a session writes this line of a trace, or that none does
  --help                     write this
  --version                  write the program's name and version

CORES is how many states are kept: 1 to 1000000, or 100000 without it. The script is in FILE, or without it on standard input.
";

// How many bytes the stack may have to take: what the longest chain of calls takes, and some more.
const STACK: u64 = 131_072;

fn main(rt: HostRuntime) -> ExitCode {
    match words(&rt) {
        Ok(words) => match question_of(&words) {
            Some(question) => answer(&rt, question),
            None if is_stack_too_small(&rt, "lwpexplore", STACK) => ExitCode::from(106),
            None => show(&rt, &rt, words),
        },
        Err(error) => tell(&rt, Ending::Other(end_without_words(&error))),
    }
}

// Says what is asked of the program itself.
fn answer(rt: &HostRuntime, question: Question) -> ExitCode {
    match print_answer(rt, question, "lwpexplore", HELP) {
        Ok(()) => ExitCode::SUCCESS,
        Err(_) => tell(rt, Ending::Other(SessionEnd::WriteFault)),
    }
}

// How many words come before the name of a file: `line` has one after it that is none.
fn words_before(words: &Vec<String>) -> usize {
    match words.as_slice() {
        [word, ..] if word.as_bytes() == b"line".as_slice() => 2,
        _ => 1,
    }
}

// Shows what these words ask for of the file that the last of them names, or of standard input.
fn show<R: Threads + Wait + Sync>(rt: &HostRuntime, threads: &R, words: Vec<String>) -> ExitCode {
    let mut words = words;
    let before = words_before(&words);
    let Some(name) = take_file(&mut words, before) else {
        let is_typed = rt.stdin().is_terminal();
        let ending = ending_of(
            rt,
            threads,
            &words,
            !is_typed,
            &mut StdSource::new(rt.stdin()),
        );
        return tell(rt, ending);
    };
    let mut source = FileSource::new(rt, name.as_str());
    let ending = ending_of(rt, threads, &words, true, &mut source);
    match source.refused() {
        Some(why) => {
            let _ = eprintln!(rt; "lwpexplore: {name} can't be opened: {why}");
            ExitCode::from(status_of(ending))
        }
        None => tell(rt, ending),
    }
}

// Says on standard error what went wrong, if anything did.
fn tell(rt: &HostRuntime, ending: Ending) -> ExitCode {
    if let Ok(text) = fault_text(rt.alloc(), ending) {
        let _ = rt.stderr().write_all(text.as_slice());
    }
    let status = status_of(ending);
    if status == 103 {
        suggest_check(rt, "lwpexplore");
    }
    ExitCode::from(status)
}

// What these words come to, with a script from there, on standard output. That may take long where nobody types the script.
fn ending_of<S: Source, R: Threads + Wait + Sync>(
    rt: &HostRuntime,
    threads: &R,
    words: &Vec<String>,
    is_long: bool,
    source: &mut S,
) -> Ending {
    let Ok(mut sink) = StdSink::new(rt.alloc(), rt.stdout(), GATHERED) else {
        return Ending::Other(SessionEnd::NoMemory);
    };
    let ending = tell_time_while(rt, threads, "lwpexplore", is_long, || {
        explore_main(rt.alloc(), words, source, &mut sink)
    });
    match sink.finish() {
        Ok(()) => ending,
        Err(Failed) => Ending::Other(SessionEnd::WriteFault),
    }
}

// The program's arguments, without its name.
fn words(rt: &HostRuntime) -> io::Result<Vec<String>> {
    let words = env::args(rt)?.skip(1).collect(rt.alloc())?;
    Ok(words)
}

// Arguments that are no text are no command.
fn end_without_words(error: &io::Error) -> SessionEnd
    ensures memory { error_kind error.now ≡ ErrorKind.OutOfMemory → result ≡ NoMemory }
    ensures usage { error_kind error.now ≢ ErrorKind.OutOfMemory → result ≡ Usage }
{
    match error.kind() {
        ErrorKind::OutOfMemory => SessionEnd::NoMemory,
        _ => SessionEnd::Usage,
    }
}
