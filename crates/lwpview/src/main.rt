//! The program: standard input holds a trace, or the file that the last word names, and standard output takes its page, of the calls
//! that the words ask for.
//!
//! Where its one word is `--help` or `--version`, it says so much of itself, by the crate `about`. All else that it does is
//! `trace_page::view`, on the standard streams or, by the crate `named_input`, on a file; no contract can say what those hold. What is
//! written is gathered, and goes out 64 KiB at a time. What went wrong is said on standard error. While a page is made, standard error
//! is told for how long, if it is a terminal.
#![tactic(auto)]

ghost use Rattle.std.specs.Prelude.{◌≡◌, ◌≢◌};
ghost use Rattle.std.specs.IoError.{error_kind};
ghost use Rattle.trace_page.specs.declared.showing.ViewEnd.TheVariants.{NoMemory, Usage};

use about::{Question, print_answer, question_of, tell_time_while};
use lwp_types::{Failed, Source};
use named_input::{FileSource, take_file};
use std::io::{ErrorKind, IsTerminal, Write};
use std::process::ExitCode;
use std::sync::Wait;
use std::thread::Threads;
use std::{env, io};
use streams::{GATHERED, StdSink, StdSource};
use trace_page::{ViewEnd, fault_text, status_of, view};

const HELP: &str = "\
usage: lwpview [FROM TO | --last N] [FILE]

  FROM TO     draw the calls from this one to that one, counted from 1; of more than 5000 the first 5000
  --last N    draw so many calls at the end, at most 5000
  FILE        read the trace from this file; without it from standard input
  --help      write this
  --version   write the program's name and version

Without words the first 5000 calls are drawn. The page is HTML, with the picture in it.
";

fn main(rt: HostRuntime) -> ExitCode {
    match words(&rt) {
        Ok(words) => match question_of(&words) {
            Some(question) => answer(&rt, question),
            None => show(&rt, &rt, words),
        },
        Err(error) => tell(&rt, end_without_words(&error)),
    }
}

// Says what is asked of the program itself.
fn answer(rt: &HostRuntime, question: Question) -> ExitCode {
    match print_answer(rt, question, "lwpview", HELP) {
        Ok(()) => ExitCode::SUCCESS,
        Err(_) => tell(rt, ViewEnd::WriteFault),
    }
}

// Shows what these words ask for of the file that the last of them names, or of standard input.
fn show<R: Threads + Wait + Sync>(rt: &HostRuntime, threads: &R, words: Vec<String>) -> ExitCode {
    let mut words = words;
    let Some(name) = take_file(&mut words, 0) else {
        let is_typed = rt.stdin().is_terminal();
        let end = end_of(
            rt,
            threads,
            &words,
            !is_typed,
            &mut StdSource::new(rt.stdin()),
        );
        return tell(rt, end);
    };
    let mut source = FileSource::new(rt, name.as_str());
    let end = end_of(rt, threads, &words, true, &mut source);
    match source.refused() {
        Some(why) => {
            let _ = eprintln!(rt; "lwpview: {name} can't be opened: {why}");
            ExitCode::from(status_of(end))
        }
        None => tell(rt, end),
    }
}

// Says on standard error what went wrong, if anything did.
fn tell(rt: &HostRuntime, end: ViewEnd) -> ExitCode {
    if let Ok(text) = fault_text(rt.alloc(), end) {
        let _ = rt.stderr().write_all(text.as_slice());
    }
    ExitCode::from(status_of(end))
}

// What these words come to, with a trace from there, on standard output. That may take long where nobody types the trace.
fn end_of<S: Source, R: Threads + Wait + Sync>(
    rt: &HostRuntime,
    threads: &R,
    words: &Vec<String>,
    is_long: bool,
    source: &mut S,
) -> ViewEnd {
    let Ok(mut sink) = StdSink::new(rt.alloc(), rt.stdout(), GATHERED) else {
        return ViewEnd::NoMemory;
    };
    let end = tell_time_while(rt, threads, "lwpview", is_long, || {
        view(rt.alloc(), words, source, &mut sink)
    });
    match sink.finish() {
        Ok(()) => end,
        Err(Failed) => ViewEnd::WriteFault,
    }
}

// The program's arguments, without its name.
fn words(rt: &HostRuntime) -> io::Result<Vec<String>> {
    let words = env::args(rt)?.skip(1).collect(rt.alloc())?;
    Ok(words)
}

// Arguments that are no text ask for nothing.
fn end_without_words(error: &io::Error) -> ViewEnd
    ensures memory { error_kind error.now ≡ ErrorKind.OutOfMemory → result ≡ NoMemory }
    ensures usage { error_kind error.now ≢ ErrorKind.OutOfMemory → result ≡ Usage }
{
    match error.kind() {
        ErrorKind::OutOfMemory => ViewEnd::NoMemory,
        _ => ViewEnd::Usage,
    }
}
