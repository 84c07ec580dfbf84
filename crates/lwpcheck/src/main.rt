//! The program: standard input holds a script, or the file that the last word names, and standard output takes what is wrong with it
//! or, with the word `--print`, the script, each line in its one spelling.
//!
//! Where its one word is `--help` or `--version`, it says so much of itself, by the crate `about`. All else that it does is
//! `script_advice::check`, its `check_named` or `script_printer::copy`, on the standard streams or, by the crate `named_input`, on a
//! file; no contract can say what those hold. What is written is gathered, and goes out 64 KiB at a time. Standard error takes why a
//! script isn't checked or printed.
//!
//! The crate stands on these, and on `streams` for the standard streams.
#![tactic(auto)]

ghost use Rattle.std.specs.Prelude.{◌≡◌, ◌≢◌};
ghost use Rattle.std.specs.IoError.{error_kind};
ghost use Rattle.script_advice.specs.declared.checking.CheckEnd.TheVariants.{NoMemory, Usage};

use about::{Question, print_answer, question_of};
use lwp_types::{Failed, Source};
use named_input::{FileSource, take_file};
use script_advice::{CheckEnd, check, check_named, fault_text, status_of};
use script_printer::{CopyFailure, asks_for_print, copy};
use std::io::{ErrorKind, Write};
use std::process::ExitCode;
use std::{env, io};
use streams::{GATHERED, StdSink, StdSource};

const HELP: &str = "\
usage: lwpcheck [--json | --print] [FILE]

  --json      write what is wrong as an object a line
  --print     check nothing, and write the script, each line in its one spelling
  FILE        read the script from this file; without it from standard input
  --help      write this
  --version   write the program's name and version

Without an option, what is wrong with the script is written to be read; of a FILE it is one line for each error or
warning, which begins with FILE:LINE:COLUMN.
";

// How a check or a print ends.
#[derive(Drop)]
enum End {
    Checked(CheckEnd),
    Printed(Result<(), CopyFailure>),
}

fn main(rt: HostRuntime) -> ExitCode {
    match words(&rt) {
        Ok(words) => match question_of(&words) {
            Some(question) => answer(&rt, question),
            None => work(&rt, words),
        },
        Err(error) => tell(&rt, End::Checked(end_without_words(&error))),
    }
}

// Says what is asked of the program itself.
fn answer(rt: &HostRuntime, question: Question) -> ExitCode {
    match print_answer(rt, question, "lwpcheck", HELP) {
        Ok(()) => ExitCode::SUCCESS,
        Err(_) => tell(rt, End::Checked(CheckEnd::WriteFault)),
    }
}

// Does what these words ask for, with the file that the last of them names, or with standard input.
fn work(rt: &HostRuntime, words: Vec<String>) -> ExitCode {
    let mut words = words;
    let Some(name) = take_file(&mut words, 0) else {
        let end = end_of(rt, None, &words, &mut StdSource::new(rt.stdin()));
        return tell(rt, end);
    };
    let mut source = FileSource::new(rt, name.as_str());
    let end = end_of(rt, Some(name.as_str()), &words, &mut source);
    match source.refused() {
        Some(why) => {
            let _ = eprintln!(rt; "lwpcheck: {name} can't be opened: {why}");
            ExitCode::from(status(&end))
        }
        None => tell(rt, end),
    }
}

// The status of an end.
fn status(end: &End) -> u8 {
    match end {
        End::Checked(end) => status_of(*end),
        End::Printed(Ok(())) => 0,
        End::Printed(Err(failure)) => script_printer::status_of(*failure),
    }
}

// Says on standard error what was in the way, if anything was.
fn tell(rt: &HostRuntime, end: End) -> ExitCode {
    match &end {
        End::Checked(end) => {
            let _ = rt.stderr().write_all(fault_text(*end));
        }
        End::Printed(Ok(())) => {}
        End::Printed(Err(failure)) => {
            let _ = eprintln!(rt; "lwpcheck: {failure}");
        }
    }
    ExitCode::from(status(&end))
}

// What these words come to, with a script from there, on standard output.
fn end_of<S: Source>(
    rt: &HostRuntime,
    name: Option<&str>,
    words: &Vec<String>,
    source: &mut S,
) -> End {
    if asks_for_print(words) {
        End::Printed(printed(rt, source))
    } else {
        End::Checked(checked(rt, name, words, source))
    }
}

// The script goes to standard output, each line in its one spelling.
fn printed<S: Source>(rt: &HostRuntime, source: &mut S) -> Result<(), CopyFailure> {
    let Ok(mut sink) = StdSink::new(rt.alloc(), rt.stdout(), GATHERED) else {
        return Err(CopyFailure::NoMemory);
    };
    copy(rt.alloc(), source, &mut sink)?;
    match sink.finish() {
        Ok(()) => Ok(()),
        Err(Failed) => Err(CopyFailure::WriteFault),
    }
}

// What is wrong with the script goes to standard output.
fn checked<S: Source>(
    rt: &HostRuntime,
    name: Option<&str>,
    words: &Vec<String>,
    source: &mut S,
) -> CheckEnd {
    let Ok(mut sink) = StdSink::new(rt.alloc(), rt.stdout(), GATHERED) else {
        return CheckEnd::NoMemory;
    };
    let end = match name {
        Some(name) => check_named(rt.alloc(), name.as_bytes(), words, source, &mut sink),
        None => check(rt.alloc(), words, source, &mut sink),
    };
    match sink.finish() {
        Ok(()) => end,
        Err(Failed) => CheckEnd::WriteFault,
    }
}

// The program's arguments, without its name.
fn words(rt: &HostRuntime) -> io::Result<Vec<String>> {
    let words = env::args(rt)?.skip(1).collect(rt.alloc())?;
    Ok(words)
}

// Arguments that are no text ask for nothing.
fn end_without_words(error: &io::Error) -> CheckEnd
    ensures memory { error_kind error.now ≡ ErrorKind.OutOfMemory → result ≡ NoMemory }
    ensures usage { error_kind error.now ≢ ErrorKind.OutOfMemory → result ≡ Usage }
{
    match error.kind() {
        ErrorKind::OutOfMemory => CheckEnd::NoMemory,
        _ => CheckEnd::Usage,
    }
}
