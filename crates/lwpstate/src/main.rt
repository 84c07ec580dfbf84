//! The program: its words say which state is asked for, standard input or the file that the last word names holds the script, or a
//! script and a recorded trace, and standard output takes the text of that state.
//!
//! Where its one word is `--help` or `--version`, it says so much of itself, by the crate `about`. All else that it does is
//! `lwp_state::top`, on the standard streams or, by the crate `named_input`, on a file; no contract can say what those hold. What is
//! written is gathered, and goes out 64 KiB at a time. What went wrong is said on standard error, and the exit status is the session's.
#![tactic(auto)]

ghost use Rattle.std.specs.Prelude.{◌≡◌, ◌≢◌};
ghost use Rattle.std.specs.IoError.{error_kind};
ghost use Rattle.script_session.specs.declared.session.SessionEnd.TheVariants.{NoMemory, Usage, WriteFault};

use about::{Question, is_stack_too_small, print_answer, question_of, suggest_check};
use lwp_state::{fault_text, top};
use lwp_types::{Failed, Source};
use named_input::{FileSource, take_file};
use script_session::{Session, SessionEnd};
use std::io::{ErrorKind, Write};
use std::process::ExitCode;
use std::{env, io};
use streams::{GATHERED, StdSink, StdSource};

const HELP: &str = "\
usage: lwpstate WORD [NUMBER] [FILE]

  plan [CALLS] [FILE]    run a script, as by lwpserve plan, and write the state that it comes to
  replay [LINE] [FILE]   read a script and a trace, as lwpserve replay, and write the state at a line of the trace
  --help                 write this
  --version              write the program's name and version

CALLS is how many calls the script may make: 0 to 1000000, or 100000 without it. LINE is how many lines of the trace
count: all of them without it. What is read is in FILE, or without it on standard input.
";

// How many bytes the stack may have to take: what the longest chain of calls takes, and some more.
const STACK: u64 = 131_072;

fn main(rt: HostRuntime) -> ExitCode {
    match words(&rt) {
        Ok(words) => match question_of(&words) {
            Some(question) => answer(&rt, question),
            None if is_stack_too_small(&rt, "lwpstate", STACK) => ExitCode::from(106),
            None => show(&rt, words),
        },
        Err(error) => tell(&rt, &unread(&rt, end_without_words(&error))),
    }
}

// A session of nothing, with this end.
fn unread(rt: &HostRuntime, end: SessionEnd) -> Session {
    Session::unread(rt.alloc(), end)
}

// Says what is asked of the program itself.
fn answer(rt: &HostRuntime, question: Question) -> ExitCode {
    match print_answer(rt, question, "lwpstate", HELP) {
        Ok(()) => ExitCode::SUCCESS,
        Err(_) => tell(rt, &unread(rt, SessionEnd::WriteFault)),
    }
}

// Shows the state that these words ask for, of the file that the last of them names, or of standard input. The first word is no file.
fn show(rt: &HostRuntime, words: Vec<String>) -> ExitCode {
    let mut words = words;
    let Some(name) = take_file(&mut words, 1) else {
        let session = session_of(rt, &words, &mut StdSource::new(rt.stdin()));
        return tell(rt, &session);
    };
    let mut source = FileSource::new(rt, name.as_str());
    let session = session_of(rt, &words, &mut source);
    match source.refused() {
        Some(why) => {
            let _ = eprintln!(rt; "lwpstate: {name} can't be opened: {why}");
            ExitCode::from(session.status)
        }
        None => tell(rt, &session),
    }
}

// Says on standard error what went wrong, if anything did.
fn tell(rt: &HostRuntime, session: &Session) -> ExitCode {
    if let Ok(text) = fault_text(rt.alloc(), &session.end) {
        let _ = rt.stderr().write_all(text.as_slice());
    }
    if session.status == 103 {
        suggest_check(rt, "lwpstate");
    }
    ExitCode::from(session.status)
}

// The session of these words, with an input from there, on standard output.
fn session_of<S: Source>(rt: &HostRuntime, words: &Vec<String>, source: &mut S) -> Session {
    let Ok(mut sink) = StdSink::new(rt.alloc(), rt.stdout(), GATHERED) else {
        return unread(rt, SessionEnd::NoMemory);
    };
    let session = top(rt.alloc(), words, source, &mut sink);
    match sink.finish() {
        Ok(()) => session,
        Err(Failed) => broken(session),
    }
}

// The same session, whose last bytes could not be written.
fn broken(session: Session) -> Session
    ensures { result ≡ record session { status = 102; end = WriteFault } }
{
    session.ending(SessionEnd::WriteFault)
}

// The program's arguments, without its name.
fn words(rt: &HostRuntime) -> io::Result<Vec<String>> {
    let words = env::args(rt)?.skip(1).collect(rt.alloc())?;
    Ok(words)
}

// Arguments that are no text are no command.
fn end_without_words(error: &io::Error) -> SessionEnd
    ensures memory { error_kind error.now ≡ ErrorKind.OutOfMemory → result ≡ NoMemory }
    ensures usage { error_kind error.now ≢ ErrorKind.OutOfMemory → result ≡ Usage }
{
    match error.kind() {
        ErrorKind::OutOfMemory => SessionEnd::NoMemory,
        _ => SessionEnd::Usage,
    }
}
