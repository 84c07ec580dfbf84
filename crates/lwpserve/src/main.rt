//! The program: its words say what to do, standard input holds the script, if one is read, and standard output takes the trace, or
//! what sums it up.
//!
//! Where its one word is `--help` or `--version`, it says so much of itself, by the crate `about`. All else that it does is
//! `lwp_serve::top`, on the standard streams; no contract can say what those hold. What is written is gathered, and goes out 64 KiB
//! at a time, and on `run` also whenever the pod waits for a line. What went wrong is said on standard error, and the exit status is
//! the session's. While `make` and `batch` are at work, standard error is told for how long, if it is a terminal.
#![tactic(auto)]

ghost use Rattle.std.specs.Prelude.{◌≡◌, ◌≢◌};
ghost use Rattle.std.specs.IoError.{error_kind};
ghost use Rattle.script_session.specs.declared.session.SessionEnd.TheVariants.{NoMemory, Usage, WriteFault};

use about::{is_stack_too_small, print_answer, question_of, suggest_check, tell_time_while};
use lwp_serve::{Session, SessionEnd, fault_text, no_gates, top};
use lwp_types::Failed;
use std::io::{ErrorKind, Write};
use std::process::ExitCode;
use std::sync::Wait;
use std::thread::Threads;
use std::{env, io};
use streams::{GATHERED, StdSink, StdSource};

const HELP: &str = "\
usage: lwpserve WORD [NUMBER].. < INPUT

  plan [TURNS]              run a script, with all lines of its clients in place, and write its trace
  run [TURNS]               the same, while a thread of the system for each client posts its lines
  make SEED THREADS LINES   make a script, run it, and write five lines that sum it up; nothing is read
  batch THREADS [TURNS]     run many scripts, as by plan, and write a line of each
  answers CLIENT [TURNS]    run a script, as by plan, and write what one client is told
  replay [TURNS]            read a script and a trace, and write whether it is a trace of that script
  --help                    write this
  --version                 write the program's name and version

TURNS is how many calls a script may make: 1 to 1000000, or 100000 without it.
";

// How many bytes the stack may have to take: what the longest chain of calls takes, and some more.
const STACK: u64 = 131_072;

fn main(rt: HostRuntime) -> ExitCode {
    let session = match words(&rt) {
        Ok(words) => match question_of(&words) {
            Some(question) => match print_answer(&rt, question, "lwpserve", HELP) {
                Ok(()) => return ExitCode::SUCCESS,
                Err(_) => Session::unread(rt.alloc(), SessionEnd::WriteFault),
            },
            None if is_stack_too_small(&rt, "lwpserve", STACK) => return ExitCode::from(106),
            None => tell_time_while(&rt, &rt, "lwpserve", is_long(&words), || {
                session_of(&rt, &rt, &words)
            }),
        },
        Err(error) => Session::unread(rt.alloc(), end_without_words(&error)),
    };
    if let Ok(text) = fault_text(rt.alloc(), &session.end) {
        let _ = rt.stderr().write_all(text.as_slice());
    }
    if session.status == 103 {
        suggest_check(&rt, "lwpserve");
    }
    ExitCode::from(session.status)
}

// Whether these words ask for work of which nothing is heard until it ends.
fn is_long(words: &Vec<String>) -> bool {
    match words.first() {
        Some(word) => matches!(word.as_str(), "make" | "batch"),
        None => false,
    }
}

// The session of these words, on the standard streams, with threads for those that post.
fn session_of<R: Threads + Wait + Sync>(
    rt: &HostRuntime,
    threads: &R,
    words: &Vec<String>,
) -> Session {
    let (Ok(mut sink), Ok(gates)) = (
        StdSink::new(rt.alloc(), rt.stdout(), GATHERED),
        no_gates(rt.alloc()),
    ) else {
        return Session::unread(rt.alloc(), SessionEnd::NoMemory);
    };
    let mut source = StdSource::new(rt.stdin());
    let session = top(threads, rt.alloc(), words, &mut source, &mut sink, gates);
    match sink.finish() {
        Ok(()) => session,
        Err(Failed) => broken(session),
    }
}

// A session whose last bytes could not be written.
fn broken(session: Session) -> Session
    ensures { result ≡ record session { status = 102; end = WriteFault } }
{
    Session {
        status: 102,
        end: SessionEnd::WriteFault,
        ..session
    }
}

// The program's arguments, without its name.
fn words(rt: &HostRuntime) -> io::Result<Vec<String>> {
    let words = env::args(rt)?.skip(1).collect(rt.alloc())?;
    Ok(words)
}

// Arguments that are no text are no command.
fn end_without_words(error: &io::Error) -> SessionEnd
    ensures memory { error_kind error.now ≡ ErrorKind.OutOfMemory → result ≡ NoMemory }
    ensures usage { error_kind error.now ≢ ErrorKind.OutOfMemory → result ≡ Usage }
{
    match error.kind() {
        ErrorKind::OutOfMemory => SessionEnd::NoMemory,
        _ => SessionEnd::Usage,
    }
}
