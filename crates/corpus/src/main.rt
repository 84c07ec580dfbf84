//! The corpus: scripts and traces as a person writes them, with what each program must make of them.
//!
//! There is a table for each program, a row a line: a name, the file that the program reads, the file with the text that is wanted, the
//! status that is wanted, and the program's words. `data/rows` is for `lwpserve`, whose input is a script, the parts of a batch or the
//! input of a replay; `data/view_rows` is for `lwpview`, `data/check_rows` for `lwpcheck`, `data/state_rows` for `lwpstate`, and
//! `data/explore_rows` for `lwpexplore`. Each row is run over streams in memory through what its program is made of: `lwp_serve::top`,
//! `trace_page::view`, `script_advice::check` or, with the word `--print`, `script_printer::copy`, `lwp_state::top`, and
//! `lwp_explore::explore_main`. One line is printed for it: `same`, or else the first line that differs, or the status where all lines
//! are the same. `compare` is proved to say so. What the files hold no contract can say.
//!
//! How the text is compared is said by the last part of its file's name:
//!
//! - `.tail`: it is the last lines of what is written, followed by what is said on standard error;
//! - `.some`: it is some lines of that, in their order; what else is written isn't known from outside;
//! - `.damages`: the script is run cut at each length and then with each byte zeroed; the text has, for each, a line with the
//!   damage and the status, and then the whole text; the status of the row is the greatest of theirs;
//! - any other: it is the whole of that.
//!
//! A script whose file ends with `.times` is long: the file's first line says how often the rest of it is read.
//!
//! Three inputs are too large to be stored, and only their lines are counted: after the rows of `lwpview` comes a trace of 6,001 calls, of
//! which 5,000 are drawn; after those of `lwpcheck` come a script with 5,000 bad lines, of which 1,000 are told, and one that is a byte too
//! long.
//!
//! A row is added by its files, its line in a table, and its line in `stdout`, which is its name and `: same`. Its text is worked out by
//! hand, and never taken from the program; a page was looked at in a browser before it was stored, and what all sessions of a script come
//! to was found by another search, which shares no code with this one.
#![tactic(auto)]

mod check;
mod damage;
mod difference;
mod explore;
mod long;
mod outcome;
mod printing;
mod row;
mod serve;
mod state;
mod table;
mod verdict;
mod view;

use check::{many_lines, too_large};
use std::io;
use std::process::ExitCode;
use std::sync::Wait;
use std::thread::Threads;
use table::{Tool, print_count, print_rows};
use view::long_trace;

fn main(rt: HostRuntime) -> ExitCode {
    match print_tables(&rt, &rt) {
        Ok(true) => ExitCode::SUCCESS,
        Ok(false) | Err(_) => ExitCode::FAILURE,
    }
}

// Prints a line for each row of each table, and answers whether all are the same.
fn print_tables<R: Threads + Wait + Sync>(rt: &HostRuntime, threads: &R) -> io::Result<bool> {
    let served = print_rows(rt, threads, Tool::Serve)?;
    let viewed = print_rows(rt, threads, Tool::View)?;
    print_count(rt, "long", long_trace(rt.alloc()))?;
    let checked = print_rows(rt, threads, Tool::Check)?;
    print_count(rt, "many", many_lines(rt.alloc()))?;
    print_count(rt, "too_large", too_large(rt.alloc()))?;
    let stated = print_rows(rt, threads, Tool::State)?;
    let explored = print_rows(rt, threads, Tool::Explore)?;
    Ok(served && viewed && checked && stated && explored)
}
