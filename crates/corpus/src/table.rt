// The tables: a row a line, each run and compared.
use crate::check::checked;
use crate::explore::explored;
use crate::long::lines_among;
use crate::outcome::Outcome;
use crate::printing::{io_error, print_verdict};
use crate::row::{Row, row_of};
use crate::serve::served;
use crate::state::stated;
use crate::verdict::{Verdict, compare, ending};
use crate::view::viewed;
use lwp_types::NoMemory;
use std::alloc::Global;
use std::sync::Wait;
use std::thread::Threads;
use std::{fs, io};

/// The program that the rows of a table are for.
#[derive(Clone, Copy)]
pub enum Tool {
    Serve,
    View,
    Check,
    State,
    Explore,
}

// The file with the rows for a program.
fn table_of(tool: Tool) -> &'static str {
    match tool {
        Tool::Serve => "rows",
        Tool::View => "view_rows",
        Tool::Check => "check_rows",
        Tool::State => "state_rows",
        Tool::Explore => "explore_rows",
    }
}

/// Prints a line for each row for this program, and answers whether all are the same.
pub fn print_rows<R: Threads + Wait + Sync>(
    rt: &HostRuntime,
    threads: &R,
    tool: Tool,
) -> io::Result<bool> {
    let table = fs::read_to_string(rt, table_of(tool))?;
    let mut all_same = true;
    for line in table.lines() {
        let same = match row_of(rt.alloc(), line).map_err(io_error)? {
            Some(row) => print_row(rt, threads, tool, &row)?,
            None => {
                println!(rt; "{line}: no row")?;
                false
            }
        };
        all_same = all_same && same;
    }
    Ok(all_same)
}

// Runs a row, prints its line, and answers whether it is the same.
fn print_row<R: Threads + Wait + Sync>(
    rt: &HostRuntime,
    threads: &R,
    tool: Tool,
    row: &Row<'_>,
) -> io::Result<bool> {
    let (Ok(given), Ok(wanted)) = (fs::read(rt, row.given), fs::read(rt, row.wanted)) else {
        println!(rt; "{}: a file is missing", row.name)?;
        return Ok(false);
    };
    let outcome = outcome_of(rt.alloc(), threads, tool, row, given).map_err(io_error)?;
    let text = compared(rt.alloc(), row, outcome.text, wanted.as_slice()).map_err(io_error)?;
    let said = compare(
        outcome.status,
        text.as_slice(),
        row.status,
        wanted.as_slice(),
    );
    print_verdict(rt, row.name, &said)?;
    Ok(matches!(said, Verdict::Same))
}

// What the program makes of a row.
fn outcome_of<R: Threads + Wait + Sync>(
    alloc: Global,
    threads: &R,
    tool: Tool,
    row: &Row<'_>,
    given: Vec<u8>,
) -> Result<Outcome, NoMemory> {
    match tool {
        Tool::Serve => served(alloc, threads, row, given),
        Tool::View => viewed(alloc, &row.words, given),
        Tool::Check => checked(alloc, &row.words, given),
        Tool::State => stated(alloc, &row.words, given),
        Tool::Explore => explored(alloc, &row.words, given),
    }
}

// As much of the text as is compared.
fn compared(
    alloc: Global,
    row: &Row<'_>,
    text: Vec<u8>,
    wanted: &[u8],
) -> Result<Vec<u8>, NoMemory> {
    if row.wanted.ends_with(".tail") {
        Ok(ending(text.as_slice(), wanted.len()).to_vec(alloc)?)
    } else if row.wanted.ends_with(".some") {
        lines_among(alloc, text.as_slice(), wanted)
    } else {
        Ok(text)
    }
}

/// Prints the name of a large input, the status that it comes to, and how many lines the text has.
pub fn print_count(
    rt: &HostRuntime,
    name: &str,
    outcome: Result<Outcome, NoMemory>,
) -> io::Result<()> {
    let Outcome { status, text } = outcome.map_err(io_error)?;
    let lines = text.iter().filter(|byte| **byte == b'\n').count();
    println!(rt; "{name}: status {status}, {lines} lines")
}
