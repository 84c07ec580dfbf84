// The rows of the table.
use lwp_types::NoMemory;
use std::alloc::Global;

/// A row: its name, the file that is given, the file with the text that is wanted, the status that is wanted, and the program's
/// words.
#[derive(Drop)]
pub struct Row<'t> {
    pub name: &'t str,
    pub given: &'t str,
    pub wanted: &'t str,
    pub status: u8,
    pub words: Vec<String>,
}

/// The row that a line writes, if it has all four words of one in front.
pub fn row_of(alloc: Global, line: &str) -> Result<Option<Row<'_>>, NoMemory> {
    let mut parts = line.split_whitespace();
    let (Some(name), Some(given), Some(wanted), Some(status)) = (
        parts.next(),
        parts.next(),
        parts.next(),
        parts.next(),
    ) else {
        return Ok(None);
    };
    let Ok(status) = status.parse::<u8>() else {
        return Ok(None);
    };
    let mut words = Vec::new(alloc);
    for word in parts {
        words.push(word.to_string(alloc)?)?;
    }
    Ok(Some(Row {
        name,
        given,
        wanted,
        status,
        words,
    }))
}
