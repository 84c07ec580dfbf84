// Scripts that are too long for a file, and texts of which not all is known.
use lwp_types::NoMemory;
use std::alloc::Global;

// How often the file's text is read, and the text.
fn times(file: &[u8]) -> Option<(u32, &[u8])> {
    let at = file.iter().position(|byte| *byte == b'\n')?;
    let (count, text) = file.split_at(at + 1);
    let count = str::from_utf8(count).ok()?.trim_end().parse().ok()?;
    Some((count, text))
}

/// The text after the first line of the file, as often as that line says; nothing, where it says no number.
pub fn repeated(alloc: Global, file: &[u8]) -> Result<Vec<u8>, NoMemory> {
    let mut script = Vec::new(alloc);
    if let Some((count, text)) = times(file) {
        for _ in 0..count {
            script.extend_from_slice(text)?;
        }
    }
    Ok(script)
}

/// The lines of the text that stand among those that are wanted, in the text's order, each with a newline.
pub fn lines_among(alloc: Global, text: &[u8], wanted: &[u8]) -> Result<Vec<u8>, NoMemory> {
    let mut found = Vec::new(alloc);
    for line in text.split(|byte| *byte == b'\n') {
        let mut others = wanted.split(|byte| *byte == b'\n');
        if !line.is_empty() && others.any(|other| other == line) {
            found.extend_from_slice(line)?;
            found.push(b'\n')?;
        }
    }
    Ok(found)
}
