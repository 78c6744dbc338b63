//! Lines of scripts and of what they print.

use std::alloc::{AllocError, Global};

/// The lines of a text, each without its line feed.
pub fn lines_of(alloc: Global, text: &[u8]) -> Result<Vec<&[u8]>, AllocError> {
    let text = text.strip_suffix(b"\n").unwrap_or(text);
    if text.is_empty() {
        return Ok(Vec::new(alloc));
    }
    text.split(|byte| *byte == b'\n').collect(alloc)
}

/// The word at a place of a line, from 0, if it has as many.
pub fn word(line: &[u8], place: usize) -> Option<&[u8]> {
    line.split(|byte| *byte == b' ')
        .filter(|word| !word.is_empty())
        .nth(place)
}

/// Whether a line of a script prints one: it isn't skipped.
pub fn is_answered(line: &[u8]) -> bool {
    match word(line, 0) {
        Some(word) => !word.starts_with(b"#"),
        None => false,
    }
}

/// What the command of a line prints where it finds no memory.
pub fn want_of(alloc: Global, line: &[u8]) -> Result<String, AllocError> {
    let words = line
        .split(|byte| *byte == b' ')
        .filter(|word| !word.is_empty())
        .count();
    match word(line, 0) {
        Some(b"get" | b"set" | b"try") => {
            format!(in alloc; "error 12 index {}", words.saturating_sub(3))
        }
        _ => format!(in alloc; "error 12"),
    }
}
