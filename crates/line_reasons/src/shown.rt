//! Words of a line and of a device, as they are shown to people.

use crate::names::Words;
use std::fmt;

// How many characters of a word are shown, and how many words of a device.
const MOST_CHARS: usize = 40;

const MOST_WORDS: u32 = 16;

/// A word of a line, in quotes, with what can't be seen escaped, and cut where it is long.
#[derive(Clone, Copy)]
pub struct Quoted<'a>(pub &'a [u8]);

impl fmt::Display for Quoted<'_> {
    fn fmt<W: fmt::Write>(&self, f: &mut fmt::Formatter<W>) -> fmt::Result {
        match str::from_utf8(self.0) {
            Ok(text) => quote_text(f, text),
            Err(_) => quote_bytes(f, self.0),
        }
    }
}

fn quote_text<W: fmt::Write>(f: &mut fmt::Formatter<W>, text: &str) -> fmt::Result {
    let cut = match text.char_indices().nth(MOST_CHARS) {
        Some((at, _)) => text.split_at_checked(at),
        None => None,
    };
    match cut {
        Some((begin, _)) => write!(f, "{begin:?}.."),
        None => write!(f, "{text:?}"),
    }
}

// The same of what isn't UTF-8.
fn quote_bytes<W: fmt::Write>(f: &mut fmt::Formatter<W>, word: &[u8]) -> fmt::Result {
    f.write_str("\"")?;
    for byte in word.iter().take(MOST_CHARS) {
        let byte = byte.escape_ascii();
        write!(f, "{byte}")?;
    }
    f.write_str(if word.len() > MOST_CHARS {
        "\".."
    } else {
        "\""
    })
}

/// A word of a device or of the language; in quotes where not all of it can be seen.
#[derive(Clone, Copy)]
pub struct Word<'a>(pub &'a [u8]);

impl fmt::Display for Word<'_> {
    fn fmt<W: fmt::Write>(&self, f: &mut fmt::Formatter<W>) -> fmt::Result {
        match str::from_utf8(self.0) {
            Ok(text) if !text.chars().any(|it| it.is_control()) => f.write_str(text),
            _ => {
                let quoted = Quoted(self.0);
                write!(f, "{quoted}")
            }
        }
    }
}

// The first of them where there are many.
impl fmt::Display for Words<'_> {
    fn fmt<W: fmt::Write>(&self, f: &mut fmt::Formatter<W>) -> fmt::Result {
        let mut between = "";
        for control in 0..self.count().min(MOST_WORDS) {
            if let Some(word) = self.word(control) {
                let word = Word(word);
                write!(f, "{between}{word}")?;
                between = ", ";
            }
        }
        f.write_str(if between.is_empty() {
            "none"
        } else if self.count() > MOST_WORDS {
            ", .."
        } else {
            ""
        })
    }
}
