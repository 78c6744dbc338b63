//! Reads messages and their replies from text.

use hex::decode;
use std::alloc::Global;
use std::io;

/// The bytes of messages one behind another, and those of their replies.
#[derive(Drop)]
pub struct Recorded {
    /// The messages.
    pub messages: Vec<u8>,
    /// The replies.
    pub replies: Vec<u8>,
    /// Where each reply stands.
    pub places: Vec<Place>,
}

/// Where a reply stands.
#[derive(Clone, Copy)]
pub struct Place {
    /// The number of its line, from 1.
    pub line: usize,
    /// Where its bytes begin among those of all.
    pub start: usize,
    /// Where they end.
    pub end: usize,
}

impl Recorded {
    /// None.
    pub fn new(alloc: Global) -> Recorded {
        Recorded {
            messages: Vec::new(alloc),
            replies: Vec::new(alloc),
            places: Vec::new(alloc),
        }
    }

    /// The bytes of the reply at a place.
    pub fn reply(&self, place: Place) -> &[u8] {
        match self.replies.get(place.start..place.end) {
            Some(bytes) => bytes,
            None => &[],
        }
    }

    /// Adds messages and replies, one a line: its bytes in words of hexadecimal digits, or `0*N` for N zeros; a reply stands behind `-> `. An empty line and one that begins with `#` are
    /// neither. Whether each word is one of these. The error is that a growth was refused.
    pub fn read(&mut self, alloc: Global, text: &str) -> io::Result<bool> {
        for (before, line) in text.lines().enumerate() {
            let is_read = match line.strip_prefix("-> ") {
                Some(reply) => self.read_reply(alloc, before.saturating_add(1), reply)?,
                None => {
                    line.is_empty()
                        || line.starts_with("#")
                        || add_bytes(alloc, &mut self.messages, line)?
                }
            };
            if !is_read {
                return Ok(false);
            }
        }
        Ok(true)
    }

    // Adds a reply, which stands in the line of this number.
    fn read_reply(&mut self, alloc: Global, line: usize, words: &str) -> io::Result<bool> {
        let start = self.replies.len();
        let is_read = add_bytes(alloc, &mut self.replies, words)?;
        let end = self.replies.len();
        self.places.push(Place { line, start, end })?;
        Ok(is_read)
    }
}

// Adds the bytes that words stand for; whether each stands for some.
fn add_bytes(alloc: Global, bytes: &mut Vec<u8>, words: &str) -> io::Result<bool> {
    for word in words.split(" ") {
        let is_read = match word.strip_prefix("0*") {
            Some(count) => add_zeros(bytes, count)?,
            None => add_digits(alloc, bytes, word)?,
        };
        if !is_read {
            return Ok(false);
        }
    }
    Ok(true)
}

fn add_zeros(bytes: &mut Vec<u8>, count: &str) -> io::Result<bool> {
    let Ok(count) = count.parse::<u16>() else {
        return Ok(false);
    };
    for _ in 0..count {
        bytes.push(0)?;
    }
    Ok(true)
}

fn add_digits(alloc: Global, bytes: &mut Vec<u8>, digits: &str) -> io::Result<bool> {
    match decode(alloc, digits) {
        Ok(part) => {
            bytes.extend_from_slice(part.as_slice())?;
            Ok(true)
        }
        Err(_) => Ok(false),
    }
}
