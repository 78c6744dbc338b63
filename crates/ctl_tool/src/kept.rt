//! An input whose bytes are kept while they are read.

use std::alloc::Global;
use std::io;
use std::io::Read;

/// A reader, and what was read of it, as long as there was memory for it.
#[derive(Drop)]
pub struct Kept<I: Read> {
    reader: I,
    // none where a growth was refused
    bytes: Option<Vec<u8>>,
}

impl<I: Read> Kept<I> {
    /// The reader, of which nothing was read.
    pub fn new(alloc: Global, reader: I) -> Kept<I> {
        Kept {
            reader,
            bytes: Some(Vec::new(alloc)),
        }
    }

    /// A line of what was read, without its line feed, by its number from 1. None where there is no such line, and where a growth was
    /// refused.
    pub fn line(&self, number: u32) -> Option<&[u8]> {
        let bytes = self.bytes.as_ref()?;
        let before = number.checked_sub(1)?;
        bytes
            .as_slice()
            .split(|byte| *byte == b'\n')
            .nth(before as usize)
    }

    // Keeps further bytes.
    fn keep(&mut self, read: &[u8]) {
        if let Some(bytes) = &mut self.bytes {
            if bytes.extend_from_slice(read).is_err() {
                self.bytes = None;
            }
        }
    }
}

impl<I: Read> Read for Kept<I> {
    fn read(&mut self, buf: &mut [u8]) -> io::Result<usize> {
        let count = self.reader.read(buf)?;
        if let Some(read) = buf.get(..count) {
            self.keep(read);
        }
        Ok(count)
    }
}
