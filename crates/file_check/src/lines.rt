use file_faults::{FileFault, Key, Place, explain, key_words};
use std::alloc::{AllocError, Global};

/// The lines that are said of a file.
#[derive(Drop)]
pub struct Lines<'a> {
    /// The memory that they are put together in.
    pub alloc: Global,
    // the file
    text: &'a [u8],
    /// The lines, without their ends.
    pub all: Vec<String>,
}

impl<'a> Lines<'a> {
    /// No line.
    pub fn new(alloc: Global, text: &'a [u8]) -> Lines<'a> {
        Lines {
            alloc,
            text,
            all: Vec::new(alloc),
        }
    }

    /// Says a fault.
    pub fn fault(&mut self, fault: &FileFault) -> Result<(), AllocError> {
        self.all.push(explain(self.alloc, self.text, fault)?)?;
        Ok(())
    }

    /// Says what a key of a table may not mean, in these words.
    pub fn warning(&mut self, place: Place, key: Key, words: &str) -> Result<(), AllocError> {
        let mut line = String::from_str(self.alloc, "warning: ")?;
        line.push_str(key_words(self.alloc, self.text, place, key)?.as_str())?;
        line.push_str(words)?;
        self.all.push(line)?;
        Ok(())
    }
}
