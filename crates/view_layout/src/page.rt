use ctrl_types::CtrlValue;
use std::alloc::Global;
use std::io;
use std::io::Write;

/// A text that is put together before it is written. Where a growth is refused the page isn't whole any more, which is asked once, at its end; so what is
/// put on it answers nothing.
#[derive(Drop)]
pub struct Page {
    text: Vec<u8>,
    is_whole: bool,
}

impl Page {
    /// An empty page. It takes no memory.
    pub fn new(alloc: Global) -> Page {
        Page {
            text: Vec::new(alloc),
            is_whole: true,
        }
    }

    /// Whether each growth was granted.
    pub fn is_whole(&self) -> bool {
        self.is_whole
    }

    /// What was put on the page.
    pub fn text(&self) -> &[u8] {
        self.text.as_slice()
    }

    /// Takes off what was put on the page.
    pub fn clear(&mut self) {
        self.text.clear();
    }

    /// Takes off the last byte, where there is one.
    pub fn pop(&mut self) {
        let _ = self.text.pop();
    }

    /// Puts a text behind the others.
    pub fn put(&mut self, text: &str) {
        self.put_bytes(text.as_bytes());
    }

    /// Puts a decimal number behind the others.
    pub fn put_number(&mut self, number: i64) {
        let _ = write!(self, "{number}");
    }

    /// Puts a value behind the others.
    pub fn put_value(&mut self, value: &CtrlValue) {
        let _ = write!(self, "{value}");
    }

    /// Puts bytes behind the others.
    pub fn put_bytes(&mut self, bytes: &[u8]) {
        if self.text.extend_from_slice(bytes).is_err() {
            self.is_whole = false;
        }
    }

    /// That another page, whose text is put on this one, isn't whole makes this one likewise.
    pub fn needs(&mut self, other: &Page) {
        if !other.is_whole {
            self.is_whole = false;
        }
    }
}

impl Write for Page {
    fn write(&mut self, buf: &[u8]) -> io::Result<usize> {
        self.put_bytes(buf);
        Ok(buf.len())
    }

    // nothing is held back
    fn flush(&mut self) -> io::Result<()> {
        Ok(())
    }
}
