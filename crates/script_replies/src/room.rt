ghost use Rattle.std.specs.Prelude.{◌≡◌, [], ◌++◌, IfOk, OnOk};

use ctrl_handlers::MAX_CONTROLS;
use std::alloc::{AllocError, Global};
use std::io;
use std::io::ErrorKind;
use std::marker::Model;

/// A line has no room for what was to be put there.
#[derive(Clone, Copy)]
pub struct LineFull;

impl From<LineFull> for io::Error {
    fn from(_full: LineFull) -> io::Error {
        io::Error::from(ErrorKind::WriteZero)
    }
}

/// How many bytes a reply line may have: 72 for each control that a device can have, and 64 beside them. The longest is that of a
/// forecast: at most 51 bytes, 4 for each of at most 256 clusters, and 66 for each of at most 256 values.
pub const MAX_LINE: usize = 64 + 72 * MAX_CONTROLS as usize;

/// Where a reply line is put together, so that it is written at once. Contracts see the bytes so far.
#[derive(Drop)]
pub struct ReplyLine {
    bytes: Vec<u8>,
}

impl Model for ReplyLine {
    ghost use Rattle.std.specs.Prelude.{ℕ, List};

    ghost Value = { List ℕ };

    ghost view = { λ l. l.bytes.items };
}

impl ReplyLine {
    /// A line without a byte. All the room that it will need is made here, and this may be refused.
    pub fn new(alloc: Global) -> Result<ReplyLine, AllocError>
        ensures { IfOk result (λ line. line ≡ []) }
    {
        Ok(ReplyLine {
            bytes: Vec::with_capacity(alloc, MAX_LINE)?,
        })
    }

    pub(crate) fn clear(&mut self)
        ensures { self.new ≡ [] }
    {
        self.bytes.clear();
    }

    pub(crate) fn as_slice(&self) -> &[u8]
        ensures { result.now ≡ self.now }
    {
        self.bytes.as_slice()
    }

    /// Puts bytes behind those that it has, all or none. It takes no memory.
    pub(crate) fn put(&mut self, text: &[u8]) -> Result<(), LineFull>
        ensures { OnOk result (self.new ≡ self.old ++ text.now) }
    {
        if self.bytes.capacity() - self.bytes.len() < text.len() {
            return Err(LineFull);
        }
        match self.bytes.extend_from_slice(text) {
            Ok(()) => Ok(()),
            Err(_) => Err(LineFull),
        }
    }
}
