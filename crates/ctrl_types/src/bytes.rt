ghost use Rattle.std.specs.Prelude.{◌≡◌, ◌<◌, ◌≤◌, ◌↔◌, length, slice_get, slice_set, replicate, IsNone, IfSome};

use std::marker::Model;

/// How many elements an array has at most (of this project).
pub const MAX_ELEMENTS: usize = 32;

/// The elements of an array of bytes, at most 32 (Linux userspace API, "enum v4l2_ctrl_type", `V4L2_CTRL_TYPE_U8`). Contracts see it as their list.
#[derive(Clone, Copy, Debug, PartialEq, Eq)]
pub struct ByteRow {
    cells: [u8; MAX_ELEMENTS],
    len: u8,
}

impl Model for ByteRow {
    ghost use Rattle.std.specs.Prelude.{ℕ, List};

    ghost Value = { List ℕ };

    ghost use Rattle.ctrl_types.specs.Bytes.{bytes_of, IsCleared, cells_of, cells_of-bytes_of};

    ghost view = { bytes_of };

    ghost invariant = { IsCleared };

    ghost inverse = { cells_of };

    ghost inverse_ok = { cells_of-bytes_of };
}

impl ByteRow {
    /// The row of these bytes, in this order; `None` where there are more than 32. No byte at all is a row too.
    pub fn from_slice(bytes: &[u8]) -> Option<ByteRow>
        ensures none { IsNone result ↔ (32 < length bytes.now) }
        ensures some { IfSome result (λ row. row ≡ bytes.now) }
    {
        let len = bytes.len();
        if len > MAX_ELEMENTS {
            return None;
        }
        let mut cells = [0; MAX_ELEMENTS];
        cells[..len].copy_from_slice(bytes);
        Some(ByteRow {
            cells,
            len: len as u8,
        })
    }

    /// The row of so many times the same byte. The caller owes 32 at most.
    pub fn repeated(len: usize, byte: u8) -> ByteRow
        requires { len ≤ 32 }
        ensures { result ≡ replicate len byte }
    {
        let mut cells = [0; MAX_ELEMENTS];
        cells[..len].copy_from_slice(&[byte; MAX_ELEMENTS][..len]);
        ByteRow {
            cells,
            len: len as u8,
        }
    }

    /// How many bytes there are: 0 to 32.
    pub fn len(&self) -> usize
        ensures value { result ≡ length self.now }
        ensures limit { result ≤ 32 }
    {
        usize::from(self.len)
    }

    /// The bytes, in order.
    pub fn bytes(&self) -> &[u8]
        ensures { result.now ≡ self.now }
    {
        &self.cells[..usize::from(self.len)]
    }

    /// The byte at this index, from 0. The caller owes an index within the row.
    pub fn byte(&self, index: usize) -> u8
        requires { index < length self.now }
        ensures { slice_get self.now index ≡ Some result }
    {
        self.bytes()[index]
    }

    /// The row with this byte at the index, and every other byte as it is here. The caller owes an index within the row.
    pub fn with(&self, index: usize, byte: u8) -> ByteRow
        requires { index < length self.now }
        ensures { result ≡ slice_set self.now index byte }
    {
        let mut cells = self.cells;
        cells[index] = byte;
        ByteRow {
            cells,
            len: self.len,
        }
    }

    /// Puts a byte at the index, in place. The caller owes an index within the row.
    pub fn set(&mut self, index: usize, byte: u8)
        requires { index < length self.old }
        ensures { self.new ≡ slice_set self.old index byte }
    {
        self.cells[index] = byte;
    }
}
