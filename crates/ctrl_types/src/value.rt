ghost use Rattle.std.specs.Prelude.{◌≡◌};

use crate::bytes::ByteRow;
use std::fmt;

/// What a control has as its value (Linux userspace API, "struct v4l2_ext_control").
#[derive(Clone, Copy, Debug, PartialEq, Eq)]
pub enum CtrlValue {
    /// A number (field `value64`).
    Number(i64),
    /// The elements of an array of bytes (field `p_u8`).
    Bytes(ByteRow),
}

impl CtrlValue {
    ghost use Rattle.ctrl_types.specs.Values.{is_same, number_of};

    /// Whether two values are the same, as `==` says, too: the same number, or the same elements.
    pub fn is_same(&self, other: &CtrlValue) -> bool
        ensures { result ≡ is_same self.now other.now }
    {
        self == other
    }

    /// The number that the value is; 0 of an array, which has none.
    pub fn number(self) -> i64
        ensures { result ≡ number_of self }
    {
        match self {
            CtrlValue::Number(number) => number,
            CtrlValue::Bytes(_) => 0,
        }
    }
}

impl fmt::Display for CtrlValue {
    fn fmt<W: fmt::Write>(&self, f: &mut fmt::Formatter<W>) -> fmt::Result {
        match self {
            CtrlValue::Number(number) => write!(f, "{number}"),
            CtrlValue::Bytes(row) => {
                write!(f, "x")?;
                for byte in row.bytes() {
                    write!(f, "{byte:02x}")?;
                }
                Ok(())
            }
        }
    }
}
