ghost use Rattle.std.specs.Prelude.{◌≡◌};
ghost use Rattle.ctrl_types.specs.Classes.{class_of};

use crate::value::CtrlValue;

/// The id by which userspace names a control (`V4L2_CID_..`).
#[derive(Clone, Copy, Debug, PartialEq, Eq, PartialOrd, Ord, Hash)]
pub struct CtrlId(pub u32);

impl CtrlId {
    /// The class that the control belongs to (`V4L2_CTRL_ID2CLASS`).
    pub fn class(self) -> u32
        ensures { result ≡ class_of self.0 }
    {
        self.0 & 0x0fff_0000
    }
}

/// The id of an open file handle (of this project): the number, from 0, of the step that opened it. It is never given again,
/// and 4294967295 never is one.
#[derive(Clone, Copy, Debug, PartialEq, Eq, PartialOrd, Ord, Hash)]
pub struct FhId(pub u32);

/// The id of a media request (of this project): the number, from 0, of the step that allocated it. It is never given again,
/// and 4294967295 never is one.
#[derive(Clone, Copy, Debug, PartialEq, Eq, PartialOrd, Ord, Hash)]
pub struct RequestId(pub u32);

/// An entry of a control list (Linux userspace API, "struct v4l2_ext_control").
#[derive(Clone, Copy, Debug, PartialEq, Eq)]
pub struct ExtControl {
    /// The control.
    pub id: CtrlId,
    /// Its value; a get ignores the one that is handed in.
    pub value: CtrlValue,
}

/// A value for the control with this number (of this project).
#[derive(Clone, Copy, Debug, PartialEq, Eq)]
pub struct Pair {
    /// The control's number in its device.
    pub control: u32,
    /// The value, as it was given.
    pub value: CtrlValue,
}
