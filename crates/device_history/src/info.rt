ghost use Rattle.std.specs.Prelude.{◌≡◌};
ghost use Rattle.device_history.specs.Queries.{info_of};

use ctrl_settle::Ctrl;
use ctrl_types::{CtrlId, Flags, Kind};

/// What a control is like, as a query tells it (Linux userspace API, "ioctls VIDIOC_QUERYCTRL, VIDIOC_QUERY_EXT_CTRL and
/// VIDIOC_QUERYMENU").
#[derive(Clone, Copy, Debug, PartialEq, Eq)]
pub struct CtrlInfo {
    /// The id.
    pub id: CtrlId,
    /// What values it takes.
    pub kind: Kind,
    /// The least value, of an array that of each element, or a menu's first index.
    pub minimum: i64,
    /// The greatest value, of an array that of each element, or a menu's last index; of a BITMASK all its bits.
    pub maximum: i64,
    /// How far its values lie apart; 0 for a BUTTON and a BITMASK.
    pub step: u64,
    /// The default of the moment; of an array it stands in each element.
    pub default_value: i64,
    /// Its present flags: those that it was described with, UPDATE of an auto cluster's master, GRABBED and INACTIVE.
    pub flags: Flags,
    /// How many elements its value has; 1 where it is no array.
    pub elems: u32,
}

impl CtrlInfo {
    /// What a query tells of a control.
    ///
    /// - `ctrl`: the control, with its range of the moment.
    /// - `flags`: its present flags.
    pub fn of(ctrl: &Ctrl, flags: Flags) -> CtrlInfo
        ensures { result ≡ info_of ctrl.now flags }
    {
        CtrlInfo {
            id: ctrl.id(),
            kind: ctrl.kind(),
            minimum: ctrl.minimum(),
            maximum: ctrl.maximum(),
            step: ctrl.step(),
            default_value: ctrl.default_value(),
            flags,
            elems: ctrl.elems(),
        }
    }
}
