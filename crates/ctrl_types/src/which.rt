ghost use Rattle.std.specs.Prelude.{◌≡◌};

use crate::check::Check;
use crate::errno::Errno;
use crate::ids::CtrlId;

/// Which values a control list speaks of (Linux userspace API, "struct v4l2_ext_controls", field `which`).
#[derive(Clone, Copy, Debug, PartialEq, Eq, Hash)]
pub enum Which {
    /// The present values (`V4L2_CTRL_WHICH_CUR_VAL`).
    Current,
    /// The defaults (`V4L2_CTRL_WHICH_DEF_VAL`).
    Defaults,
    /// The present values of the controls of one class.
    Class(u32),
    /// The values of a request (`V4L2_CTRL_WHICH_REQUEST_VAL`).
    Request,
}

impl Which {
    ghost use Rattle.ctrl_types.specs.Checks.{with_errno};
    ghost use Rattle.ctrl_types.specs.Classes.{which_of};

    /// Reads the field `which`: 0 the present values, 0x0f000000 the defaults, 0x0f010000 those of a request, and any
    /// other number that is its own class that class. Refused by check 50 of docs/RULES.md (EINVAL, 22).
    pub fn read(number: u32) -> Result<Which, Errno>
        ensures { result ≡ with_errno (which_of number) }
    {
        match Which::of(number) {
            Ok(which) => Ok(which),
            Err(check) => Err(check.errno()),
        }
    }

    /// The same, where a refusal is the check that a list is refused by: check 2, which is made of check 50.
    pub fn of(number: u32) -> Result<Which, Check>
        ensures { result ≡ which_of number }
    {
        match number {
            0 => Ok(Which::Current),
            0x0f00_0000 => Ok(Which::Defaults),
            0x0f01_0000 => Ok(Which::Request),
            _ if CtrlId(number).class() == number => Ok(Which::Class(number)),
            _ => Err(Check::WhichUnknown),
        }
    }
}
