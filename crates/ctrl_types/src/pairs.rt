ghost use Rattle.std.specs.Prelude.{◌≡◌};
ghost use Rattle.ctrl_types.specs.Pairs.{last_value};

use crate::ids::Pair;
use crate::value::CtrlValue;

/// The last value that pairs give the control with this number, where they give it one (of this project).
pub fn last_value(pairs: &[Pair], control: u32) -> Option<CtrlValue>
    ensures { result ≡ last_value pairs.now control }
{
    let mut last = None;
    for pair in pairs {
        if pair.control == control {
            last = Some(pair.value);
        }
    }
    last
}
