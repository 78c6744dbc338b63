ghost use Rattle.std.specs.Prelude.{◌≡◌};
ghost use Rattle.menu_items.specs.Places.{takes_name, takes_number, is_taken};

use ctrl_settle::{Ctrl, settle};
use ctrl_types::{CtrlValue, Kind};

/// Whether a control takes the name of an item at an index: it is a `Menu`, the index lies within its range, and it isn't
/// skipped (Linux driver API, "V4L2 Controls", "Menu Controls").
pub fn takes_name(ctrl: &Ctrl, index: u32) -> bool
    ensures { result ≡ takes_name ctrl.now index }
{
    match ctrl.kind() {
        Kind::Menu => is_taken(ctrl, index),
        _ => false,
    }
}

/// Whether a control takes the number of an item at an index: it is an `IntegerMenu`, the index lies within its range, and it
/// isn't skipped (Linux driver API, "V4L2 Controls", "Menu Controls").
pub fn takes_number(ctrl: &Ctrl, index: u32) -> bool
    ensures { result ≡ takes_number ctrl.now index }
{
    match ctrl.kind() {
        Kind::IntegerMenu => is_taken(ctrl, index),
        _ => false,
    }
}

// Whether a menu takes an index.
fn is_taken(ctrl: &Ctrl, index: u32) -> bool
    ensures { result ≡ is_taken ctrl.now index }
{
    settle(ctrl, &CtrlValue::Number(i64::from(index))).is_ok()
}
