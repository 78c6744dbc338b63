ghost use Rattle.std.specs.Prelude.{◌≡◌, ◌<◌, ◌↔◌, length, IsTrue};
ghost use Rattle.device_renewal.specs.Alike.{IsAlike, StandAlike};

use ctrl_calls::Driver;
use ctrl_settle::Ctrl;
use ctrl_types::{CtrlValue, Flags};
use device_state::Device;

/// Whether two devices stand alike (of this project): they have as many controls, and each has the same range, the same present value and the same flags in both, and is grabbed in both or in none.
/// It takes no memory, and asks nobody.
pub fn is_alike<D: Driver>(one: &Device<D>, other: &Device<D>) -> bool
    ensures { IsTrue result ↔ StandAlike D.verdict one.now other.now }
{
    let count = one.plan().control_count();
    if other.plan().control_count() != count {
        return false;
    }
    if !are_values(one.values(), other.values()) {
        return false;
    }
    for control in 0..count {
        if !is_alike_at(one, other, control) {
            return false;
        }
    }
    true
}

// Whether a control has the same range and flags in both, and is grabbed in both or in none.
fn is_alike_at<D: Driver>(one: &Device<D>, other: &Device<D>, control: u32) -> bool
    requires one { control < length one.now.plan.controls }
    requires other { control < length other.now.plan.controls }
    ensures { IsTrue result ↔ IsAlike D.verdict one.now other.now control }
{
    if !are_ranges(one.range(control), other.range(control)) {
        return false;
    }
    if !are_flags(one.flags(control), other.flags(control)) {
        return false;
    }
    one.is_grabbed(control) == other.is_grabbed(control)
}

// Whether these are the same values.
fn are_values(one: &[CtrlValue], other: &[CtrlValue]) -> bool
    ensures { IsTrue result ↔ (one.now ≡ other.now) }
{
    one == other
}

// Whether these are the same control with the same range.
fn are_ranges(one: &Ctrl, other: &Ctrl) -> bool
    ensures { IsTrue result ↔ (one.now ≡ other.now) }
{
    *one == *other
}

// Whether these are the same flags.
fn are_flags(these: Flags, those: Flags) -> bool
    ensures { IsTrue result ↔ (these ≡ those) }
{
    these == those
}
