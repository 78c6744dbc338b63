ghost use Rattle.std.specs.Prelude.{◌≡◌, ◌<◌, length, slice_set};
ghost use Rattle.ctrl_types.specs.declared.flags.TheConstants.Flags.{GRABBED, INACTIVE};
ghost use Rattle.ctrl_handlers.specs.Plan.{plan_flags};
ghost use Rattle.ctrl_clusters.specs.PresentFlags.{flags_under, with_flag_if};

use crate::auto_clusters::{inactive, inactive_with};
use crate::moment::Moment;
use bitflags::Flags as FlagSet;
use ctrl_calls::Driver;
use ctrl_handlers::Plan;
use ctrl_types::{CtrlValue, Flags};

/// The flags of a control under a device's values and grabs (Linux userspace API, "Control Flags"): those of the plan; GRABBED where it is
/// grabbed; INACTIVE where its auto cluster makes it so.
///
/// - `at`: the moment whose values and grabs count.
/// - `control`: the number of a control; the caller owes one below `Plan::control_count`.
///
/// It takes no memory and refuses nothing.
pub fn flags_under<D: Driver>(at: &Moment<D>, control: u32) -> Flags
    requires { control < length at.now.plan.now.controls }
    ensures { result ≡ flags_under at.now.plan.now at.now.values.now at.now.grabs.now control }
{
    let is_inactive = inactive(at.plan, at.values, control);
    flags_where(at.plan, at.grabs[control as usize], is_inactive, control)
}

/// The flags of a control under a device's values and grabs, where one control has another value: as `flags_under` says of the values with that one
/// (Linux userspace API, "Control Flags").
///
/// - `at`, `control`: as of `flags_under`.
/// - `other`: the number of the control that has another value; the caller owes one below `Plan::control_count`.
/// - `value`: this value.
///
/// It takes no memory and refuses nothing.
pub fn flags_with<D: Driver>(at: &Moment<D>, other: u32, value: &CtrlValue, control: u32) -> Flags
    requires known { control < length at.now.plan.now.controls }
    requires other { other < length at.now.plan.now.controls }
    ensures { result ≡ flags_under at.now.plan.now (slice_set at.now.values.now other value.now) at.now.grabs.now control }
{
    let is_inactive = inactive_with(at, other, value, control);
    flags_where(at.plan, at.grabs[control as usize], is_inactive, control)
}

// The flags of a control, where it is grabbed or isn't, and where it is inactive or isn't.
fn flags_where<D: Driver>(plan: &Plan<D>, grabbed: bool, inactive: bool, control: u32) -> Flags
    requires { control < length plan.now.controls }
    ensures { result ≡ with_flag_if inactive INACTIVE (with_flag_if grabbed GRABBED (plan_flags plan.now control)) }
{
    let mut flags = plan.flags(control);
    if grabbed {
        flags = flags.union(Flags::GRABBED);
    }
    if inactive {
        flags = flags.union(Flags::INACTIVE);
    }
    flags
}
