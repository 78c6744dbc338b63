//! Which controls of an auto cluster are inactive.

ghost use Rattle.std.specs.Prelude.{◌≡◌, ◌<◌, length, slice_set};
ghost use Rattle.ctrl_clusters.specs.AutoClusters.{inactive, is_automatic};
ghost use Rattle.ctrl_clusters.specs.Rows.{value_at};

use crate::moment::Moment;
use ctrl_calls::Driver;
use ctrl_handlers::Plan;
use ctrl_types::CtrlValue;

/// Whether a control is inactive: it is a member, but not the master, of an auto cluster, and the value of the master isn't the
/// manual value (Linux driver API, "V4L2 Controls", "Handling autogain/gain-type Controls with Auto Clusters"). A control of any
/// other cluster never is. An inactive control keeps its value and may be set.
///
/// - `plan`: what the device is built of.
/// - `values`: a value for each control, in the order of their numbers; the caller owes exactly as many.
/// - `control`: the number of a control; the caller owes one below `Plan::control_count`.
///
/// It takes no memory and refuses nothing.
#[tactic(auto, unfolding(crate::specs::AutoClusters::inactive))]
pub fn inactive<D: Driver>(plan: &Plan<D>, values: &[CtrlValue], control: u32) -> bool
    requires known { control < length plan.now.controls }
    requires values { length values.now ≡ length plan.now.controls }
    ensures { result ≡ inactive plan.now values.now control }
{
    let cluster = plan.cluster_of(control);
    let master = plan.members(cluster)[0];
    master != control && is_automatic(plan.manual(cluster), &values[master as usize])
}

/// Whether a control is inactive, where one control has another value: as `inactive` says of the values with that one (Linux driver API, "V4L2
/// Controls", "Handling autogain/gain-type Controls with Auto Clusters").
///
/// - `at`: the moment whose values count.
/// - `control`: as of `inactive`.
/// - `other`: the number of the control that has another value; the caller owes one below `Plan::control_count`.
/// - `value`: this value.
///
/// It takes no memory and refuses nothing.
#[tactic(auto, unfolding(crate::specs::AutoClusters::inactive))]
pub fn inactive_with<D: Driver>(at: &Moment<D>, other: u32, value: &CtrlValue, control: u32) -> bool
    requires known { control < length at.now.plan.now.controls }
    requires other { other < length at.now.plan.now.controls }
    ensures { result ≡ inactive at.now.plan.now (slice_set at.now.values.now other value.now) control }
{
    let cluster = at.plan.cluster_of(control);
    let master = at.plan.members(cluster)[0];
    master != control
        && is_automatic(
            at.plan.manual(cluster),
            value_with(at.values, other, value, master),
        )
}

// The value of a control, where one control, which may be this one, has another value.
fn value_with<'a>(
    values: &'a [CtrlValue],
    other: u32,
    value: &'a CtrlValue,
    control: u32,
) -> &'a CtrlValue
    requires known { control < length values.now }
    ensures { result.now ≡ value_at (slice_set values.now other value.now) control }
{
    if control == other {
        value
    } else {
        &values[control as usize]
    }
}

// Whether there is a manual value, and a value is another.
fn is_automatic(manual: Option<i64>, value: &CtrlValue) -> bool
    ensures { result ≡ is_automatic manual value.now }
{
    match manual {
        Some(manual) => !value.is_same(&CtrlValue::Number(manual)),
        None => false,
    }
}
