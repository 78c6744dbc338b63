//! The payloads of controls' events.

ghost use Rattle.std.specs.Prelude.{◌≡◌, ◌<◌, length};
ghost use Rattle.ctrl_types.specs.Flags.{contains};
ghost use Rattle.ctrl_types.specs.declared.flags.TheConstants.Flags.{WRITE_ONLY};
ghost use Rattle.ctrl_handlers.specs.Plan.{control as control_of};
ghost use Rattle.ctrl_clusters.specs.Moments.{parts};
ghost use Rattle.ctrl_clusters.specs.Rows.{value_at};
ghost use Rattle.ctrl_raises.specs.Raises.{initial_changes, payload_at, value_shown};

use bitflags::Flags as FlagSet;
use ctrl_calls::Driver;
use ctrl_clusters::{Moment, flags_under};
use ctrl_events::Payload;
use ctrl_handlers::Plan;
use ctrl_settle::Ctrl;
use ctrl_types::{Changes, CtrlValue, Flags};

/// The payload of a control's event at a moment (Linux userspace API, "struct v4l2_event_ctrl"): the value is 0 where it can't be read (of this
/// project), and of an array.
///
/// - `at`: the moment.
/// - `control`: the number of a control; the caller owes one below `Plan::control_count`.
///
/// It takes no memory and refuses nothing.
pub fn payload_at<D: Driver>(at: &Moment<D>, control: u32) -> Payload
    requires { control < length at.now.plan.now.controls }
    ensures { result ≡ payload_at at.now.plan.now (parts at.now) control }
{
    let ctrl = at.ranges.range(control);
    Payload {
        id: ctrl.id(),
        kind: ctrl.kind(),
        value: value_shown(ctrl, at.values, control),
        flags: flags_under(at, control),
        minimum: ctrl.minimum(),
        maximum: ctrl.maximum(),
        step: ctrl.step(),
        default_value: ctrl.default_value(),
    }
}

// The value of a control that its event shows.
fn value_shown(ctrl: &Ctrl, values: &[CtrlValue], control: u32) -> i64
    requires { control < length values.now }
    ensures { result ≡ value_shown ctrl.now (value_at values.now control) }
{
    if is_unreadable(ctrl) {
        0
    } else {
        values[control as usize].number()
    }
}

/// What a subscription raises of a control at once, where its flags say so (Linux userspace API, "ioctl VIDIOC_SUBSCRIBE_EVENT, VIDIOC_UNSUBSCRIBE_EVENT"): CH_FLAGS, and
/// CH_VALUE where it can be read.
///
/// - `plan`: what the device is built of.
/// - `control`: the number of a control; the caller owes one below `Plan::control_count`.
///
/// It takes no memory and refuses nothing.
pub fn initial_changes<D: Driver>(plan: &Plan<D>, control: u32) -> Changes
    requires { control < length plan.now.controls }
    ensures { result ≡ initial_changes (control_of plan.now control).flags }
{
    if is_unreadable(&plan.control(control)) {
        Changes::CH_FLAGS
    } else {
        Changes::CH_VALUE.union(Changes::CH_FLAGS)
    }
}

// Whether a control can't be read.
fn is_unreadable(ctrl: &Ctrl) -> bool
    ensures { result ≡ contains ctrl.now.flags WRITE_ONLY }
{
    ctrl.flags().contains(Flags::WRITE_ONLY)
}
