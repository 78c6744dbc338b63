//! What changes with the range of one control, and for whom it is raised.

ghost use Rattle.std.specs.Prelude.{◌≡◌, ◌<◌, ◌≤◌, ◌+◌, ℕ, not, None, [], length, slice_set};
ghost use Rattle.std.specs.List.{range_with_len};
ghost use Rattle.ctrl_types.specs.Values.{is_same};
ghost use Rattle.ctrl_clusters.specs.Moments.{parts};
ghost use Rattle.ctrl_events.specs.Events.{events_of};
ghost use Rattle.ctrl_handlers.specs.Plan.{control_in};
ghost use Rattle.ctrl_clusters.specs.PresentFlags.{flags_under};
ghost use Rattle.ctrl_clusters.specs.Ranges.{modified};
ghost use Rattle.ctrl_clusters.specs.Rows.{value_at};
ghost use Rattle.ctrl_raises.specs.Raises.{before_range, changed_between, differ, payload_at, raised_all, raised_one, range_differs};

use crate::payloads::payload_at;
use crate::raising::{changes_of, range_differs};
use bitflags::Flags as FlagSet;
use ctrl_calls::Driver;
use ctrl_clusters::{Moment, Ranges, flags_under, flags_with, next_number};
use ctrl_events::Events;
use ctrl_settle::Ctrl;
use ctrl_types::{Changes, CtrlValue};

/// Raises what another range, and another value, of one control change for the file handles that are subscribed to it, in the order of control
/// numbers: CH_RANGE where the bounds, the step or the default of the control differ; CH_VALUE where its value does; CH_FLAGS where the flags of a
/// member of its cluster do, as where it is the master of an auto cluster; nothing where none of these holds (Linux driver API,
/// `v4l2_ctrl_modify_range`; Linux userspace API, "ioctl VIDIOC_DQEVENT"; the order is of this project). It is what `raise_between` raises from the
/// moment before to the one after, without pairs and a file handle whose set it is; only the control's own cluster is looked at.
///
/// - `after`: the moment after the change.
/// - `control`: the number of the control whose range was changed; the caller owes one below `Plan::control_count`.
/// - `old`: this control with the range that it had before.
/// - `old_value`: the value that it had before.
/// - `events`: the events of file handles; the caller owes that the number of each one's next event is at most 4294967295 less the number of
///   controls.
///
/// It takes no memory and refuses nothing.
pub fn raise_range<D: Driver>(
    after: &Moment<D>,
    control: u32,
    old: &Ctrl,
    old_value: &CtrlValue,
    events: &mut Events,
)
    requires known { control < length after.now.plan.now.controls }
    requires numbers { (j : ℕ) → (events_of events.old j).next + length after.now.plan.now.controls ≤ 4294967295 }
    ensures { (j : ℕ) → events_of events.new j ≡ raised_all (changed_between after.now.plan.now (before_range (parts after.now) control old.now old_value.now) (parts after.now) []) (payload_at after.now.plan.now (parts after.now))
        (λ c. None) j (range_with_len 0 (length after.now.plan.now.controls)) (events_of events.old j) }
{
    if events.is_empty() {
        return;
    }
    let end = after.plan.control_count();
    let members = after.plan.members(after.plan.cluster_of(control));
    let mut next = next_number(members, 0, end);
    while next < end {
        raise_member(after, control, old, old_value, next, events);
        next = next_number(members, next + 1, end);
    }
}

// Raises what changes of a member of the cluster of the control whose range was changed.
fn raise_member<D: Driver>(
    after: &Moment<D>,
    control: u32,
    old: &Ctrl,
    old_value: &CtrlValue,
    member: u32,
    events: &mut Events,
)
    requires known { control < length after.now.plan.now.controls }
    requires member { member < length after.now.plan.now.controls }
    requires numbers { (j : ℕ) → (events_of events.old j).next < 4294967295 }
    ensures { (j : ℕ) → events_of events.new j ≡ raised_one (changed_between after.now.plan.now (before_range (parts after.now) control old.now old_value.now) (parts after.now) [] member) (payload_at after.now.plan.now (parts after.now) member)
        None j member (events_of events.old j) }
{
    let changes = changes_with(after, control, old, old_value, member);
    if changes.is_empty() {
        return;
    }
    let payload = payload_at(after, member);
    events.raise(member, changes, &payload, None);
}

// What changes of a member.
#[tactic(auto, using(crate::proofs::RangeLemmas::changed_so))]
fn changes_with<D: Driver>(
    after: &Moment<D>,
    control: u32,
    old: &Ctrl,
    old_value: &CtrlValue,
    member: u32,
) -> Changes
    requires known { control < length after.now.plan.now.controls }
    requires member { member < length after.now.plan.now.controls }
    ensures { result ≡ changed_between after.now.plan.now (before_range (parts after.now) control old.now old_value.now) (parts after.now) [] member }
{
    changes_of(
        value_moves(after.values, control, old_value, member),
        flags_move(after, control, old_value, member),
        range_moves(after.ranges, control, old, member),
    )
}

// Whether the value of a member differs, where one control had another.
#[tactic(auto, using(crate::proofs::RangeLemmas::stays_elsewhere))]
fn value_moves(values: &[CtrlValue], control: u32, old_value: &CtrlValue, member: u32) -> bool
    requires { control < length values.now }
    ensures { result ≡ not (is_same (value_at (slice_set values.now control old_value.now) member) (value_at values.now member)) }
{
    if member != control {
        return false;
    }
    !old_value.is_same(&values[control as usize])
}

// Whether the flags of a member differ, where one control had another value.
fn flags_move<D: Driver>(
    after: &Moment<D>,
    control: u32,
    old_value: &CtrlValue,
    member: u32,
) -> bool
    requires known { control < length after.now.plan.now.controls }
    requires member { member < length after.now.plan.now.controls }
    ensures { result ≡ differ (flags_under after.now.plan.now (slice_set after.now.values.now control old_value.now) after.now.grabs.now member) (flags_under after.now.plan.now after.now.values.now after.now.grabs.now member) }
{
    let old = flags_with(after, control, old_value, member);
    let new = flags_under(after, member);
    old.bits() != new.bits()
}

// Whether the range of a member differs, where one control had another.
fn range_moves(ranges: &Ranges, control: u32, old: &Ctrl, member: u32) -> bool
    requires { control < length ranges.now }
    ensures { result ≡ range_differs (control_in (modified ranges.now control old.now) member) (control_in ranges.now member) }
{
    member == control && range_differs(old, ranges.range(control))
}
