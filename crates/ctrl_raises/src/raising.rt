//! What changes from one moment to another, and for whom it is raised.

ghost use Rattle.std.specs.Prelude.{◌≡◌, ◌<◌, ◌≤◌, ◌+◌, ℕ, length};
ghost use Rattle.std.specs.List.{range_with_len};
ghost use Rattle.std.specs.Option.{option_map};
ghost use Rattle.ctrl_clusters.specs.Moments.{parts, parts_after};
ghost use Rattle.ctrl_events.specs.Events.{events_of};
ghost use Rattle.ctrl_clusters.specs.PresentFlags.{flags_under};
ghost use Rattle.ctrl_raises.specs.Raises.{changed_between, changes_of, differ, needing_feedback, payload_at, raised_all, raised_one, range_differs};

use crate::payloads::payload_at;
use bitflags::Flags as FlagSet;
use ctrl_calls::Driver;
use ctrl_clusters::{Change, flags_under, is_among, is_changed};
use ctrl_events::Events;
use ctrl_settle::Ctrl;
use ctrl_types::{Changes, FhId, Pair};

/// Raises what changes from one moment to another for the file handles that are subscribed to it, control by control, in the order of their
/// numbers: CH_VALUE where the value differs, or where the control acts on each write and is among the pairs; CH_FLAGS where the flags differ;
/// CH_RANGE where the bounds, the step or the default differ; nothing where none of these holds (Linux userspace API, "ioctl VIDIOC_DQEVENT"; the order, and that only a control among the pairs acts on each
/// write, are of this project). A file handle whose set it is hears of a control only where its subscription allows feedback, or the flags differ, or
/// the control isn't among the pairs (the last of this project).
///
/// - `change`: the two moments.
/// - `pairs`: what was applied to come from the one to the other; none where nothing was.
/// - `from`: the file handle whose set it is, where it is one.
/// - `events`: the events of file handles; the caller owes that the number of each one's next event is at most 4294967295 less the number of
///   controls.
///
/// It takes no memory and refuses nothing.
pub fn raise_between<D: Driver>(
    change: &Change<D>,
    pairs: &[Pair],
    from: Option<FhId>,
    events: &mut Events,
)
    requires numbers { (j : ℕ) → (events_of events.old j).next + length change.now.before.plan.now.controls ≤ 4294967295 }
    ensures { (j : ℕ) → events_of events.new j ≡ raised_all (changed_between change.now.before.plan.now (parts change.now.before) (parts_after change.now) pairs.now) (payload_at change.now.before.plan.now (parts_after change.now))
        (λ c. needing_feedback (option_map (λ fh. fh.0) from) pairs.now (changed_between change.now.before.plan.now (parts change.now.before) (parts_after change.now) pairs.now c) c) j (range_with_len 0 (length change.now.before.plan.now.controls)) (events_of events.old j) }
{
    if events.is_empty() {
        return;
    }
    for control in 0..change.before.plan.control_count() {
        raise_one(change, pairs, from, control, events);
    }
}

/// Raises what changes of one control.
pub(crate) fn raise_one<D: Driver>(
    change: &Change<D>,
    pairs: &[Pair],
    from: Option<FhId>,
    control: u32,
    events: &mut Events,
)
    requires known { control < length change.now.before.plan.now.controls }
    requires numbers { (j : ℕ) → (events_of events.old j).next < 4294967295 }
    ensures { (j : ℕ) → events_of events.new j ≡ raised_one (changed_between change.now.before.plan.now (parts change.now.before) (parts_after change.now) pairs.now control) (payload_at change.now.before.plan.now (parts_after change.now) control)
        (needing_feedback (option_map (λ fh. fh.0) from) pairs.now (changed_between change.now.before.plan.now (parts change.now.before) (parts_after change.now) pairs.now control) control) j control (events_of events.old j) }
{
    let changes = changes_between(change, pairs, control);
    if changes.is_empty() {
        return;
    }
    let payload = payload_at(&change.after(), control);
    events.raise(
        control,
        changes,
        &payload,
        needing_feedback(from, pairs, changes, control),
    );
}

// What changes of a control.
fn changes_between<D: Driver>(change: &Change<D>, pairs: &[Pair], control: u32) -> Changes
    requires known { control < length change.now.before.plan.now.controls }
    ensures { result ≡ changed_between change.now.before.plan.now (parts change.now.before) (parts_after change.now) pairs.now control }
{
    changes_of(
        is_changed(change, pairs, control),
        flags_differ(change, control),
        range_differs(
            change.before.ranges.range(control),
            change.ranges.range(control),
        ),
    )
}

/// What changes, where the value does, where the flags do, and where the range does.
pub(crate) fn changes_of(value: bool, flags: bool, range: bool) -> Changes
    ensures { result ≡ changes_of value flags range }
{
    let mut changes = Changes::empty();
    if value {
        changes = changes.union(Changes::CH_VALUE);
    }
    if flags {
        changes = changes.union(Changes::CH_FLAGS);
    }
    if range {
        changes = changes.union(Changes::CH_RANGE);
    }
    changes
}

// Whether the flags of a control differ.
fn flags_differ<D: Driver>(change: &Change<D>, control: u32) -> bool
    requires known { control < length change.now.before.plan.now.controls }
    ensures { result ≡ differ (flags_under change.now.before.plan.now change.now.before.values.now change.now.before.grabs.now control) (flags_under change.now.before.plan.now change.now.values.now change.now.grabs.now control) }
{
    let old = flags_under(&change.before, control);
    let new = flags_under(&change.after(), control);
    old.bits() != new.bits()
}

/// Whether the bounds, the step or the default of a control differ.
pub(crate) fn range_differs(old: &Ctrl, new: &Ctrl) -> bool
    ensures { result ≡ range_differs old.now new.now }
{
    old.minimum() != new.minimum()
        || old.maximum() != new.maximum()
        || old.step() != new.step()
        || old.default_value() != new.default_value()
}

// The file handle that a change of a control comes from, where it hears of it only if its subscription allows feedback.
fn needing_feedback(
    from: Option<FhId>,
    pairs: &[Pair],
    changes: Changes,
    control: u32,
) -> Option<FhId>
    ensures { option_map (λ fh. fh.0) result ≡ needing_feedback (option_map (λ fh. fh.0) from) pairs.now changes control }
{
    if changes.intersects(Changes::CH_FLAGS)
        || changes.intersects(Changes::CH_RANGE)
        || !is_among(pairs, control)
    {
        None
    } else {
        from
    }
}
