//! The asks of the device's own.

ghost use Rattle.std.specs.Prelude.{◌≡◌, ◌≤◌, ◌<◌, if◌then◌else◌, true, [], length, map, vec_capacity, IfSome};
ghost use Rattle.std.specs.List.{All, list_any};
ghost use Rattle.device_history.specs.declared.ask.Ask.TheVariants as asks;
ghost use Rattle.device_state.specs.Device.{Handles};
ghost use Rattle.device_state.specs.Runs.{IsRun};
ghost use Rattle.following_ranges.specs.Following.{IsOfRoom, IsOwn, answer_by, are_asked, are_asked_now, due_now, is_refused, range_call, range_for, ranges_due_now, ranges_of, with_found};

use ctrl_calls::Driver;
use ctrl_settle::Ctrl;
use ctrl_types::{CtrlValue, Fault};
use device_state::{Ask, Device};
use range_followers::{Follower, have_moved, range_due};

/// A range that a device asked for by itself (of this project).
#[derive(Clone, Copy)]
pub struct RangeAsk {
    /// The number of the control that follows.
    pub control: u32,
    /// The control with the range that it was asked to have.
    pub wanted: Ctrl,
    /// Why it wasn't given it; none where it was.
    pub refusal: Option<Fault>,
}

// Asks for the ranges that are due behind an accepted change, where a value that is followed has moved from what it was before, or where a range is owed.
pub(crate) fn follow<D: Driver>(
    device: &mut Device<D>,
    followers: &[Follower],
    before: &[CtrlValue],
    owed: &mut bool,
    seat: u32,
    due: &mut Vec<(u32, Ctrl)>,
    asked: &mut Vec<RangeAsk>,
)
    requires none_due { due.old.items ≡ [] }
    requires none { asked.old.items ≡ [] }
    requires room_due { length device.old.plan.controls ≤ vec_capacity due.old }
    requires room { length device.old.plan.controls ≤ vec_capacity asked.old }
    ensures due { ranges_of asked.new.items ≡ (if are_asked_now D.verdict followers.now before.now device.old owed.old true then ranges_due_now D.verdict followers.now device.old else []) }
    ensures run { IsRun D.verdict device.old (map (range_call seat) asked.new.items) device.new }
    ensures of_room { All (λ one. IsOfRoom one.refusal) asked.new.items }
    ensures owes { owed.new ≡ (if are_asked_now D.verdict followers.now before.now device.old owed.old true then list_any is_refused asked.new.items else owed.old) }
{
    if are_asked(followers, before, device.values(), *owed) {
        find_due(device, followers, due);
        ask_due(device, seat, due.as_slice(), asked);
        *owed = is_one_refused(asked.as_slice());
    }
}

// Whether ranges are asked for behind an accepted change: a value that is followed has moved, or a range is owed.
fn are_asked(followers: &[Follower], before: &[CtrlValue], after: &[CtrlValue], owed: bool) -> bool
    ensures { result ≡ are_asked followers.now before.now after.now owed true }
{
    have_moved(followers, before, after) || owed
}

// Whether one of the ranges that were asked for was refused.
fn is_one_refused(asked: &[RangeAsk]) -> bool
    ensures { result ≡ list_any is_refused asked.now }
{
    asked.iter().any(|one| one.refusal.is_some())
}

// The ranges that are due, in rising numbers of their controls.
pub(crate) fn find_due<D: Driver>(
    device: &Device<D>,
    followers: &[Follower],
    due: &mut Vec<(u32, Ctrl)>,
)
    requires none { due.old.items ≡ [] }
    requires room { length device.now.plan.controls ≤ vec_capacity due.old }
    ensures due { due.new.items ≡ ranges_due_now D.verdict followers.now device.now }
    ensures few { length due.new.items ≤ length device.now.plan.controls }
    ensures own { All (IsOwn device.now.plan) due.new.items }
{
    for control in 0..device.plan().control_count() {
        add_found(due, due_for(device, followers, control));
    }
}

// Adds what was found, where something was.
fn add_found(due: &mut Vec<(u32, Ctrl)>, found: Option<(u32, Ctrl)>)
    requires { length due.old.items < vec_capacity due.old }
    ensures items { due.new.items ≡ with_found found due.old.items }
    ensures room { vec_capacity due.new ≡ vec_capacity due.old }
{
    if let Some(one) = found {
        due.push_reserved(one);
    }
}

// The range that is due for a control.
fn due_for<D: Driver>(
    device: &Device<D>,
    followers: &[Follower],
    control: u32,
) -> Option<(u32, Ctrl)>
    requires { control < length device.now.plan.controls }
    ensures due { result ≡ due_now D.verdict followers.now device.now control }
    ensures own { IfSome result (IsOwn device.now.plan) }
{
    match range_due(followers, control, device.range(control), device.values()) {
        Some(wanted) => Some((control, wanted)),
        None => None,
    }
}

// Asks for them, one after another.
pub(crate) fn ask_due<D: Driver>(
    device: &mut Device<D>,
    seat: u32,
    due: &[(u32, Ctrl)],
    asked: &mut Vec<RangeAsk>,
)
    requires none { asked.old.items ≡ [] }
    requires room { length due.now ≤ vec_capacity asked.old }
    requires own { All (IsOwn device.old.plan) due.now }
    ensures exactly { map range_for asked.new.items ≡ due.now }
    ensures run { IsRun D.verdict device.old (map (range_call seat) asked.new.items) device.new }
    ensures of_room { All (λ one. IsOfRoom one.refusal) asked.new.items }
{
    for one in due {
        let (control, wanted) = *one;
        let refusal = ask_range(device, seat, control, &wanted);
        asked.push_reserved(RangeAsk {
            control,
            wanted,
            refusal,
        });
    }
}

// Asks for the range of a control.
fn ask_range<D: Driver>(
    device: &mut Device<D>,
    seat: u32,
    control: u32,
    wanted: &Ctrl,
) -> Option<Fault>
    requires { IsOwn device.old.plan (control, wanted.now) }
    ensures handles { Handles D.verdict device.old device.new seat (asks.ModifyRange control wanted.now.minimum wanted.now.maximum wanted.now.step wanted.now.default_value) (answer_by result) }
    ensures of_room { IsOfRoom result }
{
    let ask = Ask::ModifyRange {
        control,
        min: wanted.minimum(),
        max: wanted.maximum(),
        step: wanted.step(),
        default_value: wanted.default_value(),
    };
    device.handle(seat, &ask).err()
}
