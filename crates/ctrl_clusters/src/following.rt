//! The ranges that follow values.

ghost use Rattle.std.specs.Prelude.{◌≡◌, ◌<◌, length};
ghost use Rattle.ctrl_clusters.specs.Following.{range_under as range_of_values};

use crate::moment::Moment;
use crate::ranges::Ranges;
use ctrl_calls::Driver;
use ctrl_settle::Ctrl;
use ctrl_types::CtrlValue;
use range_followers::{Follower, wanted_range};

/// A control with the range that the values of a moment give it (of this project): the one that it is wanted to have, where it follows, and else the one of the
/// moment. It takes no memory and refuses nothing.
///
/// - `control`: the number of a control; the caller owes one that is there.
pub fn range_at<D: Driver>(at: &Moment<D>, control: u32) -> Ctrl
    requires { control < length at.now.ranges.now }
    ensures { result ≡ range_of_values at.now.plan.now.followers at.now.ranges.now at.now.values.now control }
{
    range_under(at.plan.followers(), at.ranges, at.values, control)
}

/// The same under these ranges and values.
///
/// - `followers`: how ranges follow. Of two of one number the first counts.
/// - `ranges`: the controls with the ranges of before.
/// - `values`: a value for each control, in the order of their numbers.
/// - `control`: the number of a control; the caller owes one that is there.
pub fn range_under(
    followers: &[Follower],
    ranges: &Ranges,
    values: &[CtrlValue],
    control: u32,
) -> Ctrl
    requires { control < length ranges.now }
    ensures { result ≡ range_of_values followers.now ranges.now values.now control }
{
    let ctrl = ranges.range(control);
    wanted_range(followers, control, ctrl, values).unwrap_or(*ctrl)
}
