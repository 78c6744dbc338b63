//! Which controls may follow others, and the range that one has that does.

ghost use Rattle.std.specs.Prelude.{◌≡◌, ◌<◌, length, map, nat_lt, IfOk};
ghost use Rattle.std.specs.List.{list_any};
ghost use Rattle.ctrl_settle.specs.Control.{default_of};
ghost use Rattle.ctrl_settle.specs.Faults.{IsWellFormed};
ghost use Rattle.ctrl_handlers.specs.Builder.{is_free as is_free_of, is_known as is_known_of, may_be_followed as may_be_followed_of, may_follow as may_follow_of};
ghost use Rattle.ctrl_handlers.specs.Plan.{control_in, wanted_at_start as wanted_of};
ghost use Rattle.range_followers.specs.Followed.{each_followed, is_followed_by, passes};
ghost use Rattle.range_followers.specs.Wanted.{can_follow as kind_follows};

use ctrl_settle::Ctrl;
use ctrl_types::CtrlValue;
use range_followers::{Follower, Source, can_follow, follower_of, wanted_by};
use std::alloc::{AllocError, Global};

/// Whether the control that is to follow is among so many, and each that it is to follow.
pub(crate) fn is_known(follower: &Follower, count: u32) -> bool
    ensures { result ≡ is_known_of count follower.now }
{
    follower.control < count
        && is_below(follower.minimum, count)
        && is_below(follower.maximum, count)
        && is_below(follower.default_value.source(), count)
}

// Whether the control that is followed is among so many.
fn is_below(source: Option<Source>, count: u32) -> bool
    ensures { result ≡ passes (λ s. nat_lt s count) source }
{
    match source {
        Some(source) => source.control < count,
        None => true,
    }
}

/// Whether one that is known may follow others beside those that follow already.
pub(crate) fn may_follow(controls: &[Ctrl], followers: &[Follower], follower: &Follower) -> bool
    ensures { result ≡ may_follow_of controls.now followers.now follower.now }
{
    follower.follows_any()
        && is_able(controls, follower.control)
        && each_may_be_followed(controls, followers, follower)
        && is_free(followers, follower.control)
}

// Whether a control is there, and of a kind that can follow and be followed.
fn is_able(controls: &[Ctrl], control: u32) -> bool
    ensures { result ≡ kind_follows (control_in controls.now control).kind }
{
    match controls.get(control as usize) {
        Some(ctrl) => can_follow(ctrl.kind()),
        None => true,
    }
}

// Whether each control that is followed may be.
fn each_may_be_followed(controls: &[Ctrl], followers: &[Follower], follower: &Follower) -> bool
    ensures { result ≡ each_followed (may_be_followed_of controls.now followers.now follower.now.control) follower.now }
{
    may_be_followed(controls, followers, follower.control, follower.minimum)
        && may_be_followed(controls, followers, follower.control, follower.maximum)
        && may_be_followed(
            controls,
            followers,
            follower.control,
            follower.default_value.source(),
        )
}

// Whether a control may be followed by another, where one is.
fn may_be_followed(
    controls: &[Ctrl],
    followers: &[Follower],
    control: u32,
    source: Option<Source>,
) -> bool
    ensures { result ≡ passes (may_be_followed_of controls.now followers.now control) source }
{
    match source {
        Some(source) => {
            source.control < control
                && is_able(controls, source.control)
                && follower_of(followers, source.control).is_none()
        }
        None => true,
    }
}

// Whether a control neither follows nor is followed.
fn is_free(followers: &[Follower], control: u32) -> bool
    ensures { result ≡ is_free_of followers.now control }
{
    follower_of(followers, control).is_none() && !is_followed(followers, control)
}

// Whether some follower follows a control.
fn is_followed(followers: &[Follower], control: u32) -> bool
    ensures { result ≡ list_any (λ g. is_followed_by g control) followers.now }
{
    followers.iter().any(|follower| follower.follows(control))
}

/// The control of a follower with the range that it is wanted to have under the defaults of all.
pub(crate) fn wanted_at_start(
    alloc: Global,
    controls: &[Ctrl],
    follower: &Follower,
) -> Result<Ctrl, AllocError>
    requires { follower.now.control < length controls.now }
    ensures range { IfOk result (λ ctrl. ctrl ≡ wanted_of controls.now follower.now) }
    ensures well_formed { IfOk result IsWellFormed }
{
    let ctrl = controls[follower.control as usize];
    let values = defaults(alloc, controls)?;
    let wanted = wanted_by(&ctrl, values.as_slice(), follower).unwrap_or(ctrl);
    // nothing is wrong with it, as the contract of `id` says
    let _id = wanted.id();
    Ok(wanted)
}

// The default of each control.
fn defaults(alloc: Global, controls: &[Ctrl]) -> Result<Vec<CtrlValue>, AllocError>
    ensures { IfOk result (λ values. values.items ≡ map default_of controls.now) }
{
    controls
        .iter()
        .map(|ctrl| ctrl.default_as_value())
        .collect(alloc)
}
