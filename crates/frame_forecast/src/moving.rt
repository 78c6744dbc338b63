//! What a frame's pairs can move.

ghost use Rattle.std.specs.Prelude.{◌≡◌, ◌<◌, ◌++◌, ◌∷◌, [], cond, not, length, nat_lt, true, IfOk, OnOk};
ghost use Rattle.std.specs.List.{filter, range_with_len};
ghost use Rattle.range_followers.specs.Followed.{each_followed, passes};
ghost use Rattle.ctrl_handlers.specs.Plan.{IsFinished, cluster_of};
ghost use Rattle.ctrl_clusters.specs.Following.{is_touched_in as touched_in};
ghost use Rattle.frame_forecast.specs.Sparse.{can_move as moves, follows_touched as follows_one};

use ctrl_calls::Driver;
use ctrl_forecast::is_touched;
use ctrl_handlers::{Follower, Plan, Source};
use ctrl_types::Pair;
use std::alloc::{AllocError, Global};

// Whether the cluster of a control has a member among pairs.
fn is_touched_in<D: Driver>(plan: &Plan<D>, pairs: &[Pair], control: u32) -> bool
    requires { control < length plan.now.controls }
    ensures { result ≡ touched_in plan.now pairs.now (cluster_of plan.now control) }
{
    is_touched(pairs, plan.members(plan.cluster_of(control)))
}

// Whether the cluster of what is followed has none.
fn is_untouched_source<D: Driver>(plan: &Plan<D>, pairs: &[Pair], source: Option<Source>) -> bool
    requires { passes (λ s. nat_lt s (length plan.now.controls)) source ≡ true }
    ensures { result ≡ passes (λ s. not (touched_in plan.now pairs.now (cluster_of plan.now s))) source }
{
    match source {
        Some(source) => !is_touched_in(plan, pairs, source.control),
        None => true,
    }
}

// Whether what a control follows is in a cluster that has one.
fn follows_touched<D: Driver>(plan: &Plan<D>, pairs: &[Pair], follower: &Follower) -> bool
    requires { each_followed (λ s. nat_lt s (length plan.now.controls)) follower.now ≡ true }
    ensures { result ≡ not (each_followed (λ s. not (touched_in plan.now pairs.now (cluster_of plan.now s))) follower.now) }
{
    !(is_untouched_source(plan, pairs, follower.minimum)
        && is_untouched_source(plan, pairs, follower.maximum)
        && is_untouched_source(plan, pairs, follower.default_value.source()))
}

// Whether pairs can move a control.
fn can_move<D: Driver>(plan: &Plan<D>, pairs: &[Pair], control: u32) -> bool
    requires plan { IsFinished plan.now }
    requires control { control < length plan.now.controls }
    ensures { result ≡ moves plan.now pairs.now control }
{
    if is_touched_in(plan, pairs, control) {
        return true;
    }
    match plan.follower(control) {
        Some(follower) => follows_touched(plan, pairs, &follower),
        None => false,
    }
}

// Adds a control to others, where pairs can move it.
fn push_moved<D: Driver>(
    moved: &mut Vec<u32>,
    plan: &Plan<D>,
    pairs: &[Pair],
    control: u32,
) -> Result<(), AllocError>
    requires plan { IsFinished plan.now }
    requires control { control < length plan.now.controls }
    ensures { OnOk result (moved.new.items ≡ moved.old.items ++ cond (moves plan.now pairs.now control) (control ∷ []) []) }
{
    if can_move(plan, pairs, control) {
        moved.push(control)?;
    }
    Ok(())
}

/// The controls that pairs can move, in rising order. The error is that a growth was refused.
pub(crate) fn moved_controls<D: Driver>(
    alloc: Global,
    plan: &Plan<D>,
    pairs: &[Pair],
) -> Result<Vec<u32>, AllocError>
    requires { IsFinished plan.now }
    ensures { IfOk result (λ moved. moved.items ≡ filter (moves plan.now pairs.now) (range_with_len 0 (length plan.now.controls))) }
{
    let mut moved = Vec::new(alloc);
    for control in 0..plan.control_count() {
        push_moved(&mut moved, plan, pairs, control)?;
    }
    Ok(moved)
}
