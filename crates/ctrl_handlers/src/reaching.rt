//! Which clusters a change reaches on from a cluster.

ghost use Rattle.std.specs.Prelude.{◌≡◌, ◌<◌, ◌++◌, ℕ, [], true, length, nat_lt, slice_index_or, IfOk, OnOk};
ghost use Rattle.std.specs.List.{All};
ghost use Rattle.ctrl_handlers.specs.Plan.{AreAmong, IsAmong, link_from, links, links_of};
ghost use Rattle.range_followers.specs.Followed.{passes};
ghost use Rattle.reach_table.specs.Reached.{others_reached};

use range_followers::{Follower, Source};
use reach_table::ReachTable;
use std::alloc::{AllocError, Global};

/// What is reached on from each cluster.
///
/// - `followers`: how ranges follow.
/// - `places`: the cluster of each control.
/// - `count`: how many clusters there are.
pub(crate) fn reach_table(
    alloc: Global,
    followers: &[Follower],
    places: &[u32],
    count: u32,
) -> Result<ReachTable, AllocError>
    requires followers { AreAmong (length places.now) followers.now }
    requires places { All (λ k. k < count) places.now }
    ensures { IfOk result (λ table. (k : ℕ) → k < count → slice_index_or table k [] ≡ others_reached count (links places.now followers.now) k) }
{
    let mut all = Vec::new(alloc);
    for follower in followers {
        push_links(&mut all, places, follower)?;
    }
    ReachTable::build(alloc, count, all.as_slice())
}

// Adds the links of a follower.
fn push_links(
    all: &mut Vec<(u32, u32)>,
    places: &[u32],
    follower: &Follower,
) -> Result<(), AllocError>
    requires { IsAmong (length places.now) follower.now }
    ensures { OnOk result (all.new.items ≡ all.old.items ++ links_of places.now follower.now) }
{
    push_link(all, places, follower.control, follower.minimum)?;
    push_link(all, places, follower.control, follower.maximum)?;
    push_link(
        all,
        places,
        follower.control,
        follower.default_value.source(),
    )
}

// Adds the link from what a control follows to it, where it follows something.
fn push_link(
    all: &mut Vec<(u32, u32)>,
    places: &[u32],
    control: u32,
    source: Option<Source>,
) -> Result<(), AllocError>
    requires control { control < length places.now }
    requires source { passes (λ s. nat_lt s (length places.now)) source ≡ true }
    ensures { OnOk result (all.new.items ≡ all.old.items ++ link_from places.now control source) }
{
    if let Some(source) = source {
        all.push((places[source.control as usize], places[control as usize]))?;
    }
    Ok(())
}
