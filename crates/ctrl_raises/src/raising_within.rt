//! What changes in some clusters alone, and for whom it is raised.

ghost use Rattle.std.specs.Prelude.{◌≡◌, ◌<◌, ◌≤◌, ◌+◌, ℕ, length};
ghost use Rattle.std.specs.List.{All, range_with_len};
ghost use Rattle.std.specs.Option.{option_map};
ghost use Rattle.ctrl_clusters.specs.Moments.{parts, parts_after};
ghost use Rattle.ctrl_events.specs.Events.{events_of};
ghost use Rattle.ctrl_raises.specs.Raises.{changed_between, needing_feedback, payload_at, raised_all};
ghost use Rattle.ctrl_raises.specs.Within.{DifferWithin, IsNextMember};

use crate::raising::raise_one;
use ctrl_calls::Driver;
use ctrl_clusters::{Change, next_number};
use ctrl_events::Events;
use ctrl_handlers::Plan;
use ctrl_types::{FhId, Pair};

/// Raises what changes from one moment to another where nothing outside of some clusters differs: as `raise_between` does, whose every word holds here, but
/// only the members of these clusters are looked at, in the order of control numbers.
///
/// - `change`, `pairs`, `from`, `events`: as of `raise_between`.
/// - `clusters`: the numbers of some clusters, in any order; the caller owes that each is below `Plan::cluster_count`, and that ranges, values and grabs of the
///   members of other clusters are the same at both moments, and none of them is among the pairs.
///
/// It takes no memory and refuses nothing.
pub fn raise_within<D: Driver>(
    change: &Change<D>,
    pairs: &[Pair],
    from: Option<FhId>,
    clusters: &[u32],
    events: &mut Events,
)
    requires numbers { (j : ℕ) → (events_of events.old j).next + length change.now.before.plan.now.controls ≤ 4294967295 }
    requires known { All (λ k. k < length change.now.before.plan.now.clusters) clusters.now }
    requires within { DifferWithin change.now.before.plan.now clusters.now (parts change.now.before) (parts_after change.now) pairs.now }
    ensures { (j : ℕ) → events_of events.new j ≡ raised_all (changed_between change.now.before.plan.now (parts change.now.before) (parts_after change.now) pairs.now) (payload_at change.now.before.plan.now (parts_after change.now))
        (λ c. needing_feedback (option_map (λ fh. fh.0) from) pairs.now (changed_between change.now.before.plan.now (parts change.now.before) (parts_after change.now) pairs.now c) c) j (range_with_len 0 (length change.now.before.plan.now.controls)) (events_of events.old j) }
{
    if events.is_empty() {
        return;
    }
    let end = change.before.plan.control_count();
    let mut next = next_of_clusters(change.before.plan, clusters, 0, end);
    while next < end {
        raise_one(change, pairs, from, next, events);
        next = next_of_clusters(change.before.plan, clusters, next + 1, end);
    }
}

// The least member of some clusters from a number on, or the end, where there is none.
fn next_of_clusters<D: Driver>(plan: &Plan<D>, clusters: &[u32], from: u32, end: u32) -> u32
    requires known { All (λ k. k < length plan.now.clusters) clusters.now }
    requires from { from ≤ end }
    ensures { IsNextMember plan.now clusters.now from end result }
{
    let mut next = end;
    for &cluster in clusters {
        next = next_number(plan.members(cluster), from, next);
    }
    next
}
