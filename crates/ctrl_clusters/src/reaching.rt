//! Which clusters a change of some can change.

ghost use Rattle.std.specs.Prelude.{◌≡◌, ◌<◌, length, true, OnOk};
ghost use Rattle.std.specs.List.{All};
ghost use Rattle.ctrl_clusters.specs.Following.{reached_clusters};
ghost use Rattle.ctrl_clusters.specs.Rising.{with_all, with_or_without};

use crate::rising::mark;
use ctrl_calls::Driver;
use ctrl_handlers::Plan;
use std::alloc::AllocError;

/// Puts the clusters that a change of some can change in place of those that are there, in rising order: these, and on and on each with a member that follows a member
/// of one of them (of this project). The error is that a growth was refused; nothing is known of what is there then.
///
/// - `plan`: what the device is built of.
/// - `clusters`: the numbers of some clusters, in any order; the caller owes that each is below `Plan::cluster_count`.
/// - `reached`: any numbers.
pub fn reach<D: Driver>(
    plan: &Plan<D>,
    clusters: &[u32],
    reached: &mut Vec<u32>,
) -> Result<(), AllocError>
    requires { All (λ k. k < length plan.now.clusters) clusters.now }
    ensures { OnOk result (reached.new.items ≡ reached_clusters plan.now clusters.now) }
{
    reached.clear();
    for &cluster in clusters {
        add(reached, cluster)?;
        add_all(reached, plan.reached(cluster))?;
    }
    Ok(())
}

// Puts some numbers among rising ones, each where it isn't there yet.
fn add_all(numbers: &mut Vec<u32>, others: &[u32]) -> Result<(), AllocError>
    ensures { OnOk result (numbers.new.items ≡ with_all others.now numbers.old.items) }
{
    for &other in others {
        add(numbers, other)?;
    }
    Ok(())
}

// Puts a number among rising ones, where it isn't there yet.
fn add(numbers: &mut Vec<u32>, number: u32) -> Result<(), AllocError>
    ensures { OnOk result (numbers.new.items ≡ with_or_without number true numbers.old.items) }
{
    numbers.reserve(1)?;
    mark(numbers, number, true);
    Ok(())
}
