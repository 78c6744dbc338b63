//! The clusters that pairs name, in rising order.

ghost use Rattle.std.specs.Prelude.{◌≡◌, IfOk};
ghost use Rattle.ctrl_forecast.specs.Boards.{named_clusters};

use ctrl_calls::Driver;
use ctrl_clusters::mark;
use ctrl_handlers::Plan;
use ctrl_types::Pair;
use std::alloc::{AllocError, Global};

/// The clusters with a member among pairs, rising (of this project). Each pair's cluster is looked up; one that names no control is in none.
///
/// - `alloc`: where they lie.
/// - `plan`: what the device is built of.
/// - `pairs`: any pairs.
///
/// The error is that a growth was refused.
pub fn named_clusters<D: Driver>(
    alloc: Global,
    plan: &Plan<D>,
    pairs: &[Pair],
) -> Result<Vec<u32>, AllocError>
    ensures { IfOk result (λ named. named.items ≡ named_clusters plan.now pairs.now) }
{
    let count = plan.controls().len();
    let mut named = Vec::new(alloc);
    for pair in pairs {
        let control = pair.control;
        if (control as usize) < count {
            named.reserve(1)?;
            mark(&mut named, plan.cluster_of(control), true);
        }
    }
    Ok(named)
}
