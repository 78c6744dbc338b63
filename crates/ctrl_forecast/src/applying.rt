//! The pairs that come into force where pairs are laid over values.

ghost use Rattle.std.specs.Prelude.{◌≡◌, ◌<◌, length, nat_eq, IfOk};
ghost use Rattle.std.specs.List.{All, list_any};
ghost use Rattle.ctrl_handlers.specs.Plan.{cluster_of};
ghost use Rattle.ctrl_clusters.specs.Rows.{value_at};
ghost use Rattle.ctrl_forecast.specs.Applied.{is_refused_in, applied_pairs};

use ctrl_calls::Driver;
use ctrl_handlers::Plan;
use ctrl_types::{CtrlValue, Pair};
use std::alloc::{AllocError, Global};

/// The pairs that are applied where pairs are laid over values (of this project): those of clusters that aren't refused, in their order,
/// each with the value that its control has afterwards.
///
/// - `alloc`: where the answer lies.
/// - `plan`: what the device is built of.
/// - `values`: the values afterwards; the caller owes one for each control.
/// - `refused`: the clusters that are refused.
/// - `pairs`: what was laid; the caller owes that each names a control of the plan.
///
/// The error is that a growth was refused.
pub fn applied<D: Driver>(
    alloc: Global,
    plan: &Plan<D>,
    values: &[CtrlValue],
    refused: &[u32],
    pairs: &[Pair],
) -> Result<Vec<Pair>, AllocError>
    requires values { length values.now ≡ length plan.now.controls }
    requires pairs { All (λ p. p.control < length plan.now.controls) pairs.now }
    ensures { IfOk result (λ a. a.items ≡ applied_pairs plan.now values.now refused.now pairs.now) }
{
    let mut applied = Vec::new(alloc);
    for pair in pairs {
        let control = pair.control;
        if !is_refused(plan, refused, control) {
            applied.push(pair_after(values, control))?;
        }
    }
    Ok(applied)
}

// A control with the value that it has afterwards.
fn pair_after(values: &[CtrlValue], control: u32) -> Pair
    requires { control < length values.now }
    ensures { result ≡ record { control = control; value = value_at values.now control } }
{
    Pair {
        control,
        value: values[control as usize],
    }
}

// Whether the cluster of a control is refused.
fn is_refused<D: Driver>(plan: &Plan<D>, refused: &[u32], control: u32) -> bool
    requires { control < length plan.now.controls }
    ensures { result ≡ is_refused_in refused.now (cluster_of plan.now control) }
{
    is_one_of(refused, plan.cluster_of(control))
}

// Whether a cluster is one of some.
pub(crate) fn is_one_of(clusters: &[u32], cluster: u32) -> bool
    ensures { result ≡ list_any (nat_eq cluster) clusters.now }
{
    clusters.iter().any(|other| cluster == *other)
}
