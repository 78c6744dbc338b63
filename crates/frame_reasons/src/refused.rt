//! Why clusters of queued frames will be refused.

ghost use Rattle.std.specs.Prelude.{◌≡◌, ◌<◌, ◌≤◌, length};
ghost use Rattle.std.specs.List.{All};
ghost use Rattle.frame_reasons.specs.Refused.{first_grabbed, frame_reason, grabs_in, ranges_in, reason_of_row, reason_over, value_taken, values_before_place, wanted};

use ctrl_calls::{ClusterRow, Driver};
use ctrl_clusters::is_among;
use ctrl_settle::settle_value;
use ctrl_types::{Check, CtrlValue, Pair, last_value};
use device_state::Device;

/// Why a cluster is refused where pairs are laid over values.
#[derive(Clone, Copy, Debug, PartialEq, Eq)]
pub enum ClusterReason {
    /// The control of this number is asked for, and grabbed.
    Grabbed(u32),
    /// The control of this number would have this value, and takes none for it, by this check.
    ValueNotTaken {
        control: u32,
        value: CtrlValue,
        check: Check,
    },
    /// The cluster's validator doesn't take this row of its members' values, in member order.
    RowNotTaken(ClusterRow),
}

/// Why a cluster will be refused in a queued frame, under the present ranges and grabs and over the values that the frame before it leaves: the first member
/// that its request asks for and that is grabbed; else the first member that takes no value for what it would have; else the row that settled, which its
/// validator doesn't take. None where no frame is queued there, or the cluster won't be refused in it. Of the first frame it is why its begin will
/// refuse the cluster.
///
/// - `device`: nothing of it is changed, `work` included; no validator is asked.
/// - `place`: any place of the queue, from 0.
/// - `cluster`: the number of any cluster, there or not.
///
/// It takes no memory and refuses nothing.
pub fn frame_reason<D: Driver>(
    device: &Device<D>,
    place: usize,
    cluster: u32,
) -> Option<ClusterReason>
    ensures { result ≡ frame_reason D.verdict device.now place cluster }
{
    let row = device.row(place)?;
    if !row.refused.contains(&cluster) {
        return None;
    }
    let pairs = match device.asked(row.request) {
        Ok(pairs) => pairs,
        // a queued request is there
        Err(_) => unreachable!(),
    };
    let values = values_before(device, place);
    Some(cluster_reason(device, values, pairs, cluster))
}

// The values before the frame at a place of the queue.
fn values_before<D: Driver>(device: &Device<D>, place: usize) -> &[CtrlValue]
    ensures values { result.now ≡ values_before_place D.verdict device.now place }
    ensures long { length result.now ≡ length device.now.plan.controls }
{
    let Some(last) = place.checked_sub(1) else {
        return device.values();
    };
    match device.row(last) {
        Some(row) => row.values,
        None => device.values(),
    }
}

// Why a cluster is refused where pairs are laid over values, once it is.
fn cluster_reason<D: Driver>(
    device: &Device<D>,
    values: &[CtrlValue],
    pairs: &[Pair],
    cluster: u32,
) -> ClusterReason
    requires cluster { cluster < length device.now.plan.clusters }
    requires values { length values.now ≡ length device.now.plan.controls }
    ensures { result ≡ reason_over device.now values.now pairs.now cluster }
{
    let members = device.plan().members(cluster);
    match first_grabbed(device, pairs, members) {
        Some(member) => ClusterReason::Grabbed(member),
        None => settling_reason(device, values, pairs, members),
    }
}

// The first of some members that is among the pairs, and grabbed.
#[tactic(auto, using(ctrl_handlers::proofs::ListLemmas::find_drop))]
fn first_grabbed<D: Driver>(device: &Device<D>, pairs: &[Pair], members: &[u32]) -> Option<u32>
    requires { All (λ c. c < length device.now.plan.controls) members.now }
    ensures { result ≡ first_grabbed (grabs_in device.now) pairs.now members.now }
{
    for &member in members {
        if is_among(pairs, member) && device.is_grabbed(member) {
            return Some(member);
        }
    }
    None
}

// The first of some members that takes no value for what it would have; where each takes one, the row of these.
fn settling_reason<D: Driver>(
    device: &Device<D>,
    values: &[CtrlValue],
    pairs: &[Pair],
    members: &[u32],
) -> ClusterReason
    requires known { All (λ c. c < length device.now.plan.controls) members.now }
    requires few { length members.now ≤ 8 }
    requires values { length values.now ≡ length device.now.plan.controls }
    ensures { result ≡ reason_of_row device.now values.now pairs.now members.now }
{
    let mut row = ClusterRow::zeros(members.len());
    for (place, &member) in members.iter().enumerate() {
        match taken(device, values, pairs, member) {
            Ok(value) => row.set(place, value),
            Err(reason) => return reason,
        }
    }
    ClusterReason::RowNotTaken(row)
}

// What a control takes for what it would have; the error is why it takes nothing.
fn taken<D: Driver>(
    device: &Device<D>,
    values: &[CtrlValue],
    pairs: &[Pair],
    control: u32,
) -> Result<CtrlValue, ClusterReason>
    requires control { control < length device.now.plan.controls }
    requires values { length values.now ≡ length device.now.plan.controls }
    ensures { result ≡ value_taken (ranges_in device.now) values.now pairs.now control }
{
    match settle_value(device.range(control), &wanted(values, pairs, control)) {
        Ok(value) => Ok(value),
        Err(check) => Err(ClusterReason::ValueNotTaken {
            control,
            value: wanted(values, pairs, control),
            check,
        }),
    }
}

// What a control would have.
fn wanted(values: &[CtrlValue], pairs: &[Pair], control: u32) -> CtrlValue
    requires { control < length values.now }
    ensures { result ≡ wanted values.now pairs.now control }
{
    match last_value(pairs, control) {
        Some(value) => value,
        None => values[control as usize],
    }
}
