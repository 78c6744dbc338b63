ghost use Rattle.std.specs.Prelude.{◌≡◌, ◌<◌, ◌≤◌, ◌+◌, ◌&&◌, true, cond, length, Ok, Err, IfOk, IfErr, OnOk};
ghost use Rattle.ctrl_handlers.specs.Plan.{members};
ghost use Rattle.ctrl_clusters.specs.Rows.{is_grabbed, row_of};
ghost use Rattle.ctrl_clusters.specs.Overlay.{is_touched, names_grabbed, row_after, overlay, refused_clusters};
ghost use Rattle.ctrl_forecast.specs.Boards.{named_clusters};
ghost use Rattle.ctrl_forecast.specs.Touched.{touched_count};

use crate::lists::{ClusterList, ValueRow};
use crate::rising::named_clusters;
use ctrl_calls::{Driver, RowValues, Work};
use ctrl_clusters::{Moment, is_among, validated_row, write_row};
use ctrl_types::{Errno, Pair};
use std::alloc::{AllocError, Global};

/// What pairs make of values (of this project).
#[derive(Drop)]
pub struct Overlaid {
    /// The values afterwards.
    pub values: ValueRow,
    /// The clusters that are refused, which keep their rows.
    pub refused: ClusterList,
}

/// Lays pairs over values, under ranges and grabs (of this project; what a cluster makes of a row is of the Linux driver API, "V4L2 Controls", "Control
/// Clusters"): each cluster with a member among the pairs is overwritten, settled and judged by itself; one that is refused keeps its row.
///
/// - `alloc`: where the answer lies, and what is kept on the way.
/// - `at`: the moment with the values.
/// - `pairs`: what is laid; of a control the last pair counts.
/// - `work`: its count `asked` grows by at most one for each cluster with a member among the pairs.
///
/// The error is that a growth was refused. Nobody is told.
pub fn overlay<D: Driver>(
    alloc: Global,
    at: &Moment<D>,
    pairs: &[Pair],
    work: &mut Work,
) -> Result<Overlaid, AllocError>
    ensures values { IfOk result (λ o. o.values ≡ overlay D.verdict at.now.plan.now at.now.ranges.now at.now.values.now at.now.grabs.now pairs.now) }
    ensures refused { IfOk result (λ o. o.refused ≡ refused_clusters D.verdict at.now.plan.now at.now.ranges.now at.now.values.now at.now.grabs.now pairs.now) }
    ensures long { IfOk result (λ o. length o.values ≡ length at.now.values.now) }
    ensures asked { work.new.asked ≤ work.old.asked + touched_count at.now.plan.now pairs.now }
    ensures grows { work.old.asked ≤ work.new.asked }
    ensures told { work.new.told ≡ work.old.told }
{
    let named = named_clusters(alloc, at.plan, pairs)?;
    overlay_named(alloc, at, pairs, named.as_slice(), work)
}

// The same, where the clusters with a member among the pairs are handed in. The others stay as they are.
pub(crate) fn overlay_named<D: Driver>(
    alloc: Global,
    at: &Moment<D>,
    pairs: &[Pair],
    named: &[u32],
    work: &mut Work,
) -> Result<Overlaid, AllocError>
    requires named { named.now ≡ named_clusters at.now.plan.now pairs.now }
    ensures values { IfOk result (λ o. o.values ≡ overlay D.verdict at.now.plan.now at.now.ranges.now at.now.values.now at.now.grabs.now pairs.now) }
    ensures refused { IfOk result (λ o. o.refused ≡ refused_clusters D.verdict at.now.plan.now at.now.ranges.now at.now.values.now at.now.grabs.now pairs.now) }
    ensures long { IfOk result (λ o. length o.values ≡ length at.now.values.now) }
    ensures asked { work.new.asked ≤ work.old.asked + touched_count at.now.plan.now pairs.now }
    ensures grows { work.old.asked ≤ work.new.asked }
    ensures told { work.new.told ≡ work.old.told }
{
    let mut after = Vec::from_slice(alloc, at.values)?;
    let mut refused = Vec::new(alloc);
    for &cluster in named {
        let mut row = RowValues::zeros(at.plan.members(cluster).len());
        match touched_row(at, pairs, cluster, &mut row, work) {
            Ok(()) => write_row(at.plan, &mut after, cluster, &row),
            Err(_) => refused.push(cluster)?,
        }
    }
    Ok(Overlaid {
        values: ValueRow::from_vec(after),
        refused: ClusterList::from_vec(refused),
    })
}

/// Whether a cluster has a member among pairs, and then makes its row what it is afterwards; one without such a member keeps the row that it has in the values (of this
/// project; the errors are of the Linux userspace API, "ioctl VIDIOC_G_EXT_CTRLS, VIDIOC_S_EXT_CTRLS, VIDIOC_TRY_EXT_CTRLS"). It takes no memory.
///
/// - `at`: the moment with the values.
/// - `pairs`: what is laid; of a control the last pair counts.
/// - `cluster`: the number of a cluster; the caller owes one below `Plan::cluster_count`.
/// - `row`: any row of the cluster's length. It says nothing where no member is among the pairs, nor after an error.
/// - `work`: its count `asked` grows by at most one, and by none where no member is among the pairs.
///
/// The error is why the cluster is refused: EBUSY (16) where a member among the pairs is grabbed, or what the validator answers. Nobody is told.
pub fn row_after<D: Driver>(
    at: &Moment<D>,
    pairs: &[Pair],
    cluster: u32,
    row: &mut RowValues,
    work: &mut Work,
) -> Result<bool, Errno>
    requires cluster { cluster < length at.now.plan.now.clusters }
    requires row { length row.old ≡ length (members at.now.plan.now cluster) }
    ensures ok { IfOk result (λ is_settled. row_after D.verdict at.now.plan.now at.now.ranges.now at.now.values.now at.now.grabs.now pairs.now cluster ≡ Ok (cond is_settled row.new (row_of at.now.values.now (members at.now.plan.now cluster)))) }
    ensures err { IfErr result (λ errno. row_after D.verdict at.now.plan.now at.now.ranges.now at.now.values.now at.now.grabs.now pairs.now cluster ≡ Err errno) }
    ensures long { length row.new ≡ length (members at.now.plan.now cluster) }
    ensures asked { work.new.asked ≤ work.old.asked + cond (is_touched pairs.now (members at.now.plan.now cluster)) 1 0 }
    ensures grows { work.old.asked ≤ work.new.asked }
    ensures told { work.new.told ≡ work.old.told }
{
    if !is_touched(pairs, at.plan.members(cluster)) {
        return Ok(false);
    }
    match touched_row(at, pairs, cluster, row, work) {
        Ok(()) => Ok(true),
        Err(errno) => Err(errno),
    }
}

// Makes the row of a cluster with a member among the pairs what it is then; or answers why it is refused, and the row says nothing then.
fn touched_row<D: Driver>(
    at: &Moment<D>,
    pairs: &[Pair],
    cluster: u32,
    row: &mut RowValues,
    work: &mut Work,
) -> Result<(), Errno>
    requires cluster { cluster < length at.now.plan.now.clusters }
    requires touched { is_touched pairs.now (members at.now.plan.now cluster) ≡ true }
    requires row { length row.old ≡ length (members at.now.plan.now cluster) }
    ensures ok { OnOk result (row_after D.verdict at.now.plan.now at.now.ranges.now at.now.values.now at.now.grabs.now pairs.now cluster ≡ Ok row.new) }
    ensures err { IfErr result (λ errno. row_after D.verdict at.now.plan.now at.now.ranges.now at.now.values.now at.now.grabs.now pairs.now cluster ≡ Err errno) }
    ensures long { length row.new ≡ length (members at.now.plan.now cluster) }
    ensures asked { work.new.asked ≤ work.old.asked + 1 }
    ensures grows { work.old.asked ≤ work.new.asked }
    ensures told { work.new.told ≡ work.old.told }
{
    // The count is read, so that it is known to fit its type.
    let _asked = work.asked;
    if names_grabbed(at.grabs, pairs, at.plan.members(cluster)) {
        return Err(Errno::EBUSY);
    }
    validated_row(at, cluster, pairs, row, work)
}

/// Whether some control is among pairs (of this project). It takes no memory.
///
/// - `pairs`: any pairs.
/// - `members`: the numbers of the controls.
pub fn is_touched(pairs: &[Pair], members: &[u32]) -> bool
    ensures { result ≡ is_touched pairs.now members.now }
{
    members.iter().any(|member| is_among(pairs, *member))
}

// Whether some member that is among the pairs is grabbed.
fn names_grabbed(grabs: &[bool], pairs: &[Pair], members: &[u32]) -> bool
    ensures { result ≡ names_grabbed grabs.now pairs.now members.now }
{
    members.iter().any(|member| is_among(pairs, *member) && is_grabbed(grabs, *member))
}

fn is_grabbed(grabs: &[bool], control: u32) -> bool
    ensures { result ≡ is_grabbed grabs.now control }
{
    grabs.get(control as usize).copied().unwrap_or(false)
}
