//! Rows that are written into a device's values.

ghost use Rattle.std.specs.Prelude.{◌≡◌, ◌<◌, ◌≤◌, length, slice_set};
ghost use Rattle.std.specs.List.{All};
ghost use Rattle.ctrl_calls.specs.declared.row.TheConstants.{MAX_MEMBERS};
ghost use Rattle.ctrl_clusters.specs.Rows.{value_at, row_of};
ghost use Rattle.ctrl_handlers.specs.Plan.{members};
ghost use Rattle.ctrl_clusters.specs.NewRows.{AreNewRows, one_row, written, with_row};

use crate::new_row::NewRow;
use ctrl_calls::{ClusterRow, Driver, MAX_MEMBERS, RowValues};
use ctrl_handlers::Plan;
use ctrl_types::CtrlValue;

/// The row of some controls among a device's values, which may be of any form, as a closure is told it (Linux driver API, "V4L2 Controls", "Control
/// Clusters").
///
/// - `values`: a value for each control, in the order of their numbers.
/// - `members`: the numbers of at most eight controls; the caller owes that each has a value.
///
/// It takes no memory and refuses nothing.
pub fn present_row(values: &[CtrlValue], members: &[u32]) -> ClusterRow
    requires few { length members.now ≤ MAX_MEMBERS }
    requires known { All (λ c. c < length values.now) members.now }
    ensures { result ≡ row_of values.now members.now }
{
    let mut row = ClusterRow::zeros(members.len());
    read_row(values, members, &mut row);
    row
}

/// Puts the row of some controls among a device's values where another row stood (Linux driver API, "V4L2 Controls", "Control Clusters").
///
/// - `values`: a value for each control, in the order of their numbers.
/// - `members`: the numbers of at most eight controls; the caller owes that each has a value.
/// - `row`: any row of as many values, which the caller owes; their row then.
///
/// It takes no memory and refuses nothing.
pub fn read_row(values: &[CtrlValue], members: &[u32], row: &mut ClusterRow)
    requires known { All (λ c. c < length values.now) members.now }
    requires long { length row.old ≡ length members.now }
    ensures { row.new ≡ row_of values.now members.now }
{
    for (place, &member) in members.iter().enumerate() {
        row.set(place, values[member as usize]);
    }
}

/// Writes the rows that some clusters get into a device's values (Linux driver API, "V4L2 Controls", "Control Clusters"): their members have
/// the values of their rows then, every other control keeps its own.
///
/// - `plan`: what the device is built of.
/// - `values`: a value for each control, in the order of their numbers; the caller owes exactly as many.
/// - `rows`: the rows; the caller owes that each is of another cluster of the plan, and has a value for each member.
///
/// It takes no memory and refuses nothing.
pub fn write_rows<D: Driver>(plan: &Plan<D>, values: &mut Vec<CtrlValue>, rows: &[NewRow])
    requires values { length values.old.items ≡ length plan.now.controls }
    requires rows { AreNewRows plan.now rows.now }
    ensures { values.new.items ≡ written plan.now values.old.items rows.now }
{
    for new in rows {
        write_members(values, plan.members(new.cluster), &new.row);
    }
}

/// Writes the row that one cluster gets into a device's values, as `write_rows` does of several (Linux driver API, "V4L2 Controls", "Control Clusters").
///
/// - `plan`: what the device is built of.
/// - `values`: a value for each control, in the order of their numbers; the caller owes exactly as many.
/// - `cluster`: the number of a cluster; the caller owes one below `Plan::cluster_count`.
/// - `row`: a value for each of its members; the caller owes exactly as many.
///
/// It takes no memory and refuses nothing.
pub fn write_row<D: Driver>(
    plan: &Plan<D>,
    values: &mut Vec<CtrlValue>,
    cluster: u32,
    row: &RowValues,
)
    requires values { length values.old.items ≡ length plan.now.controls }
    requires cluster { cluster < length plan.now.clusters }
    requires row { length row.now ≡ length (members plan.now cluster) }
    ensures { values.new.items ≡ written plan.now values.old.items (one_row cluster row.now) }
{
    write_members(values, plan.members(cluster), row);
}

// Gives the members of a cluster the values of a row.
#[tactic(auto, using(crate::proofs::NewRowLemmas::write_next))]
fn write_members(values: &mut Vec<CtrlValue>, members: &[u32], row: &RowValues)
    requires known { All (λ c. c < length values.old.items) members.now }
    requires long { length row.now ≡ length members.now }
    ensures { values.new.items ≡ with_row values.old.items members.now row.now }
{
    for (place, &member) in members.iter().enumerate() {
        write_at(values, member, row, place);
    }
}

// Gives a member its value of a row.
fn write_at(values: &mut Vec<CtrlValue>, member: u32, row: &RowValues, place: usize)
    requires known { member < length values.old.items }
    requires within { place < length row.now }
    ensures { values.new.items ≡ slice_set values.old.items member (value_at row.now place) }
{
    values[member as usize] = row.value(place);
}
