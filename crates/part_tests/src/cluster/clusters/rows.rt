// Rows of clusters as data, and whether they are those of a plan.
ghost use Rattle.std.specs.Prelude.{◌≡◌, ◌<◌, length, IsTrue};
ghost use Rattle.ctrl_handlers.specs.Plan.{members};
ghost use Rattle.ctrl_clusters.specs.NewRows.{AreNewRows};

use crate::cluster::driver::Strict;
use crate::values::{is_row, row_of};
use ctrl_calls::{RowValues, Work};
use ctrl_clusters::{NewRow, NewRows, member_value, next_number};
use ctrl_handlers::Plan;
use ctrl_types::CtrlValue;
use std::alloc::{AllocError, Global};

/// Whether so many validators were asked, and so many notifiers told.
pub fn is_work(work: &Work, asked: u64, told: u64) -> bool {
    work.asked == asked && work.told == told
}

/// Rows that two clusters get.
pub type Two = &'static [(u32, &'static [i64])];

/// The rows of two clusters; none where there are others than two.
pub fn rows_of(two: Two) -> Option<[NewRow; 2]> {
    let &[(one, first), (other, second)] = two else {
        return None;
    };
    let first = NewRow {
        cluster: one,
        row: row_of(first)?,
    };
    let second = NewRow {
        cluster: other,
        row: row_of(second)?,
    };
    Some([first, second])
}

/// The rows, each to be looked up under its cluster, which is one of so many. They lie where a row lay before.
pub fn kept_rows(alloc: Global, clusters: u32, two: Two) -> Result<Option<NewRows>, AllocError> {
    let Some(two) = rows_of(two) else {
        return Ok(None);
    };
    let [first, second] = two;
    if first.cluster >= clusters || second.cluster >= clusters {
        return Ok(None);
    }
    let mut rows = NewRows::new(alloc);
    rows.clear_for(1)?;
    rows.push_reserved(NewRow {
        cluster: first.cluster,
        row: RowValues::zeros(1),
    });
    rows.clear_for(2)?;
    rows.push_reserved(first);
    if rows.among(second.cluster).is_some() {
        return Ok(None);
    }
    rows.push_reserved(second);
    Ok(Some(rows))
}

/// Whether the rows are of two clusters of the plan, with a value for each member.
pub fn are_rows(plan: &Plan<Strict>, rows: &[NewRow]) -> bool
    ensures { IsTrue result → AreNewRows plan.now rows.now }
{
    match rows {
        [one, other] => one.cluster != other.cluster && fits(plan, one) && fits(plan, other),
        _ => false,
    }
}

fn fits(plan: &Plan<Strict>, new: &NewRow) -> bool
    ensures { IsTrue result → (new.now.cluster < length plan.now.clusters) × (length new.now.row ≡ length (members plan.now new.now.cluster)) }
{
    new.cluster < plan.cluster_count() && new.row.len() == plan.members(new.cluster).len()
}

const TWO: Two = &[(7, &[1, 2]), (3, &[5])];

// What a row gives a member, the row of a cluster, and which cluster comes next from a number on.
fn are_found(alloc: Global) -> Result<bool, AllocError> {
    let Some(rows) = kept_rows(alloc, 8, TWO)? else {
        return Ok(false);
    };
    let Some(row) = rows.among(7) else {
        return Ok(false);
    };
    let is_given = is_row(row, &[1, 2])
        && row.len() == 2
        && member_value(&[4, 2], row, 2) == Some(CtrlValue::Number(2));
    Ok(is_given && next_number(rows.clusters(), 4, 8) == 7)
}

#[test]
fn rows_among_others(rt: HostRuntime) -> Result<(), AllocError> {
    assert!(rt; are_found(rt.alloc())?);
    Ok(())
}
