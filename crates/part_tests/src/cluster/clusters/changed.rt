// Rows that are written, and what notifiers say at first.
use super::planning::{Made, Named, plan_of};
use super::rows::{Two, are_rows, rows_of};
use crate::cluster::common::controls_of;
use crate::cluster::driver::Strict;
use crate::values::{are_numbers, values_of};
use ctrl_calls::Work;
use ctrl_clusters::{first_words, write_row, write_rows};
use ctrl_handlers::Plan;
use ctrl_types::CtrlValue;
use std::sync::Arc;
use std::sync::atomic::{AtomicU64, Ordering};
use std::test::Fail;

// A plan whose clusters but the last have notifiers, and what its values are.
const NOTIFIED: &[Made] = &[
    Made::Byte,
    Made::Byte,
    Made::Button,
    Made::Acting,
    Made::Byte,
];

const HEARD: &[Named] = &[
    Named::Heard(&[1, 0]),
    Named::Heard(&[2]),
    Named::Heard(&[3]),
    Named::Plain(&[4]),
];

const VALUES: &[i64] = &[10, 11, 0, 13, 14];

// Writes the rows of two clusters, and to others one row after another.
fn are_written(
    plan: &Plan<Strict>,
    values: &mut Vec<CtrlValue>,
    others: &mut Vec<CtrlValue>,
    two: Two,
) -> bool {
    let Some(rows) = rows_of(two) else {
        return false;
    };
    if values.len() != plan.controls().len() || !are_rows(plan, &rows) {
        return false;
    }
    write_rows(plan, values, &rows);
    for new in &rows {
        if others.len() != plan.controls().len()
            || new.cluster >= plan.cluster_count()
            || new.row.len() != plan.members(new.cluster).len()
        {
            return false;
        }
        write_row(plan, others, new.cluster, &new.row);
    }
    true
}

const TWO: Two = &[(2, &[23]), (0, &[21, 20])];

const WRITTEN: &[i64] = &[20, 21, 0, 23, 14];

#[test]
fn rows_are_written(rt: HostRuntime) -> Result<(), Fail> {
    let alloc = rt.alloc();
    let plan = plan_of(alloc, NOTIFIED, HEARD, &mut Vec::new(alloc))?;
    let mut values = values_of(alloc, VALUES)?;
    let mut others = values_of(alloc, VALUES)?;
    let are_written = are_written(&plan, &mut values, &mut others, TWO);
    assert!(rt;
        are_written
            && are_numbers(values.as_slice(), WRITTEN)
            && are_numbers(others.as_slice(), WRITTEN)
    );
    Ok(())
}

fn are_counts(heard: &[Arc<AtomicU64>], counts: &[u64]) -> bool {
    for (count, own) in counts.iter().zip(heard) {
        if own.load(Ordering::SeqCst) != *count {
            return false;
        }
    }
    heard.len() == counts.len()
}

// Each notifier is called once, in rising number of the clusters.
#[test]
fn first_words_of_notifiers(rt: HostRuntime) -> Result<(), Fail> {
    let alloc = rt.alloc();
    let mut heard = Vec::new(alloc);
    let plan = plan_of(alloc, NOTIFIED, HEARD, &mut heard)?;
    let controls = controls_of(alloc, &plan, VALUES)?;
    let mut work = Work::new();
    let words = first_words(alloc, &controls.at(&plan), &mut work)?;
    let are_words = words.as_slice() == [11_010, 1_000, 2_013, 0].as_slice();
    assert!(rt; are_words && are_counts(heard.as_slice(), &[1, 1, 1]) && work.told == 3);
    Ok(())
}
