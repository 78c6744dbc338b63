// What clusters of one array make of values: bytes, bytes of another length, and a number.
use super::planning::{Made, Named, plan_of};
use super::rows::is_work;
use crate::cluster::driver::Strict;
use ctrl_calls::{RowValues, Work};
use ctrl_clusters::{Controls, Moment, validated_row};
use ctrl_types::{ByteRow, CtrlValue, Errno, Pair};
use std::alloc::Global;
use std::test::Fail;

// Cluster 0 has a validator that takes each row, 1 to 4 have such as take another in its place, 5 one that refuses, and 6 none.
const NAMED: &[Named] = &[
    Named::Judged(&[0], 0),
    Named::Judged(&[1], 11),
    Named::Judged(&[2], 12),
    Named::Judged(&[3], 13),
    Named::Judged(&[4], 14),
    Named::Judged(&[5], 7),
    Named::Plain(&[6]),
];

// A cluster, what is asked of its array, what comes of it, and how many validators are asked.
type Case = (u32, &'static [u8], Result<&'static [u8], Errno>, u64);

const CASES: &[Case] = &[
    (0, &[5, 14], Ok(&[10, 10]), 1),
    (0, &[5], Err(Errno::EINVAL), 0),
    (0, &[5, 14, 0], Err(Errno::EINVAL), 0),
    // other bytes, such as the array doesn't take, another length, and a number
    (1, &[5, 14], Ok(&[10, 20]), 1),
    (2, &[5, 14], Err(Errno::EINVAL), 1),
    (3, &[5, 14], Err(Errno::EINVAL), 1),
    (4, &[5, 14], Err(Errno::EINVAL), 1),
    (5, &[5, 14], Err(Errno::EBUSY), 1),
    (6, &[255, 0], Ok(&[250, 0]), 0),
    (6, &[], Err(Errno::EINVAL), 0),
];

fn bytes(row: &[u8]) -> Option<CtrlValue> {
    match ByteRow::from_slice(row) {
        Some(row) => Some(CtrlValue::Bytes(row)),
        None => None,
    }
}

// What the only member of a cluster becomes, where a value is asked of it, and how many validators are asked.
fn becomes(
    at: &Moment<Strict>,
    cluster: u32,
    value: CtrlValue,
    asked: u64,
) -> Result<Option<CtrlValue>, Errno> {
    if cluster >= at.plan.cluster_count() {
        return Ok(None);
    }
    let pairs = [Pair {
        control: cluster,
        value,
    }];
    let mut work = Work::new();
    let mut row = RowValues::zeros(at.plan.members(cluster).len());
    validated_row(at, cluster, pairs.as_slice(), &mut row, &mut work)?;
    Ok(if is_work(&work, asked, 0) {
        row.to_cluster_row().values().first().copied()
    } else {
        None
    })
}

fn is_answered(answer: Result<Option<CtrlValue>, Errno>, want: Result<&[u8], Errno>) -> bool {
    match (answer, want) {
        (Ok(Some(value)), Ok(row)) => bytes(row) == Some(value),
        (Err(errno), Err(wanted)) => errno == wanted,
        _ => false,
    }
}

#[test]
fn clusters_of_an_array(rt: HostRuntime) -> Result<(), Fail> {
    let alloc = rt.alloc();
    let plan = plan_of(alloc, &[Made::Array; 7], NAMED, &mut Vec::new(alloc))?;
    let controls = Controls::of_plan(alloc, &plan)?;
    let at = controls.at(&plan);
    for &(cluster, asked, want, count) in CASES {
        let Some(value) = bytes(asked) else {
            return Err(Fail::new("at most 32 bytes"));
        };
        let answer = becomes(&at, cluster, value, count);
        assert!(rt; is_answered(answer, want), "cluster {cluster} {asked:?}");
    }
    let number = becomes(&at, 0, CtrlValue::Number(5), 0);
    assert!(rt; number == Err(Errno::EINVAL));
    Ok(())
}
