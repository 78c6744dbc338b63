// What clusters make of rows, what lies over values, and which members are inactive.
use super::looks::{Look, holds};
use super::planning::{Made, Named};
use ctrl_types::Errno;
use std::test::Fail;

// The first six have validators, which take each row, another in its place, or none; the next has none, and in the last a member follows its master.
const NAMED: &[Named] = &[
    Named::Judged(&[1, 0], 0),
    Named::Judged(&[3, 2], 2),
    Named::Judged(&[4, 5], 10),
    Named::Judged(&[6, 7], 7),
    Named::Judged(&[12], 8),
    Named::Judged(&[13], 9),
    Named::Plain(&[8, 9]),
    Named::Auto(&[11, 10], 5),
];

const VALUES: &[i64] = &[10, 11, 12, 13, 14, 15, 16, 17, 18, 19, 20, 21, 22, 23];

const PAIRS: &[(u32, i64)] = &[(1, 300), (0, 5), (1, 21), (3, 7), (9, -1)];

const FREE: &[bool] = &[false; 14];

// Control 0 is grabbed, and the one that is inactive.
const HELD: &[bool] = &[
    true, false, false, false, false, false, false, false, false, false, true, false, false, false,
];

const GRABBED: u32 = 0x2;

const UPDATE: u32 = 0x8;

const INACTIVE: u32 = 0x10;

const LOOKS: &[Look] = &[
    Look::Becomes(0, PAIRS, Ok(&[21, 5]), 1),
    // the validator moves the member that wasn't asked for, too
    Look::Becomes(1, PAIRS, Ok(&[7, 8]), 1),
    // an errno of another kind counts as EINVAL
    Look::Becomes(2, PAIRS, Err(Errno::EINVAL), 1),
    Look::Becomes(3, PAIRS, Err(Errno::EBUSY), 1),
    Look::Becomes(4, PAIRS, Err(Errno::EACCES), 1),
    Look::Becomes(5, PAIRS, Err(Errno::ERANGE), 1),
    Look::Becomes(6, PAIRS, Ok(&[18, 0]), 0),
    Look::Judges(0, &[7, 9], Ok(&[7, 9]), 1),
    Look::Judges(0, &[300, 9], Err(Errno::EINVAL), 1),
    // without a validator nothing is looked at
    Look::Judges(6, &[300, 9], Ok(&[300, 9]), 0),
    Look::Row(&[1, 0], &[11, 10]),
    // pairs are laid cluster by cluster: one that refuses, or has a grabbed member among the pairs, keeps its row, and the others get theirs
    Look::Lays(
        FREE,
        PAIRS,
        &[5, 21, 8, 7, 14, 15, 16, 17, 18, 0, 20, 21, 22, 23],
        &[],
        2,
    ),
    Look::Lays(
        FREE,
        &[(6, 1), (4, 1), (0, 1)],
        &[1, 11, 12, 13, 14, 15, 16, 17, 18, 19, 20, 21, 22, 23],
        &[2, 3],
        3,
    ),
    Look::Lays(
        HELD,
        &[(0, 1), (9, 3)],
        &[10, 11, 12, 13, 14, 15, 16, 17, 18, 3, 20, 21, 22, 23],
        &[0],
        0,
    ),
    Look::Inactive(10, true),
    Look::Inactive(11, false),
    Look::Flags(10, HELD, GRABBED + INACTIVE),
    Look::Flags(11, HELD, UPDATE),
];

#[test]
fn rows_of_clusters(rt: HostRuntime) -> Result<(), Fail> {
    holds(&rt, rt.alloc(), &[Made::Byte; 14], NAMED, VALUES, LOOKS)
}
