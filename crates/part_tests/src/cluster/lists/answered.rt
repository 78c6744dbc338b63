// What lists are answered.
use super::listing::{CAMERA, Call, Case, Entry, FIRST, holds};
use ctrl_types::{Errno, Which};
use std::test::Fail;

const USER: Which = Which::Class(0x0098_0000);

const BOTH: &[Entry] = &[(FIRST + 1, 99), (FIRST, -1)];

const THRICE: &[Entry] = &[(FIRST + 1, 300), (FIRST, 5), (FIRST + 1, 21)];

const CASES: &[Case] = &[
    (
        Call::Read,
        Which::Current,
        &[],
        BOTH,
        Ok(&[(FIRST + 1, 11), (FIRST, 10)]),
        0,
    ),
    (
        Call::Read,
        Which::Defaults,
        &[],
        BOTH,
        Ok(&[(FIRST + 1, 7), (FIRST, 7)]),
        0,
    ),
    (
        Call::Read,
        Which::Current,
        &[],
        &[(FIRST, 0); 64],
        Ok(&[(FIRST, 10); 64]),
        0,
    ),
    (
        Call::Read,
        Which::Current,
        &[],
        &[(FIRST + 4, 0)],
        Err((Errno::EACCES, 1)),
        0,
    ),
    // all are of one cluster, which is judged once; a grabbed control may be tried
    (
        Call::Try,
        Which::Request,
        &[],
        THRICE,
        Ok(&[(FIRST + 1, 21), (FIRST, 5), (FIRST + 1, 21)]),
        1,
    ),
    // the first entry of the cluster that is refused
    (
        Call::Try,
        Which::Request,
        &[],
        &[(FIRST, 1), (FIRST + 2, 1), (FIRST + 2, 2)],
        Err((Errno::EBUSY, 1)),
        2,
    ),
    // no flag is looked at before the ids are all known
    (
        Call::Try,
        Which::Request,
        &[],
        &[(FIRST + 3, 1), (FIRST + 9, 1)],
        Err((Errno::EINVAL, 1)),
        0,
    ),
    (
        Call::Set,
        Which::Request,
        &[],
        &[(FIRST + 3, 1), (CAMERA, 1)],
        Err((Errno::EINVAL, 2)),
        0,
    ),
    // what was asked before is laid first
    (
        Call::Set,
        Which::Request,
        &[(0, 30), (1, 31)],
        &[(FIRST + 1, 32)],
        Ok(&[(FIRST + 1, 32)]),
        1,
    ),
    // of two clusters one has a validator; each control of a cluster counts once
    (
        Call::Set,
        USER,
        &[],
        &[(FIRST + 1, 2), (FIRST + 4, 300), (FIRST + 1, 3)],
        Ok(&[(FIRST + 1, 3), (FIRST + 4, 255), (FIRST + 1, 3)]),
        1,
    ),
    // the index is the number of entries
    (
        Call::Set,
        Which::Request,
        &[],
        &[(FIRST + 1, 1), (FIRST + 2, 1)],
        Err((Errno::EBUSY, 2)),
        2,
    ),
];

#[test]
fn lists_are_answered(rt: HostRuntime) -> Result<(), Fail> {
    holds(&rt, rt.alloc(), CASES)
}
