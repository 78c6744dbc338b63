// The ranges that values give.
use super::looks::{Look, holds};
use super::planning::Made;
use std::test::Fail;

// The maximum of 1 follows 0, that of 3 follows 2, and 0 and 2 follow nothing.
const MADE: &[Made] = &[
    Made::Byte,
    Made::Following(0, 20),
    Made::Byte,
    Made::Following(2, -5),
];

const LOOKS: &[Look] = &[
    Look::Range(0, 0, 255),
    Look::Range(1, 0, 120),
    Look::Range(2, 0, 255),
    // the maximum is never below the minimum
    Look::Range(3, 0, 0),
];

#[test]
fn ranges_that_values_give(rt: HostRuntime) -> Result<(), Fail> {
    holds(&rt, rt.alloc(), MADE, &[], &[100, 7, 3, 0], LOOKS)
}
