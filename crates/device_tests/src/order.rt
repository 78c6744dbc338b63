//! In which order notifiers are told at one ask.

use crate::scene::{behind, counters, device};
use std::alloc::{AllocError, Global};

// What comes before, an ask that names the clusters in falling order, and the digits of those that are told at it.
const CASES: &[(&str, &str, u64)] = &[
    (
        "open f 1\nalloc r\nbuffer r 7\nset f req:r brightness=5 button=1 red=100 gain=9\nqueue r\n",
        "begin\n",
        1234,
    ),
    (
        "open f 1\n",
        "open g 1\nset g cur brightness=5 button=1 red=100 gain=9\n",
        1234,
    ),
];

// The digits of the notifiers that are told at an ask.
fn told_at(alloc: Global, before: &str, ask: &str) -> Result<u64, AllocError> {
    let counters = counters(alloc)?;
    let (device, _) = behind(alloc, device(alloc, &counters)?, before.as_bytes())?;
    let [first, ..] = &counters;
    first.take_order();
    behind(alloc, device, ask.as_bytes())?;
    Ok(first.take_order())
}

#[test]
fn clusters_are_told_in_rising_order(rt: HostRuntime) -> Result<(), AllocError> {
    for &(before, ask, want) in CASES {
        let told = told_at(rt.alloc(), before, ask)?;
        assert!(rt; told == want, "{ask}: {told}");
    }
    Ok(())
}
