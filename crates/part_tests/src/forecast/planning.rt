//! The plan of these tests.

use crate::forecast::driver::{Judge, Ordered};
use bitflags::Flags as FlagSet;
use ctrl_calls::{Calls, Relation, Validator};
use ctrl_handlers::{Plan, PlanBuilder};
use ctrl_settle::Ctrl;
use ctrl_types::{CtrlId, Flags, Kind};
use std::alloc::Global;
use std::test::Fail;

const ORDERED: Relation = Relation {
    number: 0,
    bounds: [0; 4],
};

// The clusters that are named, and whether they have a validator. The other controls are each a cluster of its own.
const CLUSTERS: &[(&[u32], bool)] = &[(&[0, 1], true), (&[5, 2], true), (&[4, 3], false)];

/// Eight numbers from 0 to 10, some of them in clusters of two.
pub fn plan_of(alloc: Global) -> Result<Plan<Ordered>, Fail> {
    let mut builder = PlanBuilder::new(alloc);
    let handler = builder.handler()?;
    for id in 0..8 {
        builder.control(handler, number(id)?)?;
    }
    for &(members, is_judged) in CLUSTERS {
        name(&mut builder, members, is_judged)?;
    }
    match builder.finish() {
        Ok(plan) => Ok(plan),
        Err(_) => Err(Fail::new("the plan")),
    }
}

fn number(id: u32) -> Result<Ctrl, Fail> {
    match Ctrl::new(
        CtrlId(id),
        Kind::Integer,
        0,
        10,
        1,
        0,
        0,
        Flags::empty(),
        false,
    ) {
        Ok(ctrl) => Ok(ctrl),
        Err(_) => Err(Fail::new("a control")),
    }
}

fn name(builder: &mut PlanBuilder<Ordered>, members: &[u32], is_judged: bool) -> Result<(), Fail> {
    let mut calls = Calls {
        validator: None,
        notifier: None,
    };
    if is_judged {
        calls.validator = Some(Validator::new(ORDERED, Judge));
    }
    match builder.cluster(members, calls) {
        Ok(_) => Ok(()),
        Err(_) => Err(Fail::new("a cluster")),
    }
}
