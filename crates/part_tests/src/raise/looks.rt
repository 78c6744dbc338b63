//! What is told of controls, and which are changed.

ghost use Rattle.ctrl_clusters.specs.Rows.{AreControlsOf};

use crate::raise::changing::change;
use crate::raise::planning::{FIRST, Silent, plan};
use crate::values::{pairs_of, values_of};
use bitflags::Flags as FlagSet;
use ctrl_clusters::{Controls, Moment, Ranges, is_among, is_changed};
use ctrl_events::Payload;
use ctrl_raises::{initial_changes, payload_at};
use ctrl_types::{CtrlId, CtrlValue, Flags, Kind, Pair};
use std::test::Fail;

// The number that follows the menu, which is automatic.
const FOLLOWER: Payload = Payload {
    id: CtrlId(FIRST + 1),
    kind: Kind::Integer,
    value: 60,
    flags: Flags::INACTIVE,
    minimum: 0,
    maximum: 255,
    step: 1,
    default_value: 50,
};

// What is told of the number, and what a subscription tells of it at once.
fn is_told(at: &Moment<Silent>) -> bool {
    at.plan.control_count() > 1
        && payload_at(at, 1) == FOLLOWER
        && initial_changes(at.plan, 1).bits() == 3
}

// A button is changed where it is among the pairs, and another control where its value is another.
fn are_changed(
    before: Moment<Silent>,
    ranges: &Ranges,
    values: &[CtrlValue],
    pairs: &[Pair],
) -> bool
    requires { AreControlsOf before.plan.now ranges.now }
{
    let Some(change) = change(before, ranges, values, before.grabs) else {
        return false;
    };
    if change.before.plan.control_count() != 5 {
        return false;
    }
    is_changed(&change, pairs, 2)
        && is_changed(&change, pairs, 3)
        && !is_changed(&change, pairs, 4)
        && is_among(pairs, 2)
        && !is_among(pairs, 3)
}

#[test]
fn controls_are_told(rt: HostRuntime) -> Result<(), Fail> {
    let alloc = rt.alloc();
    let plan = plan(alloc)?;
    let mut controls = Controls::of_plan(alloc, &plan)?;
    if controls.values().len() != 5 {
        return Err(Fail::new("five controls"));
    }
    controls.replace_values(values_of(alloc, &[2, 60, 0, 32, 8])?);
    let at = controls.at(&plan);
    assert!(rt; is_told(&at));
    let values = values_of(alloc, &[2, 60, 0, 34, 8])?;
    let pairs = pairs_of(alloc, &[(2, 0), (4, 8)])?;
    assert!(rt; are_changed(at, controls.ranges(), values.as_slice(), pairs.as_slice()));
    Ok(())
}
