//! What file handles hear of another range of one control.

ghost use Rattle.std.specs.Prelude.{◌<◌, length, IfOk};
ghost use Rattle.ctrl_handlers.specs.Plan.{control_in};
ghost use Rattle.ctrl_clusters.specs.Ranges.{HasRangeFor};

use crate::raise::listeners::{Listeners, Told, takes};
use crate::raise::planning::{FIRST, Silent, plan};
use crate::values::values_of;
use ctrl_clusters::{Moment, Ranges};
use ctrl_events::Events;
use ctrl_handlers::Plan;
use ctrl_settle::Ctrl;
use ctrl_types::CtrlValue;
use std::alloc::Global;
use std::test::Fail;

// Minimum, maximum, step and default.
type Range = (i64, i64, u64, i64);

/// A control that got the range and the value that it has, and what is taken of that.
#[derive(Clone, Copy)]
struct Case {
    control: u32,
    // the range and the value that it had
    had: Range,
    value: i64,
    // values and grabs afterwards
    after: &'static [i64],
    grabs: &'static [bool],
    // what the file handles take: 0, subscribed to all without feedback; 1, to all with it; 2, to control 3 without
    taken: [&'static [Told]; 3],
}

const FREE: &[bool] = &[false; 5];

const PLAIN_HELD: &[bool] = &[false, false, false, true, false];

// The menu is manual.
const MANUAL: &[i64] = &[1, 50, 0, 30, 9];

// It is automatic.
const AUTO: &[i64] = &[3, 50, 0, 30, 9];

const CASES: &[Case] = &[
    // both of a control that is alone
    Case {
        control: 3,
        had: (0, 24, 2, 20),
        value: 24,
        after: MANUAL,
        grabs: FREE,
        taken: [&[(3, 5, 30, 0)], &[(3, 5, 30, 0)], &[(3, 5, 30, 0)]],
    },
    // nothing
    Case {
        control: 3,
        had: (0, 90, 2, 30),
        value: 30,
        after: AUTO,
        grabs: PLAIN_HELD,
        taken: [&[], &[], &[]],
    },
    // the menu becomes automatic: so the number becomes inactive, and who is subscribed to another control alone hears nothing
    Case {
        control: 0,
        had: (0, 2, 1, 1),
        value: 1,
        after: AUTO,
        grabs: FREE,
        taken: [
            &[(0, 5, 3, 0x8), (1, 2, 50, 0x10)],
            &[(0, 5, 3, 0x8), (1, 2, 50, 0x10)],
            &[],
        ],
    },
];

// The control of a case as it was.
fn control_before(ranges: &Ranges, case: &Case) -> Result<Ctrl, Fail>
    requires { case.now.control < length ranges.now }
    ensures { IfOk result (λ old. HasRangeFor (control_in ranges.now case.now.control) old) }
{
    let (minimum, maximum, step, default_value) = case.had;
    match ranges
        .range(case.control)
        .with_range(minimum, maximum, step, default_value)
    {
        Ok(old) => Ok(old),
        Err(_) => Err(Fail::new("a range")),
    }
}

// The events once what a case changes is raised.
fn heard(alloc: Global, after: &Moment<Silent>, case: &Case) -> Result<Events, Fail>
    requires { case.now.control < length after.now.plan.now.controls }
{
    let old = control_before(after.ranges, case)?;
    let listeners = Listeners::subscribed(alloc)?;
    let old_value = CtrlValue::Number(case.value);
    listeners.range_raised(after, case.control, &old, &old_value)
}

// Whether the file handles take what they should.
fn is_heard(alloc: Global, plan: &Plan<Silent>, case: &Case) -> Result<bool, Fail> {
    let values = values_of(alloc, case.after)?;
    let count = plan.controls().len();
    if case.control as usize >= count || values.len() != count || case.grabs.len() != count {
        return Ok(false);
    }
    let ranges = Ranges::of_plan(alloc, plan)?;
    let after = Moment {
        plan,
        ranges: &ranges,
        values: values.as_slice(),
        grabs: case.grabs,
    };
    let mut events = heard(alloc, &after, case)?;
    let [first, second, third] = case.taken;
    Ok(
        takes(&mut events, 0, FIRST, first)
            && takes(&mut events, 1, FIRST, second)
            && takes(&mut events, 2, FIRST, third),
    )
}

#[test]
fn a_range_of_one_control(rt: HostRuntime) -> Result<(), Fail> {
    let alloc = rt.alloc();
    let plan = plan(alloc)?;
    for (row, case) in CASES.iter().enumerate() {
        let is_heard = is_heard(alloc, &plan, case)?;
        assert!(rt; is_heard, "case {row}");
    }
    Ok(())
}
