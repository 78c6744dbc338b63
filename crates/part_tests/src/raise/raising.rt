//! What file handles hear of a change.

ghost use Rattle.std.specs.Prelude.{IfOk};
ghost use Rattle.ctrl_clusters.specs.Rows.{AreControlsOf};

use crate::raise::changing::change;
use crate::raise::listeners::{Listeners, Told, are_alike, takes};
use crate::raise::planning::{FIRST, Silent, plan};
use crate::values::{pairs_of, values_of};
use ctrl_clusters::{Moment, Ranges};
use ctrl_handlers::Plan;
use ctrl_types::FhId;
use std::alloc::Global;
use std::test::Fail;

/// A change, and what is taken of it.
#[derive(Clone, Copy)]
struct Case {
    // values and grabs before and after
    before: (&'static [i64], &'static [bool]),
    after: (&'static [i64], &'static [bool]),
    // what was applied, and the file handle whose set it is
    pairs: &'static [(u32, i64)],
    from: Option<u32>,
    // what the file handles take: 0, subscribed to all without feedback; 1, to all with it; 2, to control 3 without
    taken: [&'static [Told]; 3],
}

const FREE: &[bool] = &[false; 5];

const PLAIN_HELD: &[bool] = &[false, false, false, true, false];

// The menu is manual.
const MANUAL: &[i64] = &[1, 50, 0, 30, 9];

// The plain number differs.
const PLAIN: &[i64] = &[1, 50, 0, 32, 9];

// Minimum, maximum, step and default that control 3 gets in place of its own, 0 to 90 in steps of 2 with 30.
type Range = (i64, i64, u64, i64);

const OWN: Range = (0, 90, 2, 30);

// The range that control 3 gets, and what is heard.
const CASES: &[(Range, Case)] = &[
    // in the order of control numbers, whatever that of the pairs; flags change where they differ, a button is told that is among the pairs, and a value
    // that can't be read is told as 0
    (
        OWN,
        Case {
            before: (MANUAL, FREE),
            after: (&[0, 50, 0, 32, 8], FREE),
            pairs: &[(4, 8), (3, 32), (2, 0), (0, 0)],
            from: None,
            taken: [
                &[
                    (0, 1, 0, 0x8),
                    (1, 2, 50, 0x10),
                    (2, 1, 0, 0x240),
                    (3, 1, 32, 0),
                    (4, 1, 0, 0x40),
                ],
                &[
                    (0, 1, 0, 0x8),
                    (1, 2, 50, 0x10),
                    (2, 1, 0, 0x240),
                    (3, 1, 32, 0),
                    (4, 1, 0, 0x40),
                ],
                &[(3, 1, 32, 0)],
            ],
        },
    ),
    // without feedback the one that sets it doesn't hear of a control in its pairs but by its flags, and every other does
    (
        OWN,
        Case {
            before: (MANUAL, FREE),
            after: (&[0, 60, 0, 30, 9], FREE),
            pairs: &[(0, 0), (1, 60)],
            from: Some(0),
            taken: [
                &[(1, 3, 60, 0x10)],
                &[(0, 1, 0, 0x8), (1, 3, 60, 0x10)],
                &[],
            ],
        },
    ),
    // a range is heard of by all that are subscribed, with the value that the control has by then, and so is a grab
    (
        (0, 92, 2, 30),
        Case {
            before: (MANUAL, FREE),
            after: (PLAIN, PLAIN_HELD),
            pairs: &[],
            from: None,
            taken: [&[(3, 7, 32, 0x2)], &[(3, 7, 32, 0x2)], &[(3, 7, 32, 0x2)]],
        },
    ),
    // also by the one whose set moves it, of a control in its pairs
    (
        (0, 92, 2, 30),
        Case {
            before: (MANUAL, FREE),
            after: (PLAIN, FREE),
            pairs: &[(3, 32)],
            from: Some(0),
            taken: [&[(3, 5, 32, 0)], &[(3, 5, 32, 0)], &[(3, 5, 32, 0)]],
        },
    ),
    // but of a value alone it hears only with feedback
    (
        OWN,
        Case {
            before: (MANUAL, FREE),
            after: (PLAIN, FREE),
            pairs: &[(3, 32)],
            from: Some(0),
            taken: [&[], &[(3, 1, 32, 0)], &[(3, 1, 32, 0)]],
        },
    ),
];

// The plan's ranges, with another one of control 3.
fn ranges_with(alloc: Global, plan: &Plan<Silent>, range: Range) -> Result<Ranges, Fail>
    ensures { IfOk result (λ ranges. AreControlsOf plan.now ranges) }
{
    let mut ranges = Ranges::of_plan(alloc, plan)?;
    let (minimum, maximum, step, default_value) = range;
    if plan.control_count() <= 3 {
        return Err(Fail::new("four controls"));
    }
    match ranges
        .range(3)
        .with_range(minimum, maximum, step, default_value)
    {
        Ok(changed) => ranges.modify(3, changed),
        Err(_) => return Err(Fail::new("a range")),
    }
    Ok(ranges)
}

// Whether the file handles take what they should, where control 3 has another range afterwards. The same is raised where the clusters are handed in.
fn is_heard(alloc: Global, plan: &Plan<Silent>, range: Range, case: &Case) -> Result<bool, Fail> {
    let ((old, held), (new, holding)) = (case.before, case.after);
    let (old, new) = (values_of(alloc, old)?, values_of(alloc, new)?);
    let count = plan.controls().len();
    if old.len() != count || held.len() != count {
        return Ok(false);
    }
    let pairs = pairs_of(alloc, case.pairs)?;
    let from = match case.from {
        Some(fh) => Some(FhId(fh)),
        None => None,
    };
    let ranges = Ranges::of_plan(alloc, plan)?;
    let changed = ranges_with(alloc, plan, range)?;
    let before = Moment {
        plan,
        ranges: &ranges,
        values: old.as_slice(),
        grabs: held,
    };
    let Some(change) = change(before, &changed, new.as_slice(), holding) else {
        return Ok(false);
    };
    let listeners = Listeners::subscribed(alloc)?;
    let mut events = listeners.raised(&change, pairs.as_slice(), from)?;
    let listeners = Listeners::subscribed(alloc)?;
    let others = listeners.raised_within(&change, pairs.as_slice(), from)?;
    let [first, second, third] = case.taken;
    Ok(
        are_alike(&events, &others)
            && takes(&mut events, 0, FIRST, first)
            && takes(&mut events, 1, FIRST, second)
            && takes(&mut events, 2, FIRST, third),
    )
}

#[test]
fn changes_are_raised(rt: HostRuntime) -> Result<(), Fail> {
    let alloc = rt.alloc();
    let plan = plan(alloc)?;
    for (row, (range, case)) in CASES.iter().enumerate() {
        let is_heard = is_heard(alloc, &plan, *range, case)?;
        assert!(rt; is_heard, "case {row}");
    }
    Ok(())
}
