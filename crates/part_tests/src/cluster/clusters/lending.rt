// Values and grabs that are lent, and come back.
ghost use Rattle.ctrl_clusters.specs.Rows.{AreControlsOf};

use super::planning::{Made, Named, plan_of};
use crate::cluster::common::controls_of;
use crate::cluster::driver::Strict;
use crate::values::are_numbers;
use ctrl_clusters::Controls;
use ctrl_handlers::Plan;
use ctrl_types::CtrlValue;
use std::alloc::{AllocError, Global};
use std::test::Fail;

// A plan with its controls.
#[derive(Drop)]
struct Kept<'a> {
    plan: &'a Plan<Strict>,
    controls: Controls,
    ghost ranged: { AreControlsOf plan.now controls.ranges },
}

impl<'a> Kept<'a> {
    // A control gets a value by what is lent; whether that was as it is now.
    #[tactic(auto, using(crate::proofs::WithinLemmas::set_apart))]
    fn give(&mut self, alloc: Global, control: u32, value: i64) -> Result<bool, AllocError> {
        if control >= self.plan.control_count() {
            return Ok(false);
        }
        let mut values = self.controls.lend_values(alloc)?;
        let is_same = values.as_slice() == self.controls.values();
        values[control as usize] = CtrlValue::Number(value);
        let cluster = self.plan.cluster_of(control);
        self.controls.replace_within(self.plan, values, &[cluster]);
        Ok(is_same)
    }

    // The same of a grab.
    fn grab(&mut self, alloc: Global, control: u32, grabbed: bool) -> Result<bool, AllocError> {
        if control >= self.plan.control_count() {
            return Ok(false);
        }
        let mut grabs = self.controls.lend_grabs(alloc)?;
        let is_same = grabs.as_slice() == self.controls.grabs();
        grabs[control as usize] = grabbed;
        self.controls.replace_grab(grabs, control, grabbed);
        Ok(is_same)
    }
}

// A control, its value and whether it is grabbed from now on; the values and grabs then.
const TURNS: &[(u32, i64, bool, [i64; 3], [bool; 3])] = &[
    (1, 21, true, [10, 21, 12], [false, true, false]),
    (0, 20, true, [20, 21, 12], [true, true, false]),
    (1, 11, false, [20, 11, 12], [true, false, false]),
];

#[test]
fn values_and_grabs_are_lent_as_they_are(rt: HostRuntime) -> Result<(), Fail> {
    let alloc = rt.alloc();
    let named = &[Named::Plain(&[2, 0])];
    let plan = plan_of(alloc, &[Made::Byte; 3], named, &mut Vec::new(alloc))?;
    let controls = controls_of(alloc, &plan, &[10, 11, 12])?;
    let mut kept = Kept {
        plan: &plan,
        controls,
    };
    for (control, value, grabbed, values, grabs) in TURNS {
        let are_lent = kept.give(alloc, *control, *value)? && kept.grab(alloc, *control, *grabbed)?;
        assert!(rt;
            are_lent
                && are_numbers(kept.controls.values(), values)
                && kept.controls.grabs() == grabs.as_slice(),
            "{control} {value}"
        );
    }
    Ok(())
}
