//! Controls of a plan.
ghost use Rattle.std.specs.Prelude.{IfOk};
ghost use Rattle.ctrl_clusters.specs.Rows.{AreControlsOf};

use crate::cluster::driver::Strict;
use crate::values::values_of;
use ctrl_clusters::Controls;
use ctrl_handlers::Plan;
use std::alloc::Global;
use std::test::Fail;

/// The controls of a plan, of which none is grabbed, with these values.
pub fn controls_of(alloc: Global, plan: &Plan<Strict>, numbers: &[i64]) -> Result<Controls, Fail>
    ensures { IfOk result (λ controls. AreControlsOf plan.now controls.ranges) }
{
    let values = values_of(alloc, numbers)?;
    if values.len() != plan.controls().len() {
        return Err(Fail::new("a value for each control"));
    }
    let mut controls = Controls::of_plan(alloc, plan)?;
    controls.replace_values(values);
    Ok(controls)
}
