ghost use Rattle.std.specs.Prelude.{◌≡◌, length};
ghost use Rattle.ctrl_handlers.specs.Plan.{IsFinished};
ghost use Rattle.ctrl_handlers.proofs.Props.{plan_props};
ghost use Rattle.ctrl_clusters.specs.Rows.{AreControlsOf};

use crate::ranges::Ranges;
use ctrl_calls::Driver;
use ctrl_handlers::Plan;
use ctrl_types::CtrlValue;
use std::alloc::AllocError;

/// What a device is built of, and the ranges, the values and the grabs of its controls at a moment. They fit the plan: the ranges are of its controls, and
/// there is a value, and whether it is grabbed, for each, in the order of their numbers.
pub struct Moment<'a, D: Driver> {
    /// What the device is built of.
    pub plan: &'a Plan<D>,
    /// The ranges of its controls.
    pub ranges: &'a Ranges,
    /// A value for each control.
    pub values: &'a [CtrlValue],
    /// Whether each control is grabbed.
    pub grabs: &'a [bool],
    pub ghost planned: { IsFinished plan.now } by { Prim.hlevel plan_props },
    pub ghost ranged: { AreControlsOf plan.now ranges.now },
    pub ghost valued: { length values.now ≡ length plan.now.controls },
    pub ghost held: { length grabs.now ≡ length plan.now.controls },
}

impl<'a, D: Driver> Copy for Moment<'a, D> {}

impl<'a, D: Driver> Clone for Moment<'a, D> {
    fn clone(&self) -> Result<Self, AllocError> {
        Ok(*self)
    }
}
