ghost use Rattle.std.specs.Prelude.{◌≡◌, length};
ghost use Rattle.ctrl_clusters.specs.Rows.{AreControlsOf};

use crate::moment::Moment;
use crate::ranges::Ranges;
use ctrl_calls::Driver;
use ctrl_types::CtrlValue;
use std::alloc::AllocError;

/// Two moments of a device: the one before, and the ranges, the values and the grabs afterwards, which fit the same plan.
pub struct Change<'a, D: Driver> {
    /// The moment before.
    pub before: Moment<'a, D>,
    /// The ranges of the controls afterwards.
    pub ranges: &'a Ranges,
    /// The values afterwards.
    pub values: &'a [CtrlValue],
    /// Whether each control is grabbed afterwards.
    pub grabs: &'a [bool],
    pub ghost ranged: { AreControlsOf before.plan.now ranges.now },
    pub ghost valued: { length values.now ≡ length before.plan.now.controls },
    pub ghost held: { length grabs.now ≡ length before.plan.now.controls },
}

impl<'a, D: Driver> Copy for Change<'a, D> {}

impl<'a, D: Driver> Clone for Change<'a, D> {
    fn clone(&self) -> Result<Self, AllocError> {
        Ok(*self)
    }
}

impl<'a, D: Driver> Change<'a, D> {
    /// The moment afterwards.
    pub fn after(&self) -> Moment<'a, D>
        ensures plan { result.plan.now ≡ self.now.before.plan.now }
        ensures ranges { result.ranges.now ≡ self.now.ranges.now }
        ensures values { result.values.now ≡ self.now.values.now }
        ensures grabs { result.grabs.now ≡ self.now.grabs.now }
    {
        Moment {
            plan: self.before.plan,
            ranges: self.ranges,
            values: self.values,
            grabs: self.grabs,
        }
    }
}
