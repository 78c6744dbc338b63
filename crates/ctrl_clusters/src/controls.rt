ghost use Rattle.std.specs.Prelude.{◌≡◌, ◌<◌, ℕ, true, false, length, nat_eq, slice_set, option_map, IfOk, IfSome};
ghost use Rattle.std.specs.List.{All, list_any};
ghost use Rattle.ctrl_handlers.specs.Plan.{control_in};
ghost use Rattle.ctrl_clusters.specs.ControlsData.{at_start, given_range, DifferIn};
ghost use Rattle.ctrl_clusters.specs.Moments.{parts, parts_after};
ghost use Rattle.ctrl_clusters.specs.Ranges.{HasRangeFor, StayControlsOf};
ghost use Rattle.ctrl_clusters.specs.Rows.{AreControlsOf, value_at};

use crate::change::Change;
use crate::moment::Moment;
use crate::ranges::Ranges;
use crate::start::{default_values, no_grabs};
use ctrl_calls::Driver;
use ctrl_handlers::Plan;
use ctrl_settle::Ctrl;
use ctrl_types::CtrlValue;
use std::alloc::{AllocError, Global};
use std::marker::Model;
use std::mem;

/// The ranges, the values and the grabs of a device's controls as they are now: as many of each, in the order of the controls' numbers. Contracts see it as
/// these three parts.
#[derive(Drop)]
pub struct Controls {
    ranges: Ranges,
    values: Vec<CtrlValue>,
    grabs: Vec<bool>,
    // the values, and the grabs, once more, where they aren't lent
    spare_values: Option<Vec<CtrlValue>>,
    spare_grabs: Option<Vec<bool>>,
}

impl Model for Controls {
    ghost use Rattle.std.specs.Prelude.{◌≡◌, length, IfSome};
    ghost use Rattle.ctrl_clusters.specs.ControlsData.{ControlsData};

    ghost Value = { ControlsData };

    ghost view = { λ c. record { ranges = c.ranges; values = c.values.items; grabs = c.grabs.items } };

    ghost invariant = { λ c. (length c.values.items ≡ length c.ranges) × (length c.grabs.items ≡ length c.ranges) × IfSome c.spare_values (λ spare. spare.items ≡ c.values.items) × IfSome c.spare_grabs (λ spare. spare.items ≡ c.grabs.items) };
}

impl Controls {
    /// What a device starts with: the plan's ranges, the defaults, and no grabs (Linux driver API, "V4L2 Controls").
    ///
    /// - `alloc`: where they lie.
    /// - `plan`: what the device is built of.
    ///
    /// The error is that a growth was refused.
    pub fn of_plan<D: Driver>(alloc: Global, plan: &Plan<D>) -> Result<Controls, AllocError>
        ensures { IfOk result (λ made. made ≡ at_start plan.now) }
    {
        let ranges = Ranges::of_plan(alloc, plan)?;
        let values = default_values(alloc, plan.controls())?;
        let grabs = no_grabs(alloc, plan.controls())?;
        Ok(Controls {
            ranges,
            values,
            grabs,
            spare_values: None,
            spare_grabs: None,
        })
    }

    /// The present ranges. It takes no memory and refuses nothing.
    pub fn ranges(&self) -> &Ranges
        ensures { result.now ≡ self.now.ranges }
    {
        &self.ranges
    }

    /// The present values, one for each control. It takes no memory and refuses nothing.
    pub fn values(&self) -> &[CtrlValue]
        ensures values { result.now ≡ self.now.values }
        ensures many { length result.now ≡ length self.now.ranges }
    {
        self.values.as_slice()
    }

    /// Whether each control is grabbed. It takes no memory and refuses nothing.
    pub fn grabs(&self) -> &[bool]
        ensures grabs { result.now ≡ self.now.grabs }
        ensures many { length result.now ≡ length self.now.ranges }
    {
        self.grabs.as_slice()
    }

    /// The moment of a device that has these controls. It takes no memory and refuses nothing.
    ///
    /// - `plan`: what the device is built of; the caller owes that these are its controls.
    pub fn at<'a, D: Driver>(&'a self, plan: &'a Plan<D>) -> Moment<'a, D>
        requires { AreControlsOf plan.now self.now.ranges }
        ensures plan { result.plan.now ≡ plan.now }
        ensures ranges { result.ranges.now ≡ self.now.ranges }
        ensures values { result.values.now ≡ self.now.values }
        ensures grabs { result.grabs.now ≡ self.now.grabs }
    {
        // the plan is one, as the contract of `controls` says
        let _plan = plan.controls();
        Moment {
            plan,
            ranges: &self.ranges,
            values: self.values.as_slice(),
            grabs: self.grabs.as_slice(),
        }
    }

    /// The change from these controls to others that have other values. It takes no memory and refuses nothing.
    ///
    /// - `plan`: what the device is built of; the caller owes that these are its controls.
    /// - `values`: the values afterwards; the caller owes one for each control.
    pub fn to_values<'a, D: Driver>(
        &'a self,
        plan: &'a Plan<D>,
        values: &'a [CtrlValue],
    ) -> Change<'a, D>
        requires plan { AreControlsOf plan.now self.now.ranges }
        requires values { length values.now ≡ length self.now.ranges }
        ensures plan { result.before.plan.now ≡ plan.now }
        ensures before { parts result.before ≡ self.now }
        ensures after { parts_after result ≡ record self.now { values = values.now } }
    {
        let before = self.at(plan);
        Change {
            before,
            ranges: &self.ranges,
            values,
            grabs: self.grabs.as_slice(),
        }
    }

    /// The change from these controls to others that are grabbed otherwise. It takes no memory and refuses nothing.
    ///
    /// - `plan`: what the device is built of; the caller owes that these are its controls.
    /// - `grabs`: whether each control is grabbed afterwards; the caller owes one for each control.
    pub fn to_grabs<'a, D: Driver>(&'a self, plan: &'a Plan<D>, grabs: &'a [bool]) -> Change<'a, D>
        requires plan { AreControlsOf plan.now self.now.ranges }
        requires grabs { length grabs.now ≡ length self.now.ranges }
        ensures plan { result.before.plan.now ≡ plan.now }
        ensures before { parts result.before ≡ self.now }
        ensures after { parts_after result ≡ record self.now { grabs = grabs.now } }
    {
        let before = self.at(plan);
        Change {
            before,
            ranges: &self.ranges,
            values: self.values.as_slice(),
            grabs,
        }
    }

    /// A control with its present range. It takes no memory and refuses nothing.
    ///
    /// - `control`: the number of a control; the caller owes one that is there.
    pub fn range(&self, control: u32) -> &Ctrl
        requires { control < length self.now.ranges }
        ensures { result.now ≡ control_in self.now.ranges control }
    {
        self.ranges.range(control)
    }

    /// The present value of a control. It takes no memory and refuses nothing.
    ///
    /// - `control`: the number of a control; the caller owes one that is there.
    pub fn value(&self, control: u32) -> CtrlValue
        requires { control < length self.now.ranges }
        ensures { result ≡ value_at self.now.values control }
    {
        self.values[control as usize]
    }

    /// Has other values in place of these, which it answers. It takes no memory and refuses nothing.
    ///
    /// - `values`: the values; the caller owes one for each control.
    pub fn replace_values(&mut self, values: Vec<CtrlValue>) -> Vec<CtrlValue>
        requires { length values.items ≡ length self.old.ranges }
        ensures new { self.new ≡ record self.old { values = values.items } }
        ensures old { result.items ≡ self.old.values }
    {
        self.spare_values = None;
        mem::replace(&mut self.values, values)
    }

    /// The values once more, for what comes next to be written; `replace_within` takes them back (of this project). It takes memory only where they haven't been
    /// lent before, weren't given back since, or `replace_values` was called since.
    ///
    /// - `alloc`: where they lie then.
    ///
    /// The error is that a growth was refused; all is as it was then.
    pub fn lend_values(&mut self, alloc: Global) -> Result<Vec<CtrlValue>, AllocError>
        ensures same { self.new ≡ self.old }
        ensures values { IfOk result (λ values. values.items ≡ self.old.values) }
    {
        match self.spare_values.take() {
            Some(values) => Ok(values),
            None => Vec::from_slice(alloc, self.values.as_slice()),
        }
    }

    /// Has other values in place of these, which are kept to be lent next (of this project). It takes no memory and refuses nothing, and looks at some clusters alone.
    ///
    /// - `plan`: what the device is built of; the caller owes that these are its controls.
    /// - `values`: the values; the caller owes one for each control.
    /// - `clusters`: the clusters whose members may have another value; the caller owes that each is below `Plan::cluster_count`, and that the controls of
    ///   other clusters have the values that they had.
    pub fn replace_within<D: Driver>(
        &mut self,
        plan: &Plan<D>,
        values: Vec<CtrlValue>,
        clusters: &[u32],
    )
        requires plan { AreControlsOf plan.now self.old.ranges }
        requires values { length values.items ≡ length self.old.ranges }
        requires known { All (λ k. k < length plan.now.clusters) clusters.now }
        requires within { DifferIn plan.now clusters.now self.old.values values.items }
        ensures { self.new ≡ record self.old { values = values.items } }
    {
        let mut spare = mem::replace(&mut self.values, values);
        for &cluster in clusters {
            copy_members(self.values.as_slice(), plan.members(cluster), &mut spare);
        }
        self.spare_values = Some(spare);
    }

    /// Whether each control is grabbed once more, for what comes next to be written; `replace_grab` takes it back (of this project). It takes memory only where it
    /// hasn't been lent before, or wasn't given back since.
    ///
    /// - `alloc`: where it lies then.
    ///
    /// The error is that a growth was refused; all is as it was then.
    pub fn lend_grabs(&mut self, alloc: Global) -> Result<Vec<bool>, AllocError>
        ensures same { self.new ≡ self.old }
        ensures grabs { IfOk result (λ grabs. grabs.items ≡ self.old.grabs) }
    {
        match self.spare_grabs.take() {
            Some(grabs) => Ok(grabs),
            None => Vec::from_slice(alloc, self.grabs.as_slice()),
        }
    }

    /// Has other grabs in place of these, which are kept to be lent next (of this project). It takes no memory and refuses nothing.
    ///
    /// - `grabs`: whether each control is grabbed from now on; the caller owes that it says of each but one what is so already.
    /// - `control`: the number of that control; the caller owes one that is there.
    /// - `grabbed`: what it says of this one.
    pub fn replace_grab(&mut self, grabs: Vec<bool>, control: u32, grabbed: bool)
        requires known { control < length self.old.ranges }
        requires grabs { grabs.items ≡ slice_set self.old.grabs control grabbed }
        ensures { self.new ≡ record self.old { grabs = slice_set self.old.grabs control grabbed } }
    {
        let mut spare = mem::replace(&mut self.grabs, grabs);
        spare[control as usize] = grabbed;
        self.spare_grabs = Some(spare);
    }

    /// Gives a control another range, and the value that it has under it (Linux driver API, `v4l2_ctrl_modify_range`). It takes no memory and refuses nothing.
    ///
    /// - `control`: the number of a control; the caller owes one that is there.
    /// - `changed`: the control with its new range, as `Ctrl::with_range` makes it.
    /// - `value`: its value.
    pub fn modify_range(&mut self, control: u32, changed: Ctrl, value: CtrlValue)
        requires known { control < length self.old.ranges }
        requires same { HasRangeFor (control_in self.old.ranges control) changed }
        ensures parts { self.new ≡ given_range self.old control changed value }
        ensures stay { StayControlsOf self.old.ranges self.new.ranges }
    {
        self.ranges.modify(control, changed);
        let spare = self.spare_values.take();
        self.spare_values = with_value(spare, control, &value);
        self.values[control as usize] = value;
    }

    /// Grabs a control, or lets it go (Linux driver API, `v4l2_ctrl_grab`). It takes no memory and refuses nothing.
    ///
    /// - `control`: the number of a control; the caller owes one that is there.
    /// - `grabbed`: whether it is grabbed from now on.
    pub fn grab(&mut self, control: u32, grabbed: bool)
        requires { control < length self.old.ranges }
        ensures { self.new ≡ record self.old { grabs = slice_set self.old.grabs control grabbed } }
    {
        self.grabs[control as usize] = grabbed;
        if let Some(mut spare) = self.spare_grabs.take() {
            spare[control as usize] = grabbed;
            self.spare_grabs = Some(spare);
        }
    }
}

// Values, where there are some, with another one of a control.
fn with_value(
    values: Option<Vec<CtrlValue>>,
    control: u32,
    value: &CtrlValue,
) -> Option<Vec<CtrlValue>>
    requires { IfSome values (λ values. control < length values.items) }
    ensures { option_map (λ made. made.items) result ≡ option_map (λ values. slice_set values.items control value.now) values }
{
    match values {
        Some(mut values) => {
            values[control as usize] = *value;
            Some(values)
        }
        None => None,
    }
}

// Gives some controls the values that they have elsewhere.
fn copy_members(values: &[CtrlValue], members: &[u32], copy: &mut Vec<CtrlValue>)
    requires long { length copy.old.items ≡ length values.now }
    requires known { All (λ c. c < length values.now) members.now }
    ensures long { length copy.new.items ≡ length values.now }
    ensures given { (c : ℕ) → list_any (nat_eq c) members.now ≡ true → value_at copy.new.items c ≡ value_at values.now c }
    ensures others { (c : ℕ) → list_any (nat_eq c) members.now ≡ false → value_at copy.new.items c ≡ value_at copy.old.items c }
{
    for &member in members {
        copy[member as usize] = values[member as usize];
    }
}
