ghost use Rattle.std.specs.Prelude.{◌≡◌, ◌<◌, ◌↔◌, ℕ, length, IfOk, IsTrue};
ghost use Rattle.ctrl_settle.specs.Faults.{IsWellFormed};
ghost use Rattle.ctrl_handlers.specs.Plan.{control_in};
ghost use Rattle.ctrl_clusters.specs.Ranges.{HasRangeFor, StayControlsOf, modified};

use ctrl_calls::Driver;
use ctrl_handlers::Plan;
use ctrl_settle::Ctrl;
use std::alloc::{AllocError, Global};
use std::marker::Model;

/// The controls of a device as they are now, in the order of their numbers: each as the plan describes it, with the bounds, the step and the default
/// of the moment (Linux driver API, `v4l2_ctrl_modify_range`). Contracts see them as the list of controls.
#[derive(Debug, Drop)]
pub struct Ranges {
    controls: Vec<Ctrl>,
}

impl Model for Ranges {
    ghost use Rattle.std.specs.Prelude.{List};
    ghost use Rattle.std.specs.List.{All};
    ghost use Rattle.ctrl_settle.specs.Control.{Control};
    ghost use Rattle.ctrl_settle.specs.Faults.{IsWellFormed};

    ghost Value = { List Control };

    ghost view = { λ r. r.controls.items };

    ghost invariant = { λ r. All IsWellFormed r.controls.items };
}

impl Ranges {
    /// The ranges that a plan gives its controls, which a device starts with (Linux driver API, "V4L2 Controls").
    ///
    /// - `alloc`: where they lie.
    /// - `plan`: what the device is built of.
    ///
    /// The error is that a growth was refused.
    pub fn of_plan<D: Driver>(alloc: Global, plan: &Plan<D>) -> Result<Ranges, AllocError>
        ensures { IfOk result (λ ranges. ranges ≡ plan.now.controls) }
    {
        let controls = Vec::from_slice(alloc, plan.controls())?;
        Ok(Ranges { controls })
    }

    /// A control with its range of the moment (of this project). It takes no memory and refuses nothing.
    ///
    /// - `control`: the number of a control; the caller owes one that is there.
    pub fn range(&self, control: u32) -> &Ctrl
        requires { control < length self.now }
        ensures { result.now ≡ control_in self.now control }
    {
        &self.controls[control as usize]
    }

    /// Whether these are the same controls with the same ranges (of this project). It takes no memory and refuses nothing.
    ///
    /// - `other`: any.
    pub fn is_like(&self, other: &Ranges) -> bool
        ensures { IsTrue result ↔ (self.now ≡ other.now) }
    {
        self.controls == other.controls
    }

    /// The same once more (of this project).
    ///
    /// - `alloc`: where it lies.
    ///
    /// The error is that a growth was refused.
    pub fn copy(&self, alloc: Global) -> Result<Ranges, AllocError>
        ensures { IfOk result (λ ranges. ranges ≡ self.now) }
    {
        let controls = Vec::from_slice(alloc, self.controls.as_slice())?;
        Ok(Ranges { controls })
    }

    /// What is always so of these, which a caller may need to know: nothing is wrong with any of them (of this project). It does nothing.
    pub fn are_sound(&self)
        ensures { (c : ℕ) → c < length self.now → IsWellFormed (control_in self.now c) }
    {
        let _controls = &self.controls;
    }

    /// Gives a control another range (Linux driver API, `v4l2_ctrl_modify_range`). It takes no memory and refuses nothing.
    ///
    /// - `control`: the number of a control; the caller owes one that is there.
    /// - `changed`: the control with its new range, as `Ctrl::with_range` makes it; the caller owes that its id, kind, flags, skipped items and number of elements
    ///   are those that it had.
    pub fn modify(&mut self, control: u32, changed: Ctrl)
        requires known { control < length self.old }
        requires same { HasRangeFor (control_in self.old control) changed }
        ensures ranges { self.new ≡ modified self.old control changed }
        ensures stay { StayControlsOf self.old self.new }
    {
        // nothing is wrong with it, as the contract of `id` says
        let _id = changed.id();
        self.controls[control as usize] = changed;
    }
}
