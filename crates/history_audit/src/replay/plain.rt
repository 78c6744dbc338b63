//! What steps make of file handles, ranges and grabs, and what they do that leave these and the values.

ghost use Rattle.std.specs.Prelude.{◌≡◌, ◌<◌, ◌≤◌, true, false, length, MatchOption, OnOk, OnErr};
ghost use Rattle.history.specs.Past.{past};
ghost use Rattle.device_history.specs.declared.ask.Step.TheVariants as steps;
ghost use Rattle.ctrl_handlers.specs.Plan.{control_in};
ghost use Rattle.device_history.specs.Ranges.{ranges_now};
ghost use Rattle.device_history.specs.Refusals.{is_full};
ghost use Rattle.history_audit.specs.Replay.{AddsNext, IsNextStep, MayBeNext, TriesNext};
ghost use Rattle.device_parts.specs.Leaving.{NamesKnown, leaves_controls};

use super::Replay;
use ctrl_calls::Driver;
use ctrl_settle::Ctrl;
use ctrl_types::FhId;
use device_history::Step;
use std::alloc::AllocError;

impl<'a, D: Driver> Replay<'a, D> {
    // Opens a file handle.
    pub(super) fn open(&mut self, handler: u32) -> Result<(), AllocError>
        requires next { IsNextStep self.old (steps.OpenFh handler) }
        requires room { is_full (past self.old.steps) ≡ false }
        requires follows { MayBeNext D.verdict self.old (steps.OpenFh handler) }
        ensures ok { OnOk result (AddsNext self.old self.new) }
        ensures err { OnErr result (self.new ≡ self.old) }
    {
        self.state.open(self.count as u32, handler)?;
        self.count += 1;
        Ok(())
    }

    // Closes one.
    pub(super) fn close(&mut self, fh: FhId)
        requires next { IsNextStep self.old (steps.CloseFh fh) }
        requires room { is_full (past self.old.steps) ≡ false }
        requires follows { MayBeNext D.verdict self.old (steps.CloseFh fh) }
        ensures { AddsNext self.old self.new }
    {
        self.state.close(fh);
        self.count += 1;
    }

    // Grabs a control, or lets it go.
    pub(super) fn grab(&mut self, control: u32, on: bool) -> Result<(), AllocError>
        requires next { IsNextStep self.old (steps.Grab control on) }
        requires room { is_full (past self.old.steps) ≡ false }
        requires follows { MayBeNext D.verdict self.old (steps.Grab control on) }
        ensures ok { OnOk result (AddsNext self.old self.new) }
        ensures err { OnErr result (self.new ≡ self.old) }
    {
        let room = self.state.reserve_grab(self.alloc)?;
        self.state.grab(self.plan, control, on, room);
        self.count += 1;
        Ok(())
    }

    // Replays a range change.
    pub(super) fn modify(
        &mut self,
        control: u32,
        min: i64,
        max: i64,
        apart: u64,
        default_value: i64,
    ) -> bool
        requires { IsNextStep self.old (steps.ModifyRange control min max apart default_value) }
        ensures { TriesNext D.verdict self.old self.new result }
    {
        if self.is_full() {
            return false;
        }
        let Some(ctrl) = self.ranged(control) else {
            return false;
        };
        let Ok(changed) = ctrl.with_range(min, max, apart, default_value) else {
            return false;
        };
        self.state.modify_range(self.plan, control, changed);
        self.count += 1;
        true
    }

    // A control with its present range; none where there is none of this number.
    fn ranged(&self, control: u32) -> Option<&Ctrl>
        ensures { MatchOption result (length self.now.plan.controls ≤ control) (λ ctrl. (control < length self.now.plan.controls) × (ctrl.now ≡ control_in (ranges_now self.now.plan (past self.now.steps)) control)) }
    {
        if control >= self.plan.control_count() {
            return None;
        }
        Some(self.state.controls().range(control))
    }

    // Makes a step that leaves file handles, ranges, values and grabs.
    pub(super) fn change(&mut self, step: &Step) -> Result<(), AllocError>
        requires next { IsNextStep self.old step.now }
        requires leaves { leaves_controls step.now ≡ true }
        requires room { is_full (past self.old.steps) ≡ false }
        requires follows { MayBeNext D.verdict self.old step.now }
        requires known { NamesKnown (length self.old.plan.controls) step.now }
        ensures ok { OnOk result (AddsNext self.old self.new) }
        ensures err { OnErr result (self.new ≡ self.old) }
    {
        self.state.change(self.plan, self.count as u32, step)?;
        self.count += 1;
        Ok(())
    }
}
