//! How a device gives a control another range.

ghost use Rattle.std.specs.Prelude.{◌≡◌, [], IfOk, OnOk, OnErr, IfErr};
ghost use Rattle.std.specs.Result.{result_err};
ghost use Rattle.history.specs.Past.{past};
ghost use Rattle.device_history.specs.declared.ask.Ask.TheVariants as asks;
ghost use Rattle.device_history.specs.Ranges.{control_with_range, range_check, ranges_now};
ghost use Rattle.device_history.specs.AskChecks.{published};
ghost use Rattle.ctrl_handlers.specs.Plan.{cluster_of};
ghost use Rattle.device_state.specs.Changed.{IsChangedBy};
ghost use Rattle.device_state.specs.Device.{Handles, MayRefuse, cluster_asks};
ghost use Rattle.device_state.specs.Ranging.{IsRanged, range_step};

use super::Device;
use ctrl_calls::{Driver, Work};
use ctrl_clusters::notify_cluster;
use ctrl_settle::Ctrl;
use ctrl_types::{Check, Refusal};
use device_history::{Reply, Step, refused};
use history::Entry;
use std::alloc::AllocError;

impl<D: Driver> Device<D> {
    // Answers an ask for another range of a control.
    #[inline(never)]
    pub(super) fn modify_range(
        &mut self,
        seat: u32,
        control: u32,
        min: i64,
        max: i64,
        step: u64,
        default_value: i64,
    ) -> Result<Reply, Refusal>
        ensures handles { Handles D.verdict self.old self.new seat (asks.ModifyRange control min max step default_value) (published (asks.ModifyRange control min max step default_value) result) }
        ensures why { IfErr result (MayRefuse D.verdict self.old (asks.ModifyRange control min max step default_value)) }
    {
        self.work = Work::new();
        let changed = match self.range_made(control, min, max, step, default_value) {
            Ok(changed) => changed,
            Err(check) => return refused(check),
        };
        if let Some(check) = self.step_check(None) {
            return refused(check);
        }
        match self.accept_range(seat, control, changed) {
            Ok(()) => Ok(Reply::Done),
            Err(_) => refused(Check::MemoryRefused),
        }
    }

    // A control with another range, or why it isn't given it.
    pub(super) fn range_made(
        &self,
        control: u32,
        min: i64,
        max: i64,
        step: u64,
        default_value: i64,
    ) -> Result<Ctrl, Check>
        ensures changed { IfOk result (λ changed. changed ≡ control_with_range (ranges_now self.now.plan (past self.now.steps)) control min max step default_value) }
        ensures check { result_err result ≡ range_check self.now.plan (past self.now.steps) control min max step default_value }
    {
        if control >= self.plan.control_count() {
            return Err(Check::ControlMissing);
        }
        let ctrl = self.range(control);
        match ctrl.with_range(min, max, step, default_value) {
            Ok(changed) => Ok(changed),
            Err(fault) => Err(fault.range_check()),
        }
    }

    // Gives a control another range, after the refusals.
    fn accept_range(&mut self, seat: u32, control: u32, changed: Ctrl) -> Result<(), AllocError>
        requires ranged { IsRanged self.old.plan (past self.old.steps) control changed }
        requires fresh { self.old.work.told ≡ 0 }
        ensures ok { OnOk result (IsChangedBy D.verdict D.told self.old self.new seat (range_step control changed) [] (cluster_asks self.old.plan (past self.old.steps) (cluster_of self.old.plan control))) }
        ensures err { OnErr result (self.new ≡ self.old) }
    {
        self.steps.reserve(1)?;
        let before = self.state.controls().value(control);
        self.state.modify_range(&self.plan, control, changed);
        let cluster = self.plan.cluster_of(control);
        let after = self.state.at(&self.plan);
        notify_cluster(
            &after,
            cluster,
            !before.is_same(&self.state.controls().value(control)),
            &mut self.words,
            &mut self.work,
        );
        self.board.rejudge(&after, &[cluster], &mut self.work);
        self.steps.push_reserved(Entry {
            seat,
            step: Step::ModifyRange {
                control,
                min: changed.minimum(),
                max: changed.maximum(),
                step: changed.step(),
                default_value: changed.default_value(),
            },
        });
        Ok(())
    }
}
