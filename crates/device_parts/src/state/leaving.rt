//! The steps that leave the controls: those of file handles, of requests but for the begin of a frame, and of events.

ghost use Rattle.std.specs.Prelude.{◌≡◌, ◌≤◌, ◌+◌, ℕ, ◌++◌, ◌∷◌, [], None, true, length, map, nat_eq, OnOk, OnErr};
ghost use Rattle.std.specs.Map.{lookup, remove_entry};
ghost use Rattle.ctrl_events.specs.Events.{events_of, no_events, only_at};
ghost use Rattle.ctrl_forecast.specs.Boards.{board_of};
ghost use Rattle.frame_queue.specs.Frames.{AreOnce};
ghost use Rattle.device_history.specs.declared.ask.Step.TheVariants as steps;
ghost use Rattle.device_history.specs.FrameSteps.{frames_changed};
ghost use Rattle.device_parts.specs.Leaving.{FitsIn, NamesKnown, leaves_controls};
ghost use Rattle.device_parts.specs.QueuedFrames.{asks_at_most, queued_after};
ghost use Rattle.device_parts.specs.State.{IsReady};
ghost use Rattle.device_parts.specs.Makes.{Makes, MakesEverywhere};

use super::State;
use crate::requests_and_events::change_requests_and_events;
use crate::with_forecasts::change_with_forecasts;
use ctrl_calls::{Driver, Work};
use ctrl_forecast::Board;
use ctrl_handlers::Plan;
use ctrl_types::FhId;
use device_history::Step;
use std::alloc::AllocError;

impl State {
    /// Opens a file handle, the last (of this project).
    ///
    /// - `number`: its id, which is the step's place in the history; the caller owes that no open one has it.
    /// - `handler`: the number of its handler.
    ///
    /// The error is that a growth was refused; nothing was changed then.
    pub fn open(&mut self, number: u32, handler: u32) -> Result<(), AllocError>
        requires { lookup (nat_eq number) self.old.file_handles ≡ None }
        ensures ok { OnOk result (self.new ≡ record self.old { file_handles = self.old.file_handles ++ (number, handler) ∷ [] }) }
        ensures makes { OnOk result (MakesEverywhere number (steps.OpenFh handler) self.old self.new) }
        ensures err { OnErr result (self.new ≡ self.old) }
    {
        self.file_handles.insert(number, handler)?;
        Ok(())
    }

    /// Closes a file handle, and drops its subscriptions and the events that wait for it (of this project). It takes no memory and refuses nothing.
    ///
    /// - `fh`: any file handle; one that isn't open changes no other.
    pub fn close(&mut self, fh: FhId)
        ensures file_handles { self.new.file_handles ≡ remove_entry (nat_eq fh.0) self.old.file_handles }
        ensures controls { self.new.controls ≡ self.old.controls }
        ensures frames { self.new.frames ≡ self.old.frames }
        ensures events { (j : ℕ) → events_of self.new.events j ≡ only_at fh.0 (λ f. no_events) j (events_of self.old.events j) }
        ensures makes { (number : ℕ) → MakesEverywhere number (steps.CloseFh fh) self.old self.new }
    {
        self.file_handles.shift_remove(&fh.0);
        self.events.drop_fh(fh);
    }

    /// Makes a step that leaves file handles and controls: one about requests but for the begin of a frame, or one about events (Linux userspace API, "Request API", "ioctl
    /// VIDIOC_SUBSCRIBE_EVENT, VIDIOC_UNSUBSCRIBE_EVENT", "ioctl VIDIOC_DQEVENT"). To make a request, to store pairs, to queue and to subscribe take memory.
    ///
    /// - `plan`: what the device is built of; the caller owes that the state is ready for a step of it, as `State` says.
    /// - `number`: the step's place in the history, which is the id of a request that it makes.
    /// - `step`: the step; the caller owes such a one, that nothing refuses.
    ///
    /// The error is that a growth was refused; nothing was changed then.
    pub fn change<D: Driver>(
        &mut self,
        plan: &Plan<D>,
        number: u32,
        step: &Step,
    ) -> Result<(), AllocError>
        requires leaves { leaves_controls step.now ≡ true }
        requires ready { IsReady plan.now self.old }
        requires fits { FitsIn number step.now self.old.frames }
        requires known { NamesKnown (length plan.now.controls) step.now }
        ensures file_handles { self.new.file_handles ≡ self.old.file_handles }
        ensures controls { self.new.controls ≡ self.old.controls }
        ensures frames { OnOk result (self.new.frames ≡ frames_changed self.old.controls.values [] number step.now self.old.frames) }
        ensures makes { OnOk result (Makes D.verdict plan.now number step.now self.old self.new) }
        ensures err { OnErr result (self.new ≡ self.old) }
    {
        change_requests_and_events(
            &self.controls.at(plan),
            number,
            step,
            &mut self.frames,
            &mut self.events,
        )
    }

    /// Makes such a step, as `change` does, where the forecasts of the queued frames are kept, and these with it (the forecasts are of this project).
    ///
    /// - `plan`, `number`, `step`: as of `change`.
    /// - `board`: the queued frames, with what they will have at the present moment; the caller owes that no request is queued twice.
    /// - `work`: its count `asked` grows, where a frame is queued, by at most one for each cluster that it names; where one is cancelled, by at most one for each of these and
    ///   each frame behind it that names the cluster too; else by none.
    ///
    /// The error is that a growth was refused; nothing was changed then but `work`.
    pub fn change_with_forecasts<D: Driver>(
        &mut self,
        plan: &Plan<D>,
        number: u32,
        step: &Step,
        board: &mut Board,
        work: &mut Work,
    ) -> Result<(), AllocError>
        requires leaves { leaves_controls step.now ≡ true }
        requires ready { IsReady plan.now self.old }
        requires fits { FitsIn number step.now self.old.frames }
        requires known { NamesKnown (length plan.now.controls) step.now }
        requires board { board.old ≡ board_of D.verdict plan.now self.old.controls.ranges self.old.controls.values self.old.controls.grabs board.old.queued }
        requires once { AreOnce (map (λ q. q.request.0) board.old.queued) }
        ensures file_handles { self.new.file_handles ≡ self.old.file_handles }
        ensures controls { self.new.controls ≡ self.old.controls }
        ensures makes { OnOk result (Makes D.verdict plan.now number step.now self.old self.new) }
        ensures board { OnOk result (board.new ≡ board_of D.verdict plan.now self.old.controls.ranges self.old.controls.values self.old.controls.grabs (queued_after self.old.frames step.now board.old.queued)) }
        ensures err { OnErr result (self.new ≡ self.old) }
        ensures board_kept { OnErr result (board.new ≡ board.old) }
        ensures asked { work.new.asked ≤ work.old.asked + asks_at_most plan.now self.old.frames step.now board.old.queued }
        ensures grows { work.old.asked ≤ work.new.asked }
        ensures told { work.new.told ≡ work.old.told }
    {
        change_with_forecasts(
            &self.controls.at(plan),
            number,
            step,
            &mut self.frames,
            &mut self.events,
            board,
            work,
        )
    }
}
