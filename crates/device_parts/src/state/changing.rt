//! The steps that change controls: a grab, a set, the begin of a frame and a range change. Each takes the room that its step needs by value, or needs none, so that
//! it can't fail.

ghost use Rattle.std.specs.Prelude.{◌≡◌, ◌<◌, ℕ, ℤ, None, Some, Ok, length, slice_get, slice_set, IfOk};
ghost use Rattle.ctrl_settle.specs.Control.{with_range};
ghost use Rattle.ctrl_settle.specs.Settle.{settled_anew};
ghost use Rattle.ctrl_handlers.specs.Plan.{control_in};
ghost use Rattle.ctrl_clusters.specs.ControlsData.{given_range};
ghost use Rattle.ctrl_clusters.specs.Ranges.{HasRangeFor};
ghost use Rattle.ctrl_clusters.specs.Rows.{value_at};
ghost use Rattle.req_book.specs.Requests.{find};
ghost use Rattle.frame_queue.specs.Frames.{after_begin, buffer_number};
ghost use Rattle.device_history.specs.declared.ask.Step.TheVariants as steps;
ghost use Rattle.device_parts.specs.QueuedFrames.{pairs_in};
ghost use Rattle.device_parts.specs.State.{IsReady};
ghost use Rattle.device_history.specs.Laid.{applied_over, laid};
ghost use Rattle.device_parts.specs.Makes.{Cover, Makes};

use super::State;
use crate::raising::raise_touched;
use crate::ranging::change_range;
use ctrl_calls::Driver;
use ctrl_handlers::Plan;
use ctrl_settle::Ctrl;
use ctrl_types::{CtrlValue, FhId, Pair, RequestId};
use std::alloc::{AllocError, Global};

impl State {
    /// The grabs once more, which `grab` takes (of this project). It changes nothing.
    ///
    /// - `alloc`: where they lie, where they haven't been lent before.
    ///
    /// The error is that a growth was refused.
    pub fn reserve_grab(&mut self, alloc: Global) -> Result<Vec<bool>, AllocError>
        ensures same { self.new ≡ self.old }
        ensures room { IfOk result (λ room. room.items ≡ self.old.controls.grabs) }
    {
        self.controls.lend_grabs(alloc)
    }

    /// Grabs a control, or lets it go, and raises what that changes (Linux driver API, `v4l2_ctrl_grab`; Linux userspace API, "ioctl VIDIOC_DQEVENT"). It takes no memory
    /// and refuses nothing.
    ///
    /// - `plan`: what the device is built of; the caller owes that the state is ready for a step of it, as `State` says.
    /// - `control`: the number of a control; the caller owes one below `Plan::control_count`.
    /// - `on`: whether it is grabbed from now on.
    /// - `room`: the grabs once more, as `reserve_grab` lends them.
    pub fn grab<D: Driver>(&mut self, plan: &Plan<D>, control: u32, on: bool, mut room: Vec<bool>)
        requires ready { IsReady plan.now self.old }
        requires known { control < length plan.now.controls }
        requires room { room.items ≡ self.old.controls.grabs }
        ensures file_handles { self.new.file_handles ≡ self.old.file_handles }
        ensures controls { self.new.controls ≡ record self.old.controls { grabs = slice_set self.old.controls.grabs control on } }
        ensures frames { self.new.frames ≡ self.old.frames }
        ensures makes { (number : ℕ) → Makes D.verdict plan.now number (steps.Grab control on) self.old self.new }
    {
        room[control as usize] = on;
        let change = self.controls.to_grabs(plan, room.as_slice());
        let cluster = plan.cluster_of(control);
        raise_touched(&change, &[], None, &[cluster], &mut self.events);
        self.controls.replace_grab(room, control, on);
    }

    /// The values once more, into which the rows of a set are written before `set` takes them (of this project). It changes nothing.
    ///
    /// - `alloc`: where they lie, where they haven't been lent before.
    ///
    /// The error is that a growth was refused.
    pub fn reserve_values(&mut self, alloc: Global) -> Result<Vec<CtrlValue>, AllocError>
        ensures same { self.new ≡ self.old }
        ensures room { IfOk result (λ room. room.items ≡ self.old.controls.values) }
    {
        self.controls.lend_values(alloc)
    }

    /// Gives controls the values that a set makes of theirs, and raises what that changes (Linux userspace API, "Extended Controls API", "ioctl VIDIOC_DQEVENT"). It takes no
    /// memory and refuses nothing.
    ///
    /// - `plan`: what the device is built of; the caller owes that the state is ready for a step of it, as `State` says.
    /// - `fh`: the file handle whose set it is.
    /// - `pairs`: what is set.
    /// - `clusters`: some clusters in any order, each below `Plan::cluster_count`; the caller owes that each with a member among the pairs is one of them.
    /// - `values`: the values afterwards; the caller owes that they are the pairs laid over the present ones, cluster by cluster.
    pub fn set<D: Driver>(
        &mut self,
        plan: &Plan<D>,
        fh: FhId,
        pairs: &[Pair],
        clusters: &[u32],
        values: Vec<CtrlValue>,
    )
        requires ready { IsReady plan.now self.old }
        requires cover { Cover plan.now clusters.now pairs.now }
        requires laid { values.items ≡ laid D.verdict plan.now self.old.controls pairs.now }
        ensures file_handles { self.new.file_handles ≡ self.old.file_handles }
        ensures controls { self.new.controls ≡ record self.old.controls { values = values.items } }
        ensures frames { self.new.frames ≡ self.old.frames }
        ensures makes { (number : ℕ) → Makes D.verdict plan.now number (steps.Set fh pairs.now) self.old self.new }
    {
        let change = self.controls.to_values(plan, values.as_slice());
        raise_touched(&change, pairs, Some(fh), clusters, &mut self.events);
        self.controls.replace_within(plan, values, clusters);
    }

    /// Begins the frame of the first request that waits: gives controls the values that it makes of theirs, raises what that changes, and has the request run; it answers the
    /// number of the request's buffer (Linux userspace API, "Request API", "ioctl VIDIOC_DQEVENT"; begins as calls are of this project). It takes no memory and refuses nothing.
    ///
    /// - `plan`: what the device is built of; the caller owes that the state is ready for a step of it, as `State` says.
    /// - `request`: the request; the caller owes that it is the first that waits, and that no other runs.
    /// - `values`: the values afterwards; the caller owes that they are what the request asks for laid over the present ones, cluster by cluster.
    /// - `given`: what is applied; the caller owes that it is what the request asks for in clusters that aren't refused, with the values afterwards.
    /// - `clusters`: some clusters in any order, each below `Plan::cluster_count`; the caller owes that each with a member among what the request asks for is one of
    ///   them.
    pub fn begin<D: Driver>(
        &mut self,
        plan: &Plan<D>,
        request: RequestId,
        values: Vec<CtrlValue>,
        given: &[Pair],
        clusters: &[u32],
    ) -> u32
        requires ready { IsReady plan.now self.old }
        requires free { self.old.frames.running ≡ None }
        requires first { slice_get self.old.frames.queue 0 ≡ Some request.0 }
        requires cover { Cover plan.now clusters.now (pairs_in (find self.old.frames.requests.all request.0)) }
        requires laid { values.items ≡ laid D.verdict plan.now self.old.controls (pairs_in (find self.old.frames.requests.all request.0)) }
        requires applied { given.now ≡ applied_over D.verdict plan.now self.old.controls (pairs_in (find self.old.frames.requests.all request.0)) }
        ensures number { result ≡ buffer_number (find self.old.frames.requests.all request.0) }
        ensures file_handles { self.new.file_handles ≡ self.old.file_handles }
        ensures controls { self.new.controls ≡ record self.old.controls { values = values.items } }
        ensures frames { self.new.frames ≡ after_begin self.old.frames given.now }
        ensures makes { (number : ℕ) → Makes D.verdict plan.now number (steps.Begin request) self.old self.new }
    {
        let change = self.controls.to_values(plan, values.as_slice());
        raise_touched(&change, given, None, clusters, &mut self.events);
        self.controls.replace_within(plan, values, clusters);
        let (_, number) = self.frames.begin(given);
        number
    }

    /// Gives a control another range, settles its value by it, and raises what that changes (Linux driver API, `v4l2_ctrl_modify_range`; Linux userspace API, "ioctl
    /// VIDIOC_DQEVENT"). It takes no memory and refuses nothing.
    ///
    /// - `plan`: what the device is built of; the caller owes that the state is ready for a step of it, as `State` says.
    /// - `control`: the number of a control; the caller owes one below `Plan::control_count`.
    /// - `changed`: the control with its new range, as `Ctrl::with_range` makes it; the caller owes that its id, kind, flags, skipped items and number of elements are
    ///   those that it had.
    pub fn modify_range<D: Driver>(&mut self, plan: &Plan<D>, control: u32, changed: Ctrl)
        requires ready { IsReady plan.now self.old }
        requires known { control < length plan.now.controls }
        requires same { HasRangeFor (control_in self.old.controls.ranges control) changed }
        ensures file_handles { self.new.file_handles ≡ self.old.file_handles }
        ensures controls { self.new.controls ≡ given_range self.old.controls control changed (settled_anew changed (value_at self.old.controls.values control)) }
        ensures frames { self.new.frames ≡ self.old.frames }
        ensures makes { (number : ℕ) (low high : ℤ) (apart : ℕ) (default_value : ℤ) → changed ≡ with_range (control_in self.old.controls.ranges control) low high apart default_value
            → Makes D.verdict plan.now number (steps.ModifyRange control low high apart default_value) self.old self.new }
    {
        change_range(plan, &mut self.controls, control, changed, &mut self.events);
    }
}
