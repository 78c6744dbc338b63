ghost use Rattle.std.specs.Prelude.{◌≡◌, [], IfOk, nat_eq};
ghost use Rattle.std.specs.Map.{lookup};
ghost use Rattle.ctrl_clusters.specs.Rows.{AreControlsOf};
ghost use Rattle.device_parts.specs.State.{IsMade, IsStart};

mod changing;
mod leaving;

use ctrl_calls::Driver;
use ctrl_clusters::{Controls, Moment};
use ctrl_events::Events;
use ctrl_handlers::Plan;
use ctrl_types::FhId;
use frame_queue::Frames;
use indexmap::IndexMap;
use std::alloc::{AllocError, Global};
use std::marker::Model;

/// The state of a device, which the steps of its history make: the open file handles, the present ranges, values and grabs, the requests with their queue, and the
/// events of file handles. Contracts see these four parts. Who owns it says of which steps it is made; each method makes one more step of it, as `Makes` says, where the
/// caller has seen to it that nothing refuses the step. It is ready for one of a plan where its ranges are of the plan's controls, with a value and a grab for each, and the number
/// of each file handle's next event is at most 4294967295 less the number of controls; a state that at most 1,000,000 steps of the plan made is.
#[derive(Drop)]
pub struct State {
    // the open file handles, each with its handler, in the order of their opening
    file_handles: IndexMap<u32, u32>,
    controls: Controls,
    frames: Frames,
    events: Events,
}

impl Model for State {
    ghost use Rattle.std.specs.Prelude.{◌≡◌, length};
    ghost use Rattle.device_parts.specs.State.{StateData};

    ghost Value = { StateData };

    ghost view = { λ s. record { file_handles = s.file_handles.entries; controls = s.controls; frames = s.frames; events = s.events } };

    ghost invariant = { λ s. s.frames.requests.controls ≡ length s.controls.ranges };
}

impl State {
    /// What a device starts with, which no step made (of this project).
    ///
    /// - `alloc`: where the parts lie.
    /// - `plan`: what the device is built of.
    ///
    /// The error is that a growth was refused.
    pub fn new<D: Driver>(alloc: Global, plan: &Plan<D>) -> Result<State, AllocError>
        ensures start { IfOk result (IsStart plan.now) }
        ensures made { IfOk result (IsMade D.verdict plan.now []) }
    {
        let controls = Controls::of_plan(alloc, plan)?;
        let Ok(frames) = Frames::new(alloc, plan.controls().len() as u32) else {
            return Err(AllocError);
        };
        Ok(State {
            file_handles: IndexMap::new(alloc),
            controls,
            frames,
            events: Events::new(alloc),
        })
    }

    /// The open file handles, each with the number of its handler, in the order of their opening (of this project). It takes no memory and refuses nothing.
    pub fn file_handles(&self) -> &IndexMap<u32, u32>
        ensures { result.now.entries ≡ self.now.file_handles }
    {
        &self.file_handles
    }

    /// The number of the handler that a file handle is open on; none where it isn't open (of this project). It takes no memory.
    ///
    /// - `fh`: any file handle, open or not.
    pub fn handler_of(&self, fh: FhId) -> Option<u32>
        ensures { result ≡ lookup (nat_eq fh.0) self.now.file_handles }
    {
        self.file_handles.get(&fh.0).copied()
    }

    /// The present ranges, values and grabs (Linux driver API, "V4L2 Controls"). It takes no memory and refuses nothing.
    pub fn controls(&self) -> &Controls
        ensures { result.now ≡ self.now.controls }
    {
        &self.controls
    }

    /// The requests, their queue, and the one whose frame is being made (Linux userspace API, "Request API"). It takes no memory and refuses nothing.
    pub fn frames(&self) -> &Frames
        ensures { result.now ≡ self.now.frames }
    {
        &self.frames
    }

    /// The events of file handles (Linux userspace API, "ioctl VIDIOC_DQEVENT"). It takes no memory and refuses nothing.
    pub fn events(&self) -> &Events
        ensures { result.now ≡ self.now.events }
    {
        &self.events
    }

    /// The present moment, which readers of ranges, values and grabs take. It takes no memory and refuses nothing.
    ///
    /// - `plan`: what the device is built of; the caller owes that the controls are the plan's.
    pub fn at<'a, D: Driver>(&'a self, plan: &'a Plan<D>) -> Moment<'a, D>
        requires { AreControlsOf plan.now self.now.controls.ranges }
        ensures plan { result.plan.now ≡ plan.now }
        ensures ranges { result.ranges.now ≡ self.now.controls.ranges }
        ensures values { result.values.now ≡ self.now.controls.values }
        ensures grabs { result.grabs.now ≡ self.now.controls.grabs }
    {
        self.controls.at(plan)
    }
}
