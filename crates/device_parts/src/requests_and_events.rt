//! What the steps do that leave file handles, grabs, ranges and values: those about requests but for the begin of a frame, and those about events.

ghost use Rattle.std.specs.Prelude.{◌≡◌, ◌<◌, ◌≤◌, ◌+◌, ℕ, true, [], length, OnOk, OnErr};
ghost use Rattle.history.specs.declared.entry.Entry.{Entry as EntryOf};
ghost use Rattle.ctrl_calls.specs.Meanings.{Verdicts};
ghost use Rattle.ctrl_types.specs.declared.ids.FhId.{FhId as FhIdOf};
ghost use Rattle.ctrl_events.specs.Events.{events_of, only_at};
ghost use Rattle.ctrl_clusters.specs.Moments.{parts};
ghost use Rattle.device_history.specs.declared.ask.Step.{Step as StepOf};
ghost use Rattle.device_history.specs.declared.ask.Step.TheVariants as steps;
ghost use Rattle.device_history.specs.Steps.{Past};
ghost use Rattle.device_history.specs.Controls.{controls_now};
ghost use Rattle.device_history.specs.EventSteps.{unsubscribed_if_named, events_after};
ghost use Rattle.device_history.specs.FrameSteps.{frames_changed};
ghost use Rattle.device_parts.specs.Leaving.{FitsIn, NamesKnown, leaves_controls};

use ctrl_calls::Driver;
use ctrl_clusters::Moment;
use ctrl_events::Events;
use ctrl_raises::{initial_changes, payload_at};
use ctrl_types::{CtrlValue, FhId, RequestId, SubFlags};
use device_history::Step;
use frame_queue::Frames;
use std::alloc::AllocError;

// Changes the requests, the queue and the events as a step does that leaves file handles, grabs, ranges and values, which the caller owes that nothing refuses. `number` is
// the step's place in the history, and the id of a request that it makes. The error is that a growth was refused; nothing was changed then.
pub(crate) fn change_requests_and_events<D: Driver>(
    at: &Moment<D>,
    number: u32,
    step: &Step,
    frames: &mut Frames,
    events: &mut Events,
) -> Result<(), AllocError>
    requires leaves { leaves_controls step.now ≡ true }
    requires fits { FitsIn number step.now frames.old }
    requires known { NamesKnown (length at.now.plan.now.controls) step.now }
    requires frames { frames.old.requests.controls ≡ length at.now.plan.now.controls }
    requires numbers { (j : ℕ) → (events_of events.old j).next + length at.now.plan.now.controls ≤ 4294967295 }
    ensures frames { OnOk result (frames.new ≡ frames_changed at.now.values.now [] number step.now frames.old) }
    ensures events { OnOk result ((verdicts : Verdicts) (e : EntryOf StepOf) (older : Past) → e.step ≡ step.now → parts at.now ≡ controls_now verdicts at.now.plan.now older
        → (fh : FhIdOf) → events_of events.new fh.0 ≡ events_after verdicts at.now.plan.now e older fh (events_of events.old fh.0)) }
    ensures frames_kept { OnErr result (frames.new ≡ frames.old) }
    ensures events_kept { OnErr result (events.new ≡ events.old) }
{
    match step {
        Step::Subscribe { fh, control, flags } => { subscribe(at, *fh, *control, *flags, events) }
        Step::Unsubscribe { fh, control } => {
            unsubscribe(events, *fh, *control);
            Ok(())
        }
        Step::Take { fh, .. } => {
            let _ = events.take_first(*fh);
            Ok(())
        }
        _ => change_frames(frames, at.values, number, step),
    }
}

// Changes the requests and the queue, as a step about them does. The error is that a growth was refused.
fn change_frames(
    frames: &mut Frames,
    values: &[CtrlValue],
    number: u32,
    step: &Step,
) -> Result<(), AllocError>
    requires fits { FitsIn number step.now frames.old }
    requires values { length values.now ≡ frames.old.requests.controls }
    ensures ok { OnOk result (frames.new ≡ frames_changed values.now [] number step.now frames.old) }
    ensures err { OnErr result (frames.new ≡ frames.old) }
{
    match step {
        Step::Alloc => frames.alloc(RequestId(number)),
        Step::Store { request, pairs } => frames.store(*request, pairs.as_slice()),
        Step::Buffer { request, buffer } => {
            frames.add_buffer(*request, *buffer);
            Ok(())
        }
        Step::Queue { request } => {
            let room = frames.reserve()?;
            frames.queue(*request, room);
            Ok(())
        }
        Step::Complete { .. } => {
            frames.complete(values);
            Ok(())
        }
        Step::Cancel { request } => {
            frames.cancel(*request, values);
            Ok(())
        }
        Step::StreamOff => {
            frames.stream_off(values);
            Ok(())
        }
        Step::Reinit { request } => {
            frames.reinit(*request);
            Ok(())
        }
        Step::Free { request } => {
            frames.free(*request);
            Ok(())
        }
        Step::OpenFh { .. }
        | Step::CloseFh { .. }
        | Step::Set { .. }
        | Step::Grab { .. }
        | Step::ModifyRange { .. }
        | Step::Begin { .. }
        | Step::Subscribe { .. }
        | Step::Unsubscribe { .. }
        | Step::Take { .. } => Ok(()),
    }
}

// Subscribes a file handle to the events of a control.
fn subscribe<D: Driver>(
    at: &Moment<D>,
    fh: FhId,
    control: u32,
    flags: SubFlags,
    events: &mut Events,
) -> Result<(), AllocError>
    requires known { control < length at.now.plan.now.controls }
    requires numbers { (events_of events.old fh.0).next < 4294967295 }
    ensures ok { OnOk result ((verdicts : Verdicts) (e : EntryOf StepOf) (older : Past) → e.step ≡ steps.Subscribe fh control flags → parts at.now ≡ controls_now verdicts at.now.plan.now older
        → (j : FhIdOf) → events_of events.new j.0 ≡ events_after verdicts at.now.plan.now e older j (events_of events.old j.0)) }
    ensures err { OnErr result (events.new ≡ events.old) }
{
    let payload = payload_at(at, control);
    let changes = initial_changes(at.plan, control);
    events.subscribe(fh, control, flags, changes, &payload)
}

// Ends the subscription of a file handle, where a control is named.
fn unsubscribe(events: &mut Events, fh: FhId, control: Option<u32>)
    ensures { (j : ℕ) → events_of events.new j ≡ only_at fh.0 (unsubscribed_if_named control) j (events_of events.old j) }
{
    if let Some(control) = control {
        events.unsubscribe(fh, control);
    }
}
