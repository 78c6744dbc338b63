//! What a range change does to ranges, values and events.

ghost use Rattle.std.specs.Prelude.{◌≡◌, ◌<◌, ◌≤◌, ◌+◌, ℕ, ℤ, length};
ghost use Rattle.history.specs.declared.entry.Entry.{Entry as EntryOf};
ghost use Rattle.ctrl_calls.specs.Meanings.{Verdicts};
ghost use Rattle.ctrl_types.specs.declared.ids.FhId.{FhId as FhIdOf};
ghost use Rattle.ctrl_settle.specs.Control.{with_range};
ghost use Rattle.ctrl_settle.specs.Settle.{settled_anew};
ghost use Rattle.ctrl_handlers.specs.Plan.{control_in};
ghost use Rattle.ctrl_clusters.specs.ControlsData.{given_range};
ghost use Rattle.ctrl_clusters.specs.Ranges.{HasRangeFor};
ghost use Rattle.ctrl_clusters.specs.Rows.{AreControlsOf, value_at};
ghost use Rattle.ctrl_events.specs.Events.{events_of};
ghost use Rattle.device_history.specs.declared.ask.Step.{Step as StepOf};
ghost use Rattle.device_history.specs.declared.ask.Step.TheVariants as steps;
ghost use Rattle.device_history.specs.Steps.{Past};
ghost use Rattle.device_history.specs.Controls.{controls_now};
ghost use Rattle.device_history.specs.EventSteps.{events_after};

use ctrl_calls::Driver;
use ctrl_clusters::Controls;
use ctrl_events::Events;
use ctrl_handlers::Plan;
use ctrl_raises::raise_range;
use ctrl_settle::{Ctrl, settle_anew};

// Gives a control another range, settles its value by it, and raises what that changes, as the history says of each file handle. The caller owes a control that is there,
// that `changed` is it with its new range, and of each file handle that there are numbers for an event of each control.
pub(crate) fn change_range<D: Driver>(
    plan: &Plan<D>,
    controls: &mut Controls,
    control: u32,
    changed: Ctrl,
    events: &mut Events,
)
    requires plan { AreControlsOf plan.now controls.old.ranges }
    requires known { control < length plan.now.controls }
    requires same { HasRangeFor (control_in controls.old.ranges control) changed }
    requires numbers { (j : ℕ) → (events_of events.old j).next + length plan.now.controls ≤ 4294967295 }
    ensures controls { controls.new ≡ given_range controls.old control changed (settled_anew changed (value_at controls.old.values control)) }
    ensures events { (verdicts : Verdicts) (e : EntryOf StepOf) (older : Past) (low high : ℤ) (apart : ℕ) (default_value : ℤ) → e.step ≡ steps.ModifyRange control low high apart default_value
        → changed ≡ with_range (control_in controls.old.ranges control) low high apart default_value → controls.old ≡ controls_now verdicts plan.now older
        → (fh : FhIdOf) → events_of events.new fh.0 ≡ events_after verdicts plan.now e older fh (events_of events.old fh.0) }
{
    let old = *controls.range(control);
    let value = controls.value(control);
    controls.modify_range(control, changed, settle_anew(&changed, &value));
    raise_range(&controls.at(plan), control, &old, &value, events);
}
