//! What a set, the begin of a frame, and a grab raise.

ghost use Rattle.std.specs.Prelude.{◌≡◌, ◌<◌, ◌≤◌, ◌+◌, ℕ, length};
ghost use Rattle.std.specs.List.{All};
ghost use Rattle.history.specs.declared.entry.Entry.{Entry as EntryOf};
ghost use Rattle.ctrl_calls.specs.Meanings.{Verdicts};
ghost use Rattle.ctrl_types.specs.declared.ids.FhId.{FhId as FhIdOf};
ghost use Rattle.ctrl_clusters.specs.Moments.{parts, parts_after};
ghost use Rattle.ctrl_events.specs.Events.{events_of};
ghost use Rattle.device_history.specs.declared.ask.Step.{Step as StepOf};
ghost use Rattle.device_history.specs.Steps.{Past};
ghost use Rattle.device_history.specs.EventSteps.{AreAround, events_after};
ghost use Rattle.ctrl_raises.specs.Within.{DifferWithin};
ghost use Rattle.device_parts.specs.Sources.{IsSourceOf};

use ctrl_calls::Driver;
use ctrl_clusters::Change;
use ctrl_events::Events;
use ctrl_handlers::Plan;
use ctrl_raises::{raise_between, raise_within};
use ctrl_types::{FhId, Pair};

// Raises what a set, the begin of a frame, or a grab changes, as the history says of each file handle; but for so many clusters that to look at all controls is less, it
// looks at the members of some clusters alone. `pairs` is what was applied: the pairs of a set, those that the begin of a frame applies, or none of a grab; `from` is the
// file handle whose set it is. The caller owes that nothing differs outside of the clusters, as `raise_within` says, and of each file handle that there are numbers for an
// event of each control.
pub(crate) fn raise_touched<D: Driver>(
    change: &Change<D>,
    pairs: &[Pair],
    from: Option<FhId>,
    clusters: &[u32],
    events: &mut Events,
)
    requires numbers { (j : ℕ) → (events_of events.old j).next + length change.now.before.plan.now.controls ≤ 4294967295 }
    requires known { All (λ k. k < length change.now.before.plan.now.clusters) clusters.now }
    requires within { DifferWithin change.now.before.plan.now clusters.now (parts change.now.before) (parts_after change.now) pairs.now }
    ensures { (verdicts : Verdicts) (e : EntryOf StepOf) (older : Past) → AreAround verdicts change.now.before.plan.now e older (parts change.now.before) (parts_after change.now) → IsSourceOf verdicts change.now.before.plan.now older e.step pairs.now from
        → (fh : FhIdOf) → events_of events.new fh.0 ≡ events_after verdicts change.now.before.plan.now e older fh (events_of events.old fh.0) }
{
    if are_many(clusters, change.before.plan) {
        raise_between(change, pairs, from, events);
    } else {
        raise_within(change, pairs, from, clusters, events);
    }
}

// Whether clusters are so many that to look at all controls is less: the next member in the order of numbers is looked for among all of them each time.
fn are_many<D: Driver>(clusters: &[u32], plan: &Plan<D>) -> bool {
    clusters.len().saturating_mul(clusters.len()) > plan.controls().len()
}
