//! What follows from the definitions. Each law is the contract of a function that does nothing.

ghost use Rattle.std.specs.Prelude.{◌≡◌, ◌<◌, ℕ, length, slice_index};
ghost use Rattle.history.specs.Past.{past};
ghost use Rattle.ctrl_calls.specs.Meanings.{Verdicts};
ghost use Rattle.ctrl_clusters.specs.Notified.{HaveWords};
ghost use Rattle.device_history.specs.Values.{now};
ghost use Rattle.device_state.specs.Device.{DeviceData};
ghost use Rattle.device_renewal.specs.Alike.{StandAlike};
ghost use Rattle.device_renewal.specs.Words.{SayOne};

use ctrl_calls::Driver;

/// Two devices of one plan that stand alike have told their clusters the same words last, where notifiers say one word of a row, as those of data do.
pub fn told_alike<D: Driver>()
    ensures { (verdicts : Verdicts) (one other : DeviceData) (k : ℕ) → SayOne D.told → one.plan ≡ other.plan → StandAlike verdicts one other
        → HaveWords D.told one.plan (now verdicts one.plan (past one.steps)) one.words → HaveWords D.told other.plan (now verdicts other.plan (past other.steps)) other.words
        → k < length one.plan.clusters → slice_index one.words k ≡ slice_index other.words k }
{}
