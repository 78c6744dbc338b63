//! What follows from the definitions. Each law is the contract of a function that does nothing.

ghost use Rattle.std.specs.Prelude.{◌≡◌, ◌<◌, ◌↔◌, ℕ, true, [], ◌∷◌, None, Some, length, slice_get};
ghost use Rattle.ctrl_types.specs.declared.value.CtrlValue.{CtrlValue};
ghost use Rattle.ctrl_calls.specs.Meanings.{Verdicts};
ghost use Rattle.ctrl_settle.specs.Control.{Control, is_array};
ghost use Rattle.ctrl_settle.specs.Faults.{IsWellFormed};
ghost use Rattle.ctrl_settle.specs.Settle.{IsSettled};
ghost use Rattle.ctrl_handlers.specs.Plan.{PlanData, IsPlan, cluster_at, cluster_of, control_in, members};
ghost use Rattle.ctrl_clusters.specs.Rows.{value_at};
ghost use Rattle.ctrl_forecast.specs.declared.board.Forecast.{Forecast};
ghost use Rattle.device_history.specs.Forecasts.{forecast};
ghost use Rattle.device_history.specs.Legal.{IsLegal};
ghost use Rattle.device_history.specs.Ranges.{ranges_now};
ghost use Rattle.device_history.specs.Steps.{Past};
ghost use Rattle.device_history.specs.Values.{now};
ghost use Rattle.taken_values.specs.Kinds.{IsValueOf};

/// A control takes the values of its kind as they are, and no others.
pub fn values_of_kinds()
    ensures { (c : Control) (v : CtrlValue) → IsWellFormed c → IsSettled c v ↔ IsValueOf c v }
{}

/// After every legal history nothing is wrong with a control that has its range of the moment.
pub fn sound_ranges()
    ensures { (verdicts : Verdicts) (plan : PlanData) (older : Past) (c : ℕ) → IsPlan plan → IsLegal verdicts plan older → c < length plan.controls → IsWellFormed (control_in (ranges_now plan older) c) }
{}

/// After every legal history each control takes its present value as it is, with its range of the moment: so the value is one of its kind. That holds whatever validators answer, since a row
/// that one of them makes is refused where a member doesn't take its value as it is.
pub fn taken_present_values()
    ensures taken { (verdicts : Verdicts) (plan : PlanData) (older : Past) (c : ℕ) → IsPlan plan → IsLegal verdicts plan older → c < length plan.controls
        → IsSettled (control_in (ranges_now plan older) c) (value_at (now verdicts plan older) c) }
    ensures kinds { (verdicts : Verdicts) (plan : PlanData) (older : Past) (c : ℕ) → IsPlan plan → IsLegal verdicts plan older → c < length plan.controls
        → IsValueOf (control_in (ranges_now plan older) c) (value_at (now verdicts plan older) c) }
{}

/// The same of each value that a queued frame will have, as the forecasts stand after the history.
pub fn taken_forecast_values()
    ensures taken { (verdicts : Verdicts) (plan : PlanData) (older : Past) (place c : ℕ) (row : Forecast) → IsPlan plan → IsLegal verdicts plan older → c < length plan.controls → slice_get (forecast verdicts plan older) place ≡ Some row
        → IsSettled (control_in (ranges_now plan older) c) (value_at row.values c) }
    ensures kinds { (verdicts : Verdicts) (plan : PlanData) (older : Past) (place c : ℕ) (row : Forecast) → IsPlan plan → IsLegal verdicts plan older → c < length plan.controls → slice_get (forecast verdicts plan older) place ≡ Some row
        → IsValueOf (control_in (ranges_now plan older) c) (value_at row.values c) }
{}

/// After every history an array is the only member of its cluster, which is no auto cluster.
pub fn lone_arrays()
    ensures { (plan : PlanData) (older : Past) (c k : ℕ) → IsPlan plan → cluster_of plan c ≡ Some k → is_array (control_in (ranges_now plan older) c) ≡ true
        → (members plan k ≡ c ∷ []) × ((cluster_at plan k).manual ≡ None) }
{}
