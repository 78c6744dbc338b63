//! What follows from the one definition of what queued frames will have. Each law is the contract of a function that does nothing.

ghost use Rattle.std.specs.Prelude.{◌≡◌, List, ◌∷◌, drop};
ghost use Rattle.ctrl_calls.specs.Meanings.{Verdicts};
ghost use Rattle.ctrl_settle.specs.Control.{Control};
ghost use Rattle.ctrl_handlers.specs.Plan.{PlanData};
ghost use Rattle.ctrl_clusters.specs.Rows.{Values, Grabs};
ghost use Rattle.ctrl_clusters.specs.Overlay.{overlay};
ghost use Rattle.ctrl_forecast.specs.Boards.{BoardData, board_of};
ghost use Rattle.ctrl_forecast.specs.Forecasts.{QueuedData};

/// What is kept of queued frames, without the first one, is what is kept of those behind it, over the values that it leaves. So nobody has to be
/// asked anew once the first frame has begun and left its values.
#[tactic(auto, using(crate::proofs::BoardLemmas::popped))]
pub fn popped_rows()
    ensures { (verdicts : Verdicts) (plan : PlanData) (controls : List Control) (grabs : Grabs) (values : Values) (q : QueuedData) (qs : List QueuedData)
        → ◌≡◌ {A = BoardData} (record { queued = drop 1 (board_of verdicts plan controls values grabs (q ∷ qs)).queued; named = drop 1 (board_of verdicts plan controls values grabs (q ∷ qs)).named; forecasts = drop 1 (board_of verdicts plan controls values grabs (q ∷ qs)).forecasts })
        (board_of verdicts plan controls (overlay verdicts plan controls values grabs q.asked) grabs qs) }
{}
