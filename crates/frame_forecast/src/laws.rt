//! What follows from the one definition of what queued frames will have. Each law is the contract of a function that does nothing.

ghost use Rattle.std.specs.Prelude.{◌≡◌, ◌<◌, List, ◌∷◌, drop, length};
ghost use Rattle.ctrl_calls.specs.Meanings.{Verdicts};
ghost use Rattle.ctrl_handlers.specs.Plan.{IsFinished, PlanData};
ghost use Rattle.ctrl_clusters.specs.ControlsData.{ControlsData};
ghost use Rattle.ctrl_clusters.specs.Following.{AreAtRest, laid_over, reached_clusters};
ghost use Rattle.ctrl_clusters.specs.Overlay.{refused_clusters};
ghost use Rattle.frame_forecast.specs.Boards.{BoardData, IsBoard};
ghost use Rattle.ctrl_forecast.specs.Forecasts.{QueuedData};
ghost use Rattle.frame_forecast.specs.Forecasts.{forecasts};
ghost use Rattle.ctrl_forecast.specs.Boards.{named_clusters};
ghost use Rattle.frame_forecast.specs.Seen.{all_seen};
ghost use Rattle.frame_forecast.specs.Sparse.{linked, sparse_at};

/// What is read off kept frames is what they will have.
#[tactic(auto, using(crate::proofs::BoardLemmas::kept_seen))]
pub fn kept_forecasts()
    ensures { (verdicts : Verdicts) (plan : PlanData) (c : ControlsData) (queued : List QueuedData) (board : BoardData) → IsFinished plan → AreAtRest plan c → IsBoard verdicts plan c queued board
        → all_seen c.values board.frames ≡ forecasts verdicts plan c queued }
{}

/// What is kept of queued frames, without the first one, is what is kept of those behind it, over what it leaves. So nobody has to be asked anew once the first frame has
/// begun: its values then are those that it gives in the place of others, its refused clusters are kept with it, and so are the clusters that it can change.
#[tactic(auto, using(crate::proofs::BoardLemmas::begun_board, crate::proofs::BoardLemmas::begun_values, crate::proofs::BoardLemmas::begun_refused, crate::proofs::BoardLemmas::begun_reached))]
pub fn begun_frames()
    ensures rest { (verdicts : Verdicts) (plan : PlanData) (c : ControlsData) (q : QueuedData) (qs : List QueuedData) (board : BoardData) → IsFinished plan → AreAtRest plan c → IsBoard verdicts plan c (q ∷ qs) board
        → IsBoard verdicts plan (laid_over verdicts plan c q.asked) qs (record board { frames = drop 1 board.frames }) }
    ensures values { (verdicts : Verdicts) (plan : PlanData) (c : ControlsData) (q : QueuedData) (qs : List QueuedData) (board : BoardData) → IsFinished plan → AreAtRest plan c → IsBoard verdicts plan c (q ∷ qs) board
        → linked (sparse_at board.frames 0) c.values ≡ (laid_over verdicts plan c q.asked).values }
    ensures refused { (verdicts : Verdicts) (plan : PlanData) (c : ControlsData) (q : QueuedData) (qs : List QueuedData) (board : BoardData) → IsFinished plan → AreAtRest plan c → IsBoard verdicts plan c (q ∷ qs) board
        → (sparse_at board.frames 0).refused ≡ refused_clusters verdicts plan c.ranges c.values c.grabs q.asked }
    ensures reached { (verdicts : Verdicts) (plan : PlanData) (c : ControlsData) (q : QueuedData) (qs : List QueuedData) (board : BoardData) → IsBoard verdicts plan c (q ∷ qs) board
        → (sparse_at board.frames 0).reached ≡ reached_clusters plan (named_clusters plan q.asked) }
{}
