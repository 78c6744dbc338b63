//! What the reasons have to do with what queued frames will have. Each function is a law that its contract states; it has nothing to do.

ghost use Rattle.std.specs.Prelude.{◌≡◌, ℕ, true, List};
ghost use Rattle.ctrl_types.specs.declared.ids.Pair.{Pair};
ghost use Rattle.ctrl_calls.specs.Meanings.{Verdicts};
ghost use Rattle.ctrl_settle.specs.Control.{Control};
ghost use Rattle.ctrl_handlers.specs.Plan.{PlanData, members};
ghost use Rattle.ctrl_clusters.specs.Rows.{Values, Grabs};
ghost use Rattle.ctrl_clusters.specs.Overlay.{is_touched, row_after};
ghost use Rattle.frame_reasons.specs.Refused.{cluster_reason, row_by};

/// What laying pairs over values makes of a cluster with a member among them is what its reason says: EBUSY where that is a grabbed member, the errno of its check
/// where a member takes no value, and else what the cluster makes of the row that the reason has.
#[tactic(auto, using(crate::proofs::Refusals::row_explained))]
pub fn cluster_rows()
    ensures { (verdicts : Verdicts) (plan : PlanData) (controls : List Control) (values : Values) (grabs : Grabs) (pairs : List Pair) (k : ℕ) → is_touched pairs (members plan k) ≡ true
        → row_after verdicts plan controls values grabs pairs k ≡ row_by verdicts plan controls k (cluster_reason plan controls values grabs pairs k) }
{}
