//! What follows from the one definition of how pairs are laid over values, and from that of how ranges follow them. Each law is the contract of a function that does
//! nothing.

ghost use Rattle.std.specs.Prelude.{◌≡◌, ◌<◌, ℕ, false, List, None, Some, Ok, Err, is_err, length, nat_eq};
ghost use Rattle.std.specs.List.{All, list_any};
ghost use Rattle.ctrl_types.specs.declared.value.CtrlValue.{CtrlValue};
ghost use Rattle.ctrl_types.specs.Pairs.{last_value};
ghost use Rattle.ctrl_types.specs.declared.errno.Errno.{Errno};
ghost use Rattle.ctrl_types.specs.declared.ids.Pair.{Pair};
ghost use Rattle.ctrl_calls.specs.Meanings.{Verdicts};
ghost use Rattle.ctrl_settle.specs.Control.{Control};
ghost use Rattle.ctrl_settle.specs.Faults.{IsWellFormed};
ghost use Rattle.range_followers.specs.Wanted.{follower_of};
ghost use Rattle.ctrl_handlers.specs.Plan.{PlanData, IsPlan, control_in, cluster_of, members};
ghost use Rattle.ctrl_clusters.specs.ControlsData.{ControlsData};
ghost use Rattle.ctrl_clusters.specs.Following.{followed, range_under};
ghost use Rattle.ctrl_clusters.specs.Rows.{AreControlsOf, Values, value_at, row_of, Grabs, is_grabbed};
ghost use Rattle.ctrl_clusters.specs.Judging.{validated_row};
ghost use Rattle.ctrl_clusters.specs.Overlay.{is_touched, row_after, overlay, refused_clusters};
ghost use Rattle.ctrl_clusters.specs.NewRows.{clusters_of, written};
ghost use Rattle.ctrl_clusters.specs.declared.new_row.NewRow.{NewRow};

/// Once pairs were laid over values each cluster has the row that it has after them; where it is refused, its own.
#[tactic(auto, using(crate::proofs::OverlayLemmas::overlaid_row, crate::proofs::OverlayLemmas::refused_row))]
pub fn overlaid_rows()
    ensures row { (verdicts : Verdicts) (plan : PlanData) (controls : List Control) (values : Values) (grabs : Grabs) (pairs : List Pair) (k : ℕ) (row : List CtrlValue)
        → IsPlan plan → length values ≡ length plan.controls → k < length plan.clusters → row_after verdicts plan controls values grabs pairs k ≡ Ok row
        → row_of (overlay verdicts plan controls values grabs pairs) (members plan k) ≡ row }
    ensures refused { (verdicts : Verdicts) (plan : PlanData) (controls : List Control) (values : Values) (grabs : Grabs) (pairs : List Pair) (k : ℕ) (errno : Errno)
        → IsPlan plan → length values ≡ length plan.controls → k < length plan.clusters → row_after verdicts plan controls values grabs pairs k ≡ Err errno
        → row_of (overlay verdicts plan controls values grabs pairs) (members plan k) ≡ row_of values (members plan k) }
{}

/// Clusters don't touch each other: where two lists of pairs, of values, of grabs and of controls agree on a cluster's members, the row of that
/// cluster after the one is that after the other.
#[tactic(auto, using(crate::proofs::OverlayLemmas::separate))]
pub fn separate_clusters()
    ensures { (verdicts : Verdicts) (plan : PlanData) (controls others : List Control) (values elsewhere : Values) (grabs held : Grabs) (pairs more : List Pair) (k : ℕ)
        → All (λ c. (control_in controls c ≡ control_in others c) × (value_at values c ≡ value_at elsewhere c) × (is_grabbed grabs c ≡ is_grabbed held c) × (last_value pairs c ≡ last_value more c)) (members plan k)
        → row_after verdicts plan controls values grabs pairs k ≡ row_after verdicts plan others elsewhere held more k }
{}

/// The rows that the touched clusters become, written into the values, are the pairs laid over them, where no control of the pairs is grabbed.
#[tactic(auto, using(crate::proofs::OverlayLemmas::overlay_written))]
pub fn written_overlays()
    ensures { (verdicts : Verdicts) (plan : PlanData) (controls : List Control) (values : Values) (grabs : Grabs) (pairs : List Pair) (rows : List NewRow)
        → list_any (λ p. is_grabbed grabs p.control) pairs ≡ false
        → ((c k : ℕ) → cluster_of plan c ≡ Some k → is_touched pairs (members plan k) ≡ list_any (nat_eq k) (clusters_of rows))
        → All (λ r. validated_row verdicts plan controls values pairs r.cluster ≡ Ok r.row) rows
        → overlay verdicts plan controls values grabs pairs ≡ written plan values rows }
{}

/// The clusters that are refused where pairs are laid over values are exactly those whose row is refused.
#[tactic(auto, using(crate::proofs::OverlayLemmas::refused_are))]
pub fn refused_rows()
    ensures { (verdicts : Verdicts) (plan : PlanData) (controls : List Control) (values : Values) (grabs : Grabs) (pairs : List Pair) (k : ℕ)
        → k < length plan.clusters
        → list_any (nat_eq k) (refused_clusters verdicts plan controls values grabs pairs) ≡ is_err (row_after verdicts plan controls values grabs pairs k) }
{}

/// Once ranges have followed values, each is the one that the values then give it, by its own bounds of before; what follows nothing has the range and the value
/// of before; and following once more changes nothing (of this project).
#[tactic(auto, using(crate::proofs::FollowingLemmas::followed_twice, crate::proofs::FollowingLemmas::still_then, crate::proofs::FollowingLemmas::kept_then, crate::proofs::FollowingLemmas::wanted_then))]
pub fn ranges_follow()
    ensures wanted { (plan : PlanData) (c : ControlsData) (k : ℕ) → IsPlan plan → AreControlsOf plan c.ranges → length c.values ≡ length plan.controls → k < length c.ranges
        → control_in (followed plan c).ranges k ≡ range_under plan.followers c.ranges (followed plan c).values k }
    ensures still { (plan : PlanData) (c : ControlsData) (k : ℕ) → follower_of plan.followers k ≡ None → k < length c.ranges → control_in (followed plan c).ranges k ≡ control_in c.ranges k }
    ensures kept { (plan : PlanData) (c : ControlsData) (k : ℕ) → follower_of plan.followers k ≡ None → k < length c.values → value_at (followed plan c).values k ≡ value_at c.values k }
    ensures twice { (plan : PlanData) (c : ControlsData) → IsPlan plan → AreControlsOf plan c.ranges → length c.values ≡ length plan.controls → ((k : ℕ) → k < length c.ranges → IsWellFormed (control_in c.ranges k))
        → followed plan (followed plan c) ≡ followed plan c }
{}
