//! What the definitions of a plan say. Each function is a law that its contract states; none has anything to do.

ghost use Rattle.std.specs.Prelude.{◌≡◌, ℕ, ◌<◌, ◌≤◌, nat_eq, true, false, List, [], ◌∷◌, None, Some};
ghost use Rattle.std.specs.List.{fold, list_any};
ghost use Rattle.ctrl_types.specs.declared.ids.CtrlId.{CtrlId};
ghost use Rattle.ctrl_settle.specs.Control.{is_array};
ghost use Rattle.ctrl_handlers.specs.Plan.{PlanData, IsPlan, control, cluster_of, cluster_at, members, own, added, ids_of, names_twice};
ghost use Rattle.ctrl_handlers.specs.Visible.{visible, find, all_brought, least_above};

/// A handler shows its own controls, and then what each handler that it adds shows, in the order of adding, but for private
/// controls and those whose id is shown already. So no id stands twice among what it shows, and a control that is found is the
/// only shown one of its id.
pub fn shown_controls()
    ensures shown { (plan : PlanData) (h : ℕ) → IsPlan plan → visible plan h ≡ fold (λ shown a. all_brought plan.controls shown (visible plan a)) (own plan h) (added plan h) }
    ensures differ { (plan : PlanData) (h : ℕ) → IsPlan plan → names_twice (ids_of plan.controls (visible plan h)) ≡ false }
    ensures only { (plan : PlanData) (h c d : ℕ) (id : CtrlId) → IsPlan plan → find plan h id ≡ Some c → list_any (nat_eq d) (visible plan h) ≡ true → (control plan d).id ≡ id → d ≡ c }
{}

/// An array is the only member of its cluster, which is no auto cluster.
pub fn lone_arrays()
    ensures { (plan : PlanData) (c k : ℕ) → IsPlan plan → cluster_of plan c ≡ Some k → is_array (control plan c) ≡ true → (members plan k ≡ c ∷ []) × ((cluster_at plan k).manual ≡ None) }
{}

/// The least number above another is one of the numbers, lies above it, and no number that does is less; there is none only
/// where none lies above it.
pub fn least_numbers()
    ensures some { (n least : ℕ) (numbers : List ℕ) → least_above n numbers ≡ Some least → (list_any (nat_eq least) numbers ≡ true) × (n < least) × ((m : ℕ) → list_any (nat_eq m) numbers ≡ true → n < m → least ≤ m) }
    ensures none { (n m : ℕ) (numbers : List ℕ) → least_above n numbers ≡ None → list_any (nat_eq m) numbers ≡ true → m ≤ n }
{}
