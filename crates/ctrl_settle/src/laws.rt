//! What follows from the definitions of settling. Each law is the contract of a function that does nothing.

ghost use Rattle.std.specs.Prelude.{◌≡◌, ◌⊎◌, ◌↔◌, ℤ, ◌≤ℤ◌, None, Some};
ghost use Rattle.ctrl_types.specs.declared.value.CtrlValue.{CtrlValue};
ghost use Rattle.ctrl_settle.specs.Control.{Control};
ghost use Rattle.ctrl_settle.specs.Faults.{IsFirstFault, IsWellFormed};
ghost use Rattle.ctrl_settle.specs.FirstFault.{first_fault};
ghost use Rattle.ctrl_settle.specs.Grid.{IsNearest, nearest};
ghost use Rattle.ctrl_settle.specs.Settle.{IsSettled, IsWithin, settle, settled_anew};
ghost use Rattle.ctrl_settle.specs.declared.fault.CtrlFault.{CtrlFault};

/// Where the minimum isn't above the maximum, each number has a nearest value of the grid, and `nearest` is one.
pub fn nearest_is_nearest()
    ensures { (c : Control) (v : ℤ) → c.minimum ≤ℤ c.maximum → IsNearest c v (nearest c v) }
{}

/// There is no other.
pub fn nearest_is_the_only_one()
    ensures { (c : Control) (v g : ℤ) → IsNearest c v g → g ≡ nearest c v }
{}

/// What a control took it takes again as it is.
pub fn settled_values_stay()
    ensures { (c : Control) (v w : CtrlValue) → IsWellFormed c → settle c v ≡ Ok w → IsSettled c w }
{}

/// What a control has once its range was changed it takes as it is.
pub fn settled_anew_stays()
    ensures { (c : Control) (v : CtrlValue) → IsWellFormed c → IsSettled c (settled_anew c v) }
{}

/// What a control takes lies within its bounds, and so does each element of what an array takes, which are as many as it has.
pub fn settled_values_fit()
    ensures { (c : Control) (v w : CtrlValue) → IsWellFormed c → settle c v ≡ Ok w → IsWithin c w }
{}

/// A control is well formed, or has a first fault: one of these alone, and one fault alone.
pub fn well_formed_or_first_fault()
    ensures cases { (c : Control) → IsWellFormed c ⊎ ((f : CtrlFault) × IsFirstFault c f) }
    ensures only_one { (c : Control) (f : CtrlFault) → IsFirstFault c f → IsWellFormed c → ⊥ }
    ensures unique { (c : Control) (f g : CtrlFault) → IsFirstFault c f → IsFirstFault c g → f ≡ g }
{}

/// The first fault of a control can be computed: `first_fault` finds none where nothing is wrong with it, else the first.
pub fn first_faults()
    ensures none { (c : Control) → IsWellFormed c ↔ (first_fault c ≡ None) }
    ensures found { (c : Control) (f : CtrlFault) → IsFirstFault c f ↔ (first_fault c ≡ Some f) }
{}
