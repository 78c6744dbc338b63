//! What follows from the definitions. Each law is the contract of a function that does nothing.

ghost use Rattle.std.specs.Prelude.{◌≡◌, not, is_some};
ghost use Rattle.ctrl_types.specs.declared.ids.ExtControl.{ExtControl};
ghost use Rattle.ctrl_handlers.specs.Plan.{PlanData};
ghost use Rattle.ctrl_lists.specs.Checks.{naming_check};
ghost use Rattle.ctrl_lists.specs.View.{ViewData, named};

/// An entry of a list is refused by check 6 of docs/RULES.md exactly where its id names no control in the list.
#[tactic(auto, using(crate::proofs::NamingLemmas::unnamed_entry))]
pub fn unnamed_entries()
    ensures { (plan : PlanData) (view : ViewData) (entry : ExtControl) → is_some (naming_check plan view entry) ≡ not (is_some (named plan view.handler view.which entry.id)) }
{}
