//! Which controls other values change.

ghost use Rattle.std.specs.Prelude.{◌≡◌, ◌<◌, length};
ghost use Rattle.std.specs.List.{All};
ghost use Rattle.ctrl_types.specs.Flags.{contains};
ghost use Rattle.ctrl_types.specs.declared.flags.TheConstants.Flags.{EXECUTE_ON_WRITE};
ghost use Rattle.ctrl_handlers.specs.Plan.{control, control_in};
ghost use Rattle.ctrl_clusters.specs.Rows.{row_of, value_at};
ghost use Rattle.ctrl_clusters.specs.Overlay.{is_among};
ghost use Rattle.ctrl_clusters.specs.Changes.{is_changed, row_changes};

use crate::change::Change;
use bitflags::Flags as FlagSet;
use ctrl_calls::Driver;
use ctrl_handlers::Plan;
use ctrl_settle::Ctrl;
use ctrl_types::{Flags, Pair};

/// Whether a control is changed where pairs are applied: it has another value afterwards, or it acts on each write and is among the pairs (Linux userspace API,
/// "Control Flags", `V4L2_CTRL_FLAG_EXECUTE_ON_WRITE`).
///
/// - `change`: the moment before, and what there is afterwards.
/// - `pairs`: what was applied.
/// - `control`: the number of a control; the caller owes one below `Plan::control_count`.
///
/// It takes no memory and refuses nothing.
pub fn is_changed<D: Driver>(change: &Change<D>, pairs: &[Pair], control: u32) -> bool
    requires { control < length change.now.before.plan.now.controls }
    ensures { result ≡ is_changed change.now.before.plan.now change.now.before.values.now pairs.now control (value_at change.now.values.now control) }
{
    let before = &change.before;
    !before.values[control as usize].is_same(&change.values[control as usize])
        || (acts_on_each_write(before.plan, control) && is_among(pairs, control))
}

/// Whether one of some controls is changed where pairs are applied, as `is_changed` says of each.
#[tactic(auto, using(crate::proofs::RowLemmas::moved_next))]
pub(crate) fn is_any_changed<D: Driver>(change: &Change<D>, pairs: &[Pair], members: &[u32]) -> bool
    requires { All (λ c. c < length change.now.before.plan.now.controls) members.now }
    ensures { result ≡ row_changes change.now.before.plan.now change.now.before.values.now pairs.now members.now (row_of change.now.values.now members.now) }
{
    for &member in members {
        if is_changed(change, pairs, member) {
            return true;
        }
    }
    false
}

// Whether a member acts on each write, also of the value that it has.
fn acts_on_each_write<D: Driver>(plan: &Plan<D>, member: u32) -> bool
    requires { member < length plan.now.controls }
    ensures { result ≡ contains (control plan.now member).flags EXECUTE_ON_WRITE }
{
    described(plan.controls(), member)
        .flags()
        .contains(Flags::EXECUTE_ON_WRITE)
}

// The control with a number among these.
fn described(controls: &[Ctrl], number: u32) -> &Ctrl
    requires { number < length controls.now }
    ensures { result.now ≡ control_in controls.now number }
{
    &controls[number as usize]
}

/// Whether a control is among pairs (of this project). It takes no memory and refuses nothing.
///
/// - `pairs`: any.
/// - `control`: any number, of a control or not.
pub fn is_among(pairs: &[Pair], control: u32) -> bool
    ensures { result ≡ is_among pairs.now control }
{
    pairs.iter().any(|pair| pair.control == control)
}
