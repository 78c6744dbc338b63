//! Which controls the entries of a list name.

ghost use Rattle.std.specs.Prelude.{◌≡◌, ◌==◌, ◌<◌, ◌≤◌, ◌⊎◌, None, Some, length, IfErr, IfOk, OnOk};
ghost use Rattle.std.specs.Result.{result_err};
ghost use Rattle.std.specs.List.{All, list_any};
ghost use Rattle.ctrl_types.specs.Classes.{class_of};
ghost use Rattle.ctrl_handlers.specs.Plan.{control_in};
ghost use Rattle.ctrl_lists.specs.View.{is_meant, named, pair_of, pairs_of, shows_class};
ghost use Rattle.ctrl_handlers.specs.Visible.{find};
ghost use Rattle.ctrl_lists.specs.Checks.{at_first, naming_check, unnamed};
ghost use Rattle.ctrl_types.specs.Refusals.{memory_refusal};
ghost use Rattle.ctrl_lists.specs.declared.limits.TheConstants.{MAX_ENTRIES};

use crate::view::View;
use bitflags::Flags as FlagSet;
use ctrl_calls::Driver;
use ctrl_handlers::Plan;
use ctrl_settle::Ctrl;
use ctrl_types::{Check, CtrlId, ExtControl, Flags, Pair, Refusal, Which};

/// Puts the pairs of a list in place of those that are there: each entry's control with the value as it was given; or tells the first entry that names no control.
pub(crate) fn pairs_of<D: Driver>(
    view: &View<D>,
    list: &[ExtControl],
    pairs: &mut Vec<Pair>,
) -> Result<(), Refusal>
    requires { length list.now ≤ MAX_ENTRIES }
    ensures ok { OnOk result ((pairs.new.items ≡ pairs_of view.now.plan view.now.parts.handler view.now.parts.which list.now) × (at_first (naming_check view.now.plan view.now.parts) list.now ≡ None)) }
    ensures few { OnOk result (length pairs.new.items ≡ length list.now) }
    ensures known { OnOk result (All (λ p. p.control < length view.now.plan.controls) pairs.new.items) }
    ensures err { IfErr result (λ refusal. (at_first (naming_check view.now.plan view.now.parts) list.now ≡ Some refusal) ⊎ (refusal ≡ memory_refusal)) }
{
    pairs.clear();
    if pairs.reserve(list.len()).is_err() {
        return Err(Refusal::of_memory());
    }
    for (place, entry) in list.iter().enumerate() {
        match pair_of(view, entry) {
            Ok(pair) => pairs.push_reserved(pair),
            Err(check) => return Err(Refusal::at(check, place as u32)),
        }
    }
    Ok(())
}

// An entry's control with the value as it was given, or why it names none.
fn pair_of<D: Driver>(view: &View<D>, entry: &ExtControl) -> Result<Pair, Check>
    ensures pair { IfOk result (λ p. pair_of view.now.plan view.now.parts.handler view.now.parts.which entry.now ≡ Some p) }
    ensures check { result_err result ≡ naming_check view.now.plan view.now.parts entry.now }
    ensures known { IfOk result (λ p. p.control < length view.now.plan.controls) }
{
    let control = named(view, entry.id)?;
    Ok(Pair {
        control,
        value: entry.value,
    })
}

// The control that an id names, or why it names none.
fn named<D: Driver>(view: &View<D>, id: CtrlId) -> Result<u32, Check>
    ensures named { IfOk result (λ c. named view.now.plan view.now.parts.handler view.now.parts.which id ≡ Some c) }
    ensures check { result_err result ≡ unnamed view.now.plan view.now.parts.which id (find view.now.plan view.now.parts.handler id) }
    ensures known { IfOk result (λ c. c < length view.now.plan.controls) }
{
    let plan = view.at.plan;
    let Ok(control) = plan.find(view.handler, id) else {
        return Err(Check::EntryNotShown);
    };
    if !is_meant(view.which, id) {
        return Err(Check::EntryOfOtherClass);
    }
    if plan.control(control).flags().contains(Flags::DISABLED) {
        return Err(Check::EntryDisabled);
    }
    Ok(control)
}

// Whether a list speaks of an id.
fn is_meant(which: Which, id: CtrlId) -> bool
    ensures { result ≡ is_meant which id }
{
    match which {
        Which::Class(class) => id.class() == class,
        Which::Current | Which::Defaults | Which::Request => true,
    }
}

/// Whether a handler shows a control of a class.
pub(crate) fn shows_class<D: Driver>(plan: &Plan<D>, handler: u32, class: u32) -> bool
    ensures { result ≡ shows_class plan.now handler class }
{
    is_any_of(plan.controls(), plan.shown(handler), class)
}

// Whether some of these controls is of a class.
fn is_any_of(controls: &[Ctrl], numbers: &[u32], class: u32) -> bool
    requires { All (λ c. c < length controls.now) numbers.now }
    ensures { result ≡ list_any (λ c. class_of (control_in controls.now c).id.0 == class) numbers.now }
{
    for &number in numbers {
        if controls[number as usize].id().class() == class {
            return true;
        }
    }
    false
}
