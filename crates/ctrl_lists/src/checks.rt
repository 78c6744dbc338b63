//! The checks of a list, but for the judging of its clusters.

ghost use Rattle.std.specs.Prelude.{◌≡◌, ◌<◌, ◌≤◌, [], ◌∷◌, None, Some, length, IfErr, OnOk};
ghost use Rattle.std.specs.List.{All};
ghost use Rattle.ctrl_types.specs.declared.check.Check.TheVariants.{TooManyEntries, ClassNotShown};
ghost use Rattle.ctrl_lists.specs.Checks.{at_first, first_refusal, refused_if, is_long, is_of_no_class, shows_none_of, reading_check, writing_check};
ghost use Rattle.ctrl_lists.specs.declared.limits.TheConstants.{MAX_ENTRIES};

use crate::control_list::ControlList;
use crate::limits::MAX_ENTRIES;
use crate::naming::shows_class;
use crate::view::View;
use bitflags::Flags as FlagSet;
use ctrl_calls::Driver;
use ctrl_handlers::Plan;
use ctrl_settle::settle_check;
use ctrl_types::{Check, Flags, Pair, Refusal, Which};

/// The checks of a list as a whole: that it hasn't too many entries, and that it isn't one without entries about a class of which
/// no control is shown.
pub(crate) fn check_whole<D: Driver>(view: &View<D>, list: &ControlList) -> Result<(), Refusal>
    ensures ok { OnOk result ((refused_if (is_long list.now) TooManyEntries ≡ None) × (refused_if (is_of_no_class view.now.plan view.now.parts list.now) ClassNotShown ≡ None)) }
    ensures few { OnOk result (length list.now ≤ MAX_ENTRIES) }
    ensures err { IfErr result (λ refusal. first_refusal (refused_if (is_long list.now) TooManyEntries ∷ refused_if (is_of_no_class view.now.plan view.now.parts list.now) ClassNotShown ∷ []) ≡ Some refusal) }
{
    if is_long(list) {
        return Err(Refusal::whole(Check::TooManyEntries));
    }
    if is_of_no_class(view, list) {
        return Err(Refusal::whole(Check::ClassNotShown));
    }
    Ok(())
}

// Whether a list has more entries than it may have.
fn is_long(list: &ControlList) -> bool
    ensures { result ≡ is_long list.now }
{
    list.len() > MAX_ENTRIES
}

// Whether a list has no entries, and is about a class of which no control is shown.
fn is_of_no_class<D: Driver>(view: &View<D>, list: &ControlList) -> bool
    ensures { result ≡ is_of_no_class view.now.plan view.now.parts list.now }
{
    list.is_empty() && shows_none_of(view, view.which)
}

// Whether a list speaks of a class of which no control is shown.
fn shows_none_of<D: Driver>(view: &View<D>, which: Which) -> bool
    ensures { result ≡ shows_none_of view.now.plan view.now.parts which }
{
    match which {
        Which::Class(class) => !shows_class(view.at.plan, view.handler, class),
        Which::Current | Which::Defaults | Which::Request => false,
    }
}

/// The first control that can't be read.
pub(crate) fn first_unreadable<D: Driver>(plan: &Plan<D>, pairs: &[Pair]) -> Option<Refusal>
    requires few { length pairs.now ≤ MAX_ENTRIES }
    requires known { All (λ p. p.control < length plan.now.controls) pairs.now }
    ensures { result ≡ at_first (reading_check plan.now) pairs.now }
{
    for (place, pair) in pairs.iter().enumerate() {
        if let Some(check) = reading_check(plan, pair) {
            return Some(Refusal::at(check, place as u32));
        }
    }
    None
}

// What keeps a control from being read.
fn reading_check<D: Driver>(plan: &Plan<D>, pair: &Pair) -> Option<Check>
    requires { pair.now.control < length plan.now.controls }
    ensures { result ≡ reading_check plan.now pair.now }
{
    if plan
        .control(pair.control)
        .flags()
        .contains(Flags::WRITE_ONLY)
    {
        Some(Check::EntryWriteOnly)
    } else {
        None
    }
}

/// The first control that can't be written: to be set, or to be tried.
pub(crate) fn first_unwritable<D: Driver>(
    view: &View<D>,
    is_set: bool,
    pairs: &[Pair],
) -> Option<Refusal>
    requires few { length pairs.now ≤ MAX_ENTRIES }
    requires known { All (λ p. p.control < length view.now.plan.controls) pairs.now }
    ensures { result ≡ at_first (writing_check view.now.plan view.now.parts is_set) pairs.now }
{
    for (place, pair) in pairs.iter().enumerate() {
        if let Some(check) = writing_check(view, is_set, pair) {
            return Some(Refusal::at(check, place as u32));
        }
    }
    None
}

// What keeps a control from being written.
fn writing_check<D: Driver>(view: &View<D>, is_set: bool, pair: &Pair) -> Option<Check>
    requires known { pair.now.control < length view.now.plan.controls }
    ensures { result ≡ writing_check view.now.plan view.now.parts is_set pair.now }
{
    let flags = view.at.plan.control(pair.control).flags();
    if flags.contains(Flags::READ_ONLY) {
        return Some(Check::EntryReadOnly);
    }
    if is_set && view.at.grabs[pair.control as usize] {
        return Some(Check::EntryGrabbed);
    }
    settle_check(view.at.ranges.range(pair.control), &pair.value)
}
