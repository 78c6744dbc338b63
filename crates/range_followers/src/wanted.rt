//! The range that a control is wanted to have.

ghost use Rattle.std.specs.Prelude.{◌≡◌, true, Some, IfSome};
ghost use Rattle.std.specs.Option.{option_map};
ghost use Rattle.ctrl_settle.specs.Control.{with_range};
ghost use Rattle.ctrl_settle.specs.Faults.{IsWellFormed};
ghost use Rattle.ctrl_settle.specs.Grid.{nearest as nearest_of};
ghost use Rattle.range_followers.specs.Wanted.{can_follow as kind_follows, cut as cut_to, default_from as default_number, default_moved as default_has_moved, follower_of as first_follower, has_moved as follower_moved, has_range_of as is_range_of, have_moved as some_moved, least_of as least_number, most_of as most_number, number_from as number_of_source, range_due as due_range, source_moved as source_has_moved, value_moved as value_has_moved, wanted_by as wanted_range_by, wanted_maximum as maximum_wanted, wanted_minimum as minimum_wanted, wanted_range as range_for, wanted_where};

use crate::follower::{DefaultSource, Follower, Source, value_at};
use ctrl_settle::{Ctrl, settle_value};
use ctrl_types::{CtrlValue, Kind};

/// A control with the range that it is wanted to have, where some of its bounds are asked to be other numbers (of this project); none where it is neither an
/// integer nor an integer64.
///
/// - `ctrl`: the control with its range of the moment. Its step stays, and each bound that isn't asked to be another.
/// - `minimum`, `maximum`: what each of these is asked to be, any number; none where it stays.
/// - `default_value`: what the default is to be nearest to, any number.
///
/// Each number is cut to what the type holds, 32 or 64 bits. Where the maximum is asked, it is never below the minimum; where the minimum alone is, it is never
/// above the maximum. The default is the value of the new range that is nearest to its number, by the step. So nothing is wrong with the range, and no check
/// of a range refuses it. It takes no memory.
pub fn range_wanted(
    ctrl: &Ctrl,
    minimum: Option<i128>,
    maximum: Option<i128>,
    default_value: i128,
) -> Option<Ctrl>
    ensures range { result ≡ wanted_where ctrl.now minimum maximum default_value }
    ensures well_formed { IfSome result IsWellFormed }
{
    if !can_follow(ctrl.kind()) {
        return None;
    }
    // nothing is wrong with the control, as the contract of `id` says
    let _id = ctrl.id();
    let least = wanted_minimum(ctrl, minimum, maximum.is_some());
    let most = wanted_maximum(ctrl, least, maximum);
    let bounds = ranged(ctrl, least, most, least)?;
    let default_value = nearest(&bounds, cut(ctrl.kind(), default_value));
    ranged(ctrl, least, most, default_value)
}

// A control with these bounds and this default, which the caller owes to have no fault; so there is one.
fn ranged(ctrl: &Ctrl, minimum: i64, maximum: i64, default_value: i64) -> Option<Ctrl>
    requires { IsWellFormed (with_range ctrl.now minimum maximum ctrl.now.step default_value) }
    ensures { result ≡ Some (with_range ctrl.now minimum maximum ctrl.now.step default_value) }
{
    ctrl.with_range(minimum, maximum, ctrl.step(), default_value)
        .ok()
}

/// A control with the range that it is wanted to have under some values, as `range_wanted` says; none where it follows nothing, or is neither an integer nor
/// an integer64 (of this project).
///
/// - `followers`: how controls follow others. Of two of one number the first counts.
/// - `control`: the control's number, any.
/// - `ctrl`: the control with its range of the moment.
/// - `values`: a value for each control, in the order of their numbers.
///
/// It takes no memory.
pub fn wanted_range(
    followers: &[Follower],
    control: u32,
    ctrl: &Ctrl,
    values: &[CtrlValue],
) -> Option<Ctrl>
    ensures range { result ≡ range_for followers.now control ctrl.now values.now }
    ensures well_formed { IfSome result IsWellFormed }
{
    let follower = follower_of(followers, control)?;
    wanted_by(ctrl, values, &follower)
}

/// The same, where the control has another range: its minimum, its maximum or its default isn't the one that is wanted (of this project).
///
/// - `followers`, `control`, `ctrl`, `values`: as of `wanted_range`.
///
/// It takes no memory.
pub fn range_due(
    followers: &[Follower],
    control: u32,
    ctrl: &Ctrl,
    values: &[CtrlValue],
) -> Option<Ctrl>
    ensures range { result ≡ due_range followers.now control ctrl.now values.now }
    ensures well_formed { IfSome result IsWellFormed }
{
    let wanted = wanted_range(followers, control, ctrl, values)?;
    (!has_range_of(ctrl, &wanted)).then_some(wanted)
}

/// Whether a value that is followed has become another (of this project).
///
/// - `followers`: how controls follow others.
/// - `before`, `after`: a value for each control, in the order of their numbers.
///
/// It takes no memory.
pub fn have_moved(followers: &[Follower], before: &[CtrlValue], after: &[CtrlValue]) -> bool
    ensures { result ≡ some_moved followers.now before.now after.now }
{
    followers
        .iter()
        .any(|follower| has_moved(follower, before, after))
}

// Whether one that this follower follows has.
fn has_moved(follower: &Follower, before: &[CtrlValue], after: &[CtrlValue]) -> bool
    ensures { result ≡ follower_moved before.now after.now follower.now }
{
    source_moved(follower.minimum, before, after)
        || source_moved(follower.maximum, before, after)
        || default_moved(follower.default_value, before, after)
}

fn source_moved(source: Option<Source>, before: &[CtrlValue], after: &[CtrlValue]) -> bool
    ensures { result ≡ source_has_moved before.now after.now source }
{
    match source {
        Some(source) => value_moved(source, before, after),
        None => false,
    }
}

fn default_moved(source: DefaultSource, before: &[CtrlValue], after: &[CtrlValue]) -> bool
    ensures { result ≡ default_has_moved before.now after.now source }
{
    match source {
        DefaultSource::Number(_) => false,
        DefaultSource::Value(source) => value_moved(source, before, after),
    }
}

fn value_moved(source: Source, before: &[CtrlValue], after: &[CtrlValue]) -> bool
    ensures { result ≡ value_has_moved before.now after.now source }
{
    !value_at(before, source.control).is_same(&value_at(after, source.control))
}

/// How a control follows, where it does (of this project).
///
/// - `followers`: how controls follow others. Of two of one number the first counts.
/// - `control`: any number.
///
/// It takes no memory.
pub fn follower_of(followers: &[Follower], control: u32) -> Option<Follower>
    ensures { result ≡ first_follower followers.now control }
{
    for follower in followers {
        if follower.control == control {
            return Some(*follower);
        }
    }
    None
}

/// A control with the range that it is wanted to have under some values, where this is how it follows, as `range_wanted` says; none where it is neither an integer
/// nor an integer64 (of this project).
///
/// - `ctrl`: the control with its range of the moment.
/// - `values`: a value for each control, in the order of their numbers.
/// - `follower`: how the control follows; the control that it names doesn't matter.
///
/// It takes no memory.
pub fn wanted_by(ctrl: &Ctrl, values: &[CtrlValue], follower: &Follower) -> Option<Ctrl>
    ensures range { result ≡ wanted_range_by ctrl.now values.now follower.now }
    ensures well_formed { IfSome result IsWellFormed }
{
    range_wanted(
        ctrl,
        number_from(values, follower.minimum),
        number_from(values, follower.maximum),
        default_from(values, follower.default_value),
    )
}

// What a bound is asked to be, where it follows something.
fn number_from(values: &[CtrlValue], source: Option<Source>) -> Option<i128>
    ensures { result ≡ option_map (number_of_source values.now) source }
{
    match source {
        Some(source) => Some(source.number(values)),
        None => None,
    }
}

// What a default is nearest to.
fn default_from(values: &[CtrlValue], source: DefaultSource) -> i128
    ensures { result ≡ default_number values.now source }
{
    match source {
        DefaultSource::Number(number) => i128::from(number),
        DefaultSource::Value(source) => source.number(values),
    }
}

// Whether the control has the range that is wanted; the steps are the same.
fn has_range_of(ctrl: &Ctrl, wanted: &Ctrl) -> bool
    ensures { result ≡ is_range_of ctrl.now wanted.now }
{
    ctrl.minimum() == wanted.minimum()
        && ctrl.maximum() == wanted.maximum()
        && ctrl.default_value() == wanted.default_value()
}

/// Whether the bounds of a control of this type can follow another one's value, and its value can be followed: it is an integer or an integer64 (of this project).
///
/// - `kind`: any type.
pub fn can_follow(kind: Kind) -> bool
    ensures { result ≡ kind_follows kind }
{
    matches!(kind, Kind::Integer | Kind::Integer64)
}

// The least number that the type holds, and the greatest.
fn least_of(kind: Kind) -> i64
    ensures { result ≡ least_number kind }
{
    match kind {
        Kind::Integer64 => i64::MIN,
        _ => i64::from(i32::MIN),
    }
}

fn most_of(kind: Kind) -> i64
    ensures { result ≡ most_number kind }
{
    match kind {
        Kind::Integer64 => i64::MAX,
        _ => i64::from(i32::MAX),
    }
}

// A number, cut to what the type holds.
fn cut(kind: Kind, number: i128) -> i64
    ensures { result ≡ cut_to kind number }
{
    let (least, most) = (least_of(kind), most_of(kind));
    if number < i128::from(least) {
        least
    } else if i128::from(most) < number {
        most
    } else {
        number as i64
    }
}

// The minimum that is wanted, where this is what it is asked to be, and whether the maximum is asked to be another, too.
fn wanted_minimum(ctrl: &Ctrl, asked: Option<i128>, moves_maximum: bool) -> i64
    ensures { result ≡ minimum_wanted ctrl.now asked moves_maximum }
{
    let Some(asked) = asked else {
        return ctrl.minimum();
    };
    let number = cut(ctrl.kind(), asked);
    if !moves_maximum && ctrl.maximum() < number {
        ctrl.maximum()
    } else {
        number
    }
}

// The maximum that is wanted above this minimum, where this is what it is asked to be.
fn wanted_maximum(ctrl: &Ctrl, minimum: i64, asked: Option<i128>) -> i64
    ensures { result ≡ maximum_wanted ctrl.now minimum asked }
{
    let Some(asked) = asked else {
        return ctrl.maximum();
    };
    let number = cut(ctrl.kind(), asked);
    if number < minimum { minimum } else { number }
}

// What a number control takes for a number.
fn nearest(ctrl: &Ctrl, number: i64) -> i64
    requires { kind_follows ctrl.now.kind ≡ true }
    ensures { result ≡ nearest_of ctrl.now number }
{
    match settle_value(ctrl, &CtrlValue::Number(number)) {
        Ok(taken) => taken.number(),
        Err(_) => number,
    }
}
