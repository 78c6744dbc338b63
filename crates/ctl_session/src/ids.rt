//! Ids that stand for other controls: those of a search for the next one, and the old ones of a driver's own controls.

ghost use Rattle.std.specs.Prelude.{◌≡◌};
ghost use Rattle.std.specs.List.{filter};
ghost use Rattle.ctrl_handlers.specs.Plan.{control_in, ids_of};
ghost use Rattle.ctrl_handlers.specs.Visible.{least_above};
ghost use Rattle.ctl_session.specs.Ids.{form_by_id as form_for, form_of_kind as form_by, is_narrow as has_narrow, is_nth as is_the_nth, is_old as is_of_old, is_private_user as is_own_user, is_wanted as wanted, next_wanted as next_of, nth_private as nth_own, private_below as own_below, queried as meant_by, real_id as real, shown as control_shown};
ghost use Rattle.ctl_session.specs.Lists.{HasSlot};

use call_structs::Form;
use ctrl_calls::Driver;
use ctrl_handlers::Plan;
use ctrl_settle::Ctrl;
use ctrl_types::{CtrlId, Kind, MAX_ELEMENTS};
use ioctl_bytes::calls::{
    V4L2_CID_PRIVATE_BASE, V4L2_CTRL_CLASS_USER, V4L2_CTRL_FLAG_NEXT_COMPOUND,
    V4L2_CTRL_FLAG_NEXT_CTRL, V4L2_CTRL_ID_MASK,
};

// The control that a handler shows under an id.
pub(crate) fn shown<D: Driver>(plan: &Plan<D>, handler: u32, id: CtrlId) -> Option<Ctrl>
    ensures { result ≡ control_shown plan.now handler id }
{
    match plan.find(handler, id) {
        Ok(control) => Some(plan.control(control)),
        Err(_) => None,
    }
}

fn form_of_kind(kind: Kind, elems: u32) -> Form
    ensures { result ≡ form_by kind elems }
{
    match kind {
        Kind::U8 => Form::Array(elems.min(MAX_ELEMENTS as u32)),
        Kind::Integer64 => Form::Wide,
        _ => Form::Narrow,
    }
}

// What the entry of a control has its value in; that of one that isn't shown is a number of 32 bits.
pub(crate) fn form_of<D: Driver>(plan: &Plan<D>, handler: u32, id: CtrlId) -> Form
    ensures form { result ≡ form_for plan.now handler id }
    ensures slot { HasSlot result }
{
    match shown(plan, handler, id) {
        Some(ctrl) => form_of_kind(ctrl.kind(), ctrl.elems()),
        None => Form::Narrow,
    }
}

pub(crate) fn is_narrow(form: Form) -> bool
    ensures { result ≡ has_narrow form }
{
    match form {
        Form::Narrow => true,
        _ => false,
    }
}

fn is_wanted(numbers: bool, arrays: bool, kind: Kind) -> bool
    ensures { result ≡ wanted numbers arrays kind }
{
    match kind {
        Kind::U8 => arrays,
        _ => numbers,
    }
}

// The id that a query speaks of: with flags the least id of a wanted control behind the id without them, which there may not be, and else what the id stands for.
pub(crate) fn queried<D: Driver>(plan: &Plan<D>, handler: u32, id: u32) -> Option<CtrlId>
    ensures { result ≡ meant_by plan.now handler id }
{
    let numbers = id & V4L2_CTRL_FLAG_NEXT_CTRL != 0;
    let arrays = id & V4L2_CTRL_FLAG_NEXT_COMPOUND != 0;
    if numbers || arrays {
        return next_wanted(plan, handler, id & V4L2_CTRL_ID_MASK, numbers, arrays);
    }
    Some(real_id(plan, handler, CtrlId(id)))
}

// The least id behind another one of the wanted controls that a handler shows.
fn next_wanted<D: Driver>(
    plan: &Plan<D>,
    handler: u32,
    behind: u32,
    numbers: bool,
    arrays: bool,
) -> Option<CtrlId>
    ensures { result ≡ next_of plan.now handler behind numbers arrays }
{
    match least_wanted(
        plan.controls(),
        plan.shown(handler),
        behind,
        numbers,
        arrays,
    ) {
        Some(id) => Some(CtrlId(id)),
        None => None,
    }
}

fn least_wanted(
    controls: &[Ctrl],
    shown: &[u32],
    behind: u32,
    numbers: bool,
    arrays: bool,
) -> Option<u32>
    ensures { result ≡ least_above behind (ids_of controls.now (filter (λ c. wanted numbers arrays (control_in controls.now c).kind) shown.now)) }
{
    shown
        .iter()
        .filter(|number| is_wanted_at(controls, numbers, arrays, **number))
        .map(|number| id_at(controls, *number))
        .filter(|id| behind < *id)
        .min()
}

fn is_wanted_at(controls: &[Ctrl], numbers: bool, arrays: bool, number: u32) -> bool
    ensures { result ≡ wanted numbers arrays (control_in controls.now number).kind }
{
    match controls.get(number as usize) {
        Some(ctrl) => is_wanted(numbers, arrays, ctrl.kind()),
        None => numbers,
    }
}

pub(crate) fn id_at(controls: &[Ctrl], number: u32) -> u32
    ensures { result ≡ (control_in controls.now number).id.0 }
{
    match controls.get(number as usize) {
        Some(ctrl) => ctrl.id().0,
        None => 0,
    }
}

// Whether a control is one of the driver's own of the user class, whose value is a number of 32 bits.
fn is_private_at(controls: &[Ctrl], number: u32) -> bool
    ensures { result ≡ is_own_user (control_in controls.now number) }
{
    match controls.get(number as usize) {
        Some(ctrl) => is_private_user(ctrl),
        None => false,
    }
}

fn is_private_user(ctrl: &Ctrl) -> bool
    ensures { result ≡ is_own_user ctrl.now }
{
    let id = ctrl.id();
    id.class() == V4L2_CTRL_CLASS_USER
        && id.0 & 0xffff >= 0x1000
        && is_narrow(form_of_kind(ctrl.kind(), ctrl.elems()))
}

// How many of such controls have an id below another one.
fn private_below(controls: &[Ctrl], shown: &[u32], id: u32) -> usize
    ensures { result ≡ own_below controls.now shown.now id }
{
    shown
        .iter()
        .filter(|number| is_private_at(controls, **number) && id_at(controls, **number) < id)
        .count()
}

// Whether a control is such a one, with just so many below it.
fn is_nth(controls: &[Ctrl], shown: &[u32], place: u32, number: u32) -> bool
    ensures { result ≡ is_the_nth controls.now shown.now place number }
{
    is_private_at(controls, number)
        && private_below(controls, shown, id_at(controls, number)) == place as usize
}

fn nth_private(controls: &[Ctrl], shown: &[u32], place: u32) -> Option<u32>
    ensures { result ≡ nth_own controls.now shown.now place }
{
    shown
        .iter()
        .copied()
        .find(|number| is_nth(controls, shown, place, *number))
}

// The id that an id stands for: V4L2_CID_PRIVATE_BASE + n is the n-th of the driver's own user controls whose value is a number of 32 bits, in the order of ids; where
// there is none, and for every other id, it is the id itself.
pub(crate) fn real_id<D: Driver>(plan: &Plan<D>, handler: u32, id: CtrlId) -> CtrlId
    ensures { result ≡ real plan.now handler id }
{
    if !is_old(id.0) {
        return id;
    }
    match nth_private(
        plan.controls(),
        plan.shown(handler),
        id.0 - V4L2_CID_PRIVATE_BASE,
    ) {
        Some(number) => CtrlId(id_at(plan.controls(), number)),
        None => id,
    }
}

pub(crate) fn is_old(id: u32) -> bool
    ensures { result ≡ is_of_old id }
{
    V4L2_CID_PRIVATE_BASE <= id && id < V4L2_CTRL_FLAG_NEXT_COMPOUND
}
