//! The entries of a list, as the device takes them.

ghost use Rattle.std.specs.Prelude.{◌≡◌, ◌≤◌, ◌<◌, ◌+◌, IfOk, IfSome, length};
ghost use Rattle.std.specs.List.{All};
ghost use Rattle.call_structs.specs.Entries.{entry_start, list_size};
ghost use Rattle.ctl_session.specs.declared.lists.TheConstants.{MOST_ENTRIES};
ghost use Rattle.ctl_session.specs.Lists.{HasSlot, entries_in, entry_seen as entry_for, first_of_control as first_entry, first_with as first_wrong, form_at as entry_form, forms_in, has_fault as is_fault, names_same as is_same, read_at as read_for, stand_in as stands_in};

use crate::ids::form_of;
use call_structs::{Form, PayloadFault, entry_id, value_at};
use ctrl_calls::Driver;
use ctrl_handlers::Plan;
use ctrl_types::{ByteRow, CtrlValue, ExtControl};
use device_state::ControlList;
use std::alloc::{AllocError, Global};

/// As many entries of a list are read; a list that has more is refused by the device, whatever they are.
pub const MOST_ENTRIES: u32 = 65;
/// As many entries a list may name; of one that names more nothing is looked at.
pub const V4L2_CID_MAX_CTRLS: u32 = 1024;

// The list of these entries, at most 65. The error is that a growth was refused.
pub(crate) fn list_of(alloc: Global, entries: &[ExtControl]) -> Result<ControlList, AllocError>
    requires { length entries.now ≤ 65 }
    ensures { IfOk result (λ list. list ≡ entries.now) }
{
    let items = Vec::from_slice(alloc, entries)?;
    Ok(ControlList::from_vec(items))
}

// The form of each entry of a list, `count` of them; so each control is looked up once. The error is that a growth was refused.
pub(crate) fn forms_of<D: Driver>(
    alloc: Global,
    plan: &Plan<D>,
    handler: u32,
    arg: &[u8],
    count: u32,
) -> Result<Vec<Form>, AllocError>
    requires few { count ≤ MOST_ENTRIES }
    requires whole { list_size count ≤ length arg.now }
    ensures forms { IfOk result (λ forms. forms.items ≡ forms_in plan.now handler count arg.now) }
    ensures many { IfOk result (λ forms. length forms.items ≡ count) }
    ensures slots { IfOk result (λ forms. All HasSlot forms.items) }
{
    let mut forms = Vec::with_capacity(alloc, count as usize)?;
    for place in 0..count {
        forms.push_reserved(form_of(plan, handler, entry_id(arg, place as usize)));
    }
    Ok(forms)
}

// The form of the entry at a place.
pub(crate) fn form_at(forms: &[Form], place: u32) -> Form
    requires { All HasSlot forms.now }
    ensures form { result ≡ entry_form forms.now place }
    ensures slot { HasSlot result }
{
    match forms.get(place as usize) {
        Some(form) => *form,
        None => Form::Narrow,
    }
}

// The entries of a list as the device takes them, one for each form; for a payload that can't be taken zeros stand in.
pub(crate) fn read_list(
    alloc: Global,
    forms: &[Form],
    arg: &[u8],
) -> Result<ControlList, AllocError>
    requires few { length forms.now ≤ MOST_ENTRIES }
    requires slots { All HasSlot forms.now }
    requires whole { list_size (length forms.now) ≤ length arg.now }
    ensures { IfOk result (λ list. list ≡ entries_in forms.now arg.now) }
{
    let count = forms.len() as u32;
    let mut entries = Vec::with_capacity(alloc, forms.len())?;
    for place in 0..count {
        let ExtControl { id, value } = entry_at(forms, arg, place);
        entries.push_reserved(ExtControl { id, value });
    }
    Ok(ControlList::from_vec(entries))
}

fn entry_at(forms: &[Form], arg: &[u8], place: u32) -> ExtControl
    requires few { length forms.now ≤ MOST_ENTRIES }
    requires slots { All HasSlot forms.now }
    requires place { place < length forms.now }
    requires whole { list_size (length forms.now) ≤ length arg.now }
    ensures { result ≡ entry_for forms.now arg.now place }
{
    let value = match read_at(forms, arg, place) {
        Ok(value) => value,
        Err(_) => stand_in(form_at(forms, place)),
    };
    ExtControl {
        id: entry_id(arg, place as usize),
        value,
    }
}

// The value of the entry at a place, or what is wrong with its payload.
fn read_at(forms: &[Form], arg: &[u8], place: u32) -> Result<CtrlValue, PayloadFault>
    requires few { length forms.now ≤ MOST_ENTRIES }
    requires slots { All HasSlot forms.now }
    requires place { place < length forms.now }
    requires whole { list_size (length forms.now) ≤ length arg.now }
    ensures { result ≡ read_for forms.now arg.now place }
{
    value_at(arg, forms.len(), place as usize, form_at(forms, place))
}

// What stands in for a payload that can't be taken.
fn stand_in(form: Form) -> CtrlValue
    requires { HasSlot form }
    ensures { result ≡ stands_in form }
{
    match form {
        Form::Array(elems) => CtrlValue::Bytes(ByteRow::repeated(elems as usize, 0)),
        _ => CtrlValue::Number(0),
    }
}

// The first entry whose payload has this fault.
pub(crate) fn first_with(forms: &[Form], arg: &[u8], fault: PayloadFault) -> Option<u32>
    requires few { length forms.now ≤ MOST_ENTRIES }
    requires slots { All HasSlot forms.now }
    requires whole { list_size (length forms.now) ≤ length arg.now }
    ensures place { IfSome result (λ place. place < length forms.now) }
    ensures first { result ≡ first_wrong forms.now arg.now fault }
{
    let count = forms.len() as u32;
    for place in 0..count {
        if has_fault(fault, &read_at(forms, arg, place)) {
            return Some(place);
        }
    }
    None
}

fn has_fault(fault: PayloadFault, value: &Result<CtrlValue, PayloadFault>) -> bool
    ensures { result ≡ is_fault fault value.now }
{
    match (fault, value) {
        (PayloadFault::TooSmall, Err(PayloadFault::TooSmall)) => true,
        (PayloadFault::Unreadable, Err(PayloadFault::Unreadable)) => true,
        _ => false,
    }
}

// The first entry of the control that the entry at a place names.
pub(crate) fn first_of_control(arg: &[u8], count: u32, place: u32) -> u32
    requires few { count ≤ MOST_ENTRIES }
    requires place { place < count }
    requires whole { list_size count ≤ length arg.now }
    ensures { result ≡ first_entry count arg.now place }
{
    for other in 0..count {
        if names_same(arg, place, other) {
            return other;
        }
    }
    place
}

// Whether an entry names the control that the one at a place names.
fn names_same(arg: &[u8], place: u32, other: u32) -> bool
    requires place { place < MOST_ENTRIES }
    requires other { other < MOST_ENTRIES }
    requires whole { entry_start (place + 1) ≤ length arg.now }
    requires whole_other { entry_start (other + 1) ≤ length arg.now }
    ensures { result ≡ is_same arg.now place other }
{
    entry_id(arg, place as usize).0 == entry_id(arg, other as usize).0
}
