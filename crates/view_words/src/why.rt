//! Why an ask was refused, in words.

use crate::asked::Asked;
use crate::classes::put_class;
use crate::items::put_item;
use crate::reply::wanted_by;
use crate::words::{members_beside, word_of};
use ctrl_calls::Driver;
use ctrl_types::{Check, CtrlId, CtrlValue, Kind, Pair, Refusal, Which, last_value};
use device_state::Ask;
use script_replies::{ReplyLine, write_answer};
use std::io::Write;
use view_layout::Page;

/// Puts on a page the reply line of a refusal, the name of its error, and the entry and the control that it is about.
///
/// - `page`: empty.
/// - `line`: where the reply line is put together.
pub fn put_refusal<D: Driver>(
    page: &mut Page,
    line: &mut ReplyLine,
    asked: Asked<'_, D>,
    refusal: Refusal,
) {
    let _ = write_answer(page, line, asked.ask, &Err(asked.ask.fault(refusal)));
    // its line feed
    page.pop();
    let errno = refusal.check.errno();
    let _ = write!(page, ": {errno:?}");
    put_place(page, asked, refusal.entry);
}

/// Puts on a page the check that an ask was refused by, behind it in brackets the part of it that is meant, where docs/RULES.md numbers its parts, and what
/// didn't hold.
pub fn put_check<D: Driver>(page: &mut Page, asked: Asked<'_, D>, refusal: Refusal) {
    put_broken(page, refusal.check);
    match refusal.check {
        Check::RowRefused(_) => put_row(page, asked, refusal.entry),
        Check::ValueNotOfKind => put_form(page, asked, refusal.entry),
        Check::ValueOutsideMenu => put_range(page, asked, refusal.entry),
        Check::ClassNotShown => put_list_class(page, asked.ask),
        Check::EntryNotShown | Check::EntryOfOtherClass => {
            put_entry_class(page, asked, refusal.entry);
            put_showing(page, asked, refusal.entry);
        }
        Check::IdNotShown => put_showing(page, asked, refusal.entry),
        _ => {}
    }
}

/// Puts a check on a page: its number, behind it in brackets the part of it that is meant, where docs/RULES.md numbers its parts, and what didn't hold.
pub(crate) fn put_broken(page: &mut Page, check: Check) {
    page.put("check ");
    page.put_number(i64::from(check.number()));
    if let Some(part) = check.part() {
        page.put(" (");
        page.put_number(i64::from(part));
        page.put(")");
    }
    page.put(", ");
    page.put(check.text());
}

// What the control of an entry would take.
fn put_form<D: Driver>(page: &mut Page, asked: Asked<'_, D>, entry: Option<u32>) {
    let Some(control) = control_at(asked, entry) else {
        return;
    };
    let Some(ctrl) = asked.device.plan().controls().get(control as usize) else {
        return;
    };
    match ctrl.kind() {
        Kind::U8 => {
            let elems = ctrl.elems();
            let digits = u64::from(elems) * 2;
            let _ = write!(
                page,
                ": it is an array of {elems} bytes, so write x and {digits} hexadecimal digits"
            );
        }
        _ => page.put(": it takes a number"),
    }
}

// The range of the moment of the control of an entry.
fn put_range<D: Driver>(page: &mut Page, asked: Asked<'_, D>, entry: Option<u32>) {
    let Some(control) = control_at(asked, entry) else {
        return;
    };
    if control < asked.device.plan().control_count() {
        let ctrl = asked.device.range(control);
        let (least, most) = (ctrl.minimum(), ctrl.maximum());
        let _ = write!(page, ": it is from {least} to {most}");
    }
}

// The first handler that shows the id which the file handle isn't shown.
fn put_showing<D: Driver>(page: &mut Page, asked: Asked<'_, D>, entry: Option<u32>) {
    let Some(id) = id_at(asked.ask, entry) else {
        return;
    };
    if asked.control(id).is_some() {
        return;
    }
    let plan = asked.device.plan();
    for handler in 0..plan.handler_count() {
        if plan.find(handler, id).is_ok() {
            let _ = write!(page, ": handler {handler} shows it");
            return;
        }
    }
}

// The class that a list is of.
fn put_list_class(page: &mut Page, ask: &Ask) {
    if let Some(class) = class_of(ask) {
        page.put(": ");
        put_class(page, class);
    }
}

// The class of an entry's control, where the list is of another one.
fn put_entry_class<D: Driver>(page: &mut Page, asked: Asked<'_, D>, entry: Option<u32>) {
    let (Some(class), Some(id)) = (class_of(asked.ask), id_at(asked.ask, entry)) else {
        return;
    };
    if id.class() != class {
        page.put(": its class is ");
        put_class(page, id.class());
    }
}

// The class that a list is of; none where it is of none.
fn class_of(ask: &Ask) -> Option<u32> {
    let which = match ask {
        Ask::GetCtrls { which, .. } | Ask::SetCtrls { which, .. } | Ask::TryCtrls { which, .. } =>
            *which,
        _ => return None,
    };
    match Which::of(which) {
        Ok(Which::Class(class)) => Some(class),
        _ => None,
    }
}

// The entry that is refused, and the control that it or the ask names.
fn put_place<D: Driver>(page: &mut Page, asked: Asked<'_, D>, entry: Option<u32>) {
    let id = id_at(asked.ask, entry);
    if let Some(entry) = entry {
        page.put(" at entry ");
        page.put_number(i64::from(entry));
    }
    if let Some(id) = id {
        let (before, behind) = if entry.is_some() {
            (" (", ")")
        } else {
            (" at ", "")
        };
        page.put(before);
        asked.put_name(page, id, entry.unwrap_or(0) as usize);
        page.put(behind);
    }
}

// The id that an entry of a list names, or the ask itself.
fn id_at(ask: &Ask, entry: Option<u32>) -> Option<CtrlId> {
    match ask {
        Ask::GetCtrls { list, .. } | Ask::SetCtrls { list, .. } | Ask::TryCtrls { list, .. } => {
            let found = list.as_slice().get(entry? as usize)?;
            Some(found.id)
        }
        Ask::Query { id, .. } | Ask::MenuItem { id, .. } | Ask::Subscribe { id, .. } => Some(*id),
        _ => None,
    }
}

// The control that an entry of a list names, or the ask itself.
fn control_at<D: Driver>(asked: Asked<'_, D>, entry: Option<u32>) -> Option<u32> {
    asked.control(id_at(asked.ask, entry)?)
}

// The row that the cluster of an entry doesn't take: what is asked of its members, and the present values of the others.
fn put_row<D: Driver>(page: &mut Page, asked: Asked<'_, D>, entry: Option<u32>) {
    let Some(control) = control_at(asked, entry) else {
        return;
    };
    let plan = asked.device.plan();
    page.put(":");
    for member in members_beside(plan, control) {
        let value = wanted_of(asked, *member);
        page.put(" ");
        page.put(word_of(asked.known, *member));
        page.put("=");
        page.put_value(&value);
        put_item(page, plan, *member, &value);
    }
}

// The value that is asked of a control: the last one that the list gives it, or else the one that the request stores which the list is about; the present
// one where there is neither.
fn wanted_of<D: Driver>(asked: Asked<'_, D>, control: u32) -> CtrlValue {
    let mut value = asked
        .device
        .values()
        .get(control as usize)
        .copied()
        .unwrap_or(CtrlValue::Number(0));
    if let Some(stored) = last_value(stored_for(asked), control) {
        value = stored;
    }
    for entry in wanted_by(asked.ask) {
        if asked.control(entry.id) == Some(control) {
            value = entry.value;
        }
    }
    value
}

// What the request stores that a list which writes is about; nothing where it is about none.
fn stored_for<'a, D: Driver>(asked: Asked<'a, D>) -> &'a [Pair] {
    match asked.ask {
        Ask::SetCtrls {
            request: Some(request),
            ..
        }
        | Ask::TryCtrls {
            request: Some(request),
            ..
        } => asked.device.asked(*request).unwrap_or(&[]),
        _ => &[],
    }
}
