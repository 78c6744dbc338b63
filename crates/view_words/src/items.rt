//! The names of menus' items.

use ctrl_calls::Driver;
use ctrl_types::CtrlValue;
use device_state::{MenuItem, Plan};
use std::io::Write;
use view_layout::{Page, put_plain};

/// Puts behind a value of a control on a page the item that it is the index of, in brackets; nothing where it is none, or has an empty name.
pub fn put_item<D: Driver>(page: &mut Page, plan: &Plan<D>, control: u32, value: &CtrlValue) {
    match item_of(plan, control, value) {
        Some(MenuItem::Name(name)) if !name.as_str().is_empty() => {
            page.put(" (");
            put_plain(page, name.as_str().as_bytes());
            page.put(")");
        }
        Some(MenuItem::Number(number)) => {
            let _ = write!(page, " ({number})");
        }
        _ => {}
    }
}

/// The item of a menu that a value is the index of; none of another control.
pub fn item_of<'a, D: Driver>(
    plan: &'a Plan<D>,
    control: u32,
    value: &CtrlValue,
) -> Option<&'a MenuItem> {
    let CtrlValue::Number(number) = value else {
        return None;
    };
    plan.menu_item(control, u32::try_from(*number).ok()?).ok()
}
