//! What the tables of controls may not mean.

ghost use Rattle.std.specs.Prelude.{◌<◌, length};

use crate::draft::Draft;
use crate::lines::Lines;
use crate::part::Part;
use ctrl_handlers::Plan;
use ctrl_settle::Ctrl;
use ctrl_types::Kind;
use data_driver::Data;
use file_faults::{Key, Place};
use std::alloc::{AllocError, Global};
use std::fmt::Write;

/// Warns of the controls of a plan, which are these parts of a file, but for those that had a fault.
pub fn warn_of_controls(
    lines: &mut Lines<'_>,
    draft: &Draft,
    plan: &Plan<Data>,
    parts: &[Part],
) -> Result<(), AllocError> {
    for control in 0..plan.control_count() {
        let part = parts.get(control as usize).copied();
        if let Some(Part::Control(handler, number)) = part {
            if !draft.had_fault(Part::Control(handler, number)) {
                let has_max = draft.has_key(handler, number, Key::Max);
                warn_of_control(
                    lines,
                    plan,
                    control,
                    Place::Control(handler, number),
                    has_max,
                )?;
            }
        }
    }
    Ok(())
}

fn warn_of_control(
    lines: &mut Lines<'_>,
    plan: &Plan<Data>,
    control: u32,
    place: Place,
    has_max: bool,
) -> Result<(), AllocError>
    requires { control < length plan.now.controls }
{
    let ctrl = plan.control(control);
    if ctrl.id().0 == 0 {
        let words = "no kernel has a control of id 0: write its own, as 0x00980900";
        lines.warning(place, Key::Id, words)?;
    }
    match ctrl.kind() {
        Kind::Integer | Kind::Integer64 if !has_max => lines.warning(
            place,
            Key::Max,
            "left out it is 0, and the control takes nothing above it: write the greatest value",
        ),
        Kind::Menu | Kind::IntegerMenu => warn_of_menu(lines, plan, control, place),
        _ => Ok(()),
    }
}

// Warns of a menu in which an index that can be set has no item.
fn warn_of_menu(
    lines: &mut Lines<'_>,
    plan: &Plan<Data>,
    control: u32,
    place: Place,
) -> Result<(), AllocError>
    requires { control < length plan.now.controls }
{
    let ctrl = plan.control(control);
    let mut has_item = false;
    let mut without = 0u64;
    for index in 0..64u32 {
        if plan.menu_item(control, index).is_ok() {
            has_item = true;
        } else if is_taken(&ctrl, index) {
            without |= 1u64 << index;
        }
    }
    if !has_item {
        let some = match ctrl.kind() {
            Kind::IntegerMenu => "[15, 30]",
            _ => "[\"Off\", \"On\"]",
        };
        let words = format!(in lines.alloc; "no index has an item: write some, as menu = {some}")?;
        lines.warning(place, Key::Menu, words.as_str())
    } else if without != 0 {
        let skip = indexes(lines.alloc, ctrl.skip() | without)?;
        let words = format!(in lines.alloc;
            "an index without an item can be set all the same: write skip = {skip}, or give it one"
        )?;
        lines.warning(place, Key::Menu, words.as_str())
    } else {
        Ok(())
    }
}

// Whether a menu takes an index below 64.
fn is_taken(ctrl: &Ctrl, index: u32) -> bool
    requires { index < 64 }
{
    let is_skipped = ctrl.skip() & (1u64 << index) != 0;
    let index = i64::from(index);
    ctrl.minimum() <= index && index <= ctrl.maximum() && !is_skipped
}

// The indexes of bits, as an array of a file.
fn indexes(alloc: Global, bits: u64) -> Result<String, AllocError> {
    let mut out = String::from_str(alloc, "[")?;
    for index in 0..64u32 {
        if bits & (1u64 << index) != 0 {
            let between = if out.len() == 1 { "" } else { ", " };
            write!(out, "{between}{index}")?;
        }
    }
    out.push_str("]")?;
    Ok(out)
}
