//! What `v4l2-ctl` lists of a device as a camera: the controls that the last handler shows, and the headings of their classes.

use bitflags::Flags as FlagSet;
use call_structs::is_heading;
use ctrl_calls::Driver;
use ctrl_handlers::MAX_CONTROLS;
use ctrl_types::{CtrlId, Flags, Which};
use device_state::{Device, Plan};
use std::alloc::{AllocError, Global};

/// The ids that are listed, rising: those of controls and of headings.
pub(crate) fn listed_ids<D: Driver>(
    alloc: Global,
    device: &Device<D>,
) -> Result<Vec<u32>, AllocError> {
    let plan = device.plan();
    let mut ids = headings_of_last(alloc, plan)?;
    for control in 0..plan.control_count() {
        if is_listed(device, control) {
            ids.push(plan.control(control).id().0)?;
        }
    }
    ids.sort_unstable();
    Ok(ids)
}

/// Whether a control is listed: the last handler shows it, it isn't DISABLED, and its id isn't 0, since `v4l2-ctl` asks for the least id above that.
pub(crate) fn is_listed<D: Driver>(device: &Device<D>, control: u32) -> bool {
    let plan = device.plan();
    if control >= plan.control_count() {
        return false;
    }
    let id = plan.control(control).id();
    shown_by_last(plan, id) == Some(control)
        && id.0 != 0
        && !device.flags(control).contains(Flags::DISABLED)
}

/// The control under an id that is listed; none where that is a heading's.
pub(crate) fn control_at<D: Driver>(plan: &Plan<D>, id: CtrlId) -> Option<u32> {
    let control = shown_by_last(plan, id)?;
    if control < plan.control_count() && is_heading(id, plan.control(control).flags()) {
        return None;
    }
    Some(control)
}

// The control that the last handler shows under an id.
fn shown_by_last<D: Driver>(plan: &Plan<D>, id: CtrlId) -> Option<u32> {
    plan.find(plan.handler_count().checked_sub(1)?, id).ok()
}

// The headings of the last handler, by their ids, rising: those for which the controls and the headings of the handlers before it leave room.
fn headings_of_last<D: Driver>(alloc: Global, plan: &Plan<D>) -> Result<Vec<u32>, AllocError> {
    let mut room = MAX_CONTROLS.saturating_sub(plan.control_count()) as usize;
    let mut headings = Vec::new(alloc);
    for handler in 0..plan.handler_count() {
        headings = headings_of(alloc, plan, handler)?;
        headings.truncate(room);
        room = room.saturating_sub(headings.len());
    }
    Ok(headings)
}

// A heading for each class of which a handler shows a control, by their ids, rising; none where it shows a control under that id.
fn headings_of<D: Driver>(
    alloc: Global,
    plan: &Plan<D>,
    handler: u32,
) -> Result<Vec<u32>, AllocError> {
    let mut headings: Vec<u32> = Vec::new(alloc);
    for control in plan.shown(handler) {
        let class = class_at(plan, *control);
        let heading = class | 1;
        if is_class(class)
            && plan.find(handler, CtrlId(heading)).is_err()
            && !headings.iter().any(|it| *it == heading)
        {
            headings.push(heading)?;
        }
    }
    headings.sort_unstable();
    Ok(headings)
}

// The class of a control by its number; 0, which is none, where there is no such control.
fn class_at<D: Driver>(plan: &Plan<D>, control: u32) -> u32 {
    match plan.controls().get(control as usize) {
        Some(ctrl) => ctrl.id().class(),
        None => 0,
    }
}

fn is_class(class: u32) -> bool {
    match Which::of(class) {
        Ok(Which::Class(_)) => true,
        _ => false,
    }
}
