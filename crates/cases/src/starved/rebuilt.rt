//! The plan of a device that a file describes, built once more with closures that count.

use crate::starved::counting::{Counting, Counts};
use ctrl_calls::Calls;
use ctrl_handlers::{Plan, PlanBuilder};
use ctrl_types::Kind;
use data_driver::Data;
use menu_items::MenuItem;
use std::alloc::{AllocError, Global};

// No menu has more items.
const MOST_ITEMS: u32 = 64;

/// A plan as the given one, but that its closures count there. The error is that a growth was refused. Where handlers add others in an order that isn't that of their numbers it may be another plan, which `is_alike` says.
pub fn rebuilt(
    alloc: Global,
    plan: &Plan<Data>,
    counts: &Counts,
) -> Result<Plan<Counting>, AllocError> {
    let mut builder = PlanBuilder::new(alloc);
    for handler in 0..plan.handler_count() {
        put_handler(&mut builder, plan, handler)?;
    }
    for control in 0..plan.control_count() {
        put_items(&mut builder, plan, control)?;
    }
    for cluster in 0..plan.cluster_count() {
        let calls = Calls {
            validator: counts.validator(plan.validator(cluster))?,
            notifier: counts.notifier(plan.notifier(cluster))?,
        };
        let members = plan.members(cluster);
        let added = match plan.manual(cluster) {
            Some(manual) => builder.auto_cluster(members, manual, calls),
            None => builder.cluster(members, calls),
        };
        if added.is_err() {
            return Err(AllocError);
        }
    }
    match builder.finish() {
        Ok(plan) => Ok(plan),
        Err(_) => Err(AllocError),
    }
}

/// Whether each handler of a plan that was built once more shows what it showed.
pub fn is_alike(plan: &Plan<Data>, other: &Plan<Counting>) -> bool {
    (0..plan.handler_count()).all(|handler| plan.shown(handler) == other.shown(handler))
}

// Adds a handler with its own controls, and has it show what earlier ones show.
fn put_handler(
    builder: &mut PlanBuilder<Counting>,
    plan: &Plan<Data>,
    handler: u32,
) -> Result<(), AllocError> {
    if builder.handler().is_err() {
        return Err(AllocError);
    }
    // the handlers of a file have their controls one behind another, and what they add stands further up
    let first = builder.controls().len();
    for (number, ctrl) in plan.controls().iter().enumerate().skip(first) {
        let is_own = plan
            .shown(handler)
            .iter()
            .any(|shown| *shown as usize == number);
        if is_own && builder.control(handler, *ctrl).is_err() {
            return Err(AllocError);
        }
    }
    for earlier in 0..handler {
        if is_added(plan, handler, earlier) && builder.add_handler(handler, earlier).is_err() {
            return Err(AllocError);
        }
    }
    Ok(())
}

// Whether a handler shows all that an earlier one shows, but for what is private.
fn is_added(plan: &Plan<Data>, handler: u32, earlier: u32) -> bool {
    let shown = plan.shown(handler);
    plan.shown(earlier).iter().all(|control| is_private(plan, *control)
        || shown.iter().any(|it| *it == *control))
}

fn is_private(plan: &Plan<Data>, control: u32) -> bool {
    match plan.controls().get(control as usize) {
        Some(ctrl) => ctrl.is_private(),
        None => false,
    }
}

// Gives a menu its items.
fn put_items(
    builder: &mut PlanBuilder<Counting>,
    plan: &Plan<Data>,
    control: u32,
) -> Result<(), AllocError> {
    let Some(ctrl) = plan.controls().get(control as usize) else {
        return Ok(());
    };
    if !matches!(ctrl.kind(), Kind::Menu | Kind::IntegerMenu) {
        return Ok(());
    }
    for index in 0..MOST_ITEMS {
        let put = match plan.menu_item(control, index) {
            Ok(MenuItem::Name(name)) => builder.menu_name(control, index, name.as_str()),
            Ok(MenuItem::Number(number)) => builder.menu_number(control, index, *number),
            Err(_) => Ok(()),
        };
        if put.is_err() {
            return Err(AllocError);
        }
    }
    Ok(())
}
