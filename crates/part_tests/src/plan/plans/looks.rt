// What a plan is asked as data, and whether two plans answer alike.
use super::building::{Call, built, finished};
use super::closures::{Alike, calling, numbers};
use bitflags::Flags as FlagSet;
use ctrl_handlers::{MenuItem, Plan, PlanFault};
use ctrl_types::{CtrlId, Errno};
use std::alloc::Global;
use std::process::Abort;
use std::sync::Arc;
use std::sync::atomic::AtomicU64;

/// What a plan is asked, and what it answers.
#[derive(Clone, Copy)]
pub enum Look {
    Handlers(u32),
    Shown(u32, &'static [u32]),
    Find(u32, u32, Result<u32, Errno>),
    Next(u32, u32, Result<CtrlId, Errno>),
    Clusters(u32),
    // a cluster's members, each of which is in it, and its manual value
    Cluster(u32, &'static [u32], Option<i64>),
    // the number of its closures, where it has them
    Closures(u32, Option<u64>),
    Flags(u32, u32),
    Name(u32, u32, Option<&'static str>),
    Number(u32, u32, Option<i64>),
    // a control's minimum, maximum and default, and whether it follows
    Range(u32, (i64, i64, i64), bool),
    Reached(u32, &'static [u32]),
}

pub const UPDATE: u32 = 0x8;

fn shows(plan: &Plan<Alike>, called: &Arc<AtomicU64>, look: Look) -> bool {
    match look {
        Look::Handlers(want) => plan.handler_count() == want,
        Look::Shown(handler, want) => plan.shown(handler) == want,
        Look::Find(handler, id, want) => plan.find(handler, CtrlId(id)) == want,
        Look::Next(handler, id, want) => plan.next_id(handler, CtrlId(id)) == want,
        Look::Clusters(want) => plan.cluster_count() == want,
        Look::Cluster(cluster, members, manual) => has(plan, cluster, members, manual),
        Look::Closures(cluster, want) => numbers(plan, called, cluster) == (want, want),
        Look::Flags(control, want) => {
            control < plan.control_count() && plan.flags(control).bits() == want
        }
        Look::Name(control, index, want) => name_of(plan, control, index) == want,
        Look::Number(control, index, want) => number_of(plan, control, index) == want,
        Look::Range(control, want, follows) => {
            control < plan.control_count()
                && range_of(plan, control) == want
                && plan.follower(control).is_some() == follows
        }
        Look::Reached(cluster, want) => {
            cluster < plan.cluster_count() && plan.reached(cluster) == want
        }
    }
}

fn has(plan: &Plan<Alike>, cluster: u32, members: &[u32], manual: Option<i64>) -> bool {
    cluster < plan.cluster_count()
        && plan.members(cluster) == members
        && plan.manual(cluster) == manual
        && are_in(plan, cluster, members)
}

fn are_in(plan: &Plan<Alike>, cluster: u32, members: &[u32]) -> bool {
    for &member in members {
        if member >= plan.control_count() || plan.cluster_of(member) != cluster {
            return false;
        }
    }
    true
}

fn name_of(plan: &Plan<Alike>, control: u32, index: u32) -> Option<&str> {
    match plan.menu_item(control, index) {
        Ok(MenuItem::Name(name)) => Some(name.as_str()),
        _ => None,
    }
}

fn number_of(plan: &Plan<Alike>, control: u32, index: u32) -> Option<i64> {
    match plan.menu_item(control, index) {
        Ok(MenuItem::Number(number)) => Some(*number),
        _ => None,
    }
}

// The caller has seen that the control is there.
fn range_of(plan: &Plan<Alike>, control: u32) -> (i64, i64, i64) {
    match plan.controls().get(control as usize) {
        Some(ctrl) => (ctrl.minimum(), ctrl.maximum(), ctrl.default_value()),
        None => (0, 0, 0),
    }
}

/// A plan of these calls shows this.
pub fn holds(
    rt: &impl Abort,
    alloc: Global,
    calls: &[(Call, Result<u32, PlanFault>)],
    looks: &[Look],
) {
    let called = calling(rt, alloc);
    let plan = finished(rt, built(rt, alloc, &called, calls));
    for (row, &look) in looks.iter().enumerate() {
        assert!(rt; shows(&plan, &called, look), "look {row}");
    }
}

/// Whether two plans have the same controls, and their clusters the same members and closures. What else two plans of the same calls have is the same by
/// the contracts of the builder.
pub fn same(plan: &Plan<Alike>, other: &Plan<Alike>, called: &Arc<AtomicU64>) -> bool {
    for cluster in 0..plan.cluster_count() {
        if !has(other, cluster, plan.members(cluster), plan.manual(cluster)) {
            return false;
        }
        if numbers(plan, called, cluster) != numbers(other, called, cluster) {
            return false;
        }
    }
    plan.cluster_count() == other.cluster_count() && plan.controls() == other.controls()
}
