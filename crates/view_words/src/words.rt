//! The words by which people know controls, clusters and flags.

use bitflags::Flags as FlagSet;
use ctrl_calls::Driver;
use ctrl_types::{Flags, Kind};
use device_state::Plan;
use script_lines::ControlWords;
use view_layout::Page;

/// The word of a control, by its number.
pub fn word_of(known: &ControlWords, control: u32) -> &str {
    match known.word_of(control) {
        Some(word) => str::from_utf8(word).unwrap_or("?"),
        None => "?",
    }
}

/// Puts the words of controls on a page.
pub fn put_words(page: &mut Page, known: &ControlWords, controls: &[u32]) {
    let mut between = "";
    for control in controls {
        page.put(between);
        page.put(word_of(known, *control));
        between = ", ";
    }
}

/// Puts the number of a cluster on a page, and the words of its members.
pub fn put_cluster<D: Driver>(page: &mut Page, known: &ControlWords, plan: &Plan<D>, cluster: u32) {
    page.put("cluster ");
    page.put_number(i64::from(cluster));
    page.put(" (");
    put_words(page, known, members_of(plan, cluster));
    page.put(")");
}

/// The members of a cluster; none where there is no such cluster.
pub(crate) fn members_of<D: Driver>(plan: &Plan<D>, cluster: u32) -> &[u32] {
    if cluster < plan.cluster_count() {
        plan.members(cluster)
    } else {
        &[]
    }
}

/// The members of the cluster that a control is in; none where there is no such control.
pub fn members_beside<D: Driver>(plan: &Plan<D>, control: u32) -> &[u32] {
    if control < plan.control_count() {
        plan.members(plan.cluster_of(control))
    } else {
        &[]
    }
}

// The hints for applications, which mean nothing to a device and so have no name among its flags.
const HINTS: &[(u32, &str)] = &[(0x20, " SLIDER"), (0x400, " MODIFY_LAYOUT")];

/// Puts the names of flags on a page; nothing where there are none.
pub fn put_flags(page: &mut Page, flags: Flags) {
    if flags.is_empty() {
        return;
    }
    page.put(" flags");
    for flag in Flags::flags() {
        if flags.contains(*flag.value()) {
            page.put(" ");
            page.put(flag.name());
        }
    }
    for (bit, name) in HINTS {
        if flags.bits() & *bit != 0 {
            page.put(name);
        }
    }
}

/// The name of a kind.
pub fn kind_name(kind: Kind) -> &'static str {
    match kind {
        Kind::Integer => "INTEGER",
        Kind::Boolean => "BOOLEAN",
        Kind::Menu => "MENU",
        Kind::Button => "BUTTON",
        Kind::Integer64 => "INTEGER64",
        Kind::Bitmask => "BITMASK",
        Kind::IntegerMenu => "INTEGER_MENU",
        Kind::U8 => "U8",
    }
}
