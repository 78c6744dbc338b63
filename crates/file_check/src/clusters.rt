//! What the tables of clusters may not mean.

ghost use Rattle.std.specs.Prelude.{◌<◌, length};

use crate::draft::Draft;
use crate::lines::Lines;
use crate::part::Part;
use ctrl_calls::{ClusterRow, Verdict};
use ctrl_handlers::Plan;
use ctrl_settle::{Ctrl, settle};
use ctrl_types::{CtrlValue, Kind};
use data_driver::{Data, Limit};
use device_file::DeviceFile;
use file_faults::{Key, Place};
use script_lines::ControlWords;
use std::alloc::{AllocError, Global};
use std::fmt::Write;

/// Warns of the clusters that a file names, but for those that had a fault, or have a member that had one; the controls are these parts of the file.
pub fn warn_of_clusters(
    lines: &mut Lines<'_>,
    draft: &Draft,
    device: &DeviceFile,
    controls: &[Part],
) -> Result<(), AllocError> {
    for cluster in 0..device.plan.cluster_count() {
        let Some(number) = draft.clusters().get(cluster as usize).copied() else {
            break;
        };
        let members = device.plan.members(cluster);
        let had_fault = |member: &u32| match controls.get(*member as usize) {
            Some(part) => draft.had_fault(*part),
            None => true,
        };
        if !draft.had_fault(Part::Cluster(number)) && !members.iter().any(had_fault) {
            warn_of_manual(lines, device, cluster, number)?;
            warn_of_limit(lines, device, cluster, number)?;
        }
    }
    Ok(())
}

// Warns of a manual value that the master never has.
fn warn_of_manual(
    lines: &mut Lines<'_>,
    device: &DeviceFile,
    cluster: u32,
    number: usize,
) -> Result<(), AllocError>
    requires { cluster < length device.now.plan.clusters }
{
    let Some(manual) = device.plan.manual(cluster) else {
        return Ok(());
    };
    let Some(master) = device.plan.members(cluster).first() else {
        return Ok(());
    };
    let Some(ctrl) = device.plan.controls().get(*master as usize) else {
        return Ok(());
    };
    if settle(ctrl, &CtrlValue::Number(manual)) == Ok(CtrlValue::Number(manual)) {
        return Ok(());
    }
    let name = word_of(&device.words, *master);
    let taken = taken_by(lines.alloc, ctrl)?;
    let words = format!(in lines.alloc;
        "its first member {name:?} never has this value, so the others stay INACTIVE: write one that it takes, {taken}"
    )?;
    lines.warning(Place::Cluster(number), Key::Manual, words.as_str())
}

// What a control takes, in words.
fn taken_by(alloc: Global, ctrl: &Ctrl) -> Result<String, AllocError> {
    let (least, most, step) = (ctrl.minimum(), ctrl.maximum(), ctrl.step());
    match ctrl.kind() {
        Kind::Bitmask => format!(in alloc; "with bits of {most:#x} alone"),
        Kind::Integer | Kind::Integer64 if step > 1 => {
            format!(in alloc; "from {least} to {most} in steps of {step}")
        }
        _ if ctrl.skip() != 0 => format!(in alloc; "from {least} to {most}, and not skipped"),
        _ => format!(in alloc; "from {least} to {most}"),
    }
}

// Warns of a limit that doesn't take the defaults as they are.
fn warn_of_limit(
    lines: &mut Lines<'_>,
    device: &DeviceFile,
    cluster: u32,
    number: usize,
) -> Result<(), AllocError>
    requires { cluster < length device.now.plan.clusters }
{
    let Some(limit) = limit_of(&device.plan, cluster) else {
        return Ok(());
    };
    let mut values = Vec::new(lines.alloc);
    let mut said = String::new(lines.alloc);
    for member in device.plan.members(cluster) {
        if let Some(ctrl) = device.plan.controls().get(*member as usize) {
            let (name, default) = (word_of(&device.words, *member), ctrl.default_value());
            values.push(ctrl.default_as_value())?;
            write!(said, " {name}={default}")?;
        }
    }
    if takes_row(&limit, values.as_slice()) {
        return Ok(());
    }
    let words = format!(in lines.alloc;
        "it doesn't take the defaults as they are,{said}, and they stay until a set of the cluster: write others, or another limit"
    )?;
    lines.warning(Place::Limit(number), Key::Table, words.as_str())
}

// Whether a limit takes a row as it is, or there is no such row.
fn takes_row(limit: &Limit, values: &[CtrlValue]) -> bool {
    let Some(row) = ClusterRow::from_slice(values) else {
        return true;
    };
    match limit.verdict(&row) {
        Verdict::Accept(taken) => taken.values() == values,
        Verdict::Refuse(_) => false,
    }
}

// What a cluster is held to.
fn limit_of(plan: &Plan<Data>, cluster: u32) -> Option<Limit> {
    Limit::of(&plan.validator(cluster)?.relation())
}

// What scripts call a control.
fn word_of(words: &ControlWords, control: u32) -> &str {
    match words.word_of(control) {
        Some(word) => str::from_utf8(word).unwrap_or("?"),
        None => "?",
    }
}
