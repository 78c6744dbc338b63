ghost use Rattle.std.specs.Prelude.{◌<◌, length};

use bitflags::Flags as FlagSet;
use ctrl_calls::Driver;
use ctrl_types::{ExtControl, Flags};
use device_state::{Ask, ControlList, Device, MAX_ENTRIES, Plan, Reply};
use std::alloc::{AllocError, Global};

// At which seat a fresh device is asked.
const SEAT: u32 = 0;

/// Asks a fresh device for what another one of the same plan came to: first each range that differs, then each cluster's members that differ, and at last each grab (of this project). What it refuses
/// it refuses; `is_alike` says whether the two stand alike then. File handles, subscriptions, events and requests aren't carried, and at the end the fresh device has no more open file handles than
/// before.
///
/// - `alloc`: where the lists lie for the moment.
/// - `from`: the other device.
/// - `to`: the fresh one.
///
/// The error is that a growth was refused; the fresh device is of no use then.
pub fn carry<D: Driver>(
    alloc: Global,
    from: &Device<D>,
    to: &mut Device<D>,
) -> Result<(), AllocError> {
    carry_ranges(from, to);
    for cluster in 0..from.plan().cluster_count() {
        carry_row(alloc, from, to, cluster)?;
    }
    carry_grabs(from, to);
    Ok(())
}

// Asks for the ranges that differ.
fn carry_ranges<D: Driver>(from: &Device<D>, to: &mut Device<D>) {
    for control in 0..from.plan().control_count() {
        let range = *from.range(control);
        if control < to.plan().control_count() && *to.range(control) != range {
            let ask = Ask::ModifyRange {
                control,
                min: range.minimum(),
                max: range.maximum(),
                step: range.step(),
                default_value: range.default_value(),
            };
            let _ = to.handle(SEAT, &ask);
        }
    }
}

// Asks for the grabs.
fn carry_grabs<D: Driver>(from: &Device<D>, to: &mut Device<D>) {
    for control in 0..from.plan().control_count() {
        if from.is_grabbed(control) {
            let _ = to.handle(SEAT, &Ask::Grab { control, on: true });
        }
    }
}

// Sets those members of a cluster whose values differ, all at once.
fn carry_row<D: Driver>(
    alloc: Global,
    from: &Device<D>,
    to: &mut Device<D>,
    cluster: u32,
) -> Result<(), AllocError>
    requires { cluster < length from.now.plan.clusters }
{
    let mut list = Vec::new(alloc);
    for member in from.plan().members(cluster) {
        if let Some(entry) = entry_for(from, to, *member) {
            list.push(entry)?;
        }
    }
    if list.is_empty() || list.len() > MAX_ENTRIES as usize {
        return Ok(());
    }
    if let Some(handler) = handler_for(from, list.as_slice()) {
        set_row(to, handler, ControlList::from_vec(list));
    }
    Ok(())
}

// The entry by which a control is set to its value in the other device; none where it has it already, or can't be set.
fn entry_for<D: Driver>(from: &Device<D>, to: &Device<D>, control: u32) -> Option<ExtControl> {
    let value = *from.values().get(control as usize)?;
    let flags = from.plan().flags(control);
    if to.values().get(control as usize) == Some(&value)
        || flags.contains(Flags::READ_ONLY)
        || flags.contains(Flags::DISABLED)
    {
        return None;
    }
    let id = from.plan().control(control).id();
    Some(ExtControl { id, value })
}

// The first handler that shows all controls of a list.
fn handler_for<D: Driver>(from: &Device<D>, list: &[ExtControl]) -> Option<u32> {
    for handler in 0..from.plan().handler_count() {
        if shows(from.plan(), handler, list) {
            return Some(handler);
        }
    }
    None
}

// Whether a handler shows all controls of a list.
fn shows<D: Driver>(plan: &Plan<D>, handler: u32, list: &[ExtControl]) -> bool {
    for entry in list {
        if plan.find(handler, entry.id).is_err() {
            return false;
        }
    }
    true
}

// Sets controls through a file handle of their own.
fn set_row<D: Driver>(to: &mut Device<D>, handler: u32, list: ControlList) {
    if let Ok(Reply::Fh(fh, ..)) = to.handle(SEAT, &Ask::OpenFh { handler }) {
        let ask = Ask::SetCtrls {
            fh,
            which: 0,
            request: None,
            list,
        };
        let _ = to.handle(SEAT, &ask);
        let _ = to.handle(SEAT, &Ask::CloseFh { fh });
    }
}
