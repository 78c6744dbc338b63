//! A device as `v4l2-ctl --list-ctrls-menus` (1.22.1) prints one, and behind that its handlers, its clusters and the values of its arrays.

ghost use Rattle.std.specs.Prelude.{◌<◌, length};

use crate::items::item_of;
use crate::limits::{Explained, put_limit, put_told};
use crate::listed::{control_at, is_listed, listed_ids};
use crate::words::{put_words, word_of};
use bitflags::Flags as FlagSet;
use ctrl_calls::Driver;
use ctrl_settle::Ctrl;
use ctrl_types::{CtrlId, CtrlValue, Flags, Kind};
use device_file::ClassNames;
use device_state::{Device, MenuItem, Plan};
use kernel_names::heading_name;
use script_lines::ControlWords;
use std::alloc::{AllocError, Global};
use std::io::Write;
use view_layout::{Page, put_spaces};

// How wide the column is that has the names of controls, and how many bytes a name of a control or of an item has at most, as programs are told it.
const NAMES: usize = 31;

// The flag of a control whose values lie behind a pointer (linux/videodev2.h).
const HAS_PAYLOAD: u32 = 0x100;

// The flags in the order of v4l2-ctl; those that no device here has are left out.
const FLAGS: &[(u32, &str)] = &[
    (0x2, "grabbed"),
    (0x1, "disabled"),
    (0x4, "read-only"),
    (0x8, "update"),
    (0x10, "inactive"),
    (0x20, "slider"),
    (0x40, "write-only"),
    (HAS_PAYLOAD, "has-payload"),
    (0x200, "execute-on-write"),
    (0x400, "modify-layout"),
];

/// Puts a device on a page: byte for byte what `v4l2-ctl` lists of it as a camera, which shows what the last handler shows; then a line for each handler, and below it the controls of it that
/// aren't in that list; a line for each cluster; and the values of arrays. The error is that a growth was refused, but for those of the page.
///
/// - `known`: the words of its controls.
/// - `classes`: the names that it gives to classes.
pub fn put_listing<D: Driver + Explained>(
    page: &mut Page,
    alloc: Global,
    known: &ControlWords,
    classes: Option<&ClassNames>,
    device: &Device<D>,
) -> Result<(), AllocError> {
    let ids = listed_ids(alloc, device)?;
    for id in ids.as_slice() {
        let id = CtrlId(*id);
        match control_at(device.plan(), id) {
            Some(control) => put_control(page, alloc, known, device, control),
            None => put_heading(page, classes, id.class()),
        }
    }
    put_handlers(page, alloc, known, device);
    put_clusters(page, known, device.plan());
    put_arrays(page, known, device);
    Ok(())
}

fn put_heading(page: &mut Page, classes: Option<&ClassNames>, class: u32) {
    let own = match classes {
        Some(names) => names.name_of(class),
        None => None,
    };
    let name = heading_name(class, own);
    let _ = write!(page, "\n{name}\n\n");
}

fn put_control<D: Driver>(
    page: &mut Page,
    alloc: Global,
    known: &ControlWords,
    device: &Device<D>,
    control: u32,
) {
    let plan = device.plan();
    if control >= plan.control_count() {
        return;
    }
    let ctrl = *device.range(control);
    put_name(page, alloc, word_of(known, control).as_bytes());
    put_kind(page, ctrl.id(), ctrl.kind());
    put_range(page, &ctrl);
    if let CtrlValue::Number(number) = value_of(device, control) {
        put_value(page, plan, control, &ctrl, number);
    }
    put_flag_words(page, ctrl.kind(), device.flags(control));
    put_items(page, plan, control, &ctrl);
}

// The present value, 0 where it can't be read.
fn value_of<D: Driver>(device: &Device<D>, control: u32) -> CtrlValue
    requires { control < length device.now.plan.controls }
{
    if device.flags(control).contains(Flags::WRITE_ONLY) {
        return CtrlValue::Number(0);
    }
    device
        .values()
        .get(control as usize)
        .copied()
        .unwrap_or(CtrlValue::Number(0))
}

// Puts a name at the end of its column: its letters and digits in lower case, and one `_` for all that stands between two of them.
fn put_name(page: &mut Page, alloc: Global, name: &[u8]) {
    let mut word = Page::new(alloc);
    let mut is_apart = false;
    for byte in as_told(name) {
        if byte.is_ascii_alphanumeric() {
            word.put(if is_apart { "_" } else { "" });
            word.put_bytes(&[byte.to_ascii_lowercase()]);
            is_apart = false;
        } else {
            is_apart = !word.text().is_empty();
        }
    }
    page.needs(&word);
    put_spaces(page, NAMES.saturating_sub(word.text().len()));
    page.put_bytes(word.text());
}

// A name as far as a program is told it.
fn as_told(name: &[u8]) -> &[u8] {
    name.get(..NAMES).unwrap_or(name)
}

fn put_kind(page: &mut Page, id: CtrlId, kind: Kind) {
    let CtrlId(id) = id;
    let kind = match kind {
        Kind::Integer => "(int)    :",
        Kind::Boolean => "(bool)   :",
        Kind::Menu => "(menu)   :",
        Kind::Button => "(button) :",
        Kind::Integer64 => "(int64)  :",
        Kind::Bitmask => "(bitmask):",
        Kind::IntegerMenu => "(intmenu):",
        Kind::U8 => "(u8)     :",
    };
    let _ = write!(page, " 0x{id:08x} {kind}");
}

// The bounds, the step and the default, as far as the kind has them.
fn put_range(page: &mut Page, ctrl: &Ctrl) {
    let most = ctrl.maximum();
    let default = ctrl.default_value();
    match ctrl.kind() {
        Kind::Integer | Kind::Integer64 => {
            put_bounds(page, ctrl);
            let step = ctrl.step().cast_signed();
            let _ = write!(page, " step={step} default={default}");
        }
        Kind::Menu | Kind::IntegerMenu => {
            put_bounds(page, ctrl);
            let _ = write!(page, " default={default}");
        }
        Kind::Boolean => {
            let _ = write!(page, " default={default}");
        }
        Kind::Bitmask => {
            let _ = write!(page, " max=0x{most:08x} default=0x{default:08x}");
        }
        Kind::U8 => {
            put_bounds(page, ctrl);
            let step = ctrl.step().cast_signed();
            let elems = ctrl.elems();
            let _ = write!(page, " step={step} default={default} dims=[{elems}]");
        }
        Kind::Button => {}
    }
}

fn put_bounds(page: &mut Page, ctrl: &Ctrl) {
    let least = ctrl.minimum();
    let most = ctrl.maximum();
    let _ = write!(page, " min={least} max={most}");
}

// A value, and of a menu the item; that of an array isn't listed.
fn put_value<D: Driver>(page: &mut Page, plan: &Plan<D>, control: u32, ctrl: &Ctrl, number: i64) {
    let shown = match ctrl.kind() {
        Kind::U8 => return,
        Kind::Bitmask => as_int(number),
        _ => number,
    };
    let _ = write!(page, " value={shown}");
    match item_at(plan, control, ctrl, number) {
        Some(MenuItem::Name(name)) => {
            page.put(" (");
            put_item_name(page, name.as_str());
            page.put(")");
        }
        Some(MenuItem::Number(number)) => {
            let _ = write!(page, " ({number} 0x{number:x})");
        }
        None => {}
    }
}

// A mask as `v4l2-ctl` prints it, by `%d`: one with the highest of its 32 bits is negative.
fn as_int(mask: i64) -> i64 {
    match u32::try_from(mask) {
        Ok(bits) => i64::from(bits.cast_signed()),
        Err(_) => mask,
    }
}

fn put_flag_words(page: &mut Page, kind: Kind, flags: Flags) {
    let bits = match kind {
        Kind::U8 => flags.bits() | HAS_PAYLOAD,
        _ => flags.bits(),
    };
    let mut is_behind = false;
    for &(bit, name) in FLAGS {
        if bits & bit != 0 {
            page.put(if is_behind { ", " } else { " flags=" });
            page.put(name);
            is_behind = true;
        }
    }
    page.put("\n");
}

// The items of a menu, each on a line.
fn put_items<D: Driver>(page: &mut Page, plan: &Plan<D>, control: u32, ctrl: &Ctrl) {
    for index in 0..64 {
        if let Some(item) = item_at(plan, control, ctrl, index) {
            put_item(page, index, item);
        }
    }
}

// The item of a menu at an index within its present range.
fn item_at<'a, D: Driver>(
    plan: &'a Plan<D>,
    control: u32,
    ctrl: &Ctrl,
    index: i64,
) -> Option<&'a MenuItem> {
    if index < ctrl.minimum() || ctrl.maximum() < index {
        return None;
    }
    item_of(plan, control, &CtrlValue::Number(index))
}

fn put_item(page: &mut Page, index: i64, item: &MenuItem) {
    page.put("\t\t\t\t");
    page.put_number(index);
    page.put(": ");
    match item {
        MenuItem::Name(name) => put_item_name(page, name.as_str()),
        MenuItem::Number(number) => {
            let _ = write!(page, "{number} (0x{number:x})");
        }
    }
    page.put("\n");
}

// The name of an item, which ends at a zero for a program.
fn put_item_name(page: &mut Page, name: &str) {
    let told = as_told(name.as_bytes());
    let name = match told.iter().position(|byte| *byte == 0) {
        Some(end) => told.get(..end).unwrap_or(told),
        None => told,
    };
    page.put_bytes(name);
}

// What each handler shows, and of that what isn't listed.
fn put_handlers<D: Driver>(
    page: &mut Page,
    alloc: Global,
    known: &ControlWords,
    device: &Device<D>,
) {
    let plan = device.plan();
    page.put("\n");
    for handler in 0..plan.handler_count() {
        let _ = write!(page, "handler {handler}: ");
        put_words(page, known, plan.shown(handler));
        page.put("\n");
        for control in plan.shown(handler) {
            if !is_listed(device, *control) {
                put_control(page, alloc, known, device, *control);
            }
        }
    }
}

// The members of each cluster, its manual value, and what it is held to and told.
fn put_clusters<D: Driver + Explained>(page: &mut Page, known: &ControlWords, plan: &Plan<D>) {
    page.put("\n");
    for cluster in 0..plan.cluster_count() {
        let _ = write!(page, "cluster {cluster}: ");
        put_words(page, known, plan.members(cluster));
        if let Some(manual) = plan.manual(cluster) {
            let _ = write!(page, "; auto, manual value {manual}");
        }
        put_limit(page, known, plan, cluster);
        put_told(page, known, plan, cluster);
        page.put("\n");
    }
}

// The values of arrays, as scripts write them.
fn put_arrays<D: Driver>(page: &mut Page, known: &ControlWords, device: &Device<D>) {
    let mut before = "\n";
    for control in 0..device.plan().control_count() {
        let value = value_of(device, control);
        if let CtrlValue::Bytes(_) = value {
            page.put(before);
            page.put("value of ");
            page.put(word_of(known, control));
            page.put(": ");
            page.put_value(&value);
            page.put("\n");
            before = "";
        }
    }
}
