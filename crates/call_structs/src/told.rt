ghost use Rattle.std.specs.Prelude.{◌≡◌, length};
ghost use Rattle.call_structs.specs.Told.{event_told, flags_told, tells_bounds, is_heading, query_ext_ctrl, query_ext_ctrl_named, queryctrl, queryctrl_named, querymenu, size_of, step_told, type_told, bounds_put, with_bounds_told, with_change, with_dimension, with_event_bounds, with_event_bounds_told, value_put, with_wide_bounds, with_wide_bounds_told};
ghost use Rattle.ioctl_bytes.specs.declared.layout.v4l2_queryctrl.TheConstants as query;
ghost use Rattle.ioctl_bytes.specs.declared.layout.v4l2_query_ext_ctrl.TheConstants as ext;
ghost use Rattle.ioctl_bytes.specs.declared.layout.v4l2_querymenu.TheConstants as menu;
ghost use Rattle.ioctl_bytes.specs.declared.layout.v4l2_event.TheConstants as event_struct;

use bitflags::Flags as FlagSet;
use ctrl_events::Event;
use ctrl_types::{CtrlId, Flags, Kind};
use device_history::CtrlInfo;
use ioctl_bytes::calls::{V4L2_CTRL_FLAG_HAS_PAYLOAD, V4L2_CTRL_TYPE_CTRL_CLASS, V4L2_EVENT_CTRL};
use ioctl_bytes::layout::{
    v4l2_event, v4l2_event_ctrl, v4l2_query_ext_ctrl, v4l2_queryctrl, v4l2_querymenu,
};
use ioctl_bytes::{clear, put, put_i64, put_low, put_name, put_u32, put_u64};
use menu_items::MenuItem;

/// Whether a control is the heading of a class: it has the class's first id, and can be neither read nor written.
pub fn is_heading(id: CtrlId, flags: Flags) -> bool
    ensures { result ≡ is_heading id flags }
{
    id.0 % 0x1_0000 == 1 && flags.contains(Flags::READ_ONLY) && flags.contains(Flags::WRITE_ONLY)
}

fn type_told(id: CtrlId, flags: Flags, kind: Kind) -> u32
    ensures { result ≡ type_told id flags kind }
{
    if is_heading(id, flags) {
        V4L2_CTRL_TYPE_CTRL_CLASS
    } else {
        kind.number()
    }
}

fn flags_told(kind: Kind, flags: Flags) -> u32
    ensures { result ≡ flags_told kind flags }
{
    match kind {
        Kind::U8 => flags.bits() | V4L2_CTRL_FLAG_HAS_PAYLOAD,
        _ => flags.bits(),
    }
}

fn size_of(kind: Kind) -> u32
    ensures { result ≡ size_of kind }
{
    match kind {
        Kind::Integer64 => 8,
        Kind::U8 => 1,
        _ => 4,
    }
}

fn has_bounds(kind: Kind) -> bool
    ensures { result ≡ tells_bounds kind }
{
    match kind {
        Kind::Integer64 | Kind::U8 => false,
        _ => true,
    }
}

fn step_told(step: u64) -> i64
    ensures { result ≡ step_told step }
{
    step.cast_signed()
}

/// Writes what is told of a control over a `struct v4l2_queryctrl`.
///
/// - `bytes`: the struct, of 68 bytes.
/// - `info`: the control.
/// - `name`: its name, of which 31 bytes are told at most.
pub fn put_query(bytes: &mut [u8], info: &CtrlInfo, name: &[u8])
    requires { length bytes.old ≡ query.SIZE }
    ensures told { bytes.new ≡ queryctrl info.now name.now }
    ensures length { length bytes.new ≡ query.SIZE }
{
    put_query_named(bytes, info, name);
    put_bounds_told(bytes, info);
}

fn put_query_named(bytes: &mut [u8], info: &CtrlInfo, name: &[u8])
    requires { length bytes.old ≡ query.SIZE }
    ensures told { bytes.new ≡ queryctrl_named info.now name.now }
    ensures length { length bytes.new ≡ query.SIZE }
{
    clear(bytes);
    put_u32(bytes, v4l2_queryctrl::ID, info.id.0);
    put_u32(
        bytes,
        v4l2_queryctrl::TYPE,
        type_told(info.id, info.flags, info.kind),
    );
    put_name(bytes, v4l2_queryctrl::NAME, name);
    put_u32(
        bytes,
        v4l2_queryctrl::FLAGS,
        flags_told(info.kind, info.flags),
    );
}

fn put_bounds_told(bytes: &mut [u8], info: &CtrlInfo)
    requires { length bytes.old ≡ query.SIZE }
    ensures told { bytes.new ≡ with_bounds_told info.now bytes.old }
    ensures length { length bytes.new ≡ query.SIZE }
{
    if has_bounds(info.kind) && !is_heading(info.id, info.flags) {
        put_bounds(bytes, info);
    }
}

fn put_bounds(bytes: &mut [u8], info: &CtrlInfo)
    requires { length bytes.old ≡ query.SIZE }
    ensures told { bytes.new ≡ bounds_put info.now bytes.old }
    ensures length { length bytes.new ≡ query.SIZE }
{
    put_low(bytes, v4l2_queryctrl::MINIMUM, info.minimum);
    put_low(bytes, v4l2_queryctrl::MAXIMUM, info.maximum);
    put_low(bytes, v4l2_queryctrl::STEP, step_told(info.step));
    put_low(bytes, v4l2_queryctrl::DEFAULT_VALUE, info.default_value);
}

/// Writes what is told of a control over a `struct v4l2_query_ext_ctrl`, as `put_query`; it has 232 bytes.
pub fn put_query_ext(bytes: &mut [u8], info: &CtrlInfo, name: &[u8])
    requires { length bytes.old ≡ ext.SIZE }
    ensures told { bytes.new ≡ query_ext_ctrl info.now name.now }
    ensures length { length bytes.new ≡ ext.SIZE }
{
    put_query_ext_named(bytes, info, name);
    put_wide_bounds_told(bytes, info);
    put_dimension(bytes, info.kind, info.elems);
}

fn put_query_ext_named(bytes: &mut [u8], info: &CtrlInfo, name: &[u8])
    requires { length bytes.old ≡ ext.SIZE }
    ensures told { bytes.new ≡ query_ext_ctrl_named info.now name.now }
    ensures length { length bytes.new ≡ ext.SIZE }
{
    clear(bytes);
    put_u32(bytes, v4l2_query_ext_ctrl::ID, info.id.0);
    put_u32(
        bytes,
        v4l2_query_ext_ctrl::TYPE,
        type_told(info.id, info.flags, info.kind),
    );
    put_name(bytes, v4l2_query_ext_ctrl::NAME, name);
    put_u32(
        bytes,
        v4l2_query_ext_ctrl::FLAGS,
        flags_told(info.kind, info.flags),
    );
    put_u32(bytes, v4l2_query_ext_ctrl::ELEM_SIZE, size_of(info.kind));
    put_u32(bytes, v4l2_query_ext_ctrl::ELEMS, info.elems);
}

fn put_wide_bounds_told(bytes: &mut [u8], info: &CtrlInfo)
    requires { length bytes.old ≡ ext.SIZE }
    ensures told { bytes.new ≡ with_wide_bounds_told info.now bytes.old }
    ensures length { length bytes.new ≡ ext.SIZE }
{
    if !is_heading(info.id, info.flags) {
        put_wide_bounds(bytes, info);
    }
}

fn put_wide_bounds(bytes: &mut [u8], info: &CtrlInfo)
    requires { length bytes.old ≡ ext.SIZE }
    ensures told { bytes.new ≡ with_wide_bounds info.now bytes.old }
    ensures length { length bytes.new ≡ ext.SIZE }
{
    put_i64(bytes, v4l2_query_ext_ctrl::MINIMUM, info.minimum);
    put_i64(bytes, v4l2_query_ext_ctrl::MAXIMUM, info.maximum);
    put_u64(bytes, v4l2_query_ext_ctrl::STEP, info.step);
    put_i64(
        bytes,
        v4l2_query_ext_ctrl::DEFAULT_VALUE,
        info.default_value,
    );
}

fn put_dimension(bytes: &mut [u8], kind: Kind, elems: u32)
    requires { length bytes.old ≡ ext.SIZE }
    ensures told { bytes.new ≡ with_dimension kind elems bytes.old }
    ensures length { length bytes.new ≡ ext.SIZE }
{
    match kind {
        Kind::U8 => {
            put_u32(bytes, v4l2_query_ext_ctrl::NR_OF_DIMS, 1);
            put_u32(bytes, v4l2_query_ext_ctrl::DIMS, elems);
        }
        _ => {}
    }
}

/// Writes an item of a menu into a `struct v4l2_querymenu` of 44 bytes, whose id and index stay.
pub fn put_item(bytes: &mut [u8], item: &MenuItem)
    requires { length bytes.old ≡ menu.SIZE }
    ensures told { bytes.new ≡ querymenu item.now bytes.old }
    ensures length { length bytes.new ≡ menu.SIZE }
{
    put(bytes, v4l2_querymenu::NAME, &[0; 36]);
    match item {
        MenuItem::Name(name) => put_name(bytes, v4l2_querymenu::NAME, name.as_str().as_bytes()),
        MenuItem::Number(number) => put_i64(bytes, v4l2_querymenu::VALUE, *number),
    }
}

/// Writes an event over a `struct v4l2_event` of 136 bytes, but for its time, which stays 0.
pub fn put_event(bytes: &mut [u8], event: &Event)
    requires { length bytes.old ≡ event_struct.SIZE }
    ensures told { bytes.new ≡ event_told event.now }
    ensures length { length bytes.new ≡ event_struct.SIZE }
{
    clear(bytes);
    put_u32(bytes, v4l2_event::TYPE, V4L2_EVENT_CTRL);
    put_change(bytes, event);
    put_u32(bytes, v4l2_event::PENDING, event.pending);
    put_u32(bytes, v4l2_event::SEQUENCE, event.sequence);
    put_u32(bytes, v4l2_event::ID, event.id.0);
}

fn put_change(bytes: &mut [u8], event: &Event)
    requires { length bytes.old ≡ event_struct.SIZE }
    ensures told { bytes.new ≡ with_change event.now bytes.old }
    ensures length { length bytes.new ≡ event_struct.SIZE }
{
    put_u32(
        bytes,
        v4l2_event::U + v4l2_event_ctrl::CHANGES,
        event.changes.bits(),
    );
    put_u32(
        bytes,
        v4l2_event::U + v4l2_event_ctrl::TYPE,
        type_told(event.id, event.flags, event.kind),
    );
    put_event_value(bytes, event.kind, event.value);
    put_u32(
        bytes,
        v4l2_event::U + v4l2_event_ctrl::FLAGS,
        flags_told(event.kind, event.flags),
    );
    put_event_bounds_told(bytes, event);
}

fn put_event_bounds_told(bytes: &mut [u8], event: &Event)
    requires { length bytes.old ≡ event_struct.SIZE }
    ensures told { bytes.new ≡ with_event_bounds_told event.now bytes.old }
    ensures length { length bytes.new ≡ event_struct.SIZE }
{
    if !is_heading(event.id, event.flags) {
        put_event_bounds(bytes, event);
    }
}

fn put_event_bounds(bytes: &mut [u8], event: &Event)
    requires { length bytes.old ≡ event_struct.SIZE }
    ensures told { bytes.new ≡ with_event_bounds event.now bytes.old }
    ensures length { length bytes.new ≡ event_struct.SIZE }
{
    put_low(
        bytes,
        v4l2_event::U + v4l2_event_ctrl::MINIMUM,
        event.minimum,
    );
    put_low(
        bytes,
        v4l2_event::U + v4l2_event_ctrl::MAXIMUM,
        event.maximum,
    );
    put_low(
        bytes,
        v4l2_event::U + v4l2_event_ctrl::STEP,
        step_told(event.step),
    );
    put_low(
        bytes,
        v4l2_event::U + v4l2_event_ctrl::DEFAULT_VALUE,
        event.default_value,
    );
}

fn put_event_value(bytes: &mut [u8], kind: Kind, value: i64)
    requires { length bytes.old ≡ event_struct.SIZE }
    ensures told { bytes.new ≡ value_put kind value bytes.old }
    ensures length { length bytes.new ≡ event_struct.SIZE }
{
    match kind {
        Kind::Integer64 => put_i64(bytes, v4l2_event::U + v4l2_event_ctrl::VALUE64, value),
        _ => put_low(bytes, v4l2_event::U + v4l2_event_ctrl::VALUE, value),
    }
}
