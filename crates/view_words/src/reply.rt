//! What a command was answered, in words.

use crate::asked::Asked;
use crate::items::put_item;
use crate::words::{kind_name, put_cluster, put_flags};
use bitflags::Flags as FlagSet;
use ctrl_calls::Driver;
use ctrl_events::Event;
use ctrl_types::{Changes, CtrlId, CtrlValue, ExtControl, Fault, Flags, Kind};
use device_state::{Ask, CtrlInfo, Reply};
use script_replies::{ReplyLine, write_answer};
use std::io::Write;
use view_layout::{Page, put_wanted};

/// Puts on a page what an accepted ask was answered: its reply line, with the names of controls, items and flags. A line feed may stand at its end.
///
/// - `line`: where a reply line is put together.
pub fn put_reply<D: Driver>(
    page: &mut Page,
    line: &mut ReplyLine,
    asked: Asked<'_, D>,
    answer: &Result<Reply, Fault>,
) {
    match answer {
        Ok(Reply::Controls(list)) => put_controls(page, asked, list.as_slice()),
        Ok(Reply::Forecast(_)) => page.put("ok, in the table"),
        Ok(
            Reply::Frame {
                buffer,
                refused,
                ..
            },
        ) => put_frame(page, asked, *buffer, refused.as_slice()),
        Ok(Reply::Event(event)) => put_event(page, asked, *event),
        Ok(Reply::Info(info)) => put_info(page, asked, *info),
        Ok(Reply::Id(id)) => {
            page.put("ok ");
            asked.put_name(page, *id, 0);
        }
        _ => {
            let _ = write_answer(page, line, asked.ask, answer);
        }
    }
}

/// The entries of a list that writes; none of any other ask.
pub fn wanted_by(ask: &Ask) -> &[ExtControl] {
    match ask {
        Ask::SetCtrls { list, .. } | Ask::TryCtrls { list, .. } => list.as_slice(),
        _ => &[],
    }
}

// The values of a list under their names, and what was asked for where another value came of it.
fn put_controls<D: Driver>(page: &mut Page, asked: Asked<'_, D>, list: &[ExtControl]) {
    let wanted = wanted_by(asked.ask);
    page.put("ok");
    for (place, entry) in list.iter().enumerate() {
        page.put(" ");
        asked.put_name(page, entry.id, place);
        page.put("=");
        put_value(page, asked, entry.id, &entry.value);
        if let Some(asked) = wanted.get(place) {
            put_wanted(page, &entry.value, &asked.value);
        }
    }
}

// The value of a control, and of a menu its item.
fn put_value<D: Driver>(page: &mut Page, asked: Asked<'_, D>, id: CtrlId, value: &CtrlValue) {
    page.put_value(value);
    if let Some(control) = asked.control(id) {
        put_item(page, asked.device.plan(), control, value);
    }
}

// A frame that was begun, and the clusters that keep their values.
fn put_frame<D: Driver>(page: &mut Page, asked: Asked<'_, D>, buffer: u32, refused: &[u32]) {
    page.put("ok buffer ");
    page.put_number(i64::from(buffer));
    for cluster in refused {
        page.put(", refused ");
        put_cluster(page, asked.known, asked.device.plan(), *cluster);
    }
}

// An event that was taken; of one that tells of a range, the range.
fn put_event<D: Driver>(page: &mut Page, asked: Asked<'_, D>, event: Event) {
    page.put("event ");
    asked.put_name(page, event.id, 0);
    page.put("=");
    let value = CtrlValue::Number(event.value);
    if event.flags.contains(Flags::WRITE_ONLY) {
        // it can't be read, so this is no index
        page.put_value(&value);
    } else {
        put_value(page, asked, event.id, &value);
    }
    put_changes(page, event.changes);
    if event.changes.contains(Changes::CH_RANGE) {
        let Event {
            minimum,
            maximum,
            step,
            default_value,
            ..
        } = event;
        page.put(" ");
        put_range(page, minimum, maximum, step);
        put_value(page, asked, event.id, &CtrlValue::Number(default_value));
    }
    put_flags(page, event.flags);
    page.put(" sequence ");
    page.put_number(i64::from(event.sequence));
    page.put(" pending ");
    page.put_number(i64::from(event.pending));
}

fn put_changes(page: &mut Page, changes: Changes) {
    page.put(" changes");
    if changes.contains(Changes::CH_VALUE) {
        page.put(" CH_VALUE");
    }
    if changes.contains(Changes::CH_FLAGS) {
        page.put(" CH_FLAGS");
    }
    if changes.contains(Changes::CH_RANGE) {
        page.put(" CH_RANGE");
    }
}

// The bounds and the step of a range; its default belongs behind it.
fn put_range(page: &mut Page, minimum: i64, maximum: i64, step: u64) {
    let _ = write!(page, "{minimum}..{maximum} step {step} default ");
}

// What a control is like.
fn put_info<D: Driver>(page: &mut Page, asked: Asked<'_, D>, info: CtrlInfo) {
    let CtrlInfo {
        minimum,
        maximum,
        step,
        default_value,
        ..
    } = info;
    page.put("ok ");
    asked.put_name(page, info.id, 0);
    page.put(" ");
    page.put(kind_name(info.kind));
    page.put(" ");
    put_range(page, minimum, maximum, step);
    put_value(page, asked, info.id, &CtrlValue::Number(default_value));
    put_flags(page, info.flags);
    if info.kind == Kind::U8 {
        page.put(" elems ");
        page.put_number(i64::from(info.elems));
    }
}
