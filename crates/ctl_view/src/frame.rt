//! The queued frames, as the table shows them.

ghost use Rattle.std.specs.Prelude.{◌<◌, length};

use ctrl_calls::Driver;
use ctrl_clusters::inactive;
use ctrl_types::{CtrlValue, Pair, last_value};
use device_state::{Device, Plan};
use std::alloc::Global;
use view_layout::{Cell, Look, Mark, Page, put_cell, put_look};
use view_words::put_item;

/// A queued frame.
#[derive(Clone, Copy)]
pub struct Frame<'a> {
    /// The clusters that will be refused.
    pub refused: &'a [u32],
    // the number of its buffer
    buffer: u32,
    /// The values before it.
    pub before: &'a [CtrlValue],
    /// The values that it will have.
    pub behind: &'a [CtrlValue],
    // what its request asks for
    asked: &'a [Pair],
}

/// The queued frame at a place; where none is queued there, one that changes nothing.
pub fn frame_at<D: Driver>(device: &Device<D>, place: usize) -> Frame<'_> {
    let before = match place.checked_sub(1) {
        Some(last) => match device.row(last) {
            Some(row) => row.values,
            None => device.values(),
        },
        None => device.values(),
    };
    let asked: &[Pair] = match device.queued(place) {
        Some(request) => device.asked(request).unwrap_or(&[]),
        None => &[],
    };
    match device.row(place) {
        Some(row) => Frame {
            buffer: row.buffer,
            before,
            behind: row.values,
            asked,
            refused: row.refused,
        },
        None => Frame {
            buffer: 0,
            before,
            behind: before,
            asked,
            refused: &[],
        },
    }
}

/// What a control is under values.
pub fn look_at<D: Driver>(plan: &Plan<D>, values: &[CtrlValue], control: u32) -> Look
    requires { control < length plan.now.controls }
{
    let is_whole = values.len() == plan.control_count() as usize;
    Look {
        value: values
            .get(control as usize)
            .copied()
            .unwrap_or(CtrlValue::Number(0)),
        is_inactive: is_whole && inactive(plan, values, control),
    }
}

/// What the table has of a control in a frame.
pub fn cell_at<D: Driver>(plan: &Plan<D>, frame: Frame<'_>, control: u32) -> Cell
    requires { control < length plan.now.controls }
{
    Cell {
        before: look_at(plan, frame.before, control),
        behind: look_at(plan, frame.behind, control),
        asked: last_value(frame.asked, control),
        is_refused: frame.refused.contains(&plan.cluster_of(control)),
    }
}

/// Whether a control is in each queued frame what it is now, and nothing is asked of it in vain.
pub fn stays<D: Driver>(device: &Device<D>, control: u32) -> bool
    requires { control < length device.now.plan.controls }
{
    for place in 0..device.queued_count() {
        if !cell_at(device.plan(), frame_at(device, place), control).is_still() {
            return false;
        }
    }
    true
}

/// How many bytes the longest text in a frame's column has, as far as there is memory to put it together.
pub fn widest<D: Driver>(alloc: Global, device: &Device<D>) -> usize {
    let mut widest = 0;
    for place in 0..device.queued_count() {
        widest = widest.max(widest_of(alloc, device.plan(), frame_at(device, place)));
    }
    widest
}

fn widest_of<D: Driver>(alloc: Global, plan: &Plan<D>, frame: Frame<'_>) -> usize {
    let mut page = Page::new(alloc);
    put_buffer(&mut page, frame);
    let mut widest = page.text().len();
    for control in 0..plan.control_count() {
        page.clear();
        put_in_frame(&mut page, plan, control, &cell_at(plan, frame, control));
        widest = widest.max(page.text().len());
    }
    widest
}

/// Puts on a page what a control is now, and of a menu the item.
pub fn put_now<D: Driver>(page: &mut Page, device: &Device<D>, control: u32)
    requires { control < length device.now.plan.controls }
{
    let look = look_at(device.plan(), device.values(), control);
    put_look(page, &look);
    put_item(page, device.plan(), control, &look.value);
}

/// Puts on a page what the table says of a control in a frame, and of a menu the item, where the value is the one that was asked for.
pub fn put_in_frame<D: Driver>(page: &mut Page, plan: &Plan<D>, control: u32, cell: &Cell) {
    put_cell(page, cell);
    match (cell.mark(), &cell.asked) {
        (Mark::Refused, Some(asked)) => put_item(page, plan, control, asked),
        (Mark::Changes, Some(asked)) if !asked.is_same(&cell.behind.value) => {}
        (Mark::Changes, _) => put_item(page, plan, control, &cell.behind.value),
        _ => {}
    }
}

/// Puts the buffer of a frame on a page.
pub fn put_buffer(page: &mut Page, frame: Frame<'_>) {
    page.put("buffer ");
    page.put_number(i64::from(frame.buffer));
}
