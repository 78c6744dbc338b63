//! What the queued frames will have, as a table.

use crate::follow::is_behind_a_move;
use crate::frame::{cell_at, frame_at, put_buffer, put_in_frame, put_now, stays, widest};
use crate::view::View;
use ctl_script::ControlWords;
use ctrl_calls::Driver;
use device_state::Device;
use frame_reasons::frame_reason;
use range_followers::Follower;
use std::alloc::Global;
use std::io::Write;
use view_layout::{
    Cell, INDENT, Ink, Mark, Page, WIDTH, put_folded, put_look, put_missed, put_spaces,
};
use view_words::{put_refused_cluster, word_of};

// How wide the columns are at least: those of the names of controls, of their present values, and of a frame.
const WIDTHS: Widths = Widths {
    names: 12,
    now: 8,
    frame: 12,
};

// How wide the column of names is at most.
const LONGEST: usize = 40;

// How wide the columns are.
#[derive(Clone, Copy)]
struct Widths {
    names: usize,
    now: usize,
    frame: usize,
}

// The frames that stand beside each other.
#[derive(Clone, Copy)]
struct Block {
    first: usize,
    end: usize,
    widths: Widths,
}

/// Puts on a page what the queued frames will have: a row for each control that one of them changes, or asks for in vain, a column for each frame, in blocks
/// of as many frames as a line has room for; which clusters will be refused, and why; and which frames may have another range than is foretold. Where none is queued,
/// it says so.
pub fn put_table<D: Driver>(page: &mut Page, alloc: Global, view: &View, device: &Device<D>) {
    let (known, ink) = (&view.known, view.ink);
    let followers = view.followers.as_slice();
    let count = device.queued_count();
    if count == 0 {
        put_spaces(page, INDENT);
        page.put("no frames are queued\n\n");
        return;
    }
    let widths = widths_of(alloc, known, device);
    let left = INDENT
        .saturating_add(widths.names)
        .saturating_add(widths.now);
    let room = WIDTH.saturating_sub(left) / widths.frame.max(1);
    let room = room.max(1);
    for number in 0..count.div_ceil(room) {
        let first = number.saturating_mul(room);
        let end = first.saturating_add(room).min(count);
        let block = Block { first, end, widths };
        put_heads(page, alloc, device, followers, block);
        put_rows(page, alloc, known, device, block, ink);
    }
    put_refusals(page, alloc, known, device, ink);
    if is_behind_a_move(device, followers, count - 1) {
        put_spaces(page, INDENT);
        page.put(ink.faint);
        page.put(
            "? behind a frame that moves what a range follows: it may have another range by then",
        );
        page.put(ink.plain);
        page.put("\n");
    }
    put_legend(page, device, ink);
}

// How wide the columns are that the rows need.
fn widths_of<D: Driver>(alloc: Global, known: &ControlWords, device: &Device<D>) -> Widths {
    let mut widths = WIDTHS;
    let mut text = Page::new(alloc);
    for control in 0..device.plan().control_count() {
        if stays(device, control) {
            continue;
        }
        let name = word_of(known, control).len().saturating_add(2);
        widths.names = widths.names.max(name.min(LONGEST));
        text.clear();
        put_now(&mut text, device, control);
        widths.now = widths.now.max(text.text().len());
    }
    widths.frame = widths.frame.max(widest(alloc, device).saturating_add(2));
    widths
}

// The two lines above a block: the numbers of its frames, with a mark where a range may have followed by then, and their buffers.
fn put_heads<D: Driver>(
    page: &mut Page,
    alloc: Global,
    device: &Device<D>,
    followers: &[Follower],
    block: Block,
) {
    let mut text = Page::new(alloc);
    let Widths { names, now, frame } = block.widths;
    page.put("\n");
    put_spaces(page, INDENT);
    put_left(page, "the queue", names);
    text.put("now");
    put_right(page, &text, now, "", "");
    for place in block.first..block.end {
        text.clear();
        let mark = if is_behind_a_move(device, followers, place) {
            "?"
        } else {
            ""
        };
        let _ = write!(text, "frame {place}{mark}");
        put_right(page, &text, frame, "", "");
    }
    page.put("\n");
    put_spaces(page, INDENT.saturating_add(names).saturating_add(now));
    for place in block.first..block.end {
        text.clear();
        put_buffer(&mut text, frame_at(device, place));
        put_right(page, &text, frame, "", "");
    }
    page.put("\n");
}

// The rows of a block, of the controls that don't stay.
fn put_rows<D: Driver>(
    page: &mut Page,
    alloc: Global,
    known: &ControlWords,
    device: &Device<D>,
    block: Block,
    ink: Ink,
) {
    let mut text = Page::new(alloc);
    for control in 0..device.plan().control_count() {
        if stays(device, control) {
            continue;
        }
        put_spaces(page, INDENT);
        put_left(page, word_of(known, control), block.widths.names);
        text.clear();
        put_now(&mut text, device, control);
        put_right(page, &text, block.widths.now, "", "");
        for place in block.first..block.end {
            let cell = cell_at(device.plan(), frame_at(device, place), control);
            text.clear();
            // the column before the first one stands in the block before, so that "as before" would be read as the value of now
            if place == block.first && place > 0 && cell.mark() == Mark::Stays {
                put_look(&mut text, &cell.behind);
                put_missed(&mut text, &cell);
            } else {
                put_in_frame(&mut text, device.plan(), control, &cell);
            }
            put_right(
                page,
                &text,
                block.widths.frame,
                colour_of(&cell, ink),
                ink.plain,
            );
        }
        page.put("\n");
    }
}

// Puts a text at the left end of a column, and a space behind it where it has no room for one.
fn put_left(page: &mut Page, text: &str, width: usize) {
    page.put(text);
    put_spaces(page, width.saturating_sub(text.len()).max(1));
}

fn colour_of(cell: &Cell, ink: Ink) -> &'static str {
    match cell.mark() {
        Mark::Stays => ink.faint,
        Mark::Changes => ink.good,
        Mark::Refused => ink.bad,
    }
}

// Puts a text at the right end of a column.
fn put_right(page: &mut Page, text: &Page, width: usize, before: &str, behind: &str) {
    page.needs(text);
    let text = text.text();
    put_spaces(page, width.saturating_sub(text.len()));
    page.put(before);
    page.put_bytes(text);
    page.put(behind);
}

// Which clusters will be refused, and why.
fn put_refusals<D: Driver>(
    page: &mut Page,
    alloc: Global,
    known: &ControlWords,
    device: &Device<D>,
    ink: Ink,
) {
    let mut text = Page::new(alloc);
    for place in 0..device.queued_count() {
        for cluster in frame_at(device, place).refused {
            if let Some(reason) = frame_reason(device, place, *cluster) {
                text.clear();
                let _ = write!(text, "frame {place}: ");
                put_refused_cluster(
                    &mut text,
                    known,
                    device.plan(),
                    " will be refused: ",
                    *cluster,
                    reason,
                );
                put_below(page, &text, ink.bad, ink.plain);
            }
        }
    }
}

/// Puts a text on a page below a command, folded.
pub fn put_below(page: &mut Page, text: &Page, before: &str, behind: &str) {
    page.needs(text);
    put_spaces(page, INDENT);
    put_folded(page, INDENT, text.text(), before, behind);
}

// What the marks mean, and how many controls have no row.
fn put_legend<D: Driver>(page: &mut Page, device: &Device<D>, ink: Ink) {
    let mut staying = 0u32;
    for control in 0..device.plan().control_count() {
        if stays(device, control) {
            staying = staying.saturating_add(1);
        }
    }
    put_spaces(page, INDENT);
    page.put(ink.faint);
    page.put("* changes   ! asked, and refused   ~ INACTIVE   . as before; ");
    page.put_number(i64::from(staying));
    page.put(" other controls stay");
    page.put(ink.plain);
    page.put("\n\n");
}
