//! A line of a script on the page, with what it came to.

use crate::answer::{Answered, Said};
use crate::follow::put_range_ask;
use crate::table::{put_below, put_table};
use crate::view::View;
use ctrl_calls::Driver;
use ctrl_types::{Fault, Refusal};
use device_state::{Ask, Device, Plan, Reply};
use following_ranges::RangeAsk;
use frame_reasons::ClusterReason;
use line_reasons::{Complaint, Names, reason_of as reason_of_line};
use script_replies::{Audited, Outcome, write_audit};
use std::alloc::Global;
use std::io::Write;
use view_layout::{Ink, Line, Page, put_command, put_skipped};
use view_words::{Asked, put_check, put_refusal, put_refused_cluster, put_reply};

/// Shows a line, and what it came to.
pub fn show_said<D: Driver, W: Write>(
    alloc: Global,
    device: &Device<D>,
    view: &mut View,
    line: Line<'_>,
    said: &Said,
    writer: &mut W,
) -> Result<(), Outcome> {
    let mut page = Page::new(alloc);
    match said {
        Said::Nothing => put_skipped(&mut page, line, view.ink),
        Said::Audit(audited) => put_audited(&mut page, alloc, view, line, *audited),
        Said::Answer(answered) => match answered.refusal {
            Some(refusal) => put_refused(
                &mut page,
                alloc,
                device,
                view,
                line,
                &answered.ask,
                refusal,
            ),
            None => put_done(&mut page, alloc, device, view, line, answered),
        },
    }
    write_page(writer, &page)
}

fn put_audited(page: &mut Page, alloc: Global, view: &mut View, line: Line<'_>, audited: Audited) {
    view.commands = view.commands.saturating_add(1);
    let mut said = Page::new(alloc);
    let _ = write_audit(&mut said, &mut view.line, audited);
    put_beside(page, line, &said, "", view.ink);
}

// Puts a command on a page with what was said to it.
fn put_beside(page: &mut Page, line: Line<'_>, said: &Page, colour: &str, ink: Ink) {
    page.needs(said);
    put_command(page, line, said.text(), colour, ink);
}

// Puts a command that was accepted on a page, and below it what it came to.
fn put_done<D: Driver>(
    page: &mut Page,
    alloc: Global,
    device: &Device<D>,
    view: &mut View,
    line: Line<'_>,
    answered: &Answered,
) {
    put_accepted(
        page,
        alloc,
        device,
        view,
        line,
        &answered.ask,
        &answered.answer,
    );
    if let Ask::Begin = answered.ask {
        put_left_out(
            page,
            alloc,
            device.plan(),
            view,
            answered.clusters.as_slice(),
        );
    }
    put_followed(page, alloc, view, answered.ranges.as_slice());
    put_queue(page, alloc, device, view, &answered.ask);
}

// Puts a command that was accepted on a page.
fn put_accepted<D: Driver>(
    page: &mut Page,
    alloc: Global,
    device: &Device<D>,
    view: &mut View,
    line: Line<'_>,
    ask: &Ask,
    answer: &Result<Reply, Fault>,
) {
    view.commands = view.commands.saturating_add(1);
    let mut said = Page::new(alloc);
    let asked = Asked {
        known: &view.known,
        device,
        line: line.text,
        ask,
    };
    put_reply(&mut said, &mut view.line, asked, answer);
    put_beside(page, line, &said, "", view.ink);
}

// The ranges that the device asked for by itself, below the line of what moved them.
fn put_followed(page: &mut Page, alloc: Global, view: &View, asked: &[RangeAsk]) {
    let mut text = Page::new(alloc);
    for one in asked {
        text.clear();
        put_range_ask(&mut text, &view.known, one);
        let colour = match one.refusal {
            Some(_) => view.ink.bad,
            None => view.ink.faint,
        };
        put_below(page, &text, colour, view.ink.plain);
    }
}

// The queue, where it is to be shown behind an ask that was accepted.
fn put_queue<D: Driver>(
    page: &mut Page,
    alloc: Global,
    device: &Device<D>,
    view: &mut View,
    ask: &Ask,
) {
    if view.shows_queue(device, ask) {
        view.shown_at = Some(device.steps().len());
        put_table(page, alloc, view, device);
    }
}

// Why the begin of a frame refused clusters, below its line.
fn put_left_out<D: Driver>(
    page: &mut Page,
    alloc: Global,
    plan: &Plan<D>,
    view: &View,
    refused: &[(u32, ClusterReason)],
) {
    let mut text = Page::new(alloc);
    for (cluster, reason) in refused {
        text.clear();
        put_refused_cluster(
            &mut text,
            &view.known,
            plan,
            " is refused: ",
            *cluster,
            *reason,
        );
        put_below(page, &text, view.ink.bad, view.ink.plain);
    }
}

// Puts a command that was refused on a page, and why.
fn put_refused<D: Driver>(
    page: &mut Page,
    alloc: Global,
    device: &Device<D>,
    view: &mut View,
    line: Line<'_>,
    ask: &Ask,
    refusal: Refusal,
) {
    view.commands = view.commands.saturating_add(1);
    view.refused = view.refused.saturating_add(1);
    let ink = view.ink;
    let mut said = Page::new(alloc);
    let asked = Asked {
        known: &view.known,
        device,
        line: line.text,
        ask,
    };
    put_refusal(&mut said, &mut view.line, asked, refusal);
    put_beside(page, line, &said, ink.bad, ink);
    said.clear();
    put_check(&mut said, asked, refusal);
    put_below(page, &said, ink.bad, ink.plain);
}

/// Shows a line that isn't a command, and why, as far as it is found out. The outcome is that of the script, which ends here.
pub fn show_stray<D: Driver, W: Write>(
    alloc: Global,
    plan: &Plan<D>,
    view: &View,
    line: Line<'_>,
    writer: &mut W,
) -> Outcome {
    let names = Names {
        known: &view.known,
        plan,
    };
    let Ok(complaint) = reason_of_line(alloc, &names, line.text) else {
        return Outcome::Memory;
    };
    let mut page = Page::new(alloc);
    put_stray(&mut page, alloc, view, line, complaint);
    match write_page(writer, &page) {
        Ok(()) => Outcome::BadLine(line.number),
        Err(outcome) => outcome,
    }
}

fn put_stray(
    page: &mut Page,
    alloc: Global,
    view: &View,
    line: Line<'_>,
    complaint: Option<Complaint<'_>>,
) {
    let ink = view.ink;
    put_skipped(
        page,
        line,
        Ink {
            faint: ink.bad,
            ..ink
        },
    );
    if let Some(Complaint { word, reason }) = complaint {
        let mut text = Page::new(alloc);
        let reason = reason.text(view.device);
        let _ = write!(text, "word {word}: {reason}");
        put_below(page, &text, ink.bad, ink.plain);
    }
}

/// Shows the queue where frames are queued and it wasn't shown since the last step, and how many commands there were.
pub fn show_end<D: Driver, W: Write>(
    alloc: Global,
    device: &Device<D>,
    view: &View,
    writer: &mut W,
) -> Outcome {
    let mut page = Page::new(alloc);
    put_end(&mut page, alloc, device, view);
    match write_page(writer, &page) {
        Ok(()) => Outcome::Finished,
        Err(outcome) => outcome,
    }
}

fn put_end<D: Driver>(page: &mut Page, alloc: Global, device: &Device<D>, view: &View) {
    let steps = device.steps().len();
    if device.queued_count() > 0 && view.shown_at != Some(steps) {
        put_table(page, alloc, view, device);
    }
    let commands = view.commands;
    let refused = view.refused;
    let _ = writeln!(
        page,
        "{commands} commands, {refused} refused; {steps} steps"
    );
}

// Writes what was put together. The error is that it isn't whole, or that the writer fails.
fn write_page<W: Write>(writer: &mut W, page: &Page) -> Result<(), Outcome> {
    if !page.is_whole() {
        return Err(Outcome::Memory);
    }
    match writer.write_all(page.text()) {
        Ok(()) => Ok(()),
        Err(_) => Err(Outcome::WriteFault),
    }
}
