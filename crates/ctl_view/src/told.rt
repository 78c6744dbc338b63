//! The replies alone, with reasons on standard error.

use crate::answer::{Answered, Said};
use crate::follow::put_range_ask;
use crate::view::View;
use crate::wanted::Task;
use ctrl_calls::Driver;
use device_state::{Ask, Device, Plan};
use following_ranges::RangeAsk;
use frame_reasons::ClusterReason;
use line_reasons::{Complaint, Names, reason_in_pair, reason_of as reason_of_line};
use script_replies::{Outcome, write_answer, write_audit};
use std::io::Write;
use view_layout::{Line, Page};
use view_words::{Asked, put_check, put_refusal, put_refused_cluster};

/// Prints the reply to a line as `run_script` does, but none where the device is to be listed, and says on standard error why it is a refusal, or why a frame
/// refuses clusters.
pub fn explain<D: Driver, R: AllocGlobal + Eprint, W: Write>(
    rt: &R,
    device: &Device<D>,
    view: &mut View,
    line: Line<'_>,
    said: &Said,
    writer: &mut W,
) -> Result<(), Outcome> {
    let written = match said {
        _ if view.task != Task::Why => Ok(()),
        Said::Nothing => Ok(()),
        Said::Audit(audited) => write_audit(writer, &mut view.line, *audited),
        Said::Answer(answered) => {
            write_answer(writer, &mut view.line, &answered.ask, &answered.answer)
        }
    };
    if written.is_err() {
        return Err(Outcome::WriteFault);
    }
    if let Said::Answer(answered) = said {
        tell_answered(rt, device, view, line, answered);
    }
    Ok(())
}

// Says which ranges the device asked for by itself, why clusters are refused, or why the command is.
fn tell_answered<D: Driver, R: AllocGlobal + Eprint>(
    rt: &R,
    device: &Device<D>,
    view: &mut View,
    line: Line<'_>,
    answered: &Answered,
) {
    tell_followed(rt, view, line.number, answered.ranges.as_slice());
    // a board tells of no refusals
    if view.task == Task::Board {
        return;
    }
    let Some(refusal) = answered.refusal else {
        tell_clusters(
            rt,
            device.plan(),
            view,
            line.number,
            &answered.ask,
            answered.clusters.as_slice(),
        );
        return;
    };
    let mut text = Page::new(rt.alloc());
    let asked = Asked {
        known: &view.known,
        device,
        line: line.text,
        ask: &answered.ask,
    };
    put_refusal(&mut text, &mut view.line, asked, refusal);
    text.put(": ");
    put_check(&mut text, asked, refusal);
    // nothing else depends on it, so the script goes on where memory is wanting
    if text.is_whole() {
        tell(rt, line.number, text.text());
    } else {
        tell(rt, line.number, b"no memory to find out why");
    }
}

// Says which ranges the device asked for by itself, a line for each.
fn tell_followed<R: AllocGlobal + Eprint>(rt: &R, view: &View, number: u32, asked: &[RangeAsk]) {
    let mut text = Page::new(rt.alloc());
    for one in asked {
        text.clear();
        put_range_ask(&mut text, &view.known, one);
        if text.is_whole() {
            tell(rt, number, text.text());
        } else {
            tell(
                rt,
                number,
                b"no memory to say which range the device asked for",
            );
        }
    }
}

// Says why a frame refuses clusters, a line for each: one that was begun, or that is foretold.
fn tell_clusters<D: Driver, R: AllocGlobal + Eprint>(
    rt: &R,
    plan: &Plan<D>,
    view: &View,
    number: u32,
    ask: &Ask,
    refused: &[(u32, ClusterReason)],
) {
    let mut text = Page::new(rt.alloc());
    for (cluster, reason) in refused {
        text.clear();
        let becomes = match ask {
            Ask::Forecast { place } => {
                let _ = write!(text, "frame {place}: ");
                " will be refused: "
            }
            _ => " is refused: ",
        };
        put_refused_cluster(&mut text, &view.known, plan, becomes, *cluster, *reason);
        if text.is_whole() {
            tell(rt, number, text.text());
        } else {
            tell(rt, number, b"no memory to find out why");
        }
    }
}

// Says something of a line on standard error.
fn tell<R: Eprint>(rt: &R, number: u32, text: &[u8]) {
    if let Ok(text) = str::from_utf8(text) {
        let _ = eprintln!(rt; "line {number}: {text}");
    }
}

/// Says on standard error why a line isn't a command, as far as there is memory to find it out. The outcome is that of the script, which ends here.
pub fn explain_stray<D: Driver, R: AllocGlobal + Eprint>(
    rt: &R,
    plan: &Plan<D>,
    view: &View,
    line: Line<'_>,
) -> Outcome {
    let names = Names {
        known: &view.known,
        plan,
    };
    let found = if view.task == Task::Pair {
        reason_in_pair(rt.alloc(), &names, line.text)
    } else {
        reason_of_line(rt.alloc(), &names, line.text)
    };
    if let Ok(Some(Complaint { word, reason })) = found {
        let reason = reason.text(view.device);
        let _ = eprintln!(rt; "line {}, word {word}: {reason}", line.number);
    }
    Outcome::BadLine(line.number)
}
