//! The lines of a script in order, each shown as it is answered.

ghost use Rattle.std.specs.Prelude.{◌≤◌, length, IfSome};
ghost use Rattle.history_audit.specs.Replay.{IsProgressOf};

use crate::answer::answer_line;
use crate::shown::{show_end, show_said, show_stray};
use crate::told::{explain, explain_stray};
use crate::view::View;
use ctl_script::first_line;
use ctrl_calls::Driver;
use device_state::{Device, Progress};
use script_lines::LineFault;
use script_replies::Outcome;
use std::io::Write;
use view_layout::Line;

/// Asks what a script says, line by line, and shows it, each line before the next is asked. The outcome is that of `run_script` of `ctl_script`.
///
/// - `rt`: gives memory, and takes what is said on standard error.
/// - `writer`: is given what is said of each line at once.
pub fn show_script<D: Driver, R: AllocGlobal + Eprint, W: Write>(
    rt: &R,
    device: &mut Device<D>,
    view: &mut View,
    text: &[u8],
    writer: &mut W,
) -> Outcome
    requires { length text.now ≤ 1048576 }
{
    let mut made = None;
    let mut number = 0;
    let mut rest = Some(text);
    while let Some(text) = rest {
        let (line, more) = first_line(text);
        number += 1;
        let line = Line { number, text: line };
        match show_line(rt, device, view, &mut made, line, writer) {
            Ok(()) => rest = more,
            Err(outcome) => return outcome,
        }
    }
    if view.is_told() {
        return Outcome::Finished;
    }
    show_end(rt.alloc(), device, view, writer)
}

// Asks what a line says, while this was put aside by the last audit, and shows it. The error is how the script ends here.
fn show_line<D: Driver, R: AllocGlobal + Eprint, W: Write>(
    rt: &R,
    device: &mut Device<D>,
    view: &mut View,
    made: &mut Option<Progress>,
    line: Line<'_>,
    writer: &mut W,
) -> Result<(), Outcome>
    requires within { length line.text.now ≤ 1048576 }
    requires made { IfSome made.old (IsProgressOf D.verdict device.old.plan device.old.steps) }
    ensures made { IfSome made.new (IsProgressOf D.verdict device.new.plan device.new.steps) }
{
    match answer_line(rt.alloc(), view, device, made, line.text) {
        Ok(said) if view.is_told() => explain(rt, device, view, line, &said, writer),
        Ok(said) => show_said(rt.alloc(), device, view, line, &said, writer),
        Err(LineFault::Memory) => Err(Outcome::Memory),
        Err(LineFault::NotACommand) if view.is_told() => Err(explain_stray(
            rt,
            device.plan(),
            view,
            line,
        )),
        Err(LineFault::NotACommand) => Err(show_stray(
            rt.alloc(),
            device.plan(),
            view,
            line,
            writer,
        )),
    }
}
