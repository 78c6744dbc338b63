ghost use Rattle.std.specs.Prelude.{◌≡◌, ◌≢◌, [], IfErr, OnOk};
ghost use Rattle.std.specs.Io.KnownBytes.{Appends};
ghost use Rattle.history.specs.Past.{past};
ghost use Rattle.script_replies.specs.Replies.{outcome_line};
ghost use Rattle.ctl_script.specs.Board.{HasBoard, IsSame, IsShown, IsUnshown, queued_line};
ghost use Rattle.ctl_script.specs.Run.{GrowsFrom};

use crate::run::{SEAT, read_and_answer, with_line, without_line};
use ctrl_calls::Driver;
use device_state::{Ask, Device};
use script_lines::ControlWords;
use script_replies::{Outcome, ReplyLine, write_answer, write_no_frames};
use std::alloc::Global;
use std::io;
use std::io::{Read, Write};

/// Asks the commands of a script as `run_script` does, but prints none of their replies; at the end it prints what each queued frame will
/// have, in the order of the queue, or `no frames` where none is queued. It hands the device back (of this project).
///
/// - `known`: the words by which the script names the device's controls.
/// - `device`: what the commands are asked of, at seat 0; it may have steps.
/// - `reader`: gives the script, as it gives that of `run_script`.
/// - `writer`: is given each line whole, and what is left of it after a short write. It isn't flushed.
///
/// The outcome and its line are those of `run_script`; where the script doesn't run whole, this line is all that is printed. Where a forecast
/// at the end finds no memory, the outcome is `Memory`, and its line follows those of the frames before. The device has the plan that was handed in, and its steps begin with those that it had.
pub fn run_board<D: Driver, R: Read, W: Write>(
    alloc: Global,
    known: &ControlWords,
    mut device: Device<D>,
    reader: &mut R,
    writer: &mut W,
) -> (Device<D>, Outcome)
    ensures board { HasBoard D.verdict D.told known.now (R.remaining reader.old) (R.remaining reader.new) device result.0 result.1 (outcome_line result.1) (W.contents writer.old) (W.contents writer.new) }
    ensures device { GrowsFrom device result.0 }
    ensures one_script { result.1 ≢ Outcome.NoSecond }
{
    let Ok(mut line) = ReplyLine::new(alloc) else {
        return (device, without_line(writer));
    };
    let outcome = read_and_print(alloc, known, &mut device, reader, writer, &mut line);
    (device, with_line(writer, &mut line, outcome))
}

// Asks the commands of a script, and prints the frames that are queued then.
fn read_and_print<D: Driver, R: Read, W: Write>(
    alloc: Global,
    known: &ControlWords,
    device: &mut Device<D>,
    reader: &mut R,
    writer: &mut W,
    line: &mut ReplyLine,
) -> Outcome
    ensures { HasBoard D.verdict D.told known.now (R.remaining reader.old) (R.remaining reader.new) device.old device.new result [] (W.contents writer.old) (W.contents writer.new) }
{
    match read_and_answer(alloc, known, device, reader, &mut Unheard, line) {
        Outcome::Finished => print_frames(device, writer, line),
        outcome => outcome,
    }
}

// Prints what each queued frame will have.
fn print_frames<D: Driver, W: Write>(
    device: &mut Device<D>,
    writer: &mut W,
    line: &mut ReplyLine,
) -> Outcome
    ensures device { IsSame device.old device.new }
    ensures shown { IsShown D.verdict device.old.plan (past device.old.steps) result [] (W.contents writer.old) (W.contents writer.new) }
{
    let count = device.queued_count();
    if count == 0 {
        return match write_no_frames(writer) {
            Ok(()) => Outcome::Finished,
            Err(_) => Outcome::WriteFault,
        };
    }
    for place in 0..count as u32 {
        match print_frame(device, place, writer, line) {
            Ok(()) => {}
            Err(outcome) => return outcome,
        }
    }
    Outcome::Finished
}

// Prints what the queued frame at a place will have. The error is the outcome.
fn print_frame<D: Driver, W: Write>(
    device: &mut Device<D>,
    place: u32,
    writer: &mut W,
    line: &mut ReplyLine,
) -> Result<(), Outcome>
    ensures device { IsSame device.old device.new }
    ensures printed { OnOk result (Appends (W.contents writer.old) (W.contents writer.new) (queued_line D.verdict device.old.plan (past device.old.steps) place)) }
    ensures fault { IfErr result (λ outcome. IsUnshown outcome (W.contents writer.old) (W.contents writer.new)) }
{
    let ask = Ask::Forecast { place };
    let answer = device.handle(SEAT, &ask);
    if answer.is_err() {
        return Err(Outcome::Memory);
    }
    match write_answer(writer, line, &ask, &answer) {
        Ok(()) => Ok(()),
        Err(_) => Err(Outcome::WriteFault),
    }
}

// A writer that takes whatever it is given, and keeps nothing.
#[derive(Drop)]
struct Unheard;

impl Write for Unheard {
    fn write(&mut self, buf: &[u8]) -> io::Result<usize> {
        Ok(buf.len())
    }

    fn flush(&mut self) -> io::Result<()> {
        Ok(())
    }
}
