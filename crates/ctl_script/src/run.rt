ghost use Rattle.std.specs.Prelude.{◌≡◌, ◌≢◌, ◌==◌, ◌<◌, ◌≤◌, [], ◌∷◌, ◌++◌, length, position, MatchOption, IfSome, IfErr, OnOk};
ghost use Rattle.std.specs.Io.KnownBytes.{Appends};
ghost use Rattle.history_audit.specs.Replay.{IsProgressOf};
ghost use Rattle.script_lines.specs.Commands.{words, line_of};
ghost use Rattle.script_replies.specs.Replies.{outcome_line};
ghost use Rattle.ctl_script.specs.Bindings.{bound_names};
ghost use Rattle.ctl_script.specs.Lines.{lines_in, lines_behind};
ghost use Rattle.ctl_script.specs.Run.{GrowsFrom, HasPrinted, HasSaid, IsLastLine, IsLine, script_in};

use crate::ask::ask_of;
use crate::auditing::audit_of;
use crate::binding::Binding;
use crate::fault::InputFault;
use crate::input::read_input;
use crate::names::Bindings;
use ctrl_calls::Driver;
use device_state::{Device, Progress};
use script_lines::{ControlWords, LineFault, read_line};
use script_replies::{
    Outcome, ReplyLine, write_answer, write_audit, write_no_memory, write_outcome,
};
use std::alloc::Global;
use std::io::{Read, Write};

/// Answers the commands of a script in order, and hands the device back (of this project).
///
/// - `known`: the words by which the script names the device's controls.
/// - `device`: what the commands are asked of, at seat 0; it may have steps.
/// - `reader`: gives the script, at most 1,048,576 bytes in at most 2,097,152 reads; an interrupted read counts as one. It is
///   read whole before the first command runs.
/// - `writer`: is given the line of each command, whole, before the next one runs, and what is left of it after a short write. It isn't
///   flushed.
///
/// The outcome is `Finished` where every line was a command or skipped; refused commands count, the device's own want of
/// memory (error 12) included. `BadLine` names the first line that is no command: the lines before it have been answered,
/// and it prints `line N: not a command`. `TooLong`, `ReadFault` and `Memory` print `input too long`, `read fault` and
/// `no memory`; the first two come before any command runs. `WriteFault` is a write that failed, was interrupted or took no
/// byte; nothing is printed after it.
///
/// Room for the longest line is made before the input is read, and all else that a command needs of the tool's own memory is taken
/// before the device is asked, so at `Memory` each step of the device has its reply line. The device has the plan that was handed in,
/// and its steps begin with those that it had.
pub fn run_script<D: Driver, R: Read, W: Write>(
    alloc: Global,
    known: &ControlWords,
    mut device: Device<D>,
    reader: &mut R,
    writer: &mut W,
) -> (Device<D>, Outcome)
    ensures ran { HasPrinted D.verdict D.told known.now (R.remaining reader.old) (R.remaining reader.new) device result.0 result.1 (outcome_line result.1) (W.contents writer.old) (W.contents writer.new) }
    ensures device { GrowsFrom device result.0 }
    ensures one_script { result.1 ≢ Outcome.NoSecond }
{
    let Ok(mut reply) = ReplyLine::new(alloc) else {
        return (device, without_line(writer));
    };
    let outcome = read_and_answer(alloc, known, &mut device, reader, writer, &mut reply);
    (device, with_line(writer, &mut reply, outcome))
}

/// Writes the line of the outcome `Memory`, where no room for a line could be made; this needs none. The outcome is `WriteFault` where it
/// could not be written.
pub fn without_line<W: Write>(writer: &mut W) -> Outcome
    ensures memory { result ≢ Outcome.WriteFault → result ≡ Outcome.Memory }
    ensures line { result ≢ Outcome.WriteFault → Appends (W.contents writer.old) (W.contents writer.new) (outcome_line Outcome.Memory) }
{
    match write_no_memory(writer) {
        Ok(()) => Outcome::Memory,
        Err(_) => Outcome::WriteFault,
    }
}

/// Writes the line of an outcome, if it has one. The outcome is `WriteFault` where it could not be written.
pub fn with_line<W: Write>(writer: &mut W, reply: &mut ReplyLine, outcome: Outcome) -> Outcome
    ensures same { result ≢ Outcome.WriteFault → result ≡ outcome }
    ensures line { result ≢ Outcome.WriteFault → Appends (W.contents writer.old) (W.contents writer.new) (outcome_line outcome) }
{
    match write_outcome(writer, reply, outcome) {
        Ok(()) => outcome,
        Err(_) => Outcome::WriteFault,
    }
}

// Reads a script whole, and then answers it.
pub(crate) fn read_and_answer<D: Driver, R: Read, W: Write>(
    alloc: Global,
    known: &ControlWords,
    device: &mut Device<D>,
    reader: &mut R,
    writer: &mut W,
    reply: &mut ReplyLine,
) -> Outcome
    ensures { HasPrinted D.verdict D.told known.now (R.remaining reader.old) (R.remaining reader.new) device.old device.new result [] (W.contents writer.old) (W.contents writer.new) }
{
    match read_input(alloc, reader) {
        Ok(text) => answer_script(alloc, known, device, text.as_slice(), writer, reply),
        Err(InputFault::TooLong) => Outcome::TooLong,
        Err(InputFault::Reader) => Outcome::ReadFault,
        Err(InputFault::Memory) => Outcome::Memory,
    }
}

// Answers the lines of a script in order, up to one that ends the run.
fn answer_script<D: Driver, W: Write>(
    alloc: Global,
    known: &ControlWords,
    device: &mut Device<D>,
    text: &[u8],
    writer: &mut W,
    reply: &mut ReplyLine,
) -> Outcome
    requires { length text.now ≤ 1048576 }
    ensures { HasSaid D.verdict D.told (script_in known.now 1 (lines_in text.now)) device.old device.new result (W.contents writer.old) (W.contents writer.new) }
{
    let mut kept = Kept {
        names: Bindings::new(alloc),
        made: None,
    };
    let mut number = 0;
    let mut rest = Some(text);
    while let Some(text) = rest {
        let (line, more) = first_line(text);
        number += 1;
        match answer_line(alloc, known, device, &mut kept, line, writer, reply) {
            Ok(()) => rest = more,
            Err(LineEnd::NotACommand) => return Outcome::BadLine(number),
            Err(LineEnd::Memory) => return Outcome::Memory,
            Err(LineEnd::WriteFault) => return Outcome::WriteFault,
        }
    }
    Outcome::Finished
}

/// The first line of a text, and what stands behind its line feed, if it has one.
pub fn first_line(text: &[u8]) -> (&[u8], Option<&[u8]>)
    ensures lines { lines_in text.now ≡ result.0.now ∷ lines_behind result.1 }
    ensures parts { MatchOption result.1 (result.0.now ≡ text.now) (λ more. text.now ≡ result.0.now ++ 10 ∷ more.now) }
{
    match line_feed(text) {
        Some(at) => (&text[..at], Some(&text[at + 1..])),
        None => (text, None),
    }
}

// Where the first line feed of a text is.
fn line_feed(text: &[u8]) -> Option<usize>
    ensures at { result ≡ position (λ b. b == 10) text.now }
    ensures within { IfSome result (λ at. at < length text.now) }
{
    text.iter().position(|byte| *byte == b'\n')
}

// Why a line ends the run.
#[derive(Clone, Copy)]
enum LineEnd {
    NotACommand,
    Memory,
    WriteFault,
}

// What a script keeps from line to line.
#[derive(Drop)]
struct Kept {
    // what its names stand for
    names: Bindings,
    // what the last audit put aside, if there was one
    made: Option<Progress>,
}

// Answers one line. All that it needs of memory is taken before the device is asked, so that no step is without its reply line.
fn answer_line<D: Driver, W: Write>(
    alloc: Global,
    known: &ControlWords,
    device: &mut Device<D>,
    kept: &mut Kept,
    line: &[u8],
    writer: &mut W,
    reply: &mut ReplyLine,
) -> Result<(), LineEnd>
    requires within { length line.now ≤ 1048576 }
    requires made { IfSome kept.old.made (IsProgressOf D.verdict device.old.plan device.old.steps) }
    ensures made { OnOk result (IfSome kept.new.made (IsProgressOf D.verdict device.new.plan device.new.steps)) }
    ensures line { OnOk result (IsLine D.verdict D.told (line_of known.now (words line.now)) (bound_names kept.old.names) (bound_names kept.new.names) device.old device.new (W.contents writer.old) (W.contents writer.new)) }
    ensures end { IfErr result (IsLastLine D.verdict D.told (line_of known.now (words line.now)) (bound_names kept.old.names) device.old device.new (W.contents writer.old) (W.contents writer.new)) }
{
    let command = match read_line(alloc, known, line) {
        Ok(Some(command)) => command,
        Ok(None) => return Ok(()),
        Err(LineFault::NotACommand) => return Err(LineEnd::NotACommand),
        Err(LineFault::Memory) => return Err(LineEnd::Memory),
    };
    let binding = Binding::of(&command);
    if binding.enter(&mut kept.names).is_err() {
        return Err(LineEnd::Memory);
    }
    let Some(ask) = ask_of(command, &kept.names) else {
        return match write_audit(writer, reply, audit_of(alloc, device, &mut kept.made)) {
            Ok(()) => Ok(()),
            Err(_) => Err(LineEnd::WriteFault),
        };
    };
    let answer = device.handle(SEAT, &ask);
    binding.bind(&mut kept.names, &answer);
    match write_answer(writer, reply, &ask, &answer) {
        Ok(()) => Ok(()),
        Err(_) => Err(LineEnd::WriteFault),
    }
}

// the seat at which a script's commands are asked
pub(crate) const SEAT: u32 = 0;
