ghost use Rattle.std.specs.Prelude.{OnOk};
ghost use Rattle.std.specs.Io.KnownBytes.{Appends};
ghost use Rattle.script_replies.specs.Replies.{accepted_line, answer_line, audit_line, no_frames_line, numbered_line, outcome_line};
ghost use Rattle.script_replies.specs.declared.outcome.Outcome.TheVariants as outcomes;

use crate::audited::Audited;
use crate::outcome::Outcome;
use crate::reply::{print_accepted, print_answer, print_audit, print_decimal, print_outcome};
use crate::room::ReplyLine;
use ctrl_types::Fault;
use device_history::{Ask, Reply};
use std::io;
use std::io::{ErrorKind, Write};

/// Writes the line of an answer to an ask. It takes no memory.
///
/// - `writer`: is given the whole line, and what is left of it after a short write.
/// - `line`: where it is put together; what was there is forgotten.
///
/// A write that fails, is interrupted or takes no byte is an error, after which the writer may have a part of the line; so is a line
/// longer than `MAX_LINE`, of which nothing is written.
pub fn write_answer<W: Write>(
    writer: &mut W,
    line: &mut ReplyLine,
    ask: &Ask,
    answer: &Result<Reply, Fault>,
) -> io::Result<()>
    ensures { OnOk result (Appends (W.contents writer.old) (W.contents writer.new) (answer_line ask.now answer.now)) }
{
    line.clear();
    print_answer(line, ask, answer)?;
    write_whole(writer, line.as_slice())
}

/// Writes the line of an answer to an ask of the script with this number, behind the number and a space, as `write_answer` writes it
/// without them. It takes no memory.
pub fn write_numbered_answer<W: Write>(
    writer: &mut W,
    line: &mut ReplyLine,
    script: u32,
    ask: &Ask,
    answer: &Result<Reply, Fault>,
) -> io::Result<()>
    ensures { OnOk result (Appends (W.contents writer.old) (W.contents writer.new) (numbered_line script (answer_line ask.now answer.now))) }
{
    line.clear();
    print_decimal(line, script)?;
    line.put(b" ")?;
    print_answer(line, ask, answer)?;
    write_whole(writer, line.as_slice())
}

/// Writes how many steps of each of two scripts were accepted, as `write_answer` writes the line of an answer. It takes no memory.
pub fn write_accepted<W: Write>(
    writer: &mut W,
    line: &mut ReplyLine,
    first: usize,
    second: usize,
) -> io::Result<()>
    ensures { OnOk result (Appends (W.contents writer.old) (W.contents writer.new) (accepted_line first second)) }
{
    line.clear();
    print_accepted(line, first, second)?;
    write_whole(writer, line.as_slice())
}

/// Writes the line of an audit, as `write_answer` writes that of an answer. It takes no memory.
pub fn write_audit<W: Write>(
    writer: &mut W,
    line: &mut ReplyLine,
    audited: Audited,
) -> io::Result<()>
    ensures { OnOk result (Appends (W.contents writer.old) (W.contents writer.new) (audit_line audited)) }
{
    line.clear();
    print_audit(line, audited)?;
    write_whole(writer, line.as_slice())
}

/// Writes the line of an outcome, if it has one, as `write_answer` writes that of an answer. It takes no memory.
pub fn write_outcome<W: Write>(
    writer: &mut W,
    line: &mut ReplyLine,
    outcome: Outcome,
) -> io::Result<()>
    ensures { OnOk result (Appends (W.contents writer.old) (W.contents writer.new) (outcome_line outcome)) }
{
    line.clear();
    print_outcome(line, outcome)?;
    write_whole(writer, line.as_slice())
}

/// Writes the line of the outcome `Memory`, for want of room where a line could be put together. Errors are those of `write_answer`.
pub fn write_no_memory<W: Write>(writer: &mut W) -> io::Result<()>
    ensures { OnOk result (Appends (W.contents writer.old) (W.contents writer.new) (outcome_line outcomes.Memory)) }
{
    write_whole(writer, b"no memory\n")
}

/// Writes the line that tells that no frame is queued. It takes no memory. Errors are those of `write_answer`.
pub fn write_no_frames<W: Write>(writer: &mut W) -> io::Result<()>
    ensures { OnOk result (Appends (W.contents writer.old) (W.contents writer.new) no_frames_line) }
{
    write_whole(writer, b"no frames\n")
}

// Writes a text whole. An error, an interruption too, and a write that takes no byte are faults.
fn write_whole<W: Write>(writer: &mut W, text: &[u8]) -> io::Result<()>
    ensures { OnOk result (Appends (W.contents writer.old) (W.contents writer.new) text.now) }
{
    let mut rest = text;
    while !rest.is_empty() {
        let count = writer.write(rest)?;
        if count == 0 {
            return Err(io::Error::from(ErrorKind::WriteZero));
        }
        rest = &rest[count..];
    }
    Ok(())
}
