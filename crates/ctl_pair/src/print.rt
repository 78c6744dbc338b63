//! What two scripts print at the end.
ghost use Rattle.std.specs.Prelude.{◌≡◌, length, OnOk};
ghost use Rattle.std.specs.List.{flat_map};
ghost use Rattle.std.specs.Io.KnownBytes.{Appends};
ghost use Rattle.history.specs.Past.{own};
ghost use Rattle.ctl_pair.specs.Pair.{pair_lines, said_line};

use ctrl_types::Fault;
use device_state::{Ask, Reply, Step};
use history::Entry;
use script_replies::{Audited, ReplyLine, write_accepted, write_audit, write_numbered_answer};
use std::io;
use std::io::Write;

/// Writes the reply lines of two scripts, how many of their steps the device has, and the line of its audit. It takes no memory.
pub fn print_pair<W: Write>(
    writer: &mut W,
    line: &mut ReplyLine,
    first: &[(Ask, Option<Result<Reply, Fault>>)],
    second: &[(Ask, Option<Result<Reply, Fault>>)],
    steps: &[Entry<Step>],
    audited: Audited,
) -> io::Result<()>
    ensures { OnOk result (Appends (W.contents writer.old) (W.contents writer.new) (pair_lines first.now second.now steps.now audited)) }
{
    print_said(writer, line, 0, first)?;
    print_said(writer, line, 1, second)?;
    write_accepted(writer, line, count_of(steps, 0), count_of(steps, 1))?;
    write_audit(writer, line, audited)
}

// Writes the reply lines of a script.
fn print_said<W: Write>(
    writer: &mut W,
    line: &mut ReplyLine,
    script: u32,
    said: &[(Ask, Option<Result<Reply, Fault>>)],
) -> io::Result<()>
    ensures { OnOk result (Appends (W.contents writer.old) (W.contents writer.new) (flat_map (said_line script) said.now)) }
{
    for entry in said {
        print_entry(writer, line, script, entry)?;
    }
    Ok(())
}

fn print_entry<W: Write>(
    writer: &mut W,
    line: &mut ReplyLine,
    script: u32,
    entry: &(Ask, Option<Result<Reply, Fault>>),
) -> io::Result<()>
    ensures { OnOk result (Appends (W.contents writer.old) (W.contents writer.new) (said_line script entry.now)) }
{
    match &entry.1 {
        Some(answer) => write_numbered_answer(writer, line, script, &entry.0, answer),
        None => Ok(()),
    }
}

// How many of the steps are a seat's.
fn count_of(steps: &[Entry<Step>], seat: u32) -> usize
    ensures { result ≡ length (own seat steps.now) }
{
    steps.iter().filter(|entry| entry.seat == seat).count()
}
