//! What is to come of a run that lacked memory from its beginning to its end.

use crate::case::Program;
use crate::starved::commands::Wanting;
use crate::starved::ground::Ground;
use crate::starved::lines::{is_answered, lines_of, want_of};
use crate::starved::run::{Ran, run};
use crate::starved::writer::ample;
use ctl_script::Outcome;
use ctrl_calls::Work;
use hoard::Hoard;
use std::alloc::{AllocError, Global};
use std::sync::Wait;
use std::thread::Threads;

/// What is run, on which device, and what comes of it with ample memory.
#[derive(Clone, Copy)]
pub struct Whole<'a> {
    pub ground: &'a Ground,
    pub program: Program,
    pub text: &'a [u8],
    pub usual: &'a Ran,
}

/// Whether a run printed and left, and called closures at each line, as it does without the commands that say they found no memory, and those behind a
/// growth of its own that was refused; and told no notifier at these.
pub fn is_explained<R: AllocGlobal + Threads + Wait + Sync>(
    rt: &R,
    hoard: &mut Hoard,
    of: &Whole<'_>,
    ran: &Ran,
    wanting: &mut Wanting,
) -> Result<bool, AllocError> {
    let alloc = rt.alloc();
    let mut printed = lines_of(alloc, ran.printed.as_slice())?;
    let is_cut = ran.outcome == Outcome::Memory;
    if is_cut && (printed.pop() != Some(b"no memory") || was_called(ran.calls.as_slice().last())) {
        return Ok(false);
    }
    match of.program {
        Program::Board => return Ok(is_board_explained(of.usual, ran, is_cut)),
        Program::Pair if is_cut => return Ok(printed.is_empty()),
        Program::Pair if ran.outcome != Outcome::Finished => return Ok(false),
        _ => {}
    }
    let Some(rest) = without_refused(alloc, of, printed.as_slice(), ran, is_cut, wanting)? else {
        return Ok(false);
    };
    let script = rest.script.as_slice();
    let other = run(rt, hoard, of.ground, of.program, script, ample(of.program))?;
    let ended = if is_cut {
        Outcome::Finished
    } else {
        ran.outcome
    };
    Ok(
        other.outcome == ended
            && other.is_left_alike(ran)
            && other.calls.as_slice() == rest.calls.as_slice()
            && are_alike(rest.printed.as_slice(), other.printed.as_slice()),
    )
}

fn was_called(calls: Option<&Work>) -> bool {
    calls.is_some_and(|calls| calls.asked > 0 || calls.told > 0)
}

// Whether what was printed is what came, where the last line may be that an audit found no memory.
fn are_alike(printed: &[u8], other: &[u8]) -> bool {
    if printed == other {
        return true;
    }
    match printed.strip_suffix(b"error 12\n") {
        Some(printed) => other
            .strip_prefix(printed)
            .is_some_and(|last| last.starts_with(b"audit equal ")),
        None => false,
    }
}

// A board says nothing of commands: what it prints is what the device that it leaves has.
fn is_board_explained(usual: &Ran, ran: &Ran, is_cut: bool) -> bool {
    let printed = ran.printed.as_slice();
    if !ran.audited.starts_with(b"audit equal ") {
        return false;
    }
    if !is_cut && ran.outcome != Outcome::Finished {
        return ran.outcome == usual.outcome && printed == usual.printed.as_slice();
    }
    let printed = if is_cut {
        printed.strip_suffix(b"no memory\n").unwrap_or(printed)
    } else {
        printed
    };
    if is_cut {
        ran.board.starts_with(printed)
    } else {
        ran.board.as_slice() == printed
    }
}

// A script without the commands that found no memory, and what was printed and called of the others.
#[derive(Drop)]
struct Rest {
    script: Vec<u8>,
    printed: Vec<u8>,
    calls: Vec<Work>,
}

impl Rest {
    // A line of the script.
    fn say(&mut self, line: &[u8]) -> Result<(), AllocError> {
        self.script.extend_from_slice(line)?;
        self.script.push(b'\n')?;
        Ok(())
    }

    // A line that was printed, and what was called at it, where that was counted.
    fn print(&mut self, reply: &[u8], calls: Option<&Work>) -> Result<(), AllocError> {
        self.printed.extend_from_slice(reply)?;
        self.printed.push(b'\n')?;
        if let Some(calls) = calls {
            self.calls.push(*calls)?;
        }
        Ok(())
    }
}

// Nothing where a command that takes no memory says that it found none, or where a notifier was told at one that found none.
fn without_refused(
    alloc: Global,
    of: &Whole<'_>,
    printed: &[&[u8]],
    ran: &Ran,
    is_cut: bool,
    wanting: &mut Wanting,
) -> Result<Option<Rest>, AllocError> {
    let mut rest = Rest {
        script: Vec::new(alloc),
        printed: Vec::new(alloc),
        calls: Vec::new(alloc),
    };
    let mut place = 0usize;
    for line in lines_of(alloc, of.text)? {
        if is_answered(line) && line != b"==".as_slice() {
            let Some(reply) = printed.get(place) else {
                if is_cut {
                    break;
                }
                return Ok(None);
            };
            let calls = ran.calls.get(place);
            place = place.saturating_add(1);
            if reply.ends_with(want_of(alloc, line)?.as_bytes()) {
                let was_told = calls.is_some_and(|calls| calls.told > 0);
                if was_told || !wanting.add(line, of.ground.is_other_told) {
                    return Ok(None);
                }
                rest.say(b"")?;
                continue;
            }
            rest.print(reply, calls)?;
        }
        rest.say(line)?;
    }
    for (place, reply) in printed.iter().enumerate().skip(place) {
        rest.print(reply, ran.calls.get(place))?;
    }
    Ok(Some(rest))
}
