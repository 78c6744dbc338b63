//! Two scripts on two threads while memory is short.

ghost use Rattle.std.specs.Prelude.{◌≡◌, []};

use crate::devices::{Waiting, agrees, sample};
use ctl_pair::{Gate, run_pair};
use ctl_script::{ControlWords, Outcome, first_line, run_script, sample_words};
use device_state::Device;
use hoard::Hoard;
use std::alloc::{AllocError, Global};
use std::sync::{Mutex, Wait};
use std::test::Fail;
use std::thread;
use std::thread::Threads;

// One script sets a control, the other makes frames; neither sees what the other does.
const SETS: &[u8] = b"\
open f 1
set f cur brightness=4
set f cur brightness=8
set f cur brightness=12
set f cur brightness=16
set f cur brightness=20
set f cur brightness=24
set f cur brightness=28
set f cur brightness=32
set f cur brightness=36
set f cur brightness=40
get f cur brightness
";

const FRAMES: &[u8] = b"\
open f 1
alloc r
buffer r 1
set f req:r hflip=1
queue r
begin
complete
reinit r
buffer r 1
set f req:r hflip=1
queue r
begin
complete
reinit r
buffer r 1
set f req:r hflip=1
queue r
begin
complete
";

// The seat of each, and how many commands it has.
const COMMANDS: [(u32, u32); 2] = [(0, 12), (1, 19)];

// Memory is short from the beginning, or never; else from a command of a seat on, counted from 1.
const START: (u32, u32) = (0, 0);

const NEVER: (u32, u32) = (2, 0);

// More pages than both threads need. Budgets are smaller, each of one page more than the one before.
const PAGES: usize = 200;

// At a command of a seat memory runs short, on the thread that asks: so many pages are left.
#[derive(Drop)]
struct Short<'a, R> {
    rt: &'a R,
    hoard: &'a Mutex<Hoard>,
    at: (u32, u32),
    left: usize,
}

impl<R: Wait> Gate for Short<'_, R> {
    fn pass(&self, seat: u32, k: u32) {
        if (seat, k) == self.at {
            self.hoard.lock(self.rt).take_pages(self.left);
        }
    }
}

// What came of a run.
#[derive(Clone, Copy, PartialEq, Eq)]
enum Run {
    // nothing was asked, for want of memory
    Unasked,
    // so many commands were refused for want of memory
    Ran(usize),
    // it isn't as it should be
    Wrong,
}

// How a command that is refused for want of memory is answered.
fn refusal_of(line: &[u8]) -> &'static [u8] {
    if line.starts_with(b"set ") || line.starts_with(b"get ") {
        b"error 12 index 1"
    } else {
        b"error 12"
    }
}

// A script without the commands that were refused for want of memory, and what the others were answered.
#[derive(Drop)]
struct Script<'a> {
    asked: Vec<u8>,
    answered: Vec<u8>,
    refused: usize,
    // what was printed behind the answers of this script
    rest: &'a [u8],
}

fn add_line(text: &mut Vec<u8>, line: &[u8]) -> Result<(), AllocError> {
    text.extend_from_slice(line)?;
    text.push(b'\n')?;
    Ok(())
}

// `None` where an answer is missing.
fn kept<'a>(
    alloc: Global,
    script: &[u8],
    prefix: &[u8],
    printed: &'a [u8],
) -> Result<Option<Script<'a>>, AllocError> {
    let mut asked = Vec::new(alloc);
    let mut answered = Vec::new(alloc);
    let mut refused = 0usize;
    let mut rest = printed;
    for line in script.split(|byte| *byte == b'\n') {
        if line.is_empty() {
            continue;
        }
        let (reply, more) = first_line(rest);
        let (Some(reply), Some(more)) = (reply.strip_prefix(prefix), more) else {
            return Ok(None);
        };
        rest = more;
        if reply == refusal_of(line) {
            refused = refused.saturating_add(1);
        } else {
            add_line(&mut asked, line)?;
            add_line(&mut answered, reply)?;
        }
    }
    Ok(Some(Script {
        asked,
        answered,
        refused,
        rest,
    }))
}

// How many steps the commands of a script make that weren't refused, where they are answered as if there were no others.
fn steps_of(
    alloc: Global,
    known: &ControlWords,
    kept: &Script<'_>,
) -> Result<Option<usize>, AllocError> {
    let mut reader = kept.asked.as_slice();
    let mut answered = Vec::new(alloc);
    let (device, outcome) = run_script(alloc, known, sample(alloc)?, &mut reader, &mut answered);
    let is_same = outcome == Outcome::Finished && answered == kept.answered;
    Ok(if is_same {
        Some(device.steps().len())
    } else {
        None
    })
}

// Whether both scripts are answered as they are without the commands that were refused, and the steps are those of both. The audit's line may have found no
// memory; one that is made behind the run agrees.
fn came(
    alloc: Global,
    known: &ControlWords,
    device: &Device<Waiting>,
    printed: &[u8],
) -> Result<Run, AllocError> {
    let Some(first) = kept(alloc, SETS, b"0 ", printed)? else {
        return Ok(Run::Wrong);
    };
    let Some(second) = kept(alloc, FRAMES, b"1 ", first.rest)? else {
        return Ok(Run::Wrong);
    };
    let steps = (
        steps_of(alloc, known, &first)?,
        steps_of(alloc, known, &second)?,
    );
    let (Some(a), Some(b)) = steps else {
        return Ok(Run::Wrong);
    };
    let accepted = format!(in alloc; "accepted {a} {b}\naudit equal {}\n", device.steps().len())?;
    let short = format!(in alloc; "accepted {a} {b}\nerror 12\n")?;
    let is_short = second.rest == short.as_bytes();
    let is_so = is_short || second.rest == accepted.as_bytes();
    let is_audited = agrees(alloc, device, a.saturating_add(b));
    let refused = first.refused.saturating_add(second.refused);
    Ok(if is_so && is_audited {
        Run::Ran(refused)
    } else {
        Run::Wrong
    })
}

// Runs both scripts. Memory is short from this point on: so many pages are left.
fn goes<R: Threads + Wait + Sync>(
    rt: &R,
    alloc: Global,
    known: &ControlWords,
    hoard: &Mutex<Hoard>,
    at: (u32, u32),
    left: usize,
) -> Result<Run, AllocError> {
    hoard.lock(rt).leave_pages(PAGES);
    let mut text = Vec::with_capacity(alloc, 4096)?;
    text.extend_from_slice(SETS)?;
    text.extend_from_slice(b"==\n")?;
    text.extend_from_slice(FRAMES)?;
    let mut reader = text.as_slice();
    let mut printed = Vec::with_capacity(alloc, 4096)?;
    let device = sample(alloc)?;
    let gate = Short {
        rt,
        hoard,
        at,
        left,
    };
    if at == START {
        leave_alone(&mut hoard.lock(rt), left);
    }
    let (remains, outcome) = run_pair(rt, alloc, known, device, &gate, &mut reader, &mut printed);
    hoard.lock(rt).feed();
    let Ok(device) = remains else {
        return Ok(Run::Wrong);
    };
    match outcome {
        Outcome::Finished => came(alloc, known, &device, printed.as_slice()),
        Outcome::Memory if device.steps().is_empty() && is_unasked(printed.as_slice()) => {
            Ok(Run::Unasked)
        }
        _ => Ok(Run::Wrong),
    }
}

// Leaves so many pages, and nothing else.
fn leave_alone(hoard: &mut Hoard, pages: usize) {
    hoard.leave_pages(0);
    hoard.starve(0);
    hoard.leave_pages(pages);
}

fn is_unasked(printed: &[u8]) -> bool {
    printed == b"no memory\n".as_slice()
}

// With budgets that rise until nothing is refused: how many runs asked nothing, and how many were refused a command. `None` where one is wrong.
fn swept<R: Threads + Wait + Sync>(
    rt: &R,
    alloc: Global,
    known: &ControlWords,
    hoard: &Mutex<Hoard>,
    at: (u32, u32),
) -> Result<Option<(usize, usize)>, AllocError> {
    let (mut unasked, mut refused) = (0usize, 0usize);
    for left in 0..PAGES {
        match goes(rt, alloc, known, hoard, at, left)? {
            Run::Unasked => unasked = unasked.saturating_add(1),
            Run::Ran(0) => return Ok(Some((unasked, refused))),
            Run::Ran(_) => refused = refused.saturating_add(1),
            Run::Wrong => return Ok(None),
        }
    }
    Ok(None)
}

// Whether a thread can be made.
fn makes_thread<R: Threads + Wait + Sync>(rt: &R) -> bool {
    thread::scope(thread::scope_env(), rt, |scope| scope.spawn(|| ()).is_ok())
}

// Whether nothing is asked where no thread can be made, and where one alone can; both are made then.
fn wants_threads<R: Threads + Wait + Sync>(
    rt: &R,
    alloc: Global,
    known: &ControlWords,
    hoard: &Mutex<Hoard>,
) -> Result<bool, AllocError> {
    let none = goes(rt, alloc, known, hoard, NEVER, 0)?;
    hoard.lock(rt).give_stacks();
    let is_made = makes_thread(rt);
    hoard.lock(rt).fence();
    let one = goes(rt, alloc, known, hoard, NEVER, 0)?;
    hoard.lock(rt).give_stacks();
    let both = goes(rt, alloc, known, hoard, NEVER, 0)?;
    hoard.lock(rt).fence();
    Ok(is_made && none == Run::Unasked && one == Run::Unasked && both == Run::Ran(0))
}

#[test]
fn pairs_where_memory_is_short(rt: HostRuntime) -> Result<(), Fail> {
    let alloc = rt.alloc();
    let known = sample_words(alloc)?;
    let hoard = Mutex::new(Hoard::new(alloc)?);
    let are_wanted = wants_threads(&rt, alloc, &known, &hoard)?;
    let begun = swept(&rt, alloc, &known, &hoard, START)?;
    assert!(rt;
        are_wanted && matches!(begun, Some((1.., 1..))),
        "{are_wanted} {begun:?}"
    );
    Ok(())
}

// How many runs were refused a command, of those in which memory runs short at a command of this seat.
fn refused_at<R: Threads + Wait + Sync>(
    rt: &R,
    alloc: Global,
    known: &ControlWords,
    hoard: &Mutex<Hoard>,
    seat: u32,
    commands: u32,
) -> Result<usize, AllocError> {
    let mut all = 0usize;
    for k in 1..commands.saturating_add(1) {
        match swept(rt, alloc, known, hoard, (seat, k))? {
            Some((0, refused)) => all = all.saturating_add(refused),
            _ => return Ok(0),
        }
    }
    Ok(all)
}

#[test]
fn pairs_where_memory_runs_short(rt: HostRuntime) -> Result<(), Fail> {
    let alloc = rt.alloc();
    let known = sample_words(alloc)?;
    let hoard = Mutex::new(Hoard::new(alloc)?);
    wants_threads(&rt, alloc, &known, &hoard)?;
    for (seat, commands) in COMMANDS {
        let refused = refused_at(&rt, alloc, &known, &hoard, seat, commands)?;
        assert!(rt; refused > 0, "{seat} {refused}");
    }
    Ok(())
}
