//! Which cases run out of memory, and what is wanted of them then.

use crate::case::{Case, Program};
use crate::starved::at_lines::is_well_at_lines;
use crate::starved::climb::{Climb, MOST_RUNS, STEP};
use crate::starved::commands::Wanting;
use crate::starved::explained::{Whole, is_explained};
use crate::starved::ground::{Ground, ground_of};
use crate::starved::run::{Ran, run};
use crate::starved::shown::show;
use crate::starved::writer::{Short, ample};
use ctl_script::Outcome;
use hoard::{Hoard, MOST_BUDGET};
use std::io;
use std::sync::Wait;
use std::thread::Threads;

// The files whose cases run out of memory.
const SWEPT: &[&str] = &[
    "sample.txt",
    "lists.txt",
    "requests.txt",
    "forecasts.txt",
    "audits.txt",
    "events.txt",
    "pairs.txt",
    "ranges.txt",
    "arrays.txt",
    "clusters.txt",
    "devices.txt",
    "flags.txt",
    "limits.txt",
];

// A script of more lines than these isn't run out of memory, or only before it runs.
const LONGEST: usize = 100;

const LONG: usize = 10;

// Two scripts without a command.
const NOTHING: &[u8] = b"==\n";

/// Runs cases out of memory. Prints a line for each, or what is wrong with it; whether nothing is.
///
/// - `hoard`: all memory. No thread has run yet.
/// - `cases`: all cases, since those of device files are among them.
pub fn starve_cases<R: AllocGlobal + Threads + Wait + Print + Sync>(
    rt: &R,
    hoard: &mut Hoard,
    cases: &[Case<'_>],
) -> io::Result<bool> {
    let mut wanting = Wanting::new();
    let mut is_well = true;
    for case in cases {
        if is_swept_alone(case) {
            is_well &= is_well_shown(rt, hoard, cases, case, &mut wanting)?;
        }
    }
    for case in cases {
        if is_swept_pair(case) {
            is_well &= is_well_without_threads(rt, hoard, cases, case)?;
        }
    }
    make_threads(rt, hoard, cases)?;
    for case in cases {
        if is_swept_pair(case) {
            is_well &= is_well_shown(rt, hoard, cases, case, &mut wanting)?;
        }
    }
    if let Some(verb) = wanting.missing() {
        let verb = String::from_utf8_lossy(rt.alloc(), verb)?;
        println!(rt; "{verb} never found no memory")?;
        is_well = false;
    }
    Ok(is_well)
}

// Makes threads once, so that their stacks are there.
fn make_threads<R: AllocGlobal + Threads + Wait + Sync>(
    rt: &R,
    hoard: &mut Hoard,
    cases: &[Case<'_>],
) -> io::Result<()> {
    hoard.give_stacks();
    if let Some(case) = cases.first() {
        if let Some(ground) = ground_of(rt.alloc(), cases, case)? {
            run(rt, hoard, &ground, Program::Pair, NOTHING, Short::Never)?;
        }
    }
    hoard.fence();
    Ok(())
}

fn is_swept(case: &Case<'_>) -> bool {
    let is_script = matches!(case.program, Program::Run | Program::Board | Program::Pair);
    let count = case.replies.len();
    let is_left = count > LONGEST || (count < 2 && case.device > 0);
    is_script && !is_left && SWEPT.iter().any(|file| *file == case.file)
}

fn is_swept_alone(case: &Case<'_>) -> bool {
    is_swept(case) && !matches!(case.program, Program::Pair)
}

fn is_swept_pair(case: &Case<'_>) -> bool {
    is_swept(case) && matches!(case.program, Program::Pair)
}

// Whether a case that runs out of memory prints and leaves what it is to. What was shown by it is printed.
fn is_well_shown<R: AllocGlobal + Threads + Wait + Print + Sync>(
    rt: &R,
    hoard: &mut Hoard,
    cases: &[Case<'_>],
    case: &Case<'_>,
    wanting: &mut Wanting,
) -> io::Result<bool> {
    let Some(ground) = ground_of(rt.alloc(), cases, case)? else {
        println!(rt;
            "{}: its device can't be built with closures that count",
            case.name
        )?;
        return Ok(false);
    };
    match is_well_starved(rt, hoard, &ground, case, wanting)? {
        Some(0) => println!(rt; "{}: before it runs", case.name)?,
        Some(lines) => println!(rt; "{}: before it runs, and at {lines} lines", case.name)?,
        None => return Ok(false),
    }
    Ok(true)
}

// Whether two scripts find no memory while there can be no thread, whatever the budget, or are refused as they are to be.
fn is_well_without_threads<R: AllocGlobal + Threads + Wait + Print + Sync>(
    rt: &R,
    hoard: &mut Hoard,
    cases: &[Case<'_>],
    case: &Case<'_>,
) -> io::Result<bool> {
    let Some(ground) = ground_of(rt.alloc(), cases, case)? else {
        return Ok(false);
    };
    let text = case.text.as_slice();
    let mut climb = Climb::new();
    let mut last: Option<Ran> = None;
    for _ in 0..MOST_RUNS {
        let budget = climb.budget();
        if budget > MOST_BUDGET {
            return Ok(true);
        }
        let short = Short::Always(budget);
        let ran = run(rt, hoard, &ground, Program::Pair, text, short)?;
        let printed = ran.printed.as_slice();
        let is_none = ran.outcome == Outcome::Memory && printed == b"no memory\n".as_slice();
        let is_fault = ran.outcome != Outcome::Finished && printed == case.printed.as_slice();
        if !is_none && !is_fault {
            return show(rt, case, budget, &ran);
        }
        if last.as_ref().is_some_and(|last| last.is_same(&ran)) {
            climb.rise();
        } else if climb.turn() {
            last = Some(ran);
        }
    }
    Ok(true)
}

// At how many lines a case ran out of memory; nothing where something else came of it than is to, which is shown.
fn is_well_starved<R: AllocGlobal + Threads + Wait + Print + Sync>(
    rt: &R,
    hoard: &mut Hoard,
    ground: &Ground,
    case: &Case<'_>,
    wanting: &mut Wanting,
) -> io::Result<Option<usize>> {
    let (program, text) = (case.program, case.text.as_slice());
    let usual = run(rt, hoard, ground, program, text, ample(program))?;
    if usual.printed.as_slice() != case.printed.as_slice() {
        show(rt, case, MOST_BUDGET, &usual)?;
        return Ok(None);
    }
    let outcome = usual.outcome;
    if !is_well_before(rt, hoard, ground, case, program, wanting)? {
        return Ok(None);
    }
    match (program, outcome) {
        // what a board prints says nothing of its commands, so they run as a script, too
        (Program::Board, _) => {
            let is_well = is_well_before(rt, hoard, ground, case, Program::Run, wanting)?;
            Ok(is_well.then_some(0))
        }
        (Program::Run, Outcome::Finished) if case.replies.len() <= LONG => {
            is_well_at_lines(rt, hoard, ground, case, wanting)
        }
        _ => Ok(Some(0)),
    }
}

// Whether all is well where memory is short from before the script until its end, from nothing to enough.
fn is_well_before<R: AllocGlobal + Threads + Wait + Print + Sync>(
    rt: &R,
    hoard: &mut Hoard,
    ground: &Ground,
    case: &Case<'_>,
    program: Program,
    wanting: &mut Wanting,
) -> io::Result<bool> {
    let text = case.text.as_slice();
    let usual = run(rt, hoard, ground, program, text, ample(program))?;
    let of = Whole {
        ground,
        program,
        text,
        usual: &usual,
    };
    let mut climb = Climb::new();
    let mut last: Option<Ran> = None;
    for _ in 0..MOST_RUNS {
        let budget = climb.budget();
        let short = match program {
            Program::Pair => Short::Threads(budget / STEP),
            _ => Short::Always(budget),
        };
        let ran = run(rt, hoard, ground, program, text, short)?;
        if budget > MOST_BUDGET {
            return show(rt, case, budget, &ran);
        }
        if last.as_ref().is_some_and(|last| last.is_same(&ran)) {
            climb.rise();
            continue;
        }
        let is_enough = ran.is_same(&usual);
        if !is_enough && !is_explained(rt, hoard, &of, &ran, wanting)? {
            return show(rt, case, budget, &ran);
        }
        if climb.turn() {
            if is_enough {
                return Ok(true);
            }
            last = Some(ran);
        }
    }
    Ok(false)
}
