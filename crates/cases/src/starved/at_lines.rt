//! Scripts that lack memory at one of their lines.

use crate::case::{Case, Program};
use crate::starved::climb::{Climb, MOST_RUNS};
use crate::starved::commands::Wanting;
use crate::starved::ground::Ground;
use crate::starved::lines::{is_answered, lines_of, want_of, word};
use crate::starved::run::{Ran, run};
use crate::starved::shown::show;
use crate::starved::writer::Short;
use ctl_script::Outcome;
use hoard::{Hoard, MOST_BUDGET};
use std::alloc::{AllocError, Global};
use std::io;
use std::sync::Wait;
use std::thread::Threads;

// Room for steps grows at each of these counts of them.
const GROWTHS: [usize; 5] = [8, 16, 32, 64, 128];

/// At how many lines of a script all is well where memory is short at each in turn; nothing where it isn't.
pub fn is_well_at_lines<R: AllocGlobal + Threads + Wait + Print + Sync>(
    rt: &R,
    hoard: &mut Hoard,
    ground: &Ground,
    case: &Case<'_>,
    wanting: &mut Wanting,
) -> io::Result<Option<usize>> {
    let lines = lines_of(rt.alloc(), case.text.as_slice())?;
    let mut count = 0usize;
    for (place, line) in lines.as_slice().iter().enumerate() {
        if !is_answered(line) {
            continue;
        }
        let at = Place {
            lines: lines.as_slice(),
            place,
            line,
            answered: count,
        };
        count = count.saturating_add(1);
        if !is_well_at_place(rt, hoard, ground, case, &at, wanting)? {
            return Ok(None);
        }
    }
    Ok(Some(count))
}

// A line of a script, and how many are answered before it.
#[derive(Clone, Copy)]
struct Place<'a> {
    lines: &'a [&'a [u8]],
    place: usize,
    line: &'a [u8],
    answered: usize,
}

// Whether all is well where memory is short at a line; and where so many steps stand before the script that the line's own step finds no room kept for it.
fn is_well_at_place<R: AllocGlobal + Threads + Wait + Print + Sync>(
    rt: &R,
    hoard: &mut Hoard,
    ground: &Ground,
    case: &Case<'_>,
    at: &Place<'_>,
    wanting: &mut Wanting,
) -> io::Result<bool> {
    let script = script_of(rt.alloc(), 0, lines_before(at), None)?;
    let cut = run_ample(rt, hoard, ground, script.as_slice())?;
    let more = until_growth(steps_in(cut.audited.as_slice()));
    if !is_well_behind(rt, hoard, ground, case, at, 0, wanting)? {
        return Ok(false);
    }
    if more == 0 {
        return Ok(true);
    }
    is_well_behind(rt, hoard, ground, case, at, more, wanting)
}

// The lines before one.
fn lines_before<'a>(at: &Place<'a>) -> &'a [&'a [u8]] {
    let count = at.place.min(at.lines.len());
    &at.lines[..count]
}

// How many steps an audit counts.
fn steps_in(audited: &[u8]) -> usize {
    let mut count = 0usize;
    for byte in audited {
        if *byte >= b'0' && *byte <= b'9' {
            let digit = usize::from((*byte).saturating_sub(b'0'));
            count = count.saturating_mul(10).saturating_add(digit);
        }
    }
    count
}

// How many steps more have the next one find no room.
fn until_growth(steps: usize) -> usize {
    for room in GROWTHS.iter() {
        if *room >= steps {
            return (*room).saturating_sub(steps);
        }
    }
    0
}

// Whether all is well where memory is short at a line, with so many steps before the script.
fn is_well_behind<R: AllocGlobal + Threads + Wait + Print + Sync>(
    rt: &R,
    hoard: &mut Hoard,
    ground: &Ground,
    case: &Case<'_>,
    at: &Place<'_>,
    steps: usize,
    wanting: &mut Wanting,
) -> io::Result<bool> {
    let alloc = rt.alloc();
    let script = audited(script_of(alloc, steps, at.lines, None)?)?;
    let usual = run_ample(rt, hoard, ground, script.as_slice())?;
    let script = audited(script_of(alloc, steps, at.lines, Some(at.place))?)?;
    let twice = run_ample(rt, hoard, ground, script.as_slice())?;
    let before = script_of(alloc, steps, lines_before(at), None)?;
    let cut = run_ample(rt, hoard, ground, before.as_slice())?;
    let at = Line {
        script: script.as_slice(),
        line: at.line,
        before: at.answered.saturating_add(steps).saturating_add(1),
        usual: &usual,
        twice: &twice,
        cut: &cut,
    };
    is_well_at(rt, hoard, ground, case, &at, wanting)
}

fn run_ample<R: AllocGlobal + Threads + Wait + Sync>(
    rt: &R,
    hoard: &mut Hoard,
    ground: &Ground,
    script: &[u8],
) -> Result<Ran, AllocError> {
    run(rt, hoard, ground, Program::Run, script, Short::Never)
}

// A script with an audit behind it.
fn audited(mut script: Vec<u8>) -> Result<Vec<u8>, AllocError> {
    script.extend_from_slice(b"audit\n")?;
    Ok(script)
}

// Some lines, with so many steps before them and a command that takes no memory; the line at a place twice.
fn script_of(
    alloc: Global,
    steps: usize,
    lines: &[&[u8]],
    twice: Option<usize>,
) -> Result<Vec<u8>, AllocError> {
    let mut script = Vec::new(alloc);
    for _ in 0..steps {
        script.extend_from_slice(b"open filling 0\n")?;
    }
    script.extend_from_slice(b"told 0\n")?;
    for (place, line) in lines.iter().enumerate() {
        script.extend_from_slice(line)?;
        script.push(b'\n')?;
        if twice == Some(place) {
            script.extend_from_slice(line)?;
            script.push(b'\n')?;
        }
    }
    Ok(script)
}

// A line that stands twice in a script, and what comes with ample memory.
#[derive(Clone, Copy)]
struct Line<'a> {
    script: &'a [u8],
    line: &'a [u8],
    // how many lines are printed before it
    before: usize,
    // where it stands once, where it stands twice, and of the lines before it alone
    usual: &'a Ran,
    twice: &'a Ran,
    cut: &'a Ran,
}

// Whether all is well where memory is short at the first of two same lines, from nothing to enough.
fn is_well_at<R: AllocGlobal + Threads + Wait + Print + Sync>(
    rt: &R,
    hoard: &mut Hoard,
    ground: &Ground,
    case: &Case<'_>,
    at: &Line<'_>,
    wanting: &mut Wanting,
) -> io::Result<bool> {
    let mut climb = Climb::new();
    let mut last: Option<Ran> = None;
    for _ in 0..MOST_RUNS {
        let budget = climb.budget();
        let lines = at.before;
        let short = Short::Behind { lines, budget };
        let ran = run(rt, hoard, ground, Program::Run, at.script, short)?;
        let came = came_of(rt.alloc(), at, &ran)?;
        let is_well = match came {
            Some(Came::Wanting) => wanting.add(at.line, ground.is_other_told),
            Some(_) => true,
            None => false,
        };
        if !is_well || budget > MOST_BUDGET {
            return show(rt, case, budget, &ran);
        }
        if last.as_ref().is_some_and(|last| last.is_same(&ran)) {
            climb.rise();
        } else if climb.turn() {
            if let Some(Came::Answer) = came {
                return Ok(true);
            }
            last = Some(ran);
        }
    }
    Ok(false)
}

// What comes of a line while memory is short.
#[derive(Clone, Copy)]
enum Came {
    // its usual answer
    Answer,
    // it found none
    Wanting,
    // the tool found none
    NoMemory,
}

// What came of the first of two same lines; nothing where that is something else, or what came behind it, was called or is left.
fn came_of(alloc: Global, at: &Line<'_>, ran: &Ran) -> Result<Option<Came>, AllocError> {
    if ran.is_same(at.twice) {
        return Ok(Some(Came::Answer));
    }
    let want = want_of(alloc, at.line)?;
    let usual = lines_of(alloc, at.usual.printed.as_slice())?;
    let printed = lines_of(alloc, ran.printed.as_slice())?;
    Ok(came_in(
        at,
        want.as_bytes(),
        usual.as_slice(),
        printed.as_slice(),
        ran,
    ))
}

fn came_in(
    at: &Line<'_>,
    want: &[u8],
    usual: &[&[u8]],
    printed: &[&[u8]],
    ran: &Ran,
) -> Option<Came> {
    let (before, behind) = usual.split_at_checked(at.before)?;
    let (same, rest) = printed.split_at_checked(at.before)?;
    let (came, rest) = rest.split_first()?;
    let (_, calls_usual) = at.usual.calls.as_slice().split_at_checked(at.before)?;
    let (_, calls) = ran.calls.as_slice().split_at_checked(at.before)?;
    let (calls, calls_rest) = calls.split_first()?;
    if same != before || calls.told > 0 {
        return None;
    }
    // what an audit asks is not counted where it is answered
    let most = calls_usual.first()?.asked;
    let is_few = calls.asked <= most || word(at.line, 0) == Some(b"audit");
    if *came == want && rest == behind && calls_rest == calls_usual {
        let is_well = is_few && ran.is_left_alike(at.usual);
        return is_well.then_some(Came::Wanting);
    }
    let is_cut = *came == b"no memory".as_slice() && rest.is_empty() && calls.asked == 0;
    let is_well = is_cut && ran.outcome == Outcome::Memory && ran.is_left_alike(at.cut);
    is_well.then_some(Came::NoMemory)
}
