//! What differs of a case, for people.

use crate::case::Case;
use std::io;

// So many lines of a case are shown, and how many more differ is said.
const MOST: u32 = 8;

/// Shows of a case each line that it printed otherwise than it is to, with its place in the file of cases and the command that it answers; and how
/// it ended, where that differs. The error is that a growth was refused, or that it can't be printed.
///
/// - `device`: what it ran on, in words.
/// - `printed`: what it printed.
/// - `ended`: how it ended, as `Outcome` shows itself for debugging.
pub fn show_difference<R: AllocGlobal + Print>(
    rt: &R,
    device: &str,
    case: &Case<'_>,
    printed: &[u8],
    ended: &str,
) -> io::Result<()> {
    println!(rt; "{} ({device})", case.name)?;
    let wanted = String::from_utf8_lossy(rt.alloc(), case.printed.as_slice())?;
    let printed = String::from_utf8_lossy(rt.alloc(), printed)?;
    show_lines(rt, case, wanted.as_str(), printed.as_str())?;
    if ended != case.outcome {
        println!(rt; "{}:{}: how it ends", case.file, case.number)?;
        println!(rt; "  wanted {}", case.outcome)?;
        println!(rt; "  got    {ended}")?;
    }
    Ok(())
}

/// Shows why a line of a case is no command, where something else is said of it than the case has. The error is as above.
///
/// - `why`: what is said, with its line; empty where nothing is.
pub fn show_why<R: AllocGlobal + Print>(rt: &R, case: &Case<'_>, why: &str) -> io::Result<()> {
    println!(rt; "{}:{}: why a line is no command", case.file, case.number)?;
    println!(rt; "  wanted {}", case.why)?;
    println!(rt; "  got    {why}")
}

// Shows which lines differ; where none does, it is a byte that can't be seen.
fn show_lines<R: AllocGlobal + Print>(
    rt: &R,
    case: &Case<'_>,
    wanted: &str,
    printed: &str,
) -> io::Result<()> {
    let wanted: Vec<&str> = wanted.lines().collect(rt.alloc())?;
    let printed: Vec<&str> = printed.lines().collect(rt.alloc())?;
    let mut differing = 0u32;
    for place in 0..wanted.len().max(printed.len()) {
        let (wanted, printed) = (wanted.get(place), printed.get(place));
        if wanted == printed {
            continue;
        }
        differing = differing.saturating_add(1);
        if differing <= MOST {
            show_place(rt, case, place)?;
            println!(rt; "  wanted {}", text_of(wanted))?;
            println!(rt; "  got    {}", text_of(printed))?;
        }
    }
    if differing > MOST {
        println!(rt; "  and {} lines more", differing - MOST)?;
    }
    Ok(())
}

fn text_of<'a>(line: Option<&&'a str>) -> &'a str {
    match line {
        Some(line) => *line,
        None => "no line",
    }
}

// Shows where the line at a place of what is printed is said, and which command it answers.
fn show_place<R: AllocGlobal + Print>(rt: &R, case: &Case<'_>, place: usize) -> io::Result<()> {
    match case.replies.get(place) {
        Some(reply) => println!(rt; "{}:{}: {}", case.file, reply.number, reply.command),
        None => println!(rt; "{}:{}: behind all of its lines", case.file, case.number),
    }
}
