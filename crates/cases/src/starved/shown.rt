//! What is printed of a case of which something else came than is to.

use crate::case::Case;
use crate::starved::run::Ran;
use std::io;

/// Shows what came of a case with so many bytes left, and how often closures were called at its lines. Answers false.
pub fn show<R: AllocGlobal + Print>(
    rt: &R,
    case: &Case<'_>,
    budget: usize,
    ran: &Ran,
) -> io::Result<bool> {
    let printed = String::from_utf8_lossy(rt.alloc(), ran.printed.as_slice())?;
    println!(rt;
        "{}:{}: {}: with {budget} bytes it printed",
        case.file, case.number, case.name
    )?;
    println!(rt; "{printed}")?;
    for (place, calls) in ran.calls.as_slice().iter().enumerate() {
        if calls.asked > 0 || calls.told > 0 {
            println!(rt;
                "at line {place} validators were asked {} times, and notifiers told {} times",
                calls.asked, calls.told
            )?;
        }
    }
    Ok(false)
}
