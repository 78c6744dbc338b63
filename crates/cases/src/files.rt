//! Which files there are.

use crate::case::{Case, Cases};
use std::rt::Files;
use std::{fs, io};

// The files that are read, in this order.
const FILES: &[&str] = &[
    "sample.txt",
    "words.txt",
    "lists.txt",
    "requests.txt",
    "forecasts.txt",
    "audits.txt",
    "events.txt",
    "errors.txt",
    "examples.txt",
    "pairs.txt",
    "wrong.txt",
    "allowed.txt",
    "checks.txt",
    "devices.txt",
    "cameras.txt",
    "handlers.txt",
    "kinds.txt",
    "flags.txt",
    "clusters.txt",
    "limits.txt",
    "crowds.txt",
    "ranges.txt",
    "arrays.txt",
];

/// The texts of the files of cases in the folder that the program runs in, in the order in which their cases come. The error is that one
/// can't be read, or a growth was refused.
pub fn read_files<R: AllocGlobal + Files>(rt: &R) -> io::Result<Vec<String>> {
    let mut texts = Vec::new(rt.alloc());
    for file in FILES {
        texts.push(fs::read_to_string(rt, file)?)?;
    }
    Ok(texts)
}

/// The cases of the files' texts. Where a line doesn't belong there, this is printed, and there are none. The error is that `sample.toml`
/// can't be read, that a growth was refused, or that it can't be printed.
///
/// - `texts`: what `read_files` answered.
pub fn cases_of<'a, R: AllocGlobal + Files + Print>(
    rt: &R,
    texts: &'a [String],
) -> io::Result<Option<Vec<Case<'a>>>> {
    let mut cases = Cases::of_device(rt, "sample.toml")?;
    for (file, text) in FILES.iter().zip(texts) {
        if let Some(number) = cases.read(rt, file, text.as_str())? {
            println!(rt; "{file}, line {number}: not a line of a case")?;
            return Ok(None);
        }
    }
    Ok(Some(cases.all))
}
