//! What is wrong with lines that aren't commands, as far as no file of `cases` shows it: what can't be seen, words that are long, and a device without words.
//! The rest stands in `wrong.txt` there.

use crate::devices::sample;
use ctl_script::{ControlWords, sample_words};
use ctrl_calls::Driver;
use line_reasons::{Complaint, Names, reason_in_pair, reason_of};
use script_lines::VERB_WORDS;
use std::alloc::{AllocError, Global};

// Lines with what is said of them.
const WRONG: &[(&[u8], &str)] = &[
    (
        b"begin\r",
        "1: \"begin\\r\": a carriage return at the end of the line; lines end with a line feed alone",
    ),
    (
        b"\r",
        "1: \"\\r\": a carriage return at the end of the line; lines end with a line feed alone",
    ),
    (
        b"open f\t1",
        "2: \"f\\t1\": a tab; words are separated by spaces",
    ),
    (
        b"\xef\xbb\xbfopen f 1",
        "1: \"\\u{feff}open\": a byte order mark before it; save the script without one",
    ),
    (
        b"close \x1b[2J",
        "2: \"\\u{1b}[2J\": a file handle's name belongs here, of ASCII letters and digits",
    ),
    (
        b"close \xff\"",
        "2: \"\\xff\\\"\": a file handle's name belongs here, of ASCII letters and digits",
    ),
    (
        b"audit aaaaaaaaaabbbbbbbbbbccccccccccddddddddddd",
        "2: \"aaaaaaaaaabbbbbbbbbbccccccccccdddddddddd\"..: a word too many; the command is: audit",
    ),
    (
        b"audit \xffaaaaaaaaabbbbbbbbbbccccccccccddddddddddd",
        "2: \"\\xffaaaaaaaaabbbbbbbbbbccccccccccdddddddddd\"..: a word too many; the command is: audit",
    ),
];

// Lines with which nothing is wrong.
const RIGHT: &[&str] = &[
    "",
    "  ",
    "# open\r",
    "open f 1",
    "get f cur",
    "set f req:r gain=-9223372036854775808",
    "sub f gain initial feedback",
    "menu f power 1",
    "range gain -9223372036854775808 -0 18446744073709551615 7",
    "range gain 0 255 00000000000000000001 16",
    "audit",
];

// Lines of one of two scripts with what is said of them; nothing where it is empty.
const IN_PAIR: &[(&str, &str)] = &[
    (
        "==",
        "1: \"==\": a second one; pair takes two scripts, which are divided once",
    ),
    (
        "audit",
        "1: \"audit\": no command of two scripts; pair audits at the end by itself",
    ),
    (
        "take",
        "2: missing: a file handle's name; the command is: take FH",
    ),
    ("begin", ""),
];

// What is found, as it is said behind the number of the line; empty where nothing is.
fn said(alloc: Global, found: Option<Complaint<'_>>) -> Result<String, AllocError> {
    let Some(Complaint { word, reason }) = found else {
        return Ok(String::new(alloc));
    };
    let reason = reason.text("the sample device");
    format!(in alloc; "{word}: {reason}")
}

// What is said of a line on a device whose controls have these words.
fn said_of<D: Driver>(
    alloc: Global,
    names: &Names<'_, D>,
    line: &[u8],
) -> Result<String, AllocError> {
    said(alloc, reason_of(alloc, names, line)?)
}

#[test]
fn wrong_lines(rt: HostRuntime) -> Result<(), AllocError> {
    let device = sample(rt.alloc())?;
    let known = sample_words(rt.alloc())?;
    let names = Names {
        known: &known,
        plan: device.plan(),
    };
    for &(line, wanted) in WRONG {
        let found = said_of(rt.alloc(), &names, line)?;
        assert!(rt; found.as_str() == wanted, "{found}");
    }
    for line in RIGHT {
        let found = said_of(rt.alloc(), &names, line.as_bytes())?;
        assert!(rt; found.is_empty(), "{line:?}: {found}");
    }
    Ok(())
}

#[test]
fn lines_of_a_pair(rt: HostRuntime) -> Result<(), AllocError> {
    let device = sample(rt.alloc())?;
    let known = sample_words(rt.alloc())?;
    let names = Names {
        known: &known,
        plan: device.plan(),
    };
    for &(line, wanted) in IN_PAIR {
        let found = reason_in_pair(rt.alloc(), &names, line.as_bytes())?;
        let found = said(rt.alloc(), found)?;
        assert!(rt; found.as_str() == wanted, "{found}");
    }
    Ok(())
}

// Where controls have no words, no word of them is near.
#[test]
fn no_words(rt: HostRuntime) -> Result<(), AllocError> {
    let device = sample(rt.alloc())?;
    let known = ControlWords::new(rt.alloc());
    let names = Names {
        known: &known,
        plan: device.plan(),
    };
    let found = said_of(rt.alloc(), &names, b"query f gain")?;
    let wanted = "3: \"gain\": no word of the sample device, whose words are none";
    assert!(rt; found.as_str() == wanted, "{found}");
    Ok(())
}

// The first word of each command, alone: it lacks the words behind it, where there are any.
#[test]
fn first_words(rt: HostRuntime) -> Result<(), AllocError> {
    let device = sample(rt.alloc())?;
    let known = sample_words(rt.alloc())?;
    let names = Names {
        known: &known,
        plan: device.plan(),
    };
    for verb in VERB_WORDS {
        let found = said_of(rt.alloc(), &names, verb)?;
        let is_alone = found.is_empty() || found.as_str().starts_with("2: missing: ");
        assert!(rt; is_alone, "{found}");
    }
    Ok(())
}
