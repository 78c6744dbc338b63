//! A script on a device as a person reads it: each command beside its reply, why it was refused, and what the queued frames will have as a table. The device
//! is the sample device, or one that a file describes; it can be listed, too, and run boards and two scripts at once.
#![tactic(auto)]

mod answer;
mod complaint;
mod file;
mod follow;
mod frame;
mod help;
mod input;
mod script;
mod shown;
mod table;
mod tasks;
mod told;
mod view;
mod wanted;

use crate::complaint::Complaint;
use crate::file::run_file;
use crate::help::{HELP, USAGE, VERSION};
use crate::tasks::run_on;
use crate::wanted::Wanted;
use ctl_script::{own_sample_plan, sample_words};
use std::env::VarError;
use std::io::IsTerminal;
use std::process::ExitCode;
use std::rt::{Env, Files};
use std::sync::Wait;
use std::thread::Threads;
use std::{env, io};
use view_layout::Ink;

fn main(rt: HostRuntime) -> ExitCode {
    let words = match env::args(&rt) {
        Ok(words) => words.collect::<Vec<String>>(rt.alloc()),
        Err(error) if error.kind() == io::ErrorKind::OutOfMemory => return no_memory(&rt),
        Err(_) => return usage(&rt, Complaint::NotText),
    };
    let Ok(words) = words else {
        return no_memory(&rt);
    };
    if is_among(words.as_slice(), "--help") || is_among(words.as_slice(), "-h") {
        return say(&rt, HELP);
    }
    if is_among(words.as_slice(), "--version") {
        return say(&rt, VERSION);
    }
    let wanted = match Wanted::read(words.as_slice()) {
        Ok(wanted) => wanted,
        Err(complaint) => return usage(&rt, complaint),
    };
    let ink = Ink::new(rt.stdout().is_terminal() && !is_plain(&rt));
    if let Some(path) = wanted.device {
        return run_file(&rt, path, wanted, ink);
    }
    run_on_sample(&rt, wanted, ink)
}

// Whether a word stands behind the first.
fn is_among(words: &[String], word: &str) -> bool {
    words.iter().skip(1).any(|it| it.as_str() == word)
}

// Whether the environment asks for text without colours, by NO_COLOR.
fn is_plain<R: AllocGlobal + Env>(rt: &R) -> bool {
    match env::var(rt, "NO_COLOR") {
        Ok(text) => !text.is_empty(),
        Err(VarError::NotPresent) => false,
        Err(_) => true,
    }
}

// Does what is wanted on a fresh sample device.
fn run_on_sample<R: AllocGlobal + Input + Files + Print + Eprint + Threads + Wait + Sync>(
    rt: &R,
    wanted: Wanted<'_>,
    ink: Ink,
) -> ExitCode {
    let Ok(plan) = own_sample_plan(rt.alloc()) else {
        return no_memory(rt);
    };
    match sample_words(rt.alloc()) {
        Ok(known) => {
            let none = Vec::new(rt.alloc());
            run_on(
                rt,
                plan,
                known,
                None,
                none,
                "the sample device",
                wanted,
                ink,
            )
        }
        Err(_) => no_memory(rt),
    }
}

// Says that a growth of the program's own was refused. Where that can't be written, the status says it.
fn no_memory(rt: &impl Print) -> ExitCode {
    let _ = println!(rt; "no memory");
    ExitCode::from(1)
}

// Prints a text that was asked for.
fn say(rt: &impl Print, text: &str) -> ExitCode {
    match print!(rt; "{text}") {
        Ok(()) => ExitCode::from(0),
        Err(_) => ExitCode::from(1),
    }
}

// Says what is wrong with the command line.
fn usage(rt: &impl Eprint, complaint: Complaint<'_>) -> ExitCode {
    let _ = eprintln!(rt; "ctl_view: {complaint}\n{USAGE}; --help says more");
    ExitCode::from(2)
}
