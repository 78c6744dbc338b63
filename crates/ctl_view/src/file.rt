//! What is done with the device that a file describes.

use crate::input::read_file;
use crate::no_memory;
use crate::tasks::run_on;
use crate::wanted::{Task, Wanted};
use ctl_script::InputFault;
use device_file::{DeviceFile, FileFault, Problem, explain, read_device};
use file_check::check_file;
use std::process::ExitCode;
use std::rt::Files;
use std::sync::Wait;
use std::thread::Threads;
use view_layout::Ink;

/// Does with the device of a file what is wanted. Where the file describes none, that is said on standard error.
pub fn run_file<R: AllocGlobal + Input + Files + Print + Eprint + Threads + Wait + Sync>(
    rt: &R,
    path: &str,
    wanted: Wanted<'_>,
    ink: Ink,
) -> ExitCode {
    let file = match text_of(rt, path) {
        Ok(text) if wanted.task == Task::Check => checked(rt, path, text.as_slice()),
        Ok(text) => device_in(rt, path, text.as_slice()),
        Err(code) => Err(code),
    };
    let DeviceFile {
        plan,
        words,
        followers,
        classes,
    } = match file {
        Ok(file) => file,
        Err(code) => return code,
    };
    if wanted.task == Task::Pair && !followers.is_empty() {
        return unpaired(rt, path);
    }
    run_on(
        rt,
        plan,
        words,
        Some(classes),
        followers,
        "this device",
        wanted,
        ink,
    )
}

// Says that two scripts have no range follow.
fn unpaired(rt: &impl Eprint, path: &str) -> ExitCode {
    let _ = eprintln!(rt;
        "{path}: --pair has no range follow a control, and here some do: run the scripts one by one, or write numbers in place of follows"
    );
    ExitCode::from(1)
}

// The bytes of a file. The error is how the program ends; why is said.
fn text_of<R: AllocGlobal + Files + Print + Eprint>(
    rt: &R,
    path: &str,
) -> Result<Vec<u8>, ExitCode> {
    match read_file(rt, path) {
        Ok(text) => Ok(text),
        Err(InputFault::TooLong) => Err(refused(rt, path, Problem::TooLong)),
        Err(InputFault::Reader) => Err(unread(rt)),
        Err(InputFault::Memory) => Err(no_memory(rt)),
    }
}

// Reads the device of a file, up to its first fault.
fn device_in<R: AllocGlobal + Print + Eprint>(
    rt: &R,
    path: &str,
    text: &[u8],
) -> Result<DeviceFile, ExitCode> {
    match read_device(rt.alloc(), text) {
        Ok(file) => Ok(file),
        Err(fault) => Err(told(rt, path, text, &fault)),
    }
}

// Reads a device file, and says each of its faults, and what it may not mean.
fn checked<R: AllocGlobal + Print + Eprint>(
    rt: &R,
    path: &str,
    text: &[u8],
) -> Result<DeviceFile, ExitCode> {
    let Ok(report) = check_file(rt.alloc(), text) else {
        return Err(no_memory(rt));
    };
    for line in report.lines.as_slice() {
        let _ = eprintln!(rt; "{path}: {line}");
    }
    report.device.ok_or(ExitCode::from(1))
}

// Says why a file describes no device.
fn told<R: AllocGlobal + Print + Eprint>(
    rt: &R,
    path: &str,
    text: &[u8],
    fault: &FileFault,
) -> ExitCode {
    if fault.is_memory() {
        return no_memory(rt);
    }
    match explain(rt.alloc(), text, fault) {
        Ok(why) => {
            let _ = eprintln!(rt; "{path}: {why}");
            ExitCode::from(1)
        }
        Err(_) => no_memory(rt),
    }
}

fn refused(rt: &impl Eprint, path: &str, problem: Problem) -> ExitCode {
    let _ = eprintln!(rt; "{path}: {problem}");
    ExitCode::from(1)
}

fn unread(rt: &impl Print) -> ExitCode {
    let _ = println!(rt; "read fault");
    ExitCode::from(1)
}
