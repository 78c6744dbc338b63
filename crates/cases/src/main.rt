//! Runs the scripts of the files in `data/`, each on a fresh device, and compares what they print and how they end with what the files
//! say; of a device file that describes no device, or is checked, it compares what is said. A script that names no device runs on the
//! sample device, and on the device of `sample.toml`. Of each case that differs it prints the lines that do, with their place in the file and
//! their command, what was wanted and what came; and at last it prints how many cases there are. Before that it runs cases out of memory, and
//! prints a line for each; where memory can't be exhausted it says so, and ends with 3. `data/sample.txt` begins with the format of the files.
#![tactic(auto)]

mod case;
mod differing;
mod files;
mod starved;
mod why;

ghost use Rattle.std.specs.Prelude.{◌≡◌, []};

use crate::case::{Case, Program};
use crate::differing::{show_difference, show_why};
use crate::files::{cases_of, read_files};
use crate::starved::starve_cases;
use crate::why::{Ran, why_of};
use ctl_pair::{Gate, Remains, run_pair};
use ctl_script::{ControlWords, Outcome, own_sample_plan, run_board, run_script, sample_words};
use ctrl_calls::Driver;
use device_file::{DeviceFile, explain, read_camera, read_device};
use device_state::Device;
use file_check::check_file;
use hoard::Hoard;
use line_reasons::Names;
use std::alloc::{AllocError, Global};
use std::fmt::Write;
use std::io;
use std::process::ExitCode;
use std::sync::Wait;
use std::thread::Threads;

// Lets each command of two scripts pass at once.
struct OpenGate;

impl Gate for OpenGate {
    fn pass(&self, _seat: u32, _k: u32) {}
}

fn main(rt: HostRuntime) -> io::Result<ExitCode> {
    let texts = read_files(&rt)?;
    let Some(cases) = cases_of(&rt, texts.as_slice())? else {
        return Ok(ExitCode::from(1));
    };
    let mut hoard = Hoard::new(rt.alloc())?;
    if !hoard.is_all() {
        println!(rt; "memory can't be exhausted here")?;
        return Ok(ExitCode::from(3));
    }
    let is_well = starve_cases(&rt, &mut hoard, cases.as_slice())?;
    drop(hoard);
    let known = sample_words(rt.alloc())?;
    let mut differing = 0u32;
    for case in cases.as_slice() {
        let mut is_same = is_same_on_file(&rt, cases.as_slice(), case)?;
        if case.device == 0 && !is_same_on_sample(&rt, &known, case)? {
            is_same = false;
        }
        if !is_same {
            differing = differing.saturating_add(1);
        }
    }
    println!(rt; "{} cases, {differing} differ", cases.len())?;
    Ok(ExitCode::from(if differing == 0 && is_well { 0 } else { 1 }))
}

// Runs a case on the device of its file, and shows it where something else came of it.
fn is_same_on_file<R: AllocGlobal + Threads + Wait + Print + Sync>(
    rt: &R,
    cases: &[Case<'_>],
    case: &Case<'_>,
) -> io::Result<bool> {
    let Some(file) = cases.get(case.device) else {
        return Ok(false);
    };
    let is_camera = matches!(file.program, Program::Camera);
    let ran = run_on_file(rt, file.text.as_slice(), is_camera, case)?;
    is_wanted(rt, file.name, case, &ran)
}

// What a case prints on the device that a file describes, as a camera shows it or without headings, and how it ends; or why the file describes none, or what a check says of it.
fn run_on_file<R: AllocGlobal + Threads + Wait + Sync>(
    rt: &R,
    file: &[u8],
    is_camera: bool,
    case: &Case<'_>,
) -> Result<Ran, AllocError> {
    let alloc = rt.alloc();
    if let Program::Check = case.program {
        return Ok(Ran {
            printed: said_of(alloc, file)?,
            outcome: Outcome::Finished,
            why: String::new(alloc),
        });
    }
    let read = if is_camera {
        read_camera(alloc, file)
    } else {
        read_device(alloc, file)
    };
    match read {
        Ok(read) => run_on_read(rt, read, case),
        Err(fault) => {
            let mut said = Vec::new(alloc);
            said.extend_from_slice(explain(alloc, file, &fault)?.as_bytes())?;
            said.push(b'\n')?;
            Ok(Ran {
                printed: said,
                outcome: Outcome::Finished,
                why: String::new(alloc),
            })
        }
    }
}

// What a case prints on a device that was read; of a camera's file its headings.
fn run_on_read<R: AllocGlobal + Threads + Wait + Sync>(
    rt: &R,
    read: DeviceFile,
    case: &Case<'_>,
) -> Result<Ran, AllocError> {
    let alloc = rt.alloc();
    if let Program::Camera = case.program {
        return Ok(Ran {
            printed: headings_of(alloc, &read)?,
            outcome: Outcome::Finished,
            why: String::new(alloc),
        });
    }
    let Ok(device) = Device::new(alloc, read.plan) else {
        return Err(AllocError);
    };
    run(rt, &read.words, device, case)
}

// A line for each control that has no word: its number, its id, and the name that the file gives to its class.
fn headings_of(alloc: Global, read: &DeviceFile) -> Result<Vec<u8>, AllocError> {
    let mut said = String::new(alloc);
    for (number, ctrl) in read.plan.controls().iter().enumerate() {
        let id = ctrl.id();
        if read.words.word_of(number as u32).is_none() {
            write!(said, "control {number}: 0x{:08x}", id.0)?;
            if let Some(name) = read.classes.name_of(id.class()) {
                write!(said, " {name}")?;
            }
            said.push('\n')?;
        }
    }
    Ok(said.into_bytes())
}

// The lines that a check says of a file, and whether it answers a device though one of them is a fault, or none though each is a warning.
fn said_of(alloc: Global, file: &[u8]) -> Result<Vec<u8>, AllocError> {
    let report = check_file(alloc, file)?;
    let mut said = Vec::new(alloc);
    let mut has_fault = false;
    for line in report.lines.as_slice() {
        has_fault = has_fault || !line.as_str().starts_with("warning: ");
        said.extend_from_slice(line.as_bytes())?;
        said.push(b'\n')?;
    }
    if report.device.is_some() == has_fault {
        said.extend_from_slice(b"a device with a fault, or none without\n")?;
    }
    Ok(said)
}

// Whether a case on the sample device prints what it should.
fn is_same_on_sample<R: AllocGlobal + Threads + Wait + Print + Sync>(
    rt: &R,
    known: &ControlWords,
    case: &Case<'_>,
) -> io::Result<bool> {
    let ran = run_on_sample(rt, known, case)?;
    is_wanted(rt, "the sample device", case, &ran)
}

// What a case prints on the sample device, and how it ends.
fn run_on_sample<R: AllocGlobal + Threads + Wait + Sync>(
    rt: &R,
    known: &ControlWords,
    case: &Case<'_>,
) -> Result<Ran, AllocError> {
    let alloc = rt.alloc();
    let Ok(plan) = own_sample_plan(alloc) else {
        return Err(AllocError);
    };
    let Ok(device) = Device::new(alloc, plan) else {
        return Err(AllocError);
    };
    run(rt, known, device, case)
}

// What a script, or two of them, prints on a fresh device whose controls have these words, and how it ends; nothing of a file.
fn run<D: Driver + Send, R: AllocGlobal + Threads + Wait + Sync>(
    rt: &R,
    known: &ControlWords,
    device: Device<D>,
    case: &Case<'_>,
) -> Result<Ran, AllocError>
where
    D::Judge: Send,
    D::Teller: Send,
    requires { device.steps ≡ [] }
{
    let alloc = rt.alloc();
    let mut printed = Vec::new(alloc);
    let mut reader = case.text.as_slice();
    let (remains, outcome) = match case.program {
        Program::Run => whole(run_script(alloc, known, device, &mut reader, &mut printed)),
        Program::Board => whole(run_board(alloc, known, device, &mut reader, &mut printed)),
        Program::Pair => run_pair(
            rt,
            alloc,
            known,
            device,
            &OpenGate,
            &mut reader,
            &mut printed,
        ),
        Program::File | Program::Camera | Program::Check => (Ok(device), Outcome::Finished),
    };
    let why = match (&remains, outcome) {
        (Ok(device), Outcome::BadLine(number)) => {
            let names = Names {
                known,
                plan: device.plan(),
            };
            why_of(alloc, &names, case, number)?
        }
        _ => String::new(alloc),
    };
    Ok(Ran {
        printed,
        outcome,
        why,
    })
}

// What is left of a run of one script.
fn whole<D: Driver>(ran: (Device<D>, Outcome)) -> (Remains<Device<D>>, Outcome) {
    let (device, outcome) = ran;
    (Ok(device), outcome)
}

// Whether a case printed what it is to print on a device of this name, and ended as it is to end; else it is shown.
fn is_wanted<R: AllocGlobal + Print>(
    rt: &R,
    device: &str,
    case: &Case<'_>,
    ran: &Ran,
) -> io::Result<bool> {
    let Ran {
        printed,
        outcome,
        why,
    } = ran;
    let ended = format!(in rt.alloc(); "{outcome:?}")?;
    let is_same = printed.as_slice() == case.printed.as_slice() && ended.as_str() == case.outcome;
    if is_same && ran.is_explained(case) {
        return Ok(true);
    }
    show_difference(rt, device, case, printed.as_slice(), ended.as_str())?;
    if !ran.is_explained(case) {
        show_why(rt, case, why.as_str())?;
    }
    Ok(false)
}
