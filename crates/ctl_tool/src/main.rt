//! The control interface of a sample video device, driven by scripts: reads a script on standard input and writes a
//! reply line for each command, or at the end a line for each frame that is queued; or reads two scripts, and answers them on
//! two threads. Why a line isn't a command it says on standard error.
#![tactic(auto)]

mod kept;

use crate::kept::Kept;
use command_line::{Mode, ModeFault, mode_of, words_fault};
use ctl_pair::{Gate, Remains, run_pair};
use ctl_script::{Outcome, Sample, own_sample_plan, run_board, run_script, sample_words};
use ctrl_calls::Driver;
use device_state::{Device, Plan};
use line_reasons::{Complaint, Names, reason_in_pair, reason_of};
use std::io::Read;
use std::process::ExitCode;
use std::sync::Wait;
use std::thread::Threads;
use std::{env, io};

const USAGE: &str = "usage: ctl_tool run | pair | board
  run    answers a script, which is read from standard input: a line for each command
  pair   answers two scripts, divided by a line ==, each on a thread of its own
  board  runs a script, and prints what each queued frame will have";

// Lets each command pass at once.
struct OpenGate;

impl Gate for OpenGate {
    fn pass(&self, _seat: u32, _k: u32) {}
}

fn main(rt: HostRuntime) -> ExitCode {
    let words = match env::args(&rt) {
        Ok(words) => words.collect::<Vec<String>>(rt.alloc()),
        Err(error) if error.kind() == io::ErrorKind::OutOfMemory => return no_memory(&rt),
        Err(_) => {
            let _ = eprintln!(rt; "ctl_tool: a word isn't UTF-8");
            return usage(&rt);
        }
    };
    let Ok(words) = words else {
        return no_memory(&rt);
    };
    let mode = match mode_of(rt.alloc(), words.as_slice()) {
        Ok(mode) => mode,
        Err(ModeFault::Usage) => return wrong_words(&rt, words.as_slice()),
        Err(ModeFault::Memory) => return no_memory(&rt),
    };
    let Ok(plan) = own_sample_plan(rt.alloc()) else {
        return no_memory(&rt);
    };
    run::<Sample, HostRuntime>(&rt, mode, plan)
}

// Runs what standard input gives, as the mode says, on a fresh device of the sample's plan.
fn run<D: Driver + Send, R: AllocGlobal + Input + Print + Eprint + Threads + Wait + Sync>(
    rt: &R,
    mode: Mode,
    plan: Plan<D>,
) -> ExitCode
where
    D::Judge: Send,
    D::Teller: Send,
{
    let Ok(device) = Device::new(rt.alloc(), plan) else {
        return no_memory(rt);
    };
    let Ok(known) = sample_words(rt.alloc()) else {
        return no_memory(rt);
    };
    let mut reader = Kept::new(rt.alloc(), rt.reader());
    let mut writer = io::writer(rt);
    let (remains, outcome) = match mode {
        Mode::Run => whole(run_script(rt.alloc(), &known, device, &mut reader, &mut writer)),
        Mode::Pair => run_pair(
            rt,
            rt.alloc(),
            &known,
            device,
            &OpenGate,
            &mut reader,
            &mut writer,
        ),
        Mode::Board => whole(run_board(rt.alloc(), &known, device, &mut reader, &mut writer)),
    };
    if let (Ok(device), Outcome::BadLine(number)) = (&remains, outcome) {
        let names = Names {
            known: &known,
            plan: device.plan(),
        };
        explain(rt, mode, &names, &reader, number);
    }
    ExitCode::from(outcome.status())
}

// What is left of a run of one script.
fn whole<D: Driver>(ran: (Device<D>, Outcome)) -> (Remains<Device<D>>, Outcome) {
    let (device, outcome) = ran;
    (Ok(device), outcome)
}

// Says why a line isn't a command, as far as there is memory to find it out. Nothing else depends on it.
fn explain<D: Driver, R: AllocGlobal + Eprint, I: Read>(
    rt: &R,
    mode: Mode,
    names: &Names<'_, D>,
    reader: &Kept<I>,
    number: u32,
) {
    let Some(line) = reader.line(number) else {
        return;
    };
    let found = match mode {
        Mode::Pair => reason_in_pair(rt.alloc(), names, line),
        Mode::Run | Mode::Board => reason_of(rt.alloc(), names, line),
    };
    if let Ok(Some(Complaint { word, reason })) = found {
        let reason = reason.text("the sample device");
        let _ = eprintln!(rt; "line {number}, word {word}: {reason}");
    }
}

// Says that a growth of the tool's own was refused. Where that can't be written, the status says it.
fn no_memory(rt: &impl Print) -> ExitCode {
    let _ = println!(rt; "no memory");
    ExitCode::from(1)
}

// Says what is wrong with the words of a command line.
fn wrong_words(rt: &impl Eprint, words: &[String]) -> ExitCode {
    if let Some((place, fault)) = words_fault(words) {
        let _ = match words.get(place) {
            Some(word) => {
                let word = word.as_str();
                eprintln!(rt; "ctl_tool: {word:?}: {fault}")
            }
            None => eprintln!(rt; "ctl_tool: {fault}"),
        };
    }
    usage(rt)
}

// Says which words there are.
fn usage(rt: &impl Eprint) -> ExitCode {
    let _ = eprintln!(rt; "{USAGE}");
    ExitCode::from(2)
}
