//! A case is run, and what it left is looked at.

use crate::case::Program;
use crate::starved::counting::{Counting, Counts};
use crate::starved::ground::Ground;
use crate::starved::rebuilt::rebuilt;
use crate::starved::writer::{Kept, Short};
use ctl_pair::{Gate, Remains, run_pair};
use ctl_script::{Outcome, run_board, run_script};
use ctrl_calls::Work;
use device_state::Device;
use hoard::Hoard;
use script_lines::ControlWords;
use std::alloc::{AllocError, Global};
use std::sync::Wait;
use std::thread::Threads;

/// What came of a run.
#[derive(Drop)]
pub struct Ran {
    /// What it printed.
    pub printed: Vec<u8>,
    /// How it ended.
    pub outcome: Outcome,
    /// How often closures were called at each line that a script printed, but for validators at an audit; nothing of a board, which prints behind all commands, and of two scripts,
    /// whose commands have no order.
    pub calls: Vec<Work>,
    /// What an audit prints of the device behind it, with ample memory; nothing where none came back.
    pub audited: Vec<u8>,
    /// What a board prints of it.
    pub board: Vec<u8>,
}

impl Ran {
    /// Whether the same came of both.
    pub fn is_same(&self, other: &Ran) -> bool {
        self.printed.as_slice() == other.printed.as_slice()
            && self.calls.as_slice() == other.calls.as_slice()
            && self.is_left_alike(other)
            && self.outcome == other.outcome
    }

    /// Whether both left the same.
    pub fn is_left_alike(&self, other: &Ran) -> bool {
        self.audited.as_slice() == other.audited.as_slice()
            && self.board.as_slice() == other.board.as_slice()
    }
}

// Lets each command of two scripts pass at once.
struct OpenGate;

impl Gate for OpenGate {
    fn pass(&self, _seat: u32, _k: u32) {}
}

/// Runs a script, a board or two scripts on a fresh device. The error is that a growth was refused which isn't to be.
pub fn run<R: AllocGlobal + Threads + Wait + Sync>(
    rt: &R,
    hoard: &mut Hoard,
    ground: &Ground,
    program: Program,
    text: &[u8],
    short: Short,
) -> Result<Ran, AllocError> {
    let ran = run_fresh(rt, hoard, ground, program, text, short);
    if let Short::Threads(_) = short {
        hoard.leave_pages(0);
    }
    ran
}

fn run_fresh<R: AllocGlobal + Threads + Wait + Sync>(
    rt: &R,
    hoard: &mut Hoard,
    ground: &Ground,
    program: Program,
    text: &[u8],
    short: Short,
) -> Result<Ran, AllocError> {
    let alloc = rt.alloc();
    let counts = Counts::new(alloc)?;
    let Ok(device) = Device::new(alloc, rebuilt(alloc, &ground.plan, &counts)?) else {
        return Err(AllocError);
    };
    let known = &ground.words;
    let mut writer = Kept::new(alloc, hoard, &counts, short)?;
    let mut reader = text;
    let (remains, outcome) = match program {
        Program::Run => whole(run_script(alloc, known, device, &mut reader, &mut writer)),
        Program::Board => whole(run_board(alloc, known, device, &mut reader, &mut writer)),
        Program::Pair => run_pair(
            rt,
            alloc,
            known,
            device,
            &OpenGate,
            &mut reader,
            &mut writer,
        ),
        Program::File | Program::Camera | Program::Check => (Ok(device), Outcome::Finished),
    };
    let (printed, mut calls) = writer.end();
    if !matches!(program, Program::Run) {
        calls.clear();
    }
    let mut ran = Ran {
        printed,
        outcome,
        calls,
        audited: Vec::new(alloc),
        board: Vec::new(alloc),
    };
    if let Ok(device) = remains {
        look_at(alloc, known, device, &mut ran);
    }
    Ok(ran)
}

// What is left of a run of one script.
fn whole(ran: (Device<Counting>, Outcome)) -> (Remains<Device<Counting>>, Outcome) {
    let (device, outcome) = ran;
    (Ok(device), outcome)
}

// Prints what an audit and a board say of a device.
fn look_at(alloc: Global, known: &ControlWords, device: Device<Counting>, ran: &mut Ran) {
    let mut reader: &[u8] = b"audit\n";
    let (device, _) = run_script(alloc, known, device, &mut reader, &mut ran.audited);
    let mut reader: &[u8] = b"";
    let _ = run_board(alloc, known, device, &mut reader, &mut ran.board);
}
