//! Why a line of a script isn't a command.

use crate::case::{Case, Program};
use ctl_script::Outcome;
use ctrl_calls::Driver;
use line_reasons::{Complaint, Names, reason_in_pair, reason_of};
use std::alloc::{AllocError, Global};

/// What came of a case.
#[derive(Drop)]
pub struct Ran {
    /// What it printed.
    pub printed: Vec<u8>,
    /// How it ended.
    pub outcome: Outcome,
    /// Which of its lines isn't a command and why, as people are told it; empty where that isn't found.
    pub why: String,
}

impl Ran {
    /// Whether a line that isn't a command was found, and why, as the case says.
    pub fn is_explained(&self, case: &Case<'_>) -> bool {
        match self.outcome {
            Outcome::BadLine(_) if case.why.is_empty() => !self.why.is_empty(),
            _ => self.why.as_str() == case.why,
        }
    }
}

/// Why a line isn't a command: the one of the case's script that has this number, from 1. Empty where that isn't found.
pub fn why_of<D: Driver>(
    alloc: Global,
    names: &Names<'_, D>,
    case: &Case<'_>,
    number: u32,
) -> Result<String, AllocError> {
    let before = number.saturating_sub(1) as usize;
    let Some(line) = case
        .text
        .as_slice()
        .split(|byte| *byte == b'\n')
        .nth(before)
    else {
        return Ok(String::new(alloc));
    };
    let found = match case.program {
        Program::Pair => reason_in_pair(alloc, names, line)?,
        Program::Run | Program::Board | Program::File | Program::Camera | Program::Check => {
            reason_of(alloc, names, line)?
        }
    };
    let Some(Complaint { word, reason }) = found else {
        return Ok(String::new(alloc));
    };
    let device = if case.device == 0 {
        "the sample device"
    } else {
        "this device"
    };
    let reason = reason.text(device);
    format!(in alloc; "line {number}, word {word}: {reason}")
}
