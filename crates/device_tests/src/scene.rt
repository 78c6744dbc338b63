//! The sample's plan with closures that count, and scripts that run on a device of it.

use crate::closures::{Counter, Counting};
use ctl_script::{Outcome, array_builder, run_script, sample_builder, sample_words};
use ctrl_calls::Calls;
use ctrl_handlers::{PlanBuilder, PlanFault};
use ctrl_types::{CtrlId, CtrlValue};
use data_driver::{Excess, Limit, Word};
use device_state::{Device, Plan};
use std::alloc::{AllocError, Global};
use std::sync::Arc;
use std::sync::atomic::AtomicU64;

// The gain is at most 200, and lowered to that.
const LOWERED: Limit = Limit::AtMost {
    member: 1,
    most: 200,
    excess: Excess::Lowered,
};

// Red and blue are at most 384 together.
const SUM: Limit = Limit::Sum { most: 384 };

const JOINED: Word = Word::Joined {
    first: 0,
    second: 1,
};

const PRESSED: Word = Word::Constant(1);

const PLUS: Word = Word::Plus {
    member: 0,
    more: 64,
};

/// Counters of the clusters 0 to 3 of the sample: of autogain and gain, of red and blue, of the button, and of brightness.
pub type Counters = [Counter; 4];

/// Zeros. The digit of a cluster is its number and 1.
pub fn counters(alloc: Global) -> Result<Counters, AllocError> {
    let order = Arc::new(alloc, AtomicU64::new(0))?;
    Ok([
        Counter::new(alloc, 1, &order)?,
        Counter::new(alloc, 2, &order)?,
        Counter::new(alloc, 3, &order)?,
        Counter::new(alloc, 4, &order)?,
    ])
}

/// A fresh device of the sample's plan, whose closures count there. The error stands for any fault of the plan, too: a test that meets it
/// fails.
pub fn device(alloc: Global, counters: &Counters) -> Result<Device<Counting>, AllocError> {
    match Device::new(alloc, plan(alloc, counters)?) {
        Ok(device) => Ok(device),
        Err(_) => Err(AllocError),
    }
}

/// A fresh array device, whose control 10 is an array.
pub fn array_device(alloc: Global, counters: &Counters) -> Result<Device<Counting>, AllocError> {
    match Device::new(alloc, array_plan(alloc, counters)?) {
        Ok(device) => Ok(device),
        Err(_) => Err(AllocError),
    }
}

/// The sample's plan, whose closures count there.
pub fn plan(alloc: Global, counters: &Counters) -> Result<Plan<Counting>, AllocError> {
    let [of_gain, of_balance, of_button, of_brightness] = calls(counters)?;
    finished(sample_builder(alloc, of_gain, of_balance, of_button, of_brightness))
}

fn array_plan(alloc: Global, counters: &Counters) -> Result<Plan<Counting>, AllocError> {
    let [of_gain, of_balance, of_button, of_brightness] = calls(counters)?;
    finished(array_builder(alloc, of_gain, of_balance, of_button, of_brightness))
}

fn finished(
    builder: Result<PlanBuilder<Counting>, PlanFault>,
) -> Result<Plan<Counting>, AllocError> {
    let Ok(builder) = builder else {
        return Err(AllocError);
    };
    match builder.finish() {
        Ok(plan) => Ok(plan),
        Err(_) => Err(AllocError),
    }
}

// The closures of the clusters 0 to 3.
fn calls(counters: &Counters) -> Result<[Calls<Counting>; 4], AllocError> {
    let [gain, balance, button, brightness] = counters;
    Ok([
        gain.calls_by(Some(LOWERED), JOINED)?,
        balance.calls_by(Some(SUM), JOINED)?,
        button.calls_by(None, PRESSED)?,
        brightness.calls_by(None, PLUS)?,
    ])
}

/// The device behind a script, each line of which is a command or skipped, and what the script printed. The word `missing` names a control
/// that isn't there.
pub fn behind(
    alloc: Global,
    device: Device<Counting>,
    script: &[u8],
) -> Result<(Device<Counting>, Vec<u8>), AllocError> {
    let mut words = sample_words(alloc)?;
    words.push(alloc, b"missing", CtrlId(0x0098_0999), 10)?;
    let mut reader = script;
    let mut printed = Vec::new(alloc);
    let (device, outcome) = run_script(alloc, &words, device, &mut reader, &mut printed);
    match outcome {
        Outcome::Finished => Ok((device, printed)),
        _ => Err(AllocError),
    }
}

/// The commands of a script, a line `COMMAND -> REPLY` each, and their replies, each with a line feed.
pub fn parts(alloc: Global, text: &str) -> Result<(Vec<u8>, Vec<u8>), AllocError> {
    let mut commands = Vec::new(alloc);
    let mut replies = Vec::new(alloc);
    for line in text.lines() {
        if let Some((command, reply)) = line.split_once(" -> ") {
            commands.extend_from_slice(command.as_bytes())?;
            commands.push(b'\n')?;
            replies.extend_from_slice(reply.as_bytes())?;
            replies.push(b'\n')?;
        }
    }
    Ok((commands, replies))
}

/// How often validators were asked in all.
pub fn asked(counters: &Counters) -> u64 {
    let mut sum = 0u64;
    for counter in counters {
        sum = sum.saturating_add(counter.calls().0);
    }
    sum
}

/// How often notifiers were told in all.
pub fn told(counters: &Counters) -> u64 {
    let mut sum = 0u64;
    for counter in counters {
        sum = sum.saturating_add(counter.calls().1);
    }
    sum
}

/// Whether values are these numbers.
pub fn are(values: &[CtrlValue], numbers: &[i64]) -> bool {
    if values.len() != numbers.len() {
        return false;
    }
    for (place, number) in numbers.iter().enumerate() {
        if values[place] != CtrlValue::Number(*number) {
            return false;
        }
    }
    true
}
