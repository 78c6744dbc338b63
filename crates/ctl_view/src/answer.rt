//! What a line of a script is answered.

ghost use Rattle.std.specs.Prelude.{◌≤◌, length, IfSome};
ghost use Rattle.history_audit.specs.Replay.{IsProgressOf};

use crate::view::View;
use ctl_script::{Binding, ask_of, audit_of};
use ctrl_calls::Driver;
use ctrl_types::{Fault, Refusal};
use device_state::{Ask, Device, Progress, Reply};
use following_ranges::{RangeAsk, handle_and_follow};
use script_lines::{LineFault, read_line};
use script_replies::Audited;
use std::alloc::{AllocError, Global};
use view_words::{RefusedClusters, refused_at};

// The seat at which the commands are asked.
const SEAT: u32 = 0;

/// What a line came to.
#[derive(Drop)]
pub enum Said {
    /// It is skipped.
    Nothing,
    /// An audit was made.
    Audit(Audited),
    /// The device was asked.
    Answer(Answered),
}

/// What the device was asked, with what came of it.
#[derive(Drop)]
pub struct Answered {
    /// What was asked.
    pub ask: Ask,
    /// What it was answered.
    pub answer: Result<Reply, Fault>,
    /// What refused it; none where it was accepted.
    pub refusal: Option<Refusal>,
    /// The clusters that the frame of a begin or of a forecast refuses, each with the reason.
    pub clusters: RefusedClusters,
    /// The ranges that the device asked for by itself.
    pub ranges: Vec<RangeAsk>,
}

/// Asks what a line says, as `run_script` of `ctl_script` does, binds its names, and has ranges follow that do. All that it needs of memory is taken before the device
/// is asked.
///
/// - `made`: what the last audit of the device put aside, if there was one; it is gone on from.
pub fn answer_line<D: Driver>(
    alloc: Global,
    view: &mut View,
    device: &mut Device<D>,
    made: &mut Option<Progress>,
    line: &[u8],
) -> Result<Said, LineFault>
    requires within { length line.now ≤ 1048576 }
    requires made { IfSome made.old (IsProgressOf D.verdict device.old.plan device.old.steps) }
    ensures made { IfSome made.new (IsProgressOf D.verdict device.new.plan device.new.steps) }
{
    let Some(command) = read_line(alloc, &view.known, line)? else {
        return Ok(Said::Nothing);
    };
    let binding = Binding::of(&command);
    if binding.enter(&mut view.names).is_err() {
        return Err(LineFault::Memory);
    }
    let Some(ask) = ask_of(command, &view.names) else {
        return Ok(Said::Audit(audit_of(alloc, device, made)));
    };
    // (behind a begin nothing would tell them any more)
    let Ok(clusters) = refused_by(alloc, device, &ask) else {
        return Err(LineFault::Memory);
    };
    let followers = view.followers.as_slice();
    let Ok((answer, ranges)) = handle_and_follow(
        alloc,
        device,
        followers,
        &mut view.is_owed,
        SEAT,
        &ask,
    ) else {
        return Err(LineFault::Memory);
    };
    let (answer, refusal) = match answer {
        Ok(reply) => (Ok(reply), None),
        Err(refusal) => (Err(ask.fault(refusal)), Some(refusal)),
    };
    binding.bind(&mut view.names, &answer);
    Ok(Said::Answer(Answered {
        ask,
        answer,
        refusal,
        clusters,
        ranges,
    }))
}

// The clusters that the frame refuses which an ask begins or foretells; none of another ask.
fn refused_by<D: Driver>(
    alloc: Global,
    device: &Device<D>,
    ask: &Ask,
) -> Result<RefusedClusters, AllocError> {
    match ask {
        Ask::Begin => refused_at(alloc, device, 0),
        Ask::Forecast { place } => refused_at(alloc, device, *place as usize),
        _ => Ok(Vec::new(alloc)),
    }
}
