//! What is kept while a script is shown.

use crate::wanted::Task;
use ctl_script::{Bindings, ControlWords};
use ctrl_calls::Driver;
use device_file::ClassNames;
use device_state::{Ask, Device};
use range_followers::Follower;
use script_replies::ReplyLine;
use std::alloc::{AllocError, Global};
use view_layout::Ink;

/// What is kept from line to line.
#[derive(Drop)]
pub struct View {
    /// Where a reply line is put together.
    pub line: ReplyLine,
    /// What is done with the script.
    pub task: Task,
    /// With which colours.
    pub ink: Ink,
    /// The words by which the script names the device's controls, and by which they are shown.
    pub known: ControlWords,
    /// The names that the device gives to classes; none where it is the sample device.
    pub classes: Option<ClassNames>,
    /// How the device's ranges follow other controls.
    pub followers: Vec<Follower>,
    /// Whether a range that was refused is still to be asked for.
    pub is_owed: bool,
    /// The device, as it stands behind `a word of`.
    pub device: &'static str,
    /// What the names of the script stand for.
    pub names: Bindings,
    /// How many commands were shown.
    pub commands: u32,
    /// How many of them were refused.
    pub refused: u32,
    /// With how many steps the last table was shown.
    pub shown_at: Option<usize>,
}

impl View {
    /// No line was read. The error is that a growth was refused.
    pub fn new(
        alloc: Global,
        known: ControlWords,
        classes: Option<ClassNames>,
        followers: Vec<Follower>,
        device: &'static str,
        task: Task,
        ink: Ink,
    ) -> Result<View, AllocError> {
        let line = ReplyLine::new(alloc)?;
        Ok(View {
            line,
            task,
            ink,
            known,
            classes,
            followers,
            is_owed: false,
            device,
            names: Bindings::new(alloc),
            commands: 0,
            refused: 0,
            shown_at: None,
        })
    }

    /// Whether nothing of the script is shown, and reasons are told on standard error.
    pub fn is_told(&self) -> bool {
        matches!(self.task, Task::Why | Task::List | Task::Board)
    }

    /// Whether the queue is shown behind an ask that was accepted: behind a row, where no step was taken since it was shown, and where it is wanted behind
    /// what changes the queue, or the values, the grabs and the ranges that it is made of.
    pub fn shows_queue<D: Driver>(&self, device: &Device<D>, ask: &Ask) -> bool {
        let is_wanted = self.task == Task::WithQueue;
        match ask {
            Ask::Forecast { .. } => self.shown_at != Some(device.steps().len()),
            Ask::Queue { .. } | Ask::Begin | Ask::Cancel { .. } | Ask::StreamOff => is_wanted,
            Ask::SetCtrls { request: None, .. } | Ask::Grab { .. } | Ask::ModifyRange { .. } => {
                is_wanted && device.queued_count() > 0
            }
            _ => false,
        }
    }
}
