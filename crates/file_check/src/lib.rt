//! What a check of a device file says: its faults, as many as can be told apart, and what it may not mean. docs/DEVICES.md has all the words.
#![tactic(auto)]

mod clusters;
mod controls;
mod draft;
mod lines;
mod part;
mod report;
mod spare;

pub use report::{MAX_FAULTS, Report, check_file};
