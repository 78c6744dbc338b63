//! What the kernel calls controls and classes.
#![tactic(auto)]

mod names;

pub use names::{class_name, control_name, heading_name};
