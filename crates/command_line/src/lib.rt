//! What the tool is asked to do by its command line.
#![tactic(auto)]

mod mode;
mod words;

pub use mode::{Mode, ModeFault, mode_of};
pub use words::{WordsFault, words_fault};
