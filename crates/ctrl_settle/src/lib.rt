//! Controls and the values that they take: a driver's description, by arguments or by named fields, is checked once, and from then on each value asked
//! for settles to one that the control allows. Nothing here takes memory.
#![tactic(auto)]

mod config;
mod control;
mod fault;
pub mod laws;

pub use config::CtrlConfig;
pub use control::{Ctrl, settle, settle_anew, settle_check, settle_value};
pub use fault::CtrlFault;
