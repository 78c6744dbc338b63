//! Two scripts on one device, each at a seat and on a thread of its own: how an input is divided into them, how each asks its commands,
//! and what is printed at the end.
#![tactic(auto)]

mod client;
mod divide;
mod pair;
mod print;

pub use pair::run_pair;
pub use turn_desk::{Gate, Remains};
