//! The slow evaluation of a history: what a device that accepted it has, worked out of its steps alone, from the first on.
#![tactic(auto)]

mod auditing;
mod fault;
mod progress;
mod replay;
mod scratch;

pub use auditing::{audit, go_on};
pub use fault::AuditFault;
pub use progress::Progress;
pub use replay::Replay;
pub use scratch::Scratch;
