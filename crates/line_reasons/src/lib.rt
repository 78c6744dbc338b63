//! Why a line of a script isn't a command, for people: what is said on standard error beside the fault line.
#![tactic(auto)]

mod finding;
mod forms;
mod names;
mod nearest;
mod reason;
mod shown;
mod values;

pub use finding::{reason_in_pair, reason_of};
pub use names::Names;
pub use reason::{Complaint, Reason, ReasonText};
