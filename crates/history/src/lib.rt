//! The history of accepted steps, and what is served to many seats.
#![tactic(auto)]

mod entry;
mod served;

pub use entry::Entry;
pub use served::Served;
