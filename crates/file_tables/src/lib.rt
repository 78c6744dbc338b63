//! What a table of a device file says by itself: the values of its keys, the control that it describes, the limit of a cluster and what is told of one; or what is wrong
//! there first. The keys and every refusal stand in docs/DEVICES.md.
#![tactic(auto)]

mod bounds;
mod controls;
mod limits;
mod names;
pub mod reading;

pub use bounds::{Bound, followed, number_at, plus};
pub use controls::{control_in, name_in};
pub use limits::{limit_of, place_of, word_of};
