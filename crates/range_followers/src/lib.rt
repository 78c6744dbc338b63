//! Ranges that follow other controls, as plain data: which bound of a control is another control's value and a number, and what range the control is wanted to
//! have under some values. So a device's ranges can be described by a file. Nothing here takes memory.
#![tactic(auto)]

mod follower;
mod wanted;

pub use follower::{DefaultSource, Follower, Source};
pub use wanted::{
    can_follow, follower_of, have_moved, range_due, range_wanted, wanted_by, wanted_range,
};
