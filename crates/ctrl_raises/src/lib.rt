//! What a change of ranges, values and grabs raises for the file handles that are subscribed to the events of controls (Linux userspace API, "ioctl
//! VIDIOC_DQEVENT"): of all controls, or of those of some clusters, where two moments are at hand, or of the one cluster of a control that got another range.
//! Nothing here takes memory.
#![tactic(auto)]

pub mod laws;
mod payloads;
mod raising;
mod raising_within;
mod range_raising;

pub use payloads::{initial_changes, payload_at};
pub use raising::raise_between;
pub use raising_within::raise_within;
pub use range_raising::raise_range;
