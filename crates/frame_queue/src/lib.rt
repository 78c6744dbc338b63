//! The frames of a stream: media requests that wait in order, the one whose frame is being made, and those that are done (Linux userspace
//! API, "Request API"). `begin`, `complete`, `cancel` and `stream_off` take no memory, and `queue` takes what `reserve` made.
#![tactic(auto)]

mod frames;

pub use frames::Frames;
pub use req_book::{FrameRoom, MAX_REQUESTS, RequestState, Requests};
