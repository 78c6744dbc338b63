//! A device behind the control calls of V4L2: what a program hands to `ioctl` is read, asked of the device, and the answer is written in its place (Linux userspace API,
//! "Function Reference"). What it is called from (sockets, descriptors, buffers) is no matter of it.
#![tactic(auto)]

mod calls;
mod events;
mod ids;
mod list_calls;
mod lists;
mod one;
mod queries;
mod session;

pub use session::{Names, Session};
