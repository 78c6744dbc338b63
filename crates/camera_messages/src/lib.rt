//! A camera that a device file describes, and the messages by which another program asks it: each is read whole, and has one reply.
#![tactic(auto)]

mod answering;
mod camera;
mod lines;
mod message;
mod reply_buffer;
mod serving;
mod told_controls;

pub use camera::Camera;
pub use message::{HEAD, MAX_PAYLOAD, Message, message_of};
pub use reply_buffer::ReplyBuffer;
pub use serving::{ServeFault, serve};
