//! Control events: how file handles subscribe to them, what raises make of those that wait, and what is taken (Linux userspace API, "ioctl
//! VIDIOC_SUBSCRIBE_EVENT, VIDIOC_UNSUBSCRIBE_EVENT", "ioctl VIDIOC_DQEVENT"; Linux driver API, "V4L2 events"). Only a subscription takes memory:
//! that a raise finds its room is proved; that nothing else grows is read off the code, since no clause speaks of an allocator.
#![tactic(auto)]

mod event;
mod events;
pub mod laws;
mod marks;
mod order;
mod queue;

pub use event::{Event, Payload, Subscription, Waiting};
pub use events::Events;
