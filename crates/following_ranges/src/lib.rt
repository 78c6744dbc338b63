//! A device some of whose ranges follow other controls: an ask of it, and the range changes that it asks for by itself behind one that moved a followed value.
#![tactic(auto)]

mod asking;
mod handling;
pub mod laws;

pub use asking::RangeAsk;
pub use handling::handle_and_follow;
pub use range_followers::{DefaultSource, Follower, Source, range_wanted, wanted_range};
