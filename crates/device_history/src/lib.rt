//! The history of a device: what is asked, what is answered, the steps that are accepted, and what they make of file handles,
//! grabs, ranges, values, flags, words, requests, frames, subscriptions and events.
#![tactic(auto)]

mod ask;
mod info;
pub mod laws;
mod limits;
mod lists;
mod pair_list;

pub use ask::{Ask, Reply, Step, refused};
pub use info::CtrlInfo;
pub use limits::{MAX_FILE_HANDLES, MAX_STEPS};
pub use lists::{meant, spoken, state_check, writes_defaults};
pub use pair_list::PairList;
