//! A driver whose closures are data: a limit is what a validator makes of a row of a cluster's values, a word what a notifier says of
//! one. So a device can be described by a file. Nothing here takes memory.
#![tactic(auto)]

mod driver;
mod judging;
mod limit;
mod members;
mod telling;
mod word;

pub use driver::{Data, Judge, Teller, data_calls};
pub use limit::{Excess, Limit};
pub use members::NoMember;
pub use word::Word;
