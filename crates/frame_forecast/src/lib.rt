//! What queued frames will have, where ranges follow: what a frame asks for is laid over what the one before leaves, by the ranges that those values give, and ranges follow
//! it. Of each frame are kept the values that its pairs can move alone, and only what a change reaches is renewed.
#![tactic(auto)]

mod behind;
mod board;
mod ending;
pub mod laws;
mod loading;
mod moving;
mod renewal;
mod room;
mod sparse;

pub use behind::Behind;
pub use board::{Begun, Board, Row};
