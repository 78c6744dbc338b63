//! What pairs make of a device's values, whoever lays them: a begin lays those of its request over the present ones, a forecast those of each
//! queued request over what the one before left. Forecasts are kept while their frames wait, and only what a change touches is renewed.
#![tactic(auto)]

mod applying;
mod board;
mod frame;
pub mod laws;
mod laying;
mod lists;
mod renewing;
mod rising;

pub use applying::applied;
pub use board::{Board, Forecast, Row};
pub use frame::Queued;
pub use laying::{Overlaid, is_touched, overlay, row_after};
pub use lists::{ClusterList, ValueRow};
pub use rising::named_clusters;
