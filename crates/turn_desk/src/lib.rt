//! The desk: many seats, on any threads, share one object, and all that it accepts stands in one legal history.
#![tactic(auto)]

mod clients;
mod desk;
mod rule;
mod seat;
mod seats;
mod serving;
mod workers;

pub use clients::{Client, Gate, Party, run_client, run_clients};
pub use desk::Desk;
pub use seat::{DeskFault, DeskSeat, MOST_SEATS};
pub use seats::SeatList;
pub use serving::{Remains, serve_both};
pub use workers::{Worker, run_both, run_both_within};
