//! A fresh device that comes to stand where another one of the same plan stands, in few steps: its ranges, its values, flags and grabs.
#![tactic(auto)]

mod alike;
mod carrying;
pub mod laws;
mod quiet;

pub use alike::is_alike;
pub use carrying::carry;
pub use quiet::is_quiet;
