//! What is reached from a number by links, on and on: a table that is made once, and then read.
#![tactic(auto)]

pub mod laws;
mod marks;
mod numbers;
mod table;

pub use table::ReachTable;
