//! Lists that are read, tried and set, all or nothing.

mod answered;
mod listing;
mod touching;
