//! Numbers under ids, kept in rising order of the ids: the number of an id and the next id are looked up by halving.
#![tactic(auto)]

mod index;
mod search;

pub use index::IdIndex;
