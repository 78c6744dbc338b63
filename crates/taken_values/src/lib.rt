//! At every moment what is present is what controls take: each value is one of its control's kind, within the range of the moment. So is each that a queued frame will have.
#![tactic(auto)]

pub mod laws;
