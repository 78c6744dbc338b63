//! Why clusters of queued frames will be refused.
#![tactic(auto)]

pub mod laws;
mod refused;

pub use refused::{ClusterReason, frame_reason};
