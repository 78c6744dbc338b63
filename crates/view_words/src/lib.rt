//! A device in words, for people: what its controls, clusters and flags are called, what an ask was answered, why it was refused, and why clusters of queued frames are, and the device listed as
//! `v4l2-ctl` lists one. All is put on a page, which alone takes memory; nothing of a script's run is known here.
#![tactic(auto)]

mod asked;
mod classes;
mod items;
mod limits;
mod listed;
mod listing;
mod refused;
mod reply;
mod why;
mod words;

pub use asked::Asked;
pub use items::put_item;
pub use limits::Explained;
pub use listing::put_listing;
pub use refused::{RefusedClusters, put_refused_cluster, refused_at};
pub use reply::put_reply;
pub use why::{put_check, put_refusal};
pub use words::{put_cluster, word_of};
