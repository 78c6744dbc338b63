//! The ids of controls by the names that the kernel has for them, in linux/v4l2-controls.h.
#![tactic(auto)]

mod lookup;
mod table;

pub use lookup::{id_named, rows};
