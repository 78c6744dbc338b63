//! What a device is built of: controls, handlers that show them and add others, items of menus, and clusters. A builder takes
//! the driver's calls one by one; the plan that it finishes answers what a handler shows, and none of its calls takes memory.
#![tactic(auto)]

mod builder;
mod cluster;
mod fault;
mod following;
mod handler;
pub mod laws;
mod limits;
mod numbers;
mod outline;
mod plan;
mod reaching;
mod showing;

pub use builder::PlanBuilder;
pub use fault::PlanFault;
pub use limits::{MAX_CONTROLS, MAX_HANDLERS};
pub use menu_items::{MAX_MENU_NAME, MenuItem, MenuName};
pub use plan::Plan;
pub use range_followers::{DefaultSource, Follower, Source};
