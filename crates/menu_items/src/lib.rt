//! The items of menus: their names and numbers, and at which indices a control takes one.
#![tactic(auto)]

mod item;
mod name;
mod places;

pub use item::MenuItem;
pub use name::{MAX_MENU_NAME, MenuName};
pub use places::{takes_name, takes_number};
