//! Lists of controls, all or nothing: which entry refuses a list, what its entries are answered, and what it makes of the clusters that
//! it touches. Nothing is changed here, and nobody is told.
#![tactic(auto)]

mod checks;
mod control_list;
pub mod laws;
mod limits;
mod lists;
mod naming;
mod room;
mod rows;
mod touched;
mod view;

pub use control_list::ControlList;
pub use ctrl_clusters::{NewRow, NewRows};
pub use limits::MAX_ENTRIES;
pub use lists::{plan_set, read_list, try_list};
pub use room::Room;
pub use touched::Touched;
pub use view::View;
