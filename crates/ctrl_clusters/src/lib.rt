//! What clusters make of values that are asked of their members: a row is overwritten, settles in member order, and is judged by the driver's
//! validator; how pairs are laid over values, rows written, and changed clusters notified; which range each control has; and which flags under values and grabs.
//! Only `Controls::of_plan`, `lend_values` and `lend_grabs` of `Controls`, `Ranges::of_plan` and `copy`, `reach`, `first_words`, `default_values`, `no_grabs` and `NewRows::clear_for` take memory.
#![tactic(auto)]

mod auto_clusters;
mod change;
mod changes;
mod controls;
mod following;
mod judging;
pub mod laws;
mod moment;
mod new_row;
mod new_rows;
mod next;
mod notifying;
mod present_flags;
mod ranges;
mod reaching;
mod rising;
mod rows;
mod start;
mod writing;

pub use auto_clusters::{inactive, inactive_with};
pub use change::Change;
pub use changes::{is_among, is_changed};
pub use controls::Controls;
pub use following::{range_at, range_under};
pub use judging::{judge, validated_row};
pub use moment::Moment;
pub use new_row::NewRow;
pub use new_rows::NewRows;
pub use next::Next;
pub use notifying::{first_words, notify_between, notify_cluster};
pub use present_flags::{flags_under, flags_with};
pub use ranges::Ranges;
pub use reaching::reach;
pub use rising::{mark, next_number};
pub use rows::member_value;
pub use start::{default_values, no_grabs};
pub use writing::{present_row, read_row, write_row, write_rows};
