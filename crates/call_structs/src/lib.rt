//! What is told of controls, items, events and lists in the structs of their calls, and what the entries of a list say.
#![tactic(auto)]

mod entries;
mod told;

pub use entries::{Form, PayloadFault, entry_id, list_size, put_size, put_value, value_at};
pub use told::{is_heading, put_event, put_item, put_query, put_query_ext};
