//! The driver's part in a cluster of controls: a validator that judges a row of values before it is set, and a
//! notifier that is told the row after a change. A row is worked on as `RowValues`, and a closure is given a `ClusterRow` of it.
//! Nothing here takes memory.
#![tactic(auto)]

mod calls;
mod driver;
mod judging;
mod notifier;
mod relation;
mod row;
mod row_values;
mod telling;
mod validator;
mod verdict;
mod work;

pub use calls::Calls;
pub use driver::{Driver, Notifies, Validates};
pub use judging::Judging;
pub use notifier::{Notifier, tell};
pub use relation::{Relation, Relations};
pub use row::{ClusterRow, MAX_MEMBERS};
pub use row_values::RowValues;
pub use telling::Telling;
pub use validator::{Validator, ask};
pub use verdict::Verdict;
pub use work::Work;
