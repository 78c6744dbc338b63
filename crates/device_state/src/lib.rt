//! The device: its plan, its present state, and the history of the steps that it accepted.
#![tactic(auto)]

mod device;
pub mod laws;
mod serve;

pub use ctrl_forecast::{ClusterList, Forecast, ValueRow};
pub use ctrl_handlers::{
    MAX_CONTROLS, MAX_HANDLERS, MAX_MENU_NAME, MenuItem, MenuName, Plan, PlanBuilder, PlanFault,
};
pub use ctrl_lists::{ControlList, MAX_ENTRIES, View};
pub use device::Device;
pub use device_history::{Ask, CtrlInfo, MAX_FILE_HANDLES, MAX_STEPS, PairList, Reply, Step};
pub use frame_queue::RequestState;
pub use history::Entry;
pub use history_audit::{AuditFault, Progress, Scratch, audit, go_on};
