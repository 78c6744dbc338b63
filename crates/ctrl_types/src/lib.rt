//! The words of the control interface: ids, kinds, flags, lists, `which` and errors. Nothing here takes memory.
#![tactic(auto)]

mod bytes;
mod changes;
mod check;
mod check_text;
mod errno;
mod flags;
mod ids;
mod kind;
mod pairs;
mod refusal;
mod sub_flags;
mod value;
mod which;

pub use bytes::{ByteRow, MAX_ELEMENTS};
pub use changes::{Changes, EVENT_CTRL};
pub use check::Check;
pub use errno::{Errno, Fault};
pub use flags::Flags;
pub use ids::{CtrlId, ExtControl, FhId, Pair, RequestId};
pub use kind::Kind;
pub use pairs::last_value;
pub use refusal::Refusal;
pub use sub_flags::SubFlags;
pub use value::CtrlValue;
pub use which::Which;
