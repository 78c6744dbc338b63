//! The reply lines of a script, and how a line is written at once.
#![tactic(auto)]

mod audited;
mod hexadecimal;
mod outcome;
mod reply;
mod reply_line;
mod room;

pub use audited::Audited;
pub use outcome::Outcome;
pub use reply_line::{
    write_accepted, write_answer, write_audit, write_no_frames, write_no_memory,
    write_numbered_answer, write_outcome,
};
pub use room::{MAX_LINE, ReplyLine};
