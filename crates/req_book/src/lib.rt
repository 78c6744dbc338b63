//! Media requests: what each asks for, the buffer that it holds, its state, and what a frame with it had (Linux userspace API,
//! "Request API"). Nothing here speaks of a queue or of a history.
#![tactic(auto)]

pub mod laws;
mod limits;
mod object;
mod objects;
mod requests;
mod room;
mod settings;
mod state;

pub use limits::MAX_REQUESTS;
pub use requests::Requests;
pub use room::FrameRoom;
pub use state::RequestState;
