/// What a media request is at the moment (Linux userspace API, "Request API").
#[derive(Clone, Copy, Debug, PartialEq, Eq)]
pub enum RequestState {
    /// It takes settings and a buffer.
    Idle,
    /// It waits for its frame.
    Queued,
    /// Its frame is being made.
    Running,
    /// Its frame is done, or was given up.
    Complete,
}
