use thiserror::Error;

/// Why the input was not read.
#[derive(Clone, Copy, Debug, Error)]
pub enum InputFault {
    /// It is longer than an input may be.
    #[error("input too long")]
    TooLong,
    /// The reader failed, or didn't come to an end.
    #[error("read fault")]
    Reader,
    /// A growth was refused.
    #[error("no memory")]
    Memory,
}
