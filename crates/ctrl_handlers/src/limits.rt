//! The limits of a plan (of this project).

/// How many handlers a plan has at most.
pub const MAX_HANDLERS: u32 = 16;

/// How many controls a plan has at most.
pub const MAX_CONTROLS: u32 = 256;
