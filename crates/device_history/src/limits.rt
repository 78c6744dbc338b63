//! The limits of a device (of this project).

/// How many file handles can be open at a time.
pub const MAX_FILE_HANDLES: usize = 64;

/// How many steps a device keeps.
pub const MAX_STEPS: usize = 1_000_000;
