//! The structs of the control calls in bytes: where each field stands, and how it is read and written (Linux userspace API, "Function Reference"; the layout is that
//! of a 64-bit little-endian machine).
#![tactic(auto)]

pub mod calls;
mod fields;
pub mod laws;
pub mod layout;

pub use fields::{
    clear, i32_at, i64_at, put, put_i64, put_low, put_name, put_u32, put_u64, u32_at, u64_at,
};
