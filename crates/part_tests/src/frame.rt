//! Tests of media requests and of the queue of frames: calls with their answers, and what is seen between them.
//!
//! `rt try --test --fail-alloc N` refuses the Nth growth: a call that is refused for want of memory leaves all as it was, and the same call
//! then has its answer.

mod calls;
mod runs;
