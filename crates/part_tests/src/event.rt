//! Tests of control events: calls with what a take answers, and what is seen after them.
//!
//! `rt try --test --fail-alloc N` refuses the Nth growth: a subscription that is refused for want of memory leaves all as it was, and the same
//! call then has its answer.

mod calls;
mod runs;
mod scene;
