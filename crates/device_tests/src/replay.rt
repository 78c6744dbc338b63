//! Tests of the audit: histories as data, each with the present values that it makes, with the events that wait then, or with the place of the
//! first step that may not follow those before it.

mod cases;
mod driver;
mod events;
mod histories;
