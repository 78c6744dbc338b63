//! Tests of what clusters and lists of controls make of the values that are asked of a plan. A test is a plan and a table of questions, each
//! with its answer and how many validators and notifiers are called, as data.

mod clusters;
mod common;
mod driver;
mod lists;
