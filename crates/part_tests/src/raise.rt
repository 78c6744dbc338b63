//! Tests of what a change of ranges, values and grabs raises for file handles, and of what is told of controls. A test is a plan and a table of cases,
//! each with what is wanted, as data.

mod changing;
mod listeners;
mod looks;
mod planning;
mod raising;
mod ranging;
