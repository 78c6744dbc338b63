//! What clusters make of pairs and rows, at the values of a plan.

mod arrays;
mod changed;
mod following;
mod judged;
mod lending;
mod looks;
mod planning;
mod rows;
