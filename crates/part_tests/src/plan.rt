//! Tests of what a device is built of: the words of the interface, controls and the values that they take, a driver's closures, limits and
//! words as data, items of menus, and plans.

mod arrays;
mod calls;
mod data;
mod items;
mod plans;
mod settling;
mod types;
