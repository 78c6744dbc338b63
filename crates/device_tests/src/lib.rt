//! Tests of the device that no script with its replies can show: how often closures are called, each by a count of its own, and in which order; a device with as many
//! steps as are kept; what a driver's readers tell; what sets answer whose validators answer what clusters can't take; with which other devices an audit agrees; and, in `replay`, what an audit makes of histories
//! that no device has.
#![tactic(auto)]

#[cfg(test)]
mod arrays;
#[cfg(test)]
mod audits;
#[cfg(test)]
mod closures;
#[cfg(test)]
mod counts;
#[cfg(test)]
mod data;
#[cfg(test)]
mod following;
#[cfg(test)]
mod limits;
#[cfg(test)]
mod order;
#[cfg(test)]
mod readers;
#[cfg(test)]
mod replay;
#[cfg(test)]
mod scene;
#[cfg(test)]
mod short;
#[cfg(test)]
mod verdicts;
