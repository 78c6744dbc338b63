//! Tests of the device at the desk: at its limits and while memory is short, with callers on two threads.
#![tactic(auto)]

#[cfg(test)]
mod acts;
#[cfg(test)]
mod asks;
#[cfg(test)]
mod devices;
#[cfg(test)]
mod front;
#[cfg(test)]
mod limits;
#[cfg(test)]
mod pairs;
#[cfg(test)]
mod read_back;
