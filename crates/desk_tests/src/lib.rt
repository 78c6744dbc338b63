//! Tests of the desk through its public calls, over a counter that stands in for the device: seats that meet and desks that are closed,
//! two clients on two threads, a thread that is refused, and memory that runs out.
#![tactic(auto)]

#[cfg(test)]
mod counter;
#[cfg(test)]
mod pairs;
#[cfg(test)]
mod refused;
#[cfg(test)]
mod seats;
#[cfg(test)]
mod short;
