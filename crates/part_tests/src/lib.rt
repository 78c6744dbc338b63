//! Tests of the parts that a device is made of, each on its own: what a plan is built of, clusters and lists, forecasts that are kept, requests and the
//! queue of frames, control events, and what a change of values raises. A test is a loop over a table.
#![tactic(auto)]

#[cfg(test)]
mod cluster;
#[cfg(test)]
mod event;
#[cfg(test)]
mod forecast;
#[cfg(test)]
mod frame;
#[cfg(test)]
mod plan;
#[cfg(test)]
mod raise;
#[cfg(test)]
mod values;
