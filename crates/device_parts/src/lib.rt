//! The state that the steps of a history make of a device: its open file handles, its controls, its requests with their queue, and the events of file handles,
//! as one value that an owner holds, changes by the families of steps, and hands on. What a step does to one of these parts stands in a module of its own.
#![tactic(auto)]

mod raising;
mod ranging;
mod requests_and_events;
mod state;
mod with_forecasts;

pub use state::State;
