//! Plans that a builder finishes: a table of the builder's calls, each with its answer, and one of what the plan answers then. Which closures a cluster
//! has, and that those of a refused call are handed back, no contract tells: it knows closures by their relations alone. So each has a number here.

mod building;
mod closures;
mod looks;
mod refusals;
