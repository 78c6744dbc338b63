//! Tests of the run of a script that no file of `cases` can show: readers and writers that fail, the longest input, and a device of a
//! plan of its own; of each reply line on writers that take few bytes or fail; of command lines; of why lines aren't commands; and of
//! words of values that no control takes. But for those of `pair`, the devices have no closures.
#![tactic(auto)]

#[cfg(test)]
mod command_lines;
#[cfg(test)]
mod devices;
#[cfg(test)]
mod lines;
#[cfg(test)]
mod pair;
#[cfg(test)]
mod reasons;
#[cfg(test)]
mod scripts;
#[cfg(test)]
mod streams;
#[cfg(test)]
mod tests;
#[cfg(test)]
mod words;
