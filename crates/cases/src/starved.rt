//! Scripts that run out of memory: each case that is a script, two scripts or a board is run while the process has so many bytes left, from none to
//! enough. What it prints is what it prints with ample memory, or says that memory was wanting, and then nothing else has come of the
//! command: nobody was told, and what follows is answered, and told, as if it had not been there. Devices are those of files, built with closures that count.
mod at_lines;
mod climb;
mod commands;
mod counting;
mod explained;
mod ground;
mod lines;
mod rebuilt;
mod run;
mod shown;
mod sweep;
mod writer;

pub(crate) use sweep::starve_cases;
