//! Tests of the device at the desk, and of two scripts on two threads: a gate that lets each go on only once the other has come as far, a
//! seat that is left out, readers and writers that fail, and many asks at once.

mod courses;
mod desk;
mod gate;
mod many;
mod sample;
mod streams;
