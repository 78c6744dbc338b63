use ctl_script::{InputFault, read_input};
use device_file::Problem;
use std::fs::File;
use std::rt::Files;

/// What a file has; none where it can't be read, which is said then.
pub fn read_file<R: AllocGlobal + Files + Eprint>(rt: &R, path: &str) -> Option<Vec<u8>> {
    let mut opened = match File::open(rt, path) {
        Ok(opened) => opened,
        Err(error) => {
            let _ = eprintln!(rt; "ctl_serve: {path}: {error}");
            return None;
        }
    };
    match read_input(rt.alloc(), &mut opened) {
        Ok(text) => Some(text),
        Err(fault) => {
            let _ = match fault {
                InputFault::TooLong => eprintln!(rt; "{path}: {}", Problem::TooLong),
                InputFault::Reader => eprintln!(rt; "ctl_serve: {path}: it can't be read"),
                InputFault::Memory => eprintln!(rt; "ctl_serve: no memory"),
            };
            None
        }
    }
}
