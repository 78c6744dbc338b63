//! Files and standard input, read whole.

ghost use Rattle.std.specs.Prelude.{◌≤◌, vec_len, IfOk};

use ctl_script::{InputFault, read_input};
use std::fs::File;
use std::rt::Files;

/// The script of a file, or of standard input where there is none.
pub fn read_script<R: AllocGlobal + Input + Files + Eprint>(
    rt: &R,
    file: Option<&str>,
) -> Result<Vec<u8>, InputFault>
    ensures { IfOk result (λ text. vec_len text ≤ 1048576) }
{
    match file {
        Some(path) => read_file(rt, path),
        None => read_input(rt.alloc(), &mut rt.reader()),
    }
}

/// What a file has. Why it can't be read is said.
pub fn read_file<R: AllocGlobal + Files + Eprint>(rt: &R, path: &str) -> Result<Vec<u8>, InputFault>
    ensures { IfOk result (λ text. vec_len text ≤ 1048576) }
{
    match File::open(rt, path) {
        Ok(mut opened) => {
            let text = read_input(rt.alloc(), &mut opened);
            if let Err(InputFault::Reader) = text {
                let _ = eprintln!(rt; "ctl_view: {path}: it can't be read");
            }
            text
        }
        Err(error) => {
            let _ = eprintln!(rt; "ctl_view: {path}: {error}");
            Err(InputFault::Reader)
        }
    }
}
