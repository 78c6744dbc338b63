//! Serves a camera that a device file describes: reads messages from standard input, and writes a reply to each on standard output, until the messages end.
#![tactic(auto)]

mod file;

use crate::file::read_file;
use camera_messages::{Camera, ReplyBuffer, serve};
use file_check::check_file;
use std::io::BufReader;
use std::process::ExitCode;
use std::{env, io};

fn main(rt: HostRuntime) -> ExitCode {
    let words = match env::args(&rt) {
        Ok(words) => words.collect::<Vec<String>>(rt.alloc()),
        Err(error) if error.kind() == io::ErrorKind::OutOfMemory => return no_memory(&rt),
        Err(_) => return usage(&rt),
    };
    let Ok(words) = words else {
        return no_memory(&rt);
    };
    let [_, path] = words.as_slice() else {
        return usage(&rt);
    };
    let Some(text) = read_file(&rt, path.as_str()) else {
        return ExitCode::from(1);
    };
    match Camera::of_file(rt.alloc(), text) {
        Ok(mut camera) => serve_all(&rt, &mut camera),
        Err((text, _)) => refuse(&rt, path.as_str(), text.as_slice()),
    }
}

// Serves until the messages end.
fn serve_all<R: AllocGlobal + Input + Print + Eprint>(rt: &R, camera: &mut Camera) -> ExitCode {
    let reader = BufReader::with_capacity(rt.alloc(), 16_388, rt.reader());
    let (Ok(mut reader), Ok(mut reply)) = (reader, ReplyBuffer::new(rt.alloc())) else {
        return no_memory(rt);
    };
    match serve(camera, &mut reader, &mut io::writer(rt), &mut reply) {
        Ok(()) => ExitCode::from(0),
        Err(fault) => {
            let _ = eprintln!(rt; "ctl_serve: {fault}");
            ExitCode::from(1)
        }
    }
}

// Says each fault of a file that describes no device.
fn refuse<R: AllocGlobal + Eprint>(rt: &R, path: &str, text: &[u8]) -> ExitCode {
    let Ok(report) = check_file(rt.alloc(), text) else {
        return no_memory(rt);
    };
    if report.device.is_some() {
        return no_memory(rt);
    }
    for line in report.lines.as_slice() {
        let _ = eprintln!(rt; "{path}: {line}");
    }
    ExitCode::from(1)
}

fn no_memory(rt: &impl Eprint) -> ExitCode {
    let _ = eprintln!(rt; "ctl_serve: no memory");
    ExitCode::from(1)
}

fn usage(rt: &impl Eprint) -> ExitCode {
    let _ = eprintln!(rt; "usage: ctl_serve DEVICE_FILE");
    ExitCode::from(2)
}
