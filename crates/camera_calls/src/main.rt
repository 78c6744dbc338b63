//! Has recorded messages answered by the cameras of device files, and compares each reply, byte for byte, with the one that is recorded below its message. It prints of each that differs the file, the
//! line and the bytes that came, and of each file why no more messages were read, where they don't end behind one, and how many replies there are. All stand in `data/`, whose file `webcam.txt` begins
//! with the form.
#![tactic(auto)]

mod recorded;

use crate::recorded::Recorded;
use camera_messages::{Camera, ReplyBuffer, serve};
use device_file::explain;
use hex::encode;
use std::io::BufReader;
use std::process::ExitCode;
use std::rt::Files;
use std::{fs, io};

// The device files, and the messages that each is asked.
const RECORDED: &[(&str, &str)] = &[
    ("webcam.toml", "webcam.txt"),
    ("sensor.toml", "sensor.txt"),
    ("array.toml", "array.txt"),
    ("blanking.toml", "blanking.txt"),
    ("kinds.toml", "kinds.txt"),
    ("sensor.toml", "cut.txt"),
    ("sensor.toml", "length.txt"),
    ("sensor.toml", "longest.txt"),
];

// How much is read of the messages at once: less than one of them.
const AT_ONCE: usize = 7;

fn main(rt: HostRuntime) -> io::Result<ExitCode> {
    let mut is_well = true;
    for (device, file) in RECORDED {
        is_well = replay(&rt, device, file)? && is_well;
    }
    Ok(ExitCode::from(if is_well { 0 } else { 1 }))
}

// Whether the messages of a file are answered by the camera of a device file as it says.
fn replay<R: AllocGlobal + Files + Print>(rt: &R, device: &str, file: &str) -> io::Result<bool> {
    let text = fs::read(rt, device)?;
    match Camera::of_file(rt.alloc(), text) {
        Ok(mut camera) => replay_on(rt, &mut camera, file),
        Err((text, fault)) => {
            let why = explain(rt.alloc(), text.as_slice(), &fault)?;
            println!(rt; "{device}: {why}")?;
            Ok(false)
        }
    }
}

fn replay_on<R: AllocGlobal + Files + Print>(
    rt: &R,
    camera: &mut Camera,
    file: &str,
) -> io::Result<bool> {
    let mut recorded = Recorded::new(rt.alloc());
    if !read_file(rt, file, &mut recorded)? {
        println!(rt; "{file}: a line is neither a message nor a reply")?;
        return Ok(false);
    }
    let mut replies = Vec::new(rt.alloc());
    answer(rt, camera, file, recorded.messages.as_slice(), &mut replies)?;
    is_same(rt, file, &recorded, replies.as_slice())
}

fn read_file<R: AllocGlobal + Files>(
    rt: &R,
    file: &str,
    recorded: &mut Recorded,
) -> io::Result<bool> {
    let text = fs::read_to_string(rt, file)?;
    recorded.read(rt.alloc(), text.as_str())
}

// Adds what a camera answers to messages, which come one behind another. Where they don't end behind one of them, it is printed why.
fn answer<R: AllocGlobal + Print>(
    rt: &R,
    camera: &mut Camera,
    file: &str,
    messages: &[u8],
    replies: &mut Vec<u8>,
) -> io::Result<()> {
    let mut reader = BufReader::with_capacity(rt.alloc(), AT_ONCE, messages)?;
    let mut reply = ReplyBuffer::new(rt.alloc())?;
    match serve(camera, &mut reader, replies, &mut reply) {
        Ok(()) => Ok(()),
        Err(fault) => println!(rt; "{file}: {fault}"),
    }
}

// Whether replies are those that are recorded; each that isn't is shown.
fn is_same<R: AllocGlobal + Print>(
    rt: &R,
    file: &str,
    recorded: &Recorded,
    replies: &[u8],
) -> io::Result<bool> {
    let mut rest = replies;
    let mut differing = 0u32;
    for place in recorded.places.as_slice() {
        let (reply, behind) = first_reply(rest);
        if reply != recorded.reply(*place) {
            show(rt, file, place.line, reply)?;
            differing = differing.saturating_add(1);
        }
        rest = behind;
    }
    let count = recorded.places.len();
    println!(rt;
        "{file}: {count} replies, {differing} differ, {} bytes more came",
        rest.len()
    )?;
    Ok(differing == 0 && rest.is_empty())
}

fn show<R: AllocGlobal + Print>(rt: &R, file: &str, line: usize, reply: &[u8]) -> io::Result<()> {
    let came = encode(rt.alloc(), reply)?;
    println!(rt; "{file}:{line}: got {came}")
}

// The first of some replies, and what stands behind it; all, where none is whole.
fn first_reply(replies: &[u8]) -> (&[u8], &[u8]) {
    let length = match replies {
        [a, b, c, d, ..] => u32::from_le_bytes([*a, *b, *c, *d]) as usize,
        _ => replies.len(),
    };
    let end = length.saturating_add(4).min(replies.len());
    (&replies[..end], &replies[end..])
}
