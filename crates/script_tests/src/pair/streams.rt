//! Two scripts on readers and writers that fail.

use crate::devices::sample;
use crate::pair::gate::SCRIPTS;
use crate::pair::sample::NoGate;
use ctl_pair::run_pair;
use ctl_script::{Outcome, sample_words};
use std::alloc::{AllocError, Global};
use std::io;
use std::io::{ErrorKind, Read, Write};
use std::sync::Wait;
use std::thread::Threads;

// Gives a text, at most 16 bytes a read; behind it a read fails, where it is to.
#[derive(Drop)]
struct Source<'a> {
    text: &'a [u8],
    fails: bool,
}

impl Read for Source<'_> {
    fn read(&mut self, buf: &mut [u8]) -> io::Result<usize> {
        if self.fails && self.text.is_empty() {
            return Err(io::Error::from(ErrorKind::Other));
        }
        let count = self.text.len().min(buf.len()).min(16);
        let (given, rest) = self.text.split_at(count);
        buf[..count].copy_from_slice(given);
        self.text = rest;
        Ok(count)
    }
}

// Takes so many bytes, and then fails.
#[derive(Drop)]
struct Sink {
    bytes: Vec<u8>,
    room: usize,
}

impl Write for Sink {
    fn write(&mut self, buf: &[u8]) -> io::Result<usize> {
        let count = self.room.min(buf.len());
        if count == 0 {
            return Err(io::Error::from(ErrorKind::Other));
        }
        self.bytes.extend_from_slice(&buf[..count])?;
        self.room -= count;
        Ok(count)
    }

    fn flush(&mut self) -> io::Result<()> {
        Ok(())
    }
}

// An input, whether its reader fails, and how much the writer takes; what is printed then, how it ends, and how many steps there are.
#[derive(Drop)]
struct Course<'a> {
    input: &'a [u8],
    fails: bool,
    room: usize,
    printed: &'a [u8],
    outcome: Outcome,
    steps: usize,
}

const COURSES: [Course<'static>; 5] = [
    Course {
        input: SCRIPTS,
        fails: true,
        room: 100,
        printed: b"read fault\n",
        outcome: Outcome::ReadFault,
        steps: 0,
    },
    Course {
        input: SCRIPTS,
        fails: false,
        room: 0,
        printed: b"",
        outcome: Outcome::WriteFault,
        steps: 4,
    },
    Course {
        input: SCRIPTS,
        fails: false,
        room: 7,
        printed: b"0 ok\n0 ",
        outcome: Outcome::WriteFault,
        steps: 4,
    },
    Course {
        input: b"open f 1\n==\nopen f\n",
        fails: false,
        room: 100,
        printed: b"line 3: not a command\n",
        outcome: Outcome::BadLine(3),
        steps: 0,
    },
    Course {
        input: b"open f 1\n==\nopen f\n",
        fails: false,
        room: 0,
        printed: b"",
        outcome: Outcome::WriteFault,
        steps: 0,
    },
];

fn goes<R: Threads + Wait + Sync>(
    rt: &R,
    alloc: Global,
    course: &Course<'_>,
) -> Result<bool, AllocError> {
    let mut reader = Source {
        text: course.input,
        fails: course.fails,
    };
    let mut writer = Sink {
        bytes: Vec::new(alloc),
        room: course.room,
    };
    let known = sample_words(alloc)?;
    let device = sample(alloc)?;
    let (left, outcome) = run_pair(rt, alloc, &known, device, &NoGate, &mut reader, &mut writer);
    let Ok(device) = left else {
        return Err(AllocError);
    };
    let has_printed = writer.bytes.as_slice() == course.printed;
    Ok(has_printed && outcome == course.outcome && device.steps().len() == course.steps)
}

#[test]
fn pairs_on_streams_that_fail(rt: HostRuntime) -> Result<(), AllocError> {
    for (at, course) in COURSES.iter().enumerate() {
        let as_told = goes(&rt, rt.alloc(), course)?;
        assert!(rt; as_told, "{at}");
    }
    Ok(())
}

// An input that is one byte too long.
#[test]
fn pairs_are_not_too_long(rt: HostRuntime) -> Result<(), AllocError> {
    let mut text = Vec::new(rt.alloc());
    for _ in 0..256 {
        text.extend_from_slice(&[b' '; 4096])?;
    }
    text.extend_from_slice(b"\n")?;
    let course = Course {
        input: text.as_slice(),
        fails: false,
        room: 100,
        printed: b"input too long\n",
        outcome: Outcome::TooLong,
        steps: 0,
    };
    let as_told = goes(&rt, rt.alloc(), &course)?;
    assert!(rt; as_told);
    Ok(())
}
