//! Readers and writers over memory that fail when they are told to, and what a run with them came to.

use crate::devices::{Kept, kept_device, kept_words};
use ctl_script::{Outcome, run_script};
use std::alloc::{AllocError, Global};
use std::io;
use std::io::{ErrorKind, Read, Write};

/// Gives the bytes of a text, at most `most` a read. The read with the number `fault`, from 1, fails with this kind of error, and with
/// the number 0 every read does.
#[derive(Drop)]
pub struct Source<'a> {
    pub text: &'a [u8],
    pub most: usize,
    pub reads: u32,
    pub fault: Option<(u32, ErrorKind)>,
}

impl Read for Source<'_> {
    fn read(&mut self, buf: &mut [u8]) -> io::Result<usize> {
        self.reads = self.reads.saturating_add(1);
        if let Some((number, kind)) = self.fault {
            if number == 0 || number == self.reads {
                return Err(io::Error::from(kind));
            }
        }
        let count = self.text.len().min(buf.len()).min(self.most);
        let (given, rest) = self.text.split_at(count);
        buf[..count].copy_from_slice(given);
        self.text = rest;
        Ok(count)
    }
}

/// Takes bytes into a buffer of its own, at most `most` a write. The write with the number `fault`, from 1, fails with this
/// kind of error, or takes nothing. It can't be flushed.
#[derive(Drop)]
pub struct Sink {
    pub bytes: Vec<u8>,
    pub most: usize,
    pub writes: u32,
    pub fault: Option<(u32, Option<ErrorKind>)>,
}

impl Write for Sink {
    fn write(&mut self, buf: &[u8]) -> io::Result<usize> {
        self.writes = self.writes.saturating_add(1);
        match self.fault {
            Some((number, Some(kind))) if number == self.writes => {
                return Err(io::Error::from(kind));
            }
            Some((number, None)) if number == self.writes => return Ok(0),
            _ => {}
        }
        let count = buf.len().min(self.most);
        self.bytes.extend_from_slice(&buf[..count])?;
        Ok(count)
    }

    fn flush(&mut self) -> io::Result<()> {
        Err(io::Error::from(ErrorKind::Other))
    }
}

/// How reads and writes go.
#[derive(Clone, Copy)]
pub struct Streams {
    pub most_read: usize,
    pub read_fault: Option<(u32, ErrorKind)>,
    pub most_written: usize,
    pub write_fault: Option<(u32, Option<ErrorKind>)>,
}

/// All that is there is given and taken at once.
pub const WHOLE: Streams = Streams {
    most_read: 4096,
    read_fault: None,
    most_written: 4096,
    write_fault: None,
};

/// What a run came to.
#[derive(Drop)]
pub struct Ran {
    /// What was written.
    pub bytes: Vec<u8>,
    /// How it ended.
    pub outcome: Outcome,
    /// How many steps the device has.
    pub steps: usize,
    /// How many reads and writes there were.
    pub reads: u32,
    pub writes: u32,
}

/// Runs a script on a fresh device.
pub fn run(alloc: Global, kept: Kept, text: &[u8], streams: Streams) -> Result<Ran, AllocError> {
    let bytes = Vec::with_capacity(alloc, 1024)?;
    let known = kept_words(alloc, kept)?;
    let device = kept_device(alloc, kept)?;
    let mut source = Source {
        text,
        most: streams.most_read,
        reads: 0,
        fault: streams.read_fault,
    };
    let mut sink = Sink {
        bytes,
        most: streams.most_written,
        writes: 0,
        fault: streams.write_fault,
    };
    let (device, outcome) = run_script(alloc, &known, device, &mut source, &mut sink);
    Ok(Ran {
        bytes: sink.bytes,
        outcome,
        steps: device.steps().len(),
        reads: source.reads,
        writes: sink.writes,
    })
}
