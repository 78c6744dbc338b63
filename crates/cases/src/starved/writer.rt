//! Where scripts print, and when they lack memory.

use crate::case::Program;
use crate::starved::counting::Counts;
use ctrl_calls::Work;
use hoard::{Hoard, MOST_BUDGET, MOST_PAGES};
use std::alloc::{AllocError, Global};
use std::io;
use std::io::Write;

// More than any case prints.
const ROOM: usize = 16_384;

const MOST_LINES: usize = 256;

/// When memory is short.
#[derive(Clone, Copy)]
pub enum Short {
    /// Never.
    Never,
    /// All the time: so many bytes are left.
    Always(usize),
    /// All the time, for threads: so many pages are left, and ample memory for what the program takes before it makes them.
    Threads(usize),
    /// So many bytes are left behind this many printed lines, until one more is printed.
    Behind { lines: usize, budget: usize },
}

/// Ample memory for a case.
pub fn ample(program: Program) -> Short {
    match program {
        Program::Pair => Short::Threads(MOST_PAGES),
        _ => Short::Never,
    }
}

/// Keeps what is printed and how often closures were called, and takes memory and gives it back where it is to be short.
#[derive(Drop)]
pub struct Kept<'a> {
    hoard: &'a mut Hoard,
    counts: &'a Counts,
    // how often they were called before the line that is printed next, and at each before
    before: Work,
    calls: Vec<Work>,
    short: Short,
    printed: Vec<u8>,
}

impl<'a> Kept<'a> {
    /// Nothing is printed yet. Memory is short from here on where it is to be so all the time.
    pub fn new(
        alloc: Global,
        hoard: &'a mut Hoard,
        counts: &'a Counts,
        short: Short,
    ) -> Result<Kept<'a>, AllocError> {
        let printed = Vec::with_capacity(alloc, ROOM)?;
        let calls = Vec::with_capacity(alloc, MOST_LINES)?;
        match short {
            Short::Always(budget) => hoard.starve(budget),
            Short::Threads(pages) => {
                hoard.starve(MOST_BUDGET);
                hoard.leave_pages(pages);
            }
            Short::Never | Short::Behind { .. } => {}
        }
        Ok(Kept {
            hoard,
            counts,
            before: counts.calls(),
            calls,
            short,
            printed,
        })
    }

    /// What was printed, and how often closures were called at each line of it, but for validators at an audit. There is memory again.
    pub fn end(self) -> (Vec<u8>, Vec<Work>) {
        let Kept {
            hoard,
            calls,
            printed,
            ..
        } = self;
        hoard.feed();
        (printed, calls)
    }

    // Counts what was called at a line. An audit goes on from the one before, and so asks as often as that left it to do.
    fn count(&mut self, line: &[u8]) -> Result<(), AllocError> {
        let now = self.counts.calls();
        let asked = now.asked.saturating_sub(self.before.asked);
        let told = now.told.saturating_sub(self.before.told);
        let is_audit = line.starts_with(b"audit ");
        self.before = now;
        self.calls.push(Work {
            asked: if is_audit { 0 } else { asked },
            told,
        })?;
        Ok(())
    }

    fn end_line(&mut self) {
        let Short::Behind { lines, budget } = self.short else {
            return;
        };
        if self.calls.len() == lines {
            self.hoard.starve(budget);
        }
        if self.calls.len() == lines.saturating_add(1) {
            self.hoard.feed();
        }
    }
}

impl Write for Kept<'_> {
    fn write(&mut self, buf: &[u8]) -> io::Result<usize> {
        // its room is there
        self.printed.extend_from_slice(buf)?;
        if buf.ends_with(b"\n") {
            self.count(buf)?;
            self.end_line();
        }
        Ok(buf.len())
    }

    fn flush(&mut self) -> io::Result<()> {
        Ok(())
    }
}
