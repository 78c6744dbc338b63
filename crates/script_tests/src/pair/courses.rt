//! The courses that a sample device goes.

use crate::pair::desk::one_seat;
use crate::pair::many::both_run;
use crate::pair::sample::sample_of;
use std::alloc::AllocError;
use std::sync::Wait;
use std::thread::Threads;

/// What is done with a device.
#[derive(Clone, Copy)]
pub enum Course<'a> {
    OneSeat,
    /// Two scripts with their dividing line, and how many steps each has at least.
    Scripts(&'a [u8], usize),
}

/// Whether a sample device with its closures goes this course as it is told there.
pub fn goes<R: AllocGlobal + Threads + Wait + Sync>(
    rt: &R,
    course: Course<'_>,
) -> Result<bool, AllocError> {
    let device = sample_of(rt.alloc())?;
    match course {
        Course::OneSeat => one_seat(rt, rt.alloc(), device),
        Course::Scripts(text, least) => both_run(rt, rt.alloc(), device, text, least),
    }
}
