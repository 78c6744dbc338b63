//! Calls at a desk, and behind a `Mutex`: what came of them, and how long a call took.

use crate::counter::Counter;
use crate::desk_wanted::{DeskLoad, Way};
use crate::ways::{at_desk, behind_mutex};
use std::io;
use std::rt::Clock;
use std::sync::Wait;
use std::thread::Threads;

// Where the counter begins.
const START: u32 = 1000;

/// Makes the calls of a load, and says what came of them and how long one took.
pub fn measure_load<R: AllocGlobal + Print + Eprint + Clock + Threads + Wait + Sync>(
    rt: &R,
    load: &DeskLoad<'_>,
) -> io::Result<()> {
    let ask = load.ask.as_ref();
    let (calls, threads, all) = (load.calls, load.threads, load.all());
    let counter = Counter::new(rt.alloc(), START, all as usize)?;
    let (tally, took) = match load.way {
        Way::Desk => at_desk(rt, rt.alloc(), counter, ask, calls, threads)?,
        Way::Mutex => behind_mutex(rt, rt.alloc(), counter, ask, calls, threads)?,
    };
    let (way, ask) = load.words;
    println!(rt;
        "{way} {ask}: {} of {all} calls answered, {} all together",
        tally.count, tally.sum
    )?;
    let each = took.as_secs_f64() * 1e9 / (f64::from(calls) * f64::from(threads));
    eprintln!(rt; "{way} {ask}: {each:.2} ns a call")
}
