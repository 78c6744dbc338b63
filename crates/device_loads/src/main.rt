//! Measures what is asked of a device directly, and calls at the desk. Of a device the loads: so many rounds of each on a sample device at the start, and
//! again behind so many steps, since no ask is to take longer for the steps that are kept; or, by seven numbers, asks of one kind, at a device as
//! large as they say. How long they took it says on standard error, and on standard output how many asks were refused, which is none. Of the desk
//! calls of an object at a desk and of the same object behind a `Mutex`: how long a call took it says on standard error, and on standard output what
//! came of the calls, which is the same whatever the order of the threads.
#![tactic(auto)]

mod asked;
mod asks;
mod calls;
mod counter;
mod desk;
mod desk_wanted;
mod loads;
mod wanted;
mod ways;

use crate::asked::Asked;
use crate::asks::Asks;
use crate::desk::measure_load;
use crate::desk_wanted::DeskLoad;
use crate::loads::{LOADS, Load, fill, play, prepare};
use crate::wanted::{AtDevice, Loads, Wanted};
use ctrl_handlers::PlanFault;
use device_state::Device;
use sample_device::own_sample_plan;
use std::process::ExitCode;
use std::rt::Clock;
use std::time::Instant;
use std::{env, io};

fn main(rt: HostRuntime) -> io::Result<ExitCode> {
    let words = env::args(&rt)?.collect::<Vec<String>>(rt.alloc())?;
    let Some(wanted) = Wanted::read(words.as_slice()) else {
        eprintln!(rt;
            "usage: device_loads STEPS ROUNDS [LOAD ..] [CALL ..], a LOAD is sets, lists, frames or events\n       device_loads MODE CONTROLS HANDLERS FILE_HANDLES SUBSCRIPTIONS QUEUED ROUNDS [CALL ..], a MODE is 0 to 12\n       device_loads CALL [CALL ..], a CALL is WAY ASK CALLS THREADS: a WAY is desk or mutex, an ASK is add, read or front, CALLS is how many each thread makes, THREADS 1 to 64"
        )?;
        return Ok(ExitCode::from(2));
    };
    if let Some(wanted) = &wanted.device {
        measure_device(&rt, wanted)?;
    }
    for words in wanted.calls.chunks(4) {
        if let Some(load) = DeskLoad::read(words) {
            measure_load(&rt, &load)?;
        }
    }
    Ok(ExitCode::from(0))
}

// Makes the device and the loads.
fn measure_device<R: AllocGlobal + Print + Eprint + Clock>(
    rt: &R,
    wanted: &AtDevice<'_>,
) -> io::Result<()> {
    let made = match wanted {
        AtDevice::Asks(asks) if !asks.is_sample() => asks.plan(rt.alloc()),
        _ => own_sample_plan(rt.alloc()),
    };
    let plan = match made {
        Ok(plan) => plan,
        Err(PlanFault::Memory) => return Err(io::Error::from(io::ErrorKind::OutOfMemory)),
        Err(_) => return Err(io::Error::from(io::ErrorKind::InvalidInput)),
    };
    let Ok(mut device) = Device::new(rt.alloc(), plan) else {
        return Err(io::Error::from(io::ErrorKind::OutOfMemory));
    };
    match wanted {
        AtDevice::Loads(loads) => measure_loads(rt, &mut device, loads),
        AtDevice::Asks(asks) => measure_asks(rt, &mut device, asks),
    }
}

// Makes the rounds of the loads before and behind so many steps.
fn measure_loads<A: Asked, R: AllocGlobal + Print + Eprint + Clock>(
    rt: &R,
    device: &mut A,
    wanted: &Loads<'_>,
) -> io::Result<()> {
    prepare(rt.alloc(), device)?;
    measure(rt, device, wanted)?;
    fill(rt.alloc(), device, wanted.steps)?;
    measure(rt, device, wanted)
}

// Makes the rounds of asks, and says how long they took.
fn measure_asks<A: Asked, R: AllocGlobal + Print + Eprint + Clock>(
    rt: &R,
    device: &mut A,
    asks: &Asks,
) -> io::Result<()> {
    asks.prepare(rt.alloc(), device)?;
    let start = Instant::now(rt)?;
    let refused = asks.play(rt.alloc(), device)?;
    let took = start.elapsed(rt)?.as_micros();
    let (mode, rounds) = (asks.number, asks.rounds);
    println!(rt; "mode {mode}: {rounds} rounds, {refused} asks refused")?;
    eprintln!(rt;
        "mode {mode}: {took} us, {} steps then",
        device.step_count()
    )
}

// Makes the rounds of each load that is wanted.
fn measure<A: Asked, R: AllocGlobal + Print + Eprint + Clock>(
    rt: &R,
    device: &mut A,
    wanted: &Loads<'_>,
) -> io::Result<()> {
    for &(load, name) in LOADS {
        if wanted.has(name) {
            make_rounds(rt, device, load, name, wanted.rounds)?;
        }
    }
    Ok(())
}

// Makes so many rounds of a load, and says how long they took.
fn make_rounds<A: Asked, R: AllocGlobal + Print + Eprint + Clock>(
    rt: &R,
    device: &mut A,
    load: Load,
    name: &str,
    rounds: u32,
) -> io::Result<()> {
    let start = Instant::now(rt)?;
    let mut refused = 0u32;
    for round in 0..rounds {
        refused = refused.saturating_add(play(rt.alloc(), device, load, round)?);
    }
    let took = start.elapsed(rt)?.as_micros();
    println!(rt; "{name}: {rounds} rounds, {refused} asks refused")?;
    eprintln!(rt; "{name}: {took} us, {} steps then", device.step_count())
}
