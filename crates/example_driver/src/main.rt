//! A driver of a camera, from nothing: it describes the device, makes the closures, asks what an application would, and answers a script.
#![tactic(auto)]

mod device;
mod driver;

ghost use Rattle.std.specs.Prelude.{◌<◌, ◌^◌, length};
ghost use Rattle.ctrl_calls.specs.Meanings.{JudgesBy, TellsBy};

use crate::device::{BLUE, GAIN, HFLIP, LAMPS, MODE, RED, TIME, camera_plan};
use crate::driver::{BLUE_LIMIT, Camera, EXPOSURE_WORDS, blue_verdict, exposure_word};
use anyhow::{Result, bail};
use ctl_script::{ControlWords, Outcome, run_script};
use ctrl_calls::{Calls, ClusterRow, Driver, Notifier, Validator, Verdict};
use ctrl_types::{CtrlId, CtrlValue, ExtControl, Fault, FhId, RequestId};
use device_state::{Ask, ControlList, Device, MenuItem, Reply};
use std::alloc::{AllocError, Global};
use std::io;

type Judge = Box<dyn Fn(ClusterRow) -> Verdict + Send>;

type Teller = Box<dyn Fn(ClusterRow) -> u64 + Send>;

fn main(rt: HostRuntime) -> Result<()> {
    let limit: Judge = Box::new(rt.alloc(), |row: ClusterRow| blue_verdict(&row))?;
    let exposure: Teller = Box::new(rt.alloc(), |row: ClusterRow| exposure_word(&row))?;
    run::<Camera>(&rt, limit, exposure)
}

// Makes the device, whose clusters have these closures, plays with it, and answers the script of standard input. It is generic over the
// driver, since a type such as `Validator<Camera>` can't be named.
fn run<D: Driver>(
    rt: &(impl AllocGlobal + Input + Print),
    limit: D::Judge,
    exposure: D::Teller,
) -> Result<()>
    requires limit { D.Judge.callable limit }
    requires limit_judges { JudgesBy (D.Judge.answers limit) (D.verdict BLUE_LIMIT) }
    requires exposure { D.Teller.callable exposure }
    requires exposure_tells { TellsBy (D.Teller.answers exposure) (D.told EXPOSURE_WORDS) }
{
    let of_exposure: Calls<D> = Calls {
        validator: None,
        notifier: Some(Notifier::new(EXPOSURE_WORDS, exposure)),
    };
    let of_balance: Calls<D> = Calls {
        validator: Some(Validator::new(BLUE_LIMIT, limit)),
        notifier: None,
    };
    let plan = camera_plan(rt.alloc(), of_exposure, of_balance)?;
    let Ok(mut device) = Device::new(rt.alloc(), plan) else {
        bail!("no memory for the device");
    };
    play(rt, &mut device)?;
    answer_script(rt, device)
}

// What an application asks.
fn play<D: Driver>(rt: &(impl AllocGlobal + Print), device: &mut Device<D>) -> Result<()> {
    let Ok(Reply::Fh(fh, ..)) = device.handle(0, &Ask::OpenFh { handler: 1 }) else {
        bail!("the video node can't be opened");
    };
    set_values(rt, device, fh)?;
    queue_frame(rt, device, fh, &[entry(RED, 30), entry(HFLIP, 1)], 7)?;
    queue_frame(rt, device, fh, &[entry(BLUE, 200), entry(GAIN, 64)], 8)?;
    for place in 0..2 {
        ask(rt, device, "will have", &Ask::Forecast { place })?;
    }
    for _ in 0..2 {
        ask(rt, device, "begin", &Ask::Begin)?;
        print!(rt; "has: ")?;
        print_values(rt, device.values())?;
        println!(rt; "")?;
        ask(rt, device, "complete", &Ask::Complete)?;
    }
    Ok(())
}

// Sets controls, and reads what was told of them and the name of an item.
fn set_values<D: Driver>(
    rt: &(impl AllocGlobal + Print),
    device: &mut Device<D>,
    fh: FhId,
) -> Result<()> {
    let exposure = [entry(MODE, 1), entry(TIME, 500), entry(GAIN, 32)];
    set(rt, device, fh, None, &exposure)?;
    ask(rt, device, "register", &Ask::Told { cluster: 0 })?;
    set(rt, device, fh, None, &[entry(RED, 50), entry(BLUE, 255)])?;
    set(rt, device, fh, None, &[entry(MODE, 2)])?;
    let (id, index) = (MODE, 1);
    ask(rt, device, "item 1", &Ask::MenuItem { fh, id, index })
}

// Makes a request of these controls, with this buffer, and queues it.
fn queue_frame<D: Driver>(
    rt: &(impl AllocGlobal + Print),
    device: &mut Device<D>,
    fh: FhId,
    entries: &[ExtControl],
    buffer: u32,
) -> Result<()>
    requires { length entries.now < 2 ^ 32 }
{
    let Ok(Reply::Request(request, ..)) = device.handle(0, &Ask::Alloc) else {
        bail!("no request");
    };
    set(rt, device, fh, Some(request), entries)?;
    ask(rt, device, "buffer", &Ask::AddBuffer { request, buffer })?;
    ask(rt, device, "queue", &Ask::Queue { request })
}

fn entry(id: CtrlId, number: i64) -> ExtControl {
    let value = CtrlValue::Number(number);
    ExtControl { id, value }
}

// Sets controls, now or through a request.
fn set<D: Driver>(
    rt: &(impl AllocGlobal + Print),
    device: &mut Device<D>,
    fh: FhId,
    request: Option<RequestId>,
    entries: &[ExtControl],
) -> Result<()>
    requires { length entries.now < 2 ^ 32 }
{
    let list = ControlList::from_vec(Vec::from_slice(rt.alloc(), entries)?);
    let (what, which) = match request {
        Some(_) => ("store", 0x0f01_0000),
        None => ("set", 0),
    };
    let set = Ask::SetCtrls {
        fh,
        which,
        request,
        list,
    };
    ask(rt, device, what, &set)
}

// Asks, and prints what is answered.
fn ask<D: Driver>(rt: &impl Print, device: &mut Device<D>, what: &str, ask: &Ask) -> Result<()> {
    show(rt, what, &device.handle(0, ask))?;
    Ok(())
}

fn show(rt: &impl Print, what: &str, answer: &Result<Reply, Fault>) -> io::Result<()> {
    match answer {
        Ok(Reply::Controls(list)) => {
            print!(rt; "{what}:")?;
            for control in list.as_slice() {
                print!(rt; " {}", control.value)?;
            }
            println!(rt; "")
        }
        Ok(Reply::Word(word)) => println!(rt; "{what}: {word:#x}"),
        Ok(Reply::Item(MenuItem::Name(name))) => println!(rt; "{what}: {}", name.as_str()),
        Ok(Reply::Forecast(frame)) => {
            print!(rt; "{what}: ")?;
            print_values(rt, frame.values.as_slice())?;
            println!(rt; ", refused {:?}", frame.refused.as_slice())
        }
        Ok(Reply::Frame { buffer, .. }) => println!(rt; "{what}: buffer {buffer}"),
        Ok(_) => println!(rt; "{what}: ok"),
        Err(Fault { errno, index }) => match index {
            Some(index) => println!(rt; "{what}: error {} index {index}", errno.number()),
            None => println!(rt; "{what}: error {}", errno.number()),
        },
    }
}

fn print_values(rt: &impl Print, values: &[CtrlValue]) -> io::Result<()> {
    print!(rt; "[")?;
    for (place, value) in values.iter().enumerate() {
        let before = if place == 0 { "" } else { ", " };
        print!(rt; "{before}{value}")?;
    }
    print!(rt; "]")
}

// Answers the commands of standard input, if it has any. Where a line is none, the program ends with status 1.
fn answer_script<D: Driver>(
    rt: &(impl AllocGlobal + Input + Print),
    device: Device<D>,
) -> Result<()> {
    let known = camera_words(rt.alloc())?;
    let mut reader = rt.reader();
    let mut writer = io::writer(rt);
    match run_script(rt.alloc(), &known, device, &mut reader, &mut writer) {
        (_, Outcome::Finished) => Ok(()),
        _ => bail!("the script has not run to its end"),
    }
}

// The words by which a script names the controls, each with the control's id, and its number by the order of the plan.
fn camera_words(alloc: Global) -> Result<ControlWords, AllocError> {
    let mut words = ControlWords::new(alloc);
    words.push(alloc, b"mode", MODE, 0)?;
    words.push(alloc, b"time", TIME, 1)?;
    words.push(alloc, b"gain", GAIN, 2)?;
    words.push(alloc, b"hflip", HFLIP, 3)?;
    words.push(alloc, b"lamps", LAMPS, 4)?;
    words.push(alloc, b"red", RED, 5)?;
    words.push(alloc, b"blue", BLUE, 6)?;
    Ok(words)
}
