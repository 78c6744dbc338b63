//! A device some of whose ranges follow: the ranges that it asks for by itself behind each command of a script, through `handle_and_follow`.

use bitflags::Flags as FlagSet;
use ctl_script::{Binding, Bindings, ControlWords, ask_of};
use ctrl_handlers::{Plan, PlanBuilder};
use ctrl_settle::CtrlConfig;
use ctrl_types::{CtrlId, Fault, Flags, Kind};
use data_driver::Data;
use device_state::{Ask, Device};
use following_ranges::{
    DefaultSource, Follower, RangeAsk, Source, handle_and_follow, range_wanted,
};
use script_lines::read_line;
use std::alloc::{AllocError, Global};
use std::fmt::Write;
use std::process::Abort;

// Kind, minimum, maximum, default and step of a control.
type Row = (Kind, i64, i64, i64, u64);

// The ranges of 1, 3 and 4 are those that they are wanted to have.
const CONTROLS: [Row; 5] = [
    (Kind::Integer, 24, 1000, 24, 1),
    (Kind::Integer, 4, 120, 100, 4),
    (Kind::Integer64, -5_000_000_000, 5_000_000_000, 50, 1),
    (Kind::Integer, 40, 100, 50, 1),
    (Kind::Integer64, 50, 50, 50, 1),
];

const WORDS: [&[u8]; 5] = [b"vblank", b"exposure", b"hblank", b"gain", b"wide"];

// What exposure, gain and wide follow: the last two are numbered in falling order.
const FOLLOWERS: [Follower; 3] = [
    Follower {
        control: 4,
        minimum: Some(HBLANK),
        maximum: Some(VBLANK),
        default_value: DefaultSource::Number(7),
    },
    Follower {
        control: 3,
        minimum: Some(Source {
            control: 2,
            plus: -10,
        }),
        maximum: None,
        default_value: DefaultSource::Value(HBLANK),
    },
    Follower {
        control: 1,
        minimum: None,
        maximum: Some(Source {
            control: 0,
            plus: 96,
        }),
        default_value: DefaultSource::Number(100),
    },
];

const VBLANK: Source = Source {
    control: 0,
    plus: 0,
};

const HBLANK: Source = Source {
    control: 2,
    plus: 0,
};

// Commands, each with what it is answered and the asks of the device's own: the control, its range, and the errno of a refusal; and whether a range is owed then. What moves no followed value
// has none: a command that is refused, a try, a store, a set of what is there, a range of a control that follows. A maximum isn't below the minimum, a minimum
// that follows alone not above the maximum, and a bound is one of 32 bits; the default goes back to 100, and by steps.
const RUN: &str = "\
open f 0 -> ok
set f cur vblank=500 -> ok, 1: 4 596 4 100, 4: 50 500 1 50
set f cur vblank=500 -> ok
try f cur vblank=24 -> ok
set f cur vblank=24 0x00982000=1 -> error 22
set f cur exposure=400 -> ok
set f cur vblank=0 -> ok, 1: 4 120 4 100, 4: 50 50 1 50
get f cur exposure wide -> ok
set f cur hblank=95 -> ok, 3: 85 100 1 95, 4: 95 95 1 95
set f cur hblank=5000000000 -> ok, 3: 100 100 1 100, 4: 5000000000 5000000000 1 5000000000
set f cur hblank=-5000000000 -> ok, 3: -2147483648 100 1 -2147483648, 4: -5000000000 24 1 7
alloc r -> ok
set f req:r vblank=300 hblank=0 -> ok
buffer r 1 -> ok
queue r -> ok
begin -> ok, 1: 4 396 4 100, 3: -10 100 1 0, 4: 0 300 1 7
complete -> ok
range vblank 0 60 1 24 -> ok, 1: 4 156 4 100, 4: 0 60 1 7
range vblank 0 80 1 24 -> ok
range exposure 0 1000 10 20 -> ok
range exposure 0 10 10 20 -> error 34
set f cur vblank=30 -> ok, 1: 0 126 10 100, 4: 0 30 1 7
set f cur vblank=0 hblank=1 -> ok, 1: 0 96 10 90, 3: -9 100 1 1, 4: 1 1 1 1
set f cur vblank=80 -> ok, 1: 0 176 10 100, 4: 1 80 1 7
";

// The last of 1,000,000 steps are the set and the first of its ranges; what the others are refused stands beside them, and they stay owed.
const FULL: &str = "\
open f 0 -> ok
set f cur vblank=30 hblank=0 -> ok, 1: 4 126 4 100, 3: -10 100 1 0 error 28, 4: 0 30 1 7 error 28, owed
get f cur gain wide -> ok, owed
set f cur vblank=24 -> error 28, owed
";

// The range of exposure is owed: nothing has it asked for but the next accepted change, a set of present values, the begin of a frame or a range change, though it
// moves no followed value. It is asked once.
const OWED: [&str; 3] = [
    "\
open f 0 -> ok, owed
get f cur exposure -> ok, owed
try f cur vblank=30 -> ok, owed
set f cur vblank=24 0x00982000=1 -> error 22, owed
grab gain on -> ok, owed
set f cur vblank=24 -> ok, 1: 0 120 10 100
set f cur vblank=24 -> ok
",
    "\
open f 0 -> ok, owed
alloc r -> ok, owed
set f req:r gain=60 -> ok, owed
buffer r 1 -> ok, owed
begin -> error 2, owed
queue r -> ok, owed
begin -> ok, 1: 0 120 10 100
complete -> ok
",
    "\
open f 0 -> ok, owed
range gain 10 0 1 0 -> error 34, owed
range gain 40 100 1 50 -> ok, 1: 0 120 10 100
range gain 40 100 1 50 -> ok
",
];

// A range of exposure that isn't the one that it is wanted to have, so that one is due.
const OTHER: Ask = Ask::ModifyRange {
    control: 1,
    min: 0,
    max: 1000,
    step: 10,
    default_value: 20,
};

// What commands are answered where no growth is refused; and where one is for the first range, for the set itself, or before the device is asked. A range that lacked
// memory is asked again by the next set of the same value, once, and not by the get before it. That range is the fifth step, for which the list of steps grows.
const LACKED: [&str; 4] = [
    "\
open f 0 -> ok
open g 0 -> ok
open h 0 -> ok
set f cur vblank=500 -> ok, 1: 4 596 4 100, 4: 50 500 1 50
get f cur exposure -> ok
set f cur vblank=500 -> ok
set f cur vblank=500 -> ok
",
    "\
open f 0 -> ok
open g 0 -> ok
open h 0 -> ok
set f cur vblank=500 -> ok, 1: 4 596 4 100 error 12, 4: 50 500 1 50, owed
get f cur exposure -> ok, owed
set f cur vblank=500 -> ok, 1: 4 596 4 100
set f cur vblank=500 -> ok
",
    "\
open f 0 -> ok
open g 0 -> ok
open h 0 -> ok
set f cur vblank=500 -> error 12
get f cur exposure -> ok
set f cur vblank=500 -> ok, 1: 4 596 4 100, 4: 50 500 1 50
set f cur vblank=500 -> ok
",
    "\
open f 0 -> ok
open g 0 -> ok
open h 0 -> ok
set f cur vblank=500 -> no memory
get f cur exposure -> ok
set f cur vblank=500 -> ok, 1: 4 596 4 100, 4: 50 500 1 50
set f cur vblank=500 -> ok
",
];

// A device in the midst of a script.
#[derive(Drop)]
struct Run {
    device: Device<Data>,
    words: ControlWords,
    names: Bindings,
    owed: bool,
}

fn config(number: u32, row: &Row) -> CtrlConfig {
    let (kind, minimum, maximum, default_value, step) = *row;
    CtrlConfig {
        id: CtrlId(0x0098_1000u32.wrapping_add(number)),
        kind,
        minimum,
        maximum,
        step,
        default_value,
        skip: 0,
        flags: Flags::empty(),
        is_private: false,
        elems: None,
    }
}

// Adds the control of a number; whether it was.
fn add(builder: &mut PlanBuilder<Data>, handler: u32, number: u32, row: &Row) -> bool {
    match config(number, row).build() {
        Ok(ctrl) => builder.control(handler, ctrl).is_ok(),
        Err(_) => false,
    }
}

fn plan(alloc: Global) -> Option<Plan<Data>> {
    let mut builder = PlanBuilder::new(alloc);
    let Ok(handler) = builder.handler() else {
        return None;
    };
    for (number, row) in CONTROLS.iter().enumerate() {
        if !add(&mut builder, handler, number as u32, row) {
            return None;
        }
    }
    builder.finish().ok()
}

fn words(alloc: Global) -> Option<ControlWords> {
    let mut words = ControlWords::new(alloc);
    for (number, word) in WORDS.iter().enumerate() {
        let number = number as u32;
        let id = CtrlId(0x0098_1000u32.wrapping_add(number));
        if words.push(alloc, word, id, number).is_err() {
            return None;
        }
    }
    Some(words)
}

fn begun(alloc: Global) -> Option<Run> {
    let words = words(alloc)?;
    let plan = plan(alloc)?;
    match Device::new(alloc, plan) {
        Ok(device) => Some(Run {
            device,
            words,
            names: Bindings::new(alloc),
            owed: false,
        }),
        Err(_) => None,
    }
}

// Asks for so many ends of the stream, and where a range is to be owed, for another one. What is answered behind them shows that they were accepted.
fn prepare(run: &mut Run, steps: u32, is_owed: bool) {
    for _ in 0..steps {
        let _ = run.device.handle(0, &Ask::StreamOff);
    }
    if is_owed {
        let _ = run.device.handle(0, &OTHER);
    }
    run.owed = is_owed;
}

// Asks what a command says, and adds what it is answered, the asks of the device's own, and whether a range is owed then.
fn answer(alloc: Global, run: &mut Run, command: &str, said: &mut String) -> Option<()> {
    if command.len() > 1000 {
        return None;
    }
    let Ok(Some(command)) = read_line(alloc, &run.words, command.as_bytes()) else {
        return None;
    };
    let binding = Binding::of(&command);
    if binding.enter(&mut run.names).is_err() {
        return None;
    }
    let ask = ask_of(command, &run.names)?;
    let Ok((answer, asked)) = handle_and_follow(
        alloc,
        &mut run.device,
        &FOLLOWERS,
        &mut run.owed,
        0,
        &ask,
    ) else {
        return said.push_str("no memory").ok();
    };
    let answer = match answer {
        Ok(reply) => Ok(reply),
        Err(refusal) => Err(ask.fault(refusal)),
    };
    binding.bind(&mut run.names, &answer);
    say(said, answer.err(), asked.as_slice(), run.owed).ok()
}

fn say(
    said: &mut String,
    refusal: Option<Fault>,
    asked: &[RangeAsk],
    owed: bool,
) -> Result<(), AllocError> {
    match refusal {
        None => said.push_str("ok")?,
        Some(fault) => write!(said, "error {}", fault.errno.number())?,
    }
    for one in asked {
        say_range(said, one)?;
    }
    if owed {
        said.push_str(", owed")?;
    }
    Ok(())
}

fn say_range(said: &mut String, one: &RangeAsk) -> Result<(), AllocError> {
    let (control, min, max) = (one.control, one.wanted.minimum(), one.wanted.maximum());
    let (step, default_value) = (one.wanted.step(), one.wanted.default_value());
    write!(said, ", {control}: {min} {max} {step} {default_value}")?;
    match one.refusal {
        Some(fault) => write!(said, " error {}", fault.errno.number()),
        None => Ok(()),
    }
}

// The commands of a script, each with what it is answered; none where memory was wanting.
fn transcript(alloc: Global, run: &mut Run, text: &str) -> Option<String> {
    let mut said = String::new(alloc);
    for line in text.lines() {
        let (command, _) = line.split_once(" -> ")?;
        write!(said, "{command} -> ").ok()?;
        answer(alloc, run, command, &mut said)?;
        said.push('\n').ok()?;
    }
    Some(said)
}

// What the commands are answered by a fresh device behind so many ends of the stream, and where a range is to be owed, behind another one.
fn transcript_behind(alloc: Global, steps: u32, is_owed: bool, text: &str) -> Option<String> {
    let mut run = begun(alloc)?;
    prepare(&mut run, steps, is_owed);
    transcript(alloc, &mut run, text)
}

fn expect<R: AllocGlobal + Abort>(rt: &R, steps: u32, is_owed: bool, text: &str) {
    let said = transcript_behind(rt.alloc(), steps, is_owed, text);
    assert!(rt; said.as_deref() == Some(text), "{said:?}");
}

#[test]
fn ranges_follow(rt: HostRuntime) {
    expect(&rt, 0, false, RUN);
}

#[test]
fn a_refused_range_lets_the_rest_go_on(rt: HostRuntime) {
    expect(&rt, 999_997, false, FULL);
}

#[test]
fn what_is_owed_is_asked_behind_the_next_change(rt: HostRuntime) {
    for text in OWED {
        expect(&rt, 0, true, text);
    }
}

// Whether a range that is refused for want of memory is asked again.
fn asks_again(alloc: Global) -> bool {
    match transcript_behind(alloc, 0, false, LACKED[0]) {
        Some(said) => LACKED.contains(&said.as_str()),
        None => false,
    }
}

// With `rt try --test --fail-alloc N` one allocation fails, which may be that of a range; where it is none of the device's, all is done once more.
#[test]
fn a_range_that_lacked_memory_is_asked_again(rt: HostRuntime) {
    let alloc = rt.alloc();
    assert!(rt; asks_again(alloc) || asks_again(alloc));
}

// Before its range is known a control has its minimum alone; the maximum of the start comes of the followed default.
fn range_at_start() -> Option<bool> {
    let ctrl = config(1, &(Kind::Integer, 4, 4, 4, 4)).build().ok()?;
    let ctrl = range_wanted(&ctrl, None, Some(120), 100)?;
    Some(ctrl.minimum() == 4 && ctrl.maximum() == 120 && ctrl.default_value() == 100)
}

#[test]
fn the_start_has_its_ranges(rt: HostRuntime) {
    assert!(rt; range_at_start() == Some(true));
}
