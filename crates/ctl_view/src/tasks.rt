//! What is done on a device.

ghost use Rattle.std.specs.Prelude.{◌≡◌, ◌≤◌, [], length};

use crate::follow::put_follower;
use crate::input::read_script;
use crate::no_memory;
use crate::script::show_script;
use crate::told::explain_stray;
use crate::view::View;
use crate::wanted::{Task, Wanted};
use ctl_pair::{Gate, run_pair};
use ctl_script::{InputFault, run_board, with_line};
use ctrl_calls::Driver;
use device_file::ClassNames;
use device_state::{Device, Plan};
use range_followers::Follower;
use script_lines::ControlWords;
use script_replies::Outcome;
use std::io;
use std::io::Write;
use std::process::ExitCode;
use std::rt::Files;
use std::sync::Wait;
use std::thread::Threads;
use view_layout::{Ink, Line, Page};
use view_words::{Explained, put_listing};

// Lets each command of two scripts pass at once.
struct OpenGate;

impl Gate for OpenGate {
    fn pass(&self, _seat: u32, _k: u32) {}
}

/// Does what is wanted on a fresh device of a plan.
///
/// - `known`: the words of its controls.
/// - `classes`: the names that it gives to classes; none where it is the sample device.
/// - `followers`: how its ranges follow other controls; none where two scripts are run.
/// - `name`: the device, as it stands behind `a word of`.
pub fn run_on<
    D: Driver + Explained + Send,
    R: AllocGlobal + Input + Files + Print + Eprint + Threads + Wait + Sync,
>(
    rt: &R,
    plan: Plan<D>,
    known: ControlWords,
    classes: Option<ClassNames>,
    followers: Vec<Follower>,
    name: &'static str,
    wanted: Wanted<'_>,
    ink: Ink,
) -> ExitCode
where
    D::Judge: Send,
    D::Teller: Send,
{
    if wanted.task == Task::Check {
        return say_size(rt, &plan);
    }
    let Ok(device) = Device::new(rt.alloc(), plan) else {
        return no_memory(rt);
    };
    let Ok(mut view) = View::new(
        rt.alloc(),
        known,
        classes,
        followers,
        name,
        wanted.task,
        ink,
    ) else {
        return no_memory(rt);
    };
    if wanted.task == Task::List && wanted.script.is_none() {
        return list(rt, &device, &view);
    }
    match read_script(rt, wanted.script) {
        Ok(text) => run_text(rt, device, &mut view, text.as_slice()),
        Err(fault) => end(rt, &mut view, outcome_of(fault)),
    }
}

fn outcome_of(fault: InputFault) -> Outcome {
    match fault {
        InputFault::TooLong => Outcome::TooLong,
        InputFault::Reader => Outcome::ReadFault,
        InputFault::Memory => Outcome::Memory,
    }
}

// Does what is wanted with a script, or with two of them, on a device without steps.
fn run_text<D: Driver + Explained + Send, R: AllocGlobal + Print + Eprint + Threads + Wait + Sync>(
    rt: &R,
    mut device: Device<D>,
    view: &mut View,
    text: &[u8],
) -> ExitCode
where
    D::Judge: Send,
    D::Teller: Send,
    requires fresh { device.steps ≡ [] }
    requires within { length text.now ≤ 1048576 }
{
    match view.task {
        Task::Pair => {
            let outcome = run_two(rt, device, view, text);
            ExitCode::from(outcome.status())
        }
        _ => {
            let outcome = show_script(rt, &mut device, view, text, &mut io::writer(rt));
            match (outcome, view.task) {
                (Outcome::Finished, Task::List) => list(rt, &device, view),
                (Outcome::Finished, Task::Board) => board(rt, device, view),
                _ => end(rt, view, outcome),
            }
        }
    }
}

// Prints what the queued frames will have, as `ctl_tool` prints it behind a script.
fn board<D: Driver, R: AllocGlobal + Print>(rt: &R, device: Device<D>, view: &View) -> ExitCode {
    let mut none: &[u8] = &[];
    let (_, outcome) = run_board(
        rt.alloc(),
        &view.known,
        device,
        &mut none,
        &mut io::writer(rt),
    );
    ExitCode::from(outcome.status())
}

// Runs two scripts, as `ctl_tool` does, and says on standard error why a line isn't a command.
fn run_two<D: Driver + Send, R: AllocGlobal + Print + Eprint + Threads + Wait + Sync>(
    rt: &R,
    device: Device<D>,
    view: &View,
    text: &[u8],
) -> Outcome
where
    D::Judge: Send,
    D::Teller: Send,
    requires { device.steps ≡ [] }
{
    let known = &view.known;
    let mut writer = io::writer(rt);
    let mut reader = text;
    let (back, outcome) = run_pair(
        rt,
        rt.alloc(),
        known,
        device,
        &OpenGate,
        &mut reader,
        &mut writer,
    );
    if let (Ok(device), Outcome::BadLine(number)) = (&back, outcome) {
        if let Some(text) = line_at(text, number) {
            explain_stray(rt, device.plan(), view, Line { number, text });
        }
    }
    outcome
}

// A line of a text, by its number from 1.
fn line_at(text: &[u8], number: u32) -> Option<&[u8]> {
    let before = number.checked_sub(1)?;
    text.split(|byte| *byte == b'\n').nth(before as usize)
}

// Prints the line of an outcome, if it has one.
fn end<R: Print>(rt: &R, view: &mut View, outcome: Outcome) -> ExitCode {
    let outcome = with_line(&mut io::writer(rt), &mut view.line, outcome);
    ExitCode::from(outcome.status())
}

// Says how large a device is.
fn say_size<D: Driver>(rt: &impl Print, plan: &Plan<D>) -> ExitCode {
    let handlers = plan.handler_count();
    let controls = plan.control_count();
    let clusters = plan.cluster_count();
    match println!(rt; "handlers: {handlers}, controls: {controls}, clusters: {clusters}") {
        Ok(()) => ExitCode::from(0),
        Err(_) => ExitCode::from(1),
    }
}

// Lists a device as it is, and how its ranges follow other controls.
fn list<D: Driver + Explained, R: AllocGlobal + Print>(
    rt: &R,
    device: &Device<D>,
    view: &View,
) -> ExitCode {
    let known = &view.known;
    let mut page = Page::new(rt.alloc());
    if put_listing(&mut page, rt.alloc(), known, view.classes.as_ref(), device).is_err() {
        return no_memory(rt);
    }
    if !view.followers.is_empty() {
        page.put("\n");
    }
    for follower in view.followers.as_slice() {
        put_follower(&mut page, known, follower);
    }
    if !page.is_whole() {
        return no_memory(rt);
    }
    match io::writer(rt).write_all(page.text()) {
        Ok(()) => ExitCode::from(0),
        Err(_) => ExitCode::from(1),
    }
}
