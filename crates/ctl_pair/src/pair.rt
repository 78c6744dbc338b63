//! Two scripts on one device.
ghost use Rattle.std.specs.Prelude.{◌≡◌, ◌≢◌, List, [], All, Ok, IfOk, IfErr};
ghost use Rattle.std.specs.Io.KnownBytes.{Appends};
ghost use Rattle.script_replies.specs.Replies.{outcome_line};
ghost use Rattle.device_state.specs.Device.{DeviceData};
ghost use Rattle.script_lines.specs.declared.command.Command.{Command};
ghost use Rattle.turn_desk.specs.Views.{IsSeatOf};
ghost use Rattle.ctl_pair.specs.Pair.{HasPaired};
ghost use Rattle.ctl_pair.specs.Scripts.{HasRead, IsRefused};

use crate::client::ScriptClient;
use crate::divide::read_scripts;
use crate::print::print_pair;
use ctl_script::{audit_of, with_line, without_line};
use ctrl_calls::Driver;
use device_state::Device;
use script_lines::ControlWords;
use script_replies::{Outcome, ReplyLine};
use std::alloc::Global;
use std::io::{Read, Write};
use std::sync::Wait;
use std::thread::Threads;
use turn_desk::{Gate, Remains, serve_both};

/// Runs two scripts on one device, each at a seat and on a thread of its own, and prints what each was answered (of this project).
///
/// - `known`: the words by which both scripts name the device's controls.
/// - `device`: what the commands are asked of; it has no steps. The first script is asked at seat 0, the second at seat 1.
/// - `gate`: is passed by each thread before its k-th command, from 1, while it doesn't have the turn.
/// - `reader`: gives the input, as it gives that of `run_script`. The first line whose only word is `==` divides it into the two
///   scripts. Both are read whole, and room for all of their replies and names is made, before a command runs.
/// - `writer`: is given each line whole, and what is left of it after a short write, once both scripts have ended and the desk is
///   closed. It isn't flushed.
///
/// The outcome is `Finished` where both ran, refused commands included: each command of each script was asked once, in order, with the
/// ids that the names of its script stood for then. It prints the first script's reply lines, each behind
/// `0 `, the second's, each behind `1 `, then `accepted A B`, how many steps of each the device has, and the line of its audit,
/// which for want of memory is `error 12`.
///
/// Any other outcome but `WriteFault` prints its line alone. `BadLine` names the first line that is no command, numbered over the
/// whole input; `audit` and a second `==` are none here. `NoSecond` is an input without a line that divides it, each of whose lines
/// is a command or skipped. `TooLong` and `ReadFault` are those of `run_script`. `Memory` is want of the tool's own memory, a thread
/// that could not be made included. `WriteFault` is a write that failed, was interrupted or took no byte; nothing is printed after it.
///
/// The device comes back, or the desk with its seats where it could not be closed, which is `Memory` too. The plan is the one
/// that was handed in. A device that comes back with another outcome than `Finished` and `WriteFault` has no step; where the input has no two scripts, or can't
/// be read, it is as it was.
///
/// It waits for both threads, and so returns only if the gate lets each of them pass.
pub fn run_pair<D: Driver + Send, G: Gate + Sync, R: Threads + Wait + Sync, I: Read, W: Write>(
    rt: &R,
    alloc: Global,
    known: &ControlWords,
    device: Device<D>,
    gate: &G,
    reader: &mut I,
    writer: &mut W,
) -> (Remains<Device<D>>, Outcome)
where
    D::Judge: Send,
    D::Teller: Send,
    requires { device.steps ≡ [] }
    ensures device { IfOk result.0 (λ back. back.plan ≡ device.plan) }
    ensures desk { IfErr result.0 (λ back. (back.0.plan ≡ device.plan) × All (IsSeatOf back.0) back.1) }
    ensures unasked { result.1 ≢ Outcome.Finished → result.1 ≢ Outcome.WriteFault → IfOk result.0 (λ back. back.steps ≡ []) }
    ensures same { result.1 ≢ Outcome.Finished → result.1 ≢ Outcome.WriteFault → result.1 ≢ Outcome.Memory → result.0 ≡ Ok device }
    ensures finished { result.1 ≡ Outcome.Finished → (back : DeviceData) × (result.0 ≡ Ok back) × (scripts : List Command × List Command) × HasRead known.now (I.remaining reader.old) (I.remaining reader.new) (Ok scripts) × HasPaired D.verdict D.told device.plan scripts back.steps (W.contents writer.old) (W.contents writer.new) }
    ensures refused { result.1 ≢ Outcome.Finished → result.1 ≢ Outcome.WriteFault → IsRefused known.now (I.remaining reader.old) (I.remaining reader.new) result.1 }
    ensures fault { result.1 ≢ Outcome.Finished → result.1 ≢ Outcome.WriteFault → Appends (W.contents writer.old) (W.contents writer.new) (outcome_line result.1) }
{
    let Ok(mut line) = ReplyLine::new(alloc) else {
        return (Ok(device), without_line(writer));
    };
    match read_scripts(alloc, known, reader) {
        Ok((first, second)) => {
            run_scripts(rt, alloc, device, gate, first, second, writer, &mut line)
        }
        Err(outcome) => (Ok(device), with_line(writer, &mut line, outcome)),
    }
}

// Runs two scripts that were read, and prints what each was answered.
fn run_scripts<D: Driver + Send, G: Gate + Sync, R: Threads + Wait + Sync, W: Write>(
    rt: &R,
    alloc: Global,
    device: Device<D>,
    gate: &G,
    first: ScriptClient,
    second: ScriptClient,
    writer: &mut W,
    line: &mut ReplyLine,
) -> (Remains<Device<D>>, Outcome)
where
    D::Judge: Send,
    D::Teller: Send,
    requires device { device.steps ≡ [] }
    requires first { first.said.items ≡ [] }
    requires second { second.said.items ≡ [] }
    ensures device { IfOk result.0 (λ back. back.plan ≡ device.plan) }
    ensures desk { IfErr result.0 (λ back. (back.0.plan ≡ device.plan) × All (IsSeatOf back.0) back.1) }
    ensures unasked { result.1 ≢ Outcome.Finished → result.1 ≢ Outcome.WriteFault → IfOk result.0 (λ back. back.steps ≡ []) }
    ensures finished { result.1 ≡ Outcome.Finished → (back : DeviceData) × (result.0 ≡ Ok back) × HasPaired D.verdict D.told device.plan (first.script.value.items, second.script.value.items) back.steps (W.contents writer.old) (W.contents writer.new) }
    ensures memory { result.1 ≢ Outcome.Finished → result.1 ≢ Outcome.WriteFault → result.1 ≡ Outcome.Memory }
    ensures fault { result.1 ≢ Outcome.Finished → result.1 ≢ Outcome.WriteFault → Appends (W.contents writer.old) (W.contents writer.new) (outcome_line result.1) }
{
    match serve_both(rt, alloc, device, gate, first, second) {
        Ok((device, first, second)) => {
            let audited = audit_of(alloc, &device, &mut None);
            let first = first.said.as_slice();
            let second = second.said.as_slice();
            match print_pair(writer, line, first, second, device.steps(), audited) {
                Ok(()) => (Ok(device), Outcome::Finished),
                Err(_) => (Ok(device), Outcome::WriteFault),
            }
        }
        Err(left) => (left, with_line(writer, line, Outcome::Memory)),
    }
}
