//! How an input is divided into two scripts, which are read whole before anything runs.
ghost use Rattle.std.specs.Prelude.{◌≡◌, ℕ, ◌+◌, ◌≤◌, false, List, [], ◌∷◌, All, length, IfOk, IfErr, OnOk, Ok, Err, None};
ghost use Rattle.script_replies.specs.declared.outcome.Outcome.TheVariants.{BadLine};
ghost use Rattle.ctl_script.specs.Lines.{lines_in};
ghost use Rattle.ctl_pair.specs.Scripts.{HasAdded, HasRead, IsAsk, IsRefused, IsUndivided, added_by, behind_both, scripts_in};

use crate::client::ScriptClient;
use ctl_script::{InputFault, first_line, read_input};
use script_lines::{Command, ControlWords, LineFault, divides, read_line};
use script_replies::Outcome;
use std::alloc::Global;
use std::io::Read;

/// The two scripts of an input (of this project), with all the memory that they need. The error is the outcome.
///
/// - `alloc`: where they lie.
/// - `known`: the words by which the scripts may name controls.
/// - `reader`: the input, which is read to its end, but no further than a script may be long.
pub fn read_scripts<I: Read>(
    alloc: Global,
    known: &ControlWords,
    reader: &mut I,
) -> Result<(ScriptClient, ScriptClient), Outcome>
    ensures new { IfOk result (λ r. (r.0.said.items ≡ []) × (r.1.said.items ≡ [])) }
    ensures scripts { IfOk result (λ r. HasRead known.now (I.remaining reader.old) (I.remaining reader.new) (Ok (r.0.script.value.items, r.1.script.value.items))) }
    ensures fault { IfErr result (IsRefused known.now (I.remaining reader.old) (I.remaining reader.new)) }
{
    let text = match read_input(alloc, reader) {
        Ok(text) => text,
        Err(InputFault::TooLong) => return Err(Outcome::TooLong),
        Err(InputFault::Reader) => return Err(Outcome::ReadFault),
        Err(InputFault::Memory) => return Err(Outcome::Memory),
    };
    let (first, second) = match divided(alloc, known, text.as_slice()) {
        Ok(scripts) => scripts,
        Err(outcome) => return Err(outcome),
    };
    let Ok(first) = ScriptClient::new(alloc, first) else {
        return Err(Outcome::Memory);
    };
    match ScriptClient::new(alloc, second) {
        Ok(second) => Ok((first, second)),
        Err(_) => Err(Outcome::Memory),
    }
}

// The commands before the first line that divides a text, and those behind it.
fn divided(
    alloc: Global,
    known: &ControlWords,
    text: &[u8],
) -> Result<(Vec<Command>, Vec<Command>), Outcome>
    requires { length text.now ≤ 1048576 }
    ensures scripts { IfOk result (λ r. scripts_in known.now false 1 (lines_in text.now) ≡ Ok (r.0.items, r.1.items)) }
    ensures first { IfOk result (λ r. All IsAsk r.0.items) }
    ensures second { IfOk result (λ r. All IsAsk r.1.items) }
    ensures fault { IfErr result (IsUndivided known.now (lines_in text.now)) }
{
    let mut scripts = Scripts::new(alloc);
    let mut number = 0;
    let mut rest = Some(text);
    while let Some(text) = rest {
        let (line, more) = first_line(text);
        number += 1;
        rest = more;
        match scripts.add_line(alloc, known, line) {
            Ok(()) => {}
            Err(LineFault::NotACommand) => return Err(Outcome::BadLine(number)),
            Err(LineFault::Memory) => return Err(Outcome::Memory),
        }
    }
    if scripts.is_second {
        Ok((scripts.first, scripts.second))
    } else {
        Err(Outcome::NoSecond)
    }
}

// Two scripts, as far as an input was read.
#[derive(Drop)]
struct Scripts {
    first: Vec<Command>,
    second: Vec<Command>,
    // the line that divides them has come
    is_second: bool,
    ghost of_first: { All IsAsk first.items },
    ghost of_second: { All IsAsk second.items },
}

impl Scripts {
    fn new(alloc: Global) -> Scripts
        ensures first { result.first.items ≡ [] }
        ensures second { result.second.items ≡ [] }
        ensures is_second { result.is_second ≡ false }
    {
        Scripts {
            first: Vec::new(alloc),
            second: Vec::new(alloc),
            is_second: false,
        }
    }

    // Adds what a line says.
    fn add_line(
        &mut self,
        alloc: Global,
        known: &ControlWords,
        line: &[u8],
    ) -> Result<(), LineFault>
        requires { length line.now ≤ 1048576 }
        ensures added { OnOk result ((number : ℕ) (lines : List (List ℕ)) → behind_both self.old.first.items self.old.second.items (scripts_in known.now self.old.is_second number (line.now ∷ lines)) ≡ behind_both self.new.first.items self.new.second.items (scripts_in known.now self.new.is_second (number + 1) lines)) }
        ensures fault { result ≡ Err LineFault.NotACommand → (number : ℕ) (lines : List (List ℕ)) → scripts_in known.now self.old.is_second number (line.now ∷ lines) ≡ Err (BadLine number) }
    {
        if self.is_second {
            return add_command(alloc, known, &mut self.second, line);
        }
        if divides(line) {
            self.is_second = true;
            return Ok(());
        }
        add_command(alloc, known, &mut self.first, line)
    }
}

// Adds the command of a line to a script, if it has one. An audit is none here.
fn add_command(
    alloc: Global,
    known: &ControlWords,
    script: &mut Vec<Command>,
    line: &[u8],
) -> Result<(), LineFault>
    requires { length line.now ≤ 1048576 }
    ensures added { OnOk result (HasAdded known.now line.now script.old.items script.new.items) }
    ensures fault { result ≡ Err LineFault.NotACommand → added_by known.now line.now ≡ None }
    ensures asks { All IsAsk script.old.items → All IsAsk script.new.items }
{
    match read_line(alloc, known, line) {
        Ok(None) => Ok(()),
        Ok(Some(Command::Audit)) => Err(LineFault::NotACommand),
        Ok(Some(command)) => match script.push(command) {
            Ok(()) => Ok(()),
            Err(_) => Err(LineFault::Memory),
        },
        Err(fault) => Err(fault),
    }
}
