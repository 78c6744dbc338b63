ghost use Rattle.std.specs.Prelude.{◌≡◌, IfOk, Some, map};
ghost use Rattle.clap.specs.Words.{FailsBy, app_of, fault_of};
ghost use Rattle.command_line.specs.Modes.{Answers, name_of, subcommand_named, tool as tool_of};

use clap::error::ErrorKind;
use clap::{Command, Error};
use std::alloc::{AllocError, Global};
use std::convert::AsStr;
use thiserror::Error as ErrorType;

/// What the tool is to do.
#[derive(Clone, Copy, Debug, PartialEq, Eq)]
pub enum Mode {
    /// Answers a script line by line.
    Run,
    /// Answers two scripts, each on a thread of its own.
    Pair,
    /// Runs a script and prints what its queued frames will have.
    Board,
}

/// Why a command line names no mode.
#[derive(Clone, Copy, Debug, PartialEq, Eq, ErrorType)]
pub enum ModeFault {
    /// It is none of the tool's command lines.
    #[error("not a command line of this tool")]
    Usage,
    /// A growth was refused.
    #[error("no memory")]
    Memory,
}

/// The mode that a command line names; the first of its words is the program. `Usage` where it is none of the tool's, help
/// included; `Memory` where a growth was refused.
pub fn mode_of<S: AsStr>(alloc: Global, words: &[S]) -> Result<Mode, ModeFault>
    ensures { Answers result (map S.text words.now) }
{
    match find_subcommand(alloc, words) {
        Ok(mode) => Ok(mode),
        Err(error) => match error.kind() {
            ErrorKind::OutOfMemory => Err(ModeFault::Memory),
            _ => Err(ModeFault::Usage),
        },
    }
}

fn find_subcommand<S: AsStr>(alloc: Global, words: &[S]) -> Result<Mode, Error>
    ensures fails { FailsBy (fault_of tool_of (map S.text words.now)) result }
    ensures named { IfOk result (λ mode. subcommand_named (map S.text words.now) ≡ Some (name_of mode)) }
{
    match tool(alloc)?.try_get_matches_from(words) {
        // each command line of the tool names one of the three
        Ok(matches) => match matches.subcommand_name() {
            Some("board") => Ok(Mode::Board),
            Some("pair") => Ok(Mode::Pair),
            _ => Ok(Mode::Run),
        },
        Err(error) => Err(error),
    }
}

fn tool<'a>(alloc: Global) -> Result<Command<'a>, AllocError>
    ensures { IfOk result (λ command. app_of command ≡ tool_of) }
{
    let run = Command::new(alloc, "run");
    let pair = Command::new(alloc, "pair");
    let board = Command::new(alloc, "board");
    Command::new(alloc, "ctl_tool")
        .subcommand_required(true)
        .subcommand(run)?
        .subcommand(pair)?
        .subcommand(board)
}
