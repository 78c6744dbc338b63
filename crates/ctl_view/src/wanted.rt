//! What the command line asks for.

use crate::complaint::Complaint;

/// What is done on a device.
#[derive(Clone, Copy, PartialEq, Eq)]
pub enum Task {
    /// A script is shown, each command beside its reply, and the queue as a table where a command asks for a row, and at the end.
    Show,
    /// The queue is shown also behind each command that changes it, or what it is made of.
    WithQueue,
    /// The replies alone are printed, as `ctl_tool run` prints them, with reasons on standard error.
    Why,
    /// The device is listed as it is behind a script, or at its start where no script is named, with reasons on standard error.
    List,
    /// What the queued frames will have behind a script is printed, as `ctl_tool board` prints it.
    Board,
    /// Two scripts are run, and their replies printed, as `ctl_tool pair` does it.
    Pair,
    /// It is said how large the device is.
    Check,
}

// The words that ask for these.
const TASKS: &[(&str, Task)] = &[
    ("--queue", Task::WithQueue),
    ("--why", Task::Why),
    ("--list", Task::List),
    ("--board", Task::Board),
    ("--pair", Task::Pair),
    ("--check", Task::Check),
];

/// What the command line asks for.
#[derive(Clone, Copy)]
pub struct Wanted<'a> {
    /// The file that describes the device; the sample device where there is none.
    pub device: Option<&'a str>,
    /// What is done on it.
    pub task: Task,
    /// The file of the script; where there is none, a task that needs one takes standard input.
    pub script: Option<&'a str>,
}

// What the words ask for that were read.
#[derive(Clone, Copy)]
struct Words<'a> {
    device: Option<&'a str>,
    flag: Option<(&'a str, Task)>,
    script: Option<&'a str>,
}

impl<'a> Wanted<'a> {
    /// What the words of a command line ask for, of which the first is the program. They stand in any order. The error is what is wrong with them, the first
    /// word that is.
    pub fn read(words: &'a [String]) -> Result<Wanted<'a>, Complaint<'a>> {
        let mut read = Words {
            device: None,
            flag: None,
            script: None,
        };
        let mut words = words.iter().skip(1);
        while let Some(word) = words.next() {
            match word.as_str() {
                "--device" => match words.next() {
                    Some(file) => read.take_device(file.as_str())?,
                    None => return Err(Complaint::NoDevice),
                },
                word if word.starts_with("-") => read.take_flag(word)?,
                file => read.take_script(file)?,
            }
        }
        read.wanted()
    }
}

impl<'a> Words<'a> {
    fn take_device(&mut self, file: &'a str) -> Result<(), Complaint<'a>> {
        if !is_file(file) {
            return Err(Complaint::NoDevice);
        }
        if self.device.is_some() {
            return Err(Complaint::SecondDevice(file));
        }
        self.device = Some(file);
        Ok(())
    }

    fn take_flag(&mut self, word: &'a str) -> Result<(), Complaint<'a>> {
        let Some((_, task)) = TASKS.iter().find(|it| it.0 == word) else {
            return Err(Complaint::Unknown(word));
        };
        if let Some((first, _)) = self.flag {
            return Err(Complaint::SecondFlag(first, word));
        }
        self.flag = Some((word, *task));
        Ok(())
    }

    fn take_script(&mut self, file: &'a str) -> Result<(), Complaint<'a>> {
        if !is_file(file) {
            return Err(Complaint::NoName);
        }
        if let Some(first) = self.script {
            return Err(Complaint::SecondScript(first, file));
        }
        self.script = Some(file);
        Ok(())
    }

    // What they ask for together.
    fn wanted(self) -> Result<Wanted<'a>, Complaint<'a>> {
        let Words {
            device,
            flag,
            script,
        } = self;
        let task = match flag {
            Some((_, task)) => task,
            None => Task::Show,
        };
        if let Task::Check = task {
            if device.is_none() {
                return Err(Complaint::CheckNoDevice);
            }
            if let Some(file) = script {
                return Err(Complaint::CheckScript(file));
            }
        }
        Ok(Wanted {
            device,
            task,
            script,
        })
    }
}

// Whether a word may name a file: one that begins with a hyphen is none.
fn is_file(word: &str) -> bool {
    !word.is_empty() && !word.starts_with("-")
}
