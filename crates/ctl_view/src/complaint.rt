//! What is wrong with a command line.

use std::fmt;

// What an unknown flag may mean: one of v4l2-ctl, or the file of a device written otherwise.
fn meant(word: &str) -> &'static str {
    if word == "-d" || word.starts_with("--device=") {
        "; write --device FILE"
    } else if word == "-l" || word == "-L" || word.starts_with("--list-ctrls") {
        "; --list lists the device"
    } else {
        ""
    }
}

/// What is wrong with the words of a command line.
#[derive(Clone, Copy)]
pub enum Complaint<'a> {
    /// One of them isn't UTF-8.
    NotText,
    /// No flag is called so.
    Unknown(&'a str),
    /// No file stands behind `--device`.
    NoDevice,
    /// This is a second device.
    SecondDevice(&'a str),
    /// The first flag and another one, of which only one can be.
    SecondFlag(&'a str, &'a str),
    /// A word is empty.
    NoName,
    /// The script and a second one.
    SecondScript(&'a str, &'a str),
    /// `--check` without a device.
    CheckNoDevice,
    /// `--check` with this script.
    CheckScript(&'a str),
}

impl fmt::Display for Complaint<'_> {
    fn fmt<W: fmt::Write>(&self, f: &mut fmt::Formatter<W>) -> fmt::Result {
        let text = match self {
            Complaint::Unknown(word) => {
                return write!(f, "{word}: there is no such flag{}", meant(word));
            }
            Complaint::SecondDevice(file) => {
                return write!(f, "--device {file}: a device is named already");
            }
            Complaint::SecondFlag(first, word) if first == word => {
                return write!(f, "{word}: it stands there twice");
            }
            Complaint::SecondFlag(first, word) => {
                return write!(f, "{first} and {word}: only one of them can be");
            }
            Complaint::SecondScript(first, file) if *first == "run" => {
                return write!(f, "run {file}: leave run out, which is ctl_tool's");
            }
            Complaint::SecondScript(first, file) => {
                return write!(
                    f,
                    "{first} and {file}: only one script can be; --pair takes two in one file"
                );
            }
            Complaint::CheckScript(file) => {
                return write!(f, "{file}: --check takes no script");
            }
            Complaint::NotText => "a word isn't UTF-8",
            Complaint::NoDevice => "--device: the file of a device belongs behind it",
            Complaint::NoName => "an empty word names no file",
            Complaint::CheckNoDevice => "--check: name the file by --device FILE",
        };
        f.write_str(text)
    }
}
