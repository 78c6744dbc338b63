//! The reasons, and how they are said.

use crate::names::Words;
use crate::shown::{Quoted, Word};
use script_lines::VERB_WORDS;
use std::fmt;

/// Which word of a line is wrong, and why.
#[derive(Clone, Copy)]
pub struct Complaint<'a> {
    /// The number of the word, from 1; of one that is missing, the number that it would have.
    pub word: usize,
    /// What is wrong with it.
    pub reason: Reason<'a>,
}

/// What is wrong with a word of a line.
#[derive(Clone, Copy)]
pub struct Reason<'a> {
    // none where it is missing
    word: Option<&'a [u8]>,
    fault: Fault<'a>,
}

/// What a word of a line has that no command has there.
#[derive(Clone, Copy)]
pub(crate) enum Fault<'a> {
    /// It is against this rule.
    Against(Rule),
    /// No command begins with it, and this one is near.
    NearCommand(Word<'a>),
    /// No command begins with it, and none is near.
    NoCommand,
    /// It is missing: what it is to be, and the command's form.
    Missing(&'static str, &'static str),
    /// The command ends before it: its form.
    Further(&'static str),
    /// It isn't what it is to be.
    Not(&'static str),
    /// It is to be this name, and is too long.
    LongName(&'static str),
    /// It is to be this name, and has none or other characters.
    Name(&'static str),
    /// It is hexadecimal, and in decimal has this sign and these digits.
    Hexadecimal(&'static str, u64),
    /// It is to be this number without a sign, and is too large.
    LargeNumber(&'static str),
    /// It is to be this number without a sign.
    Number(&'static str),
    /// It is to be this bound or default of a range, and is no number of 64 bits.
    Bound(&'static str),
    /// It is to be a control, and the device has a word that is near.
    NearWord(Word<'a>),
    /// It is to be a control, and the device has these words.
    NoWord(Words<'a>),
    /// It is to be a word, and is the id of the control with this one.
    IdOfWord(Word<'a>),
    /// It is to be an id, and is the word of the control with this one.
    WordOfId(u32),
    /// It has the name of an item in place of its index.
    Item(&'a str, u32),
    /// It is to be a cluster's number, and is the word of a control in the one with this number.
    ClusterOf(Word<'a>, u32),
    /// The value is to be so many bytes.
    Bytes(u32),
}

/// What holds of words, and is always said in the same words.
#[derive(Clone, Copy)]
pub(crate) enum Rule {
    /// Lines end with a line feed alone.
    CarriageReturn,
    /// Words are separated by spaces alone.
    Tab,
    /// Nothing stands before the first word.
    OrderMark,
    /// A comment begins a line.
    Comment,
    /// A comment begins with a sign of its own.
    CommentMark,
    /// A device file is no script.
    DeviceFile,
    /// A script has commands of its own.
    OtherProgram,
    /// Words have no quotation marks.
    Quotes,
    /// No comma stands between words.
    Comma,
    /// What divides two scripts belongs to none.
    Divides,
    /// Two scripts are divided once.
    DividesAgain,
    /// Two scripts are audited at the end.
    Audit,
    /// A step has 64 bits.
    LargeStep,
    /// How an id is written.
    Id,
    /// A request's name stands behind `req:`.
    Request,
    /// How a control is written with its value.
    Entry,
    /// A menu takes an index.
    Index,
    /// A BOOLEAN takes 0 or 1.
    ZeroOrOne,
    /// How a number is written.
    Value,
    /// How a value is written.
    AnyValue,
    /// How a file handle subscribes.
    Subscription,
}

impl<'a> Complaint<'a> {
    /// That a word is wrong: `word`, which has this number from 1.
    pub(crate) fn of(number: usize, word: &'a [u8], fault: Fault<'a>) -> Complaint<'a> {
        let is_comment = number > 1 && (word.starts_with(b"#") || word.starts_with(b"//"));
        let fault = if is_comment {
            Fault::Against(Rule::Comment)
        } else {
            fault
        };
        Complaint {
            word: number,
            reason: Reason {
                word: Some(word),
                fault,
            },
        }
    }

    /// That a word is missing, which would have this number.
    pub(crate) fn of_missing(
        number: usize,
        what: &'static str,
        form: &'static str,
    ) -> Complaint<'a> {
        Complaint {
            word: number,
            reason: Reason {
                word: None,
                fault: Fault::Missing(what, form),
            },
        }
    }
}

impl<'a> Reason<'a> {
    /// The reason in words, as it is printed for people.
    ///
    /// - `device`: whose words name controls, as it stands behind `a word of`.
    pub fn text(self, device: &'a str) -> ReasonText<'a> {
        ReasonText {
            reason: self,
            device,
        }
    }
}

/// A reason in words.
#[derive(Clone, Copy)]
pub struct ReasonText<'a> {
    reason: Reason<'a>,
    device: &'a str,
}

impl fmt::Display for ReasonText<'_> {
    fn fmt<W: fmt::Write>(&self, f: &mut fmt::Formatter<W>) -> fmt::Result {
        if let Some(word) = self.reason.word {
            let word = Quoted(word);
            write!(f, "{word}: ")?;
        }
        write_fault(f, self.reason.fault, self.device)
    }
}

fn write_fault<W: fmt::Write>(
    f: &mut fmt::Formatter<W>,
    fault: Fault<'_>,
    device: &str,
) -> fmt::Result {
    match fault {
        Fault::Against(rule) => f.write_str(rule.text()),
        Fault::NearCommand(verb) => {
            write!(f, "no command begins with this word; the nearest is {verb}")
        }
        Fault::NoCommand => {
            f.write_str("no command begins with this word; docs/SCRIPTS.md has a table of them: ")?;
            write_commands(f)
        }
        Fault::Missing(what, form) => write!(f, "missing: {what}; the command is: {form}"),
        Fault::Further(form) => write!(f, "a word too many; the command is: {form}"),
        Fault::Not(what) => write!(f, "here belongs {what}"),
        Fault::LongName(what) => write!(f, "{what} has at most 16 characters"),
        Fault::Name(what) => write!(f, "{what} belongs here, of ASCII letters and digits"),
        Fault::Hexadecimal(sign, number) => {
            write!(f, "hexadecimal isn't taken; write {sign}{number}")
        }
        Fault::LargeNumber(what) => {
            write!(f, "{what} is at most 4294967295, and has at most 10 digits")
        }
        Fault::Number(what) => write!(f, "{what} belongs here, decimal and without a sign"),
        Fault::Bound(what) => write!(
            f,
            "{what} is a decimal number of 64 bits, of at most 19 digits behind an optional minus sign"
        ),
        Fault::NearWord(word) => write!(f, "no word of {device}; the nearest is {word}"),
        Fault::NoWord(words) => write!(f, "no word of {device}, whose words are {words}"),
        Fault::IdOfWord(word) => { write!(f, "a word of {device} belongs here, and no id: {word}") }
        Fault::WordOfId(id) => write!(f, "an id belongs here, and no word: 0x{id:08x}"),
        Fault::Item(name, index) => write!(f, "an item's index belongs here: {name} is {index}"),
        Fault::ClusterOf(word, cluster) => {
            write!(
                f,
                "a cluster's number belongs here: {word} is in cluster {cluster}"
            )
        }
        Fault::Bytes(count) => write!(
            f,
            "x and two hexadecimal digits for each byte belong here, and the array has {count}"
        ),
    }
}

// The first words of all commands.
fn write_commands<W: fmt::Write>(f: &mut fmt::Formatter<W>) -> fmt::Result {
    let mut between = "";
    for verb in VERB_WORDS {
        let verb = Word(verb);
        write!(f, "{between}{verb}")?;
        between = ", ";
    }
    Ok(())
}

impl Rule {
    fn text(self) -> &'static str {
        match self {
            Rule::CarriageReturn => {
                "a carriage return at the end of the line; lines end with a line feed alone"
            }
            Rule::Tab => "a tab; words are separated by spaces",
            Rule::OrderMark => "a byte order mark before it; save the script without one",
            Rule::Comment => "a comment has a line of its own",
            Rule::CommentMark => "a comment begins with #",
            Rule::DeviceFile => {
                "no command begins with this word; a device file stands behind --device, and the script is another file"
            }
            Rule::OtherProgram => {
                "no command begins with this word; --set-ctrl=gain=5 is set FH cur gain=5 here, behind open FH HANDLER, and --get-ctrl=gain is get FH cur gain"
            }
            Rule::Quotes => "words and values stand without quotation marks",
            Rule::Comma => "words are separated by spaces, and not by commas",
            Rule::Divides => "two scripts are for ctl_tool pair, or ctl_view --pair",
            Rule::DividesAgain => "a second one; pair takes two scripts, which are divided once",
            Rule::Audit => "no command of two scripts; pair audits at the end by itself",
            Rule::LargeStep => {
                "the step is at most 18446744073709551615, and has at most 20 digits"
            }
            Rule::Id => "an id is 0x and 1 to 8 hexadecimal digits",
            Rule::Request => {
                "behind req: stands a request's name, of 1 to 16 ASCII letters and digits"
            }
            Rule::Entry => "a control, = and its value belong here, without spaces, as CTRL=V",
            Rule::Index => {
                "an item's index belongs here; menu FH CTRL N tells which item is at an index"
            }
            Rule::ZeroOrOne => "0 or 1 belongs here",
            Rule::Value => {
                "a value is a decimal number of 64 bits, of at most 19 digits behind an optional minus sign"
            }
            Rule::AnyValue => {
                "a value is a decimal number of 64 bits, of at most 19 digits behind an optional minus sign, or of an array x and two hexadecimal digits for each of 1 to 32 bytes"
            }
            Rule::Subscription => {
                "only initial, feedback, or initial feedback may stand behind the control"
            }
        }
    }
}
