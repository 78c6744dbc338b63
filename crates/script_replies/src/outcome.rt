ghost use Rattle.std.specs.Prelude.{◌≡◌};
ghost use Rattle.script_replies.specs.Replies.{status_of};

/// How the run of a script ended.
#[derive(Clone, Copy, Debug, PartialEq, Eq)]
pub enum Outcome {
    /// Every line was a command or skipped; refused commands count.
    Finished,
    /// The line with this number, from 1, is not a command.
    BadLine(u32),
    /// The input has more than 1,048,576 bytes.
    TooLong,
    /// The reader failed, or didn't come to an end.
    ReadFault,
    /// The writer failed, or took nothing.
    WriteFault,
    /// The input has no line that divides it into two scripts.
    NoSecond,
    /// A growth of the tool's own was refused.
    Memory,
}

impl Outcome {
    /// The exit status of the tool (of this project): 0 after `Finished`, and 1 after any other outcome.
    pub fn status(self) -> u8
        ensures { result ≡ status_of self }
    {
        match self {
            Outcome::Finished => 0,
            _ => 1,
        }
    }
}
