ghost use Rattle.ctrl_calls.specs.Meanings.{Verdicts, Words};

use crate::judging::Judging;
use crate::telling::Telling;

/// The half of a driver that judges rows. It has no code.
pub trait Validates {
    /// What its validators are: `Box<dyn Fn(ClusterRow) -> Verdict + Send>`, or a struct of its own.
    type Judge: Judging + Drop;

    /// What each relation makes of a row (Linux driver API, "V4L2 Controls": `try_ctrl` tests whether values are valid).
    ghost verdict: { Verdicts };
}

/// The half of a driver that is told rows. It has no code.
pub trait Notifies {
    /// What its notifiers are: `Box<dyn Fn(ClusterRow) -> u64 + Send>`, or a struct of its own.
    type Teller: Telling + Drop;

    /// Which words each relation allows to be told of a row (Linux driver API, "V4L2 Controls", "Adding Notify
    /// Callbacks"; that a word is answered is of this project).
    ghost told: { Words };
}

/// A driver: the meanings `verdict` and `told` of its relations, and the types of the closures that answer by them.
/// Whatever has both halves is one. Nothing is assumed of the meanings.
pub trait Driver: Validates + Notifies {}

impl<D: Validates + Notifies> Driver for D {}
