ghost use Rattle.std.specs.Prelude.{◌≡◌};

/// Why a call was refused (Linux, "Generic Error Codes").
#[derive(Clone, Copy, Debug, PartialEq, Eq, Hash)]
pub enum Errno {
    /// There is no such thing.
    ENOENT,
    /// The file handle isn't open.
    EBADF,
    /// A growth was refused.
    ENOMEM,
    /// The control is read-only and was set, or write-only and was read.
    EACCES,
    /// Something else holds it now.
    EBUSY,
    /// An argument names nothing, or can't stand there.
    EINVAL,
    /// A limit is reached.
    ENOSPC,
    /// A menu's index lies outside its range, or a new range isn't one.
    ERANGE,
}

impl Errno {
    ghost use Rattle.ctrl_types.specs.Numbers.{errno_number};

    /// The number of the error, as `errno.h` has it.
    pub fn number(self) -> u32
        ensures { result ≡ errno_number self }
    {
        match self {
            Errno::ENOENT => 2,
            Errno::EBADF => 9,
            Errno::ENOMEM => 12,
            Errno::EACCES => 13,
            Errno::EBUSY => 16,
            Errno::EINVAL => 22,
            Errno::ENOSPC => 28,
            Errno::ERANGE => 34,
        }
    }
}

/// A refusal: the error, and for a control list the index that goes with it.
#[derive(Clone, Copy, Debug, PartialEq, Eq, Hash)]
pub struct Fault {
    /// The error.
    pub errno: Errno,
    /// The index that a control list answers (`error_idx`); `None` for every other ask.
    pub index: Option<u32>,
}
