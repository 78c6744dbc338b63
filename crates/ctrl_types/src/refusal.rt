ghost use Rattle.std.specs.Prelude.{◌≡◌, None, Some};

use crate::check::Check;
use crate::errno::Fault;

/// What refuses an ask: the check that doesn't hold, and of a list the entry where it stands (Linux userspace API, "struct
/// v4l2_ext_controls", `error_idx`).
#[derive(Clone, Copy, Debug, PartialEq, Eq)]
pub struct Refusal {
    /// The check.
    pub check: Check,
    /// The place of the entry where it stands, from 0; none where a list is refused as a whole, and of an ask that is no list.
    pub entry: Option<u32>,
}

impl Refusal {
    ghost use Rattle.ctrl_types.specs.Refusals.{fault_at_count, fault_at_entry, memory_refusal, whole};

    /// A refusal of an ask as a whole.
    ///
    /// - `check`: the check that doesn't hold.
    pub fn whole(check: Check) -> Refusal
        ensures { result ≡ whole check }
    {
        Refusal { check, entry: None }
    }

    /// A refusal of a list at an entry.
    ///
    /// - `check`: the check that doesn't hold.
    /// - `entry`: the place of the entry, from 0.
    pub fn at(check: Check, entry: u32) -> Refusal
        ensures { result ≡ record { check = check; entry = Some entry } }
    {
        Refusal {
            check,
            entry: Some(entry),
        }
    }

    /// Want of memory, which refuses an ask as a whole: check 34 of docs/RULES.md (ENOMEM, 12).
    pub fn of_memory() -> Refusal
        ensures { result ≡ memory_refusal }
    {
        Refusal::whole(Check::MemoryRefused)
    }

    /// The fault that a get or a set is answered (the index is of this project): the errno of the check, and as the index the number of
    /// entries.
    ///
    /// - `count`: how many entries the list has.
    pub fn at_count(self, count: u32) -> Fault
        ensures { result ≡ fault_at_count count self }
    {
        self.check.fault_at(count)
    }

    /// The fault that a try is answered (the index is of this project): the errno of the check, and as the index the place of the entry where
    /// it stands, from 0; the number of entries where the list is refused as a whole.
    ///
    /// - `count`: how many entries the list has.
    pub fn at_entry(self, count: u32) -> Fault
        ensures { result ≡ fault_at_entry count self }
    {
        self.check.fault_at(self.entry.unwrap_or(count))
    }
}
