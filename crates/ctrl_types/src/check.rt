ghost use Rattle.std.specs.Prelude.{◌≡◌, None, Some};

use crate::errno::{Errno, Fault};

/// What can refuse an ask: a check of docs/RULES.md that doesn't hold, named for the fault (of this project).
#[derive(Clone, Copy, Debug, PartialEq, Eq)]
pub enum Check {
    /// Check 1: the file handle that a list comes through isn't open.
    ListHandleNotOpen,
    /// Check 2: `which` can't be read.
    WhichUnknown,
    /// Check 2: a list that writes speaks of the defaults.
    DefaultsWritten,
    /// Check 3: the request that a list speaks of isn't named, or isn't there.
    ListRequestMissing,
    /// Check 3: the request that a list speaks of isn't idle, and the list writes.
    ListRequestNotIdle,
    /// Check 3: the request that a list speaks of isn't complete, and the list reads.
    ListRequestNotComplete,
    /// Check 4: a list has more than 64 entries.
    TooManyEntries,
    /// Check 5: a list without entries is about a class of which no control is shown.
    ClassNotShown,
    /// Check 6: an entry's id isn't shown to the file handle.
    EntryNotShown,
    /// Check 6: an entry's id is of another class than the list.
    EntryOfOtherClass,
    /// Check 6: the control of an entry is DISABLED.
    EntryDisabled,
    /// Check 7: a control of a list that reads is WRITE_ONLY.
    EntryWriteOnly,
    /// Check 7: a control of a list that writes is READ_ONLY.
    EntryReadOnly,
    /// Check 7: a control that is to be set is grabbed.
    EntryGrabbed,
    /// Check 7, and of a value check 51: a menu's index lies outside its range.
    ValueOutsideMenu,
    /// Check 7, and of a value check 52: a menu skips the item.
    ValueSkipped,
    /// Check 7, and of a value check 57: an array is given a number or another count of bytes, or another control bytes.
    ValueNotOfKind,
    /// Check 8: a cluster doesn't take its row, with the errno of the first member that doesn't settle, or else of judging.
    RowRefused(Errno),
    /// Check 9: 1,000,000 steps are kept, and the list sets.
    ListHistoryFull,
    /// Check 10: there is no such handler.
    HandlerMissing,
    /// Check 11: 64 file handles are open.
    TooManyHandles,
    /// Check 12: the file handle isn't open.
    HandleNotOpen,
    /// Check 13: there is no such control.
    ControlMissing,
    /// Check 14: there is no such cluster.
    ClusterMissing,
    /// Check 15: the id isn't shown to the file handle.
    IdNotShown,
    /// Check 16: no id greater than the one given is shown to the file handle.
    NoGreaterId,
    /// Check 17: the control is no menu, or has no item at the index.
    ItemMissing,
    /// Check 18: 64 requests are there.
    TooManyRequests,
    /// Check 19: there is no such request.
    RequestMissing,
    /// Check 20: the request isn't idle.
    NotIdle,
    /// Check 21: the request has a buffer already.
    AlreadyHasBuffer,
    /// Check 22: another request that isn't complete holds the buffer's number.
    BufferHeld,
    /// Check 23: the request has no buffer.
    BufferMissing,
    /// Check 24: a frame is being made.
    FrameRunning,
    /// Check 25: no request is queued.
    QueueEmpty,
    /// Check 26: no frame is being made.
    NoFrameRunning,
    /// Check 27: the frame of the request is being made.
    RequestRunning,
    /// Check 28: the request isn't queued.
    NotQueued,
    /// Check 29: the request is queued or running.
    StillPending,
    /// Check 30: the request isn't complete; answered to a driver's reader of what its frame had (`Device::snapshot`) alone.
    NotComplete,
    /// Check 31: no frame is queued at the place.
    NothingQueuedThere,
    /// Check 32: no event waits for the file handle.
    NoEventWaits,
    /// Check 33: 1,000,000 steps are kept.
    HistoryFull,
    /// Check 34: a growth was refused.
    MemoryRefused,
    /// Check 55, and of a control check 35: the minimum of a range lies above its maximum.
    RangeReversed,
    /// Check 55, and of a control check 36: the step of an INTEGER, an INTEGER64 or an array of bytes is 0.
    RangeStepZero,
    /// Check 55, and of a control check 37: the bounds or the step of a range aren't of the control's kind.
    RangeNotOfKind,
    /// Check 55, and of a control check 38: the control doesn't take the default of a range as it is.
    RangeDefaultNotTaken,
}

impl Check {
    ghost use Rattle.ctrl_types.specs.Checks.{errno_of, check_number, part_of};

    /// The errno that an ask is refused with, as the tables of docs/RULES.md have it; of a cluster that doesn't take its row the one that it comes with.
    pub fn errno(self) -> Errno
        ensures { result ≡ errno_of self }
    {
        match self {
            Check::ListHandleNotOpen | Check::HandleNotOpen => Errno::EBADF,
            Check::WhichUnknown
            | Check::DefaultsWritten
            | Check::ListRequestMissing
            | Check::TooManyEntries
            | Check::ClassNotShown
            | Check::EntryNotShown
            | Check::EntryOfOtherClass
            | Check::EntryDisabled
            | Check::ValueSkipped
            | Check::ValueNotOfKind
            | Check::HandlerMissing
            | Check::ControlMissing
            | Check::ClusterMissing
            | Check::IdNotShown
            | Check::NoGreaterId
            | Check::ItemMissing
            | Check::RequestMissing
            | Check::NotQueued => Errno::EINVAL,
            Check::ListRequestNotIdle
            | Check::EntryGrabbed
            | Check::NotIdle
            | Check::AlreadyHasBuffer
            | Check::BufferHeld
            | Check::FrameRunning
            | Check::RequestRunning
            | Check::StillPending => Errno::EBUSY,
            Check::ListRequestNotComplete
            | Check::EntryWriteOnly
            | Check::EntryReadOnly
            | Check::NotComplete => Errno::EACCES,
            Check::RowRefused(errno) => errno,
            Check::ListHistoryFull
            | Check::TooManyHandles
            | Check::TooManyRequests
            | Check::HistoryFull => Errno::ENOSPC,
            Check::BufferMissing
            | Check::QueueEmpty
            | Check::NoFrameRunning
            | Check::NothingQueuedThere
            | Check::NoEventWaits => Errno::ENOENT,
            Check::MemoryRefused => Errno::ENOMEM,
            Check::ValueOutsideMenu
            | Check::RangeReversed
            | Check::RangeStepZero
            | Check::RangeNotOfKind
            | Check::RangeDefaultNotTaken => Errno::ERANGE,
        }
    }

    /// Its number in docs/RULES.md, as an ask is refused by it: 1 to 34, or 55.
    pub fn number(self) -> u32
        ensures { result ≡ check_number self }
    {
        match self {
            Check::ListHandleNotOpen => 1,
            Check::WhichUnknown | Check::DefaultsWritten => 2,
            Check::ListRequestMissing | Check::ListRequestNotIdle | Check::ListRequestNotComplete =>
                3,
            Check::TooManyEntries => 4,
            Check::ClassNotShown => 5,
            Check::EntryNotShown | Check::EntryOfOtherClass | Check::EntryDisabled => 6,
            Check::EntryWriteOnly
            | Check::EntryReadOnly
            | Check::EntryGrabbed
            | Check::ValueOutsideMenu
            | Check::ValueSkipped
            | Check::ValueNotOfKind => 7,
            Check::RowRefused(_) => 8,
            Check::ListHistoryFull => 9,
            Check::HandlerMissing => 10,
            Check::TooManyHandles => 11,
            Check::HandleNotOpen => 12,
            Check::ControlMissing => 13,
            Check::ClusterMissing => 14,
            Check::IdNotShown => 15,
            Check::NoGreaterId => 16,
            Check::ItemMissing => 17,
            Check::TooManyRequests => 18,
            Check::RequestMissing => 19,
            Check::NotIdle => 20,
            Check::AlreadyHasBuffer => 21,
            Check::BufferHeld => 22,
            Check::BufferMissing => 23,
            Check::FrameRunning => 24,
            Check::QueueEmpty => 25,
            Check::NoFrameRunning => 26,
            Check::RequestRunning => 27,
            Check::NotQueued => 28,
            Check::StillPending => 29,
            Check::NotComplete => 30,
            Check::NothingQueuedThere => 31,
            Check::NoEventWaits => 32,
            Check::HistoryFull => 33,
            Check::MemoryRefused => 34,
            Check::RangeReversed
            | Check::RangeStepZero
            | Check::RangeNotOfKind
            | Check::RangeDefaultNotTaken => 55,
        }
    }

    /// The check of a value (51, 52 or 57) or of a range (35 to 38) that is meant, where check 7 or 55 is made of several in docs/RULES.md.
    pub fn part(self) -> Option<u32>
        ensures { result ≡ part_of self }
    {
        match self {
            Check::ValueOutsideMenu => Some(51),
            Check::ValueSkipped => Some(52),
            Check::ValueNotOfKind => Some(57),
            Check::RangeReversed => Some(35),
            Check::RangeStepZero => Some(36),
            Check::RangeNotOfKind => Some(37),
            Check::RangeDefaultNotTaken => Some(38),
            _ => None,
        }
    }

    /// The refusal by this check of an ask that isn't about a list (of this project): its errno, without an index.
    pub fn fault(self) -> Fault
        ensures { result ≡ record { errno = errno_of self; index = None } }
    {
        Fault {
            errno: self.errno(),
            index: None,
        }
    }

    /// The refusal by this check of a list (Linux userspace API, "struct v4l2_ext_controls", `error_idx`): its errno, with an index.
    ///
    /// - `index`: the index that goes with it, a place from 0 or the number of entries.
    pub fn fault_at(self, index: u32) -> Fault
        ensures { result ≡ record { errno = errno_of self; index = Some index } }
    {
        Fault {
            errno: self.errno(),
            index: Some(index),
        }
    }
}
