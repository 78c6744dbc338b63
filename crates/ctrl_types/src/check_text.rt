//! What is said of a check, for people.

use crate::check::Check;

impl Check {
    /// What an ask didn't meet, as a sentence (of this project): of the checks 6 and 7 the part that is meant, of check 55 the first fault of the range. docs/RULES.md has each
    /// sentence with its check.
    pub fn text(self) -> &'static str {
        match self {
            Check::ListHandleNotOpen | Check::HandleNotOpen => "the file handle isn't open",
            Check::WhichUnknown => "WHICH is none of the numbers that it can be",
            Check::DefaultsWritten => "the defaults can't be written",
            Check::ListRequestMissing | Check::RequestMissing => "there is no such request",
            Check::ListRequestNotIdle | Check::NotIdle => "the request isn't idle",
            Check::ListRequestNotComplete => "the request isn't complete, so it can't be read",
            Check::TooManyEntries => "there are more than 64 entries",
            Check::ClassNotShown => "no control of this class is shown",
            Check::EntryNotShown | Check::IdNotShown => "the id isn't shown to the file handle",
            Check::EntryOfOtherClass => "the list is about another class than that of the id",
            Check::EntryDisabled => "the control is DISABLED",
            Check::EntryWriteOnly => "the control is WRITE_ONLY",
            Check::EntryReadOnly => "the control is READ_ONLY",
            Check::EntryGrabbed => "the control is grabbed",
            Check::ValueOutsideMenu => "the menu's index lies outside its range",
            Check::ValueSkipped => "the menu skips this item",
            Check::ValueNotOfKind => "the control takes no value of this form",
            Check::RowRefused(_) => "the cluster doesn't take the row",
            Check::ListHistoryFull | Check::HistoryFull => "1,000,000 steps are kept",
            Check::HandlerMissing => "there is no such handler",
            Check::TooManyHandles => "64 file handles are open",
            Check::ControlMissing => "there is no such control",
            Check::ClusterMissing => "there is no such cluster",
            Check::NoGreaterId => "no greater id is shown to the file handle",
            Check::ItemMissing => "the control is no menu, or has no item at this index",
            Check::TooManyRequests => "64 requests are there",
            Check::AlreadyHasBuffer => "the request has a buffer already",
            Check::BufferHeld => "another request that isn't complete holds this buffer",
            Check::BufferMissing => "the request has no buffer",
            Check::FrameRunning => "a frame is being made",
            Check::QueueEmpty => "no request is queued",
            Check::NoFrameRunning => "no frame is being made",
            Check::RequestRunning => "the frame of the request is being made",
            Check::NotQueued => "the request isn't queued",
            Check::StillPending => "the request is queued or running",
            Check::NotComplete => "the request isn't complete",
            Check::NothingQueuedThere => "no frame is queued at this place",
            Check::NoEventWaits => "no event waits for the file handle",
            Check::MemoryRefused => "a growth was refused",
            Check::RangeReversed => "the minimum lies above the maximum",
            Check::RangeStepZero => "the step of an INTEGER, an INTEGER64 or an array is 0",
            Check::RangeNotOfKind => "the bounds or the step aren't of the control's kind",
            Check::RangeDefaultNotTaken => "the control doesn't take the default as it is",
        }
    }
}
