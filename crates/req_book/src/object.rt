ghost use Rattle.std.specs.Prelude.{◌≡◌, ◌&&◌, ◌<◌, ◌↔◌, IsTrue, length, not, [], None, Some, Ok, Err, is_some, if◌then◌else◌, MatchResult};
ghost use Rattle.ctrl_types.specs.declared.check.Check.TheVariants as checks;
ghost use Rattle.ctrl_types.specs.Checks.{errno_of};
ghost use Rattle.req_book.specs.Refusals.{store_check, queue_check, clear_check, snapshot_answer};
ghost use Rattle.req_book.specs.Objects.{request_at, snapshot_seen};
ghost use Rattle.req_book.specs.Alike.{compared};
ghost use Rattle.req_book.specs.Requests.{is_number, is_idle, is_complete, value_of_control};
ghost use Rattle.req_book.specs.declared.state.RequestState.TheVariants as states;

use crate::state::RequestState;
use ctrl_types::{Check, CtrlValue, Errno, Pair};
use std::alloc::Global;

/// What is kept of a media request.
#[derive(Drop)]
pub(crate) struct Object {
    pub(crate) state: RequestState,
    /// The number of the buffer that it holds.
    pub(crate) buffer: Option<u32>,
    /// What it asks for: of each control the last stored pair, in order of control numbers.
    pub(crate) pairs: Vec<Pair>,
    /// From its queueing on: what each control got at its begin, where it did.
    pub(crate) applied: Vec<Option<CtrlValue>>,
    /// From its queueing on: room for a value of each control; of a complete one the values that its frame had.
    pub(crate) values: Vec<CtrlValue>,
}

impl Object {
    /// A new one. It takes no memory.
    pub(crate) fn new(alloc: Global) -> Object
        ensures state { result.state ≡ states.Idle }
        ensures buffer { result.buffer ≡ None }
        ensures pairs { result.pairs.items ≡ [] }
        ensures applied { result.applied.items ≡ [] }
    {
        Object {
            state: RequestState::Idle,
            buffer: None,
            pairs: Vec::new(alloc),
            applied: Vec::new(alloc),
            values: Vec::new(alloc),
        }
    }

    /// Whether it is seen as another is, but for what its begin applied: what its frame had counts where it is complete. It takes no memory.
    pub(crate) fn is_like(&self, other: &Object) -> bool
        ensures { IsTrue result ↔ (compared (request_at 0 self.now) ≡ compared (request_at 0 other.now)) }
    {
        self.seen() == other.seen()
    }

    // The parts that are compared, as they are seen.
    fn seen(&self) -> (RequestState, Option<u32>, &[Pair], &[CtrlValue])
        ensures state { result.0 ≡ self.now.state }
        ensures buffer { result.1 ≡ self.now.buffer }
        ensures pairs { result.2.now ≡ self.now.pairs.items }
        ensures values { result.3.now ≡ snapshot_seen self.now.state self.now.values.items }
    {
        (
            self.state,
            self.buffer,
            self.pairs.as_slice(),
            self.seen_values(),
        )
    }

    // The values that its frame had, where it is complete.
    fn seen_values(&self) -> &[CtrlValue]
        ensures { result.now ≡ snapshot_seen self.now.state self.now.values.items }
    {
        match self.state {
            RequestState::Complete => self.values.as_slice(),
            _ => &[],
        }
    }

    /// Whether it holds a buffer number, which a complete one doesn't.
    pub(crate) fn holds_number(&self, number: u32) -> bool
        ensures { result ≡ (is_number self.now.buffer number && not (is_complete self.now.state)) }
    {
        self.buffer == Some(number) && self.state != RequestState::Complete
    }

    /// Why it takes no settings.
    pub(crate) fn store_refusal(&self) -> Option<Check>
        ensures { result ≡ store_check (Some (request_at 0 self.now)) }
    {
        match self.state {
            RequestState::Idle => None,
            _ => Some(Check::NotIdle),
        }
    }

    /// Why it takes no buffer, where the number is held or not.
    pub(crate) fn buffer_refusal(&self, is_number_held: bool) -> Option<Check>
        ensures { result ≡ (if not (is_idle self.now.state) then Some checks.NotIdle else if is_some self.now.buffer then Some checks.AlreadyHasBuffer else if is_number_held then Some checks.BufferHeld else None) }
    {
        if self.state != RequestState::Idle {
            Some(Check::NotIdle)
        } else if self.buffer.is_some() {
            Some(Check::AlreadyHasBuffer)
        } else if is_number_held {
            Some(Check::BufferHeld)
        } else {
            None
        }
    }

    /// Why it isn't queued.
    pub(crate) fn queue_refusal(&self) -> Option<Check>
        ensures { result ≡ queue_check (Some (request_at 0 self.now)) }
    {
        if self.state != RequestState::Idle {
            Some(Check::NotIdle)
        } else if self.buffer.is_none() {
            Some(Check::BufferMissing)
        } else {
            None
        }
    }

    /// Why it is neither made as new nor freed.
    pub(crate) fn clear_refusal(&self) -> Option<Check>
        ensures { result ≡ clear_check (Some (request_at 0 self.now)) }
    {
        match self.state {
            RequestState::Queued | RequestState::Running => Some(Check::StillPending),
            _ => None,
        }
    }

    /// What its frame had.
    pub(crate) fn snapshot(&self) -> Result<&[CtrlValue], Errno>
        ensures { MatchResult result (λ values. snapshot_answer (Some (request_at 0 self.now)) ≡ Ok values.now) (λ errno. snapshot_answer (Some (request_at 0 self.now)) ≡ Err errno) }
    {
        match self.state {
            RequestState::Complete => Ok(self.values.as_slice()),
            _ => Err(Check::NotComplete.errno()),
        }
    }

    /// The value of a control that its frame had. The caller owes a number below that of the device's controls.
    pub(crate) fn value_of(&self, control: u32) -> Result<CtrlValue, Errno>
        requires { self.now.state ≡ states.Complete → control < length self.now.values.items }
        ensures { result ≡ (if is_complete self.now.state then Ok (value_of_control self.now.values.items control) else Err (errno_of checks.NotComplete)) }
    {
        match self.state {
            RequestState::Complete => Ok(self.values[control as usize]),
            _ => Err(Check::NotComplete.errno()),
        }
    }
}
