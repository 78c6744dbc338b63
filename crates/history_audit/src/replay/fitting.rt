//! Whether a step that gives neither pairs nor a range may follow.

ghost use Rattle.std.specs.Prelude.{◌≡◌, ◌↔◌, false, length, IsTrue};
ghost use Rattle.history.specs.Past.{past};
ghost use Rattle.device_history.specs.Refusals.{is_full};
ghost use Rattle.history_audit.specs.Changing.{fits_parts};
ghost use Rattle.history_audit.specs.Replay.{MayBeNext, is_judged};
ghost use Rattle.device_parts.specs.Leaving.{NamesKnown};

use super::Replay;
use ctrl_calls::Driver;
use device_history::{MAX_FILE_HANDLES, Step};

impl<'a, D: Driver> Replay<'a, D> {
    // Whether a step that gives neither pairs nor a range may follow those that were replayed.
    pub(super) fn fits(&self, step: &Step) -> bool
        requires { is_judged step.now ≡ false }
        ensures follows { IsTrue result ↔ MayBeNext D.verdict self.now step.now }
        ensures room { IsTrue result → is_full (past self.now.steps) ≡ false }
        ensures known { IsTrue result → NamesKnown (length self.now.plan.controls) step.now }
    {
        if self.is_full() {
            return false;
        }
        self.is_unrefused(step)
    }

    // Whether nothing refuses it but that no further step is kept.
    fn is_unrefused(&self, step: &Step) -> bool
        requires { is_judged step.now ≡ false }
        ensures { result ≡ fits_parts D.verdict self.now.plan (past self.now.steps) step.now }
    {
        let frames = self.state.frames();
        let requests = frames.requests();
        match step {
            Step::OpenFh { handler } => {
                self.plan.has_handler(*handler)
                    && self.state.file_handles().len() < MAX_FILE_HANDLES
            }
            Step::CloseFh { fh } => self.handler_of(*fh).is_some(),
            Step::Grab { control, .. } => *control < self.plan.control_count(),
            Step::Alloc => requests.alloc_refusal().is_none(),
            Step::Buffer { request, buffer } => {
                requests.buffer_refusal(*request, *buffer).is_none()
            }
            Step::Queue { request } => requests.queue_refusal(*request).is_none(),
            Step::Begin { request } => {
                frames.running().is_none() && frames.queued(0) == Some(*request)
            }
            Step::Complete { request } => frames.running() == Some(*request),
            Step::Cancel { request } => frames.cancel_refusal(*request).is_none(),
            Step::StreamOff => true,
            Step::Reinit { request } => requests.clear_refusal(*request).is_none(),
            Step::Free { request } => requests.clear_refusal(*request).is_none(),
            Step::Subscribe { fh, control, .. } => self.shows(*fh, *control),
            Step::Unsubscribe {
                fh,
                control: Some(control),
            } => self.shows(*fh, *control),
            Step::Unsubscribe { fh, control: None } => self.handler_of(*fh).is_some(),
            Step::Take { fh, control } => self.waits_first(*fh, *control),
            Step::Set { .. } | Step::Store { .. } | Step::ModifyRange { .. } => false,
        }
    }
}
