//! What subscriptions and takes need of a history.

ghost use Rattle.std.specs.Prelude.{◌≡◌};
ghost use Rattle.history.specs.Past.{past};
ghost use Rattle.req_book.specs.Requests.{is_number};
ghost use Rattle.device_history.specs.EventAnswers.{first_control};
ghost use Rattle.device_history.specs.Events.{pending};
ghost use Rattle.history_audit.specs.Changing.{shows_it};

use super::Replay;
use ctrl_calls::Driver;
use ctrl_types::FhId;

impl<'a, D: Driver> Replay<'a, D> {
    // Whether a control is shown to a file handle under its id.
    pub(super) fn shows(&self, fh: FhId, control: u32) -> bool
        ensures { result ≡ shows_it self.now.plan (past self.now.steps) fh control }
    {
        if control as usize >= self.plan.controls().len() {
            return false;
        }
        let Some(handler) = self.handler_of(fh) else {
            return false;
        };
        match self.plan.find(handler, self.plan.control(control).id()) {
            Ok(found) => found == control,
            Err(_) => false,
        }
    }

    // Whether the first event that waits for a file handle is of a control.
    pub(super) fn waits_first(&self, fh: FhId, control: u32) -> bool
        ensures { result ≡ is_number (first_control (pending D.verdict self.now.plan (past self.now.steps) fh)) control }
    {
        match self.state.events().waiting(fh, 0) {
            Some((first, _)) => first == control,
            None => false,
        }
    }
}
