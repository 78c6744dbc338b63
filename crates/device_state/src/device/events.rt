//! What a device answers about control events.

ghost use Rattle.std.specs.Prelude.{◌≡◌, Some, IfOk, IfErr};
ghost use Rattle.std.specs.Result.{result_map_both};
ghost use Rattle.history.specs.Past.{past};
ghost use Rattle.ctrl_events.specs.Events.{event_at};
ghost use Rattle.device_history.specs.declared.ask.Ask.TheVariants as asks;
ghost use Rattle.device_history.specs.EventAnswers.{first_control, first_event};
ghost use Rattle.device_history.specs.Events.{next_sequence, pending};
ghost use Rattle.device_history.specs.Subscriptions.{subscribed};
ghost use Rattle.device_history.specs.AskChecks.{published};
ghost use Rattle.device_state.specs.Device.{Handles, MayRefuse};

use super::Device;
use ctrl_calls::Driver;
use ctrl_events::Event;
use ctrl_types::{Check, CtrlId, Fault, FhId, Refusal, SubFlags};
use device_history::{Ask, Reply, Step};

impl<D: Driver> Device<D> {
    /// How a file handle is subscribed to the events of a control, for a driver's own use (Linux userspace API, "ioctl VIDIOC_SUBSCRIBE_EVENT,
    /// VIDIOC_UNSUBSCRIBE_EVENT"): the flags of its first subscription since the last that was ended; none where it isn't open or isn't
    /// subscribed. It takes no memory.
    ///
    /// - `fh`: any file handle, open or not.
    /// - `control`: any number, of a control or not.
    pub fn subscribed(&self, fh: FhId, control: u32) -> Option<SubFlags>
        ensures { result ≡ subscribed (past self.now.steps) fh control }
    {
        self.state.events().subscribed(fh, control)
    }

    /// The event at a place of those that wait for a file handle, with its control's number, for a driver's own use (Linux userspace API, "ioctl
    /// VIDIOC_DQEVENT"): they wait in the order of their numbers, and `pending` counts those behind it; none where none waits there. It takes no
    /// memory.
    ///
    /// - `fh`: any file handle, open or not.
    /// - `place`: any place, from 0.
    pub fn waiting(&self, fh: FhId, place: usize) -> Option<(u32, Event)>
        ensures { result ≡ event_at (pending D.verdict self.now.plan (past self.now.steps) fh) place }
    {
        self.state.events().waiting(fh, place)
    }

    /// The number of the next event that is raised for a file handle, for a driver's own use (Linux userspace API, "ioctl VIDIOC_DQEVENT"): how
    /// many were raised for it; 0 where it isn't open. It takes no memory.
    ///
    /// - `fh`: any file handle, open or not.
    pub fn next_sequence(&self, fh: FhId) -> u32
        ensures { result ≡ next_sequence D.verdict self.now.plan (past self.now.steps) fh }
    {
        self.state.events().next_sequence(fh)
    }

    /// Takes the first event that waits for a file handle, as `handle` on `Ask::Take` of it does (Linux userspace API, "ioctl VIDIOC_DQEVENT"): what
    /// changed of its control, the control's value, flags and range as they were at the last raise, that raise's number, and how many events still
    /// wait.
    ///
    /// - `seat`: the number that the step is entered for.
    /// - `fh`: the file handle.
    ///
    /// Refused, without an index, by check 12 (EBADF, 9), 32 (ENOENT, 2), 33 (ENOSPC, 28) or 34 (ENOMEM, 12) of docs/RULES.md. Nothing is changed
    /// then but the counts of `work`.
    pub fn take(&mut self, seat: u32, fh: FhId) -> Result<Reply, Fault>
        ensures { Handles D.verdict self.old self.new seat (asks.Take fh) result }
    {
        match self.ask_take(seat, fh) {
            Ok(reply) => Ok(reply),
            Err(refusal) => Err(refusal.check.fault()),
        }
    }

    // Takes an event.
    #[inline(never)]
    pub(super) fn ask_take(&mut self, seat: u32, fh: FhId) -> Result<Reply, Refusal>
        ensures handles { Handles D.verdict self.old self.new seat (asks.Take fh) (published (asks.Take fh) result) }
        ensures why { IfErr result (MayRefuse D.verdict self.old (asks.Take fh)) }
    {
        match self.first_event(fh) {
            Ok((control, event)) => {
                let step = Step::Take { fh, control };
                self.enter(seat, &Ask::Take { fh }, None, step, Reply::Event(event))
            }
            Err(check) => self.refuse(check),
        }
    }

    // The first event that waits for a file handle, with its control's number, or why there is none.
    pub(super) fn first_event(&self, fh: FhId) -> Result<(u32, Event), Check>
        ensures event { result_map_both (λ first. first.1) (λ check. check) result ≡ first_event D.verdict self.now.plan (past self.now.steps) fh }
        ensures control { IfOk result (λ first. first_control (pending D.verdict self.now.plan (past self.now.steps) fh) ≡ Some first.0) }
    {
        // where an event waits, its file handle is open
        match self.waiting(fh, 0) {
            Some(first) => Ok(first),
            None => match self.through(fh) {
                Some(check) => Err(check),
                None => Err(Check::NoEventWaits),
            },
        }
    }

    // Subscribes a file handle to the events of the control that is shown to it under an id.
    #[inline(never)]
    pub(super) fn subscribe(
        &mut self,
        seat: u32,
        fh: FhId,
        id: CtrlId,
        flags: SubFlags,
    ) -> Result<Reply, Refusal>
        ensures handles { Handles D.verdict self.old self.new seat (asks.Subscribe fh id flags) (published (asks.Subscribe fh id flags) result) }
        ensures why { IfErr result (MayRefuse D.verdict self.old (asks.Subscribe fh id flags)) }
    {
        match self.control_shown(fh, id) {
            Ok(control) => {
                let ask = Ask::Subscribe { fh, id, flags };
                let step = Step::Subscribe { fh, control, flags };
                self.enter(seat, &ask, None, step, Reply::Done)
            }
            Err(check) => self.refuse(check),
        }
    }
}
