//! What is evaluated of the steps at the end: the flags, and what the queued frames will have.

ghost use Rattle.std.specs.Prelude.{◌≡◌, true, is_some, slice_get, IfOk, IfSome};
ghost use Rattle.std.specs.Option.{option_map};
ghost use Rattle.history.specs.Past.{past};
ghost use Rattle.req_book.specs.Requests.{buffer_in};
ghost use Rattle.device_history.specs.Forecasts.{forecast, queued_frame, queued_frames};
ghost use Rattle.device_history.specs.Frames.{queue};
ghost use Rattle.device_history.specs.Snapshots.{request as request_of};
ghost use Rattle.history_audit.specs.Scratch.{all_flags};

use super::Replay;
use ctrl_calls::{Driver, Work};
use ctrl_clusters::flags_under;
use ctrl_forecast::{Board, Queued};
use ctrl_types::{Flags, RequestId};
use std::alloc::AllocError;

impl<'a, D: Driver> Replay<'a, D> {
    // The present flags of each control, and what each queued frame will have.
    pub(super) fn evaluated(&self) -> Result<(Vec<Flags>, Board), AllocError>
        ensures flags { IfOk result (λ all. all.0.items ≡ all_flags D.verdict self.now.plan (past self.now.steps)) }
        ensures forecasts { IfOk result (λ all. all.1.forecasts ≡ forecast D.verdict self.now.plan (past self.now.steps)) }
    {
        let flags = self.flags()?;
        let forecasts = self.forecasts()?;
        Ok((flags, forecasts))
    }

    // The present flags of each control.
    fn flags(&self) -> Result<Vec<Flags>, AllocError>
        ensures { IfOk result (λ all. all.items ≡ all_flags D.verdict self.now.plan (past self.now.steps)) }
    {
        let at = self.at();
        let count = self.plan.control_count();
        let mut all = Vec::with_capacity(self.alloc, count as usize)?;
        for control in 0..count {
            all.push_reserved(flags_under(&at, control));
        }
        Ok(all)
    }

    // What each queued frame will have.
    fn forecasts(&self) -> Result<Board, AllocError>
        ensures { IfOk result (λ b. b.forecasts ≡ forecast D.verdict self.now.plan (past self.now.steps)) }
    {
        let queued = self.queued_frames()?;
        let mut work = Work::new();
        Board::compute(self.alloc, &self.at(), queued.as_slice(), &mut work)
    }

    // The queued frames, in the order of the queue.
    fn queued_frames(&self) -> Result<Vec<Queued<'_>>, AllocError>
        ensures { IfOk result (λ all. all.items ≡ queued_frames self.now.plan (past self.now.steps)) }
    {
        let mut all = Vec::with_capacity(self.alloc, self.state.frames().queue_len())?;
        while let Some(request) = self.queued(all.len()) {
            all.push_reserved(self.queued_frame(request));
        }
        Ok(all)
    }

    // The request at a place of the queue, which holds a buffer; none where fewer wait.
    fn queued(&self, place: usize) -> Option<RequestId>
        ensures request { option_map (λ id. id.0) result ≡ slice_get (queue (past self.now.steps)) place }
        ensures holds { IfSome result (λ id. is_some (buffer_in (request_of D.verdict self.now.plan (past self.now.steps) id.0)) ≡ true) }
    {
        self.state.frames().queued(place)
    }

    // The queued frame of a request, which the caller owes to be there and to hold a buffer.
    fn queued_frame(&self, request: RequestId) -> Queued<'_>
        requires { is_some (buffer_in (request_of D.verdict self.now.plan (past self.now.steps) request.0)) ≡ true }
        ensures { result ≡ queued_frame self.now.plan (past self.now.steps) request.0 }
    {
        Queued::new(
            request,
            self.state.frames().number_of(request),
            self.asked_by(request),
        )
    }
}
