//! What a device answers about media requests and its queue of frames, but for the begin of a frame.

ghost use Rattle.std.specs.Prelude.{◌≡◌, ◌≤◌, ◌+◌, false, true, length, Some, Ok, Err, IfOk, MatchResult, OnOk, OnErr, slice_get, IfErr};
ghost use Rattle.std.specs.Option.{option_map};
ghost use Rattle.std.specs.Result.{result_err};
ghost use Rattle.history.specs.Past.{past};
ghost use Rattle.req_book.specs.Refusals.{alloc_check, buffer_check, queue_check, clear_check, state_answer, buffer_answer, asked_answer, value_answer};
ghost use Rattle.frame_queue.specs.Frames.{cancel_check, complete_check};
ghost use Rattle.device_history.specs.declared.ask.Ask.TheVariants as asks;
ghost use Rattle.device_history.specs.Frames.{queue, running};
ghost use Rattle.device_history.specs.declared.limits.TheConstants.{MAX_STEPS};
ghost use Rattle.device_history.specs.Legal.{MayFollow};
ghost use Rattle.ctrl_types.specs.Refusals.{whole};
ghost use Rattle.device_history.specs.Refusals.{is_full};
ghost use Rattle.device_history.specs.Snapshots.{frames, requests};
ghost use Rattle.device_history.specs.AskChecks.{published};
ghost use Rattle.device_state.specs.Device.{Handles, MayRefuse, request_now, with_step};
ghost use Rattle.device_history.specs.Forecasts.{queued_frames};
ghost use Rattle.device_parts.specs.QueuedFrames.{asks_at_most};
ghost use Rattle.device_parts.specs.Leaving.{NamesKnown, leaves_controls};
ghost use Rattle.device_state.specs.Entering.{AddsStep};

use super::Device;
use ctrl_calls::{Driver, Work};
use ctrl_types::{Check, CtrlValue, Errno, Pair, Refusal, RequestId};
use device_history::{Ask, Reply, Step, refused};
use frame_queue::RequestState;
use history::Entry;
use std::alloc::AllocError;

impl<D: Driver> Device<D> {
    /// A request's state, for a driver's own use (Linux userspace API, "Request API"): that in which the last step that names it left it;
    /// but complete where that is queued or running and the stream was stopped since. Refused by check 19 of docs/RULES.md (EINVAL, 22). It takes
    /// no memory.
    ///
    /// - `request`: any request, there or not.
    pub fn state_of(&self, request: RequestId) -> Result<RequestState, Errno>
        ensures { result ≡ state_answer (request_now D.verdict self.now request) }
    {
        self.state.frames().requests().state_of(request)
    }

    /// The number of a request's buffer, where it was given one since it was made, or made as new, for a driver's own use. Refused by check 19
    /// of docs/RULES.md (EINVAL, 22). It takes no memory.
    ///
    /// - `request`: any request, there or not.
    pub fn buffer_of(&self, request: RequestId) -> Result<Option<u32>, Errno>
        ensures { result ≡ buffer_answer (request_now D.verdict self.now request) }
    {
        self.state.frames().requests().buffer_of(request)
    }

    /// What a request asks for, for a driver's own use: of each control the last pair that was stored since the request was made, or made
    /// as new, in order of control numbers. Refused by check 19 of docs/RULES.md (EINVAL, 22). It takes no memory.
    ///
    /// - `request`: any request, there or not.
    pub fn asked(&self, request: RequestId) -> Result<&[Pair], Errno>
        ensures { MatchResult result (λ pairs. asked_answer (request_now D.verdict self.now request) ≡ Ok pairs.now) (λ errno. asked_answer (request_now D.verdict self.now request) ≡ Err errno) }
    {
        self.state.frames().requests().asked(request)
    }

    /// The value of a control in the snapshot of a complete request, for a driver's own use: of a control that the request asks for and
    /// whose cluster wasn't refused, its value after the begin of the frame; of any other, the value in force when the request became complete,
    /// as its frame ended, it was cancelled, or the stream was stopped. Refused by check 19 or 13 (EINVAL, 22), or 30 (EACCES, 13), of
    /// docs/RULES.md. It takes no memory.
    ///
    /// - `request`: any request, there or not.
    /// - `control`: any number, of a control or not.
    pub fn snapshot(&self, request: RequestId, control: u32) -> Result<CtrlValue, Errno>
        ensures { result ≡ value_answer (length self.now.plan.controls) control (request_now D.verdict self.now request) }
    {
        self.state.frames().requests().snapshot(request, control)
    }

    /// The request that waits at a place of the queue, for a driver's own use: the queued ones, in the order of their last queueing; none
    /// where no request waits there. It takes no memory.
    ///
    /// - `place`: any place, from 0.
    pub fn queued(&self, place: usize) -> Option<RequestId>
        ensures { option_map (λ id. id.0) result ≡ slice_get (queue (past self.now.steps)) place }
    {
        self.state.frames().queued(place)
    }

    /// How many requests wait, for a driver's own use: no more than steps are kept. It takes no memory.
    pub fn queued_count(&self) -> usize
        ensures count { result ≡ length (queue (past self.now.steps)) }
        ensures few { result ≤ MAX_STEPS }
    {
        self.state.frames().queue_len()
    }

    /// The request whose frame is being made, for a driver's own use; none where none is. It takes no memory.
    pub fn running(&self) -> Option<RequestId>
        ensures { option_map (λ id. id.0) result ≡ running (past self.now.steps) }
    {
        self.state.frames().running()
    }

    // Why no further request is made.
    pub(super) fn alloc_refusal(&self) -> Option<Check>
        ensures { result ≡ alloc_check (requests D.verdict self.now.plan (past self.now.steps)) }
    {
        self.state.frames().requests().alloc_refusal()
    }

    // Why a request takes no buffer.
    pub(super) fn buffer_refusal(&self, request: RequestId, buffer: u32) -> Option<Check>
        ensures { result ≡ buffer_check (requests D.verdict self.now.plan (past self.now.steps)) buffer (request_now D.verdict self.now request) }
    {
        self.state
            .frames()
            .requests()
            .buffer_refusal(request, buffer)
    }

    // Why a request isn't queued.
    pub(super) fn queue_refusal(&self, request: RequestId) -> Option<Check>
        ensures { result ≡ queue_check (request_now D.verdict self.now request) }
    {
        self.state.frames().requests().queue_refusal(request)
    }

    // Why a request is neither made as new nor let go.
    pub(super) fn clear_refusal(&self, request: RequestId) -> Option<Check>
        ensures { result ≡ clear_check (request_now D.verdict self.now request) }
    {
        self.state.frames().requests().clear_refusal(request)
    }

    // Why a request isn't taken from the queue.
    pub(super) fn cancel_refusal(&self, request: RequestId) -> Option<Check>
        ensures { result ≡ cancel_check (request_now D.verdict self.now request) }
    {
        self.state.frames().cancel_refusal(request)
    }

    // The request whose frame is being made, or why no frame is ended.
    pub(super) fn frame_running(&self) -> Result<RequestId, Check>
        ensures running { IfOk result (λ request. running (past self.now.steps) ≡ Some request.0) }
        ensures check { result_err result ≡ complete_check (frames D.verdict self.now.plan (past self.now.steps)) }
    {
        match self.state.frames().running() {
            Some(request) => Ok(request),
            None => Err(Check::NoFrameRunning),
        }
    }

    // Ends the frame that is being made.
    #[inline(never)]
    pub(super) fn complete(&mut self, seat: u32) -> Result<Reply, Refusal>
        ensures handles { Handles D.verdict self.old self.new seat (asks.Complete) (published (asks.Complete) result) }
        ensures why { IfErr result (MayRefuse D.verdict self.old (asks.Complete)) }
    {
        match self.frame_running() {
            Ok(request) => {
                let step = Step::Complete { request };
                self.enter(seat, &Ask::Complete, None, step, Reply::Done)
            }
            Err(check) => self.refuse(check),
        }
    }

    // Refuses an ask before anything else is done.
    pub(super) fn refuse(&mut self, check: Check) -> Result<Reply, Refusal>
        ensures answer { result ≡ Err (whole check) }
        ensures kept { self.new ≡ record self.old { work = record { asked = 0; told = 0 } } }
    {
        self.work = Work::new();
        refused(check)
    }

    // Answers an ask whose step leaves file handles, grabs, ranges and values: its own check, that no further step is kept, or the reply.
    #[inline(never)]
    pub(super) fn enter(
        &mut self,
        seat: u32,
        ask: &Ask,
        check: Option<Check>,
        step: Step,
        reply: Reply,
    ) -> Result<Reply, Refusal>
        requires { AddsStep D.verdict self.old.plan (past self.old.steps) self.old.words ask.now check step reply }
        ensures handles { Handles D.verdict self.old self.new seat ask.now (published ask.now result) }
        ensures why { IfErr result (MayRefuse D.verdict self.old ask.now) }
    {
        self.work = Work::new();
        if let Some(check) = self.step_check(check) {
            return refused(check);
        }
        match self.accept(seat, step) {
            Ok(()) => Ok(reply),
            Err(_) => refused(Check::MemoryRefused),
        }
    }

    // Adds such a step, after the refusals. The error is that a growth was refused.
    pub(super) fn accept(&mut self, seat: u32, step: Step) -> Result<(), AllocError>
        requires leaves { leaves_controls step ≡ true }
        requires follows { MayFollow D.verdict self.old.plan (past self.old.steps) step }
        requires room { is_full (past self.old.steps) ≡ false }
        requires known { NamesKnown (length self.old.plan.controls) step }
        ensures ok { OnOk result (self.new ≡ with_step (record self.old { work = self.new.work }) seat step) }
        ensures err { OnErr result (self.new ≡ record self.old { work = self.new.work }) }
        ensures asked { self.new.work.asked ≤ self.old.work.asked + asks_at_most self.old.plan (frames D.verdict self.old.plan (past self.old.steps)) step (queued_frames self.old.plan (past self.old.steps)) }
        ensures counted { self.old.work.asked ≤ self.new.work.asked }
        ensures told { self.new.work.told ≡ self.old.work.told }
    {
        let number = self.steps.len() as u32;
        self.steps.reserve(1)?;
        let mut work = Work::new();
        let changed = self
            .state
            .change_with_forecasts(&self.plan, number, &step, &mut self.board, &mut work);
        self.work.asked = self.work.asked.saturating_add(work.asked);
        match changed {
            Ok(()) => {
                self.steps.push_reserved(Entry { seat, step });
                Ok(())
            }
            Err(error) => Err(error),
        }
    }
}
