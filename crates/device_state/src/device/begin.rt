//! How a device begins a frame.

ghost use Rattle.std.specs.Prelude.{◌≡◌, true, None, Some, Ok, is_some, IfOk, IfErr, OnOk, OnErr};
ghost use Rattle.std.specs.Result.{result_err};
ghost use Rattle.history.specs.Past.{past};
ghost use Rattle.frame_queue.specs.Frames.{begin_check};
ghost use Rattle.device_history.specs.declared.ask.Ask.TheVariants as asks;
ghost use Rattle.device_history.specs.Answers.{MayAnswer};
ghost use Rattle.device_history.specs.Frames.{first_of, queue, running};
ghost use Rattle.ctrl_types.specs.Refusals.{whole};
ghost use Rattle.device_history.specs.Refusals.{refused};
ghost use Rattle.device_history.specs.RequestAnswers.{begin_frame_answer};
ghost use Rattle.device_history.specs.Requests.{asked as asked_of, state};
ghost use Rattle.device_history.specs.Snapshots.{begun_pairs, frames};
ghost use Rattle.device_history.specs.declared.ask.Step.TheVariants as steps;
ghost use Rattle.device_state.specs.Beginning.{IsBegun};
ghost use Rattle.device_state.specs.Changed.{IsChangedBy};
ghost use Rattle.device_history.specs.AskChecks.{published};
ghost use Rattle.device_state.specs.Device.{Handles, MayRefuse};

use super::Device;
use ctrl_calls::{Driver, Work};
use ctrl_clusters::notify_between;
use ctrl_forecast::{Forecast, applied};
use ctrl_types::{Check, Pair, Refusal, RequestId};
use device_history::{Reply, Step, refused};
use history::Entry;
use std::alloc::AllocError;

// A frame that can begin: its request, and what is applied of what it asks for.
#[derive(Drop)]
struct Begun {
    request: RequestId,
    applied: Vec<Pair>,
}

impl<D: Driver> Device<D> {
    // Answers an ask for the begin of a frame.
    #[inline(never)]
    pub(super) fn begin(&mut self, seat: u32) -> Result<Reply, Refusal>
        ensures handles { Handles D.verdict self.old self.new seat (asks.Begin) (published (asks.Begin) result) }
        ensures why { IfErr result (MayRefuse D.verdict self.old (asks.Begin)) }
    {
        self.work = Work::new();
        let begun = match self.plan_begin() {
            Ok(begun) => begun,
            Err(check) => return refused(check),
        };
        match self.accept_begin(seat, begun) {
            Ok(reply) => Ok(reply),
            Err(_) => refused(Check::MemoryRefused),
        }
    }

    // The checks of a begin; else what it applies.
    fn plan_begin(&self) -> Result<Begun, Check>
        ensures ok { IfOk result (λ b. IsBegun D.verdict self.now.plan (past self.now.steps) b.request.0 b.applied.items) }
        ensures err { IfErr result (λ check. MayAnswer D.verdict self.now.plan (past self.now.steps) self.now.words asks.Begin (refused check)) }
        ensures why { IfErr result (λ check. MayRefuse D.verdict self.now asks.Begin (whole check)) }
    {
        let request = match self.next_frame() {
            Ok(request) => request,
            Err(check) => return Err(check),
        };
        if let Some(check) = self.step_check(None) {
            return Err(check);
        }
        match self.applied_first(request) {
            Ok(applied) => Ok(Begun { request, applied }),
            Err(_) => Err(Check::MemoryRefused),
        }
    }

    // The request whose frame is next, or why none can begin.
    pub(super) fn next_frame(&self) -> Result<RequestId, Check>
        ensures free { OnOk result (running (past self.now.steps) ≡ None) }
        ensures first { IfOk result (λ request. first_of (queue (past self.now.steps)) ≡ Some request.0) }
        ensures check { result_err result ≡ begin_check (frames D.verdict self.now.plan (past self.now.steps)) }
    {
        self.state.frames().next_frame()
    }

    // What a request asks for, which the caller owes to be there.
    pub(super) fn asked_by(&self, request: RequestId) -> &[Pair]
        requires { is_some (state (past self.now.steps) request.0) ≡ true }
        ensures { result.now ≡ asked_of self.now.plan (past self.now.steps) request.0 }
    {
        self.state.frames().requests().pairs_of(request)
    }

    // What the begin of the first frame in the queue applies.
    fn applied_first(&self, request: RequestId) -> Result<Vec<Pair>, AllocError>
        requires free { running (past self.now.steps) ≡ None }
        requires first { first_of (queue (past self.now.steps)) ≡ Some request.0 }
        ensures { IfOk result (λ pairs. pairs.items ≡ begun_pairs D.verdict self.now.plan (past self.now.steps) request.0) }
    {
        let row = self.row(0).unwrap();
        let pairs = self.asked_by(request);
        applied(self.alloc, &self.plan, row.values, row.refused, pairs)
    }

    // Begins a frame, after the refusals.
    fn accept_begin(&mut self, seat: u32, begun: Begun) -> Result<Reply, AllocError>
        requires begun { IsBegun D.verdict self.old.plan (past self.old.steps) begun.request.0 begun.applied.items }
        requires fresh { self.old.work.told ≡ 0 }
        ensures reply { IfOk result (λ reply. begin_frame_answer D.verdict self.old.plan (past self.old.steps) ≡ Ok reply) }
        ensures ok { OnOk result (IsChangedBy D.verdict D.told self.old self.new seat (steps.Begin begun.request) (begun_pairs D.verdict self.old.plan (past self.old.steps) begun.request.0) 0) }
        ensures err { OnErr result (self.new ≡ self.old) }
    {
        self.steps.reserve(1)?;
        let Begun { request, applied } = begun;
        let (forecast, named) = self.board.begin();
        let Forecast {
            request: _,
            buffer: _,
            values,
            refused,
        } = forecast;
        let change = self
            .state
            .controls()
            .to_values(&self.plan, values.as_slice());
        notify_between(
            &change,
            applied.as_slice(),
            named.as_slice(),
            &mut self.words,
            &mut self.work,
        );
        let buffer = self.state.begin(
            &self.plan,
            request,
            values.into_vec(),
            applied.as_slice(),
            named.as_slice(),
        );
        self.steps.push_reserved(Entry {
            seat,
            step: Step::Begin { request },
        });
        Ok(Reply::Frame {
            request,
            buffer,
            refused,
        })
    }
}
