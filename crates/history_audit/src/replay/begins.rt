//! The begin of a frame.

ghost use Rattle.std.specs.Prelude.{◌≡◌, true, false, is_some, IfOk, OnOk, OnErr};
ghost use Rattle.history.specs.Past.{past};
ghost use Rattle.ctrl_forecast.specs.Boards.{named_clusters};
ghost use Rattle.device_history.specs.declared.ask.Step.TheVariants as steps;
ghost use Rattle.device_history.specs.Refusals.{is_full};
ghost use Rattle.device_history.specs.Requests.{asked as asked_of, state};
ghost use Rattle.device_history.specs.Snapshots.{begun_refused, begun_values};
ghost use Rattle.history_audit.specs.Replay.{AddsNext, IsNextStep, MayBeNext};

use super::Replay;
use ctrl_calls::{Driver, Work};
use ctrl_forecast::{Board, ClusterList, Forecast, Queued, applied};
use ctrl_types::{Pair, RequestId};
use std::alloc::AllocError;

impl<'a, D: Driver> Replay<'a, D> {
    // Begins the frame of a request.
    pub(super) fn begin(&mut self, request: RequestId) -> Result<(), AllocError>
        requires next { IsNextStep self.old (steps.Begin request) }
        requires room { is_full (past self.old.steps) ≡ false }
        requires follows { MayBeNext D.verdict self.old (steps.Begin request) }
        ensures ok { OnOk result (AddsNext self.old self.new) }
        ensures err { OnErr result (self.new ≡ self.old) }
    {
        let (forecast, clusters) = self.lay(request)?;
        let given = applied(
            self.alloc,
            self.plan,
            forecast.values.as_slice(),
            forecast.refused.as_slice(),
            self.asked_by(request),
        )?;
        let values = forecast.values.into_vec();
        self.state.begin(
            self.plan,
            request,
            values,
            given.as_slice(),
            clusters.as_slice(),
        );
        self.count += 1;
        Ok(())
    }

    // What a request asks for, which the caller owes to be there.
    pub(super) fn asked_by(&self, request: RequestId) -> &[Pair]
        requires { is_some (state (past self.now.steps) request.0) ≡ true }
        ensures { result.now ≡ asked_of self.now.plan (past self.now.steps) request.0 }
    {
        self.state.frames().requests().pairs_of(request)
    }

    // What the frame of a request, which the caller owes to be there, has where it begins now, and the clusters that it names.
    fn lay(&self, request: RequestId) -> Result<(Forecast, ClusterList), AllocError>
        requires { is_some (state (past self.now.steps) request.0) ≡ true }
        ensures values { IfOk result (λ laid. laid.0.values ≡ begun_values D.verdict self.now.plan (past self.now.steps) request.0) }
        ensures refused { IfOk result (λ laid. laid.0.refused ≡ begun_refused D.verdict self.now.plan (past self.now.steps) request.0) }
        ensures clusters { IfOk result (λ laid. laid.1 ≡ named_clusters self.now.plan (asked_of self.now.plan (past self.now.steps) request.0)) }
    {
        // (the number of the buffer changes none of these)
        let frame = Queued::new(request, 0, self.asked_by(request));
        let mut work = Work::new();
        let mut board = Board::compute(self.alloc, &self.at(), &[frame], &mut work)?;
        Ok(board.begin())
    }
}
