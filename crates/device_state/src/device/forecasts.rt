//! What a device says of the frames that are queued.

ghost use Rattle.std.specs.Prelude.{◌≡◌, ℕ, slice_get, IfErr};
ghost use Rattle.std.specs.Option.{option_map};
ghost use Rattle.std.specs.Result.{result_map_both};
ghost use Rattle.history.specs.Past.{past};
ghost use Rattle.ctrl_forecast.specs.Looks.{seen};
ghost use Rattle.device_history.specs.declared.ask.Ask.TheVariants as asks;
ghost use Rattle.device_history.specs.Answers.{MayAnswer};
ghost use Rattle.device_history.specs.Forecasts.{forecast, forecast_at};
ghost use Rattle.device_history.specs.AskChecks.{published};
ghost use Rattle.device_state.specs.Device.{Handles, MayRefuse};

use super::Device;
use ctrl_calls::{Driver, Work};
use ctrl_forecast::Row;
use ctrl_types::{Check, Fault, Refusal};
use device_history::{Reply, refused};

impl<D: Driver> Device<D> {
    /// What the queued frame at a place will have, for a driver's own use, as `forecast` says it; none where no frame is queued there. It takes
    /// no memory, and asks nobody.
    ///
    /// - `place`: any place, from 0.
    pub fn row(&self, place: usize) -> Option<Row<'_>>
        ensures { option_map seen result ≡ slice_get (forecast D.verdict self.now.plan (past self.now.steps)) place }
    {
        self.board.row(place)
    }

    /// What the queued frame at a place will have, as `handle` on `Ask::Forecast` of it at any seat does (of this project): its request, its
    /// buffer, the values of all controls, and the clusters that will be refused: what the first queued request asks for is laid over the present
    /// values, under the present grabs, and what each other asks for over what the one before leaves. Running the queue gives just that, as long
    /// as no set of present values, no grab or release, no range change, no cancellation and no end of the stream comes between (the law
    /// `frames_as_forecast` of `device_history`).
    ///
    /// - `place`: any number; places in the queue count from 0.
    ///
    /// It asks no validator: what the frames will have is kept, and renewed by each call that changes it. Refused, without an index, by check 31
    /// (ENOENT, 2) or 34 (ENOMEM, 12) of docs/RULES.md. Answered or refused, nothing is changed but the counts of `work`.
    pub fn forecast(&mut self, place: u32) -> Result<Reply, Fault>
        ensures { (seat : ℕ) → Handles D.verdict self.old self.new seat (asks.Forecast place) result }
    {
        match self.ask_forecast(place) {
            Ok(reply) => Ok(reply),
            Err(refusal) => Err(refusal.check.fault()),
        }
    }

    // Answers an ask for a forecast.
    #[inline(never)]
    pub(super) fn ask_forecast(&mut self, place: u32) -> Result<Reply, Refusal>
        ensures handles { (seat : ℕ) → Handles D.verdict self.old self.new seat (asks.Forecast place) (published (asks.Forecast place) result) }
        ensures why { IfErr result (MayRefuse D.verdict self.old (asks.Forecast place)) }
    {
        self.work = Work::new();
        self.forecast_read(place)
    }

    // What the queued frame at a place will have, or why there is none.
    pub(super) fn forecast_at(&self, place: u32) -> Result<Row<'_>, Check>
        ensures { result_map_both seen (λ check. check) result ≡ forecast_at D.verdict self.now.plan (past self.now.steps) place }
    {
        match self.row(place as usize) {
            Some(row) => Ok(row),
            None => Err(Check::NothingQueuedThere),
        }
    }

    // The row of a queued frame, as the reply.
    fn forecast_read(&self, place: u32) -> Result<Reply, Refusal>
        ensures answers { MayAnswer D.verdict self.now.plan (past self.now.steps) self.now.words (asks.Forecast place) (published (asks.Forecast place) result) }
        ensures why { IfErr result (MayRefuse D.verdict self.now (asks.Forecast place)) }
    {
        let row = match self.forecast_at(place) {
            Ok(row) => row,
            Err(check) => return refused(check),
        };
        match row.to_forecast(self.alloc) {
            Ok(row) => Ok(Reply::Forecast(row)),
            Err(_) => refused(Check::MemoryRefused),
        }
    }
}
