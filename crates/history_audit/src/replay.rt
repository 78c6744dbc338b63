ghost use Rattle.std.specs.Prelude.{◌≡◌, ◌<◌, ◌≤◌, false, [], length, take, IfOk, IfErr, OnOk, OnErr};
ghost use Rattle.history.specs.Past.{past};
ghost use Rattle.ctrl_handlers.specs.Plan.{IsPlan};
ghost use Rattle.device_history.specs.Ranges.{ranges_now};
ghost use Rattle.device_history.specs.Grabs.{grabbed};
ghost use Rattle.device_history.specs.Handles.{handler_of};
ghost use Rattle.device_history.specs.Legal.{IsLegal};
ghost use Rattle.device_history.specs.Refusals.{is_full};
ghost use Rattle.device_history.specs.Values.{now};
ghost use Rattle.history_audit.specs.Replay.{IsAside, IsNextStep, IsProgressOf, TriesNext, is_judged};
ghost use Rattle.history_audit.specs.Scratch.{scratch};

mod begins;
mod evaluating;
mod events;
mod fitting;
mod lists;
mod plain;

use crate::progress::Progress;
use crate::scratch::Scratch;
use ctrl_calls::Driver;
use ctrl_clusters::Moment;
use ctrl_handlers::Plan;
use ctrl_types::FhId;
use device_history::{MAX_STEPS, Step};
use device_parts::State;
use history::Entry;
use std::alloc::{AllocError, Global};
use std::marker::Model;

/// A history that is replayed, step by step, and what its first steps made of a device. Contracts see it as the plan, the steps that were
/// replayed, and all that there are: its state is what the replayed steps make of a device, at every moment.
pub struct Replay<'a, D: Driver> {
    plan: &'a Plan<D>,
    steps: &'a [Entry<Step>],
    // how many were replayed
    count: usize,
    // what they made
    state: State,
    alloc: Global,
}

impl<'a, D: Driver> Model for Replay<'a, D> {
    ghost use Rattle.history_audit.specs.Replay.{ReplayData};

    ghost Value = { ReplayData };

    ghost use Rattle.std.specs.Prelude.{take};
    ghost use Rattle.history_audit.specs.Replay.{IsReplay};

    ghost view = { λ r. record { plan = r.plan.now; steps = take r.count r.steps.now; all = r.steps.now } };

    ghost invariant = { λ r. IsReplay D.verdict r.plan.now r.steps.now r.count r.state };
}

impl<'a, D: Driver> Drop for Replay<'a, D> {
    fn drop(self) {
        let Replay {
            plan: _,
            steps: _,
            count: _,
            state: _,
            alloc: _,
        } = self;
    }
}

impl<'a, D: Driver> Replay<'a, D> {
    /// A history of which no step was replayed: the ranges are the plan's, the values the defaults.
    ///
    /// - `alloc`: where the parts lie.
    /// - `plan`: what the device is built of.
    /// - `steps`: the history, oldest first; any entries.
    ///
    /// The error is that a growth was refused.
    pub fn new(
        alloc: Global,
        plan: &'a Plan<D>,
        steps: &'a [Entry<Step>],
    ) -> Result<Replay<'a, D>, AllocError>
        ensures { IfOk result (λ r. r ≡ record { plan = plan.now; steps = []; all = steps.now }) }
    {
        let state = State::new(alloc, plan)?;
        Ok(Replay {
            plan,
            steps,
            count: 0,
            state,
            alloc,
        })
    }

    /// A history of which the first steps were replayed and put aside. It takes no memory, and asks nobody.
    ///
    /// - `alloc`: where the parts lie.
    /// - `plan`: what the device is built of.
    /// - `steps`: the history, oldest first; the caller owes that it begins with the steps that were replayed.
    /// - `made`: what was put aside.
    pub fn resume(
        alloc: Global,
        plan: &'a Plan<D>,
        steps: &'a [Entry<Step>],
        made: Progress,
    ) -> Replay<'a, D>
        requires { IsProgressOf D.verdict plan.now steps.now made }
        ensures { result ≡ record { plan = plan.now; steps = take made.count steps.now; all = steps.now } }
    {
        let Progress { count, state } = made;
        Replay {
            plan,
            steps,
            count,
            state,
            alloc,
        }
    }

    /// How many steps were replayed, at most 1,000,000. It takes no memory.
    pub fn replayed(&self) -> u32
        ensures count { result ≡ length self.now.steps }
        ensures first { self.now.steps ≡ take result self.now.all }
        ensures within { result ≤ length self.now.all }
    {
        self.count as u32
    }

    /// Replays the next step, which the caller owes to be there: true where it may follow those before it, and was replayed; false where it
    /// may not, and nothing was changed. Validators are asked; nobody is told.
    ///
    /// The error is that a growth was refused; nothing was changed then.
    pub fn next(&mut self) -> Result<bool, AllocError>
        requires { length self.old.steps < length self.old.all }
        ensures replayed { IfOk result (TriesNext D.verdict self.old self.new) }
        ensures err { OnErr result (self.new ≡ self.old) }
        ensures legal { IsLegal D.verdict self.new.plan (past self.new.steps) }
    {
        let all = self.steps;
        self.replay(&all[self.count].step)
    }

    // Replays a step, which is the next one.
    fn replay(&mut self, step: &Step) -> Result<bool, AllocError>
        requires { IsNextStep self.old step.now }
        ensures ok { IfOk result (TriesNext D.verdict self.old self.new) }
        ensures err { OnErr result (self.new ≡ self.old) }
    {
        match step {
            Step::Set { fh, pairs } => self.set(*fh, pairs.as_slice()),
            Step::Store { request, pairs } => self.store(step, *request, pairs.as_slice()),
            Step::ModifyRange {
                control,
                min,
                max,
                step: apart,
                default_value,
            } => Ok(self.modify(*control, *min, *max, *apart, *default_value)),
            _ => self.replay_plain(step),
        }
    }

    // Replays a step that gives neither pairs nor a range.
    fn replay_plain(&mut self, step: &Step) -> Result<bool, AllocError>
        requires next { IsNextStep self.old step.now }
        requires plain { is_judged step.now ≡ false }
        ensures ok { IfOk result (TriesNext D.verdict self.old self.new) }
        ensures err { OnErr result (self.new ≡ self.old) }
    {
        if !self.fits(step) {
            return Ok(false);
        }
        match step {
            Step::OpenFh { handler } => self.open(*handler)?,
            Step::CloseFh { fh } => self.close(*fh),
            Step::Grab { control, on } => self.grab(*control, *on)?,
            Step::Begin { request } => self.begin(*request)?,
            _ => self.change(step)?,
        }
        Ok(true)
    }

    /// What the history that was replayed makes of a device. It asks validators for the forecasts; nobody is told.
    ///
    /// The error is that a growth was refused; what was replayed is handed back, put aside.
    pub fn finish(self) -> Result<Scratch, Progress>
        ensures scratch { IfOk result (λ s. s.shown ≡ scratch D.verdict self.entry.plan (past self.entry.steps)) }
        ensures legal { OnOk result (IsLegal D.verdict self.entry.plan (past self.entry.steps)) }
        ensures aside { IfOk result (λ s. IsAside D.verdict self.entry s.made) }
        ensures err { IfErr result (IsAside D.verdict self.entry) }
    {
        match self.evaluated() {
            Ok((flags, forecasts)) => Ok(Scratch::of(self.put_aside(), flags, forecasts)),
            Err(_) => Err(self.put_aside()),
        }
    }

    /// Puts aside what was replayed, so that `resume` can go on from there. It takes no memory.
    pub fn put_aside(self) -> Progress
        ensures aside { IsAside D.verdict self.entry result }
    {
        let Replay {
            plan: _,
            steps: _,
            count,
            state,
            alloc: _,
        } = self;
        Progress { count, state }
    }

    // The present moment.
    fn at(&self) -> Moment<'_, D>
        ensures plan { result.plan.now ≡ self.now.plan }
        ensures ranges { result.ranges.now ≡ ranges_now self.now.plan (past self.now.steps) }
        ensures values { result.values.now ≡ now D.verdict self.now.plan (past self.now.steps) }
        ensures grabs { result.grabs.now ≡ grabbed self.now.plan (past self.now.steps) }
    {
        self.state.at(self.plan)
    }

    // The handler of a file handle, if it is open.
    fn handler_of(&self, fh: FhId) -> Option<u32>
        ensures { result ≡ handler_of (past self.now.steps) fh }
    {
        self.state.handler_of(fh)
    }

    // Whether no further step is kept. What is always so of the plan is said here, too.
    #[tactic(auto, using(history::proofs::Pasts::length_past))]
    fn is_full(&self) -> bool
        ensures full { result ≡ is_full (past self.now.steps) }
        ensures plan { IsPlan self.now.plan }
    {
        self.count >= MAX_STEPS
    }
}
