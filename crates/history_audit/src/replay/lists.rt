//! The pairs of sets and stores.

ghost use Rattle.std.specs.Prelude.{◌≡◌, false, ◌≢◌, ◌≤◌, ◌<◌, ◌↔◌, length, None, IfOk, IfNone, IfSome, IsTrue, MatchOption, OnOk, OnErr};
ghost use Rattle.std.specs.List.{All};
ghost use Rattle.std.specs.Option.{option_map};
ghost use Rattle.history.specs.Past.{past};
ghost use Rattle.ctrl_types.specs.declared.which.Which.TheVariants.{Defaults};
ghost use Rattle.req_book.specs.Refusals.{store_check};
ghost use Rattle.ctrl_lists.specs.declared.limits.TheConstants.{MAX_ENTRIES};
ghost use Rattle.device_history.specs.declared.ask.Step.TheVariants as steps;
ghost use Rattle.device_history.specs.Asking.{entries_of, first_storer, shows_pair, shows_pairs};
ghost use Rattle.device_history.specs.Handles.{opened};
ghost use Rattle.device_history.specs.Lists.{write_view};
ghost use Rattle.device_history.specs.Refusals.{is_full};
ghost use Rattle.device_history.specs.Snapshots.{request as request_of};
ghost use Rattle.history_audit.specs.Judged.{IsSet, IsUnset, view_of};
ghost use Rattle.history_audit.specs.Replay.{AddsNext, IsNextStep, MayBeNext, TriesNext};

use super::Replay;
use bitflags::Flags as FlagSet;
use ctrl_calls::{Driver, Work};
use ctrl_clusters::write_rows;
use ctrl_lists::{ControlList, MAX_ENTRIES, Room, Touched, View, plan_set};
use ctrl_types::{Check, ExtControl, FhId, Flags, Pair, RequestId, Which};
use device_history::Step;
use std::alloc::AllocError;

impl<'a, D: Driver> Replay<'a, D> {
    // Replays a set.
    pub(super) fn set(&mut self, fh: FhId, pairs: &[Pair]) -> Result<bool, AllocError>
        requires { IsNextStep self.old (steps.Set fh pairs.now) }
        ensures ok { IfOk result (TriesNext D.verdict self.old self.new) }
        ensures err { OnErr result (self.new ≡ self.old) }
    {
        let Some(touch) = self.touched_by_set(fh, pairs)? else {
            return Ok(false);
        };
        self.write(fh, &touch)?;
        Ok(true)
    }

    // What a set makes of the clusters that it touches; none where it may not follow.
    fn touched_by_set(&self, fh: FhId, pairs: &[Pair]) -> Result<Option<Touched>, AllocError>
        ensures { IfOk result (λ touched. MatchOption touched (MayBeNext D.verdict self.now (steps.Set fh pairs.now) → ⊥) (λ touch.
            (is_full (past self.now.steps) ≡ false) × MayBeNext D.verdict self.now (steps.Set fh pairs.now) × IsSet D.verdict self.now.plan (write_view D.verdict self.now.plan (past self.now.steps) fh 0 None) pairs.now touch)) }
    {
        if self.is_full() {
            return Ok(None);
        }
        match self.handler_of(fh) {
            Some(handler) => self.judge(handler, Which::Current, &[], pairs),
            None => Ok(None),
        }
    }

    // Gives the clusters that a set touches their rows.
    fn write(&mut self, fh: FhId, touch: &Touched) -> Result<(), AllocError>
        requires next { IsNextStep self.old (steps.Set fh touch.now.pairs) }
        requires room { is_full (past self.old.steps) ≡ false }
        requires follows { MayBeNext D.verdict self.old (steps.Set fh touch.now.pairs) }
        requires touched { IsSet D.verdict self.old.plan (write_view D.verdict self.old.plan (past self.old.steps) fh 0 None) touch.now.pairs touch.now }
        ensures ok { OnOk result (AddsNext self.old self.new) }
        ensures err { OnErr result (self.new ≡ self.old) }
    {
        let mut values = self.state.reserve_values(self.alloc)?;
        write_rows(self.plan, &mut values, touch.rows());
        self.state
            .set(self.plan, fh, touch.pairs(), touch.clusters(), values);
        self.count += 1;
        Ok(())
    }

    // Replays a store.
    pub(super) fn store(
        &mut self,
        step: &Step,
        request: RequestId,
        pairs: &[Pair],
    ) -> Result<bool, AllocError>
        requires next { IsNextStep self.old step.now }
        requires step { step.now ≡ steps.Store request pairs.now }
        ensures ok { IfOk result (TriesNext D.verdict self.old self.new) }
        ensures err { OnErr result (self.new ≡ self.old) }
    {
        if !self.is_storable(request, pairs)? {
            return Ok(false);
        }
        self.change(step)?;
        Ok(true)
    }

    // Whether a store may follow.
    fn is_storable(&self, request: RequestId, pairs: &[Pair]) -> Result<bool, AllocError>
        ensures follows { IfOk result (λ is. IsTrue is ↔ MayBeNext D.verdict self.now (steps.Store request pairs.now)) }
        ensures room { IfOk result (λ is. IsTrue is → is_full (past self.now.steps) ≡ false) }
        ensures known { IfOk result (λ is. IsTrue is → All (λ p. p.control < length self.now.plan.controls) pairs.now) }
    {
        if self.is_full() {
            return Ok(false);
        }
        if self.store_refusal(request).is_some() {
            return Ok(false);
        }
        let Some(handler) = self.storer(pairs) else {
            return Ok(false);
        };
        let touched = self.judge(handler, Which::Request, self.asked_by(request), pairs)?;
        Ok(touched.is_some())
    }

    // Why pairs can't be stored in a request.
    fn store_refusal(&self, request: RequestId) -> Option<Check>
        ensures { result ≡ store_check (request_of D.verdict self.now.plan (past self.now.steps) request.0) }
    {
        self.state.frames().requests().store_refusal(request)
    }

    // The handler of the first open file handle whose handler shows pairs.
    fn storer(&self, pairs: &[Pair]) -> Option<u32>
        ensures { result ≡ option_map (λ h. h.1) (first_storer self.now.plan pairs.now (opened (past self.now.steps))) }
    {
        self.state
            .file_handles()
            .values()
            .copied()
            .find(|handler| self.shows_pairs(*handler, pairs))
    }

    // Whether a handler shows the controls of pairs, and a list can name them.
    fn shows_pairs(&self, handler: u32, pairs: &[Pair]) -> bool
        ensures { result ≡ shows_pairs self.now.plan handler pairs.now }
    {
        pairs.iter().all(|pair| self.shows_pair(handler, *pair))
    }

    // Whether it shows the control of one pair, and a list can name it.
    fn shows_pair(&self, handler: u32, pair: Pair) -> bool
        ensures { result ≡ shows_pair self.now.plan handler pair }
    {
        if pair.control as usize >= self.plan.controls().len() {
            return false;
        }
        let ctrl = self.plan.control(pair.control);
        match self.plan.find(handler, ctrl.id()) {
            Ok(found) => found == pair.control && !ctrl.flags().contains(Flags::DISABLED),
            Err(_) => false,
        }
    }

    // What the list of pairs makes of the clusters that it touches; none where it can't be set, or doesn't name their controls.
    fn judge(
        &self,
        handler: u32,
        which: Which,
        asked: &[Pair],
        pairs: &[Pair],
    ) -> Result<Option<Touched>, AllocError>
        requires { which ≢ Defaults }
        ensures { IfOk result (λ touched. MatchOption touched (IsUnset D.verdict self.now.plan (view_of D.verdict self.now.plan (past self.now.steps) handler which asked.now) pairs.now)
            (λ touch. IsSet D.verdict self.now.plan (view_of D.verdict self.now.plan (past self.now.steps) handler which asked.now) pairs.now touch)) }
    {
        let at = self.at();
        let Some(list) = self.entries(pairs)? else {
            return Ok(None);
        };
        let view = View::new(handler, which, at, asked);
        let mut room = Room::new(self.alloc);
        let mut work = Work::new();
        match plan_set(self.alloc, &view, &list, &mut room, &mut work) {
            Ok(touch) => {
                if are_same(touch.pairs(), pairs) {
                    Ok(Some(touch))
                } else {
                    Ok(None)
                }
            }
            Err(refusal) => match refusal.check {
                Check::MemoryRefused => Err(AllocError),
                _ => Ok(None),
            },
        }
    }

    // The list of pairs: each one's control under its id, with its value; none where it would be too long, or a control isn't there.
    fn entries(&self, pairs: &[Pair]) -> Result<Option<ControlList>, AllocError>
        ensures list { IfOk result (λ list. IfSome list (λ entries. entries ≡ entries_of self.now.plan pairs.now)) }
        ensures short { IfOk result (λ list. IfSome list (λ entries. length pairs.now ≤ MAX_ENTRIES)) }
        ensures none { IfOk result (λ list. IfNone list ((length pairs.now ≤ MAX_ENTRIES) × All (λ p. p.control < length self.now.plan.controls) pairs.now → ⊥)) }
    {
        if pairs.len() > MAX_ENTRIES as usize {
            return Ok(None);
        }
        let mut entries = Vec::with_capacity(self.alloc, pairs.len())?;
        for pair in pairs {
            if pair.control >= self.plan.control_count() {
                return Ok(None);
            }
            entries.push_reserved(ExtControl {
                id: self.plan.control(pair.control).id(),
                value: pair.value,
            });
        }
        Ok(Some(ControlList::from_vec(entries)))
    }
}

// Whether pairs are the same as others.
fn are_same(pairs: &[Pair], others: &[Pair]) -> bool
    ensures { IsTrue result ↔ (pairs.now ≡ others.now) }
{
    pairs == others
}
