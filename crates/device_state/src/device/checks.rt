//! What refuses an ask.

ghost use Rattle.std.specs.Prelude.{◌≡◌, ◌≤◌, false, None, MatchOption};
ghost use Rattle.std.specs.Option.{option_map};
ghost use Rattle.history.specs.Past.{past};
ghost use Rattle.ctrl_types.specs.Refusals.{whole};
ghost use Rattle.device_history.specs.declared.ask.Ask.TheVariants as asks;
ghost use Rattle.device_history.specs.Answers.{is_list};
ghost use Rattle.device_history.specs.AskChecks.{check_of, refusal_of};
ghost use Rattle.device_state.specs.Device.{MayRefuse, may_judge};

use super::Device;
use ctrl_calls::{Driver, Work};
use ctrl_lists::{ControlList, Room};
use ctrl_types::{Check, FhId, Refusal, RequestId};
use device_history::Ask;
use std::mem;

impl<D: Driver> Device<D> {
    /// What refuses an ask, as `ask` would be refused now (of this project): the first check of docs/RULES.md that doesn't hold, and of a list the entry where it
    /// doesn't; none where none refuses it. For a list with entries memory is taken for the moment, so that want of memory, check 34, may stand in place of a check from 6 on,
    /// or of none; every other ask is answered exactly, and takes none.
    ///
    /// - `ask`: what would be asked.
    ///
    /// Nothing is changed but the counts of `work`, and no notifier is told. Where a list that writes meets the checks 1 to 7, the validators of the clusters that it
    /// touches are asked, each once at most.
    pub fn refusal(&mut self, ask: &Ask) -> Option<Refusal>
        ensures why { MatchOption result (refusal_of D.verdict self.old.plan (past self.old.steps) ask.now ≡ None) (MayRefuse D.verdict self.old ask.now) }
        ensures exact { is_list ask.now ≡ false → result ≡ refusal_of D.verdict self.old.plan (past self.old.steps) ask.now }
        ensures kept { self.new ≡ record self.old { work = self.new.work } }
        ensures told { self.new.work.told ≡ 0 }
        ensures asked { self.new.work.asked ≤ may_judge D.verdict self.old.plan (past self.old.steps) ask.now }
    {
        match ask {
            Ask::GetCtrls {
                fh,
                which,
                request,
                list,
            } => self.get_refusal(*fh, *which, *request, list),
            Ask::SetCtrls {
                fh,
                which,
                request,
                list,
            } => self.set_refusal(*fh, *which, *request, list),
            Ask::TryCtrls {
                fh,
                which,
                request,
                list,
            } => self.try_refusal(*fh, *which, *request, list),
            _ => {
                self.work = Work::new();
                as_whole(self.check_of(ask))
            }
        }
    }

    // What refuses a get.
    fn get_refusal(
        &mut self,
        fh: FhId,
        which: u32,
        request: Option<RequestId>,
        list: &ControlList,
    ) -> Option<Refusal>
        ensures why { MatchOption result (refusal_of D.verdict self.old.plan (past self.old.steps) (asks.GetCtrls fh which request list.now) ≡ None) (MayRefuse D.verdict self.old (asks.GetCtrls fh which request list.now)) }
        ensures kept { self.new ≡ record self.old { work = record { asked = 0; told = 0 } } }
    {
        let mut room = mem::replace(&mut self.room, Room::new(self.alloc));
        let answer = self.get_list(fh, which, request, list, &mut room);
        self.work = Work::new();
        self.room = room;
        answer.err()
    }

    // What refuses a set.
    fn set_refusal(
        &mut self,
        fh: FhId,
        which: u32,
        request: Option<RequestId>,
        list: &ControlList,
    ) -> Option<Refusal>
        ensures why { MatchOption result (refusal_of D.verdict self.old.plan (past self.old.steps) (asks.SetCtrls fh which request list.now) ≡ None) (MayRefuse D.verdict self.old (asks.SetCtrls fh which request list.now)) }
        ensures kept { self.new ≡ record self.old { work = self.new.work } }
        ensures told { self.new.work.told ≡ 0 }
        ensures asked { self.new.work.asked ≤ may_judge D.verdict self.old.plan (past self.old.steps) (asks.SetCtrls fh which request list.now) }
    {
        let mut room = mem::replace(&mut self.room, Room::new(self.alloc));
        let mut work = Work::new();
        let planned = self.plan_list(fh, which, request, list, &mut room, &mut work);
        self.work = work;
        let refusal = match planned {
            Ok(touch) => {
                let _ = touch.into_answers(&mut room);
                None
            }
            Err(refusal) => Some(refusal),
        };
        self.room = room;
        refusal
    }

    // What refuses a try.
    fn try_refusal(
        &mut self,
        fh: FhId,
        which: u32,
        request: Option<RequestId>,
        list: &ControlList,
    ) -> Option<Refusal>
        ensures why { MatchOption result (refusal_of D.verdict self.old.plan (past self.old.steps) (asks.TryCtrls fh which request list.now) ≡ None) (MayRefuse D.verdict self.old (asks.TryCtrls fh which request list.now)) }
        ensures kept { self.new ≡ record self.old { work = self.new.work } }
        ensures told { self.new.work.told ≡ 0 }
        ensures asked { self.new.work.asked ≤ may_judge D.verdict self.old.plan (past self.old.steps) (asks.TryCtrls fh which request list.now) }
    {
        let mut room = mem::replace(&mut self.room, Room::new(self.alloc));
        let mut work = Work::new();
        let answer = self.try_list(fh, which, request, list, &mut room, &mut work);
        self.work = work;
        self.room = room;
        answer.err()
    }

    // The check of docs/RULES.md that refuses an ask which is no list; none where it would be accepted, but for want of memory, and none for a list.
    fn check_of(&self, ask: &Ask) -> Option<Check>
        ensures { result ≡ check_of D.verdict self.now.plan (past self.now.steps) ask.now }
    {
        match ask {
            Ask::OpenFh { handler } => self.step_check(self.open_check(*handler)),
            Ask::CloseFh { fh } => self.step_check(self.through(*fh)),
            Ask::GetCtrls { .. } | Ask::SetCtrls { .. } | Ask::TryCtrls { .. } => None,
            Ask::Grab { control, on: _ } => self.step_check(self.grab_check(*control)),
            Ask::ModifyRange {
                control,
                min,
                max,
                step,
                default_value,
            } => {
                let made = self.range_made(*control, *min, *max, *step, *default_value);
                self.step_check(made.err())
            }
            Ask::Alloc => self.step_check(self.alloc_refusal()),
            Ask::AddBuffer { request, buffer } => {
                self.step_check(self.buffer_refusal(*request, *buffer))
            }
            Ask::Queue { request } => self.step_check(self.queue_refusal(*request)),
            Ask::Begin => self.step_check(self.next_frame().err()),
            Ask::Complete => self.step_check(self.frame_running().err()),
            Ask::Cancel { request } => self.step_check(self.cancel_refusal(*request)),
            Ask::StreamOff => self.step_check(None),
            Ask::Reinit { request } => self.step_check(self.clear_refusal(*request)),
            Ask::Free { request } => self.step_check(self.clear_refusal(*request)),
            Ask::StateOf { request } => self.state_found(*request).err(),
            Ask::Forecast { place } => self.forecast_at(*place).err(),
            Ask::Subscribe { fh, id, flags: _ } => {
                self.step_check(self.control_shown(*fh, *id).err())
            }
            Ask::Unsubscribe { fh, id: _ } => self.step_check(self.through(*fh)),
            Ask::Take { fh } => self.step_check(self.first_event(*fh).err()),
            Ask::Query { fh, id } => self.control_shown(*fh, *id).err(),
            Ask::NextId { fh, id } => self.id_behind(*fh, *id).err(),
            Ask::MenuItem { fh, id, index } => self.item_found(*fh, *id, *index).err(),
            Ask::Told { cluster } => self.word_of(*cluster).err(),
        }
    }
}

// A check that refuses an ask as a whole, where there is one.
fn as_whole(check: Option<Check>) -> Option<Refusal>
    ensures { result ≡ option_map whole check }
{
    match check {
        Some(check) => Some(Refusal::whole(check)),
        None => None,
    }
}
