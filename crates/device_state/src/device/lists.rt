//! What a device answers lists of controls: gets, sets and tries.

ghost use Rattle.std.specs.Prelude.{◌≡◌, ◌≢◌, ◌<◌, ◌≤◌, ◌+◌, ℕ, true, false, length, Option, None, Some, Ok, Err, IfOk, IfErr, IfSome, OnOk, OnErr};
ghost use Rattle.std.specs.List.{All};
ghost use Rattle.history.specs.Past.{past};
ghost use Rattle.ctrl_types.specs.Refusals.{fault_at_count};
ghost use Rattle.ctrl_types.specs.Classes.{which_of};
ghost use Rattle.ctrl_types.specs.declared.which.Which.TheVariants.{Defaults};
ghost use Rattle.req_book.specs.Requests.{RequestData};
ghost use Rattle.ctrl_lists.specs.Checks.{first_refusal};
ghost use Rattle.ctrl_lists.specs.Touched.{touched, judged_count, with_calls};
ghost use Rattle.device_history.specs.declared.ask.Ask.TheVariants as asks;
ghost use Rattle.device_history.specs.declared.ask.Reply.TheVariants.{Controls};
ghost use Rattle.device_history.specs.Values.{now};
ghost use Rattle.ctrl_clusters.specs.Notified.{HaveWords};
ghost use Rattle.device_history.specs.declared.ask.Step.TheVariants as steps;
ghost use Rattle.device_history.specs.Handles.{handler_of};
ghost use Rattle.device_history.specs.Legal.{MayFollow};
ghost use Rattle.device_history.specs.AskChecks.{published};
ghost use Rattle.device_history.specs.Refusals.{is_full};
ghost use Rattle.device_history.specs.Lists.{earlier_pairs, get_checks, handler_or, list_pairs, meant, meant_check, opening_checks, read_view, request_check, set_checks, set_list_answer, try_checks, values_read, which_or, write_view, writes_defaults};
ghost use Rattle.device_history.specs.Answers.{MayAnswer};
ghost use Rattle.device_state.specs.Device.{Handles, MayRefuse, list_most, list_touches, request_now, with_step};
ghost use Rattle.device_state.specs.Setting.{CanBeSet, SetsAll, SetsList};

use super::Device;
use ctrl_calls::{Driver, Work};
use ctrl_clusters::{Moment, notify_between, write_rows};
use ctrl_lists::{ControlList, Room, Touched, View, plan_set, read_list, try_list};
use ctrl_types::{Check, CtrlValue, Fault, FhId, Pair, Refusal, RequestId, Which};
use device_history::{PairList, Reply, Step, meant, refused, spoken, state_check, writes_defaults};
use history::Entry;
use std::alloc::AllocError;
use std::mem;

impl<D: Driver> Device<D> {
    /// Gets controls, as `handle` on `Ask::GetCtrls` of these fields at any seat does (Linux userspace API, "ioctl
    /// VIDIOC_G_EXT_CTRLS, VIDIOC_S_EXT_CTRLS, VIDIOC_TRY_EXT_CTRLS"; the order of the refusals, the index, and that neither a
    /// DISABLED control nor the default of a WRITE_ONLY one can be read are of this project). It changes nothing but the counts
    /// of `work`. The answer has the entries of `list` with the present values of their controls, the defaults where `which`
    /// speaks of them, or the values that a request's frame had where it speaks of a request (Linux userspace API, "Request API").
    ///
    /// - `fh`: the file handle; the controls that are shown to it can be named.
    /// - `which`: the values, as `Which::read` reads it: the present ones, those of a class, the defaults, or those of a request.
    /// - `request`: the request, where `which` speaks of one; else ignored.
    /// - `list`: at most 64 controls; their values are ignored. It is lent, and never changed.
    ///
    /// Refused by the first of the checks 1 to 7 of a list in docs/RULES.md that doesn't hold: EBADF (9), EINVAL (22) or EACCES (13). Where
    /// there are 1 to 64 entries, ENOMEM (12) may stand in place of the values and of the refusals from check 6 on. The index is the number
    /// of entries.
    pub fn get(
        &mut self,
        fh: FhId,
        which: u32,
        request: Option<RequestId>,
        list: &ControlList,
    ) -> Result<Reply, Fault>
        ensures { (seat : ℕ) → Handles D.verdict self.old self.new seat (asks.GetCtrls fh which request list.now) result }
    {
        match self.ask_get(fh, which, request, list) {
            Ok(reply) => Ok(reply),
            Err(refusal) => Err(refusal.at_count(list.len())),
        }
    }

    // Answers a get.
    #[inline(never)]
    pub(super) fn ask_get(
        &mut self,
        fh: FhId,
        which: u32,
        request: Option<RequestId>,
        list: &ControlList,
    ) -> Result<Reply, Refusal>
        ensures handles { (seat : ℕ) → Handles D.verdict self.old self.new seat (asks.GetCtrls fh which request list.now) (published (asks.GetCtrls fh which request list.now) result) }
        ensures why { IfErr result (MayRefuse D.verdict self.old (asks.GetCtrls fh which request list.now)) }
    {
        let mut room = mem::replace(&mut self.room, Room::new(self.alloc));
        let answer = self.get_list(fh, which, request, list, &mut room);
        self.work = Work::new();
        self.room = room;
        answer
    }

    /// Sets controls to what their values become, all or none, as `handle` on `Ask::SetCtrls` of these fields does (Linux
    /// userspace API, "ioctl VIDIOC_G_EXT_CTRLS, VIDIOC_S_EXT_CTRLS, VIDIOC_TRY_EXT_CTRLS"; Linux driver API, "V4L2 Controls",
    /// "Control Clusters"; the order of the refusals and the index are of this project). For each cluster with a control of the
    /// list, the values of its members, overwritten by those of the list, of which the last of a control counts, settle in
    /// member order, and then the cluster's validator judges the row, asked at most once; it may change any member. The answer
    /// has the entries with the values that their controls took; the step keeps them as they were given. Where a member
    /// changed, that is where its value differs, or it acts on each write and was asked for, the cluster's notifier is told the
    /// new row, once, and its word is kept; the clusters are told in rising number. What changes is raised for the file handles that are
    /// subscribed to it, as `handle` says. A list without entries is a step, too. Where frames are queued their forecasts follow, for which
    /// each touched cluster is judged once more for each of them that names it, at most.
    ///
    /// Where `which` speaks of a request the values are stored in it, as they were given, for its frame (Linux userspace API, "Request
    /// API"); nothing else is changed, and nobody is told. Rows are judged all the same, over the present values with the earlier pairs
    /// of the request laid before those of the list.
    ///
    /// - `seat`: the number that the step is entered for.
    /// - `fh`: the file handle; the controls that are shown to it can be named.
    /// - `which`: the values, as `Which::read` reads it: the present ones, those of a class, or those of a request.
    /// - `request`: the request, where `which` speaks of one; else ignored.
    /// - `list`: at most 64 controls with values. It is lent, and never changed.
    ///
    /// Refused by the first of the checks 1 to 9 of a list in docs/RULES.md that doesn't hold: EBADF (9), EACCES (13), EBUSY (16), EINVAL
    /// (22), ENOSPC (28) or ERANGE (34). Where there are 1 to 64 entries, ENOMEM (12) may stand in place of success and of the refusals from
    /// check 6 on; where there are none, in place of success alone. The index is the number of entries. Nothing is changed then but the
    /// counts of `work`, and no notifier is told.
    pub fn set(
        &mut self,
        seat: u32,
        fh: FhId,
        which: u32,
        request: Option<RequestId>,
        list: &ControlList,
    ) -> Result<Reply, Fault>
        ensures handles { Handles D.verdict self.old self.new seat (asks.SetCtrls fh which request list.now) result }
        ensures words { HaveWords D.told self.new.plan (now D.verdict self.new.plan (past self.new.steps)) self.new.words }
    {
        let answer = self.set_list(seat, fh, which, request, list);
        // the words are such as were told, as the contract of `steps` says
        let _kept = self.steps();
        match answer {
            Ok(reply) => Ok(reply),
            Err(why) => Err(why.at_count(list.len())),
        }
    }

    /// Tries what controls would be set to, as `handle` on `Ask::TryCtrls` of these fields at any seat does (Linux userspace
    /// API, "ioctl VIDIOC_G_EXT_CTRLS, VIDIOC_S_EXT_CTRLS, VIDIOC_TRY_EXT_CTRLS"; the order of the refusals and the index are of
    /// this project). The answer is what `set` would answer; the validator of each touched cluster is asked at most once. It changes nothing
    /// but the counts of `work`, and no notifier is told. A grabbed control may be tried.
    ///
    /// - `fh`, `which`, `request`, `list`: as of `set`.
    ///
    /// Refused as `set` is, through a request too, but never for a grab, never by check 9, and where there are no entries never with ENOMEM
    /// (12). The index is the place of an entry, from 0, in the checks 6, 7 and 8: the entry that is refused, and in check 8 the first one of
    /// its cluster. Else, and with ENOMEM, it is the number of entries.
    pub fn try_set(
        &mut self,
        fh: FhId,
        which: u32,
        request: Option<RequestId>,
        list: &ControlList,
    ) -> Result<Reply, Fault>
        ensures { (seat : ℕ) → Handles D.verdict self.old self.new seat (asks.TryCtrls fh which request list.now) result }
    {
        match self.ask_try(fh, which, request, list) {
            Ok(reply) => Ok(reply),
            Err(refusal) => Err(refusal.at_entry(list.len())),
        }
    }

    // Answers a try.
    #[inline(never)]
    pub(super) fn ask_try(
        &mut self,
        fh: FhId,
        which: u32,
        request: Option<RequestId>,
        list: &ControlList,
    ) -> Result<Reply, Refusal>
        ensures handles { (seat : ℕ) → Handles D.verdict self.old self.new seat (asks.TryCtrls fh which request list.now) (published (asks.TryCtrls fh which request list.now) result) }
        ensures why { IfErr result (MayRefuse D.verdict self.old (asks.TryCtrls fh which request list.now)) }
    {
        let mut room = mem::replace(&mut self.room, Room::new(self.alloc));
        let mut work = Work::new();
        let answer = self.try_list(fh, which, request, list, &mut room, &mut work);
        self.work = work;
        self.room = room;
        answer
    }

    // The first checks of a list: the handler of its file handle, and which values it speaks of.
    fn open_list(
        &self,
        fh: FhId,
        which: u32,
        request: Option<RequestId>,
        writes: bool,
    ) -> Result<(u32, Which), Check>
        ensures passed { OnOk result (first_refusal (opening_checks D.verdict self.now.plan (past self.now.steps) fh which request writes) ≡ None) }
        ensures err { IfErr result (λ check. first_refusal (opening_checks D.verdict self.now.plan (past self.now.steps) fh which request writes) ≡ Some (record { check = check; entry = None })) }
        ensures handler { IfOk result (λ r. r.0 ≡ handler_or (handler_of (past self.now.steps) fh)) }
        ensures which { IfOk result (λ r. r.1 ≡ which_or (which_of which)) }
        ensures writable { IfOk result (λ r. writes ≡ true → r.1 ≢ Defaults) }
    {
        let Some(handler) = self.handler_of(fh) else {
            return Err(Check::ListHandleNotOpen);
        };
        let which = Which::of(which)?;
        if writes_defaults(writes, which) {
            return Err(Check::DefaultsWritten);
        }
        match self.meant_check(writes, which, request) {
            Some(check) => Err(check),
            None => Ok((handler, which)),
        }
    }

    // Why the request that a list speaks of refuses it.
    fn meant_check(&self, writes: bool, which: Which, request: Option<RequestId>) -> Option<Check>
        ensures { result ≡ meant_check D.verdict self.now.plan (past self.now.steps) writes which request }
    {
        match which {
            Which::Request => match request {
                Some(request) => self.request_check(writes, request),
                None => Some(Check::ListRequestMissing),
            },
            Which::Current | Which::Class(_) | Which::Defaults => None,
        }
    }

    // Why a request refuses a list.
    fn request_check(&self, writes: bool, request: RequestId) -> Option<Check>
        ensures { result ≡ request_check writes (request_now D.verdict self.now request) }
    {
        match self.state.frames().requests().state(request) {
            Some(state) => state_check(writes, state),
            None => Some(Check::ListRequestMissing),
        }
    }

    /// What a get is read against, behind the checks that every list begins with: the handler of its file handle, which values it speaks
    /// of, the ranges of the controls, the values that it reads, and the grabs (Linux userspace API, "struct v4l2_ext_controls"). It takes no memory and
    /// changes nothing.
    ///
    /// - `fh`, `which`, `request`: as of `get`.
    ///
    /// Refused by the first of the checks 1 to 3 of a list in docs/RULES.md that doesn't hold: EBADF (9), EINVAL (22) or EACCES (13).
    pub fn read_view(
        &self,
        fh: FhId,
        which: u32,
        request: Option<RequestId>,
    ) -> Result<View<'_, D>, Check>
        ensures passed { OnOk result (first_refusal (opening_checks D.verdict self.now.plan (past self.now.steps) fh which request false) ≡ None) }
        ensures err { IfErr result (λ check. first_refusal (opening_checks D.verdict self.now.plan (past self.now.steps) fh which request false) ≡ Some (record { check = check; entry = None })) }
        ensures plan { IfOk result (λ view. view.plan ≡ self.now.plan) }
        ensures view { IfOk result (λ view. view.parts ≡ read_view D.verdict self.now.plan (past self.now.steps) fh which request) }
    {
        let (handler, which) = self.open_list(fh, which, request, false)?;
        let at = self.at();
        let read = Moment {
            plan: at.plan,
            ranges: at.ranges,
            values: self.values_read(meant(which, request)),
            grabs: at.grabs,
        };
        Ok(View::new(handler, which, read, &[]))
    }

    // The values that a get reads: the snapshot of the request that it speaks of, which the caller owes to be complete, or the present ones.
    fn values_read(&self, request: Option<RequestId>) -> &[CtrlValue]
        requires { IfSome request (λ r. request_check false (request_now D.verdict self.now r) ≡ None) }
        ensures values { result.now ≡ values_read D.verdict self.now.plan (past self.now.steps) request }
        ensures long { length result.now ≡ length self.now.plan.controls }
    {
        match request {
            Some(request) => self.state.frames().requests().snapshot_of(request),
            None => self.values(),
        }
    }

    /// What a set and a try are judged against, behind the checks that every list begins with: as of `read_view`, but with the present
    /// values, and with the pairs that the request asks for where `which` speaks of one. It takes no memory and changes nothing.
    ///
    /// - `fh`, `which`, `request`: as of `set`.
    ///
    /// Refused by the first of the checks 1 to 3 of a list in docs/RULES.md that doesn't hold: EBADF (9), EBUSY (16) or EINVAL (22).
    pub fn write_view(
        &self,
        fh: FhId,
        which: u32,
        request: Option<RequestId>,
    ) -> Result<View<'_, D>, Check>
        ensures passed { OnOk result (first_refusal (opening_checks D.verdict self.now.plan (past self.now.steps) fh which request true) ≡ None) }
        ensures err { IfErr result (λ check. first_refusal (opening_checks D.verdict self.now.plan (past self.now.steps) fh which request true) ≡ Some (record { check = check; entry = None })) }
        ensures plan { IfOk result (λ view. view.plan ≡ self.now.plan) }
        ensures view { IfOk result (λ view. view.parts ≡ write_view D.verdict self.now.plan (past self.now.steps) fh which request) }
        ensures which { IfOk result (λ view. view.parts.which ≢ Defaults) }
    {
        let (handler, which) = self.open_list(fh, which, request, true)?;
        let earlier = self.earlier_pairs(meant(which, request));
        Ok(View::new(handler, which, self.at(), earlier))
    }

    // The pairs that are laid before those of a list: what the request asks for that it speaks of, which the caller owes to be there.
    fn earlier_pairs(&self, request: Option<RequestId>) -> &[Pair]
        requires { IfSome request (λ r. request_check true (request_now D.verdict self.now r) ≡ None) }
        ensures { result.now ≡ earlier_pairs self.now.plan (past self.now.steps) request }
    {
        match request {
            Some(request) => self.state.frames().requests().pairs_of(request),
            None => &[],
        }
    }

    // Gets the controls of a list.
    pub(super) fn get_list(
        &self,
        fh: FhId,
        which: u32,
        request: Option<RequestId>,
        list: &ControlList,
        room: &mut Room,
    ) -> Result<Reply, Refusal>
        ensures answers { MayAnswer D.verdict self.now.plan (past self.now.steps) self.now.words (asks.GetCtrls fh which request list.now) (published (asks.GetCtrls fh which request list.now) result) }
        ensures why { IfErr result (MayRefuse D.verdict self.now (asks.GetCtrls fh which request list.now)) }
        ensures passed { OnOk result (first_refusal (get_checks D.verdict self.now.plan (past self.now.steps) fh which request list.now) ≡ None) }
    {
        let view = match self.read_view(fh, which, request) {
            Ok(view) => view,
            Err(check) => return refused(check),
        };
        let controls = match read_list(self.alloc, &view, list, room) {
            Ok(controls) => controls,
            Err(refusal) => return Err(refusal),
        };
        Ok(Reply::Controls(controls))
    }

    // Tries the controls of a list.
    pub(super) fn try_list(
        &self,
        fh: FhId,
        which: u32,
        request: Option<RequestId>,
        list: &ControlList,
        room: &mut Room,
        work: &mut Work,
    ) -> Result<Reply, Refusal>
        ensures answers { MayAnswer D.verdict self.now.plan (past self.now.steps) self.now.words (asks.TryCtrls fh which request list.now) (published (asks.TryCtrls fh which request list.now) result) }
        ensures why { IfErr result (MayRefuse D.verdict self.now (asks.TryCtrls fh which request list.now)) }
        ensures passed { OnOk result (first_refusal (try_checks D.verdict self.now.plan (past self.now.steps) fh which request list.now) ≡ None) }
        ensures at_most { work.new.asked ≤ work.old.asked + list_most D.verdict self.now.plan (past self.now.steps) fh which request false list.now (list_touches self.now.plan (past self.now.steps) fh which list.now) }
        ensures asked { OnOk result (work.new.asked ≡ with_calls (judged_count self.now.plan (touched self.now.plan (list_pairs self.now.plan (past self.now.steps) fh which list.now))) work.old.asked) }
        ensures told { work.new.told ≡ work.old.told }
    {
        let view = match self.write_view(fh, which, request) {
            Ok(view) => view,
            Err(check) => return refused(check),
        };
        let touch = match try_list(self.alloc, &view, list, room, work) {
            Ok(touch) => touch,
            Err(refusal) => return Err(refusal),
        };
        Ok(Reply::Controls(touch.into_answers(room)))
    }

    // Sets the controls of a list.
    pub(super) fn set_list(
        &mut self,
        seat: u32,
        fh: FhId,
        which: u32,
        request: Option<RequestId>,
        list: &ControlList,
    ) -> Result<Reply, Refusal>
        ensures handles { Handles D.verdict self.old self.new seat (asks.SetCtrls fh which request list.now) (published (asks.SetCtrls fh which request list.now) result) }
        ensures why { IfErr result (MayRefuse D.verdict self.old (asks.SetCtrls fh which request list.now)) }
    {
        let mut room = mem::replace(&mut self.room, Room::new(self.alloc));
        let mut work = Work::new();
        let planned = self.plan_list(fh, which, request, list, &mut room, &mut work);
        self.work = work;
        self.room = room;
        let touch = match planned {
            Ok(touch) => touch,
            Err(why) => return Err(why),
        };
        match self.accept_set(seat, fh, spoken(which, request), touch) {
            Ok(controls) => Ok(Reply::Controls(controls)),
            Err(_) => refused(Check::MemoryRefused),
        }
    }

    // The refusals of a list that is to be set; else what it makes of the clusters that it touches.
    pub(super) fn plan_list(
        &self,
        fh: FhId,
        which: u32,
        request: Option<RequestId>,
        list: &ControlList,
        room: &mut Room,
        work: &mut Work,
    ) -> Result<Touched, Refusal>
        ensures ok { IfOk result (λ touch. CanBeSet D.verdict self.now.plan (past self.now.steps) fh (meant (which_or (which_of which)) request) touch) }
        ensures own_pairs { IfOk result (λ touch. touch.pairs ≡ list_pairs self.now.plan (past self.now.steps) fh which list.now) }
        ensures accepted { IfOk result (λ touch. set_list_answer D.verdict self.now.plan (past self.now.steps) fh which request list.now ≡ Ok (Controls touch.answers)) }
        ensures err { IfErr result (λ refusal. MayAnswer D.verdict self.now.plan (past self.now.steps) self.now.words (asks.SetCtrls fh which request list.now) (Err (fault_at_count (length list.now) refusal))) }
        ensures why { IfErr result (MayRefuse D.verdict self.now (asks.SetCtrls fh which request list.now)) }
        ensures passed { OnOk result (first_refusal (set_checks D.verdict self.now.plan (past self.now.steps) fh which request list.now) ≡ None) }
        ensures at_most { work.new.asked ≤ work.old.asked + list_most D.verdict self.now.plan (past self.now.steps) fh which request true list.now (list_touches self.now.plan (past self.now.steps) fh which list.now) }
        ensures asked { OnOk result (work.new.asked ≡ with_calls (judged_count self.now.plan (touched self.now.plan (list_pairs self.now.plan (past self.now.steps) fh which list.now))) work.old.asked) }
        ensures told { work.new.told ≡ work.old.told }
    {
        let view = match self.write_view(fh, which, request) {
            Ok(view) => view,
            Err(check) => return Err(Refusal::whole(check)),
        };
        let touch = match plan_set(self.alloc, &view, list, room, work) {
            Ok(touch) => touch,
            Err(refusal) => return Err(refusal),
        };
        if self.is_full() {
            let _ = touch.into_answers(room);
            return Err(Refusal::whole(Check::ListHistoryFull));
        }
        Ok(touch)
    }

    // Sets a list, or stores its pairs in the request that it speaks of, after the refusals. The error is that a growth was refused.
    fn accept_set(
        &mut self,
        seat: u32,
        fh: FhId,
        stored: Option<RequestId>,
        touch: Touched,
    ) -> Result<ControlList, AllocError>
        requires settable { CanBeSet D.verdict self.old.plan (past self.old.steps) fh stored touch }
        requires fresh { self.old.work.told ≡ 0 }
        ensures answers { IfOk result (λ controls. controls ≡ touch.answers) }
        ensures ok { OnOk result (SetsList D.verdict D.told self.old self.new seat fh stored touch) }
        ensures err { OnErr result (self.new ≡ self.old) }
    {
        match stored {
            Some(request) => self.accept_store(seat, request, touch),
            None => self.accept_list(seat, fh, touch),
        }
    }

    // Stores the pairs of a list in a request, after the refusals. The error is that a growth was refused.
    fn accept_store(
        &mut self,
        seat: u32,
        request: RequestId,
        touch: Touched,
    ) -> Result<ControlList, AllocError>
        requires follows { MayFollow D.verdict self.old.plan (past self.old.steps) (steps.Store request touch.pairs) }
        requires known { All (λ p. p.control < length self.old.plan.controls) touch.pairs }
        requires room { is_full (past self.old.steps) ≡ false }
        ensures answers { IfOk result (λ controls. controls ≡ touch.answers) }
        ensures ok { OnOk result (self.new ≡ with_step self.old seat (steps.Store request touch.pairs)) }
        ensures err { OnErr result (self.new ≡ self.old) }
    {
        let (controls, pairs) = touch.into_parts(&mut self.room);
        let pairs = PairList::from_vec(pairs);
        self.accept(seat, Step::Store { request, pairs })?;
        Ok(controls)
    }

    // Gives the clusters that a list touches their rows, after the refusals. The error is that a growth was refused.
    fn accept_list(
        &mut self,
        seat: u32,
        fh: FhId,
        touch: Touched,
    ) -> Result<ControlList, AllocError>
        requires settable { CanBeSet D.verdict self.old.plan (past self.old.steps) fh None touch }
        requires fresh { self.old.work.told ≡ 0 }
        ensures answers { IfOk result (λ controls. controls ≡ touch.answers) }
        ensures ok { OnOk result (SetsAll D.verdict D.told self.old self.new seat fh touch) }
        ensures err { OnErr result (self.new ≡ self.old) }
    {
        self.steps.reserve(1)?;
        let mut values = self.state.reserve_values(self.alloc)?;
        write_rows(&self.plan, &mut values, touch.rows());
        let clusters = touch.clusters();
        let change = self
            .state
            .controls()
            .to_values(&self.plan, values.as_slice());
        notify_between(
            &change,
            touch.pairs(),
            clusters,
            &mut self.words,
            &mut self.work,
        );
        self.state
            .set(&self.plan, fh, touch.pairs(), clusters, values);
        let mut work = Work::new();
        self.board
            .renew(&self.state.at(&self.plan), clusters, &mut work);
        self.work.asked = self.work.asked.saturating_add(work.asked);
        let (controls, pairs) = touch.into_parts(&mut self.room);
        self.steps.push_reserved(Entry {
            seat,
            step: Step::Set {
                fh,
                pairs: PairList::from_vec(pairs),
            },
        });
        Ok(controls)
    }
}
