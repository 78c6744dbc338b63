ghost use Rattle.std.specs.Prelude.{◌≡◌, ◌<◌, ◌≤◌, ◌+◌, ◌↔◌, ℕ, [], length, None, Ok, Err, IsTrue, IfOk, IfErr, IfSome, MatchResult, OnOk, OnErr};
ghost use Rattle.history.specs.Past.{past};
ghost use Rattle.ctrl_types.specs.Checks.{errno_of};
ghost use Rattle.ctrl_types.specs.declared.check.Check.TheVariants.{MemoryRefused};
ghost use Rattle.device_history.specs.declared.ask.Ask.TheVariants as asks;
ghost use Rattle.device_history.specs.declared.ask.Step.TheVariants as steps;
ghost use Rattle.ctrl_clusters.specs.Rows.{is_grabbed};
ghost use Rattle.device_history.specs.Ranges.{ranges_now};
ghost use Rattle.device_history.specs.Grabs.{grabbed, grab_check};
ghost use Rattle.device_history.specs.Flags.{flags_now};
ghost use Rattle.device_history.specs.Handles.{opened, handler_of, open_check, shown, through};
ghost use Rattle.device_history.specs.Values.{defaults, now};
ghost use Rattle.ctrl_clusters.specs.Notified.{HaveWords};
ghost use Rattle.device_history.specs.AskChecks.{published};
ghost use Rattle.device_history.specs.Refusals.{is_full, step_check};
ghost use Rattle.device_history.specs.Queries.{control_shown, has_index, id_behind, item_found, query_answer, told_answer, word_of};
ghost use Rattle.device_history.specs.RequestAnswers.{state_found};
ghost use Rattle.device_history.specs.Answers.{MayAnswer};
ghost use Rattle.device_history.specs.Legal.{IsLegal};
ghost use Rattle.history_audit.specs.Scratch.{Agrees};
ghost use Rattle.ctrl_handlers.specs.Plan.{cluster_of, control_in};
ghost use Rattle.device_state.specs.Device.{Handles, MayRefuse, cluster_asks, with_step};

mod begin;
mod checks;
mod entering;
mod events;
mod forecasts;
mod lists;
mod ranges;
mod requests;

use ctrl_calls::{Driver, Work};
use ctrl_clusters::{Moment, first_words, flags_under};
use ctrl_forecast::Board;
use ctrl_handlers::{MenuItem, Plan};
use ctrl_lists::Room;
use ctrl_settle::Ctrl;
use ctrl_types::{Check, CtrlId, CtrlValue, Errno, Fault, FhId, Flags, Refusal, RequestId};
use device_history::{Ask, CtrlInfo, MAX_FILE_HANDLES, MAX_STEPS, Reply, Step, refused};
use device_parts::State;
use frame_queue::RequestState;
use history::Entry;
use history_audit::Scratch;
use std::alloc::{AllocError, Global};
use std::marker::Model;

/// The controls of one device (Linux driver API, "V4L2 Controls"), and the history of the steps that it accepted. Contracts
/// see it as its plan, those steps, the words that its clusters were told last, and the counts of the last call: its open file
/// handles, its grabs, its present ranges, values and flags, its requests, their queue and what its frames will have, its subscriptions and the
/// events that wait are what the steps make of them, at every moment.
pub struct Device<D: Driver> {
    plan: Plan<D>,
    // what the steps make
    state: State,
    // the queued frames, with what they will have
    board: Board,
    // the words told last, by cluster
    words: Vec<u64>,
    steps: Vec<Entry<Step>>,
    work: Work,
    // where lists lie while they are judged
    room: Room,
    alloc: Global,
}

impl<D: Driver> Model for Device<D> {
    ghost use Rattle.device_state.specs.Device.{DeviceData};

    ghost Value = { DeviceData };

    ghost use Rattle.device_state.specs.Kept.{IsKept};

    ghost view = { λ d. record { plan = d.plan; steps = d.steps.items; words = d.words.items; work = d.work } };

    ghost invariant = { λ d. IsKept D.verdict D.told d.plan d.steps.items (record { state = d.state; board = d.board; words = d.words.items }) };
}

impl<D: Driver> Drop for Device<D> {
    fn drop(self) {
        let Device {
            plan: _,
            state: _,
            board: _,
            words: _,
            steps: _,
            work: _,
            room: _,
            alloc: _,
        } = self;
    }
}

impl<D: Driver> Device<D> {
    /// A device of this plan, with its ranges and defaults, without steps and grabs; the counts of `work` are 0. Each notifier is told the
    /// defaults of its cluster, in rising number of the clusters (of this project).
    ///
    /// - `alloc`: where the device lies, and later its steps and answers.
    /// - `plan`: what the device is built of.
    ///
    /// Refused by check 34 of docs/RULES.md (ENOMEM, 12). The plan is handed back as it was then, and nobody was told.
    pub fn new(alloc: Global, plan: Plan<D>) -> Result<Device<D>, (Plan<D>, Errno)>
        ensures ok { IfOk result (λ d. (d.plan ≡ plan) × (d.steps ≡ []) × HaveWords D.told plan (defaults plan) d.words × (d.work ≡ record { asked = 0; told = 0 })) }
        ensures err { IfErr result (λ e. (e.0 ≡ plan) × (e.1 ≡ errno_of MemoryRefused)) }
    {
        let Ok(state) = State::new(alloc, &plan) else {
            return Err((plan, Check::MemoryRefused.errno()));
        };
        let mut told = Work::new();
        let Ok(words) = first_words(alloc, &state.at(&plan), &mut told) else {
            return Err((plan, Check::MemoryRefused.errno()));
        };
        Ok(Device {
            plan,
            state,
            board: Board::empty(alloc),
            words,
            steps: Vec::new(alloc),
            work: Work::new(),
            room: Room::new(alloc),
            alloc,
        })
    }

    /// What the device was built of.
    pub fn plan(&self) -> &Plan<D>
        ensures { result.now ≡ self.now.plan }
    {
        &self.plan
    }

    /// The steps that were accepted, oldest first. They are legal, and there are at most 1,000,000 of them; each cluster has a
    /// word that it may have been told of the values that they make.
    pub fn steps(&self) -> &[Entry<Step>]
        ensures steps { result.now ≡ self.now.steps }
        ensures legal { IsLegal D.verdict self.now.plan (past self.now.steps) }
        ensures few { length self.now.steps ≤ MAX_STEPS }
        ensures words { HaveWords D.told self.now.plan (now D.verdict self.now.plan (past self.now.steps)) self.now.words }
    {
        self.steps.as_slice()
    }

    /// The present values, for a driver's own use (Linux driver API, "V4L2 Controls", "Getting and Setting Control Values"): one
    /// for each control, in the order of the plan's numbers. They are what the accepted steps make of the defaults. It takes no
    /// memory.
    #[tactic(auto, using(device_history::proofs::PresentLemmas::length_now))]
    pub fn values(&self) -> &[CtrlValue]
        ensures values { result.now ≡ now D.verdict self.now.plan (past self.now.steps) }
        ensures long { length result.now ≡ length self.now.plan.controls }
    {
        self.state.controls().values()
    }

    /// A control with its present range, for a driver's own use (Linux driver API, `v4l2_ctrl_modify_range`): its bounds, step and default, as `query` tells
    /// them, beside what the plan says of it. It takes no memory and refuses nothing.
    ///
    /// - `control`: the control's number, below the number of the plan's controls.
    pub fn range(&self, control: u32) -> &Ctrl
        requires { control < length self.now.plan.controls }
        ensures { result.now ≡ control_in (ranges_now self.now.plan (past self.now.steps)) control }
    {
        self.at().ranges.range(control)
    }

    /// The present flags of a control, for a driver's own use (Linux userspace API, "Control Flags"): those of the plan, GRABBED
    /// where it is grabbed, and INACTIVE where its auto cluster makes it so, as `query` tells them. It takes no memory.
    ///
    /// - `control`: the control's number, below the number of the plan's controls.
    pub fn flags(&self, control: u32) -> Flags
        requires { control < length self.now.plan.controls }
        ensures { result ≡ flags_now D.verdict self.now.plan (past self.now.steps) control }
    {
        flags_under(&self.at(), control)
    }

    /// Whether a control is grabbed, for a driver's own use (Linux driver API, `v4l2_ctrl_grab`): its last accepted grab holds
    /// it. It takes no memory.
    ///
    /// - `control`: the control's number, below the number of the plan's controls.
    pub fn is_grabbed(&self, control: u32) -> bool
        requires { control < length self.now.plan.controls }
        ensures { result ≡ is_grabbed (grabbed self.now.plan (past self.now.steps)) control }
    {
        self.at().grabs[control as usize]
    }

    /// The number of the handler that a file handle is open on, for a driver's own use (of this project); none where it isn't
    /// open. It takes no memory.
    ///
    /// - `fh`: any file handle, open or not.
    pub fn handler_of(&self, fh: FhId) -> Option<u32>
        ensures { result ≡ handler_of (past self.now.steps) fh }
    {
        self.state.handler_of(fh)
    }

    /// How many file handles are open, at most 64, for a driver's own use (of this project). It takes no memory.
    pub fn open_count(&self) -> usize
        ensures { result ≡ length (opened (past self.now.steps)) }
    {
        self.state.file_handles().len()
    }

    /// Whether what an audit worked out of some history is what the device has: the present ranges, values and flags, the requests with their
    /// state, buffer and pairs, and of complete ones the snapshot, the queue with its forecasts, and of each open file handle the events that wait and the number of its next
    /// one (of this project). What a begin applied of a request isn't compared, neither of a complete nor of a running one. It takes no memory, and neither validators nor notifiers are called. An audit of the device's own plan and steps agrees, as the law `own_audits` says.
    ///
    /// - `scratch`: what an audit answered; the caller sees to it that it was of this device's plan.
    pub fn agrees(&self, scratch: &Scratch) -> bool
        ensures { IsTrue result ↔ Agrees D.verdict self.now.plan (past self.now.steps) scratch.now.shown }
    {
        scratch.has_parts(
            &self.at(),
            self.state.frames(),
            &self.board,
            self.state.file_handles(),
            self.state.events(),
        )
    }

    /// How often the last call of `handle`, `ask`, `refusal` or a short form asked validators and told notifiers; zeros before the first.
    pub fn work(&self) -> Work
        ensures { result ≡ self.now.work }
    {
        self.work
    }

    /// Answers an ask. An accepted ask adds its step to the history, if it has one. Each cluster with a changed member is told
    /// its new row once, and its word is kept; the word of every other stays. A refusal leaves the device as it was, but for the
    /// counts of `work`.
    ///
    /// - `seat`: the number of the seat that asks, any `u32`; the step is entered for it.
    /// - `ask`: what is asked. It is lent, and never changed.
    ///
    /// An ask is refused by the first of its checks that doesn't hold. They have their numbers, and their text, in docs/RULES.md; an ask that
    /// adds a step has the checks 33 (ENOSPC, 28) and 34 (ENOMEM, 12) behind those that are named here. But for lists, a refusal has no index.
    ///
    /// - `OpenFh` opens a file handle (of this project): 10 (EINVAL, 22), 11 (ENOSPC).
    /// - `CloseFh` closes one for good (of this project): 12 (EBADF, 9).
    /// - `Grab` grabs a control, whatever its flags, or lets it go (Linux driver API, `v4l2_ctrl_grab`): 13 (EINVAL). As long as it is grabbed it
    ///   has GRABBED and a set of it is refused. A grab that holds already is accepted, and is a step. It asks at most one validator for each
    ///   queued frame that names the control's cluster, as its forecast follows.
    /// - `ModifyRange` gives a control another range, grabbed or not (Linux driver API, `v4l2_ctrl_modify_range`): 13 (EINVAL), 55 (ERANGE, 34).
    ///   Its present value is settled by this range, and becomes the new default where the range takes none; the cluster isn't judged. Where the
    ///   value changes, the cluster is told its new row. It asks at most one validator for each queued frame that names the control's cluster, as
    ///   its forecast follows. Requests keep their values as they were given; these are settled when their frame begins.
    ///
    /// Media requests (Linux userspace API, "Request API"; limits, buffers, begins, cancellations and freeing are of this project):
    ///
    /// - `Alloc` makes a request: 18 (ENOSPC). It is idle, without settings and buffer; its id is the number of its step.
    /// - `AddBuffer` gives a request the number of a buffer: 19 (EINVAL), 20 to 22 (EBUSY, 16).
    /// - `Queue` has a request wait for its frame, the last: 19 (EINVAL), 20 (EBUSY), 23 (ENOENT, 2). For the forecast it asks at most one
    ///   validator for each cluster that the request names.
    /// - `Begin` begins the frame of the first that waits: 24 (EBUSY), 25 (ENOENT). What the request asks for is laid over the present values,
    ///   cluster by cluster; a cluster of which the request names a grabbed control, or that settling or its validator refuses, keeps its row, and
    ///   the reply names it. Each other cluster with a changed member is told its new row once. It asks no validator, as its forecast did.
    /// - `Complete` ends the frame that is being made: 26 (ENOENT).
    /// - `Cancel` takes a request from the queue, without its frame being made: 19 (EINVAL), 27 (EBUSY), 28 (EINVAL). For
    ///   each frame behind it at most one validator is asked for each cluster that both the cancelled request and that frame name.
    /// - `StreamOff` completes the request whose frame is being made and all that wait; the present values stay.
    /// - `Reinit` makes a request as new, `Free` lets it go for good: 19 (EINVAL), 29 (EBUSY).
    /// - `StateOf` reads a request's state: 19 (EINVAL). It takes no memory.
    ///
    /// Control events (Linux userspace API, "ioctl VIDIOC_SUBSCRIBE_EVENT, VIDIOC_UNSUBSCRIBE_EVENT", "ioctl VIDIOC_DQEVENT"; the order of the
    /// events of one step, and that a member which isn't in the list is heard of, are of this project). A set, the begin of a frame, a grab and a range
    /// change raise an event of each control whose value or flags change, and a range change one of its control where a bound, the step or the
    /// default does, in the order of the controls' numbers, for each file handle that is subscribed to it; but the file handle whose set it is hears
    /// of a control of its list only where its subscription allows feedback, or the flags change. At most one event of a control waits for a file
    /// handle: a later one takes its place at the end, and has the changes of both. Each raise takes the next number of its file handle, from 0.
    /// Closing a file handle ends its subscriptions, and drops what waits.
    ///
    /// - `Subscribe` subscribes a file handle to the events of a control: 12 (EBADF), 15 (EINVAL). Where `flags` say so, an event with its present
    ///   value and flags is raised for it at once. A subscription that is there already stays as it is, and the ask is accepted.
    /// - `Unsubscribe` ends a subscription, whatever the id: 12 (EBADF). What waits of the control is dropped.
    /// - `Take` takes the first event that waits, see `take`.
    ///
    /// `Forecast` says what the queued frame at a place will have, see `forecast`. For lists see `get`, `set` and `try_set`, for `Query` and
    /// `Told` see `query` and `told`.
    ///
    /// `NextId` tells the least id that is shown to `fh` and greater than `id`, DISABLED controls counted (Linux userspace API,
    /// "ioctls VIDIOC_QUERYCTRL, VIDIOC_QUERY_EXT_CTRL and VIDIOC_QUERYMENU"): 12 (EBADF), 16 (EINVAL); it takes no memory. `MenuItem` tells
    /// the item of a menu, also of a DISABLED one: 12 (EBADF), 15 and 17 (EINVAL), 34 (ENOMEM). Neither changes anything but the counts of
    /// `work`.
    pub fn handle(&mut self, seat: u32, ask: &Ask) -> Result<Reply, Fault>
        ensures handles { Handles D.verdict self.old self.new seat ask.now result }
        ensures words { HaveWords D.told self.new.plan (now D.verdict self.new.plan (past self.new.steps)) self.new.words }
    {
        match self.ask(seat, ask) {
            Ok(reply) => Ok(reply),
            Err(refusal) => Err(ask.fault(refusal)),
        }
    }

    /// Answers an ask as `handle` does, but tells a refusal as what refuses the ask (of this project): the first check of docs/RULES.md that doesn't hold, and of a list
    /// the entry where it doesn't; or want of memory, check 34, where `handle` answers ENOMEM. `Ask::fault` makes of it what `handle` answers. A refusal leaves the device
    /// as it was, but for the counts of `work`.
    ///
    /// - `seat`, `ask`: as of `handle`.
    pub fn ask(&mut self, seat: u32, ask: &Ask) -> Result<Reply, Refusal>
        ensures handles { Handles D.verdict self.old self.new seat ask.now (published ask.now result) }
        ensures why { IfErr result (MayRefuse D.verdict self.old ask.now) }
        ensures words { HaveWords D.told self.new.plan (now D.verdict self.new.plan (past self.new.steps)) self.new.words }
    {
        let answer = self.answer(seat, ask);
        // the words are such as were told, as the contract of `steps` says
        let _kept = self.steps();
        answer
    }

    fn answer(&mut self, seat: u32, ask: &Ask) -> Result<Reply, Refusal>
        ensures handles { Handles D.verdict self.old self.new seat ask.now (published ask.now result) }
        ensures why { IfErr result (MayRefuse D.verdict self.old ask.now) }
    {
        match ask {
            Ask::OpenFh { handler } => self.open(seat, *handler),
            Ask::CloseFh { fh } => self.close(seat, *fh),
            Ask::GetCtrls {
                fh,
                which,
                request,
                list,
            } => self.ask_get(*fh, *which, *request, list),
            Ask::SetCtrls {
                fh,
                which,
                request,
                list,
            } => self.set_list(seat, *fh, *which, *request, list),
            Ask::TryCtrls {
                fh,
                which,
                request,
                list,
            } => self.ask_try(*fh, *which, *request, list),
            Ask::Grab { control, on } => self.grab(seat, *control, *on),
            Ask::ModifyRange {
                control,
                min,
                max,
                step,
                default_value,
            } => self.modify_range(seat, *control, *min, *max, *step, *default_value),
            Ask::Alloc => self.enter_alloc(seat, ask),
            Ask::AddBuffer { request, buffer } => {
                self.enter_buffer(seat, ask, *request, *buffer)
            }
            Ask::Queue { request } => self.enter_queue(seat, ask, *request),
            Ask::Begin => self.begin(seat),
            Ask::Complete => self.complete(seat),
            Ask::Cancel { request } => self.enter_cancel(seat, ask, *request),
            Ask::StreamOff => self.enter_stream_off(seat, ask),
            Ask::Reinit { request } => self.enter_reinit(seat, ask, *request),
            Ask::Free { request } => self.enter_free(seat, ask, *request),
            Ask::Subscribe { fh, id, flags } => self.subscribe(seat, *fh, *id, *flags),
            Ask::Unsubscribe { fh, id } => self.enter_unsubscribe(seat, ask, *fh, *id),
            Ask::Take { fh } => self.ask_take(seat, *fh),
            Ask::StateOf { request } => self.read_state(*request),
            Ask::Forecast { place } => self.ask_forecast(*place),
            Ask::Query { fh, id } => self.ask_query(*fh, *id),
            Ask::NextId { fh, id } => self.next(*fh, *id),
            Ask::MenuItem { fh, id, index } => self.item(*fh, *id, *index),
            Ask::Told { cluster } => self.ask_told(*cluster),
        }
    }

    /// What a control is like, as `handle` on `Ask::Query` of these fields at any seat does (Linux userspace API, "ioctls
    /// VIDIOC_QUERYCTRL, VIDIOC_QUERY_EXT_CTRL and VIDIOC_QUERYMENU"): its id, kind, bounds, step and default, and its present
    /// flags, which are those of the plan, GRABBED where it is grabbed, and INACTIVE where its auto cluster makes it so. A control
    /// that is DISABLED is found. It takes no memory.
    ///
    /// - `fh`: the file handle; the controls that are shown to it can be queried.
    /// - `id`: the control's id.
    ///
    /// Refused, without an index, by check 12 (EBADF, 9) or 15 (EINVAL, 22) of docs/RULES.md. Answered or refused, nothing is changed but
    /// the counts of `work`.
    pub fn query(&mut self, fh: FhId, id: CtrlId) -> Result<Reply, Fault>
        ensures { (seat : ℕ) → Handles D.verdict self.old self.new seat (asks.Query fh id) result }
    {
        match self.ask_query(fh, id) {
            Ok(reply) => Ok(reply),
            Err(refusal) => Err(refusal.check.fault()),
        }
    }

    // Answers a query.
    #[inline(never)]
    fn ask_query(&mut self, fh: FhId, id: CtrlId) -> Result<Reply, Refusal>
        ensures handles { (seat : ℕ) → Handles D.verdict self.old self.new seat (asks.Query fh id) (published (asks.Query fh id) result) }
        ensures why { IfErr result (MayRefuse D.verdict self.old (asks.Query fh id)) }
    {
        self.work = Work::new();
        self.info(fh, id)
    }

    /// The word that a cluster was told last, as `handle` on `Ask::Told` of it at any seat does (of this project): 0 where the
    /// cluster has no notifier. It takes no memory.
    ///
    /// - `cluster`: the cluster's number, from 0 in the order of the plan's clusters.
    ///
    /// Refused, without an index, by check 14 of docs/RULES.md (EINVAL, 22). Answered or refused, nothing is changed but the counts of
    /// `work`.
    pub fn told(&mut self, cluster: u32) -> Result<Reply, Fault>
        ensures { (seat : ℕ) → Handles D.verdict self.old self.new seat (asks.Told cluster) result }
    {
        match self.ask_told(cluster) {
            Ok(reply) => Ok(reply),
            Err(refusal) => Err(refusal.check.fault()),
        }
    }

    // Answers an ask for the word that a cluster was told last.
    #[inline(never)]
    fn ask_told(&mut self, cluster: u32) -> Result<Reply, Refusal>
        ensures handles { (seat : ℕ) → Handles D.verdict self.old self.new seat (asks.Told cluster) (published (asks.Told cluster) result) }
        ensures why { IfErr result (MayRefuse D.verdict self.old (asks.Told cluster)) }
    {
        self.work = Work::new();
        self.word(cluster)
    }

    // Answers an ask for a request's state.
    #[inline(never)]
    fn read_state(&mut self, request: RequestId) -> Result<Reply, Refusal>
        ensures handles { (seat : ℕ) → Handles D.verdict self.old self.new seat (asks.StateOf request) (published (asks.StateOf request) result) }
        ensures why { IfErr result (MayRefuse D.verdict self.old (asks.StateOf request)) }
    {
        self.work = Work::new();
        match self.state_found(request) {
            Ok(state) => Ok(Reply::State(state)),
            Err(check) => refused(check),
        }
    }

    // A request's state, or why there is none.
    fn state_found(&self, request: RequestId) -> Result<RequestState, Check>
        ensures { result ≡ state_found (past self.now.steps) request }
    {
        match self.state.frames().requests().state(request) {
            Some(state) => Ok(state),
            None => Err(Check::RequestMissing),
        }
    }

    // Answers an ask for the next id.
    #[inline(never)]
    fn next(&mut self, fh: FhId, id: CtrlId) -> Result<Reply, Refusal>
        ensures handles { (seat : ℕ) → Handles D.verdict self.old self.new seat (asks.NextId fh id) (published (asks.NextId fh id) result) }
        ensures why { IfErr result (MayRefuse D.verdict self.old (asks.NextId fh id)) }
    {
        self.work = Work::new();
        match self.id_behind(fh, id) {
            Ok(next) => Ok(Reply::Id(next)),
            Err(check) => refused(check),
        }
    }

    // Answers an ask for an item of a menu.
    #[inline(never)]
    fn item(&mut self, fh: FhId, id: CtrlId, index: u32) -> Result<Reply, Refusal>
        ensures handles { (seat : ℕ) → Handles D.verdict self.old self.new seat (asks.MenuItem fh id index) (published (asks.MenuItem fh id index) result) }
        ensures why { IfErr result (MayRefuse D.verdict self.old (asks.MenuItem fh id index)) }
    {
        self.work = Work::new();
        self.menu_item(fh, id, index)
    }

    #[inline(never)]
    fn open(&mut self, seat: u32, handler: u32) -> Result<Reply, Refusal>
        ensures handles { Handles D.verdict self.old self.new seat (asks.OpenFh handler) (published (asks.OpenFh handler) result) }
        ensures why { IfErr result (MayRefuse D.verdict self.old (asks.OpenFh handler)) }
    {
        self.work = Work::new();
        if let Some(check) = self.step_check(self.open_check(handler)) {
            return refused(check);
        }
        match self.accept_open(seat, handler) {
            Ok(fh) => Ok(Reply::Fh(fh)),
            Err(_) => refused(Check::MemoryRefused),
        }
    }

    // Why no file handle is opened.
    fn open_check(&self, handler: u32) -> Option<Check>
        ensures { result ≡ open_check self.now.plan (past self.now.steps) handler }
    {
        if !self.plan.has_handler(handler) {
            return Some(Check::HandlerMissing);
        }
        if self.state.file_handles().len() >= MAX_FILE_HANDLES {
            return Some(Check::TooManyHandles);
        }
        None
    }

    // Opens a file handle, after the refusals.
    fn accept_open(&mut self, seat: u32, handler: u32) -> Result<FhId, AllocError>
        requires { step_check (past self.old.steps) (open_check self.old.plan (past self.old.steps) handler) ≡ None }
        ensures ok { IfOk result (λ fh. (fh.0 ≡ length self.old.steps) × (self.new ≡ with_step self.old seat (steps.OpenFh handler))) }
        ensures err { OnErr result (self.new ≡ self.old) }
    {
        let number = self.steps.len() as u32;
        self.steps.reserve(1)?;
        self.state.open(number, handler)?;
        self.steps.push_reserved(Entry {
            seat,
            step: Step::OpenFh { handler },
        });
        Ok(FhId(number))
    }

    #[inline(never)]
    fn close(&mut self, seat: u32, fh: FhId) -> Result<Reply, Refusal>
        ensures handles { Handles D.verdict self.old self.new seat (asks.CloseFh fh) (published (asks.CloseFh fh) result) }
        ensures why { IfErr result (MayRefuse D.verdict self.old (asks.CloseFh fh)) }
    {
        self.work = Work::new();
        if let Some(check) = self.step_check(self.through(fh)) {
            return refused(check);
        }
        match self.accept_close(seat, fh) {
            Ok(()) => Ok(Reply::Done),
            Err(_) => refused(Check::MemoryRefused),
        }
    }

    // Why nothing is asked through a file handle.
    fn through(&self, fh: FhId) -> Option<Check>
        ensures { result ≡ through (past self.now.steps) fh None }
    {
        match self.handler_of(fh) {
            Some(_) => None,
            None => Some(Check::HandleNotOpen),
        }
    }

    // Closes a file handle, after the refusals.
    fn accept_close(&mut self, seat: u32, fh: FhId) -> Result<(), AllocError>
        requires { step_check (past self.old.steps) (through (past self.old.steps) fh None) ≡ None }
        ensures ok { OnOk result (self.new ≡ with_step self.old seat (steps.CloseFh fh)) }
        ensures err { OnErr result (self.new ≡ self.old) }
    {
        self.steps.reserve(1)?;
        self.state.close(fh);
        self.steps.push_reserved(Entry {
            seat,
            step: Step::CloseFh { fh },
        });
        Ok(())
    }

    #[inline(never)]
    fn grab(&mut self, seat: u32, control: u32, on: bool) -> Result<Reply, Refusal>
        ensures handles { Handles D.verdict self.old self.new seat (asks.Grab control on) (published (asks.Grab control on) result) }
        ensures why { IfErr result (MayRefuse D.verdict self.old (asks.Grab control on)) }
    {
        self.work = Work::new();
        if let Some(check) = self.step_check(self.grab_check(control)) {
            return refused(check);
        }
        match self.accept_grab(seat, control, on) {
            Ok(()) => Ok(Reply::Done),
            Err(_) => refused(Check::MemoryRefused),
        }
    }

    // Why a control is neither grabbed nor let go.
    fn grab_check(&self, control: u32) -> Option<Check>
        ensures { result ≡ grab_check self.now.plan control }
    {
        if control >= self.plan.control_count() {
            return Some(Check::ControlMissing);
        }
        None
    }

    // Grabs a control or lets it go, after the refusals.
    fn accept_grab(&mut self, seat: u32, control: u32, on: bool) -> Result<(), AllocError>
        requires { step_check (past self.old.steps) (grab_check self.old.plan control) ≡ None }
        ensures ok { OnOk result (self.new ≡ with_step (record self.old { work = self.new.work }) seat (steps.Grab control on)) }
        ensures asked { OnOk result (self.new.work.asked ≤ self.old.work.asked + cluster_asks self.old.plan (past self.old.steps) (cluster_of self.old.plan control)) }
        ensures told { OnOk result (self.new.work.told ≡ self.old.work.told) }
        ensures err { OnErr result (self.new ≡ self.old) }
    {
        self.steps.reserve(1)?;
        let room = self.state.reserve_grab(self.alloc)?;
        self.state.grab(&self.plan, control, on, room);
        let cluster = self.plan.cluster_of(control);
        self.board
            .rejudge(&self.state.at(&self.plan), &[cluster], &mut self.work);
        self.steps.push_reserved(Entry {
            seat,
            step: Step::Grab { control, on },
        });
        Ok(())
    }

    /// Whether no further step is kept, for a driver's own use: an ask that adds one is refused by check 33, or 9 (ENOSPC, 28). It takes no memory.
    pub fn is_full(&self) -> bool
        ensures { result ≡ is_full (past self.now.steps) }
    {
        self.steps.len() >= MAX_STEPS
    }

    // Why an ask that adds a step is refused: by its own check, or as no further step is kept.
    fn step_check(&self, own: Option<Check>) -> Option<Check>
        ensures { result ≡ step_check (past self.now.steps) own }
    {
        match own {
            Some(check) => Some(check),
            None => {
                if self.is_full() {
                    Some(Check::HistoryFull)
                } else {
                    None
                }
            }
        }
    }

    // The control that is shown to a file handle under an id.
    fn shown(&self, fh: FhId, id: CtrlId) -> Option<u32>
        ensures shown { result ≡ shown self.now.plan (past self.now.steps) fh id }
        ensures known { IfSome result (λ c. c < length self.now.plan.controls) }
    {
        self.control_shown(fh, id).ok()
    }

    // The present moment.
    fn at(&self) -> Moment<'_, D>
        ensures plan { result.plan.now ≡ self.now.plan }
        ensures ranges { result.ranges.now ≡ ranges_now self.now.plan (past self.now.steps) }
        ensures values { result.values.now ≡ now D.verdict self.now.plan (past self.now.steps) }
        ensures grabs { result.grabs.now ≡ grabbed self.now.plan (past self.now.steps) }
    {
        self.state.at(&self.plan)
    }

    // The control that is shown to a file handle under an id, or why there is none.
    fn control_shown(&self, fh: FhId, id: CtrlId) -> Result<u32, Check>
        ensures shown { result ≡ control_shown self.now.plan (past self.now.steps) fh id }
        ensures known { IfOk result (λ c. c < length self.now.plan.controls) }
    {
        let Some(handler) = self.handler_of(fh) else {
            return Err(Check::HandleNotOpen);
        };
        match self.plan.find(handler, id) {
            Ok(control) => Ok(control),
            Err(_) => Err(Check::IdNotShown),
        }
    }

    // What the control that is shown to a file handle under an id is like.
    fn info(&self, fh: FhId, id: CtrlId) -> Result<Reply, Refusal>
        ensures answer { published (asks.Query fh id) result ≡ query_answer D.verdict self.now.plan (past self.now.steps) fh id }
        ensures why { IfErr result (MayRefuse D.verdict self.now (asks.Query fh id)) }
    {
        match self.control_shown(fh, id) {
            Ok(number) => {
                let ctrl = self.range(number);
                Ok(Reply::Info(CtrlInfo::of(ctrl, self.flags(number))))
            }
            Err(check) => refused(check),
        }
    }

    // The least id that is shown to a file handle and greater than another, or why there is none.
    fn id_behind(&self, fh: FhId, id: CtrlId) -> Result<CtrlId, Check>
        ensures { result ≡ id_behind self.now.plan (past self.now.steps) fh id }
    {
        let Some(handler) = self.handler_of(fh) else {
            return Err(Check::HandleNotOpen);
        };
        match self.plan.next_id(handler, id) {
            Ok(next) => Ok(next),
            Err(_) => Err(Check::NoGreaterId),
        }
    }

    // The item at an index of a menu that is shown to a file handle, where the index lies within the range of the moment, or why there is none.
    fn item_found(&self, fh: FhId, id: CtrlId, index: u32) -> Result<&MenuItem, Check>
        ensures { MatchResult result (λ item. item_found self.now.plan (past self.now.steps) fh id index ≡ Ok item.now) (λ check. item_found self.now.plan (past self.now.steps) fh id index ≡ Err check) }
    {
        let number = self.control_shown(fh, id)?;
        if !self.has_index(number, index) {
            return Err(Check::ItemMissing);
        }
        match self.plan.menu_item(number, index) {
            Ok(item) => Ok(item),
            Err(_) => Err(Check::ItemMissing),
        }
    }

    // The item at an index of a menu, as the reply.
    fn menu_item(&self, fh: FhId, id: CtrlId, index: u32) -> Result<Reply, Refusal>
        ensures answers { MayAnswer D.verdict self.now.plan (past self.now.steps) self.now.words (asks.MenuItem fh id index) (published (asks.MenuItem fh id index) result) }
        ensures why { IfErr result (MayRefuse D.verdict self.now (asks.MenuItem fh id index)) }
    {
        let item = match self.item_found(fh, id, index) {
            Ok(item) => item,
            Err(check) => return refused(check),
        };
        match item.copied(self.alloc) {
            Ok(item) => Ok(Reply::Item(item)),
            Err(_) => refused(Check::MemoryRefused),
        }
    }

    // Whether an index lies within the range that a control has now.
    fn has_index(&self, control: u32, index: u32) -> bool
        requires { control < length self.now.plan.controls }
        ensures { result ≡ has_index (control_in (ranges_now self.now.plan (past self.now.steps)) control) index }
    {
        let ctrl = self.range(control);
        let index = i64::from(index);
        ctrl.minimum() <= index && index <= ctrl.maximum()
    }

    // The word that a cluster was told last, or why there is none.
    fn word_of(&self, cluster: u32) -> Result<u64, Check>
        ensures { result ≡ word_of self.now.plan self.now.words cluster }
    {
        match self.words.get(cluster as usize) {
            Some(word) => Ok(*word),
            None => Err(Check::ClusterMissing),
        }
    }

    // The word that a cluster was told last, as the reply.
    fn word(&self, cluster: u32) -> Result<Reply, Refusal>
        ensures answer { published (asks.Told cluster) result ≡ told_answer self.now.plan self.now.words cluster }
        ensures why { IfErr result (MayRefuse D.verdict self.now (asks.Told cluster)) }
    {
        match self.word_of(cluster) {
            Ok(word) => Ok(Reply::Word(word)),
            Err(check) => refused(check),
        }
    }
}
