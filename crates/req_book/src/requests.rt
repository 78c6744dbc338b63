ghost use Rattle.std.specs.Prelude.{◌≡◌, ◌↔◌, IsTrue, ◌++◌, ◌<◌, ◌∷◌, [], length, None, Ok, Err, true, IfSome, OnErr, OnOk, MatchResult, is_some, IfOk, IsOk, Some};
ghost use Rattle.std.specs.List.{All};
ghost use Rattle.std.specs.Option.{option_map};
ghost use Rattle.req_book.specs.declared.state.RequestState.TheVariants as states;
ghost use Rattle.req_book.specs.Requests.{HaveOwnIds, find, buffer_in, with_changed, with_pairs, with_buffer, cleared, queued, begun, completed, is_pending, without, new_request};
ghost use Rattle.req_book.specs.Refusals.{alloc_check, store_check, buffer_check, queue_check, clear_check, state_answer, buffer_answer, asked_answer, snapshot_answer, value_answer};
ghost use Rattle.req_book.specs.Alike.{AreLike};

use crate::limits::MAX_REQUESTS;
use crate::objects::Objects;
use crate::room::FrameRoom;
use crate::settings::latest;
use crate::state::RequestState;
use ctrl_types::{Check, CtrlValue, Errno, Pair, RequestId};
use std::alloc::{AllocError, Global};
use std::marker::Model;

/// The media requests of a device (Linux userspace API, "Request API"). Contracts see each request's state, its buffer, what it asks for,
/// and what its frame had, in the order in which the requests were allocated. The checks that refuse a call have their numbers, and their
/// text, in docs/RULES.md.
#[derive(Drop)]
pub struct Requests {
    objects: Objects,
    alloc: Global,
}

impl Model for Requests {
    ghost use Rattle.req_book.specs.Requests.{RequestsData};

    ghost Value = { RequestsData };

    ghost view = { λ r. r.objects };
}

impl Requests {
    /// No request is there (of this project: a media device is made without any). It takes no memory and refuses nothing.
    ///
    /// - `alloc`: where `alloc`, `store` and `reserve` take theirs.
    /// - `controls`: the number of the device's controls, any `u32`; those that are stored have numbers below it.
    pub fn new(alloc: Global, controls: u32) -> Requests
        ensures { result ≡ record { controls = controls; all = [] } }
    {
        Requests {
            objects: Objects::new(alloc, controls),
            alloc,
        }
    }

    /// The number of the device's controls, as it was given to `new` (of this project). It takes no memory and refuses nothing.
    pub fn controls(&self) -> u32
        ensures { result ≡ self.now.controls }
    {
        self.objects.controls()
    }

    /// How many requests there are, at most 64 (of this project); no two have an id in common. It takes no memory and refuses nothing.
    pub fn count(&self) -> usize
        ensures count { result ≡ length self.now.all }
        ensures ids { HaveOwnIds self.now.all }
    {
        self.objects.count()
    }

    /// Whether another store has the same requests in the same order, with state, buffer, what they ask for and, of complete ones, what their
    /// frames had, and is for as many controls (of this project). What a begin applied doesn't count. It takes no memory and refuses nothing.
    ///
    /// - `other`: any store.
    pub fn is_like(&self, other: &Requests) -> bool
        ensures { IsTrue result ↔ AreLike self.now other.now }
    {
        self.objects.is_like(&other.objects)
    }

    /// A request's state (Linux userspace API, "Request API"). Refused by check 19 (EINVAL, 22). It takes no memory.
    ///
    /// - `id`: any request, there or not.
    pub fn state_of(&self, id: RequestId) -> Result<RequestState, Errno>
        ensures { result ≡ state_answer (find self.now.all id.0) }
    {
        match self.state(id) {
            Some(state) => Ok(state),
            None => Err(Check::RequestMissing.errno()),
        }
    }

    /// A request's state, none where there is no such request (Linux userspace API, "Request API"). It takes no memory and refuses nothing.
    ///
    /// - `id`: any request, there or not.
    pub fn state(&self, id: RequestId) -> Option<RequestState>
        ensures { result ≡ option_map (λ r. r.state) (find self.now.all id.0) }
    {
        match self.objects.get(id.0) {
            Some(object) => Some(object.state),
            None => None,
        }
    }

    /// The number of the buffer that a request was given, where it was given one since it was made, or made as new; a complete one keeps it (Linux
    /// userspace API, "Request API"; that it has one is of this project). Refused by check 19 (EINVAL, 22). It takes no memory.
    ///
    /// - `id`: any request, there or not.
    pub fn buffer_of(&self, id: RequestId) -> Result<Option<u32>, Errno>
        ensures { result ≡ buffer_answer (find self.now.all id.0) }
    {
        match self.objects.get(id.0) {
            Some(object) => Ok(object.buffer),
            None => Err(Check::RequestMissing.errno()),
        }
    }

    /// What a request asks for (Linux userspace API, "Request API"): of each control the last stored pair, in order of control numbers. Refused by
    /// check 19 (EINVAL, 22). It takes no memory.
    ///
    /// - `id`: any request, there or not.
    pub fn asked(&self, id: RequestId) -> Result<&[Pair], Errno>
        ensures { MatchResult result (λ pairs. asked_answer (find self.now.all id.0) ≡ Ok pairs.now) (λ errno. asked_answer (find self.now.all id.0) ≡ Err errno) }
    {
        match self.objects.get(id.0) {
            Some(object) => Ok(object.pairs.as_slice()),
            None => Err(Check::RequestMissing.errno()),
        }
    }

    /// What a request asks for, as `asked` answers it (Linux userspace API, "Request API"). It takes no memory.
    ///
    /// - `id`: a request; the caller owes that it is there.
    pub fn pairs_of(&self, id: RequestId) -> &[Pair]
        requires { is_some (find self.now.all id.0) ≡ true }
        ensures { asked_answer (find self.now.all id.0) ≡ Ok result.now }
    {
        self.objects.get(id.0).unwrap().pairs.as_slice()
    }

    /// The number of a request's buffer (Linux userspace API, "Request API"; that it has one is of this project). It takes no memory.
    ///
    /// - `id`: a request; the caller owes that it is there, and was given a buffer.
    pub fn number_of(&self, id: RequestId) -> u32
        requires { is_some (buffer_in (find self.now.all id.0)) ≡ true }
        ensures { buffer_in (find self.now.all id.0) ≡ Some result }
    {
        self.objects.get(id.0).unwrap().buffer.unwrap()
    }

    /// The value of each control that the frame of a complete request had, in the order of their numbers (Linux userspace API, "Request API": its
    /// controls are read once it is complete). Refused by check 19 (EINVAL, 22) or 30 (EACCES, 13). It takes no memory.
    ///
    /// - `id`: any request, there or not.
    pub fn snapshot_values(&self, id: RequestId) -> Result<&[CtrlValue], Errno>
        ensures { MatchResult result (λ values. snapshot_answer (find self.now.all id.0) ≡ Ok values.now) (λ errno. snapshot_answer (find self.now.all id.0) ≡ Err errno) }
    {
        match self.objects.get(id.0) {
            Some(object) => object.snapshot(),
            None => Err(Check::RequestMissing.errno()),
        }
    }

    /// The value of each control that the frame of a request had, as `snapshot_values` answers them (Linux userspace API, "Request API"). It takes no
    /// memory.
    ///
    /// - `id`: a request; the caller owes that it is there and complete.
    pub fn snapshot_of(&self, id: RequestId) -> &[CtrlValue]
        requires { IsOk (snapshot_answer (find self.now.all id.0)) }
        ensures { snapshot_answer (find self.now.all id.0) ≡ Ok result.now }
    {
        self.snapshot_values(id).unwrap()
    }

    /// Why no further request is made: check 18 (ENOSPC, 28), the limit of 64 (of this project); none where nothing but want of memory refuses it. It
    /// takes no memory.
    pub fn alloc_refusal(&self) -> Option<Check>
        ensures { result ≡ alloc_check self.now.all }
    {
        if self.objects.count() >= MAX_REQUESTS {
            Some(Check::TooManyRequests)
        } else {
            None
        }
    }

    /// Why a request takes no settings (Linux userspace API, "Request API": a queued one can't be changed): check 19 (EINVAL, 22) or 20 (EBUSY, 16);
    /// none where nothing but want of memory refuses them. It takes no memory.
    ///
    /// - `id`: any request, there or not.
    pub fn store_refusal(&self, id: RequestId) -> Option<Check>
        ensures { result ≡ store_check (find self.now.all id.0) }
    {
        match self.objects.get(id.0) {
            Some(object) => object.store_refusal(),
            None => Some(Check::RequestMissing),
        }
    }

    /// Why a request takes no buffer (Linux userspace API, "Request API"; that it has one, that no two hold a number, and the order are of this
    /// project): check 19 (EINVAL, 22), or one of 20 to 22 (EBUSY, 16); none where it takes it. It takes no memory.
    ///
    /// - `id`: any request, there or not.
    /// - `number`: any number.
    pub fn buffer_refusal(&self, id: RequestId, number: u32) -> Option<Check>
        ensures { result ≡ buffer_check self.now.all number (find self.now.all id.0) }
    {
        match self.objects.get(id.0) {
            Some(object) => object.buffer_refusal(self.objects.is_number_held(number)),
            None => Some(Check::RequestMissing),
        }
    }

    /// Why a request isn't queued (Linux userspace API, "ioctl MEDIA_REQUEST_IOC_QUEUE"; the order is of this project): check 19 (EINVAL, 22), 20
    /// (EBUSY, 16) or 23 (ENOENT, 2); none where nothing but want of memory refuses it. It takes no memory.
    ///
    /// - `id`: any request, there or not.
    pub fn queue_refusal(&self, id: RequestId) -> Option<Check>
        ensures { result ≡ queue_check (find self.now.all id.0) }
    {
        match self.objects.get(id.0) {
            Some(object) => object.queue_refusal(),
            None => Some(Check::RequestMissing),
        }
    }

    /// Why a request is neither made as new nor let go (Linux userspace API, "ioctl MEDIA_REQUEST_IOC_REINIT"; that a queued or running one isn't let go is of
    /// this project): check 19 (EINVAL, 22) or 29 (EBUSY, 16); none where nothing refuses it. It takes no memory.
    ///
    /// - `id`: any request, there or not.
    pub fn clear_refusal(&self, id: RequestId) -> Option<Check>
        ensures { result ≡ clear_check (find self.now.all id.0) }
    {
        match self.objects.get(id.0) {
            Some(object) => object.clear_refusal(),
            None => Some(Check::RequestMissing),
        }
    }

    /// The value of a control that the frame of a complete request had (Linux userspace API, "Request API": its controls are read once it is complete):
    /// of one that its begin applied that value, of any other the value in force at the completion.
    ///
    /// - `id`: any request, there or not.
    /// - `control`: any number, of a control or not.
    ///
    /// Refused by check 19 or 13 (EINVAL, 22), or 30 (EACCES, 13). It takes no memory.
    pub fn snapshot(&self, id: RequestId, control: u32) -> Result<CtrlValue, Errno>
        ensures { result ≡ value_answer self.now.controls control (find self.now.all id.0) }
    {
        match self.objects.get(id.0) {
            None => Err(Check::RequestMissing.errno()),
            Some(_) if control >= self.objects.controls() => Err(Check::ControlMissing.errno()),
            Some(object) => object.value_of(control),
        }
    }

    /// Makes a request, the last: idle, without a buffer, and with nothing asked (Linux userspace API, "ioctl MEDIA_IOC_REQUEST_ALLOC").
    ///
    /// - `id`: its number; the caller owes one that no request has, and that `alloc_refusal` doesn't refuse it.
    ///
    /// The error is that a growth was refused; nothing is changed then.
    pub fn alloc(&mut self, id: RequestId) -> Result<(), AllocError>
        requires unused { find self.old.all id.0 ≡ None }
        requires passes { alloc_check self.old.all ≡ None }
        ensures ok { OnOk result (self.new ≡ record self.old { all = self.old.all ++ new_request id.0 ∷ [] }) }
        ensures err { OnErr result (self.new ≡ self.old) }
    {
        self.objects.add(self.alloc, id.0)
    }

    /// Stores values that a request asks for (Linux userspace API, "Request API"; `VIDIOC_S_EXT_CTRLS` with `V4L2_CTRL_WHICH_REQUEST_VAL`): of each
    /// control the last stored pair counts.
    ///
    /// - `id`: a request; the caller owes that `store_refusal` doesn't refuse it.
    /// - `pairs`: any number, a control any number of times; the caller owes numbers of controls.
    ///
    /// The error is that a growth was refused; nothing is changed then.
    pub fn store(&mut self, id: RequestId, pairs: &[Pair]) -> Result<(), AllocError>
        requires known { All (λ p. p.control < self.old.controls) pairs.now }
        requires passes { store_check (find self.old.all id.0) ≡ None }
        ensures ok { OnOk result (self.new ≡ with_changed self.old id.0 (with_pairs self.old.controls pairs.now)) }
        ensures err { OnErr result (self.new ≡ self.old) }
    {
        self.objects.store(self.alloc, id.0, pairs)
    }

    /// Gives a request the buffer with a number (Linux userspace API, "Request API"; `VIDIOC_QBUF` with `request_fd`; that it has one, and that no two
    /// hold a number, is of this project).
    ///
    /// - `id`, `number`: a request and a number; the caller owes that `buffer_refusal` doesn't refuse them.
    ///
    /// It takes no memory.
    pub fn add_buffer(&mut self, id: RequestId, number: u32)
        requires { buffer_check self.old.all number (find self.old.all id.0) ≡ None }
        ensures { self.new ≡ with_changed self.old id.0 (with_buffer number) }
    {
        self.objects.set_buffer(id.0, number);
    }

    /// Makes a request as new (Linux userspace API, "ioctl MEDIA_REQUEST_IOC_REINIT"): idle, without a buffer, and with nothing asked; it keeps its place
    /// among the others.
    ///
    /// - `id`: a request; the caller owes that `clear_refusal` doesn't refuse it.
    ///
    /// It takes no memory.
    pub fn reinit(&mut self, id: RequestId)
        requires { clear_check (find self.old.all id.0) ≡ None }
        ensures { self.new ≡ with_changed self.old id.0 cleared }
    {
        self.objects.clear(id.0);
    }

    /// Lets a request go: its id names nothing then (Linux userspace API, "request close()"; that a queued or running one is refused is of this project).
    ///
    /// - `id`: a request; the caller owes that `clear_refusal` doesn't refuse it.
    ///
    /// It takes no memory.
    pub fn free(&mut self, id: RequestId)
        requires { clear_check (find self.old.all id.0) ≡ None }
        ensures { self.new ≡ record self.old { all = without id.0 self.old.all } }
    {
        self.objects.remove(id.0);
    }

    /// Room for what the frame of a request will have, which `mark_queued` takes (of this project). It changes nothing. The error is that a growth was
    /// refused.
    pub fn reserve(&self) -> Result<FrameRoom, AllocError>
        ensures { IfOk result (λ room. room ≡ self.now.controls) }
    {
        FrameRoom::new(self.alloc, self.objects.controls())
    }

    /// Marks a request as one that waits for its frame (Linux userspace API, "ioctl MEDIA_REQUEST_IOC_QUEUE"). For the queue of frames alone.
    ///
    /// - `id`: a request; the caller owes that `queue_refusal` doesn't refuse it.
    /// - `room`: room for what its frame will have; the caller owes one for as many controls as there are, as `reserve` makes it.
    ///
    /// It takes no memory.
    pub fn mark_queued(&mut self, id: RequestId, room: FrameRoom)
        requires passes { queue_check (find self.old.all id.0) ≡ None }
        requires room { room ≡ self.old.controls }
        ensures { self.new ≡ with_changed self.old id.0 (queued self.old.controls) }
    {
        let (applied, values) = room.into_rows();
        self.objects.enqueue(id.0, applied, values);
    }

    /// Marks a request as the one whose frame is being made, in which controls got values (of this project). For the queue of frames alone.
    ///
    /// - `id`: the request; the caller owes a queued one, or one that isn't there, of which nothing is changed.
    /// - `applied`: the values that controls got; the last pair of a control counts.
    ///
    /// It takes no memory and refuses nothing.
    pub fn mark_running(&mut self, id: RequestId, applied: &[Pair])
        requires { IfSome (find self.old.all id.0) (λ r. r.state ≡ states.Queued) }
        ensures { self.new ≡ with_changed self.old id.0 (begun self.old.controls applied.now) }
    {
        self.objects.begin(id.0, applied);
    }

    /// Marks a request as complete, whose frame has the values that it got at its begin, and else those that are handed in (Linux userspace API,
    /// "Request API": it is complete once its frame is done). For the queue of frames alone.
    ///
    /// - `id`: the request; the caller owes a queued or a running one, or one that isn't there, of which nothing is changed.
    /// - `values`: the present values; the caller owes one for each control, in the order of their numbers.
    ///
    /// It takes no memory and refuses nothing.
    pub fn mark_complete(&mut self, id: RequestId, values: &[CtrlValue])
        requires state { IfSome (find self.old.all id.0) (λ r. is_pending r.state ≡ true) }
        requires values { length values.now ≡ self.old.controls }
        ensures { self.new ≡ with_changed self.old id.0 (completed values.now) }
    {
        self.objects.complete(id.0, values);
    }
}
