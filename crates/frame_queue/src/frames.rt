ghost use Rattle.std.specs.Prelude.{◌≡◌, ◌↔◌, IsTrue, ◌++◌, ◌<◌, ◌∷◌, [], length, None, Some, Ok, Err, true, IfOk, IfSome, OnErr, OnOk, MatchResult, slice_get, is_some, ℕ, remove, filter, not, nat_eq, vec_capacity};
ghost use Rattle.std.specs.Option.{option_map};
ghost use Rattle.std.specs.List.{All};
ghost use Rattle.req_book.specs.Requests.{HaveOwnIds, RequestData, buffer_in, find, with_changed, completed, with_pairs, with_buffer, cleared, without, new_request};
ghost use Rattle.req_book.specs.Refusals.{alloc_check, store_check, buffer_check, queue_check, clear_check};
ghost use Rattle.ctrl_types.specs.declared.check.Check.TheVariants.{MemoryRefused};
ghost use Rattle.ctrl_types.specs.Checks.{errno_of};
ghost use Rattle.frame_queue.specs.Frames.{QueueFitsRequests, is_queued, with_requests, queued_last, next_frame, begin_answer, begin_check, after_begin, buffer_number, first_begun, complete_check, after_complete, cancel_check, cancelled, after_off};
ghost use Rattle.frame_queue.specs.Like.{IsLike};

use ctrl_types::{Check, CtrlValue, Errno, Pair, RequestId};
use req_book::{FrameRoom, MAX_REQUESTS, RequestState, Requests};
use std::alloc::{AllocError, Global};
use std::marker::Model;

/// The media requests of a device, and the queue of its frames. Contracts see the requests, the queue and the request that runs. The checks
/// that refuse a call have their numbers, and their text, in docs/RULES.md.
#[derive(Drop)]
pub struct Frames {
    requests: Requests,
    queue: Vec<u32>,
    running: Option<u32>,
}

impl Model for Frames {
    ghost use Rattle.frame_queue.specs.Frames.{FramesData};
    ghost use Rattle.frame_queue.specs.Places.{HasQueueRoom};
    ghost use Rattle.std.specs.Prelude.{vec_capacity};

    ghost Value = { FramesData };

    ghost view = { λ f. record { requests = f.requests; queue = f.queue.items; running = f.running } };

    ghost invariant = { λ f. HasQueueRoom (record { requests = f.requests; queue = f.queue.items; running = f.running }) (vec_capacity f.queue) };
}

impl Frames {
    /// No request is there, and there is room for 64 in the queue (of this project).
    ///
    /// - `alloc`: where this call, `alloc`, `store` and `reserve` take their memory.
    /// - `controls`: the number of the device's controls, any `u32`; those that are stored have numbers below it.
    ///
    /// Refused by check 34 (ENOMEM, 12).
    pub fn new(alloc: Global, controls: u32) -> Result<Frames, Errno>
        ensures { MatchResult result (λ frames. frames ≡ record { requests = record { controls = controls; all = [] }; queue = []; running = None }) (λ errno. errno ≡ errno_of MemoryRefused) }
    {
        match Vec::with_capacity(alloc, MAX_REQUESTS) {
            Ok(queue) => Ok(Frames {
                requests: Requests::new(alloc, controls),
                queue,
                running: None,
            }),
            Err(_) => Err(Check::MemoryRefused.errno()),
        }
    }

    /// Whether other requests are the same in the same order, with state, buffer, what they ask for and, of complete ones, what their frames had,
    /// for as many controls; whether the same wait in the same order, and the same one runs (of this project). What a begin applied doesn't count. It takes no
    /// memory and refuses nothing.
    ///
    /// - `other`: any requests with their queue.
    pub fn is_like(&self, other: &Frames) -> bool
        ensures { IsTrue result ↔ IsLike self.now other.now }
    {
        if !self.requests.is_like(&other.requests) {
            return false;
        }
        if self.running != other.running {
            return false;
        }
        self.queue.as_slice() == other.queue.as_slice()
    }

    /// The request that waits at a place of the queue, none where fewer wait (of this project). It holds a buffer. It takes no memory.
    ///
    /// - `place`: any place, from 0 in the order of queueing.
    pub fn queued(&self, place: usize) -> Option<RequestId>
        ensures place { option_map (λ id. id.0) result ≡ slice_get self.now.queue place }
        ensures holds { IfSome result (λ id. is_some (buffer_in (find self.now.requests.all id.0)) ≡ true) }
        ensures buffer { (id : ℕ) (r : RequestData) → find self.now.requests.all id ≡ Some r → is_queued r.state ≡ true → is_some r.buffer ≡ true }
    {
        match self.queue.get(place) {
            Some(id) => Some(RequestId(*id)),
            None => None,
        }
    }

    /// How many requests wait, at most 64 (of this project). It takes no memory and refuses nothing.
    pub fn queue_len(&self) -> usize
        ensures { result ≡ length self.now.queue }
    {
        self.queue.len()
    }

    /// The request whose frame is being made, where one is (of this project). It takes no memory.
    pub fn running(&self) -> Option<RequestId>
        ensures { option_map (λ id. id.0) result ≡ self.now.running }
    {
        match self.running {
            Some(id) => Some(RequestId(id)),
            None => None,
        }
    }

    /// Room for what the frame of a request will have, which `queue` takes (of this project). It changes nothing. The error is that a growth was
    /// refused.
    pub fn reserve(&self) -> Result<FrameRoom, AllocError>
        ensures { IfOk result (λ room. room ≡ self.now.requests.controls) }
    {
        self.requests.reserve()
    }

    /// Has a request wait for its frame, the last (Linux userspace API, "ioctl MEDIA_REQUEST_IOC_QUEUE").
    ///
    /// - `id`: a request; the caller owes that `queue_refusal` of `requests` doesn't refuse it.
    /// - `room`: room for what its frame will have; the caller owes one for as many controls as there are, as `reserve` makes it.
    ///
    /// It takes no memory.
    pub fn queue(&mut self, id: RequestId, room: FrameRoom)
        requires passes { queue_check (find self.old.requests.all id.0) ≡ None }
        requires room { room ≡ self.old.requests.controls }
        ensures { self.new ≡ queued_last self.old id.0 }
    {
        self.requests.mark_queued(id, room);
        self.queue.push_reserved(id.0);
    }

    /// The request whose frame is begun next, the first that waits, or why no frame is begun (Linux userspace API, "Request API": requests run in the
    /// order of queueing; begins as calls are of this project): check 24 (EBUSY, 16) or 25 (ENOENT, 2). It takes no memory.
    pub fn next_frame(&self) -> Result<RequestId, Check>
        ensures answer { MatchResult result (λ id. next_frame self.now ≡ Ok (id.0, buffer_number (find self.now.requests.all id.0))) (λ check. next_frame self.now ≡ Err check) }
        ensures free { OnOk result (self.now.running ≡ None) }
        ensures first { IfOk result (λ id. slice_get self.now.queue 0 ≡ Some id.0) }
    {
        if self.running.is_some() {
            return Err(Check::FrameRunning);
        }
        match self.queued(0) {
            Some(id) => Ok(id),
            None => Err(Check::QueueEmpty),
        }
    }

    /// Why no frame is begun (of this project): check 24 (EBUSY, 16) or 25 (ENOENT, 2); none where nothing refuses it. It takes no memory.
    pub fn begin_refusal(&self) -> Option<Check>
        ensures { result ≡ begin_check self.now }
    {
        self.next_frame().err()
    }

    /// Has the frame of the first request that waits be made, in which controls get these values, and answers the request and the number of
    /// its buffer (Linux userspace API, "Request API": requests run in the order of queueing; begins as calls are of this project).
    ///
    /// - `applied`: the values after the begin of the controls that the request asks for and whose cluster isn't refused; the last pair of a control
    ///   counts, and one that names no control doesn't.
    ///
    /// The caller owes that `begin_refusal` doesn't refuse it. It takes no memory.
    pub fn begin(&mut self, applied: &[Pair]) -> (RequestId, u32)
        requires { begin_check self.old ≡ None }
        ensures answer { begin_answer self.old ≡ Ok (result.0.0, result.1) }
        ensures frames { self.new ≡ after_begin self.old applied.now }
    {
        let id = self.first();
        let number = self.number_of(RequestId(id));
        self.begin_first(id, applied);
        (RequestId(id), number)
    }

    // The first request that waits. The caller owes that a frame can begin.
    fn first(&self) -> u32
        requires { begin_check self.now ≡ None }
        ensures idle { self.now.running ≡ None }
        ensures first { slice_get self.now.queue 0 ≡ Some result }
        ensures buffer { is_some (buffer_in (find self.now.requests.all result)) ≡ true }
    {
        self.queue[0]
    }

    // Has the frame of the first request that waits be made.
    fn begin_first(&mut self, id: u32, applied: &[Pair])
        requires idle { self.old.running ≡ None }
        requires first { slice_get self.old.queue 0 ≡ Some id }
        ensures { self.new ≡ first_begun applied.now self.old.requests self.old.queue }
    {
        self.queue.remove(0);
        self.running = Some(id);
        self.requests.mark_running(RequestId(id), applied);
    }

    /// Why no frame is ended (of this project): check 26 (ENOENT, 2); none where nothing refuses it. It takes no memory.
    pub fn complete_refusal(&self) -> Option<Check>
        ensures { result ≡ complete_check self.now }
    {
        match self.running {
            Some(_) => None,
            None => Some(Check::NoFrameRunning),
        }
    }

    /// Ends the frame that is being made (Linux userspace API, "Request API"; ends as calls are of this project): its request is complete, whose snapshot
    /// has the values that it got at its begin, and else these.
    ///
    /// - `values`: the present values; the caller owes one for each control, in the order of their numbers.
    ///
    /// The caller owes that `complete_refusal` doesn't refuse it. It takes no memory.
    pub fn complete(&mut self, values: &[CtrlValue])
        requires values { length values.now ≡ self.old.requests.controls }
        requires runs { complete_check self.old ≡ None }
        ensures { self.new ≡ after_complete self.old values.now }
    {
        let id = self.running.unwrap();
        self.running = None;
        self.requests.mark_complete(RequestId(id), values);
    }

    // Ends the frame that is being made, where one is. What is always so of the queue and of the ids is said here, too.
    fn complete_running(&mut self, values: &[CtrlValue])
        requires { length values.now ≡ self.old.requests.controls }
        ensures frames { self.new ≡ after_complete self.old values.now }
        ensures queue { QueueFitsRequests self.old }
        ensures ids { HaveOwnIds self.old.requests.all }
    {
        if self.running.is_some() {
            self.complete(values);
        }
    }

    /// Why a request isn't taken from the queue (of this project): check 19 (EINVAL, 22), 27 (EBUSY, 16) or 28 (EINVAL, 22); none where nothing refuses
    /// it. It takes no memory.
    ///
    /// - `id`: any request, there or not.
    pub fn cancel_refusal(&self, id: RequestId) -> Option<Check>
        ensures { result ≡ cancel_check (find self.now.requests.all id.0) }
    {
        match self.requests.state(id) {
            None => Some(Check::RequestMissing),
            Some(RequestState::Running) => Some(Check::RequestRunning),
            Some(RequestState::Queued) => None,
            Some(_) => Some(Check::NotQueued),
        }
    }

    /// Takes a request from the queue (of this project; `VIDIOC_STREAMOFF` does it to all): it is complete, without having run, and its
    /// snapshot has these values.
    ///
    /// - `id`: a request; the caller owes that `cancel_refusal` doesn't refuse it.
    /// - `values`: the present values; the caller owes one for each control, in the order of their numbers.
    ///
    /// It takes no memory.
    pub fn cancel(&mut self, id: RequestId, values: &[CtrlValue])
        requires values { length values.now ≡ self.old.requests.controls }
        requires waits { cancel_check (find self.old.requests.all id.0) ≡ None }
        ensures { self.new ≡ cancelled self.old id.0 values.now }
    {
        leave(&mut self.queue, id.0);
        self.requests.mark_complete(id, values);
    }

    /// Stops the stream (Linux userspace API, "ioctl VIDIOC_STREAMON, VIDIOC_STREAMOFF"): the request whose frame is being made and all that
    /// wait are complete; the first has the values that it got at its begin, and else, as the others, these.
    ///
    /// - `values`: the present values; the caller owes one for each control, in the order of their numbers.
    ///
    /// It takes no memory and refuses nothing.
    pub fn stream_off(&mut self, values: &[CtrlValue])
        requires { length values.now ≡ self.old.requests.controls }
        ensures { self.new ≡ after_off self.old values.now }
    {
        self.complete_running(values);
        while let Some(id) = self.next_waiting() {
            self.end_first(id, values);
        }
    }

    // The first request that waits.
    fn next_waiting(&self) -> Option<u32>
        ensures { result ≡ slice_get self.now.queue 0 }
    {
        self.queue.first().copied()
    }

    // Completes the first request that waits.
    fn end_first(&mut self, id: u32, values: &[CtrlValue])
        requires values { length values.now ≡ self.old.requests.controls }
        requires first { slice_get self.old.queue 0 ≡ Some id }
        ensures { self.new ≡ record self.old { requests = with_changed self.old.requests id (completed values.now); queue = remove self.old.queue 0 } }
    {
        self.queue.remove(0);
        self.requests.mark_complete(RequestId(id), values);
    }

    /// The requests, whose states, buffers and values are read there, and why a call about one is refused (Linux userspace API, "Request API"). It takes
    /// no memory and refuses nothing.
    pub fn requests(&self) -> &Requests
        ensures { result.now ≡ self.now.requests }
    {
        &self.requests
    }

    // Beside the one of `requests`, since it tells the number as a begin answers it, too (`buffer_number`).
    /// The number of a request's buffer (Linux userspace API, "Request API"; that it has one is of this project). It takes no memory.
    ///
    /// - `id`: a request; the caller owes that it is there, and was given a buffer.
    pub fn number_of(&self, id: RequestId) -> u32
        requires { is_some (buffer_in (find self.now.requests.all id.0)) ≡ true }
        ensures held { buffer_in (find self.now.requests.all id.0) ≡ Some result }
        ensures number { result ≡ buffer_number (find self.now.requests.all id.0) }
    {
        self.requests.number_of(id)
    }

    /// Makes a request, the last: idle, without a buffer, and with nothing asked (Linux userspace API, "ioctl MEDIA_IOC_REQUEST_ALLOC").
    ///
    /// - `id`: its number; the caller owes one that no request has, and that `alloc_refusal` of `requests` doesn't refuse it.
    ///
    /// The error is that a growth was refused; nothing is changed then.
    pub fn alloc(&mut self, id: RequestId) -> Result<(), AllocError>
        requires unused { find self.old.requests.all id.0 ≡ None }
        requires passes { alloc_check self.old.requests.all ≡ None }
        ensures ok { OnOk result (self.new ≡ with_requests self.old (record self.old.requests { all = self.old.requests.all ++ new_request id.0 ∷ [] })) }
        ensures err { OnErr result (self.new ≡ self.old) }
    {
        self.requests.alloc(id)
    }

    /// Stores values that a request asks for (Linux userspace API, "Request API"; `VIDIOC_S_EXT_CTRLS` with `V4L2_CTRL_WHICH_REQUEST_VAL`): of each
    /// control the last stored pair counts.
    ///
    /// - `id`: a request; the caller owes that `store_refusal` of `requests` doesn't refuse it.
    /// - `pairs`: any number, a control any number of times; the caller owes numbers of controls.
    ///
    /// The error is that a growth was refused; nothing is changed then.
    pub fn store(&mut self, id: RequestId, pairs: &[Pair]) -> Result<(), AllocError>
        requires known { All (λ p. p.control < self.old.requests.controls) pairs.now }
        requires passes { store_check (find self.old.requests.all id.0) ≡ None }
        ensures ok { OnOk result (self.new ≡ with_requests self.old (with_changed self.old.requests id.0 (with_pairs self.old.requests.controls pairs.now))) }
        ensures err { OnErr result (self.new ≡ self.old) }
    {
        self.requests.store(id, pairs)
    }

    /// Gives a request the buffer with a number (Linux userspace API, "Request API"; `VIDIOC_QBUF` with `request_fd`; that it has one, and that no two
    /// hold a number, is of this project).
    ///
    /// - `id`, `number`: a request and a number; the caller owes that `buffer_refusal` of `requests` doesn't refuse them.
    ///
    /// It takes no memory.
    pub fn add_buffer(&mut self, id: RequestId, number: u32)
        requires { buffer_check self.old.requests.all number (find self.old.requests.all id.0) ≡ None }
        ensures { self.new ≡ with_requests self.old (with_changed self.old.requests id.0 (with_buffer number)) }
    {
        self.requests.add_buffer(id, number);
    }

    /// Makes a request as new (Linux userspace API, "ioctl MEDIA_REQUEST_IOC_REINIT"): idle, without a buffer, and with nothing asked; it keeps its place
    /// among the others.
    ///
    /// - `id`: a request; the caller owes that `clear_refusal` of `requests` doesn't refuse it.
    ///
    /// It takes no memory.
    pub fn reinit(&mut self, id: RequestId)
        requires { clear_check (find self.old.requests.all id.0) ≡ None }
        ensures { self.new ≡ with_requests self.old (with_changed self.old.requests id.0 cleared) }
    {
        self.requests.reinit(id);
    }

    /// Lets a request go: its id names nothing then (Linux userspace API, "request close()"; that a queued or running one is refused is of this project).
    ///
    /// - `id`: a request; the caller owes that `clear_refusal` of `requests` doesn't refuse it.
    ///
    /// It takes no memory.
    pub fn free(&mut self, id: RequestId)
        requires { clear_check (find self.old.requests.all id.0) ≡ None }
        ensures { self.new ≡ with_requests self.old (record self.old.requests { all = without id.0 self.old.requests.all }) }
    {
        self.requests.free(id);
    }
}

// Takes a number out.
fn leave(ids: &mut Vec<u32>, id: u32)
    ensures left { ids.new.items ≡ filter (λ j. not (nat_eq id j)) ids.old.items }
    ensures room { vec_capacity ids.new ≡ vec_capacity ids.old }
{
    ids.retain(|other| id != *other);
}
