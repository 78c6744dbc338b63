ghost use Rattle.std.specs.Prelude.{◌≡◌};
ghost use Rattle.ctl_session.specs.Calls.{plan_in};
ghost use Rattle.camera_messages.specs.Messages.{AnswersMessage, IsAsked, IsAskedOrTold, IsCalled, IsRenewed, IsTold, ask_of, answer_head, head_of_reply, last_handler, answer_payload, state_number};
ghost use Rattle.camera_messages.specs.Replies.{Says, bare};

use crate::camera::Camera;
use crate::message::Message;
use crate::reply_buffer::{Head, ReplyBuffer, count};
use crate::told_controls::{put_controls, put_values};
use ctrl_types::{Fault, FhId, Refusal, RequestId};
use device_state::{Ask, Reply, RequestState};
use std::alloc::Global;
use std::io::Write;
use view_layout::Page;

impl Camera {
    /// Answers a message.
    ///
    /// - `reply`: becomes the reply, whatever it was.
    pub fn answer(&mut self, message: &Message<'_>, reply: &mut ReplyBuffer)
        ensures { AnswersMessage self.old.session message.now self.new.session reply.new }
    {
        reply.begin();
        match message {
            Message::Call {
                fh,
                request,
                number,
                arg,
            } => self.answer_call(*fh, *request, *number, arg, reply),
            Message::Line { line } => {
                let is_accepted = self.lines.answer(self.alloc, &mut self.session, line);
                reply.put_numbers(u32::from(is_accepted), 0, 0);
                reply.put(self.lines.said());
            }
            Message::Renew => self.answer_renewal(reply),
            _ => self.answer_other(message, reply),
        }
    }

    // Answers a control call, whose struct this is.
    fn answer_call(
        &mut self,
        fh: FhId,
        request: Option<RequestId>,
        number: u32,
        arg: &[u8],
        reply: &mut ReplyBuffer,
    )
        requires { reply.old ≡ bare 0 }
        ensures { IsCalled self.old.session fh request number arg.now self.new.session reply.new }
    {
        reply.put(arg);
        if reply.is_whole() {
            reply.call(&mut self.session, fh, request, number);
        }
    }

    // Begins the history anew.
    fn answer_renewal(&mut self, reply: &mut ReplyBuffer)
        ensures { IsRenewed self.old.session self.new.session reply.new }
    {
        match self.renew() {
            Ok((before, after)) => reply.put_numbers(before, after, 0),
            Err(errno) => reply.refuse(errno),
        }
    }

    // Answers a message that is an ask, or that only reads.
    fn answer_other(&mut self, message: &Message<'_>, reply: &mut ReplyBuffer)
        requires { reply.old ≡ bare 0 }
        ensures { IsAskedOrTold self.old.session message.now (ask_of (last_handler (plan_in self.old.session)) message.now) self.new.session reply.new }
    {
        match self.ask_of(message) {
            Some(ask) => self.answer_ask(&ask, reply),
            None => self.tell(message, reply),
        }
    }

    // The ask that a message is, where it is one.
    fn ask_of(&self, message: &Message<'_>) -> Option<Ask>
        ensures { result ≡ ask_of (last_handler (plan_in self.now.session)) message.now }
    {
        let ask = match *message {
            Message::Open { handler } => Ask::OpenFh {
                handler: handler.unwrap_or(self.last_handler()),
            },
            Message::Close { fh } => Ask::CloseFh { fh },
            Message::Alloc => Ask::Alloc,
            Message::Free { request } => Ask::Free { request },
            Message::AddBuffer { request, buffer } => Ask::AddBuffer { request, buffer },
            Message::Queue { request } => Ask::Queue { request },
            Message::Reinit { request } => Ask::Reinit { request },
            Message::Begin => Ask::Begin,
            Message::Complete => Ask::Complete,
            Message::StreamOff => Ask::StreamOff,
            Message::State { request } => Ask::StateOf { request },
            Message::Forecast { place } => Ask::Forecast { place },
            _ => return None,
        };
        Some(ask)
    }

    // Answers a message that is an ask.
    fn answer_ask(&mut self, ask: &Ask, reply: &mut ReplyBuffer)
        requires { reply.old ≡ bare 0 }
        ensures { IsAsked self.old.session ask.now self.new.session reply.new }
    {
        let answer = self.session.ask(ask);
        self.count_requests(ask, answer.is_ok());
        put_answer(&answer, reply);
    }

    // Counts the requests that are there.
    fn count_requests(&mut self, ask: &Ask, is_accepted: bool)
        ensures { self.new.session ≡ self.old.session }
    {
        match ask {
            Ask::Alloc if is_accepted => self.requests = self.requests.saturating_add(1),
            Ask::Free { .. } if is_accepted => self.requests = self.requests.saturating_sub(1),
            _ => {}
        }
    }

    // Answers a message that only reads, and is no ask.
    #[tactic(auto, using(crate::proofs::ReplyLemmas::says))]
    fn tell(&self, message: &Message<'_>, reply: &mut ReplyBuffer)
        requires { reply.old ≡ bare 0 }
        ensures { IsTold self.now.session message.now reply.new }
    {
        let device = self.session.device();
        match message {
            Message::Controls => {
                reply.put_numbers(device.plan().control_count(), 0, 0);
                put_controls(reply, &self.session);
            }
            Message::Values => put_values(reply, device.values()),
            Message::Waits { fh } => {
                let waits = device.waiting(*fh, 0).is_some();
                reply.put_numbers(u32::from(waits), 0, 0);
            }
            Message::Why => {
                if let Some(refusal) = self.session.refusal() {
                    put_refusal(self.alloc, reply, refusal);
                }
            }
            Message::Counts => {
                let steps = count(device.steps().len());
                let handles = count(device.open_count());
                reply.put_numbers(steps, handles, self.requests);
            }
            Message::Events { fh } => {
                let subscriptions = count(self.session.subscription_count(*fh));
                reply.put_numbers(device.next_sequence(*fh), subscriptions, 0);
            }
            _ => {}
        }
    }
}

// Says what an ask was answered.
#[tactic(auto, using(crate::proofs::ReplyLemmas::puts_none, crate::proofs::ReplyLemmas::says))]
fn put_answer(answer: &Result<Reply, Fault>, reply: &mut ReplyBuffer)
    requires { reply.old ≡ bare 0 }
    ensures { Says reply.new (answer_head answer.now) (answer_payload answer.now) }
{
    reply.put_head(head_of(answer));
    match answer {
        Ok(Reply::Forecast(frame)) => put_values(reply, frame.values.as_slice()),
        _ => {}
    }
}

// What the reply to an ask says in front of its payload.
fn head_of(answer: &Result<Reply, Fault>) -> Head
    ensures { result ≡ answer_head answer.now }
{
    match answer {
        Ok(reply) => head_of_reply(reply),
        Err(fault) => Head::of_errno(fault.errno.number()),
    }
}

// The head of the answer to an ask that was accepted.
fn head_of_reply(reply: &Reply) -> Head
    ensures { result ≡ head_of_reply reply.now }
{
    match reply {
        Reply::Fh(fh) => Head::accepted(fh.0, 0, 0),
        Reply::Request(request) => Head::accepted(request.0, 0, 0),
        Reply::State(state) => Head::accepted(state_number(*state), 0, 0),
        Reply::Frame {
            request,
            buffer,
            refused,
        } => Head::accepted(request.0, *buffer, count(refused.as_slice().len())),
        Reply::Forecast(frame) => {
            let refused = count(frame.refused.as_slice().len());
            Head::accepted(frame.request.0, frame.buffer, refused)
        }
        _ => Head::accepted(0, 0, 0),
    }
}

// The number of a request's state.
fn state_number(state: RequestState) -> u32
    ensures { result ≡ state_number state }
{
    match state {
        RequestState::Idle => 0,
        RequestState::Queued => 1,
        RequestState::Running => 2,
        RequestState::Complete => 3,
    }
}

// Puts why a call was refused behind a payload: the check, what didn't hold, and the entry of a list that it is about.
fn put_refusal(alloc: Global, reply: &mut ReplyBuffer, refusal: Refusal) {
    let mut page = Page::new(alloc);
    let (number, text) = (refusal.check.number(), refusal.check.text());
    let _ = write!(page, "check {number}, {text}");
    if let Some(entry) = refusal.entry {
        let _ = write!(page, ", at entry {entry}");
    }
    if page.is_whole() {
        reply.put(page.text());
    }
}
