//! Asks that a device answers by adding a step which leaves file handles, grabs, ranges and values. Each stands in a function of its own, so that no other ask
//! takes the room on the stack that it takes.

ghost use Rattle.std.specs.Prelude.{◌≡◌, IfErr};
ghost use Rattle.device_history.specs.declared.ask.Ask.TheVariants as asks;
ghost use Rattle.device_history.specs.AskChecks.{published};
ghost use Rattle.device_state.specs.Device.{Handles, MayRefuse};

use super::Device;
use ctrl_calls::Driver;
use ctrl_types::{CtrlId, FhId, Refusal, RequestId};
use device_history::{Ask, Reply, Step};

impl<D: Driver> Device<D> {
    // Answers an ask for a request.
    #[inline(never)]
    pub(super) fn enter_alloc(&mut self, seat: u32, ask: &Ask) -> Result<Reply, Refusal>
        requires { ask.now ≡ asks.Alloc }
        ensures handles { Handles D.verdict self.old self.new seat ask.now (published ask.now result) }
        ensures why { IfErr result (MayRefuse D.verdict self.old ask.now) }
    {
        let check = self.alloc_refusal();
        let request = RequestId(self.steps.len() as u32);
        self.enter(seat, ask, check, Step::Alloc, Reply::Request(request))
    }

    // Answers an ask that gives a request the number of a buffer.
    #[inline(never)]
    pub(super) fn enter_buffer(
        &mut self,
        seat: u32,
        ask: &Ask,
        request: RequestId,
        buffer: u32,
    ) -> Result<Reply, Refusal>
        requires { ask.now ≡ asks.AddBuffer request buffer }
        ensures handles { Handles D.verdict self.old self.new seat ask.now (published ask.now result) }
        ensures why { IfErr result (MayRefuse D.verdict self.old ask.now) }
    {
        let check = self.buffer_refusal(request, buffer);
        let step = Step::Buffer { request, buffer };
        self.enter(seat, ask, check, step, Reply::Done)
    }

    // Answers an ask that has a request wait for its frame.
    #[inline(never)]
    pub(super) fn enter_queue(
        &mut self,
        seat: u32,
        ask: &Ask,
        request: RequestId,
    ) -> Result<Reply, Refusal>
        requires { ask.now ≡ asks.Queue request }
        ensures handles { Handles D.verdict self.old self.new seat ask.now (published ask.now result) }
        ensures why { IfErr result (MayRefuse D.verdict self.old ask.now) }
    {
        let check = self.queue_refusal(request);
        self.enter(seat, ask, check, Step::Queue { request }, Reply::Done)
    }

    // Answers an ask that takes a request from the queue.
    #[inline(never)]
    pub(super) fn enter_cancel(
        &mut self,
        seat: u32,
        ask: &Ask,
        request: RequestId,
    ) -> Result<Reply, Refusal>
        requires { ask.now ≡ asks.Cancel request }
        ensures handles { Handles D.verdict self.old self.new seat ask.now (published ask.now result) }
        ensures why { IfErr result (MayRefuse D.verdict self.old ask.now) }
    {
        let check = self.cancel_refusal(request);
        self.enter(seat, ask, check, Step::Cancel { request }, Reply::Done)
    }

    // Answers an ask that completes the running frame's request and all that wait.
    #[inline(never)]
    pub(super) fn enter_stream_off(&mut self, seat: u32, ask: &Ask) -> Result<Reply, Refusal>
        requires { ask.now ≡ asks.StreamOff }
        ensures handles { Handles D.verdict self.old self.new seat ask.now (published ask.now result) }
        ensures why { IfErr result (MayRefuse D.verdict self.old ask.now) }
    {
        self.enter(seat, ask, None, Step::StreamOff, Reply::Done)
    }

    // Answers an ask that makes a request as new.
    #[inline(never)]
    pub(super) fn enter_reinit(
        &mut self,
        seat: u32,
        ask: &Ask,
        request: RequestId,
    ) -> Result<Reply, Refusal>
        requires { ask.now ≡ asks.Reinit request }
        ensures handles { Handles D.verdict self.old self.new seat ask.now (published ask.now result) }
        ensures why { IfErr result (MayRefuse D.verdict self.old ask.now) }
    {
        let check = self.clear_refusal(request);
        self.enter(seat, ask, check, Step::Reinit { request }, Reply::Done)
    }

    // Answers an ask that lets a request go.
    #[inline(never)]
    pub(super) fn enter_free(
        &mut self,
        seat: u32,
        ask: &Ask,
        request: RequestId,
    ) -> Result<Reply, Refusal>
        requires { ask.now ≡ asks.Free request }
        ensures handles { Handles D.verdict self.old self.new seat ask.now (published ask.now result) }
        ensures why { IfErr result (MayRefuse D.verdict self.old ask.now) }
    {
        let check = self.clear_refusal(request);
        self.enter(seat, ask, check, Step::Free { request }, Reply::Done)
    }

    // Answers an ask that ends a subscription.
    #[inline(never)]
    pub(super) fn enter_unsubscribe(
        &mut self,
        seat: u32,
        ask: &Ask,
        fh: FhId,
        id: CtrlId,
    ) -> Result<Reply, Refusal>
        requires { ask.now ≡ asks.Unsubscribe fh id }
        ensures handles { Handles D.verdict self.old self.new seat ask.now (published ask.now result) }
        ensures why { IfErr result (MayRefuse D.verdict self.old ask.now) }
    {
        let check = self.through(fh);
        let control = self.shown(fh, id);
        let step = Step::Unsubscribe { fh, control };
        self.enter(seat, ask, check, step, Reply::Done)
    }
}
