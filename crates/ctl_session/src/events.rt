ghost use Rattle.std.specs.Prelude.{◌≡◌, ◌≤◌, length, take};
ghost use Rattle.ioctl_bytes.specs.declared.layout.v4l2_event.TheConstants as event_struct;
ghost use Rattle.ioctl_bytes.specs.declared.layout.v4l2_event_subscription.TheConstants as subscription;
ghost use Rattle.ctl_session.specs.Calls.{Calls, EndedInTurn, flags_for as flags_meant, plan_in, sized, subscribe_ask as ask_to_subscribe, subscribe_call, subscribed_controls as subscribed_to, take_call, taken_told, unsubscribe_call};

use crate::calls::{CUT, NO_CALL};
use crate::ids::{id_at, shown};
use crate::session::{Session, errno_of};
use bitflags::Flags as FlagSet;
use call_structs::{is_heading, put_event};
use ctrl_calls::Driver;
use ctrl_handlers::{MAX_CONTROLS, Plan};
use ctrl_settle::Ctrl;
use ctrl_types::{CtrlId, Errno, Fault, FhId, SubFlags};
use device_state::{Ask, Device, Reply};
use ioctl_bytes::calls::{V4L2_EVENT_ALL, V4L2_EVENT_CTRL};
use ioctl_bytes::layout::{v4l2_event, v4l2_event_subscription};
use ioctl_bytes::u32_at;

impl<D: Driver> Session<D> {
    // VIDIOC_SUBSCRIBE_EVENT.
    pub(crate) fn subscribe(&mut self, handler: u32, fh: FhId, arg: &mut [u8]) -> u32
        ensures { Calls D.verdict self.old (sized subscription.SIZE arg.old (subscribe_call (plan_in self.old) handler fh arg.old)) self.new (result, arg.new) }
    {
        if arg.len() != v4l2_event_subscription::SIZE {
            return CUT;
        }
        if u32_at(arg, v4l2_event_subscription::TYPE) != V4L2_EVENT_CTRL {
            return Errno::EINVAL.number();
        }
        let ask = subscribe_ask(self.plan(), handler, fh, arg);
        let answer = self.ask(&ask);
        errno_of(&answer)
    }

    // VIDIOC_UNSUBSCRIBE_EVENT. Nobody is subscribed to events of other types, so that there is nothing to end.
    pub(crate) fn unsubscribe(&mut self, fh: FhId, arg: &mut [u8]) -> u32
        ensures { Calls D.verdict self.old (sized subscription.SIZE arg.old (unsubscribe_call self.old fh arg.old)) self.new (result, arg.new) }
    {
        if arg.len() != v4l2_event_subscription::SIZE {
            return CUT;
        }
        match u32_at(arg, v4l2_event_subscription::TYPE) {
            V4L2_EVENT_CTRL => {
                let id = CtrlId(u32_at(arg, v4l2_event_subscription::ID));
                let answer = self.ask(&Ask::Unsubscribe { fh, id });
                errno_of(&answer)
            }
            V4L2_EVENT_ALL => self.unsubscribe_all(fh),
            _ => 0,
        }
    }

    // Ends each subscription, in the order of controls; the errno of the first that isn't ended.
    fn unsubscribe_all(&mut self, fh: FhId) -> u32
        ensures { EndedInTurn D.verdict self.old fh (subscribed_to self.old.device fh) self.new result }
    {
        let (controls, count) = subscriptions(self.device(), fh);
        self.end_each(fh, &controls[..count])
    }

    // Ends the subscriptions to controls, one after another.
    fn end_each(&mut self, fh: FhId, controls: &[u32]) -> u32
        ensures { EndedInTurn D.verdict self.old fh controls.now self.new result }
    {
        let [control, rest @ ..] = controls else {
            return 0;
        };
        let id = CtrlId(id_at(self.plan().controls(), *control));
        match self.ask(&Ask::Unsubscribe { fh, id }) {
            Ok(_) => self.end_each(fh, rest),
            Err(fault) => fault.errno.number(),
        }
    }

    /// How many controls a file handle is subscribed to; none where it isn't open.
    ///
    /// - `fh`: any file handle, open or not.
    pub fn subscription_count(&self, fh: FhId) -> usize
        ensures { result ≡ length (subscribed_to self.now.device fh) }
    {
        let (_, count) = subscriptions(self.device(), fh);
        count
    }

    // VIDIOC_DQEVENT.
    pub(crate) fn take(&mut self, fh: FhId, arg: &mut [u8]) -> u32
        ensures { Calls D.verdict self.old (sized event_struct.SIZE arg.old (take_call fh arg.old)) self.new (result, arg.new) }
    {
        if arg.len() != v4l2_event::SIZE {
            return CUT;
        }
        let answer = self.ask(&Ask::Take { fh });
        tell_event(&answer, arg)
    }
}

fn subscribe_ask<D: Driver>(plan: &Plan<D>, handler: u32, fh: FhId, arg: &[u8]) -> Ask
    requires { length arg.now ≡ subscription.SIZE }
    ensures { result ≡ ask_to_subscribe plan.now handler fh arg.now }
{
    let id = CtrlId(u32_at(arg, v4l2_event_subscription::ID));
    let asked = u32_at(arg, v4l2_event_subscription::FLAGS);
    let flags = flags_for(id, shown(plan, handler, id), asked);
    Ask::Subscribe {
        fh,
        id,
        flags: SubFlags::from_bits_retain(flags),
    }
}

// The flags of a subscription: a heading has nothing to tell at once.
fn flags_for(id: CtrlId, ctrl: Option<Ctrl>, flags: u32) -> u32
    ensures { result ≡ flags_meant id ctrl flags }
{
    match ctrl {
        Some(ctrl) if is_heading(id, ctrl.flags()) => flags & SubFlags::ALLOW_FEEDBACK.bits(),
        _ => flags,
    }
}

// The controls that a file handle is subscribed to, in the order of their numbers, and how many they are; what stands behind these is nothing.
fn subscriptions<D: Driver>(device: &Device<D>, fh: FhId) -> ([u32; MAX_CONTROLS as usize], usize)
    ensures found { take result.1 result.0 ≡ subscribed_to device.now fh }
    ensures few { result.1 ≤ length result.0 }
{
    let mut controls = [0; MAX_CONTROLS as usize];
    let mut count = 0;
    for control in 0..device.plan().control_count() {
        if device.subscribed(fh, control).is_some() {
            controls[count] = control;
            count += 1;
        }
    }
    (controls, count)
}

fn tell_event(answer: &Result<Reply, Fault>, arg: &mut [u8]) -> u32
    requires { length arg.old ≡ event_struct.SIZE }
    ensures { (result, arg.new) ≡ taken_told arg.old answer.now }
{
    match answer {
        Ok(Reply::Event(event)) => {
            put_event(arg, event);
            0
        }
        Ok(_) => NO_CALL,
        Err(fault) => fault.errno.number(),
    }
}
