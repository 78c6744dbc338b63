ghost use Rattle.std.specs.Prelude.{ℕ, List};
ghost use Rattle.device_history.specs.declared.info.CtrlInfo.{CtrlInfo};
ghost use Rattle.ctl_session.specs.Calls.{Calls, call_of, call_on as meant_on};

use crate::list_calls::Access;
use crate::session::Session;
use ctrl_calls::Driver;
use ctrl_types::{Errno, FhId, RequestId};
use ioctl_bytes::calls::{
    VIDIOC_DQEVENT, VIDIOC_G_CTRL, VIDIOC_G_EXT_CTRLS, VIDIOC_QUERY_EXT_CTRL, VIDIOC_QUERYCTRL,
    VIDIOC_QUERYMENU, VIDIOC_S_CTRL, VIDIOC_S_EXT_CTRLS, VIDIOC_SUBSCRIBE_EVENT,
    VIDIOC_TRY_EXT_CTRLS, VIDIOC_UNSUBSCRIBE_EVENT,
};

/// No such call, ENOTTY.
pub const NO_CALL: u32 = 25;
/// The struct of the call, or a payload, isn't whole, EFAULT.
pub const CUT: u32 = 14;

impl<D: Driver> Session<D> {
    /// Makes a control call on a file handle: reads what the program handed in, asks the device, and writes what is told in its place.
    ///
    /// - `fh`: the file handle, open or not.
    /// - `request`: the request that the call's `request_fd` names, where it names one; only a list whose `which` speaks of a request looks at it.
    /// - `number`: the number of the call.
    /// - `arg`: the struct of the call; of a list its head, and behind it as many entries as its `count` says, but 65 at most, and behind these a slot of 32 bytes for the
    ///   payload of each; where `count` is above 1,024 (`V4L2_CID_MAX_CTRLS`) the head alone will do. `reserved2` of an entry says, on the way in, whether its payload was read into its
    ///   slot, and on the way back whether the slot is to be copied to it, where the call was accepted.
    ///
    /// Answered is the errno, 0 for none: EBADF (9) where the file handle isn't open, ENOTTY (25) where it is no control call, EFAULT (14) where the struct is shorter or longer than that
    /// of the call, EINVAL (22) where a list has a `count` above 1,024, of which nothing else is looked at, and else that of the call. ENOMEM (12) stands before what else may refuse a list,
    /// where there was no room for it in the session; then nothing was asked.
    pub fn call(&mut self, fh: FhId, request: Option<RequestId>, number: u32, arg: &mut [u8]) -> u32
        ensures { (name : CtrlInfo → List ℕ) × Calls D.verdict self.old (call_of D.verdict self.old name fh request number arg.old) self.new (result, arg.new) }
    {
        self.begin_call();
        match self.device().handler_of(fh) {
            Some(handler) => self.call_on(handler, fh, request, number, arg),
            None => Errno::EBADF.number(),
        }
    }

    // Makes it on an open file handle, whose handler this is.
    fn call_on(
        &mut self,
        handler: u32,
        fh: FhId,
        request: Option<RequestId>,
        number: u32,
        arg: &mut [u8],
    ) -> u32
        ensures { (name : CtrlInfo → List ℕ) × Calls D.verdict self.old (meant_on D.verdict self.old name handler fh request number arg.old) self.new (result, arg.new) }
    {
        match number {
            VIDIOC_QUERYCTRL => self.query(handler, fh, arg),
            VIDIOC_QUERY_EXT_CTRL => self.query_ext(handler, fh, arg),
            VIDIOC_QUERYMENU => self.query_menu(handler, fh, arg),
            VIDIOC_G_CTRL => self.one(handler, fh, false, arg),
            VIDIOC_S_CTRL => self.one(handler, fh, true, arg),
            VIDIOC_G_EXT_CTRLS => self.list(handler, fh, request, Access::Get, arg),
            VIDIOC_S_EXT_CTRLS => self.list(handler, fh, request, Access::Set, arg),
            VIDIOC_TRY_EXT_CTRLS => self.list(handler, fh, request, Access::Try, arg),
            VIDIOC_SUBSCRIBE_EVENT => self.subscribe(handler, fh, arg),
            VIDIOC_UNSUBSCRIBE_EVENT => self.unsubscribe(fh, arg),
            VIDIOC_DQEVENT => self.take(fh, arg),
            _ => NO_CALL,
        }
    }
}
