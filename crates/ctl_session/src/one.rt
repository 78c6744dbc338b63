ghost use Rattle.std.specs.Prelude.{◌≡◌, IfOk, length};
ghost use Rattle.ioctl_bytes.specs.declared.layout.v4l2_control.TheConstants as control_struct;
ghost use Rattle.ctl_session.specs.Calls.{Calls, one_ask as ask_for_one, one_by as one_for, one_call, one_entry as entry_for, one_id as id_for, one_told, plan_in, sized};

use crate::calls::{CUT, NO_CALL};
use crate::ids::{form_of, is_narrow, real_id};
use crate::lists::list_of;
use crate::session::{Session, no_memory};
use ctrl_calls::Driver;
use ctrl_handlers::Plan;
use ctrl_types::{CtrlId, CtrlValue, Errno, ExtControl, Fault, FhId};
use device_state::{Ask, ControlList, Reply};
use ioctl_bytes::layout::v4l2_control;
use ioctl_bytes::{i32_at, put_low, u32_at};
use std::alloc::{AllocError, Global};

impl<D: Driver> Session<D> {
    // VIDIOC_G_CTRL and VIDIOC_S_CTRL: a list of one entry about the present values. A value of 64 bits and an array have no place in the struct.
    pub(crate) fn one(&mut self, handler: u32, fh: FhId, sets: bool, arg: &mut [u8]) -> u32
        ensures { Calls D.verdict self.old (sized control_struct.SIZE arg.old (one_call sets (plan_in self.old) handler fh arg.old)) self.new (result, arg.new) }
    {
        if arg.len() != v4l2_control::SIZE {
            return CUT;
        }
        let id = one_id(self.plan(), handler, arg);
        let narrow = is_narrow(form_of(self.plan(), handler, id));
        self.one_by(fh, sets, id, narrow, arg)
    }

    // Makes it on that control.
    fn one_by(&mut self, fh: FhId, sets: bool, id: CtrlId, narrow: bool, arg: &mut [u8]) -> u32
        requires { length arg.old ≡ control_struct.SIZE }
        ensures { Calls D.verdict self.old (one_for sets fh arg.old id narrow) self.new (result, arg.new) }
    {
        if !narrow {
            return Errno::EINVAL.number();
        }
        match one_entry(self.alloc(), id, arg) {
            Ok(list) => {
                let ask = one_ask(fh, sets, list);
                let answer = self.ask(&ask);
                tell_one(&answer, arg)
            }
            Err(_) => tell_one(&Err(no_memory()), arg),
        }
    }
}

fn one_id<D: Driver>(plan: &Plan<D>, handler: u32, arg: &[u8]) -> CtrlId
    requires { length arg.now ≡ control_struct.SIZE }
    ensures { result ≡ id_for plan.now handler arg.now }
{
    real_id(plan, handler, CtrlId(u32_at(arg, v4l2_control::ID)))
}

// The list of one entry. The error is that a growth was refused.
fn one_entry(alloc: Global, id: CtrlId, arg: &[u8]) -> Result<ControlList, AllocError>
    requires { length arg.now ≡ control_struct.SIZE }
    ensures { IfOk result (λ list. list ≡ entry_for id arg.now) }
{
    let value = CtrlValue::Number(i64::from(i32_at(arg, v4l2_control::VALUE)));
    list_of(alloc, &[ExtControl { id, value }])
}

fn one_ask(fh: FhId, sets: bool, list: ControlList) -> Ask
    ensures { result ≡ ask_for_one sets fh list }
{
    if sets {
        return Ask::SetCtrls {
            fh,
            which: 0,
            request: None,
            list,
        };
    }
    Ask::GetCtrls {
        fh,
        which: 0,
        request: None,
        list,
    }
}

// Writes the number that an answer has first.
fn tell_one(answer: &Result<Reply, Fault>, arg: &mut [u8]) -> u32
    requires { length arg.old ≡ control_struct.SIZE }
    ensures { (result, arg.new) ≡ one_told arg.old answer.now }
{
    match answer {
        Ok(Reply::Controls(list)) => match list.as_slice().first() {
            Some(control) => {
                put_low(arg, v4l2_control::VALUE, control.value.number());
                0
            }
            None => NO_CALL,
        },
        Ok(_) => NO_CALL,
        Err(fault) => fault.errno.number(),
    }
}
