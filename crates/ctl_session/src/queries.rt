ghost use Rattle.std.specs.Prelude.{◌≡◌, ◌≤◌, ℕ, List, length};
ghost use Rattle.device_history.specs.declared.info.CtrlInfo.{CtrlInfo};
ghost use Rattle.call_structs.specs.Told.{query_ext_ctrl, queryctrl};
ghost use Rattle.ioctl_bytes.specs.declared.layout.v4l2_query_ext_ctrl.TheConstants as ext;
ghost use Rattle.ioctl_bytes.specs.declared.layout.v4l2_queryctrl.TheConstants as query_struct;
ghost use Rattle.ioctl_bytes.specs.declared.layout.v4l2_querymenu.TheConstants as menu;
ghost use Rattle.ctl_session.specs.Calls.{Calls, info_put, info_told as info_in, item_told, menu_ask as ask_for_item, menu_call, plan_in, query_call, query_meant as query_for, sized, with_old_id};

use crate::calls::{CUT, NO_CALL};
use crate::ids::{is_old, queried, real_id};
use crate::session::Session;
use call_structs::{put_item, put_query, put_query_ext};
use ctrl_calls::Driver;
use ctrl_handlers::Plan;
use ctrl_types::{CtrlId, Errno, Fault, FhId};
use device_state::{Ask, CtrlInfo, Reply};
use ioctl_bytes::layout::{v4l2_query_ext_ctrl, v4l2_queryctrl, v4l2_querymenu};
use ioctl_bytes::{put_u32, u32_at};

impl<D: Driver> Session<D> {
    // VIDIOC_QUERYCTRL.
    pub(crate) fn query(&mut self, handler: u32, fh: FhId, arg: &mut [u8]) -> u32
        ensures { (name : CtrlInfo → List ℕ) × Calls D.verdict self.old (sized query_struct.SIZE arg.old (query_call (plan_in self.old) handler (λ info. queryctrl info (name info)) fh arg.old)) self.new (result, arg.new) }
    {
        if arg.len() != v4l2_queryctrl::SIZE {
            return CUT;
        }
        let asked = queried(self.plan(), handler, u32_at(arg, v4l2_queryctrl::ID));
        self.query_of(handler, fh, asked, arg)
    }

    // Asks about the control that its id speaks of.
    fn query_of(&mut self, handler: u32, fh: FhId, asked: Option<CtrlId>, arg: &mut [u8]) -> u32
        requires { length arg.old ≡ query_struct.SIZE }
        ensures { (name : CtrlInfo → List ℕ) × Calls D.verdict self.old (query_for (λ info. queryctrl info (name info)) fh arg.old asked) self.new (result, arg.new) }
    {
        match asked {
            Some(id) => {
                let answer = self.ask(&Ask::Query { fh, id });
                self.tell_query(handler, info_told(&answer), arg)
            }
            None => Errno::EINVAL.number(),
        }
    }

    fn tell_query(&self, handler: u32, told: Result<CtrlInfo, u32>, arg: &mut [u8]) -> u32
        requires { length arg.old ≡ query_struct.SIZE }
        ensures { (name : CtrlInfo → List ℕ) × ((result, arg.new) ≡ info_put (λ info. queryctrl info (name info)) arg.old told) }
    {
        match told {
            Ok(info) => {
                let asked = u32_at(arg, v4l2_queryctrl::ID);
                put_query(arg, &info, self.name(handler, &info));
                put_old_id(arg, asked);
                0
            }
            Err(errno) => errno,
        }
    }

    // VIDIOC_QUERY_EXT_CTRL.
    pub(crate) fn query_ext(&mut self, handler: u32, fh: FhId, arg: &mut [u8]) -> u32
        ensures { (name : CtrlInfo → List ℕ) × Calls D.verdict self.old (sized ext.SIZE arg.old (query_call (plan_in self.old) handler (λ info. query_ext_ctrl info (name info)) fh arg.old)) self.new (result, arg.new) }
    {
        if arg.len() != v4l2_query_ext_ctrl::SIZE {
            return CUT;
        }
        let asked = queried(self.plan(), handler, u32_at(arg, v4l2_query_ext_ctrl::ID));
        self.query_ext_of(handler, fh, asked, arg)
    }

    // Asks about the control that its id speaks of.
    fn query_ext_of(&mut self, handler: u32, fh: FhId, asked: Option<CtrlId>, arg: &mut [u8]) -> u32
        requires { length arg.old ≡ ext.SIZE }
        ensures { (name : CtrlInfo → List ℕ) × Calls D.verdict self.old (query_for (λ info. query_ext_ctrl info (name info)) fh arg.old asked) self.new (result, arg.new) }
    {
        match asked {
            Some(id) => {
                let answer = self.ask(&Ask::Query { fh, id });
                self.tell_query_ext(handler, info_told(&answer), arg)
            }
            None => Errno::EINVAL.number(),
        }
    }

    fn tell_query_ext(&self, handler: u32, told: Result<CtrlInfo, u32>, arg: &mut [u8]) -> u32
        requires { length arg.old ≡ ext.SIZE }
        ensures { (name : CtrlInfo → List ℕ) × ((result, arg.new) ≡ info_put (λ info. query_ext_ctrl info (name info)) arg.old told) }
    {
        match told {
            Ok(info) => {
                let asked = u32_at(arg, v4l2_query_ext_ctrl::ID);
                put_query_ext(arg, &info, self.name(handler, &info));
                put_old_id(arg, asked);
                0
            }
            Err(errno) => errno,
        }
    }

    // VIDIOC_QUERYMENU.
    pub(crate) fn query_menu(&mut self, handler: u32, fh: FhId, arg: &mut [u8]) -> u32
        ensures { Calls D.verdict self.old (sized menu.SIZE arg.old (menu_call (plan_in self.old) handler fh arg.old)) self.new (result, arg.new) }
    {
        if arg.len() != v4l2_querymenu::SIZE {
            return CUT;
        }
        let ask = menu_ask(self.plan(), handler, fh, arg);
        let answer = self.ask(&ask);
        tell_item(&answer, arg)
    }
}

// The control that an answer tells of; the error is an errno.
fn info_told(answer: &Result<Reply, Fault>) -> Result<CtrlInfo, u32>
    ensures { result ≡ info_in answer.now }
{
    match answer {
        Ok(Reply::Info(info)) => Ok(*info),
        Ok(_) => Err(NO_CALL),
        Err(fault) => Err(fault.errno.number()),
    }
}

fn menu_ask<D: Driver>(plan: &Plan<D>, handler: u32, fh: FhId, arg: &[u8]) -> Ask
    requires { length arg.now ≡ menu.SIZE }
    ensures { result ≡ ask_for_item plan.now handler fh arg.now }
{
    let asked = CtrlId(u32_at(arg, v4l2_querymenu::ID));
    Ask::MenuItem {
        fh,
        id: real_id(plan, handler, asked),
        index: u32_at(arg, v4l2_querymenu::INDEX),
    }
}

fn tell_item(answer: &Result<Reply, Fault>, arg: &mut [u8]) -> u32
    requires { length arg.old ≡ menu.SIZE }
    ensures { (result, arg.new) ≡ item_told arg.old answer.now }
{
    match answer {
        Ok(Reply::Item(item)) => {
            put_item(arg, item);
            0
        }
        Ok(_) => NO_CALL,
        Err(fault) => fault.errno.number(),
    }
}

// A control that was asked for by its old id is told by it.
fn put_old_id(arg: &mut [u8], asked: u32)
    requires { 4 ≤ length arg.old }
    ensures { arg.new ≡ with_old_id asked arg.old }
{
    if is_old(asked) {
        put_u32(arg, v4l2_queryctrl::ID, asked);
    }
}
