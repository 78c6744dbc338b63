ghost use Rattle.std.specs.Prelude.{◌≡◌, ◌≤◌, ◌<◌, ◌+◌, IfOk, IfSome, length};
ghost use Rattle.std.specs.List.{All};
ghost use Rattle.call_structs.specs.Entries.{entry_start, list_size as size_for};
ghost use Rattle.ioctl_bytes.specs.declared.layout.v4l2_ext_controls.TheConstants as head;
ghost use Rattle.ctl_session.specs.declared.lists.TheConstants.{MOST_ENTRIES};
ghost use Rattle.ctl_session.specs.Calls.{Calls, fault_told, formed_list as formed, index_told as index_for, is_write as writes, list_ask as ask_for_list, list_by as list_for, list_call, list_told, read_count as count_read, refusing as refusing_list, whole_ask as ask_for_whole, whole_list as whole, with_wanted_size as with_size_wanted, with_wrong_size as with_size_told, wrong_errno as errno_of_wrong, wrong_index as index_of_wrong, wrong_told};
ghost use Rattle.ctl_session.specs.Session.{Stays, refusal_in};
ghost use Rattle.ctl_session.specs.Lists.{HasSlot, is_below as below, is_up_to as up_to, stands_before as is_earlier, with_values, wrong_payload as payload_wrong};

use crate::calls::{CUT, NO_CALL};
use crate::lists::{
    MOST_ENTRIES, V4L2_CID_MAX_CTRLS, first_of_control, first_with, form_at, forms_of, read_list,
};
use crate::session::{Session, no_memory};
use call_structs::{Form, PayloadFault, list_size, put_size, put_value};
use ctrl_calls::Driver;
use ctrl_types::{Check, Errno, ExtControl, Fault, FhId, Refusal, RequestId};
use device_state::{Ask, ControlList, Reply};
use ioctl_bytes::layout::v4l2_ext_controls;
use ioctl_bytes::{put_u32, u32_at};
use std::alloc::{AllocError, Global};

/// How a list is asked.
#[derive(Clone, Copy)]
pub enum Access {
    /// Its values are read.
    Get,
    /// They are set.
    Set,
    /// They are tried.
    Try,
}

impl<D: Driver> Session<D> {
    // VIDIOC_G_EXT_CTRLS, VIDIOC_S_EXT_CTRLS and VIDIOC_TRY_EXT_CTRLS.
    pub(crate) fn list(
        &mut self,
        handler: u32,
        fh: FhId,
        request: Option<RequestId>,
        access: Access,
        arg: &mut [u8],
    ) -> u32
        ensures { Calls D.verdict self.old (list_call D.verdict self.old handler fh request access arg.old) self.new (result, arg.new) }
    {
        if arg.len() < v4l2_ext_controls::SIZE {
            return CUT;
        }
        if u32_at(arg, v4l2_ext_controls::COUNT) > V4L2_CID_MAX_CTRLS {
            return self.refuse(Check::TooManyEntries);
        }
        if arg.len() != list_size(read_count(arg) as usize) {
            return CUT;
        }
        self.whole_list(handler, fh, request, access, arg)
    }

    // A list whose head, entries and slots are there.
    fn whole_list(
        &mut self,
        handler: u32,
        fh: FhId,
        request: Option<RequestId>,
        access: Access,
        arg: &mut [u8],
    ) -> u32
        requires head { head.SIZE ≤ length arg.old }
        requires whole { length arg.old ≡ size_for (count_read arg.old) }
        ensures { Calls D.verdict self.old (whole D.verdict self.old handler fh request access arg.old) self.new (result, arg.new) }
    {
        let count = read_count(arg);
        let Ok(forms) = forms_of(self.alloc(), self.plan(), handler, arg, count) else {
            return tell_fault(&no_memory(), arg);
        };
        self.formed_list(forms.as_slice(), fh, request, access, arg)
    }

    // Answers such a list, of whose entries the forms are known.
    fn formed_list(
        &mut self,
        forms: &[Form],
        fh: FhId,
        request: Option<RequestId>,
        access: Access,
        arg: &mut [u8],
    ) -> u32
        requires head { head.SIZE ≤ length arg.old }
        requires whole { size_for (count_read arg.old) ≤ length arg.old }
        requires each { length forms.now ≡ count_read arg.old }
        requires slots { All HasSlot forms.now }
        ensures { Calls D.verdict self.old (formed D.verdict self.old forms.now fh request access arg.old) self.new (result, arg.new) }
    {
        let Ok(ask) = whole_ask(self.alloc(), forms, fh, request, access, arg) else {
            return tell_fault(&no_memory(), arg);
        };
        let wrong = wrong_payload(forms, is_write(access), arg);
        match self.refusing(arg, &ask, wrong) {
            Ok(wrong) => self.list_by(forms, access, &ask, wrong, arg),
            Err(_) => tell_fault(&no_memory(), arg),
        }
    }

    // The payload that refuses a list: none where something else refuses it before. The error is that a growth was refused.
    fn refusing(
        &mut self,
        arg: &[u8],
        ask: &Ask,
        wrong: Option<(u32, PayloadFault)>,
    ) -> Result<Option<(u32, PayloadFault)>, AllocError>
        requires head { head.SIZE ≤ length arg.now }
        requires whole { size_for (count_read arg.now) ≤ length arg.now }
        requires place { IfSome wrong (λ w. w.0 < count_read arg.now) }
        ensures refusing { IfOk result (λ found. found ≡ refusing_list D.verdict self.old arg.now ask.now wrong) }
        ensures place { IfOk result (λ found. IfSome found (λ w. w.0 < count_read arg.now)) }
        ensures stays { Stays self.old self.new }
    {
        let Some(wrong) = wrong else {
            return Ok(None);
        };
        let refusal = self.refusal_of(ask)?;
        let first = first_of_control(arg, read_count(arg), wrong.0);
        Ok(if stands_before(refusal, wrong, first) {
            None
        } else {
            Some(wrong)
        })
    }

    // What would refuse an ask. The error is that a growth was refused.
    fn refusal_of(&mut self, ask: &Ask) -> Result<Option<Refusal>, AllocError>
        ensures refusal { IfOk result (λ refusal. refusal ≡ refusal_in D.verdict self.old ask.now) }
        ensures stays { Stays self.old self.new }
    {
        match self.find_refusal(ask) {
            Some(refusal) => match refusal.check {
                Check::MemoryRefused => Err(AllocError),
                _ => Ok(Some(refusal)),
            },
            None => Ok(None),
        }
    }

    // A list is asked of the device, unless a payload refuses it.
    fn list_by(
        &mut self,
        forms: &[Form],
        access: Access,
        ask: &Ask,
        wrong: Option<(u32, PayloadFault)>,
        arg: &mut [u8],
    ) -> u32
        requires head { head.SIZE ≤ length arg.old }
        requires whole { size_for (count_read arg.old) ≤ length arg.old }
        requires each { length forms.now ≡ count_read arg.old }
        requires slots { All HasSlot forms.now }
        requires place { IfSome wrong (λ w. w.0 < count_read arg.old) }
        ensures { Calls D.verdict self.old (list_for forms.now access arg.old ask.now wrong) self.new (result, arg.new) }
    {
        match wrong {
            Some(wrong) => tell_wrong(forms, access, wrong, arg),
            None => {
                let answer = self.ask(ask);
                tell_list(forms, &answer, arg)
            }
        }
    }
}

// The ask of a list. The error is that a growth was refused.
fn whole_ask(
    alloc: Global,
    forms: &[Form],
    fh: FhId,
    request: Option<RequestId>,
    access: Access,
    arg: &[u8],
) -> Result<Ask, AllocError>
    requires head { head.SIZE ≤ length arg.now }
    requires few { length forms.now ≤ MOST_ENTRIES }
    requires slots { All HasSlot forms.now }
    requires whole { size_for (length forms.now) ≤ length arg.now }
    ensures { IfOk result (λ ask. ask ≡ ask_for_whole forms.now fh request access arg.now) }
{
    let list = read_list(alloc, forms, arg)?;
    let which = u32_at(arg, v4l2_ext_controls::WHICH);
    Ok(list_ask(access, fh, which, request, list))
}

fn list_ask(
    access: Access,
    fh: FhId,
    which: u32,
    request: Option<RequestId>,
    list: ControlList,
) -> Ask
    ensures { result ≡ ask_for_list access fh which request list }
{
    match access {
        Access::Get => Ask::GetCtrls {
            fh,
            which,
            request,
            list,
        },
        Access::Set => Ask::SetCtrls {
            fh,
            which,
            request,
            list,
        },
        Access::Try => Ask::TryCtrls {
            fh,
            which,
            request,
            list,
        },
    }
}

fn is_write(access: Access) -> bool
    ensures { result ≡ writes access }
{
    match access {
        Access::Get => false,
        _ => true,
    }
}

// How many entries are read of a list.
fn read_count(arg: &[u8]) -> u32
    requires { head.SIZE ≤ length arg.now }
    ensures count { result ≡ count_read arg.now }
    ensures few { result ≤ MOST_ENTRIES }
{
    u32_at(arg, v4l2_ext_controls::COUNT).min(MOST_ENTRIES)
}

// The first payload that can't be taken: one that has no room, and else, where the list writes, one that can't be read. A kernel finds the first when it looks at the
// entries, and the second when it comes to set the cluster (Linux, v4l2-ctrls-api.c, `prepare_ext_ctrls` and `try_set_ext_ctrls_common`).
fn wrong_payload(forms: &[Form], writes: bool, arg: &[u8]) -> Option<(u32, PayloadFault)>
    requires few { length forms.now ≤ MOST_ENTRIES }
    requires slots { All HasSlot forms.now }
    requires whole { size_for (length forms.now) ≤ length arg.now }
    ensures place { IfSome result (λ w. w.0 < length forms.now) }
    ensures wrong { result ≡ payload_wrong forms.now writes arg.now }
{
    if let Some(place) = first_with(forms, arg, PayloadFault::TooSmall) {
        return Some((place, PayloadFault::TooSmall));
    }
    if !writes {
        return None;
    }
    match first_with(forms, arg, PayloadFault::Unreadable) {
        Some(place) => Some((place, PayloadFault::Unreadable)),
        None => None,
    }
}

// Whether a check refuses a list before a payload does: the entries are named, and have their room looked at, one after another (check 6), and payloads are read behind
// the checks of all entries (7), when the clusters are judged in the order of their first entries (8); `first` is the first entry of the payload's control.
fn stands_before(refusal: Option<Refusal>, wrong: (u32, PayloadFault), first: u32) -> bool
    ensures { result ≡ is_earlier refusal wrong first }
{
    let Some(refusal) = refusal else {
        return false;
    };
    let check = refusal.check.number();
    let (place, fault) = wrong;
    match fault {
        PayloadFault::TooSmall => check < 6 || check == 6 && is_up_to(refusal.entry, place),
        PayloadFault::Unreadable => check < 8 || check == 8 && is_below(refusal.entry, first),
    }
}

fn is_up_to(entry: Option<u32>, place: u32) -> bool
    ensures { result ≡ up_to entry place }
{
    match entry {
        Some(entry) => entry <= place,
        None => true,
    }
}

fn is_below(entry: Option<u32>, place: u32) -> bool
    ensures { result ≡ below entry place }
{
    match entry {
        Some(entry) => entry < place,
        None => true,
    }
}

// What a list is told whose payload can't be taken.
fn tell_wrong(forms: &[Form], access: Access, wrong: (u32, PayloadFault), arg: &mut [u8]) -> u32
    requires head { head.SIZE ≤ length arg.old }
    requires whole { size_for (count_read arg.old) ≤ length arg.old }
    requires slots { All HasSlot forms.now }
    requires place { wrong.0 < count_read arg.old }
    ensures { (result, arg.new) ≡ wrong_told forms.now access arg.old wrong }
{
    let index = wrong_index(access, wrong.0, arg);
    put_wrong_size(forms, access, wrong.0, arg);
    put_u32(arg, v4l2_ext_controls::ERROR_IDX, index);
    wrong_errno(access, wrong.1)
}

// The errno of a payload that can't be taken: a get is told that there is no room for it.
fn wrong_errno(access: Access, fault: PayloadFault) -> u32
    ensures { result ≡ errno_of_wrong access fault }
{
    match (access, fault) {
        (Access::Get, PayloadFault::TooSmall) => Errno::ENOSPC.number(),
        _ => CUT,
    }
}

fn wrong_index(access: Access, place: u32, arg: &[u8]) -> u32
    requires { head.SIZE ≤ length arg.now }
    ensures { result ≡ index_of_wrong access place arg.now }
{
    match access {
        Access::Try => place,
        _ => u32_at(arg, v4l2_ext_controls::COUNT),
    }
}

// A get is told how many bytes the payload of an entry without room has.
fn put_wrong_size(forms: &[Form], access: Access, place: u32, arg: &mut [u8])
    requires slots { All HasSlot forms.now }
    requires place { place < MOST_ENTRIES }
    requires whole { entry_start (place + 1) ≤ length arg.old }
    ensures told { arg.new ≡ with_size_told forms.now access place arg.old }
    ensures length { length arg.new ≡ length arg.old }
{
    match access {
        Access::Get => put_wanted_size(form_at(forms, place), place, arg),
        _ => {}
    }
}

fn put_wanted_size(form: Form, place: u32, arg: &mut [u8])
    requires place { place < MOST_ENTRIES }
    requires whole { entry_start (place + 1) ≤ length arg.old }
    ensures told { arg.new ≡ with_size_wanted form place arg.old }
    ensures length { length arg.new ≡ length arg.old }
{
    match form {
        Form::Array(elems) => put_size(arg, place as usize, elems),
        _ => {}
    }
}

// What a list is told. The index of an accepted one is its last entry: a kernel counts it along with the entries (Linux, v4l2-ctrls-api.c).
fn tell_list(forms: &[Form], answer: &Result<Reply, Fault>, arg: &mut [u8]) -> u32
    requires head { head.SIZE ≤ length arg.old }
    requires few { length forms.now ≤ MOST_ENTRIES }
    requires slots { All HasSlot forms.now }
    requires whole { size_for (length forms.now) ≤ length arg.old }
    ensures { (result, arg.new) ≡ list_told forms.now arg.old answer.now }
{
    let named = u32_at(arg, v4l2_ext_controls::COUNT);
    match answer {
        Ok(Reply::Controls(list)) => {
            put_values(forms, 0, list.as_slice(), arg);
            put_u32(arg, v4l2_ext_controls::ERROR_IDX, named.saturating_sub(1));
            0
        }
        Ok(_) => NO_CALL,
        Err(fault) => tell_fault(fault, arg),
    }
}

// What a list is told that is refused.
fn tell_fault(fault: &Fault, arg: &mut [u8]) -> u32
    requires { head.SIZE ≤ length arg.old }
    ensures { (result, arg.new) ≡ fault_told arg.old fault.now }
{
    let index = index_told(fault.index, arg);
    put_u32(arg, v4l2_ext_controls::ERROR_IDX, index);
    fault.errno.number()
}

// The index of a refusal; as many entries as were read are the whole list.
fn index_told(index: Option<u32>, arg: &[u8]) -> u32
    requires { head.SIZE ≤ length arg.now }
    ensures { result ≡ index_for arg.now index }
{
    match index {
        Some(index) if index < read_count(arg) => index,
        _ => u32_at(arg, v4l2_ext_controls::COUNT),
    }
}

// Writes values into the entries and slots of a list, from a place on, as far as there are entries.
fn put_values(forms: &[Form], place: u32, list: &[ExtControl], arg: &mut [u8])
    requires few { length forms.now ≤ MOST_ENTRIES }
    requires slots { All HasSlot forms.now }
    requires place { place ≤ length forms.now }
    requires whole { size_for (length forms.now) ≤ length arg.old }
    ensures told { arg.new ≡ with_values forms.now place list.now arg.old }
    ensures length { length arg.new ≡ length arg.old }
{
    if let [control, rest @ ..] = list {
        let count = forms.len();
        if (place as usize) < count {
            let form = form_at(forms, place);
            put_value(arg, count, place as usize, form, &control.value);
            put_values(forms, place + 1, rest, arg);
        }
    }
}
