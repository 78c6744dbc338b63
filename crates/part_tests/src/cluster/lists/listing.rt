// A plan of six controls, and the calls that it is asked, as data.
ghost use Rattle.std.specs.Prelude.{◌≡◌};

use crate::cluster::driver::{Judge, Strict, relation};
use crate::values::{pairs_of, values_of};
use bitflags::Flags as FlagSet;
use ctrl_calls::{Calls, Validator, Work};
use ctrl_clusters::{Moment, Ranges};
use ctrl_handlers::{Plan, PlanBuilder};
use ctrl_lists::{ControlList, Room, View, plan_set, read_list, try_list};
use ctrl_settle::Ctrl;
use ctrl_types::{CtrlId, CtrlValue, Errno, ExtControl, Fault, Flags, Kind, Which};
use std::alloc::Global;
use std::process::Abort;
use std::test::Fail;

// The relation that takes each row as it is, and one that refuses with EBUSY.
const TAKING: u32 = 0;

const REFUSING: u32 = 7;

fn validated(number: u32) -> Calls<Strict> {
    Calls {
        validator: Some(Validator::new(relation(number), Judge { number })),
        notifier: None,
    }
}

/// A control of 0 to 255: its id, its default and its flags.
pub type Made = (u32, i64, u32);

/// A plan of one handler with these controls. Controls 0 and 1 are a cluster that takes each row; where there are more, 2 is one that takes
/// none, and no other has a validator.
pub fn plan_of(alloc: Global, made: &[Made]) -> Result<Plan<Strict>, Fail> {
    let mut builder = PlanBuilder::new(alloc);
    let handler = builder.handler()?;
    for &(id, default, bits) in made {
        let flags = Flags::from_bits_retain(bits);
        match Ctrl::new(
            CtrlId(id),
            Kind::Integer,
            0,
            255,
            1,
            default,
            0,
            flags,
            false,
        ) {
            Ok(ctrl) => builder.control(handler, ctrl)?,
            Err(_) => return Err(Fail::new("a control")),
        };
    }
    name(&mut builder, &[0, 1], TAKING)?;
    if made.len() > 2 {
        name(&mut builder, &[2], REFUSING)?;
    }
    match builder.finish() {
        Ok(plan) => Ok(plan),
        Err(_) => Err(Fail::new("the plan")),
    }
}

fn name(builder: &mut PlanBuilder<Strict>, members: &[u32], number: u32) -> Result<(), Fail> {
    match builder.cluster(members, validated(number)) {
        Ok(_) => Ok(()),
        Err(_) => Err(Fail::new("a cluster")),
    }
}

pub const FIRST: u32 = 0x0098_0900;

pub const CAMERA: u32 = 0x009a_0900;

/// 3 is READ_ONLY, 4 WRITE_ONLY, and 5, of the camera class, DISABLED.
pub const SIX: &[Made] = &[
    (FIRST, 7, 0),
    (FIRST + 1, 7, 0),
    (FIRST + 2, 7, 0),
    (FIRST + 3, 7, 0x4),
    (FIRST + 4, 7, 0x40),
    (CAMERA, 7, 0x1),
];

pub const VALUES: [i64; 6] = [10, 11, 12, 13, 14, 15];

/// Control 0 is grabbed.
pub const GRABS: [bool; 6] = [true, false, false, false, false, false];

/// An id and a value.
pub type Entry = (u32, i64);

pub type Answer = Result<&'static [Entry], (Errno, u32)>;

#[derive(Clone, Copy, PartialEq, Eq)]
pub enum Call {
    Read,
    Set,
    Try,
}

/// A call, what it speaks of, the pairs from before and the entries; what it is answered, and how many validators are asked.
pub type Case = (
    Call,
    Which,
    &'static [(u32, i64)],
    &'static [Entry],
    Answer,
    u64,
);

/// The list of these entries, of at most 100.
pub fn list_of(alloc: Global, entries: &[Entry]) -> Result<ControlList, Fail> {
    let mut items = Vec::new(alloc);
    for &(id, number) in entries {
        let (id, value) = (CtrlId(id), CtrlValue::Number(number));
        items.push(ExtControl { id, value })?;
    }
    if items.len() > 100 {
        return Err(Fail::new("a short list"));
    }
    Ok(ControlList::from_vec(items))
}

// What the call is answered, where the view speaks of this; the defaults can only be read.
fn answer(
    alloc: Global,
    view: &View<Strict>,
    which: Which,
    call: Call,
    list: &ControlList,
    room: &mut Room,
    work: &mut Work,
) -> Result<ControlList, Fault>
    requires { view.now.parts.which ≡ which }
{
    let count = list.len();
    if call == Call::Read || which == Which::Defaults {
        return match read_list(alloc, view, list, room) {
            Ok(answers) => Ok(answers),
            Err(refusal) => Err(refusal.at_count(count)),
        };
    }
    let judged = if call == Call::Set {
        plan_set(alloc, view, list, room, work)
    } else {
        try_list(alloc, view, list, room, work)
    };
    match judged {
        Ok(touched) => Ok(touched.into_answers(room)),
        Err(refusal) if call == Call::Set => Err(refusal.at_count(count)),
        Err(refusal) => Err(refusal.at_entry(count)),
    }
}

/// Whether the answers are these entries, in their order.
pub fn are_entries(answers: &[ExtControl], want: &[Entry]) -> bool {
    for (answer, &(id, number)) in answers.iter().zip(want) {
        if answer.id.0 != id || answer.value != CtrlValue::Number(number) {
            return false;
        }
    }
    answers.len() == want.len()
}

fn is_answer(answer: &Result<ControlList, Fault>, want: Answer) -> bool {
    match (answer, want) {
        (Ok(list), Ok(entries)) => are_entries(list.as_slice(), entries),
        (Err(fault), Err((errno, index))) => fault.errno == errno && fault.index == Some(index),
        _ => false,
    }
}

/// Whether the call is answered so at a moment, whatever lists have left in the room.
pub fn shows(
    alloc: Global,
    at: &Moment<Strict>,
    room: &mut Room,
    case: Case,
) -> Result<bool, Fail> {
    let (call, which, before, entries, want, asked) = case;
    let pairs = pairs_of(alloc, before)?;
    let view = View::new(0, which, *at, pairs.as_slice());
    let list = list_of(alloc, entries)?;
    let mut work = Work::new();
    let got = answer(alloc, &view, which, call, &list, room, &mut work);
    Ok(is_answer(&got, want) && work.asked == asked && work.told == 0)
}

/// The plan of six answers these.
pub fn holds(rt: &impl Abort, alloc: Global, cases: &[Case]) -> Result<(), Fail> {
    let plan = plan_of(alloc, SIX)?;
    if plan.controls().len() != 6 {
        return Err(Fail::new("six controls"));
    }
    let ranges = Ranges::of_plan(alloc, &plan)?;
    let values = values_of(alloc, &VALUES)?;
    let at = Moment {
        plan: &plan,
        ranges: &ranges,
        values: values.as_slice(),
        grabs: &GRABS,
    };
    let mut room = Room::new(alloc);
    for (row, &case) in cases.iter().enumerate() {
        let is_shown = shows(alloc, &at, &mut room, case)?;
        assert!(rt; is_shown, "case {row}");
    }
    Ok(())
}
