// A builder's calls as data, and the plans that are built of them.
use super::closures::{Alike, are, closures};
use bitflags::Flags as FlagSet;
use ctrl_handlers::{DefaultSource, Follower, Plan, PlanBuilder, PlanFault, Source};
use ctrl_settle::Ctrl;
use ctrl_types::{CtrlId, Flags, Kind};
use std::alloc::Global;
use std::process::Abort;
use std::sync::Arc;
use std::sync::atomic::AtomicU64;

/// What a builder is called with.
#[derive(Clone, Copy, Debug)]
pub enum Call {
    Handler,
    // a control of 0 to 9: its handler and its id, and whether it is private
    Control(u32, u32, bool),
    // a menu of the items 0 to 3, of which 2 is skipped
    Menu(u32, u32, Kind),
    // an array of 4 bytes
    Array(u32, u32),
    Add(u32, u32),
    Name(u32, u32, &'static str),
    Number(u32, u32, i64),
    // the closures' number is the master's, and one more
    Cluster(&'static [u32]),
    Auto(&'static [u32], i64),
    // its control; what its minimum and its maximum follow, each with a number that is added; and what its default is nearest to
    Follow(u32, Option<(u32, i64)>, Option<(u32, i64)>, i64),
}

fn number(rt: &impl Abort, id: u32, is_private: bool) -> Ctrl {
    let flags = Flags::empty();
    let made = Ctrl::new(CtrlId(id), Kind::Integer, 0, 9, 1, 0, 0, flags, is_private);
    made.expect(rt, "a control")
}

fn menu(rt: &impl Abort, id: u32, kind: Kind) -> Ctrl {
    let made = Ctrl::new(CtrlId(id), kind, 0, 3, 1, 0, 4, Flags::empty(), false);
    made.expect(rt, "a menu")
}

fn array(rt: &impl Abort, id: u32) -> Ctrl {
    let made = Ctrl::new_array(CtrlId(id), 4, 0, 250, 10, 0, Flags::empty(), false);
    made.expect(rt, "an array")
}

/// What the call answers: a number, 0 where it has none, or its refusal.
pub fn answer(
    rt: &impl Abort,
    builder: &mut PlanBuilder<Alike>,
    called: &Arc<AtomicU64>,
    call: Call,
) -> Result<u32, PlanFault> {
    match call {
        Call::Handler => builder.handler(),
        Call::Control(handler, id, is_private) => {
            builder.control(handler, number(rt, id, is_private))
        }
        Call::Menu(handler, id, kind) => builder.control(handler, menu(rt, id, kind)),
        Call::Array(handler, id) => builder.control(handler, array(rt, id)),
        Call::Add(to, added) => done(builder.add_handler(to, added)),
        Call::Name(control, index, name) => done(builder.menu_name(control, index, name)),
        Call::Number(control, index, number) => done(builder.menu_number(control, index, number)),
        Call::Cluster(members) => cluster(rt, builder, called, members, None),
        Call::Auto(members, manual) => cluster(rt, builder, called, members, Some(manual)),
        Call::Follow(control, minimum, maximum, default_value) => done(builder.follow(&Follower {
            control,
            minimum: source(minimum),
            maximum: source(maximum),
            default_value: DefaultSource::Number(default_value),
        })),
    }
}

fn source(follows: Option<(u32, i64)>) -> Option<Source> {
    match follows {
        Some((control, plus)) => Some(Source { control, plus }),
        None => None,
    }
}

fn done(answer: Result<(), PlanFault>) -> Result<u32, PlanFault> {
    match answer {
        Ok(()) => Ok(0),
        Err(fault) => Err(fault),
    }
}

// What a cluster call answers. A refusal without the closures is one that no case wants.
fn cluster(
    rt: &impl Abort,
    builder: &mut PlanBuilder<Alike>,
    called: &Arc<AtomicU64>,
    members: &[u32],
    manual: Option<i64>,
) -> Result<u32, PlanFault> {
    let number = match members.first() {
        Some(master) => u64::from(*master) + 1,
        None => 0,
    };
    let calls = closures(rt, called, number);
    let answer = match manual {
        Some(manual) => builder.auto_cluster(members, manual, calls),
        None => builder.cluster(members, calls),
    };
    match answer {
        Ok(cluster) => Ok(cluster),
        Err((calls, fault)) if are(&calls, called, number) => Err(fault),
        Err(_) => Ok(u32::MAX),
    }
}

// Makes a call, once more where it was refused memory.
fn make(
    rt: &impl Abort,
    builder: &mut PlanBuilder<Alike>,
    called: &Arc<AtomicU64>,
    call: Call,
    want: Result<u32, PlanFault>,
) {
    let mut got = answer(rt, builder, called, call);
    if got == Err(PlanFault::Memory) {
        got = answer(rt, builder, called, call);
    }
    assert!(rt; got == want, "{call:?}");
}

/// A builder after these calls.
pub fn built(
    rt: &impl Abort,
    alloc: Global,
    called: &Arc<AtomicU64>,
    calls: &[(Call, Result<u32, PlanFault>)],
) -> PlanBuilder<Alike> {
    let mut builder = PlanBuilder::new(alloc);
    for &(call, want) in calls {
        make(rt, &mut builder, called, call, want);
    }
    builder
}

/// The plan of a builder; a builder that is refused is finished once more, and then the test ends.
pub fn finished(rt: &impl Abort, builder: PlanBuilder<Alike>) -> Plan<Alike> {
    let refused = match builder.finish() {
        Ok(plan) => return plan,
        Err((builder, _)) => builder,
    };
    match refused.finish() {
        Ok(plan) => plan,
        Err(_) => panic!(rt; "no plan"),
    }
}
