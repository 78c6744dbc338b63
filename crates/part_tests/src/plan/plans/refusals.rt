// All calls of a builder, arrays, and a builder whose growths are refused in turn.
use super::building::{Call, answer, built, finished};
use super::closures::{Alike, calling};
use super::looks::{Look, UPDATE, holds, same};
use ctrl_handlers::PlanFault;
use ctrl_types::{CtrlId, Errno, Kind};
use hoard::Hoard;
use std::alloc::{AllocError, Global};
use std::process::Abort;
use std::sync::Arc;
use std::sync::atomic::AtomicU64;

// An array has no other member beside it, and no manual value. That it is in a cluster already comes first.
const ARRAYS: &[(Call, Result<u32, PlanFault>)] = &[
    (Call::Handler, Ok(0)),
    (Call::Control(0, 0, false), Ok(0)),
    (Call::Control(0, 1, false), Ok(1)),
    (Call::Array(0, 2), Ok(2)),
    (Call::Array(0, 3), Ok(3)),
    (Call::Array(0, 4), Ok(4)),
    (Call::Cluster(&[0, 2]), Err(PlanFault::ArrayAlone)),
    (Call::Cluster(&[2, 0]), Err(PlanFault::ArrayAlone)),
    (Call::Cluster(&[2, 3]), Err(PlanFault::ArrayAlone)),
    (Call::Auto(&[2], 0), Err(PlanFault::ArrayAlone)),
    (Call::Auto(&[0, 2], 1), Err(PlanFault::ArrayAlone)),
    (Call::Cluster(&[2]), Ok(0)),
    (Call::Cluster(&[0, 2]), Err(PlanFault::InCluster)),
    (Call::Cluster(&[3, 3]), Err(PlanFault::InCluster)),
    (Call::Cluster(&[3, 9]), Err(PlanFault::UnknownNumber)),
    (Call::Cluster(&[1, 0]), Ok(1)),
];

const ARRAYS_FOUND: &[Look] = &[
    Look::Clusters(4),
    Look::Cluster(0, &[2], None),
    Look::Cluster(1, &[1, 0], None),
    Look::Cluster(2, &[3], None),
    Look::Cluster(3, &[4], None),
    Look::Closures(0, Some(3)),
    Look::Closures(2, None),
];

#[test]
fn arrays_alone(rt: HostRuntime) {
    holds(&rt, rt.alloc(), ARRAYS, ARRAYS_FOUND);
}

// Controls of 0 to 9. What follows nothing, isn't there or is no integer doesn't follow, nor what follows already, is followed, or follows one that isn't lower.
const FOLLOWERS: &[(Call, Result<u32, PlanFault>)] = &[
    (Call::Handler, Ok(0)),
    (Call::Control(0, 0, false), Ok(0)),
    (Call::Control(0, 1, false), Ok(1)),
    (Call::Control(0, 2, false), Ok(2)),
    (Call::Control(0, 3, false), Ok(3)),
    (Call::Menu(0, 4, Kind::Menu), Ok(4)),
    (Call::Control(0, 5, false), Ok(5)),
    (Call::Follow(1, None, None, 3), Err(PlanFault::CannotFollow)),
    (
        Call::Follow(6, Some((0, 0)), None, 3),
        Err(PlanFault::UnknownNumber),
    ),
    (
        Call::Follow(1, Some((6, 0)), None, 3),
        Err(PlanFault::UnknownNumber),
    ),
    (
        Call::Follow(1, Some((1, 0)), None, 3),
        Err(PlanFault::CannotFollow),
    ),
    (
        Call::Follow(1, Some((0, 0)), Some((2, 0)), 3),
        Err(PlanFault::CannotFollow),
    ),
    (
        Call::Follow(4, Some((0, 0)), None, 3),
        Err(PlanFault::CannotFollow),
    ),
    (
        Call::Follow(5, None, Some((4, 0)), 3),
        Err(PlanFault::CannotFollow),
    ),
    (Call::Follow(2, None, Some((0, 4)), 7), Ok(0)),
    (Call::Follow(3, Some((1, 2)), None, 1), Ok(0)),
    (
        Call::Follow(2, Some((0, 0)), None, 7),
        Err(PlanFault::CannotFollow),
    ),
    (
        Call::Follow(5, Some((2, 0)), None, 7),
        Err(PlanFault::CannotFollow),
    ),
    (
        Call::Follow(1, Some((0, 0)), None, 7),
        Err(PlanFault::CannotFollow),
    ),
    (Call::Cluster(&[0, 5]), Ok(0)),
    (Call::Cluster(&[2, 1]), Ok(1)),
];

// What is set in the first cluster reaches the second, since 2 follows 0, and on from there that of 3, which follows 1.
const FOLLOWERS_FOUND: &[Look] = &[
    Look::Range(0, (0, 9, 0), false),
    Look::Range(1, (0, 9, 0), false),
    Look::Range(2, (0, 4, 4), true),
    Look::Range(3, (2, 9, 2), true),
    Look::Reached(0, &[1, 2]),
    Look::Reached(1, &[2]),
    Look::Reached(2, &[]),
    Look::Reached(3, &[]),
];

#[test]
fn followers(rt: HostRuntime) {
    holds(&rt, rt.alloc(), FOLLOWERS, FOLLOWERS_FOUND);
}

// the first item makes room for others, and a name needs memory of its own; two clusters are refused, and their closures handed back
const ALL: &[(Call, Result<u32, PlanFault>)] = &[
    (Call::Handler, Ok(0)),
    (Call::Handler, Ok(1)),
    (Call::Control(0, 0, false), Ok(0)),
    (Call::Control(0, 1, false), Ok(1)),
    (Call::Control(0, 2, false), Ok(2)),
    (Call::Control(0, 3, false), Ok(3)),
    (Call::Control(0, 4, false), Ok(4)),
    (Call::Control(0, 5, false), Ok(5)),
    (Call::Menu(1, 6, Kind::Menu), Ok(6)),
    (Call::Menu(1, 7, Kind::IntegerMenu), Ok(7)),
    (Call::Add(1, 0), Ok(0)),
    (Call::Follow(4, None, Some((1, 5)), 9), Ok(0)),
    (Call::Number(7, 1, -7), Ok(0)),
    (Call::Name(6, 1, "50 Hz"), Ok(0)),
    (Call::Cluster(&[5, 4]), Ok(0)),
    (Call::Cluster(&[1, 5]), Err(PlanFault::InCluster)),
    (Call::Auto(&[2, 3], 12), Ok(1)),
    (Call::Auto(&[1, 99], 0), Err(PlanFault::UnknownNumber)),
];

// a manual value may be one that the master can't take
const ALL_FOUND: &[Look] = &[
    Look::Handlers(2),
    Look::Shown(0, &[0, 1, 2, 3, 4, 5]),
    Look::Shown(1, &[6, 7, 0, 1, 2, 3, 4, 5]),
    Look::Clusters(6),
    Look::Cluster(0, &[5, 4], None),
    Look::Cluster(1, &[2, 3], Some(12)),
    Look::Cluster(2, &[0], None),
    Look::Cluster(3, &[1], None),
    Look::Cluster(4, &[6], None),
    Look::Cluster(5, &[7], None),
    Look::Closures(0, Some(6)),
    Look::Closures(1, Some(3)),
    Look::Closures(2, None),
    Look::Flags(2, UPDATE),
    Look::Flags(3, 0),
    Look::Find(1, 4, Ok(4)),
    Look::Find(0, 6, Err(Errno::EINVAL)),
    Look::Next(1, 5, Ok(CtrlId(6))),
    Look::Name(6, 1, Some("50 Hz")),
    Look::Number(7, 1, Some(-7)),
    Look::Range(4, (0, 5, 5), true),
    Look::Reached(3, &[0]),
];

// The plan has these looks where nothing is refused.
#[test]
fn all_calls(rt: HostRuntime) {
    holds(&rt, rt.alloc(), ALL, ALL_FOUND);
}

// So often a call is made, each time with so many bytes more than before, until it isn't refused memory.
const MOST: usize = 1024;

const MORE: usize = 16;

// Makes the call at a place behind those before it, first without memory. Where it is refused that the builder is as before: it finishes the plan of the
// calls before, and closures are handed back. How often it was refused; none where something else came of it.
fn refusals_at(
    rt: &impl Abort,
    alloc: Global,
    hoard: &mut Hoard,
    called: &Arc<AtomicU64>,
    place: usize,
) -> Option<usize> {
    let (before, behind) = ALL.split_at_checked(place)?;
    let &(call, want) = behind.first()?;
    for times in 0..MOST {
        let mut builder = built(rt, alloc, called, before);
        hoard.starve(MORE * times);
        let got = answer(rt, &mut builder, called, call);
        hoard.feed();
        if got == want {
            return Some(times);
        }
        let is_as_before = same(
            &finished(rt, builder),
            &finished(rt, built(rt, alloc, called, before)),
            called,
        );
        if got != Err(PlanFault::Memory) || !is_as_before {
            return None;
        }
    }
    None
}

// The same of finishing: the builder is handed back, and finishes the same plan when it has memory.
fn refusals_at_the_end(
    rt: &impl Abort,
    alloc: Global,
    hoard: &mut Hoard,
    called: &Arc<AtomicU64>,
) -> Option<usize> {
    let mut builder = built(rt, alloc, called, ALL);
    for times in 0..MOST {
        hoard.starve(MORE * times);
        let done = builder.finish();
        hoard.feed();
        builder = match done {
            Ok(plan) => {
                let other = finished(rt, built(rt, alloc, called, ALL));
                return same(&plan, &other, called).then_some(times);
            }
            Err((builder, PlanFault::Memory)) => builder,
            Err(_) => return None,
        };
    }
    None
}

// Each call with the growths of which it is refused; a place without any takes no memory of its own.
#[test]
fn a_builder_that_is_refused_memory_is_as_before(rt: HostRuntime) -> Result<(), AllocError> {
    let alloc = rt.alloc();
    let called = calling(&rt, alloc);
    let mut hoard = Hoard::new(alloc)?;
    let mut refused = 0u32;
    for place in 0..ALL.len() {
        let times = refusals_at(&rt, alloc, &mut hoard, &called, place);
        assert!(rt; times.is_some(), "{place}");
        if times != Some(0) {
            refused = refused.saturating_add(1);
        }
    }
    let at_the_end = refusals_at_the_end(&rt, alloc, &mut hoard, &called);
    assert!(rt;
        refused > 5 && at_the_end.is_some() && at_the_end != Some(0),
        "{refused} {at_the_end:?}"
    );
    Ok(())
}
