//! Histories, and what an audit makes of them.

use crate::replay::cases::{CASES, Case, Move, Pairs, RANGES, REQUESTS};
use crate::replay::driver::{Picky, plan};
use crate::replay::events::{EVENTS, TAKES, Told, WAITING};
use crate::scene::are;
use bitflags::Flags as FlagSet;
use ctrl_handlers::Plan;
use ctrl_types::{CtrlValue, FhId, Pair, RequestId, SubFlags};
use device_history::{PairList, Step};
use history::Entry;
use history_audit::{AuditFault, Scratch, audit};
use std::alloc::{AllocError, Global};
use std::test::Fail;

fn list(alloc: Global, pairs: Pairs) -> Result<PairList, AllocError> {
    let mut items = Vec::new(alloc);
    for &(control, number) in pairs {
        items.push(Pair {
            control,
            value: CtrlValue::Number(number),
        })?;
    }
    Ok(PairList::from_vec(items))
}

fn step(alloc: Global, made: Move) -> Result<Step, AllocError> {
    Ok(match made {
        Move::Open(handler) => Step::OpenFh { handler },
        Move::Close(fh) => Step::CloseFh { fh: FhId(fh) },
        Move::Set(fh, pairs) => Step::Set {
            fh: FhId(fh),
            pairs: list(alloc, pairs)?,
        },
        Move::Grab(control, on) => Step::Grab { control, on },
        Move::Range(control, min, max, step, default_value) => Step::ModifyRange {
            control,
            min,
            max,
            step,
            default_value,
        },
        Move::Alloc => Step::Alloc,
        Move::Store(request, pairs) => Step::Store {
            request: RequestId(request),
            pairs: list(alloc, pairs)?,
        },
        Move::Buffer(request, buffer) => Step::Buffer {
            request: RequestId(request),
            buffer,
        },
        Move::Queue(request) => Step::Queue {
            request: RequestId(request),
        },
        Move::Begin(request) => Step::Begin {
            request: RequestId(request),
        },
        Move::Complete(request) => Step::Complete {
            request: RequestId(request),
        },
        Move::Cancel(request) => Step::Cancel {
            request: RequestId(request),
        },
        Move::Off => Step::StreamOff,
        Move::Reinit(request) => Step::Reinit {
            request: RequestId(request),
        },
        Move::Free(request) => Step::Free {
            request: RequestId(request),
        },
        Move::Subscribe(fh, control, bits) => Step::Subscribe {
            fh: FhId(fh),
            control,
            flags: SubFlags::from_bits_retain(bits),
        },
        Move::Unsubscribe(fh, control) => Step::Unsubscribe {
            fh: FhId(fh),
            control,
        },
        Move::Take(fh, control) => Step::Take {
            fh: FhId(fh),
            control,
        },
    })
}

// The steps of a history, of any seats.
fn steps(alloc: Global, moves: &[Move]) -> Result<Vec<Entry<Step>>, AllocError> {
    let mut steps = Vec::new(alloc);
    let mut seat = u32::MAX;
    for &made in moves {
        steps.push(entry(alloc, seat, made)?)?;
        seat = seat.wrapping_add(1);
    }
    Ok(steps)
}

fn entry(alloc: Global, seat: u32, made: Move) -> Result<Entry<Step>, AllocError> {
    let step = step(alloc, made)?;
    Ok(Entry { seat, step })
}

// What an audit makes of a history.
fn audited(
    alloc: Global,
    plan: &Plan<Picky>,
    moves: &[Move],
) -> Result<Result<Scratch, usize>, AllocError> {
    let steps = steps(alloc, moves)?;
    match audit(alloc, plan, steps.as_slice()) {
        Ok(scratch) => Ok(Ok(scratch)),
        Err(AuditFault::NotLegal { index }) => Ok(Err(index as usize)),
        Err(AuditFault::Memory) => Err(AllocError),
    }
}

// Whether it is what the case says.
fn is_audited(alloc: Global, plan: &Plan<Picky>, case: &Case) -> Result<bool, AllocError> {
    let audited = audited(alloc, plan, case.0)?;
    Ok(is_wanted(&audited, case.1))
}

fn is_wanted(audited: &Result<Scratch, usize>, wanted: Result<&'static [i64], usize>) -> bool {
    match audited {
        Ok(scratch) => matches!(wanted, Ok(numbers) if are(scratch.values(), numbers)),
        Err(index) => matches!(wanted, Err(place) if *index == place),
    }
}

// Whether just these events wait for a file handle behind a history, and the next has this number.
fn tells(
    alloc: Global,
    plan: &Plan<Picky>,
    moves: &[Move],
    fh: FhId,
    told: &[Told],
    next: u32,
) -> Result<bool, AllocError> {
    Ok(match audited(alloc, plan, moves)? {
        Ok(scratch) => are_waiting(&scratch, fh, told) && scratch.next_sequence(fh) == next,
        Err(_) => false,
    })
}

fn are_waiting(scratch: &Scratch, fh: FhId, told: &[Told]) -> bool {
    for (place, event) in told.iter().enumerate() {
        if !is_waiting(scratch, fh, place, *event) {
            return false;
        }
    }
    scratch.waiting(fh, told.len()).is_none()
}

fn is_waiting(scratch: &Scratch, fh: FhId, place: usize, told: Told) -> bool {
    let (control, changes, value, sequence) = told;
    match scratch.waiting(fh, place) {
        Some((number, event)) => {
            number == control
                && event.changes.bits() == changes
                && event.value == value
                && event.sequence == sequence
        }
        None => false,
    }
}

// The place of the first case of which an audit makes something else.
fn wrong_case(alloc: Global, cases: &[Case]) -> Result<Option<usize>, AllocError> {
    match plan(alloc) {
        Some(plan) => wrong_case_of(alloc, &plan, cases),
        None => Err(AllocError),
    }
}

fn wrong_case_of(
    alloc: Global,
    plan: &Plan<Picky>,
    cases: &[Case],
) -> Result<Option<usize>, AllocError> {
    for (number, case) in cases.iter().enumerate() {
        if !is_audited(alloc, plan, case)? {
            return Ok(Some(number));
        }
    }
    Ok(None)
}

// The place of the first history behind which something else waits.
fn wrong_wait(alloc: Global) -> Result<Option<usize>, AllocError> {
    match plan(alloc) {
        Some(plan) => wrong_wait_of(alloc, &plan),
        None => Err(AllocError),
    }
}

fn wrong_wait_of(alloc: Global, plan: &Plan<Picky>) -> Result<Option<usize>, AllocError> {
    for (number, &(moves, fh, told, next)) in WAITING.iter().enumerate() {
        if !tells(alloc, plan, moves, FhId(fh), told, next)? {
            return Ok(Some(number));
        }
    }
    Ok(None)
}

// Each test is made again where a growth was refused.

fn first_wrong_case(alloc: Global, cases: &[Case]) -> Result<Option<usize>, AllocError> {
    match wrong_case(alloc, cases) {
        Ok(wrong) => Ok(wrong),
        Err(_) => wrong_case(alloc, cases),
    }
}

fn wrong_step(alloc: Global) -> Result<Option<usize>, AllocError> {
    first_wrong_case(alloc, CASES)
}

fn wrong_range(alloc: Global) -> Result<Option<usize>, AllocError> {
    first_wrong_case(alloc, RANGES)
}

fn wrong_request(alloc: Global) -> Result<Option<usize>, AllocError> {
    first_wrong_case(alloc, REQUESTS)
}

fn wrong_subscription(alloc: Global) -> Result<Option<usize>, AllocError> {
    first_wrong_case(alloc, EVENTS)
}

fn wrong_take(alloc: Global) -> Result<Option<usize>, AllocError> {
    first_wrong_case(alloc, TAKES)
}

#[test]
fn histories(rt: HostRuntime) -> Result<(), Fail> {
    let alloc = rt.alloc();
    let (step, request) = (wrong_step(alloc)?, wrong_request(alloc)?);
    assert!(rt; step.is_none() && request.is_none(), "{step:?} {request:?}");
    let (subscription, take) = (wrong_subscription(alloc)?, wrong_take(alloc)?);
    assert!(rt;
        subscription.is_none() && take.is_none(),
        "{subscription:?} {take:?}"
    );
    Ok(())
}

#[test]
fn range_changes(rt: HostRuntime) -> Result<(), Fail> {
    let range = wrong_range(rt.alloc())?;
    assert!(rt; range.is_none(), "{range:?}");
    Ok(())
}

#[test]
fn events_that_wait(rt: HostRuntime) -> Result<(), Fail> {
    let mut wrong = wrong_wait(rt.alloc());
    if wrong.is_err() {
        wrong = wrong_wait(rt.alloc());
    }
    let wrong = wrong?;
    assert!(rt; wrong.is_none(), "{wrong:?}");
    Ok(())
}
