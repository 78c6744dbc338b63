//! The limit of requests, at two seats.

ghost use Rattle.turn_desk.specs.Views.{IsSeatOf};

use crate::acts::{Act, Flags, Heard, act_both};
use crate::asks::{has_value, opens, set};
use crate::devices::{Waiting, agrees, sample};
use ctrl_types::{Errno, Fault, FhId, RequestId};
use device_state::{Ask, Device, Reply};
use std::alloc::{AllocError, Global};
use std::sync::Wait;
use std::test::Fail;
use std::thread::Threads;
use turn_desk::{Desk, DeskSeat, SeatList};

type Seat = DeskSeat<Device<Waiting>>;

type Answer = Result<Reply, Fault>;

// How many requests seat 0 makes, and whether seat 1 can make one more then.
const ROWS: [(usize, bool); 2] = [(63, true), (64, false)];

// What seat 1 sets brightness to, one after another, behind 0.
const VALUES: [i64; 9] = [8, 12, 16, 20, 24, 28, 32, 36, 40];

// Behind its first ask each seat waits until the other has made its first, too.
fn allocations(alloc: Global, count: usize) -> Result<Vec<Act<Ask>>, AllocError> {
    let mut acts = vec![in alloc; Act::Ask(Ask::Alloc), Act::Raise(0), Act::Wait(1)]?;
    for _ in 1..count {
        acts.push(Act::Ask(Ask::Alloc))?;
    }
    Ok(acts)
}

fn sets(alloc: Global, fh: FhId) -> Result<Vec<Act<Ask>>, AllocError> {
    let mut acts = vec![in alloc; Act::Ask(set(alloc, fh, 0)?), Act::Raise(1), Act::Wait(0)]?;
    for value in VALUES {
        acts.push(Act::Ask(set(alloc, fh, value)?))?;
    }
    Ok(acts)
}

fn request_of(answer: &Answer) -> Option<RequestId> {
    match answer {
        Ok(Reply::Request(request)) => Some(*request),
        _ => None,
    }
}

// The first of so many requests that were made, where nothing else was answered.
fn first_made(answers: &[Answer], count: usize) -> Option<RequestId> {
    let made = answers.iter().filter_map(request_of).count();
    if made != count || answers.len() != count {
        return None;
    }
    answers.first().and_then(request_of)
}

// Whether the sets were answered, each with its value.
fn are_set(answers: &[Answer]) -> bool {
    let Some((first, rest)) = answers.split_first() else {
        return false;
    };
    let told = VALUES
        .iter()
        .zip(rest)
        .filter(|(value, answer)| has_value(answer, **value))
        .count();
    has_value(first, 0) && told == VALUES.len() && rest.len() == VALUES.len()
}

// Whether one more request is made, or refused with ENOSPC.
fn is_told(answer: &Answer, is_made: bool) -> bool {
    match answer {
        Ok(Reply::Request(_)) => is_made,
        Err(fault) => !is_made && fault.errno == Errno::ENOSPC && fault.index.is_none(),
        _ => false,
    }
}

// Seat 1 asks for one more request. Seat 0 frees one, and seat 1 asks again. The history has all.
fn goes_on<R: Wait>(
    rt: &R,
    alloc: Global,
    desk: Desk<Device<Waiting>>,
    seats: (Seat, Seat),
    request: RequestId,
    is_made: bool,
) -> Option<bool>
    requires first { IsSeatOf desk seats.0 }
    requires second { IsSeatOf desk seats.1 }
{
    let (first, second) = desk.meet(seats.0, seats.1);
    let (second, more) = desk.call(rt, second, &Ask::Alloc);
    let (first, freed) = desk.call(rt, first, &Ask::Free { request });
    let (first, second) = desk.meet(first, second);
    let (second, again) = desk.call(rt, second, &Ask::Alloc);
    let seats = vec![in alloc; first, second].ok()?;
    let device = desk.close(SeatList::from_vec(seats)).ok()?;
    let are_told = is_told(&more, is_made)
        && matches!(&freed, Ok(Reply::Done))
        && is_told(&again, true);
    Some(are_told && agrees(alloc, &device, 77))
}

// Seat 0 makes so many requests on its thread while seat 1 sets brightness on another; and then they meet.
fn goes<R: Threads + Wait + Sync>(
    rt: &R,
    alloc: Global,
    count: usize,
    is_made: bool,
) -> Result<Option<bool>, AllocError> {
    let Ok((desk, first)) = Desk::new(alloc, sample(alloc)?) else {
        return Err(AllocError);
    };
    let (first, fh) = opens(rt, &desk, first);
    let (first, second) = desk.another(rt, first);
    let (Some(fh), Ok(second)) = (fh, second) else {
        return Ok(None);
    };
    let flags = Flags::new();
    let one = Heard {
        seat: first,
        answers: Vec::with_capacity(alloc, count)?,
        front: 0,
    };
    let two = Heard {
        seat: second,
        answers: Vec::with_capacity(alloc, 10)?,
        front: 0,
    };
    let one = (one, allocations(alloc, count)?);
    let two = (two, sets(alloc, fh)?);
    let (one, two, are_done) = act_both(rt, &desk, &flags, one, two);
    let Some(request) = first_made(&one.answers, count) else {
        return Ok(None);
    };
    if !are_done || !flags.are_in_time() || !are_set(&two.answers) {
        return Ok(None);
    }
    Ok(goes_on(rt, alloc, desk, (one.seat, two.seat), request, is_made))
}

#[test]
fn seats_share_the_limit_of_requests(rt: HostRuntime) -> Result<(), Fail> {
    for (count, is_made) in ROWS {
        let is_so = goes(&rt, rt.alloc(), count, is_made)?;
        assert!(rt; is_so == Some(true), "{count}");
    }
    Ok(())
}
