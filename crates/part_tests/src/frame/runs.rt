//! What requests and frames come through, from a queue of frames without requests.

use crate::frame::calls::{CONTROLS, Call, Look, answer, shows};
use ctrl_types::Errno;
use frame_queue::{Frames, MAX_REQUESTS, RequestState};
use std::alloc::Global;

// Calls with their answers, and then looks.
type Run = (&'static [(Call, Result<u32, Errno>)], &'static [Look]);

const BUSY: Result<u32, Errno> = Err(Errno::EBUSY);

const GONE: Result<u32, Errno> = Err(Errno::EINVAL);

const RUNS: &[Run] = &[
    // each state, and what it refuses
    (
        &[
            (Call::Alloc(0), Ok(0)),
            (Call::Queue(0), Err(Errno::ENOENT)),
            (Call::Begin(&[]), Err(Errno::ENOENT)),
            (Call::Buffer(0, 5), Ok(0)),
            (Call::Buffer(0, 6), BUSY),
            (Call::Cancel(0, 1), GONE),
            (Call::Queue(0), Ok(0)),
            (Call::Queue(0), BUSY),
            (Call::Store(0, &[]), BUSY),
            (Call::Buffer(0, 6), BUSY),
            (Call::Reinit(0), BUSY),
            (Call::Free(0), BUSY),
            (Call::Complete(1), Err(Errno::ENOENT)),
            (Call::Begin(&[]), Ok(5)),
            (Call::Begin(&[]), BUSY),
            (Call::Cancel(0, 1), BUSY),
            (Call::Queue(0), BUSY),
            (Call::Store(0, &[]), BUSY),
            (Call::Buffer(0, 6), BUSY),
            (Call::Reinit(0), BUSY),
            (Call::Free(0), BUSY),
            (Call::Complete(7), Ok(0)),
            (Call::Complete(7), Err(Errno::ENOENT)),
            (Call::Begin(&[]), Err(Errno::ENOENT)),
            (Call::Cancel(0, 1), GONE),
            (Call::Queue(0), BUSY),
            (Call::Store(0, &[]), BUSY),
            (Call::Buffer(0, 6), BUSY),
        ],
        &[
            Look::State(0, RequestState::Complete),
            Look::Holds(0, Some(5)),
            Look::Had(0, &[7, 7, 7]),
            Look::Waits(&[]),
            Look::Runs(None),
        ],
    ),
    // as new, and then gone
    (
        &[
            (Call::Alloc(0), Ok(0)),
            (Call::Store(0, &[(0, 1)]), Ok(0)),
            (Call::Buffer(0, 5), Ok(0)),
            (Call::Queue(0), Ok(0)),
            (Call::Cancel(0, 1), Ok(0)),
            (Call::Reinit(0), Ok(0)),
            (Call::Queue(0), Err(Errno::ENOENT)),
            (Call::Free(0), Ok(0)),
            (Call::Free(0), GONE),
            (Call::Reinit(0), GONE),
            (Call::Queue(0), GONE),
            (Call::Buffer(0, 1), GONE),
            (Call::Store(0, &[]), GONE),
            (Call::Cancel(0, 1), GONE),
            (Call::Alloc(9), Ok(0)),
        ],
        &[
            Look::Gone(0),
            Look::HadNothing(0, Errno::EINVAL),
            Look::HadValue(0, 0, Err(Errno::EINVAL)),
            Look::State(9, RequestState::Idle),
            Look::Count(1),
        ],
    ),
    // of each control the last stored pair, in order of control numbers
    (
        &[
            (Call::Alloc(3), Ok(0)),
            (Call::Store(3, &[(2, 5), (0, 1), (2, 6)]), Ok(0)),
            (Call::Store(3, &[(0, 9), (1, -1)]), Ok(0)),
            (Call::Store(3, &[]), Ok(0)),
        ],
        &[
            Look::Asks(3, &[(0, 9), (1, -1), (2, 6)]),
            Look::State(3, RequestState::Idle),
            Look::Holds(3, None),
            Look::HadNothing(3, Errno::EACCES),
            Look::HadValue(3, 2, Err(Errno::EACCES)),
            Look::HadValue(3, 3, Err(Errno::EINVAL)),
        ],
    ),
    // a request that is made as new asks for nothing and holds no buffer
    (
        &[
            (Call::Alloc(0), Ok(0)),
            (Call::Store(0, &[(1, 2)]), Ok(0)),
            (Call::Buffer(0, 4), Ok(0)),
            (Call::Reinit(0), Ok(0)),
            (Call::Store(0, &[(2, 3)]), Ok(0)),
        ],
        &[Look::Asks(0, &[(2, 3)]), Look::Holds(0, None)],
    ),
    // what was applied at the begin, and else the values at the end
    (
        &[
            (Call::Alloc(0), Ok(0)),
            (Call::Store(0, &[(0, 1), (1, 2)]), Ok(0)),
            (Call::Buffer(0, 4), Ok(0)),
            (Call::Queue(0), Ok(0)),
            (Call::Begin(&[(1, 2)]), Ok(4)),
            (Call::Complete(9), Ok(0)),
        ],
        &[
            Look::Had(0, &[9, 2, 9]),
            Look::HadValue(0, 1, Ok(2)),
            Look::HadValue(0, 2, Ok(9)),
            Look::HadValue(0, 3, Err(Errno::EINVAL)),
            Look::Asks(0, &[(0, 1), (1, 2)]),
        ],
    ),
    // in the order of queueing; one is cancelled
    (
        &[
            (Call::Alloc(1), Ok(0)),
            (Call::Alloc(2), Ok(0)),
            (Call::Alloc(3), Ok(0)),
            (Call::Buffer(1, 11), Ok(0)),
            (Call::Buffer(2, 12), Ok(0)),
            (Call::Buffer(3, 13), Ok(0)),
            (Call::Queue(2), Ok(0)),
            (Call::Queue(1), Ok(0)),
            (Call::Queue(3), Ok(0)),
            (Call::Cancel(1, 8), Ok(0)),
            (Call::Begin(&[]), Ok(12)),
        ],
        &[
            Look::Waits(&[3]),
            Look::Runs(Some(2)),
            Look::State(1, RequestState::Complete),
            Look::State(2, RequestState::Running),
            Look::State(3, RequestState::Queued),
            Look::Had(1, &[8, 8, 8]),
        ],
    ),
    // the stream stops with one that runs and two that wait
    (
        &[
            (Call::Alloc(1), Ok(0)),
            (Call::Alloc(2), Ok(0)),
            (Call::Alloc(3), Ok(0)),
            (Call::Alloc(4), Ok(0)),
            (Call::Buffer(1, 11), Ok(0)),
            (Call::Buffer(2, 12), Ok(0)),
            (Call::Buffer(3, 13), Ok(0)),
            (Call::Queue(1), Ok(0)),
            (Call::Queue(2), Ok(0)),
            (Call::Queue(3), Ok(0)),
            (Call::Begin(&[(0, 4)]), Ok(11)),
            (Call::Off(7), Ok(0)),
            (Call::Off(8), Ok(0)),
        ],
        &[
            Look::Had(1, &[4, 7, 7]),
            Look::Had(2, &[7, 7, 7]),
            Look::Had(3, &[7, 7, 7]),
            Look::State(4, RequestState::Idle),
            Look::Waits(&[]),
            Look::Runs(None),
            Look::Count(4),
        ],
    ),
    // a number is held until its request is complete, or gone
    (
        &[
            (Call::Alloc(0), Ok(0)),
            (Call::Alloc(1), Ok(0)),
            (Call::Alloc(2), Ok(0)),
            (Call::Buffer(0, 5), Ok(0)),
            (Call::Buffer(1, 5), BUSY),
            (Call::Queue(0), Ok(0)),
            (Call::Buffer(1, 5), BUSY),
            (Call::Begin(&[]), Ok(5)),
            (Call::Buffer(1, 5), BUSY),
            (Call::Complete(0), Ok(0)),
            (Call::Buffer(1, 5), Ok(0)),
            (Call::Buffer(2, 5), BUSY),
            (Call::Free(1), Ok(0)),
            (Call::Buffer(2, 5), Ok(0)),
        ],
        &[
            Look::Holds(0, Some(5)),
            Look::Holds(2, Some(5)),
            Look::Count(2),
        ],
    ),
];

// A call has its answer; where a growth was refused, it has it when it is made again.
fn is_answered(alloc: Global, frames: &mut Frames, call: Call, want: Result<u32, Errno>) -> bool {
    let first = answer(alloc, frames, call);
    if first == Err(Errno::ENOMEM) {
        answer(alloc, frames, call) == want
    } else {
        first == want
    }
}

fn empty(alloc: Global) -> Result<Frames, Errno> {
    match Frames::new(alloc, CONTROLS) {
        Ok(frames) => Ok(frames),
        Err(_) => Frames::new(alloc, CONTROLS),
    }
}

// What the calls leave is alike where they are made twice.
fn plays(alloc: Global, run: &Run) -> Result<bool, Errno> {
    let mut frames = empty(alloc)?;
    let mut others = empty(alloc)?;
    Ok(
        are_answered(alloc, &mut frames, run.0)
            && are_answered(alloc, &mut others, run.0)
            && all_show(&frames, run.1)
            && frames.is_like(&others),
    )
}

fn are_answered(alloc: Global, frames: &mut Frames, calls: &[(Call, Result<u32, Errno>)]) -> bool {
    for (call, want) in calls {
        if !is_answered(alloc, frames, *call, *want) {
            return false;
        }
    }
    true
}

fn all_show(frames: &Frames, looks: &[Look]) -> bool {
    for look in looks {
        if !shows(frames, *look) {
            return false;
        }
    }
    true
}

#[test]
fn runs(rt: HostRuntime) {
    for (number, run) in RUNS.iter().enumerate() {
        assert!(rt; plays(rt.alloc(), run) == Ok(true), "{number}");
    }
}

// As many requests as there can be wait and run in the order of queueing, the last allocated first.
fn fills(alloc: Global) -> Result<bool, Errno> {
    let mut frames = empty(alloc)?;
    Ok(
        allocates_all(alloc, &mut frames)
            && queues_all(alloc, &mut frames)
            && runs_all(alloc, &mut frames)
            && makes_room(alloc, &mut frames),
    )
}

const MOST: u32 = MAX_REQUESTS as u32;

fn allocates_all(alloc: Global, frames: &mut Frames) -> bool {
    for id in 0..MOST {
        if !is_answered(alloc, frames, Call::Alloc(id), Ok(0)) {
            return false;
        }
    }
    is_answered(alloc, frames, Call::Alloc(MOST), Err(Errno::ENOSPC))
}

fn queues_all(alloc: Global, frames: &mut Frames) -> bool {
    for id in (0..MOST).rev() {
        let buffer = Call::Buffer(id, id.saturating_add(100));
        if !is_answered(alloc, frames, buffer, Ok(0))
            || !is_answered(alloc, frames, Call::Queue(id), Ok(0))
        {
            return false;
        }
    }
    true
}

fn runs_all(alloc: Global, frames: &mut Frames) -> bool {
    for id in (0..MOST).rev() {
        let buffer = Ok(id.saturating_add(100));
        if !is_answered(alloc, frames, Call::Begin(&[]), buffer)
            || !is_answered(alloc, frames, Call::Complete(1), Ok(0))
        {
            return false;
        }
    }
    true
}

// One that is freed makes room for another.
fn makes_room(alloc: Global, frames: &mut Frames) -> bool {
    is_answered(alloc, frames, Call::Free(0), Ok(0))
        && is_answered(alloc, frames, Call::Alloc(MOST), Ok(0))
        && shows(frames, Look::Count(MAX_REQUESTS))
}

#[test]
fn as_many_as_there_can_be(rt: HostRuntime) {
    assert!(rt; fills(rt.alloc()) == Ok(true));
}
