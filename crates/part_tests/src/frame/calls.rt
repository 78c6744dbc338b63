//! Calls of a queue of frames over three controls, and looks at it.

ghost use Rattle.std.specs.Prelude.{◌≡◌, None, OnOk};

use crate::values::{are_numbers, are_pairs, pairs_of};
use ctrl_types::{Check, CtrlValue, Errno, Pair, RequestId};
use frame_queue::{Frames, RequestState};
use std::alloc::{AllocError, Global};

/// How many controls there are.
pub(crate) const CONTROLS: u32 = 3;

/// A call. A frame ends at a value that each control then has.
#[derive(Clone, Copy)]
pub(crate) enum Call {
    Alloc(u32),
    Store(u32, &'static [(u32, i64)]),
    Buffer(u32, u32),
    Queue(u32),
    Begin(&'static [(u32, i64)]),
    Complete(i64),
    Cancel(u32, i64),
    Off(i64),
    Reinit(u32),
    Free(u32),
}

/// A look.
#[derive(Clone, Copy)]
pub(crate) enum Look {
    State(u32, RequestState),
    Gone(u32),
    Holds(u32, Option<u32>),
    Asks(u32, &'static [(u32, i64)]),
    Had(u32, &'static [i64]),
    HadNothing(u32, Errno),
    HadValue(u32, u32, Result<i64, Errno>),
    Waits(&'static [u32]),
    Runs(Option<u32>),
    Count(usize),
}

/// What a call answers: the errno of the check that refuses it, which is asked first; else a begin the number of its frame's buffer, and every
/// other call 0, once it is made. A call that its caller owes something else isn't made, and answers ERANGE.
pub(crate) fn answer(alloc: Global, frames: &mut Frames, call: Call) -> Result<u32, Errno> {
    match call {
        Call::Alloc(id) => make(frames, RequestId(id)),
        Call::Store(id, pairs) => {
            let pairs = made(alloc, pairs)?;
            store(frames, RequestId(id), pairs.as_slice())
        }
        Call::Buffer(id, number) => add_buffer(frames, RequestId(id), number),
        Call::Queue(id) => queue(frames, RequestId(id)),
        Call::Begin(applied) => {
            let applied = made(alloc, applied)?;
            begin(frames, applied.as_slice())
        }
        Call::Complete(number) => complete(frames, number),
        Call::Cancel(id, number) => cancel(frames, RequestId(id), number),
        Call::Off(number) => stream_off(frames, number),
        Call::Reinit(id) => reinit(frames, RequestId(id)),
        Call::Free(id) => free(frames, RequestId(id)),
    }
}

fn made(alloc: Global, asked: &[(u32, i64)]) -> Result<Vec<Pair>, Errno> {
    match pairs_of(alloc, asked) {
        Ok(pairs) => Ok(pairs),
        Err(_) => Err(Errno::ENOMEM),
    }
}

// Nothing refuses a call; else the errno of the check that does.
fn passes(refusal: Option<Check>) -> Result<(), Errno>
    ensures { OnOk result (refusal ≡ None) }
{
    match refusal {
        Some(check) => Err(check.errno()),
        None => Ok(()),
    }
}

fn grown(answer: Result<(), AllocError>) -> Result<u32, Errno> {
    match answer {
        Ok(()) => Ok(0),
        Err(_) => Err(Errno::ENOMEM),
    }
}

fn make(frames: &mut Frames, id: RequestId) -> Result<u32, Errno> {
    match frames.requests().state_of(id) {
        Ok(_) => Err(Errno::ERANGE),
        Err(_) => {
            passes(frames.requests().alloc_refusal())?;
            grown(frames.alloc(id))
        }
    }
}

fn store(frames: &mut Frames, id: RequestId, pairs: &[Pair]) -> Result<u32, Errno> {
    let controls = frames.requests().controls();
    if pairs.iter().all(|pair| pair.control < controls) {
        passes(frames.requests().store_refusal(id))?;
        grown(frames.store(id, pairs))
    } else {
        Err(Errno::ERANGE)
    }
}

fn add_buffer(frames: &mut Frames, id: RequestId, number: u32) -> Result<u32, Errno> {
    passes(frames.requests().buffer_refusal(id, number))?;
    frames.add_buffer(id, number);
    Ok(0)
}

fn queue(frames: &mut Frames, id: RequestId) -> Result<u32, Errno> {
    passes(frames.requests().queue_refusal(id))?;
    match frames.reserve() {
        Ok(room) => {
            frames.queue(id, room);
            Ok(0)
        }
        Err(_) => Err(Errno::ENOMEM),
    }
}

fn begin(frames: &mut Frames, applied: &[Pair]) -> Result<u32, Errno> {
    passes(frames.begin_refusal())?;
    let (_, number) = frames.begin(applied);
    Ok(number)
}

fn complete(frames: &mut Frames, number: i64) -> Result<u32, Errno> {
    if frames.requests().controls() == CONTROLS {
        passes(frames.complete_refusal())?;
        frames.complete([CtrlValue::Number(number); 3].as_slice());
        Ok(0)
    } else {
        Err(Errno::ERANGE)
    }
}

fn cancel(frames: &mut Frames, id: RequestId, number: i64) -> Result<u32, Errno> {
    if frames.requests().controls() == CONTROLS {
        passes(frames.cancel_refusal(id))?;
        frames.cancel(id, [CtrlValue::Number(number); 3].as_slice());
        Ok(0)
    } else {
        Err(Errno::ERANGE)
    }
}

fn stream_off(frames: &mut Frames, number: i64) -> Result<u32, Errno> {
    if frames.requests().controls() == CONTROLS {
        frames.stream_off([CtrlValue::Number(number); 3].as_slice());
        Ok(0)
    } else {
        Err(Errno::ERANGE)
    }
}

fn reinit(frames: &mut Frames, id: RequestId) -> Result<u32, Errno> {
    passes(frames.requests().clear_refusal(id))?;
    frames.reinit(id);
    Ok(0)
}

fn free(frames: &mut Frames, id: RequestId) -> Result<u32, Errno> {
    passes(frames.requests().clear_refusal(id))?;
    frames.free(id);
    Ok(0)
}

/// Whether a look shows what it says.
pub(crate) fn shows(frames: &Frames, look: Look) -> bool {
    let requests = frames.requests();
    match look {
        Look::State(id, state) => requests.state_of(RequestId(id)) == Ok(state),
        Look::Gone(id) => requests.state_of(RequestId(id)) == Err(Errno::EINVAL),
        Look::Holds(id, number) => requests.buffer_of(RequestId(id)) == Ok(number),
        Look::Asks(id, pairs) => match requests.asked(RequestId(id)) {
            Ok(asked) => are_pairs(asked, pairs),
            Err(_) => false,
        },
        Look::Had(id, numbers) => match requests.snapshot_values(RequestId(id)) {
            Ok(snapshot) => are_numbers(snapshot, numbers),
            Err(_) => false,
        },
        Look::HadNothing(id, errno) => match requests.snapshot_values(RequestId(id)) {
            Ok(_) => false,
            Err(refusal) => refusal == errno,
        },
        Look::HadValue(id, control, want) => {
            requests.snapshot(RequestId(id), control) == want.map(CtrlValue::Number)
        }
        Look::Waits(ids) => waits(frames, ids),
        Look::Runs(id) => match frames.running() {
            Some(running) => id == Some(running.0),
            None => id.is_none(),
        },
        Look::Count(count) => requests.count() == count,
    }
}

fn waits(frames: &Frames, ids: &[u32]) -> bool {
    for (place, id) in ids.iter().enumerate() {
        if frames.queued(place) != Some(RequestId(*id)) {
            return false;
        }
    }
    frames.queue_len() == ids.len() && frames.queued(ids.len()).is_none()
}
