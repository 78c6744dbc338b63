//! Memory runs out at each allocation in turn: a heap of its own is made a little larger each time.

ghost use Rattle.turn_desk.specs.Views.{IsSeatOf};

use crate::counter::{Answer, Ask, Counter};
use crate::seats::{further, listed};
use linked_list_allocator::LocalHeap;
use std::alloc::{Allocator, Global};
use std::process::Abort;
use std::sync::Wait;
use std::test::Fail;
use turn_desk::{Desk, DeskFault, DeskSeat};

const ACCEPTED: Option<(Answer, Answer)> = Some((Answer::Sum(1), Answer::Sum(3)));

const REFUSED: Option<(Answer, Answer)> = Some((Answer::NoMemory, Answer::NoMemory));

fn accepted(answer: Answer) -> usize {
    usize::from(answer != Answer::NoMemory)
}

// What two asks were answered, if there was a desk, and whether all seats came back and the history has just what was
// accepted. Where there was none, it says whether the counter came back for want of memory.
fn two_calls<A: Allocator + Clone, R: Abort + Wait>(
    rt: &R,
    alloc: Global,
    heap: A,
    own: A,
) -> (Option<(Answer, Answer)>, bool) {
    match Desk::new(heap, Counter::new(own, 10)) {
        Ok((desk, first)) => two_calls_at(rt, alloc, desk, first),
        Err((counter, fault)) => (None, fault == DeskFault::Memory && counter.total() == 0),
    }
}

fn two_calls_at<A: Allocator, R: Abort + Wait>(
    rt: &R,
    alloc: Global,
    desk: Desk<Counter<A>, A>,
    first: DeskSeat<Counter<A>>,
) -> (Option<(Answer, Answer)>, bool)
    requires { IsSeatOf desk first }
{
    let (first, second) = further(rt, &desk, first);
    let (first, one) = desk.call(rt, first, &Ask::Add(1));
    let (second, two) = desk.call(rt, second, &Ask::Add(2));
    let seats = listed(rt, alloc, Some(first), Some(second));
    let Ok(counter) = desk.close(seats) else {
        return (None, false);
    };
    let is_kept = counter.count(0) == accepted(one) && counter.count(1) == accepted(two);
    (Some((one, two)), is_kept)
}

// The desk's own memory runs out, and then the counter's.
#[test]
fn memory_runs_out_in_turn(rt: HostRuntime) -> Result<(), Fail> {
    let ample = LocalHeap::new(rt.alloc(), 4096)?;
    let (mut no_desk, mut no_step) = (0, 0);
    let mut is_right = true;
    for size in (0..32).map(|k: usize| 16 * k) {
        let short = LocalHeap::new(rt.alloc(), size)?;
        let (made, is_made) = two_calls(&rt, rt.alloc(), &short, &ample);
        let (called, is_called) = two_calls(&rt, rt.alloc(), &ample, &short);
        if made.is_none() {
            no_desk = size;
        }
        if called == REFUSED {
            no_step = size;
        }
        let are_answers = (made.is_none() || made == ACCEPTED)
            && (called == REFUSED || called == ACCEPTED);
        is_right = is_right && is_made && is_called && are_answers;
    }
    assert!(rt; is_right && 0 < no_desk && no_desk < 496 && 0 < no_step && no_step < 496);
    Ok(())
}
