//! Two clients at a desk of their own, from its making to its end.
ghost use Rattle.std.specs.Prelude.{◌≡◌, ◌<◌, ◌≤◌, [], All, IfOk, IfErr, vec_len};
ghost use Rattle.turn_desk.specs.Views.{IsSeatOf, IsWhole};
ghost use Rattle.turn_desk.specs.Runs.{HasServed};

use crate::clients::{Client, Gate, Party, run_clients};
use crate::desk::Desk;
use crate::seat::DeskSeat;
use crate::seats::SeatList;
use history::Served;
use std::alloc::Global;
use std::sync::Wait;
use std::thread::Threads;

/// What is left of a desk: its object, or the desk itself with its seats where it can't be closed.
pub type Remains<T> = Result<T, (Desk<T>, SeatList<T>)>;

/// Runs two clients at a new desk over this object, the first at seat 0 and the second at seat 1, each on a thread of its own, and
/// closes the desk.
///
/// The object and both clients come back. The object's steps are then those of the two seats; with the number of each seat it has
/// just the steps that the calls of that seat's client took, in order.
///
/// The error is want of memory: the desk, a seat or a thread could not be made, or the desk not be closed. What is left comes back, and
/// neither client does: the object, without a step, since no call was made; or the desk with its seats.
pub fn serve_both<
    T: Served + Send,
    C: Client<T> + Drop + Send,
    G: Gate + Sync,
    R: Threads + Wait + Sync,
>(rt: &R, alloc: Global, object: T, gate: &G, first: C, second: C) -> Result<(T, C, C), Remains<T>>
    requires { T.steps object ≡ [] }
    ensures plan { IfOk result (λ r. T.plan r.0 ≡ T.plan object) }
    ensures first { IfOk result (λ r. HasServed T.is_legal T.answers T.taken (T.plan object) 0 (C.transcript first) (C.transcript r.1) (T.steps r.0)) }
    ensures second { IfOk result (λ r. HasServed T.is_legal T.answers T.taken (T.plan object) 1 (C.transcript second) (C.transcript r.2) (T.steps r.0)) }
    ensures only { IfOk result (λ r. All (λ e. e.seat < 2) (T.steps r.0)) }
    ensures done { IfOk result (λ r. C.is_done r.1 × C.is_done r.2) }
    ensures tasks { IfOk result (λ r. (C.task r.1 ≡ C.task first) × (C.task r.2 ≡ C.task second)) }
    ensures object { IfErr result (λ left. IfOk left (λ back. (T.plan back ≡ T.plan object) × (T.steps back ≡ []))) }
    ensures desk { IfErr result (λ left. IfErr left (λ back. (back.0.plan ≡ T.plan object) × All (IsSeatOf back.0) back.1)) }
{
    let Ok(mut seats) = Vec::with_capacity(alloc, 2) else {
        return Err(Ok(object));
    };
    let (desk, one) = match Desk::new(alloc, object) {
        Ok(made) => made,
        Err((object, _)) => return Err(Ok(object)),
    };
    let (one, two) = desk.another(rt, one);
    let Ok(two) = two else {
        seats.push_reserved(one);
        return Err(shut(desk, seats));
    };
    let one = Party {
        seat: one,
        client: first,
    };
    let two = Party {
        seat: two,
        client: second,
    };
    let (one, two, outcome) = run_clients(rt, &desk, gate, one, two);
    seats.push_reserved(one.seat);
    seats.push_reserved(two.seat);
    let left = shut(desk, seats);
    let Ok(()) = outcome else {
        return Err(left);
    };
    match left {
        Ok(object) => Ok((object, one.client, two.client)),
        Err(open) => Err(Err(open)),
    }
}

// Closes a desk with its seats.
fn shut<T: Served>(desk: Desk<T>, seats: Vec<DeskSeat<T>>) -> Remains<T>
    requires few { vec_len seats ≤ 2 }
    requires seats { All (IsSeatOf desk) seats.items }
    ensures plan { IfOk result (λ object. T.plan object ≡ desk.plan) }
    ensures whole { IfOk result (λ object. IsWhole T.is_legal desk.plan seats.items (T.steps object)) }
    ensures desk { IfErr result (λ back. (back.0.plan ≡ desk.plan) × All (IsSeatOf back.0) back.1) }
{
    match desk.close(SeatList::from_vec(seats)) {
        Ok(object) => Ok(object),
        Err((desk, seats, _)) => Err((desk, seats)),
    }
}
