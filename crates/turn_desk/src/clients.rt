//! Clients at their seats, and the call that runs two of them on two threads.
ghost use Rattle.std.specs.Prelude.{◌≡◌, IsOk, IfErr};
ghost use Rattle.turn_desk.specs.Views.{IsSeatOf, StaysAt};
ghost use Rattle.turn_desk.specs.Runs.{HasRun};

use crate::desk::Desk;
use crate::seat::{DeskFault, DeskSeat};
use crate::workers::{Worker, run_both};
use history::Served;
use std::sync::Wait;
use std::thread::Threads;

/// What stands before each call of a client. It is passed without the turn, so it may wait for another client.
pub trait Gate {
    /// Is called before the `k`-th call at the seat with this number, from 1. After 4,294,967,295 calls `k` stays.
    fn pass(&self, seat: u32, k: u32);
}

/// Who makes calls at a seat. It keeps each of its asks until it has heard the answer.
pub trait Client<T: Served> {
    ghost use Rattle.std.specs.Prelude.{◌≡◌, List, Option, IsTrue, IsFalse};
    ghost use Rattle.turn_desk.specs.Runs.{HasAsked, Awaits, IsAwaited, IsAnswered};

    /// What a client may have come to do.
    ghost Task: { Type 0 };

    /// What it has come to do, which stays the same.
    ghost task: { Self → Task };

    /// It has no further ask.
    ghost is_done: { Self → Type 0 };

    /// Its asks so far, in order, each with the answer that it heard, or `None` while that is still to come.
    ghost transcript: { Self → List (T.Ask × Option T.Answer) };

    /// Whether it has a further ask, which it then makes.
    fn next(&mut self) -> bool
        ensures asked { IsTrue result → HasAsked (transcript self.old) (transcript self.new) }
        ensures task { task self.new ≡ task self.old }
        ensures done { IsFalse result → is_done self.new }
        ensures same { IsFalse result → transcript self.new ≡ transcript self.old };

    /// Its last ask, which has no answer yet.
    fn ask(&self) -> &T::Ask
        requires { Awaits (transcript self.now) }
        ensures { IsAwaited result.now (transcript self.now) };

    /// Hears the answer of the last ask, which has none yet: it is called once after each ask.
    fn hear(&mut self, answer: T::Answer)
        requires { Awaits (transcript self.old) }
        ensures task { task self.new ≡ task self.old }
        ensures heard { IsAnswered answer (transcript self.old) (transcript self.new) };
}

/// A client and its seat.
#[derive(Drop)]
pub struct Party<T: Served, C> {
    /// The seat.
    pub seat: DeskSeat<T>,
    /// Who sits there.
    pub client: C,
}

#[derive(Drop)]
struct Session<'a, T: Served, C, G, R> {
    rt: &'a R,
    desk: &'a Desk<T>,
    gate: &'a G,
    party: Party<T, C>,
}

impl<'a, T: Served, C: Client<T>, G: Gate, R: Wait> Worker for Session<'a, T, C, G, R> {
    type Rest = Party<T, C>;

    ghost use Rattle.std.specs.Prelude.{◌≡◌};

    ghost may = { λ s. IsSeatOf s.desk.now s.party.seat };

    ghost finishes = { λ s rest. HasRun T.is_legal T.answers T.taken s.desk.now.plan s.party.seat (C.transcript s.party.client) rest.seat (C.transcript rest.client) × C.is_done rest.client × (C.task rest.client ≡ C.task s.party.client) };

    ghost gives_up = { λ s rest. rest ≡ s.party };

    fn work(self) -> Party<T, C> {
        let Session {
            rt,
            desk,
            gate,
            party,
        } = self;
        run_client(rt, desk, gate, party)
    }

    fn rest(self) -> Party<T, C> {
        self.party
    }
}

/// Runs a client until it has no further ask. Each ask is made at the seat, after the gate, and waits for the turn. The
/// client hears its answer before it is asked for the next.
pub fn run_client<T: Served, C: Client<T>, G: Gate, R: Wait>(
    rt: &R,
    desk: &Desk<T>,
    gate: &G,
    party: Party<T, C>,
) -> Party<T, C>
    requires { IsSeatOf desk.now party.seat }
    ensures seat { StaysAt party.seat result.seat }
    ensures run { HasRun T.is_legal T.answers T.taken desk.now.plan party.seat (C.transcript party.client) result.seat (C.transcript result.client) }
    ensures done { C.is_done result.client }
    ensures task { C.task result.client ≡ C.task party.client }
{
    let Party {
        mut seat,
        mut client,
    } = party;
    let mut k = 0u32;
    for _ in rt.forever() {
        if !client.next() {
            return Party { seat, client };
        }
        k = k.saturating_add(1);
        gate.pass(seat.number(), k);
        let (back, answer) = desk.call(rt, seat, client.ask());
        seat = back;
        client.hear(answer);
    }
    unreachable!()
}

/// Runs two clients at two seats, each on a thread of its own, and waits for both. Neither makes a call before there is
/// a thread for each.
///
/// Both come back with their seats. Where a thread could not be made they come as they were, with `Memory`.
pub fn run_clients<
    T: Served + Send,
    C: Client<T> + Drop + Send,
    G: Gate + Sync,
    R: Threads + Wait + Sync,
>(
    rt: &R,
    desk: &Desk<T>,
    gate: &G,
    first: Party<T, C>,
    second: Party<T, C>,
) -> (Party<T, C>, Party<T, C>, Result<(), DeskFault>)
    requires first { IsSeatOf desk.now first.seat }
    requires second { IsSeatOf desk.now second.seat }
    ensures first { StaysAt first.seat result.0.seat }
    ensures second { StaysAt second.seat result.1.seat }
    ensures first_run { IsOk result.2 → HasRun T.is_legal T.answers T.taken desk.now.plan first.seat (C.transcript first.client) result.0.seat (C.transcript result.0.client) }
    ensures second_run { IsOk result.2 → HasRun T.is_legal T.answers T.taken desk.now.plan second.seat (C.transcript second.client) result.1.seat (C.transcript result.1.client) }
    ensures done { IsOk result.2 → C.is_done result.0.client × C.is_done result.1.client }
    ensures tasks { IsOk result.2 → (C.task result.0.client ≡ C.task first.client) × (C.task result.1.client ≡ C.task second.client) }
    ensures kept { IfErr result.2 (λ _. (result.0 ≡ first) × (result.1 ≡ second)) }
    ensures fault { IfErr result.2 (λ fault. fault ≡ DeskFault.Memory) }
{
    let one = Session {
        rt,
        desk,
        gate,
        party: first,
    };
    let two = Session {
        rt,
        desk,
        gate,
        party: second,
    };
    let (first, second, ran) = run_both(rt, one, two);
    let outcome = if ran { Ok(()) } else { Err(DeskFault::Memory) };
    (first, second, outcome)
}
