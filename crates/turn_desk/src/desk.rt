//! The desk and its calls.
ghost use Rattle.std.specs.Prelude.{◌≡◌, ◌≢◌, ℕ, ◌<◌, min, List, [], ◌∷◌, All, length, Some, None, IfOk, IfErr, IsTrue, IsFalse};
ghost use Rattle.history.specs.Past.{own, entered};
ghost use Rattle.history.specs.Prefix.{IsPrefix};
ghost use Rattle.turn_desk.specs.Views.{IsSeatOf, IsSameSeat, IsWhole, AreSome};
ghost use Rattle.turn_desk.specs.Calls.{IsCall};
ghost use Rattle.turn_desk.specs.Plays.{Takes, with_holding};
ghost use Rattle.turn_desk.specs.Working.{IsAtWork, HasWorked};
ghost use Rattle.turn_desk.specs.Ending.{HasGathered, HasOpened, HasHeard, HasHeardAll, IsCloser, IsEnded};

use crate::rule::{
    CLOSED, Close, Count, Cut, Enter, FREE, FRONT, Gather, HELD, Leave, Look, Mark, Number,
    OneHistory, Place, Reopen, SEATS, SLOT, TURN, Try, View, WANTED,
};
use crate::seat::{DeskFault, DeskSeat, MOST_SEATS, Token};
use crate::seats::SeatList;
use atomic_table::{Refused, Shared, Table};
use history::Served;
use std::alloc::{AllocFailed, Allocator, Global};
use std::hint;
use std::marker::Model;
use std::snapshot::Snapshot;
use std::sync::Wait;

// How often a call tries the turn before it sleeps.
const SPINS: u32 = 64;

/// One object for many seats. Threads share it by reference.
#[derive(Drop)]
pub struct Desk<T: Served, A: Allocator = Global> {
    table: Table<Place<T>, View<T::Plan, T::Step>, Snapshot<T>, OneHistory, A>,
}

impl<T: Served, A: Allocator> Model for Desk<T, A> {
    ghost use Rattle.std.specs.Prelude.{◌≡◌};
    ghost use Rattle.turn_desk.specs.Views.{DeskView};

    ghost Value = { DeskView T.Plan };

    ghost view = { λ d. record { id = d.table.shared.table_id; plan = T.plan d.table.shared.key.value } };

    ghost invariant = { λ d. (d.table.shared.table_id.words ≡ 3) × (d.table.shared.table_id.slots ≡ 1) };
}

impl<T: Served, A: Allocator> Desk<T, A> {
    /// A desk over this object, and its first seat, number 0.
    pub fn new(alloc: A, object: T) -> Result<(Desk<T, A>, DeskSeat<T>), (T, DeskFault)>
    where
        A: Clone,
        requires { T.steps object ≡ [] }
        ensures ok { IfOk result (λ r. (r.0.plan ≡ T.plan object) × IsSeatOf r.0 r.1 × (r.1.number ≡ 0) × (r.1.seen ≡ [])) }
        ensures err { IfErr result (λ r. (r.0 ≡ object) × (r.1 ≡ DeskFault.Memory)) }
    {
        let Ok(spare) = alloc.clone() else {
            return Err((object, DeskFault::Memory));
        };
        let about = Snapshot::of(&object);
        let mut slots = Vec::new(spare);
        if let Err(AllocFailed { value }) = slots.push(Place { object }) {
            slots.destroy_empty();
            return Err((value.object, DeskFault::Memory));
        }
        match Table::new(alloc, &[FREE, 0, 1], slots, &about) {
            Ok((table, token)) => Ok((Desk { table }, DeskSeat { number: 0, token })),
            Err(Refused { mut slots }) => {
                let Some(Place { object }) = slots.pop() else {
                    unreachable!()
                };
                slots.destroy_empty();
                Err((object, DeskFault::Memory))
            }
        }
    }

    /// How many entries the history has. The seat has then seen all of them.
    ///
    /// It is one load, which waits for nobody and takes no memory.
    pub fn front(&self, seat: &mut DeskSeat<T>) -> u64
        requires { IsSeatOf self.now seat.old }
        ensures seat { IsSameSeat seat.old seat.new }
        ensures length { result ≡ length seat.new.seen }
        ensures later { IsPrefix seat.old.seen seat.new.seen }
        ensures legal { T.is_legal self.now.plan seat.new.seen }
        ensures own { own seat.old.number seat.new.seen ≡ own seat.old.number seat.old.seen }
    {
        self.table.shared.load::<Look>(&mut seat.token, FRONT)
    }

    /// Asks the object. Where another seat's call is in hand, this one waits, and sleeps after a while.
    ///
    /// The seat comes back. It has then seen all that the answer stands on, and the step that was taken, if one was.
    pub fn call<R: Wait>(&self, rt: &R, seat: DeskSeat<T>, ask: &T::Ask) -> (DeskSeat<T>, T::Answer)
        requires { IsSeatOf self.now seat }
        ensures seat { IsSameSeat seat result.0 }
        ensures call { IsCall T.is_legal T.answers T.taken self.now.plan seat.number seat.seen ask.now result.1 result.0.seen }
    {
        let DeskSeat { number, mut token } = seat;
        self.take_turn(rt, &mut token);
        let answer = self.work(&mut token, number, ask);
        self.leave_turn(&mut token);
        (DeskSeat { number, token }, answer)
    }

    /// A further seat, which has seen what this one has. At most 1,024 seats are made, numbered from 0.
    ///
    /// Its number lies above this seat's, and above that of every entry that this seat has seen.
    ///
    /// The given seat comes back as it was. Where all seats were made, it comes with `SeatsFull`, and no number is used.
    /// It takes no memory, and tries again where another seat came first.
    pub fn another<R: Wait>(
        &self,
        rt: &R,
        seat: DeskSeat<T>,
    ) -> (DeskSeat<T>, Result<DeskSeat<T>, DeskFault>)
        requires { IsSeatOf self.now seat }
        ensures kept { result.0 ≡ seat }
        ensures made { IfOk result.1 (λ new. IsSeatOf self.now new × (new.seen ≡ seat.seen)) }
        ensures number { IfOk result.1 (λ new. (seat.number < new.number) × (new.number < MOST_SEATS)) }
        ensures newest { IfOk result.1 (λ new. All (λ e. e.seat < new.number) seat.seen) }
        ensures own { IfOk result.1 (λ new. own new.number new.seen ≡ []) }
        ensures full { IfErr result.1 (λ fault. fault ≡ DeskFault.SeatsFull) }
    {
        let shared = &self.table.shared;
        let DeskSeat { number, mut token } = seat;
        let mut next = u64::from(number) + 1;
        for _ in rt.forever() {
            if next >= MOST_SEATS as u64 {
                return (DeskSeat { number, token }, Err(DeskFault::SeatsFull));
            }
            let found = shared.compare_exchange::<Number>(&mut token, SEATS, next, next + 1);
            if found == next {
                let new = DeskSeat {
                    number: next as u32,
                    token: shared.split_seat::<Cut>(&mut token),
                };
                return (DeskSeat { number, token }, Ok(new));
            }
            next = found;
        }
        unreachable!()
    }

    /// Two seats meet: what each had seen, both have seen then, and both have seen the same. No two seats have one number.
    ///
    /// They come back in the same order. It waits for nobody and takes no memory.
    pub fn meet(&self, a: DeskSeat<T>, b: DeskSeat<T>) -> (DeskSeat<T>, DeskSeat<T>)
        requires first { IsSeatOf self.now a }
        requires second { IsSeatOf self.now b }
        ensures seats { IsSameSeat a result.0 × IsSameSeat b result.1 }
        ensures apart { a.number ≢ b.number }
        ensures first { IsPrefix a.seen result.0.seen × IsPrefix b.seen result.0.seen }
        ensures second { IsPrefix a.seen result.1.seen × IsPrefix b.seen result.1.seen }
        ensures met { result.0.seen ≡ result.1.seen }
        ensures legal { T.is_legal self.now.plan result.0.seen × T.is_legal self.now.plan result.1.seen }
        ensures own { (own a.number result.0.seen ≡ own a.number a.seen) × (own b.number result.1.seen ≡ own b.number b.seen) }
    {
        let shared = &self.table.shared;
        let DeskSeat {
            number: first,
            token: mut both,
        } = a;
        let DeskSeat {
            number: second,
            token,
        } = b;
        shared.join_seat::<Gather>(&mut both, token);
        shared.load::<Look>(&mut both, FRONT);
        let a = DeskSeat {
            number: first,
            token: shared.split_seat::<Cut>(&mut both),
        };
        let b = DeskSeat {
            number: second,
            token: both,
        };
        (a, b)
    }

    /// Ends the desk and gives the object back, where all of its seats are given. It waits for nobody and takes no memory.
    ///
    /// Where some are out, the desk and the seats come back as they were, with `SeatsOut`: how many seats were given, and how many
    /// the desk has made, which are more than were given, more than each number given, and at most 1,024.
    pub fn close<B: Allocator>(
        self,
        seats: SeatList<T, B>,
    ) -> Result<T, (Desk<T, A>, SeatList<T, B>, DeskFault)>
        requires { All (IsSeatOf self) seats }
        ensures plan { IfOk result (λ object. T.plan object ≡ self.plan) }
        ensures whole { IfOk result (λ object. IsWhole T.is_legal self.plan seats (T.steps object)) }
        ensures kept { IfErr result (λ back. (back.0 ≡ self) × (back.1 ≡ seats)) }
        ensures out { IfErr result (λ back. (made : ℕ) × (back.2 ≡ DeskFault.SeatsOut (length seats) made) × AreSome made seats) }
    {
        let Desk { table } = self;
        let (found, mut closer) = table.shared.swap_new_seat::<Close>(SEATS, CLOSED);
        if (seats.len() as u64) < made_at(found) {
            let (seats, fault) = reopen(&table.shared, closer, found, seats);
            return Err((Desk { table }, seats, fault));
        }
        gather(&table.shared, &mut closer, seats.into_vec());
        Ok(take_object(table, closer))
    }

    fn take_turn<R: Wait>(&self, rt: &R, token: &mut Token<T>)
        requires desk { token.old.table_id ≡ self.now.id }
        requires account { 0 < length token.old.me.0.accounts }
        ensures same { token.new.table_id ≡ token.old.table_id }
        ensures taken { Takes T.is_legal T.plan T.steps token.old.me token.new.me }
    {
        let shared = &self.table.shared;
        let mut taking = HELD;
        let mut spins = 0;
        for _ in rt.forever() {
            if self.try_turn(token, spins > 0, taking) {
                return;
            }
            if spins < SPINS {
                spins += 1;
                hint::spin_loop();
                continue;
            }
            taking = WANTED;
            if shared.compare_exchange::<Mark>(token, TURN, HELD, WANTED) != FREE {
                shared.park(rt, TURN, WANTED as u32);
                spins = 1;
            }
        }
        unreachable!()
    }

    // Whether the turn was free, and is the seat's now. Who waits looks first, since a swap that fails would slow down
    // who has the turn.
    fn try_turn(&self, token: &mut Token<T>, waits: bool, taking: u64) -> bool
        requires desk { token.old.table_id ≡ self.now.id }
        requires account { 0 < length token.old.me.0.accounts }
        requires taking { 0 < taking }
        ensures same { token.new.table_id ≡ token.old.table_id }
        ensures taken { IsTrue result → Takes T.is_legal T.plan T.steps token.old.me token.new.me }
        ensures kept { IsFalse result → token.new.me ≡ token.old.me }
    {
        let shared = &self.table.shared;
        if waits && shared.peek(TURN) != FREE {
            return false;
        }
        shared.compare_exchange::<Try>(token, TURN, FREE, taking) == FREE
    }

    // Answers the ask, and enters the step that it took. Where it took none, a look at the front stands for the call.
    fn work(&self, token: &mut Token<T>, number: u32, ask: &T::Ask) -> T::Answer
        requires desk { token.old.table_id ≡ self.now.id }
        requires work { IsAtWork T.plan T.steps number self.now.plan token.old.me }
        ensures same { token.new.table_id ≡ token.old.table_id }
        ensures work { IsAtWork T.plan T.steps number self.now.plan token.new.me }
        ensures worked { HasWorked T.is_legal T.answers T.taken self.now.plan number ask.now result token.old.me.0 token.new.me.0 }
    {
        let shared = &self.table.shared;
        let place = token.slot_mut(shared, SLOT);
        let before = place.object.step_count();
        let answer = place.object.handle(number, ask);
        if place.object.step_count() == before {
            shared.load::<Look>(token, FRONT);
        } else {
            shared.fetch_add::<Enter>(token, FRONT, 1);
        }
        answer
    }

    fn leave_turn(&self, token: &mut Token<T>)
        requires desk { token.old.table_id ≡ self.now.id }
        requires work { (number : ℕ) × IsAtWork T.plan T.steps number self.now.plan token.old.me }
        ensures same { token.new.table_id ≡ token.old.table_id }
        ensures left { token.new.me ≡ (with_holding None token.old.me.0, []) }
    {
        if self.table.shared.swap::<Leave>(token, TURN, FREE) == WANTED {
            self.table.shared.wake_one(TURN);
        }
    }
}

// How many seats were made, by what was found at the word of seats; 1,024 at the mark of another closing. None is ever found, since
// who closes has the desk alone, but the rule doesn't exclude it, and 1,024 is then right as a bound.
fn made_at(found: u64) -> u64
    ensures { result ≡ min found MOST_SEATS }
{
    found.min(MOST_SEATS as u64)
}

// Gives the closing up, and says how many seats were given, and how many were made. First the seat that was to close the
// desk hears of each given seat that its number was made.
fn reopen<T: Served, B: Allocator>(
    shared: &Shared<Place<T>, View<T::Plan, T::Step>, Snapshot<T>, OneHistory>,
    mut closer: Token<T>,
    found: u64,
    seats: SeatList<T, B>,
) -> (SeatList<T, B>, DeskFault)
    requires desk { (closer.table_id ≡ shared.now.table_id) × (shared.now.table_id.words ≡ 3) }
    requires seats { All (λ s. s.desk ≡ shared.now.table_id) seats }
    requires opened { HasOpened found (Some (T.plan shared.now.key.value)) closer.me.0 }
    ensures seats { result.0 ≡ seats }
    ensures made { All (λ s. s.number < min found MOST_SEATS) seats }
    ensures fault { result.1 ≡ DeskFault.SeatsOut (length seats) (min found MOST_SEATS) }
{
    let mut seats = seats.into_vec();
    hear_all(shared, &mut closer, &mut seats);
    shared.compare_exchange::<Reopen>(&mut closer, SEATS, CLOSED, found);
    let fault = DeskFault::SeatsOut {
        given: seats.len() as u32,
        made: made_at(found) as u32,
    };
    (SeatList::from_vec(seats), fault)
}

// The seat hears of each of the others that its number was made.
fn hear_all<T: Served, B: Allocator>(
    shared: &Shared<Place<T>, View<T::Plan, T::Step>, Snapshot<T>, OneHistory>,
    closer: &mut Token<T>,
    seats: &mut Vec<DeskSeat<T>, B>,
)
    requires desk { (closer.old.table_id ≡ shared.now.table_id) × (shared.now.table_id.words ≡ 3) }
    requires seats { All (λ s. s.desk ≡ shared.now.table_id) seats.old.items }
    ensures desk { closer.new.table_id ≡ closer.old.table_id }
    ensures seats { seats.new.items ≡ seats.old.items }
    ensures heard { HasHeardAll seats.old.items closer.old.me.0 closer.new.me.0 }
{
    for seat in seats.iter_mut() {
        hear_number(shared, closer, seat);
    }
}

// The seat hears of another that its number was made.
fn hear_number<T: Served>(
    shared: &Shared<Place<T>, View<T::Plan, T::Step>, Snapshot<T>, OneHistory>,
    closer: &mut Token<T>,
    seat: &mut DeskSeat<T>,
)
    requires desk { (closer.old.table_id ≡ shared.now.table_id) × (shared.now.table_id.words ≡ 3) }
    requires seat { seat.old.desk ≡ shared.now.table_id }
    ensures desk { closer.new.table_id ≡ closer.old.table_id }
    ensures seat { seat.new ≡ seat.old }
    ensures heard { HasHeard seat.old.number closer.old.me.0 closer.new.me.0 }
{
    let messenger = shared.split_seat::<Count>(&mut seat.token);
    shared.join_seat::<Gather>(closer, messenger);
}

// The seat that closes the desk takes in all others.
fn gather<T: Served, B: Allocator>(
    shared: &Shared<Place<T>, View<T::Plan, T::Step>, Snapshot<T>, OneHistory>,
    closer: &mut Token<T>,
    mut seats: Vec<DeskSeat<T>, B>,
)
    requires desk { closer.old.table_id ≡ shared.now.table_id }
    requires words { shared.now.table_id.words ≡ 3 }
    requires seats { All (λ s. s.desk ≡ shared.now.table_id) seats.items }
    ensures desk { closer.new.table_id ≡ closer.old.table_id }
    ensures closer { HasGathered seats.items closer.old.me.0 closer.new.me.0 }
{
    while let Some(seat) = seats.pop() {
        let DeskSeat { number: _, token } = seat;
        shared.join_seat::<Gather>(closer, token);
    }
    seats.destroy_empty();
}

// Ends the table of a desk that is closed.
fn take_object<T: Served, A: Allocator>(
    table: Table<Place<T>, View<T::Plan, T::Step>, Snapshot<T>, OneHistory, A>,
    closer: Token<T>,
) -> T
    requires table { (closer.table_id ≡ table.shared.table_id) × (table.shared.table_id.words ≡ 3) × (table.shared.table_id.slots ≡ 1) }
    requires closer { IsCloser closer.me.0 }
    ensures { IsEnded T.is_legal T.plan T.steps (T.plan table.shared.key.value) closer.me.0.accounts result }
{
    let mut closed = table.close_with(closer);
    let Place { object } = closed.take(SLOT);
    closed.free();
    object
}
