//! Seats that are made, that call and that meet, and desks that are closed.

ghost use Rattle.std.specs.Prelude.{◌≡◌, ◌++◌, ◌∷◌, [], All};
ghost use Rattle.std.specs.Option.{option_to_list};
ghost use Rattle.turn_desk.specs.Views.{IsSeatOf};

use crate::counter::{Answer, Ask, Counter};
use history::Served;
use std::alloc::{Allocator, Global};
use std::process::Abort;
use std::sync::Wait;
use turn_desk::{Desk, DeskFault, DeskSeat, MOST_SEATS, SeatList};

/// A desk over a new counter, with its first seat.
pub fn open(rt: &impl Abort, alloc: Global) -> (Desk<Counter>, DeskSeat<Counter>)
    ensures { IsSeatOf result.0 result.1 }
{
    match Desk::new(alloc, Counter::new(alloc, 1_000_000)) {
        Ok(made) => made,
        Err(_) => panic!(rt; "no memory for a desk"),
    }
}

/// A further seat of a desk, made from one of its own.
pub fn further<T: Served, A: Allocator, R: Abort + Wait>(
    rt: &R,
    desk: &Desk<T, A>,
    seat: DeskSeat<T>,
) -> (DeskSeat<T>, DeskSeat<T>)
    requires { IsSeatOf desk.now seat }
    ensures kept { result.0 ≡ seat }
    ensures made { IsSeatOf desk.now result.1 }
{
    let (seat, made) = desk.another(rt, seat);
    match made {
        Ok(next) => (seat, next),
        Err(_) => panic!(rt; "no further seat"),
    }
}

/// A list of no seat, of one or of two.
pub fn listed<T: Served>(
    rt: &impl Abort,
    alloc: Global,
    first: Option<DeskSeat<T>>,
    second: Option<DeskSeat<T>>,
) -> SeatList<T>
    ensures { result ≡ option_to_list first ++ option_to_list second }
{
    let mut seats = Vec::new(alloc);
    if let Some(seat) = first {
        add(rt, &mut seats, seat);
    }
    if let Some(seat) = second {
        add(rt, &mut seats, seat);
    }
    SeatList::from_vec(seats)
}

fn add<T: Served>(rt: &impl Abort, seats: &mut Vec<DeskSeat<T>>, seat: DeskSeat<T>)
    ensures { seats.new.items ≡ seats.old.items ++ seat ∷ [] }
{
    if seats.push(seat).is_err() {
        panic!(rt; "no memory for a list of seats");
    }
}

// Makes seats until the desk refuses one, and so twice as often as it should at most.
fn make_all<T: Served, R: Abort + Wait>(
    rt: &R,
    alloc: Global,
    desk: &Desk<T>,
    first: DeskSeat<T>,
) -> Vec<DeskSeat<T>>
    requires { IsSeatOf desk.now first }
    ensures { All (IsSeatOf desk.now) result.items }
{
    let mut seats = Vec::new(alloc);
    let mut last = first;
    for _ in 0..2 * MOST_SEATS {
        let (back, next) = desk.another(rt, last);
        add(rt, &mut seats, back);
        match next {
            Ok(seat) => last = seat,
            Err(_) => return seats,
        }
    }
    add(rt, &mut seats, last);
    seats
}

// What comes back of a desk that isn't closed, since seats are out.
fn stays_open(
    rt: &impl Abort,
    desk: Desk<Counter>,
    seats: SeatList<Counter>,
) -> (Desk<Counter>, SeatList<Counter>, DeskFault)
    requires { All (IsSeatOf desk) seats }
    ensures desk { result.0 ≡ desk }
    ensures seats { result.1 ≡ seats }
{
    match desk.close(seats) {
        Err(back) => back,
        Ok(_) => panic!(rt; "closed while seats are out"),
    }
}

// A write is read back through another seat before the two meet.
#[test]
fn desk_read_back(rt: HostRuntime) {
    let (desk, first) = open(&rt, rt.alloc());
    let (first, second) = further(&rt, &desk, first);
    let (first, written) = desk.call(&rt, first, &Ask::Add(4));
    let (mut second, read) = desk.call(&rt, second, &Ask::Read);
    let is_read = written == Answer::Sum(4) && read == Answer::Sum(4);
    let are_numbered = first.number() == 0 && second.number() == 1;
    assert!(rt; is_read && are_numbered && desk.front(&mut second) == 1);
}

// A seat that looks again finds what another seat has written since.
#[test]
fn front_follows_later_writes(rt: HostRuntime) {
    let (desk, first) = open(&rt, rt.alloc());
    let (first, mut second) = further(&rt, &desk, first);
    let (first, _) = desk.call(&rt, first, &Ask::Add(4));
    let one = desk.front(&mut second);
    desk.call(&rt, first, &Ask::Add(5));
    let two = desk.front(&mut second);
    assert!(rt; one == 1 && two == 2, "{one}, then {two}");
}

// The number after an old seat's own is taken, so the next seat that it makes has the one after that.
#[test]
fn makes_a_seat_from_an_old_one(rt: HostRuntime) {
    let (desk, first) = open(&rt, rt.alloc());
    let (first, second) = further(&rt, &desk, first);
    let (first, third) = further(&rt, &desk, first);
    assert!(rt; first.number() == 0 && second.number() == 1 && third.number() == 2);
}

// The desk isn't closed without a seat, nor with one of two, and is with both.
#[test]
fn closes_with_all_seats_alone(rt: HostRuntime) {
    let (desk, first) = open(&rt, rt.alloc());
    let nobody = listed(&rt, rt.alloc(), None, None);
    let (desk, _, none_given) = stays_open(&rt, desk, nobody);
    let (first, second) = further(&rt, &desk, first);
    let one = listed(&rt, rt.alloc(), Some(first), None);
    let (desk, one, one_given) = stays_open(&rt, desk, one);
    let mut seats = one.into_vec();
    add(&rt, &mut seats, second);
    let is_closed = desk.close(SeatList::from_vec(seats)).is_ok();
    assert!(rt;
        none_given == DeskFault::SeatsOut { given: 0, made: 1 }
            && one_given == DeskFault::SeatsOut { given: 1, made: 2 }
            && is_closed
    );
}

// Two seats meet, and the closed desk's history has the entries of both.
#[test]
fn meets_and_closes(rt: HostRuntime) {
    let (desk, first) = open(&rt, rt.alloc());
    let (first, second) = further(&rt, &desk, first);
    let (first, _) = desk.call(&rt, first, &Ask::Add(4));
    let (second, refused) = desk.call(&rt, second, &Ask::Add(1_000_000));
    let (mut first, second) = desk.meet(first, second);
    let is_seen = refused == Answer::TooMuch && desk.front(&mut first) == 1;
    let both = listed(&rt, rt.alloc(), Some(second), Some(first));
    let Ok(counter) = desk.close(both) else {
        panic!(rt; "seats are out")
    };
    assert!(rt; is_seen && counter.total() == 4 && counter.count(0) == 1 && counter.count(1) == 0);
}

// The seats are numbered from 0, one after another.
fn are_in_order<T: Served>(seats: &[DeskSeat<T>]) -> bool {
    for (i, seat) in seats.iter().enumerate() {
        if seat.number() as usize != i {
            return false;
        }
    }
    true
}

// After the first seat there are 1,023 more. The next is refused, and the desk is closed with all.
#[test]
fn makes_all_seats(rt: HostRuntime) {
    let (desk, first) = open(&rt, rt.alloc());
    let seats = make_all(&rt, rt.alloc(), &desk, first);
    assert!(rt; seats.len() == 1024 && are_in_order(&seats));
    let is_closed = desk.close(SeatList::from_vec(seats)).is_ok();
    assert!(rt; is_closed);
}
