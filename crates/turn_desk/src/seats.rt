//! The seats that are handed to a desk that is to be closed.
ghost use Rattle.std.specs.Prelude.{◌≡◌, ◌==◌, ◌≤◌, length, vec_len};

use crate::seat::{DeskSeat, MOST_SEATS};
use history::Served;
use std::alloc::{Allocator, Global};
use std::marker::Model;

/// Seats, in any order, and no more than a desk can have.
#[derive(Drop)]
pub struct SeatList<T: Served, B: Allocator = Global> {
    seats: Vec<DeskSeat<T>, B>,
}

impl<T: Served, B: Allocator> Model for SeatList<T, B> {
    ghost use Rattle.std.specs.Prelude.{List};
    ghost use Rattle.turn_desk.specs.Views.{SeatView};

    ghost Value = { List (SeatView T.Plan T.Step) };

    ghost use Rattle.std.specs.Prelude.{◌≤◌, length};
    ghost use Rattle.turn_desk.specs.declared.seat.TheConstants.{MOST_SEATS};

    ghost view = { λ l. l.seats.items };

    ghost invariant = { λ l. length l.seats.items ≤ MOST_SEATS };
}

impl<T: Served, B: Allocator> SeatList<T, B> {
    /// These seats, at most 1,024. It takes no memory.
    pub fn from_vec(seats: Vec<DeskSeat<T>, B>) -> Self
        requires { vec_len seats ≤ MOST_SEATS }
        ensures { result ≡ seats.items }
    {
        SeatList { seats }
    }

    /// The seats, in the same order.
    pub fn into_vec(self) -> Vec<DeskSeat<T>, B>
        ensures seats { result.items ≡ self }
        ensures few { vec_len result ≤ MOST_SEATS }
    {
        let SeatList { seats } = self;
        seats
    }

    /// How many there are.
    pub fn len(&self) -> usize
        ensures len { result ≡ length self.now }
        ensures few { result ≤ MOST_SEATS }
    {
        self.seats.len()
    }

    /// Whether there is none.
    pub fn is_empty(&self) -> bool
        ensures { result ≡ (length self.now == 0) }
    {
        self.seats.is_empty()
    }
}
