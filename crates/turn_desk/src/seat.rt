//! Seats, as their callers see them, and what the desk refuses.
ghost use Rattle.std.specs.Prelude.{◌≡◌};

use crate::rule::{Place, View};
use atomic_table::Seat;
use history::Served;
use std::marker::Model;
use thiserror::Error;

/// The most seats of one desk.
pub const MOST_SEATS: u32 = 1024;

/// A seat at the table.
pub type Token<T> = Seat<Place<T>, View<<T as Served>::Plan, <T as Served>::Step>>;

/// What the desk refuses.
#[derive(Clone, Copy, Debug, PartialEq, Eq, Error)]
pub enum DeskFault {
    /// Fault 1: as many seats were made as a desk can have.
    #[error("all seats are taken")]
    SeatsFull,

    /// Fault 2: the desk can't be closed, since not all of its seats were given.
    #[error("{given} of {made} seats were given")]
    SeatsOut {
        /// How many seats were given.
        given: u32,
        /// How many seats the desk has made, at most 1,024.
        made: u32,
    },

    /// Fault 3: there was no memory.
    #[error("out of memory")]
    Memory,
}

/// A caller's place at one desk. It can go to another thread, and each call takes it and gives it back.
#[derive(Drop)]
pub struct DeskSeat<T: Served> {
    pub(crate) number: u32,
    pub(crate) token: Token<T>,
}

impl<T: Served> Model for DeskSeat<T> {
    ghost use Rattle.turn_desk.specs.Views.{SeatView};

    ghost Value = { SeatView T.Plan T.Step };

    ghost use Rattle.turn_desk.specs.Seated.{seat_view, IsSeated};

    ghost view = { λ s. seat_view s.number s.token };

    ghost invariant = { λ s. IsSeated s.number s.token };
}

impl<T: Served> DeskSeat<T> {
    /// Its number, from 0, under which its entries stand in the history.
    pub fn number(&self) -> u32
        ensures { result ≡ self.now.number }
    {
        self.number
    }
}
