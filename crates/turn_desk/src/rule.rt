//! What the table's words, its slot and its seats mean, and what each kind of step tells.
use atomic_table::{Join, Play, Split, TableRule};
use history::{Entry, Served};
use std::collections::LinkedList;
use std::snapshot::Snapshot;

/// The word of the turn: 0 while nobody has it, `HELD`, or `WANTED` where somebody sleeps until it is free.
pub const TURN: usize = 0;

/// The word that is the length of the history.
pub const FRONT: usize = 1;

/// The word that says how many seats were made.
pub const SEATS: usize = 2;

/// The slot of the object.
pub const SLOT: usize = 0;

pub const FREE: u64 = 0;

pub const HELD: u64 = 1;

pub const WANTED: u64 = 2;

/// The word of seats while the desk is being closed. No count is as large, since at most 1,024 seats are made.
pub const CLOSED: u64 = u32::MAX as u64;

/// The slot's value: the object, which stays there while the holder of the turn works with it.
#[derive(Drop)]
pub struct Place<T> {
    pub object: T,
}

/// A seat's number, with a beginning of the history that has all of its entries.
pub struct Account<S> {
    pub number: u32,
    pub seen: LinkedList<Entry<S>>,
}

/// What a seat at the table knows. No value of it is made.
pub struct View<P, S> {
    pub plan: Option<P>,
    pub seen: LinkedList<Entry<S>>,
    pub heard: LinkedList<Entry<S>>,
    pub accounts: LinkedList<Account<S>>,
    pub holding: Option<LinkedList<Entry<S>>>,
    pub closing: Option<u64>,
    /// No fewer seats were made, as far as it has heard.
    pub fewest: u64,
}

/// One legal history, of which each seat has seen a beginning.
pub struct OneHistory;

impl<T: Served> TableRule<Place<T>, View<T::Plan, T::Step>, Snapshot<T>> for OneHistory {
    ghost use Rattle.turn_desk.specs.Rule.{IsRunningRule};
    ghost use Rattle.turn_desk.specs.Plays.{opener};

    ghost holds = { λ key. IsRunningRule T.is_legal T.plan T.steps (T.plan key.value) };

    ghost first = { λ key. opener (T.plan key.value) };
}

/// Tries the turn: where it was free, the seat has it, with the slot.
pub struct Try;

impl<T: Served> Play<Place<T>, View<T::Plan, T::Step>> for Try {
    ghost use Rattle.turn_desk.specs.Plays.{tried};

    ghost then = { tried T.is_legal T.plan T.steps };
}

/// Says that somebody waits for the turn.
pub struct Mark;

impl<T: Served> Play<Place<T>, View<T::Plan, T::Step>> for Mark {
    ghost use Rattle.turn_desk.specs.Plays.{stayed};

    ghost then = { stayed };
}

/// Loads the front: the seat has seen the whole history.
pub struct Look;

impl<T: Served> Play<Place<T>, View<T::Plan, T::Step>> for Look {
    ghost use Rattle.turn_desk.specs.Plays.{looked};

    ghost then = { looked T.is_legal };
}

/// Enters the entry that the object has taken.
pub struct Enter;

impl<T: Served> Play<Place<T>, View<T::Plan, T::Step>> for Enter {
    ghost use Rattle.turn_desk.specs.Plays.{entering};

    ghost then = { entering T.steps };
}

/// Leaves the turn, and the slot.
pub struct Leave;

impl<T: Served> Play<Place<T>, View<T::Plan, T::Step>> for Leave {
    ghost use Rattle.turn_desk.specs.Plays.{left};

    ghost then = { left };
}

/// Takes the next number, for a seat that is split off then.
pub struct Number;

impl<T: Served> Play<Place<T>, View<T::Plan, T::Step>> for Number {
    ghost use Rattle.turn_desk.specs.Plays.{numbering};

    ghost then = { numbering };
}

/// Opens a seat that closes the desk: no number is taken from then on.
pub struct Close;

impl<T: Served> Play<Place<T>, View<T::Plan, T::Step>> for Close {
    ghost use Rattle.turn_desk.specs.Plays.{closing};

    ghost then = { closing };
}

/// Gives the closing up, and says that no fewer seats were made than the seat has heard of.
pub struct Reopen;

impl<T: Served> Play<Place<T>, View<T::Plan, T::Step>> for Reopen {
    ghost use Rattle.turn_desk.specs.Plays.{opening_again};

    ghost then = { opening_again };
}

/// A seat keeps its first account, and a new one has the others.
pub struct Cut;

impl<P, S> Split<View<P, S>> for Cut {
    ghost use Rattle.turn_desk.specs.Plays.{kept_part, cut_part};

    ghost left = { kept_part };

    ghost right = { cut_part };
}

/// A seat stays as it is, and a messenger knows that this seat's number lies below the count of seats.
pub struct Count;

impl<P, S> Split<View<P, S>> for Count {
    ghost use Rattle.turn_desk.specs.Plays.{whole_part, count_part};

    ghost left = { whole_part };

    ghost right = { count_part };
}

/// A seat takes in another's accounts, and hears what the other has seen, and how many seats it knew of.
pub struct Gather;

impl<P, S> Join<View<P, S>> for Gather {
    ghost use Rattle.std.specs.Prelude.{None};
    ghost use Rattle.turn_desk.specs.Plays.{gathered, bare};

    ghost both = { gathered };

    ghost spent = { bare None None };
}
