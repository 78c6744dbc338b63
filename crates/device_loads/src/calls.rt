//! One ask again and again, at a seat of a desk and under a lock.

ghost use Rattle.std.specs.Prelude.{◌≡◌};
ghost use Rattle.turn_desk.specs.Views.{IsSeatOf};

use history::Served;
use std::sync::{Mutex, Wait};
use turn_desk::{Desk, DeskSeat};

/// What is asked again and again.
pub trait Question<T: Served> {
    /// The ask.
    fn ask(&self) -> &T::Ask;

    /// The number that the answer says, if it says one.
    fn number(&self, answer: T::Answer) -> Option<u64>;
}

/// What came of calls.
#[derive(Clone, Copy)]
pub struct Tally {
    /// How many were answered by a number.
    pub count: u64,
    /// Those numbers, added up, up to 2^64.
    pub sum: u64,
}

impl Tally {
    /// What came of no call.
    pub fn nothing() -> Tally {
        Tally { count: 0, sum: 0 }
    }

    /// With a further answer: `number` is what it says, if it says a number.
    pub fn with(self, number: Option<u64>) -> Tally {
        match number {
            Some(number) => self.and(Tally {
                count: 1,
                sum: number,
            }),
            None => self,
        }
    }

    /// With what came of other calls.
    pub fn and(self, other: Tally) -> Tally {
        Tally {
            count: self.count.wrapping_add(other.count),
            sum: self.sum.wrapping_add(other.sum),
        }
    }
}

/// Makes calls at a seat, and answers what came of them.
///
/// - `rt`: what waits for the turn.
/// - `desk`: whose object is called.
/// - `question`: what is asked each time.
/// - `calls`: how often.
/// - `seat`: one of the desk's.
pub fn call_seated<T: Served, Q: Question<T>, R: Wait>(
    rt: &R,
    desk: &Desk<T>,
    question: &Q,
    calls: u32,
    seat: DeskSeat<T>,
) -> Tally
    requires { IsSeatOf desk.now seat }
{
    let mut tally = Tally::nothing();
    let mut seat = seat;
    for _ in 0..calls {
        let (back, answer) = desk.call(rt, seat, question.ask());
        seat = back;
        tally = tally.with(question.number(answer));
    }
    tally
}

/// Looks from a seat how many steps there are, and answers what came of that.
///
/// - `desk`: whose object has the steps.
/// - `calls`: how often.
/// - `seat`: one of the desk's.
pub fn look_seated<T: Served>(desk: &Desk<T>, calls: u32, mut seat: DeskSeat<T>) -> Tally
    requires { IsSeatOf desk.now seat }
{
    let mut tally = Tally::nothing();
    for _ in 0..calls {
        tally = tally.with(Some(desk.front(&mut seat)));
    }
    tally
}

/// Makes calls under the lock, and answers what came of them.
///
/// - `rt`: what waits for the lock.
/// - `object`: what is called.
/// - `question`: what is asked each time.
/// - `calls`: how often.
/// - `seat`: the number under which it is asked.
pub fn call_locked<T: Served, Q: Question<T>, R: Wait>(
    rt: &R,
    object: &Mutex<T>,
    question: &Q,
    calls: u32,
    seat: u32,
) -> Tally {
    let mut tally = Tally::nothing();
    for _ in 0..calls {
        let answer = object.lock(rt).handle(seat, question.ask());
        tally = tally.with(question.number(answer));
    }
    tally
}

/// Looks under the lock how many steps there are, and answers what came of that.
///
/// - `rt`: what waits for the lock.
/// - `object`: what has the steps.
/// - `calls`: how often.
pub fn look_locked<T: Served, R: Wait>(rt: &R, object: &Mutex<T>, calls: u32) -> Tally {
    let mut tally = Tally::nothing();
    for _ in 0..calls {
        tally = tally.with(Some(object.lock(rt).step_count()));
    }
    tally
}
