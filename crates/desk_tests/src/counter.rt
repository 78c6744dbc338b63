//! A counter that stands in for the device: it adds up to a limit, refuses what goes past it, and can be read.

ghost use Rattle.std.specs.Prelude.{◌≡◌, ◌≤◌, [], sum_by};

use history::{Entry, Served};
use std::alloc::{Allocator, Global};

#[derive(Clone, Copy)]
pub enum Ask {
    Add(u64),
    Read,
}

#[derive(Clone, Copy, PartialEq, Eq)]
pub enum Answer {
    Sum(u64),
    TooMuch,
    NoMemory,
}

#[derive(Drop)]
pub struct Counter<A: Allocator = Global> {
    most: u64,
    total: u64,
    steps: Vec<Entry<u64>, A>,
    ghost summed: { total ≡ sum_by (λ e. e.step) steps.items },
    ghost within: { total ≤ most },
}

impl<A: Allocator> Counter<A> {
    /// Nothing was added yet, and so much may be.
    pub fn new(alloc: A, most: u64) -> Counter<A>
        ensures { result.steps.items ≡ [] }
    {
        Counter {
            most,
            total: 0,
            steps: Vec::new(alloc),
        }
    }

    /// How many entries stand under the seat's number.
    pub fn count(&self, seat: u32) -> usize {
        self.steps.iter().filter(|e| e.seat == seat).count()
    }

    /// The sum so far.
    pub fn total(&self) -> u64 {
        self.total
    }
}

impl<A: Allocator> Served for Counter<A> {
    type Plan = u64;

    type Step = u64;

    type Ask = Ask;

    type Answer = Answer;

    ghost use Rattle.std.specs.Prelude.{◌≡◌, ◌+◌, ◌<◌, ◌≤◌, sum_by, Some, None};
    ghost use Rattle.std.proofs.Common.{zero-le};
    ghost use Rattle.desk_tests.specs.declared.counter.Ask.TheVariants.{Add, Read};
    ghost use Rattle.desk_tests.specs.declared.counter.Answer.TheVariants.{Sum, TooMuch, NoMemory};

    ghost plan = { λ c. c.most };

    ghost steps = { λ c. c.steps.items };

    ghost is_legal = { λ most steps. sum_by (λ e. e.step) steps ≤ most };

    ghost answers = { λ most steps ask answer. elim ask [
      | Add n ↦ elim answer [ Sum s ↦ (s ≡ sum_by (λ e. e.step) steps + n) × (s ≤ most) | TooMuch ↦ most < sum_by (λ e. e.step) steps + n | NoMemory ↦ Unit {0} ]
      | Read ↦ elim answer [ Sum s ↦ s ≡ sum_by (λ e. e.step) steps | TooMuch ↦ ⊥ | NoMemory ↦ ⊥ ]
    ] };

    ghost taken = { λ most steps ask answer. elim ask [
      | Add n ↦ elim answer [ Sum s ↦ Some n | TooMuch ↦ None | NoMemory ↦ None ]
      | Read ↦ None
    ] };

    fn handle(&mut self, seat: u32, ask: &Ask) -> Answer {
        match *ask {
            Ask::Read => Answer::Sum(self.total),
            Ask::Add(n) => {
                if n > self.most - self.total {
                    return Answer::TooMuch;
                }
                if self.steps.push(Entry { seat, step: n }).is_err() {
                    return Answer::NoMemory;
                }
                self.total += n;
                Answer::Sum(self.total)
            }
        }
    }

    fn step_count(&self) -> u64 {
        self.steps.len() as u64
    }

    ghost starts = { λ most. zero-le };
}
