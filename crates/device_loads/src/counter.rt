//! What is called: a counter, nearly as large as the sample device.

ghost use Rattle.std.specs.Prelude.{◌≡◌, ◌+◌, [], IfOk, vec_len};

use crate::calls::Question;
use history::{Entry, Served};
use std::alloc::{AllocError, Allocator, Global};

/// What the counter is asked.
#[derive(Clone, Copy)]
pub enum Ask {
    /// To go on by 1.
    Add,
    /// Where it is.
    Read,
}

/// What it answers.
#[derive(Clone, Copy)]
pub enum Answer {
    /// Where it is then.
    At(u64),
    /// It can't go on: there is no memory for a further step.
    NoMemory,
}

/// A step: it went on by 1.
#[derive(Clone, Copy)]
pub struct One;

/// A counter of 856 bytes, which goes on by 1, and can be read.
#[derive(Drop)]
pub struct Counter<A: Allocator = Global> {
    start: u32,
    // what it has of a device besides
    others: [u64; 103],
    steps: Vec<Entry<One>, A>,
}

impl<A: Allocator> Counter<A> {
    /// It is at its start, and has room for so many steps, of 4 bytes each.
    ///
    /// - `alloc`: where the steps lie.
    /// - `start`: where it begins.
    /// - `room`: how many steps it can take before it asks for more memory.
    pub fn new(alloc: A, start: u32, room: usize) -> Result<Counter<A>, AllocError>
        ensures { IfOk result (λ counter. counter.steps.items ≡ []) }
    {
        Ok(Counter {
            start,
            others: [0; 103],
            steps: Vec::with_capacity(alloc, room)?,
        })
    }

    // Where it is.
    fn at(&self) -> u64
        ensures { result ≡ self.now.start + vec_len self.now.steps }
    {
        u64::from(self.start) + self.steps.len() as u64
    }
}

impl<A: Allocator> Served for Counter<A> {
    type Plan = u32;

    type Step = One;

    type Ask = Ask;

    type Answer = Answer;

    ghost use Rattle.std.specs.Prelude.{◌≡◌, ◌+◌, length, Some, None};
    ghost use Rattle.device_loads.specs.declared.counter.Ask.TheVariants.{Add, Read};
    ghost use Rattle.device_loads.specs.declared.counter.Answer.TheVariants.{At, NoMemory};

    ghost plan = { λ c. c.start };

    ghost steps = { λ c. c.steps.items };

    // any number of steps can come about
    ghost is_legal = { λ start steps. Unit {0} };

    ghost answers = { λ start steps ask answer. elim ask [
      | Add ↦ elim answer [ At n ↦ n ≡ start + length steps + 1 | NoMemory ↦ Unit {0} ]
      | Read ↦ elim answer [ At n ↦ n ≡ start + length steps | NoMemory ↦ ⊥ ]
    ] };

    ghost taken = { λ start steps ask answer. elim ask [
      | Add ↦ elim answer [ At n ↦ Some (record {}) | NoMemory ↦ None ]
      | Read ↦ None
    ] };

    fn handle(&mut self, seat: u32, ask: &Ask) -> Answer {
        match *ask {
            Ask::Read => Answer::At(self.at()),
            Ask::Add => {
                if self.steps.push(Entry { seat, step: One }).is_err() {
                    return Answer::NoMemory;
                }
                Answer::At(self.at())
            }
        }
    }

    fn step_count(&self) -> u64 {
        self.steps.len() as u64
    }

    ghost starts = { λ start. tt };
}

impl<A: Allocator> Question<Counter<A>> for Ask {
    fn ask(&self) -> &Ask {
        self
    }

    fn number(&self, answer: Answer) -> Option<u64> {
        match answer {
            Answer::At(number) => Some(number),
            Answer::NoMemory => None,
        }
    }
}
