//! Closures that are limits and words as data, and count their calls, each for itself; notifiers write down in which order they are told, too.

ghost use Rattle.std.specs.Prelude.{⊤, ◌≡◌};
ghost use Rattle.data_driver.specs.Data.{data_told, data_verdict};
ghost use Rattle.data_driver.specs.Limits.{verdict_of};
ghost use Rattle.data_driver.specs.Words.{word_of};

use ctrl_calls::{
    Calls, ClusterRow, Judging, Notifier, Notifies, Telling, Validates, Validator, Verdict,
};
use data_driver::{Limit, Word};
use std::alloc::{AllocError, Global};
use std::sync::Arc;
use std::sync::atomic::{AtomicU64, Ordering};

/// The driver: validators judge by limits, notifiers say words, as those of `data_driver` do.
pub enum Counting {}

/// A validator, and how often it was asked.
#[derive(Drop)]
pub struct Judge {
    limit: Limit,
    asked: Arc<AtomicU64>,
}

impl Judging for Judge {
    ghost callable = { λ _. ⊤ };

    ghost answers = { λ judge row verdict. verdict ≡ verdict_of judge.limit row };

    fn judge(&self, row: ClusterRow) -> Verdict {
        self.asked.fetch_add(1, Ordering::SeqCst);
        self.limit.verdict(&row)
    }
}

/// A notifier, and how often it was told; its digit, and the digits of all that were told, in their order.
#[derive(Drop)]
pub struct Teller {
    word: Word,
    told: Arc<AtomicU64>,
    digit: u64,
    order: Arc<AtomicU64>,
}

impl Telling for Teller {
    ghost callable = { λ _. ⊤ };

    ghost answers = { λ teller row word. word ≡ word_of teller.word row };

    fn tell(&self, row: ClusterRow) -> u64 {
        self.told.fetch_add(1, Ordering::SeqCst);
        let before = self.order.load(Ordering::SeqCst).wrapping_mul(10);
        self.order
            .store(before.wrapping_add(self.digit), Ordering::SeqCst);
        self.word.told(&row)
    }
}

impl Validates for Counting {
    type Judge = Judge;

    ghost verdict = { data_verdict };
}

impl Notifies for Counting {
    type Teller = Teller;

    ghost told = { data_told };
}

/// How often the two closures of a cluster were called, the digit of its notifier, and the digits of all notifiers that were told.
#[derive(Drop)]
pub struct Counter {
    asked: Arc<AtomicU64>,
    told: Arc<AtomicU64>,
    digit: u64,
    order: Arc<AtomicU64>,
}

impl Counter {
    /// Zeros, of the cluster whose notifier writes this digit there.
    pub fn new(alloc: Global, digit: u64, order: &Arc<AtomicU64>) -> Result<Counter, AllocError> {
        Ok(Counter {
            asked: Arc::new(alloc, AtomicU64::new(0))?,
            told: Arc::new(alloc, AtomicU64::new(0))?,
            digit,
            order: order.clone()?,
        })
    }

    /// The digits of all notifiers that were told since the last look, those of the other clusters among them, in their order.
    pub fn take_order(&self) -> u64 {
        self.order.swap(0, Ordering::SeqCst)
    }

    /// How often the validator was asked and the notifier told.
    pub fn calls(&self) -> (u64, u64) {
        (
            self.asked.load(Ordering::SeqCst),
            self.told.load(Ordering::SeqCst),
        )
    }

    /// The closures of a cluster, which count their calls here: a notifier that says the word, and a validator where there is a limit.
    pub fn calls_by(
        &self,
        limit: Option<Limit>,
        word: Word,
    ) -> Result<Calls<Counting>, AllocError> {
        let validator = match limit {
            Some(limit) => Some(validator(limit, self.asked.clone()?)),
            None => None,
        };
        Ok(Calls {
            validator,
            notifier: Some(self.notifier(word)?),
        })
    }

    fn notifier(&self, word: Word) -> Result<Notifier<Counting>, AllocError> {
        let teller = Teller {
            word,
            told: self.told.clone()?,
            digit: self.digit,
            order: self.order.clone()?,
        };
        Ok(Notifier::new(word.relation(), teller))
    }
}

fn validator(limit: Limit, asked: Arc<AtomicU64>) -> Validator<Counting> {
    Validator::new(limit.relation(), Judge { limit, asked })
}
