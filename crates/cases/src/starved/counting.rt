//! A driver whose closures count how often they are called.

ghost use Rattle.std.specs.Prelude.{⊤, ◌≡◌};
ghost use Rattle.data_driver.specs.Data.{data_told, data_verdict};
ghost use Rattle.data_driver.specs.Limits.{verdict_of};
ghost use Rattle.data_driver.specs.Words.{word_of};

use ctrl_calls::{
    ClusterRow, Judging, Notifier, Notifies, Telling, Validates, Validator, Verdict, Work,
};
use data_driver::{Data, Limit, Word};
use std::alloc::{AllocError, Global};
use std::sync::Arc;
use std::sync::atomic::{AtomicU64, Ordering};

/// The driver: as that of a device's file, whose validators judge by limits and whose notifiers say words; and they count.
pub enum Counting {}

/// A validator, and how often those of its device were asked.
#[derive(Drop)]
pub struct Judge {
    limit: Limit,
    asked: Arc<AtomicU64>,
}

impl Judging for Judge {
    ghost callable = { λ _. ⊤ };

    ghost answers = { λ judge row verdict. verdict ≡ verdict_of judge.limit row };

    fn judge(&self, row: ClusterRow) -> Verdict {
        self.asked.fetch_add(1, Ordering::SeqCst);
        self.limit.verdict(&row)
    }
}

/// A notifier, and how often those of its device were told.
#[derive(Drop)]
pub struct Teller {
    word: Word,
    told: Arc<AtomicU64>,
}

impl Telling for Teller {
    ghost callable = { λ _. ⊤ };

    ghost answers = { λ teller row word. word ≡ word_of teller.word row };

    fn tell(&self, row: ClusterRow) -> u64 {
        self.told.fetch_add(1, Ordering::SeqCst);
        self.word.told(&row)
    }
}

impl Validates for Counting {
    type Judge = Judge;

    ghost verdict = { data_verdict };
}

impl Notifies for Counting {
    type Teller = Teller;

    ghost told = { data_told };
}

/// How often the closures of one device were called.
#[derive(Drop)]
pub struct Counts {
    asked: Arc<AtomicU64>,
    told: Arc<AtomicU64>,
}

impl Counts {
    /// Never.
    pub fn new(alloc: Global) -> Result<Counts, AllocError> {
        Ok(Counts {
            asked: Arc::new(alloc, AtomicU64::new(0))?,
            told: Arc::new(alloc, AtomicU64::new(0))?,
        })
    }

    /// So often until now.
    pub fn calls(&self) -> Work {
        Work {
            asked: self.asked.load(Ordering::SeqCst),
            told: self.told.load(Ordering::SeqCst),
        }
    }

    /// A validator as the given one, but that it counts here.
    pub fn validator(
        &self,
        of: Option<&Validator<Data>>,
    ) -> Result<Option<Validator<Counting>>, AllocError> {
        let Some(validator) = of else {
            return Ok(None);
        };
        let Some(limit) = Limit::of(&validator.relation()) else {
            return Ok(None);
        };
        let asked = self.asked.clone()?;
        Ok(Some(Validator::new(limit.relation(), Judge { limit, asked })))
    }

    /// A notifier as the given one, but that it counts here.
    pub fn notifier(
        &self,
        of: Option<&Notifier<Data>>,
    ) -> Result<Option<Notifier<Counting>>, AllocError> {
        let Some(notifier) = of else {
            return Ok(None);
        };
        let Some(word) = Word::of(&notifier.relation()) else {
            return Ok(None);
        };
        let told = self.told.clone()?;
        Ok(Some(Notifier::new(word.relation(), Teller { word, told })))
    }
}
