ghost use Rattle.std.specs.Prelude.{⊤, ◌≡◌, Some, None, IfOk, IfErr};
ghost use Rattle.std.specs.Option.{option_map};
ghost use Rattle.data_driver.specs.Data.{data_told, data_verdict, places_named};
ghost use Rattle.data_driver.specs.Limits.{verdict_of};
ghost use Rattle.data_driver.specs.Members.{missing};
ghost use Rattle.data_driver.specs.Relations.{limit_relation, word_relation};
ghost use Rattle.data_driver.specs.Words.{word_of};

use crate::limit::Limit;
use crate::members::NoMember;
use crate::word::Word;
use ctrl_calls::{
    Calls, ClusterRow, Judging, Notifier, Notifies, Telling, Validates, Validator, Verdict,
};

/// The driver of a device that is described by data: each validator is a limit, each notifier a word. It has no value.
pub enum Data {}

/// A validator: the limit that it judges by.
#[derive(Drop)]
pub struct Judge {
    limit: Limit,
}

impl Judging for Judge {
    ghost callable = { λ _. ⊤ };

    ghost answers = { λ judge row verdict. verdict ≡ verdict_of judge.limit row };

    fn judge(&self, row: ClusterRow) -> Verdict {
        self.limit.verdict(&row)
    }
}

/// A notifier: the word that it says.
#[derive(Drop)]
pub struct Teller {
    word: Word,
}

impl Telling for Teller {
    ghost callable = { λ _. ⊤ };

    ghost answers = { λ teller row word. word ≡ word_of teller.word row };

    fn tell(&self, row: ClusterRow) -> u64 {
        self.word.told(&row)
    }
}

impl Validates for Data {
    type Judge = Judge;

    ghost verdict = { data_verdict };
}

impl Notifies for Data {
    type Teller = Teller;

    ghost told = { data_told };
}

/// The calls of a cluster of so many members (Linux driver API, "V4L2 Controls", "Control Clusters"): a validator by the limit and a notifier
/// by the word, each where there is one. A cluster without a limit takes each row as it is.
///
/// - `members`: how many members the cluster has, 1 to 8; nothing compares it with the cluster that the calls are given to.
/// - `limit`: what the validator holds rows to.
/// - `word`: what the notifier says of rows.
///
/// Refused where the limit, or else the word, names a place that the cluster doesn't have; the fault has the first such place.
pub fn data_calls(
    members: usize,
    limit: Option<Limit>,
    word: Option<Word>,
) -> Result<Calls<Data>, NoMember>
    ensures fitting { IfOk result (λ _. missing members (places_named limit word) ≡ None) }
    ensures ok { IfOk result (λ calls. calls ≡ record { validator = option_map limit_relation limit; notifier = option_map word_relation word }) }
    ensures err { IfErr result (λ fault. missing members (places_named limit word) ≡ Some fault) }
{
    if let Some(fault) = first_fault(members, limit, word) {
        return Err(fault);
    }
    Ok(Calls {
        validator: validator_of(limit),
        notifier: notifier_of(word),
    })
}

fn first_fault(members: usize, limit: Option<Limit>, word: Option<Word>) -> Option<NoMember>
    ensures { result ≡ missing members (places_named limit word) }
{
    if let Some(limit) = limit {
        if let Some(fault) = limit.refusal(members) {
            return Some(fault);
        }
    }
    match word {
        Some(word) => word.refusal(members),
        None => None,
    }
}

fn validator_of(limit: Option<Limit>) -> Option<Validator<Data>>
    ensures { result ≡ option_map limit_relation limit }
{
    match limit {
        Some(limit) => Some(Validator::new(limit.relation(), Judge { limit })),
        None => None,
    }
}

fn notifier_of(word: Option<Word>) -> Option<Notifier<Data>>
    ensures { result ≡ option_map word_relation word }
{
    match word {
        Some(word) => Some(Notifier::new(word.relation(), Teller { word })),
        None => None,
    }
}
