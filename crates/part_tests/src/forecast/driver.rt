//! A driver whose validators refuse two values where the second is less than the first.

ghost use Rattle.std.specs.Prelude.{⊤, ◌≡◌};
ghost use Rattle.part_tests.specs.Verdicts.{ordered as ordered_of, ordered_verdict};

use ctrl_calls::{ClusterRow, Judging, Notifies, Telling, Validates, Verdict};
use ctrl_types::{CtrlValue, Errno};

/// The driver. It tells nobody anything.
pub enum Ordered {}

#[derive(Drop)]
pub struct Judge;

impl Judging for Judge {
    ghost callable = { λ _. ⊤ };

    ghost answers = { λ _ row verdict. verdict ≡ ordered_of row };

    fn judge(&self, row: ClusterRow) -> Verdict {
        judge_row(&row)
    }
}

fn judge_row(row: &ClusterRow) -> Verdict
    ensures { result ≡ ordered_of row.now }
{
    if row.len() != 2 {
        return Verdict::Accept(*row);
    }
    match (row.value(0), row.value(1)) {
        (CtrlValue::Number(first), CtrlValue::Number(second)) if second < first => {
            Verdict::Refuse(Errno::ERANGE)
        }
        _ => Verdict::Accept(*row),
    }
}

#[derive(Drop)]
pub struct Silent;

impl Telling for Silent {
    ghost callable = { λ _. ⊤ };

    ghost answers = { λ _ _ _. ⊤ };

    fn tell(&self, _row: ClusterRow) -> u64 {
        0
    }
}

impl Validates for Ordered {
    type Judge = Judge;

    ghost verdict = { ordered_verdict };
}

impl Notifies for Ordered {
    type Teller = Silent;

    ghost told = { λ _ _ _. ⊤ };
}
