ghost use Rattle.std.specs.Prelude.{⊤, ◌≡◌, ◌↔◌, IsTrue, pos, negsuc, ◌+ℤ◌, ◌*ℤ◌, ◌≤ℤ◌};
ghost use Rattle.sample_device.specs.Closures.{limit_of, words_of};
ghost use Rattle.sample_device.specs.Sample.{sample_verdict, sample_told, IsSmall};

use ctrl_calls::{ClusterRow, Judging, Notifies, Relation, Telling, Validates, Verdict};
use ctrl_types::{CtrlValue, Errno};

/// The driver of the sample device. Its closures are plain, so that one function makes the device with them (`own_sample_plan`).
pub enum Sample {}

/// A validator of the sample device.
#[derive(Drop)]
pub enum Judge {
    /// That of autogain and gain.
    OfGain,
    /// That of red and blue.
    OfBalance,
}

impl Judging for Judge {
    ghost callable = { λ _. ⊤ };

    ghost answers = { λ judge row verdict. verdict ≡ sample_verdict (limit_of judge) row };

    fn judge(&self, row: ClusterRow) -> Verdict {
        match self {
            Judge::OfGain => gain_verdict(&row),
            Judge::OfBalance => balance_verdict(&row),
        }
    }
}

/// A notifier of the sample device.
#[derive(Drop)]
pub enum Teller {
    /// That of autogain and gain, and that of red and blue.
    OfPair,
    /// That of the button.
    OfButton,
    /// That of brightness.
    OfBrightness,
}

impl Telling for Teller {
    ghost callable = { λ _. ⊤ };

    ghost answers = { λ teller row word. sample_told (words_of teller) row word };

    fn tell(&self, row: ClusterRow) -> u64 {
        match self {
            Teller::OfPair => pair_word(&row),
            Teller::OfButton => button_word(&row),
            Teller::OfBrightness => brightness_word(&row),
        }
    }
}

impl Validates for Sample {
    type Judge = Judge;

    ghost verdict = { sample_verdict };
}

impl Notifies for Sample {
    type Teller = Teller;

    ghost told = { sample_told };
}

/// What the validator of autogain and gain answers by: a gain of at most 200.
pub const GAIN_LIMIT: Relation = Relation {
    number: 1,
    bounds: [200, 0, 0, 0],
};

/// What the validator of red and blue answers by: a sum of at most 384.
pub const BALANCE_LIMIT: Relation = Relation {
    number: 2,
    bounds: [384, 0, 0, 0],
};

/// What the notifiers of autogain and gain and of red and blue answer by: 256 times the first value and the second.
pub const PAIR_WORDS: Relation = Relation {
    number: 11,
    bounds: [0, 0, 0, 0],
};

/// What the button's notifier answers by: a word of 0 to 1000.
pub const BUTTON_WORDS: Relation = Relation {
    number: 12,
    bounds: [0, 1000, 0, 0],
};

/// What the notifier of brightness answers by: the value and 64.
pub const BRIGHTNESS_WORDS: Relation = Relation {
    number: 13,
    bounds: [0, 0, 0, 0],
};

/// What the validator of autogain and gain makes of any row, the values of the two in this order: a row of two values is accepted
/// with the lesser of 200 and the second in the second's place, and every other row as it is.
pub fn gain_verdict(row: &ClusterRow) -> Verdict
    ensures { result ≡ sample_verdict GAIN_LIMIT row.now }
{
    match row.values() {
        [CtrlValue::Number(_), CtrlValue::Number(gain)] if *gain > GAIN_LIMIT.bounds[0] => {
            Verdict::Accept(row.with(1, CtrlValue::Number(GAIN_LIMIT.bounds[0])))
        }
        _ => Verdict::Accept(*row),
    }
}

/// What the validator of red and blue makes of any row, the values of the two: a row of two values is refused with EINVAL (22) where
/// their sum is above 384; every other row is accepted as it is.
pub fn balance_verdict(row: &ClusterRow) -> Verdict
    ensures { result ≡ sample_verdict BALANCE_LIMIT row.now }
{
    let [CtrlValue::Number(red), CtrlValue::Number(blue)] = row.values() else {
        return Verdict::Accept(*row);
    };
    // the sum of any two values fits
    let sum = i128::from(*red) + i128::from(*blue);
    if sum > i128::from(BALANCE_LIMIT.bounds[0]) {
        return Verdict::Refuse(Errno::EINVAL);
    }
    Verdict::Accept(*row)
}

/// The word that the notifiers of autogain and gain and of red and blue say of a row of two values: 256 times the first and the
/// second. Of a row of another length, and of a value below 0 or above 2147483647, they say 0.
pub fn pair_word(row: &ClusterRow) -> u64
    ensures { sample_told PAIR_WORDS row.now result }
{
    match row.values() {
        [CtrlValue::Number(first), CtrlValue::Number(second)] => joined(*first, *second),
        _ => 0,
    }
}

fn joined(first: i64, second: i64) -> u64
    ensures { IsSmall first → IsSmall second → pos result ≡ pos 256 *ℤ first +ℤ second }
{
    if !is_small(first) {
        return 0;
    }
    if !is_small(second) {
        return 0;
    }
    256 * first as u64 + second as u64
}

fn is_small(value: i64) -> bool
    ensures { IsTrue result ↔ IsSmall value }
{
    value >= 0 && value <= 2_147_483_647
}

/// The word that the button's notifier says of any row.
pub fn button_word(row: &ClusterRow) -> u64
    ensures { sample_told BUTTON_WORDS row.now result }
{
    let _ = row;
    1
}

/// The word that the notifier of brightness says of a row of one value: the value and 64. Of a row of another length, and of a
/// value below -64, it says 0.
pub fn brightness_word(row: &ClusterRow) -> u64
    ensures { sample_told BRIGHTNESS_WORDS row.now result }
{
    match row.values() {
        [CtrlValue::Number(value)] => shifted(*value),
        _ => 0,
    }
}

fn shifted(value: i64) -> u64
    ensures { negsuc 63 ≤ℤ value → pos result ≡ value +ℤ pos 64 }
{
    if value < -64 {
        return 0;
    }
    // the greatest value and 64 fit a word, though not an i64
    (i128::from(value) + 64) as u64
}
