//! What words say of values.

ghost use Rattle.std.specs.Prelude.{◌≡◌, ◌<◌, ◌^◌};
ghost use Rattle.data_driver.specs.Words.{joined_word as joined_word_of, low_bits as low_bits_of, plus as plus_of};

pub(crate) fn joined_word(first: Option<i64>, second: Option<i64>) -> u64
    ensures { result ≡ joined_word_of first second }
{
    match (first, second) {
        (Some(first), Some(second)) => 256 * low_bits(first) + low_bits(second),
        _ => 0,
    }
}

fn low_bits(value: i64) -> u64
    ensures value { result ≡ low_bits_of value }
    ensures limit { result < 2 ^ 32 }
{
    value.rem_euclid(4_294_967_296) as u64
}

pub(crate) fn plus(value: Option<i64>, more: i64) -> u64
    ensures { result ≡ plus_of value more }
{
    let Some(value) = value else {
        return 0;
    };
    let sum = i128::from(value) + i128::from(more);
    if sum < 0 {
        return 0;
    }
    sum as u64
}
