//! What limits make of a row, and the numbers that they compare.

ghost use Rattle.std.specs.Prelude.{◌≡◌, ◌<◌, pos, negsuc, ◌≤ℤ◌, length};
ghost use Rattle.data_driver.specs.Limits.{number_at, limited_to as limited_to_of, least, lesser as lesser_of, lowered_to as lowered_to_of, product as product_of, refused_above as refused_above_of, refused_while as refused_while_of, sum_of_values as total_of, with_margin as with_margin_of};

use crate::limit::Excess;
use crate::members::member;
use ctrl_calls::{ClusterRow, Verdict};
use ctrl_types::{CtrlValue, Errno};

// All numbers together: eight of 64 bits fit. An array adds nothing.
pub(crate) fn sum_of_values(row: &ClusterRow) -> i128
    ensures { result ≡ total_of row.now }
{
    let mut sum = 0i128;
    for place in 0..row.len() {
        sum += i128::from(row.value(place).number());
    }
    sum
}

// One value times another, which fits.
pub(crate) fn product(first: Option<i64>, second: Option<i64>) -> Option<i128>
    ensures { result ≡ product_of first second }
{
    match (first, second) {
        (Some(first), Some(second)) => Some(i128::from(first) * i128::from(second)),
        _ => None,
    }
}

pub(crate) fn with_margin(value: Option<i64>, margin: i64) -> Option<i128>
    ensures { result ≡ with_margin_of value margin }
{
    match value {
        Some(value) => Some(i128::from(value) + i128::from(margin)),
        None => None,
    }
}

pub(crate) fn refused_above(number: Option<i128>, most: Option<i128>, row: &ClusterRow) -> Verdict
    ensures { result ≡ refused_above_of number most row.now }
{
    match (number, most) {
        (Some(number), Some(most)) if number <= most => Verdict::Accept(*row),
        _ => Verdict::Refuse(Errno::EINVAL),
    }
}

// The value at the place is at most this: the row is refused, or the value lowered.
pub(crate) fn limited_to(excess: Excess, place: u8, most: Option<i128>, row: &ClusterRow) -> Verdict
    ensures { result ≡ limited_to_of excess place (number_at row.now place) most row.now }
{
    let value = member(row, place);
    match excess {
        Excess::Refused => refused_above(value.map(i128::from), most, row),
        Excess::Lowered => lowered_to(place, value, most, row),
    }
}

fn lowered_to(place: u8, value: Option<i64>, most: Option<i128>, row: &ClusterRow) -> Verdict
    requires { value ≡ number_at row.now place }
    ensures { result ≡ lowered_to_of place value most row.now }
{
    match (value, most) {
        (Some(value), Some(most)) if most >= i128::from(i64::MIN) => {
            Verdict::Accept(row.with(usize::from(place), CtrlValue::Number(lesser(value, most))))
        }
        _ => Verdict::Refuse(Errno::EINVAL),
    }
}

// The lesser of two. It fits, since the most isn't below every value.
fn lesser(value: i64, most: i128) -> i64
    requires { least ≤ℤ most }
    ensures { result ≡ lesser_of value most }
{
    if i128::from(value) <= most {
        value
    } else {
        most as i64
    }
}

pub(crate) fn refused_while(
    value: Option<i64>,
    most: i64,
    other: Option<i64>,
    when: i64,
    row: &ClusterRow,
) -> Verdict
    ensures { result ≡ refused_while_of value most other when row.now }
{
    match (value, other) {
        (Some(value), Some(other)) => {
            if other == when && value > most {
                return Verdict::Refuse(Errno::EINVAL);
            }
            Verdict::Accept(*row)
        }
        _ => Verdict::Refuse(Errno::EINVAL),
    }
}
