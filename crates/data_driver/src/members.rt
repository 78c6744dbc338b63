ghost use Rattle.std.specs.Prelude.{◌≡◌, ◌<◌, [], ◌∷◌, length, IfSome};
ghost use Rattle.data_driver.specs.Limits.{number_at, number_in};
ghost use Rattle.data_driver.specs.Members.{missing, place_of};

use ctrl_calls::ClusterRow;
use ctrl_types::CtrlValue;
use thiserror::Error;

/// What is wrong with a limit or a word: it names a place outside its cluster (of this project).
#[derive(Clone, Copy, Debug, PartialEq, Eq, Error)]
#[error("there is no member {place} in a cluster of size {members}")]
pub struct NoMember {
    /// The place that is named, the master's being 0.
    pub place: u8,
    /// How many members the cluster has.
    pub members: usize,
}

// The number of the member at a place, where the row has it and it is no array.
pub(crate) fn member(row: &ClusterRow, place: u8) -> Option<i64>
    ensures value { result ≡ number_at row.now place }
    ensures within { IfSome result (λ _. place < length row.now) }
{
    let place = usize::from(place);
    if place < row.len() {
        number_of(row.value(place))
    } else {
        None
    }
}

// The number that a value is; an array has none.
fn number_of(value: CtrlValue) -> Option<i64>
    ensures { result ≡ number_in value }
{
    match value {
        CtrlValue::Number(number) => Some(number),
        CtrlValue::Bytes(_) => None,
    }
}

// A relation's bound as a place.
pub(crate) fn place_in(bound: i64) -> Option<u8>
    ensures { result ≡ place_of bound }
{
    if bound < 0 || bound > 255 {
        return None;
    }
    Some(bound as u8)
}

// The fault of naming a place, where the cluster doesn't have it.
pub(crate) fn missing_one(members: usize, place: u8) -> Option<NoMember>
    ensures { result ≡ missing members (place ∷ []) }
{
    if usize::from(place) < members {
        return None;
    }
    Some(NoMember { place, members })
}

// That of naming two places, the first of them first.
pub(crate) fn missing_of_two(members: usize, one: u8, other: u8) -> Option<NoMember>
    ensures { result ≡ missing members (one ∷ other ∷ []) }
{
    if usize::from(one) < members {
        return missing_one(members, other);
    }
    Some(NoMember {
        place: one,
        members,
    })
}
