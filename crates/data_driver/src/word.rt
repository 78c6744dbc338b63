ghost use Rattle.std.specs.Prelude.{◌≡◌, Some};
ghost use Rattle.data_driver.specs.Members.{missing};
ghost use Rattle.data_driver.specs.Relations.{constant as constant_of, joining as joining_of, plus_of, told_word, word_relation};
ghost use Rattle.data_driver.specs.Words.{word_of, word_places};

use crate::members::{NoMember, member, missing_of_two, missing_one, place_in};
use crate::telling::{joined_word, plus};
use ctrl_calls::{ClusterRow, Relation};

/// What a notifier says of a row, as data (Linux driver API, "V4L2 Controls", "Adding Notify Callbacks"; that a word is answered, and which,
/// is of this project). A member is named by its place in the cluster, from 0 for the master to 7. Of a row that lacks a member which it
/// names, and of one where such a member is an array, which has no number, the word is 0.
#[derive(Clone, Copy, Debug, PartialEq, Eq)]
pub enum Word {
    /// 256 times one value and another, of each its low 32 bits in two's complement.
    Joined {
        /// The place of the member whose value is taken 256 times.
        first: u8,
        /// The place of the other, which may be the same.
        second: u8,
    },
    /// A value and a number; 0 where the sum is negative.
    Plus {
        /// The place of the member.
        member: u8,
        /// What is added to its value; it may be negative.
        more: i64,
    },
    /// This word, whatever the row is.
    Constant(u32),
}

impl Word {
    /// The word as a relation, as it is kept with a notifier (of this project). `Word::of` reads it back.
    pub fn relation(self) -> Relation
        ensures value { result ≡ word_relation self }
        ensures read_back { told_word result ≡ Some self }
    {
        let (number, bounds) = match self {
            Word::Joined { first, second } => (11, [i64::from(first), i64::from(second), 0, 0]),
            Word::Plus { member, more } => (12, [i64::from(member), more, 0, 0]),
            Word::Constant(word) => (13, [i64::from(word), 0, 0, 0]),
        };
        Relation { number, bounds }
    }

    /// The word that a relation is (of this project); `None` where it is none: its number isn't 11 to 13, a bound that names a member is
    /// outside 0 to 255, or the constant outside 0 to 4294967295. The bounds that the word doesn't use may be any.
    pub fn of(relation: &Relation) -> Option<Word>
        ensures { result ≡ told_word relation.now }
    {
        let [a, b, _, _] = relation.bounds;
        match relation.number {
            11 => joining(place_in(a), place_in(b)),
            12 => plus_word(place_in(a), b),
            13 => constant(a),
            _ => None,
        }
    }

    /// Why a cluster can't have this word: the first place that it names and the cluster doesn't have; `None` where it can (of this project).
    ///
    /// - `members`: how many members the cluster has, 1 to 8.
    pub fn refusal(self, members: usize) -> Option<NoMember>
        ensures { result ≡ missing members (word_places self) }
    {
        match self {
            Word::Joined { first, second } => missing_of_two(members, first, second),
            Word::Plus { member, .. } => missing_one(members, member),
            Word::Constant(_) => None,
        }
    }

    /// The word that is told of a row (Linux driver API, "V4L2 Controls", "Adding Notify Callbacks"); 0 where the row lacks a member that it
    /// names, or has an array there.
    ///
    /// - `row`: the values of a cluster's members, in member order.
    pub fn told(self, row: &ClusterRow) -> u64
        ensures { result ≡ word_of self row.now }
    {
        match self {
            Word::Joined { first, second } => joined_word(member(row, first), member(row, second)),
            Word::Plus {
                member: place,
                more,
            } => plus(member(row, place), more),
            Word::Constant(word) => u64::from(word),
        }
    }
}

fn joining(first: Option<u8>, second: Option<u8>) -> Option<Word>
    ensures { result ≡ joining_of first second }
{
    match (first, second) {
        (Some(first), Some(second)) => Some(Word::Joined { first, second }),
        _ => None,
    }
}

fn plus_word(member: Option<u8>, more: i64) -> Option<Word>
    ensures { result ≡ plus_of member more }
{
    match member {
        Some(member) => Some(Word::Plus { member, more }),
        None => None,
    }
}

fn constant(bound: i64) -> Option<Word>
    ensures { result ≡ constant_of bound }
{
    if bound < 0 || bound > 4_294_967_295 {
        return None;
    }
    Some(Word::Constant(bound as u32))
}
