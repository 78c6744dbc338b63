ghost use Rattle.std.specs.Prelude.{◌≡◌, ◌<◌, Some};
ghost use Rattle.data_driver.specs.Limits.{limit_places, verdict_of};
ghost use Rattle.data_driver.specs.Members.{missing};
ghost use Rattle.data_driver.specs.Relations.{at_most as at_most_of, at_most_member as at_most_member_of, at_most_while as at_most_while_of, limit_of, limit_relation, number_with, product_of};

use crate::judging::{
    limited_to, product, refused_above, refused_while, sum_of_values, with_margin,
};
use crate::members::{NoMember, member, missing_of_two, missing_one, place_in};
use ctrl_calls::{ClusterRow, Relation, Verdict};

/// What becomes of a value that is above the most that it may be (of this project).
#[derive(Clone, Copy, Debug, PartialEq, Eq)]
pub enum Excess {
    /// The row is refused with EINVAL.
    Refused,
    /// The value is lowered to the most; where that is below every value of 64 bits, the row is refused with EINVAL (22). A lowered value
    /// that the control doesn't take as it is, below its range or off its grid, has the cluster refused with EINVAL, as with every
    /// validator.
    Lowered,
}

impl Excess {
    // The number of a relation: where it lowers, the one behind that where it refuses.
    fn number(self, refusing: u32) -> u32
        requires { refusing < 7 }
        ensures { result ≡ number_with self refusing }
    {
        match self {
            Excess::Refused => refusing,
            Excess::Lowered => refusing + 1,
        }
    }
}

/// What a validator holds the values of a cluster's members to, as data (Linux driver API, "V4L2 Controls", "Control Clusters": `try_ctrl`
/// and `s_ctrl`; the limits are of this project). A member is named by its place in the cluster, from 0 for the master to 7. Sums and
/// products are exact. A row is refused with EINVAL where it lacks a member which the limit names, and where such a member is an array, which
/// has no number.
#[derive(Clone, Copy, Debug, PartialEq, Eq)]
pub enum Limit {
    /// All values together are at most this; else the row is refused with EINVAL. An array adds nothing.
    Sum {
        /// The most that the sum may be.
        most: i64,
    },
    /// One value times another is at most this; else the row is refused with EINVAL.
    Product {
        /// The place of the one member.
        first: u8,
        /// The place of the other, which may be the same.
        second: u8,
        /// The most that the product may be.
        most: i64,
    },
    /// A value is at most this; else it is as `excess` says.
    AtMost {
        /// The place of the member.
        member: u8,
        /// The most that its value may be.
        most: i64,
        /// What becomes of a value above that.
        excess: Excess,
    },
    /// A value is at most another one and a margin; else it is as `excess` says.
    AtMostMember {
        /// The place of the member that is held to this.
        member: u8,
        /// The place of the member that it is compared with.
        other: u8,
        /// How much more the value may be than the other; how much less it has to be, where this is negative.
        margin: i64,
        /// What becomes of a value above that.
        excess: Excess,
    },
    /// A value is at most this while another is `when`; else the row is refused with EINVAL.
    AtMostWhile {
        /// The place of the member that is held to this.
        member: u8,
        /// The most that its value may be.
        most: i64,
        /// The place of the member that decides.
        other: u8,
        /// The value of that member at which the limit holds.
        when: i64,
    },
}

impl Limit {
    /// The limit as a relation, as it is kept with a validator (of this project). `Limit::of` reads it back.
    pub fn relation(self) -> Relation
        ensures value { result ≡ limit_relation self }
        ensures read_back { limit_of result ≡ Some self }
    {
        let (number, bounds) = match self {
            Limit::Sum { most } => (1, [most, 0, 0, 0]),
            Limit::Product {
                first,
                second,
                most,
            } => (2, [i64::from(first), i64::from(second), most, 0]),
            Limit::AtMost {
                member,
                most,
                excess,
            } => (excess.number(3), [i64::from(member), most, 0, 0]),
            Limit::AtMostMember {
                member,
                other,
                margin,
                excess,
            } => (
                excess.number(5),
                [i64::from(member), i64::from(other), margin, 0],
            ),
            Limit::AtMostWhile {
                member,
                most,
                other,
                when,
            } => (7, [i64::from(member), most, i64::from(other), when]),
        };
        Relation { number, bounds }
    }

    /// The limit that a relation is (of this project); `None` where it is none: its number isn't 1 to 7, or a bound that names a member is
    /// outside 0 to 255. The bounds that the limit doesn't use may be any.
    pub fn of(relation: &Relation) -> Option<Limit>
        ensures { result ≡ limit_of relation.now }
    {
        let [a, b, c, d] = relation.bounds;
        match relation.number {
            1 => Some(Limit::Sum { most: a }),
            2 => product_limit(place_in(a), place_in(b), c),
            3 => at_most(place_in(a), b, Excess::Refused),
            4 => at_most(place_in(a), b, Excess::Lowered),
            5 => at_most_member(place_in(a), place_in(b), c, Excess::Refused),
            6 => at_most_member(place_in(a), place_in(b), c, Excess::Lowered),
            7 => at_most_while(place_in(a), b, place_in(c), d),
            _ => None,
        }
    }

    /// Why a cluster can't have this limit: the first place that it names and the cluster doesn't have; `None` where it can (of this project).
    ///
    /// - `members`: how many members the cluster has, 1 to 8.
    pub fn refusal(self, members: usize) -> Option<NoMember>
        ensures { result ≡ missing members (limit_places self) }
    {
        match self {
            Limit::Sum { .. } => None,
            Limit::Product { first, second, .. } => missing_of_two(members, first, second),
            Limit::AtMost { member, .. } => missing_one(members, member),
            Limit::AtMostMember { member, other, .. } => missing_of_two(members, member, other),
            Limit::AtMostWhile { member, other, .. } => missing_of_two(members, member, other),
        }
    }

    /// What the limit makes of a row (Linux driver API, "V4L2 Controls", "Control Clusters": `try_ctrl`). A row within the limit is accepted
    /// as it is; another one is refused with EINVAL, or accepted with the value lowered. A row is refused with EINVAL where it lacks a member
    /// which the limit names, and where such a member is an array.
    ///
    /// - `row`: the values of a cluster's members, in member order.
    pub fn verdict(self, row: &ClusterRow) -> Verdict
        ensures { result ≡ verdict_of self row.now }
    {
        match self {
            Limit::Sum { most } => refused_above(
                Some(sum_of_values(row)),
                Some(i128::from(most)),
                row,
            ),
            Limit::Product {
                first,
                second,
                most,
            } => refused_above(
                product(member(row, first), member(row, second)),
                Some(i128::from(most)),
                row,
            ),
            Limit::AtMost {
                member,
                most,
                excess,
            } => limited_to(excess, member, Some(i128::from(most)), row),
            Limit::AtMostMember {
                member: place,
                other,
                margin,
                excess,
            } => limited_to(excess, place, with_margin(member(row, other), margin), row),
            Limit::AtMostWhile {
                member: place,
                most,
                other,
                when,
            } => refused_while(member(row, place), most, member(row, other), when, row),
        }
    }
}

fn product_limit(first: Option<u8>, second: Option<u8>, most: i64) -> Option<Limit>
    ensures { result ≡ product_of first second most }
{
    match (first, second) {
        (Some(first), Some(second)) => Some(Limit::Product {
            first,
            second,
            most,
        }),
        _ => None,
    }
}

fn at_most(member: Option<u8>, most: i64, excess: Excess) -> Option<Limit>
    ensures { result ≡ at_most_of member most excess }
{
    match member {
        Some(member) => Some(Limit::AtMost {
            member,
            most,
            excess,
        }),
        None => None,
    }
}

fn at_most_member(
    member: Option<u8>,
    other: Option<u8>,
    margin: i64,
    excess: Excess,
) -> Option<Limit>
    ensures { result ≡ at_most_member_of member other margin excess }
{
    match (member, other) {
        (Some(member), Some(other)) => Some(Limit::AtMostMember {
            member,
            other,
            margin,
            excess,
        }),
        _ => None,
    }
}

fn at_most_while(member: Option<u8>, most: i64, other: Option<u8>, when: i64) -> Option<Limit>
    ensures { result ≡ at_most_while_of member most other when }
{
    match (member, other) {
        (Some(member), Some(other)) => Some(Limit::AtMostWhile {
            member,
            most,
            other,
            when,
        }),
        _ => None,
    }
}
