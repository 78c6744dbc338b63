//! Bounds and defaults that are numbers, or that follow another control.

ghost use Rattle.std.specs.Prelude.{◌≡◌, option_map};
ghost use Rattle.toml.specs.Data.{as_table};
ghost use Rattle.toml.specs.View.{view, table_view};
ghost use Rattle.file_tables.specs.Bounds.{bound_by, bound_in, first_default as default_at_first, first_maximum as maximum_at_first, first_minimum as minimum_at_first, followed_at, follows as bound_follows, is_source as says_source, name_followed as name_in_source, number_at as number_there, number_of as number_by, plus_at, source_at as source_there};
ghost use Rattle.file_tables.specs.Reading.{read_as};

use crate::reading::{find, needed_text, no_others, number};
use ctrl_types::Kind;
use file_faults::{Key, KeyFault, Problem, SOURCE_KEYS, Sort};
use range_followers::can_follow;
use toml::{Table, Value};

/// What a table says of a bound, or of the default.
#[derive(Clone, Copy)]
pub enum Bound {
    /// Nothing.
    Missing,
    /// It is this number.
    Number(i64),
    /// It follows another control.
    Follows,
}

impl Bound {
    // The number that it is: the usual one where the table has none, and another one where it follows.
    pub(crate) fn number(self, usual: i64, other: i64) -> i64
        ensures { result ≡ number_by self usual other }
    {
        match self {
            Bound::Missing => usual,
            Bound::Number(number) => number,
            Bound::Follows => other,
        }
    }

    // Whether it follows.
    pub(crate) fn follows(self) -> bool
        ensures { result ≡ bound_follows self }
    {
        match self {
            Bound::Follows => true,
            Bound::Missing | Bound::Number(_) => false,
        }
    }
}

// What a table says of a bound, or of the default, of a control of this type.
pub(crate) fn read_bound(table: &Table, kind: Kind, key: Key) -> Result<Bound, KeyFault>
    ensures { result ≡ bound_in kind key (table_view table.now) }
{
    match find(table, key) {
        None => Ok(Bound::Missing),
        Some(value) => match value.as_integer() {
            Some(number) => Ok(Bound::Number(number)),
            None => bound_of(value, kind, key),
        },
    }
}

// A bound that isn't a number.
fn bound_of(value: &Value, kind: Kind, key: Key) -> Result<Bound, KeyFault>
    ensures { result ≡ bound_by kind key (as_table (view value.now)) }
{
    match value.as_table() {
        None => Err(KeyFault::new(key, Problem::Not(Sort::Integer))),
        Some(source) => {
            if !can_follow(kind) {
                Err(KeyFault::new(key, Problem::CannotFollow))
            } else if is_source(source) {
                Ok(Bound::Follows)
            } else {
                Err(KeyFault::new(key, Problem::Not(Sort::Bound)))
            }
        }
    }
}

// Whether a table says what is followed.
fn is_source(source: &Table) -> bool
    ensures { result ≡ says_source (table_view source.now) }
{
    name_followed(source).is_ok()
}

// The name of the control that a table says is followed.
fn name_followed(source: &Table) -> Result<&str, KeyFault>
    ensures { read_as (λ name. name.now) result ≡ name_in_source (table_view source.now) }
{
    no_others(source, SOURCE_KEYS)?;
    number(source, Key::Plus)?;
    needed_text(source, Key::Follows)
}

// The bounds before it is known what they follow: one that follows counts as the other one. This is the usual maximum.
pub(crate) fn first_minimum(usual: i64, low: Bound, high: Bound) -> i64
    ensures { result ≡ minimum_at_first usual low high }
{
    low.number(0, high.number(usual, 0))
}

pub(crate) fn first_maximum(usual: i64, low: Bound, high: Bound) -> i64
    ensures { result ≡ maximum_at_first usual low high }
{
    high.number(usual, low.number(0, 0))
}

// The default until then: the minimum, where anything follows.
pub(crate) fn first_default(usual: i64, low: Bound, high: Bound, default_value: Bound) -> i64
    ensures { result ≡ default_at_first usual low high default_value }
{
    if low.follows() || high.follows() || default_value.follows() {
        first_minimum(usual, low, high)
    } else {
        default_value.number(0, 0)
    }
}

// The table that a key gives, where it does.
fn source_at(table: &Table, key: Key) -> Option<&Table>
    ensures { option_map (λ t. table_view t.now) result ≡ source_there key (table_view table.now) }
{
    match find(table, key) {
        Some(value) => value.as_table(),
        None => None,
    }
}

/// The name of the control that a bound, or the default, of a control that was read follows; none where it follows nothing.
///
/// - `table`: the table of the control.
/// - `key`: `min`, `max` or `default`.
pub fn followed(table: &Table, key: Key) -> Option<&str>
    ensures { option_map (λ name. name.now) result ≡ followed_at key (table_view table.now) }
{
    match source_at(table, key) {
        Some(source) => match find(source, Key::Follows) {
            Some(name) => name.as_str(),
            None => None,
        },
        None => None,
    }
}

/// What is added to the value of that control; 0 where nothing is.
///
/// - `table`, `key`: as of `followed`.
pub fn plus(table: &Table, key: Key) -> i64
    ensures { result ≡ plus_at key (table_view table.now) }
{
    match source_at(table, key) {
        Some(source) => number_at(source, Key::Plus),
        None => 0,
    }
}

/// The number of a key; 0 where there is none.
///
/// - `table`: any table.
/// - `key`: any key with a meaning.
pub fn number_at(table: &Table, key: Key) -> i64
    ensures { result ≡ number_there key (table_view table.now) }
{
    match find(table, key) {
        Some(value) => value.as_integer().unwrap_or(0),
        None => 0,
    }
}
