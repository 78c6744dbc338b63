//! What a cluster is held to, and what is told of it.

ghost use Rattle.std.specs.Prelude.{◌≡◌, Some, map};
ghost use Rattle.toml.specs.View.{view, table_view};
ghost use Rattle.file_tables.specs.Limits.{at_most_in, at_most_member_in, at_most_while_in, constant_in, excess_in, excess_of, is_text, joined_in, limit_of_table, member_in, place_of_text, plus_in, product_in, sum_in, word_of_table};

use crate::reading::{needed_number, needed_text, no_others, number_or, text};
use data_driver::{Excess, Limit, Word};
use file_faults::{
    AT_MOST_KEYS, AT_MOST_MEMBER_KEYS, AT_MOST_WHILE_KEYS, CONSTANT_KEYS, JOINED_KEYS, Key,
    KeyFault, PLUS_KEYS, PRODUCT_KEYS, Problem, SUM_KEYS,
};
use toml::{Table, Value};

/// The limit that a table describes.
///
/// - `table`: the table at `limit` of a cluster.
/// - `members`: the names of the cluster's members.
///
/// Refused with the first fault, in the order of docs/DEVICES.md.
pub fn limit_of(table: &Table, members: &[Value]) -> Result<Limit, KeyFault>
    ensures { result ≡ limit_of_table (map view members.now) (table_view table.now) }
{
    let kind = needed_text(table, Key::Kind)?;
    if kind == "sum" {
        return sum_of(table, members);
    }
    if kind == "product" {
        return product_of(table, members);
    }
    if kind == "at_most" {
        return at_most_of(table, members);
    }
    if kind == "at_most_member" {
        return at_most_member_of(table, members);
    }
    if kind == "at_most_while" {
        return at_most_while_of(table, members);
    }
    Err(KeyFault::new(Key::Kind, Problem::UnknownLimit))
}

fn sum_of(table: &Table, _members: &[Value]) -> Result<Limit, KeyFault>
    ensures { result ≡ sum_in (map view _members.now) (table_view table.now) }
{
    no_others(table, SUM_KEYS)?;
    Ok(Limit::Sum {
        most: needed_number(table, Key::Most)?,
    })
}

fn product_of(table: &Table, members: &[Value]) -> Result<Limit, KeyFault>
    ensures { result ≡ product_in (map view members.now) (table_view table.now) }
{
    no_others(table, PRODUCT_KEYS)?;
    Ok(Limit::Product {
        first: member_of(table, Key::First, members)?,
        second: member_of(table, Key::Second, members)?,
        most: needed_number(table, Key::Most)?,
    })
}

fn at_most_of(table: &Table, members: &[Value]) -> Result<Limit, KeyFault>
    ensures { result ≡ at_most_in (map view members.now) (table_view table.now) }
{
    no_others(table, AT_MOST_KEYS)?;
    Ok(Limit::AtMost {
        member: member_of(table, Key::Member, members)?,
        most: needed_number(table, Key::Most)?,
        excess: excess_at(table)?,
    })
}

fn at_most_member_of(table: &Table, members: &[Value]) -> Result<Limit, KeyFault>
    ensures { result ≡ at_most_member_in (map view members.now) (table_view table.now) }
{
    no_others(table, AT_MOST_MEMBER_KEYS)?;
    Ok(Limit::AtMostMember {
        member: member_of(table, Key::Member, members)?,
        other: member_of(table, Key::OtherMember, members)?,
        margin: number_or(table, Key::Margin, 0)?,
        excess: excess_at(table)?,
    })
}

fn at_most_while_of(table: &Table, members: &[Value]) -> Result<Limit, KeyFault>
    ensures { result ≡ at_most_while_in (map view members.now) (table_view table.now) }
{
    no_others(table, AT_MOST_WHILE_KEYS)?;
    Ok(Limit::AtMostWhile {
        member: member_of(table, Key::Member, members)?,
        most: needed_number(table, Key::Most)?,
        other: member_of(table, Key::OtherMember, members)?,
        when: needed_number(table, Key::When)?,
    })
}

/// What a table says that is told of a cluster.
///
/// - `table`: the table at `told` of a cluster.
/// - `members`: the names of the cluster's members.
///
/// Refused with the first fault, in the order of docs/DEVICES.md.
pub fn word_of(table: &Table, members: &[Value]) -> Result<Word, KeyFault>
    ensures { result ≡ word_of_table (map view members.now) (table_view table.now) }
{
    let kind = needed_text(table, Key::Kind)?;
    if kind == "joined" {
        return joined_of(table, members);
    }
    if kind == "plus" {
        return plus_of(table, members);
    }
    if kind == "constant" {
        return constant_of(table, members);
    }
    Err(KeyFault::new(Key::Kind, Problem::UnknownTold))
}

fn joined_of(table: &Table, members: &[Value]) -> Result<Word, KeyFault>
    ensures { result ≡ joined_in (map view members.now) (table_view table.now) }
{
    no_others(table, JOINED_KEYS)?;
    Ok(Word::Joined {
        first: member_of(table, Key::First, members)?,
        second: member_of(table, Key::Second, members)?,
    })
}

fn plus_of(table: &Table, members: &[Value]) -> Result<Word, KeyFault>
    ensures { result ≡ plus_in (map view members.now) (table_view table.now) }
{
    no_others(table, PLUS_KEYS)?;
    Ok(Word::Plus {
        member: member_of(table, Key::Member, members)?,
        more: needed_number(table, Key::More)?,
    })
}

fn constant_of(table: &Table, _members: &[Value]) -> Result<Word, KeyFault>
    ensures { result ≡ constant_in (map view _members.now) (table_view table.now) }
{
    no_others(table, CONSTANT_KEYS)?;
    match u32::try_from(needed_number(table, Key::Word)?) {
        Ok(word) => Ok(Word::Constant(word)),
        Err(_) => Err(KeyFault::new(Key::Word, Problem::NotWord)),
    }
}

// The place of the member that a key names.
fn member_of(table: &Table, key: Key, members: &[Value]) -> Result<u8, KeyFault>
    ensures { result ≡ member_in key (map view members.now) (table_view table.now) }
{
    let word = needed_text(table, key)?;
    match place_of(members, word) {
        Some(place) => match u8::try_from(place) {
            Ok(place) => Ok(place),
            Err(_) => Err(KeyFault::new(key, Problem::UnknownMember)),
        },
        None => Err(KeyFault::new(key, Problem::UnknownMember)),
    }
}

/// The place of a text among some values, the first of which has the place 0; none where it isn't among them.
pub fn place_of(values: &[Value], word: &str) -> Option<usize>
    ensures { result ≡ place_of_text word.now (map view values.now) }
{
    for place in 0..values.len() {
        if is_word(&values[place], word) {
            return Some(place);
        }
    }
    None
}

fn is_word(value: &Value, word: &str) -> bool
    ensures { result ≡ is_text word.now (view value.now) }
{
    match value.as_str() {
        Some(text) => text == word,
        None => false,
    }
}

// What becomes of a value above a limit; it is refused where the key isn't there.
fn excess_at(table: &Table) -> Result<Excess, KeyFault>
    ensures { result ≡ excess_in (table_view table.now) }
{
    match text(table, Key::Excess) {
        Ok(Some(word)) => match excess_named(word) {
            Some(excess) => Ok(excess),
            None => Err(KeyFault::new(Key::Excess, Problem::UnknownExcess)),
        },
        Ok(None) => Ok(Excess::Refused),
        Err(fault) => Err(fault),
    }
}

fn excess_named(word: &str) -> Option<Excess>
    ensures { result ≡ excess_of (Some word.now) }
{
    if word == "refused" {
        return Some(Excess::Refused);
    }
    if word == "lowered" {
        return Some(Excess::Lowered);
    }
    None
}
