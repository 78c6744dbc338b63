//! The values of a table's keys.

ghost use Rattle.std.specs.Prelude.{◌≡◌, not, option_map, map, position, string_bytes};
ghost use Rattle.std.specs.BTreeMap.{keys};
ghost use Rattle.toml.specs.Data.{get_member};
ghost use Rattle.toml.specs.View.{array_view, view, table_view};
ghost use Rattle.file_tables.specs.Reading.{elements_at, elements_in, is_key_of, listed, needed_number_in, needed_text_in, no_others_in, number_in, number_or_in, read_as, table_in, text_in, truth_in, value_at};
ghost use Rattle.file_tables.specs.Reading.{table_with as keyed};

use file_faults::{Key, KeyFault, Problem, Sort};
use toml::{Table, Value};

// The value under a text, where there is one.
fn member<'a>(table: &'a Table, key: &str) -> Option<&'a Value>
    ensures { option_map (λ v. view v.now) result ≡ get_member key.now (table_view table.now) }
{
    table.get(key)
}

/// The value of a key, where it is there.
///
/// - `key`: the key; not the table itself, and none without a meaning.
pub fn find(table: &Table, key: Key) -> Option<&Value>
    ensures { option_map (λ v. view v.now) result ≡ value_at key (table_view table.now) }
{
    member(table, key.word())
}

/// The text of a key, where it is there; refused where its value is no text.
pub fn text(table: &Table, key: Key) -> Result<Option<&str>, KeyFault>
    ensures { read_as (λ t. option_map (λ s. s.now) t) result ≡ text_in key (table_view table.now) }
{
    match find(table, key) {
        None => Ok(None),
        Some(value) => match value.as_str() {
            Some(text) => Ok(Some(text)),
            None => Err(KeyFault::new(key, Problem::Not(Sort::Text))),
        },
    }
}

/// The text of a key that has to be there; refused where it isn't, or where its value is no text.
pub fn needed_text(table: &Table, key: Key) -> Result<&str, KeyFault>
    ensures { read_as (λ t. t.now) result ≡ needed_text_in key (table_view table.now) }
{
    match text(table, key) {
        Ok(Some(text)) => Ok(text),
        Ok(None) => Err(KeyFault::new(key, Problem::Missing)),
        Err(fault) => Err(fault),
    }
}

/// The number of a key, where it is there; refused where its value is no whole number.
pub fn number(table: &Table, key: Key) -> Result<Option<i64>, KeyFault>
    ensures { result ≡ number_in key (table_view table.now) }
{
    match find(table, key) {
        None => Ok(None),
        Some(value) => match value.as_integer() {
            Some(number) => Ok(Some(number)),
            None => Err(KeyFault::new(key, Problem::Not(Sort::Integer))),
        },
    }
}

/// The number of a key that has to be there; refused where it isn't, or where its value is no whole number.
pub fn needed_number(table: &Table, key: Key) -> Result<i64, KeyFault>
    ensures { result ≡ needed_number_in key (table_view table.now) }
{
    match number(table, key) {
        Ok(Some(number)) => Ok(number),
        Ok(None) => Err(KeyFault::new(key, Problem::Missing)),
        Err(fault) => Err(fault),
    }
}

/// The number of a key, or another where the key isn't there; refused where its value is no whole number.
///
/// - `other`: the number of a table without the key.
pub fn number_or(table: &Table, key: Key, other: i64) -> Result<i64, KeyFault>
    ensures { result ≡ number_or_in key other (table_view table.now) }
{
    match number(table, key) {
        Ok(Some(number)) => Ok(number),
        Ok(None) => Ok(other),
        Err(fault) => Err(fault),
    }
}

/// Whether a key is true; false where it isn't there. Refused where its value is neither true nor false.
pub fn truth(table: &Table, key: Key) -> Result<bool, KeyFault>
    ensures { result ≡ truth_in key (table_view table.now) }
{
    match find(table, key) {
        None => Ok(false),
        Some(value) => match value.as_bool() {
            Some(truth) => Ok(truth),
            None => Err(KeyFault::new(key, Problem::Not(Sort::Truth))),
        },
    }
}

/// The elements of a key's array; none where the key isn't there. Refused where its value is no array.
///
/// - `sort`: what the value has to be, as that is then said.
pub fn elements(table: &Table, key: Key, sort: Sort) -> Result<&[Value], KeyFault>
    ensures { read_as (λ vs. map view vs.now) result ≡ elements_in key sort (table_view table.now) }
{
    match find(table, key) {
        None => Ok(&[]),
        Some(value) => match value.as_array() {
            Some(array) => Ok(values_of(array)),
            None => Err(KeyFault::new(key, Problem::Not(sort))),
        },
    }
}

/// The elements of a key's array; none where anything else is there, or nothing.
pub fn elements_of(table: &Table, key: Key) -> &[Value]
    ensures { map view result.now ≡ elements_at key (table_view table.now) }
{
    match find(table, key) {
        None => &[],
        Some(value) => match value.as_array() {
            Some(array) => values_of(array),
            None => &[],
        },
    }
}

/// The values of an array.
pub fn values_of(array: &Vec<Value>) -> &[Value]
    ensures { map view result.now ≡ listed (array_view array.now) }
{
    array.as_slice()
}

/// The table that a value is; refused where it is something else.
pub fn table(value: &Value) -> Result<&Table, KeyFault>
    ensures { read_as (λ t. table_view t.now) result ≡ table_in (view value.now) }
{
    match value.as_table() {
        Some(table) => Ok(table),
        None => Err(KeyFault::new(Key::Table, Problem::Not(Sort::Table))),
    }
}

/// That a table has no key but these; refused with the first other one, in the order of their bytes.
///
/// - `known`: the keys that it may have.
pub fn no_others(table: &Table, known: &[Key]) -> Result<(), KeyFault>
    ensures { result ≡ no_others_in known.now (table_view table.now) }
{
    match other_place(table, known) {
        Some(place) => Err(KeyFault::new(Key::Other(place), Problem::UnknownKey)),
        None => Ok(()),
    }
}

// The place of the first key that is none of these.
fn other_place(table: &Table, known: &[Key]) -> Option<usize>
    ensures { result ≡ position (λ k. not (is_key_of known.now (string_bytes k))) (keys table.now) }
{
    table.keys().position(|key| !is_known(known, key.as_str()))
}

fn is_known(known: &[Key], text: &str) -> bool
    ensures { result ≡ is_key_of known.now text.now }
{
    known.iter().any(|key| key.word() == text)
}

/// The table that a value is, which has no key but these; refused where it is no table, and then as `no_others` is.
///
/// - `known`: the keys that it may have.
pub fn table_with<'a>(value: &'a Value, known: &[Key]) -> Result<&'a Table, KeyFault>
    ensures { read_as (λ t. table_view t.now) result ≡ keyed known.now (view value.now) }
{
    let table = table(value)?;
    no_others(table, known)?;
    Ok(table)
}
