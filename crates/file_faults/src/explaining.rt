//! Faults in words.

use crate::advice::{Told, write_advice};
use crate::fault::{FileFault, KeyFault};
use crate::key::Key;
use crate::lines::{key_in, line_in};
use crate::place::{Place, table_at};
use crate::problem::Problem;
use crate::syntax::syntax_words;
use std::alloc::{AllocError, Global};
use std::fmt::Write;
use toml::{Table, Value};

/// Why a file describes no device, in one line for people, without an end: the line of the file, the table with its name, the key with its
/// value, and what is wrong. Want of memory is said as such. The error is that a growth was refused.
///
/// - `text`: the file that was read; of another one the words may be any.
/// - `fault`: what was answered.
pub fn explain(alloc: Global, text: &[u8], fault: &FileFault) -> Result<String, AllocError> {
    match fault {
        FileFault::Memory => format!(in alloc; "no memory"),
        FileFault::Table { place, fault } => table_words(alloc, text, *place, fault),
    }
}

/// The key of a table, in words that others go on: the line of the file, the table with its name, and the key with its value, as
/// `line 26: control 0 "red" of handler 1 "video": default 300: `. The error is that a growth was refused.
///
/// - `text`: the file that was read; nothing is said of one that isn't TOML.
/// - `place`: a table of it.
/// - `key`: a key of the table, there or not; or the table itself.
pub fn key_words(alloc: Global, text: &[u8], place: Place, key: Key) -> Result<String, AllocError> {
    match toml::table_from_slice(alloc, text) {
        Ok(file) => words_before(alloc, text, &file, place, key, None),
        Err(error) if error.is_memory() => Err(AllocError),
        Err(_) => Ok(String::new(alloc)),
    }
}

fn table_words(
    alloc: Global,
    text: &[u8],
    place: Place,
    fault: &KeyFault,
) -> Result<String, AllocError> {
    match fault.problem {
        Problem::TooLong => return format!(in alloc; "{}", fault.problem),
        Problem::Syntax(error) => return syntax_words(alloc, text, &error),
        _ => {}
    }
    match toml::table_from_slice(alloc, text) {
        Ok(file) => words_in(alloc, text, &file, place, fault),
        Err(error) => {
            if error.is_memory() {
                Err(AllocError)
            } else {
                format!(in alloc; "{}", fault.problem)
            }
        }
    }
}

fn words_in(
    alloc: Global,
    text: &[u8],
    file: &Table,
    place: Place,
    fault: &KeyFault,
) -> Result<String, AllocError> {
    let mut out = words_before(alloc, text, file, place, fault.key, fault.element)?;
    write!(out, "{}", fault.problem)?;
    let key = key_in(file, place, fault.key);
    let told = Told {
        file,
        place,
        key,
        known: fault.key,
        value: match key {
            Some(key) => value_of(file, place, fault.element, key),
            None => None,
        },
    };
    write_advice(&mut out, alloc, fault.problem, &told)?;
    Ok(out)
}

// What stands before the words of what is wrong with a key, or with one element of it.
fn words_before(
    alloc: Global,
    text: &[u8],
    file: &Table,
    place: Place,
    key: Key,
    element: Option<usize>,
) -> Result<String, AllocError> {
    let mut out = String::new(alloc);
    if let Some(line) = line_in(alloc, text, file, place, key)? {
        write!(out, "line {line}: ")?;
    }
    write_place(&mut out, file, place)?;
    write_key(&mut out, file, place, key, element)?;
    Ok(out)
}

// The table, by its number and its name.
fn write_place(out: &mut String, file: &Table, place: Place) -> Result<(), AllocError> {
    match place {
        Place::File => Ok(()),
        Place::Handler(number) => {
            write!(out, "handler {number}")?;
            write_name(out, file, place)?;
            write!(out, ": ")
        }
        Place::Control(handler, number) => {
            write!(out, "control {number}")?;
            write_name(out, file, place)?;
            write!(out, " of handler {handler}")?;
            write_name(out, file, Place::Handler(handler))?;
            write!(out, ": ")
        }
        Place::Cluster(number) => write!(out, "cluster {number}: "),
        Place::Limit(number) => write!(out, "limit of cluster {number}: "),
        Place::Told(number) => write!(out, "told of cluster {number}: "),
        Place::Class(number) => {
            write!(out, "class {number}")?;
            write_name(out, file, place)?;
            write!(out, ": ")
        }
    }
}

fn write_name(out: &mut String, file: &Table, place: Place) -> Result<(), AllocError> {
    match name_at(file, place) {
        Some(name) => write!(out, " {:?}", brief(name)),
        None => Ok(()),
    }
}

fn name_at(file: &Table, place: Place) -> Option<&str> {
    let value = table_at(file, place)?.get(Key::Name.word())?;
    value.as_str()
}

// The key, and its value or the one that is wrong of its values, where that is short.
fn write_key(
    out: &mut String,
    file: &Table,
    place: Place,
    key: Key,
    element: Option<usize>,
) -> Result<(), AllocError> {
    let Some(word) = key_in(file, place, key) else {
        return Ok(());
    };
    match key {
        Key::Other(_) => write!(out, "{:?}: ", brief(word)),
        _ => write_known(out, file, place, key, element, word),
    }
}

fn write_known(
    out: &mut String,
    file: &Table,
    place: Place,
    key: Key,
    element: Option<usize>,
    word: &str,
) -> Result<(), AllocError> {
    write!(out, "{word}")?;
    if let (Some(element), Key::Menu) = (element, key) {
        write!(out, " item {element}")?;
    }
    if let Some(value) = value_of(file, place, element, word) {
        write_value(out, key, value)?;
    }
    write!(out, ": ")
}

fn value_of<'a>(
    file: &'a Table,
    place: Place,
    element: Option<usize>,
    key: &str,
) -> Option<&'a Value> {
    let value = table_at(file, place)?.get(key)?;
    match element {
        None => Some(value),
        Some(element) => value.as_array()?.as_slice().get(element),
    }
}

// A text or a number; an id as the headers of the kernel have it.
fn write_value(out: &mut String, key: Key, value: &Value) -> Result<(), AllocError> {
    match (key, value) {
        (_, Value::String(text)) => write!(out, " {:?}", brief(text.as_str())),
        (Key::Id, Value::Integer(number)) if *number >= 0 => write!(out, " 0x{number:08x}"),
        (_, Value::Integer(number)) => write!(out, " {number}"),
        _ => Ok(()),
    }
}

// A text, where it isn't too long for a line.
pub(crate) fn brief(text: &str) -> &str {
    if text.len() <= 64 { text } else { ".." }
}
