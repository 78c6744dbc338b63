//! Names and ids that nobody in a file has.

use file_faults::Key;
use std::alloc::{AllocError, Global};
use toml::Value;

/// The elements of a key's array; none where anything else is there.
pub fn elements(table: &Value, key: Key) -> &[Value] {
    match table.get(key.word()) {
        Some(value) => match value.as_array() {
            Some(array) => array.as_slice(),
            None => &[],
        },
        None => &[],
    }
}

/// A name that no handler of a file has.
pub fn spare_handler_name(alloc: Global, file: &Value) -> Result<String, AllocError> {
    let mut taken = Vec::new(alloc);
    put_names(&mut taken, elements(file, Key::Handler))?;
    spare_name(alloc, taken.as_slice())
}

/// A name that no control of a file has.
pub fn spare_control_name(alloc: Global, file: &Value) -> Result<String, AllocError> {
    let mut taken = Vec::new(alloc);
    for handler in elements(file, Key::Handler) {
        put_names(&mut taken, elements(handler, Key::Control))?;
    }
    spare_name(alloc, taken.as_slice())
}

/// An id that no control of a handler has.
pub fn spare_id(alloc: Global, handler: &Value) -> Result<i64, AllocError> {
    let mut taken = Vec::new(alloc);
    for control in elements(handler, Key::Control) {
        if let Some(id) = number_at(control, Key::Id) {
            taken.push(id)?;
        }
    }
    // among one more numbers than there are ids
    let mut spare = 0i64;
    for _ in 0..taken.len() {
        if !taken.as_slice().contains(&spare) {
            break;
        }
        spare = spare.saturating_add(1);
    }
    Ok(spare)
}

fn number_at(table: &Value, key: Key) -> Option<i64> {
    table.get(key.word())?.as_integer()
}

/// The text of a key, where it is one.
pub fn text_at(table: &Value, key: Key) -> Option<&str> {
    table.get(key.word())?.as_str()
}

fn put_names<'a>(names: &mut Vec<&'a str>, tables: &'a [Value]) -> Result<(), AllocError> {
    for table in tables {
        if let Some(name) = text_at(table, Key::Name) {
            names.push(name)?;
        }
    }
    Ok(())
}

// The first number that is none of these names, as a name.
fn spare_name(alloc: Global, taken: &[&str]) -> Result<String, AllocError> {
    let mut spare = format!(in alloc; "0")?;
    for number in 1..=taken.len() {
        if !taken.iter().any(|name| *name == spare.as_str()) {
            break;
        }
        spare = format!(in alloc; "{number}")?;
    }
    Ok(spare)
}
