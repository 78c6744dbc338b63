//! Where a table stands in a file.

use crate::key::Key;
use toml::{Table, Value};

/// A table of a device file, by numbers from 0 in the file's order.
#[derive(Clone, Copy)]
pub enum Place {
    /// The whole file.
    File,
    /// A handler.
    Handler(usize),
    /// A control: the number of its handler, and which of that handler's it is.
    Control(usize, usize),
    /// A cluster.
    Cluster(usize),
    /// The limit of a cluster.
    Limit(usize),
    /// What is told of a cluster.
    Told(usize),
    /// A class with its name.
    Class(usize),
}

// The value at a place that isn't the whole file, where there is one.
pub(crate) fn value_at(file: &Table, place: Place) -> Option<&Value> {
    match place {
        Place::File => None,
        Place::Handler(number) => element(file, Key::Handler, number),
        Place::Control(handler, number) => {
            let handler = element(file, Key::Handler, handler)?;
            element(handler.as_table()?, Key::Control, number)
        }
        Place::Cluster(number) => element(file, Key::Cluster, number),
        Place::Limit(number) => in_cluster(file, number, Key::Limit),
        Place::Told(number) => in_cluster(file, number, Key::Told),
        Place::Class(number) => element(file, Key::Class, number),
    }
}

fn in_cluster(file: &Table, number: usize, key: Key) -> Option<&Value> {
    let cluster = element(file, Key::Cluster, number)?;
    cluster.as_table()?.get(key.word())
}

// The table at a place, where there is one.
pub(crate) fn table_at(file: &Table, place: Place) -> Option<&Table> {
    match place {
        Place::File => Some(file),
        place => value_at(file, place)?.as_table(),
    }
}

fn element(table: &Table, key: Key, number: usize) -> Option<&Value> {
    let array = table.get(key.word())?.as_array()?;
    array.as_slice().get(number)
}
