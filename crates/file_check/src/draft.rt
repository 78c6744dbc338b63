//! A file that is mended table by table, so that what stands behind a fault can be judged.

use crate::part::Part;
use crate::spare::{elements, spare_control_name, spare_handler_name, spare_id, text_at};
use device_file::{DeviceFile, MAX_FILE, device_in};
use file_faults::{FileFault, Key, KeyFault, Place, Problem};
use std::alloc::{AllocError, Global};
use toml::{Table, Value};

/// A file in which each table with a fault is replaced by one that has none and keeps what others may refer to: of a handler its name and its controls, of a control its
/// name, its id and whether it is an array, of a cluster its members, of a class its id.
#[derive(Drop)]
pub struct Draft {
    file: Value,
    // the numbers of the clusters in the file: one that has no member left is taken out
    clusters: Vec<usize>,
    // those of the classes: one with a wrong id is taken out
    classes: Vec<usize>,
    // what had a fault, by its numbers in the file
    faulty: Vec<Part>,
    // whether a handler, or a control, has a name that isn't known, since it was mended
    lacks_handler: bool,
    lacks_control: bool,
    // the same of the id of a control
    lacks_id: bool,
}

impl Draft {
    /// The file as it is; none where it is too long, or no TOML. The error is that a growth was refused.
    pub fn read(alloc: Global, text: &[u8]) -> Result<Option<Draft>, AllocError> {
        if text.len() > MAX_FILE {
            return Ok(None);
        }
        let file = match toml::table_from_slice(alloc, text) {
            Ok(file) => Value::Table(file),
            Err(error) if error.is_memory() => return Err(AllocError),
            Err(_) => return Ok(None),
        };
        let clusters = numbers(alloc, elements(&file, Key::Cluster).len())?;
        let classes = numbers(alloc, elements(&file, Key::Class).len())?;
        Ok(Some(Draft {
            file,
            clusters,
            classes,
            faulty: Vec::new(alloc),
            lacks_handler: false,
            lacks_control: false,
            lacks_id: false,
        }))
    }

    /// The device that it describes, or its first fault.
    pub fn device(&self, alloc: Global) -> Result<DeviceFile, FileFault> {
        match self.file.as_table() {
            Some(file) => device_in(alloc, file),
            None => Err(FileFault::Memory),
        }
    }

    /// The numbers of its clusters in the file.
    pub fn clusters(&self) -> &[usize] {
        self.clusters.as_slice()
    }

    /// Whether nothing was mended.
    pub fn is_whole(&self) -> bool {
        self.faulty.is_empty()
    }

    /// Whether a part of the file had a fault.
    pub fn had_fault(&self, part: Part) -> bool {
        self.faulty.as_slice().contains(&part)
    }

    /// The parts of the file that are its controls, in the order of their numbers.
    pub fn controls(&self, alloc: Global) -> Result<Vec<Part>, AllocError> {
        let mut parts = Vec::new(alloc);
        for (number, handler) in elements(&self.file, Key::Handler).iter().enumerate() {
            for place in 0..elements(handler, Key::Control).len() {
                parts.push(Part::Control(number, place))?;
            }
        }
        Ok(parts)
    }

    /// Whether the table of a control has a key.
    pub fn has_key(&self, handler: usize, number: usize, key: Key) -> bool {
        let Some(handler) = elements(&self.file, Key::Handler).get(handler) else {
            return false;
        };
        match elements(handler, Key::Control).get(number) {
            Some(control) => control.get(key.word()).is_some(),
            None => false,
        }
    }

    /// The place in the file of a place of this.
    pub fn place_in_file(&self, place: Place) -> Place {
        match place {
            Place::Cluster(number) => Place::Cluster(self.cluster_in_file(number)),
            Place::Limit(number) => Place::Limit(self.cluster_in_file(number)),
            Place::Told(number) => Place::Told(self.cluster_in_file(number)),
            Place::Class(number) => Place::Class(in_file(self.classes.as_slice(), number)),
            place => place,
        }
    }

    /// The fault of the file that is a fault of this.
    pub fn fault_in_file(&self, place: Place, fault: KeyFault) -> FileFault {
        let problem = match fault.problem {
            Problem::InCluster(number) => Problem::InCluster(self.cluster_in_file(number)),
            problem => problem,
        };
        FileFault::Table {
            place: self.place_in_file(place),
            fault: KeyFault { problem, ..fault },
        }
    }

    fn cluster_in_file(&self, number: usize) -> usize {
        in_file(self.clusters(), number)
    }

    /// Whether a fault is said: it is the first of its part, and doesn't come of another one, as a name that nobody has where a control lost its own.
    pub fn is_news(&self, place: Place, problem: Problem) -> bool {
        let may_follow = match problem {
            Problem::UnknownHandler => self.lacks_handler,
            Problem::UnknownControl | Problem::UnknownFollowed => self.lacks_control,
            Problem::UnknownClass => self.lacks_id,
            _ => false,
        };
        match Part::of(self.place_in_file(place)) {
            Some(part) => !may_follow && !self.had_fault(part),
            None => true,
        }
    }

    /// Takes a fault out of the table at a place. False where nothing behind it can be judged: the file as a whole is wrong, or has too many handlers or controls.
    /// The error is that a growth was refused.
    pub fn mend(
        &mut self,
        alloc: Global,
        place: Place,
        fault: &KeyFault,
    ) -> Result<bool, AllocError> {
        let Some(part) = Part::of(self.place_in_file(place)) else {
            return Ok(false);
        };
        if matches!(fault.problem, Problem::ManyHandlers | Problem::ManyControls) {
            return Ok(false);
        }
        if !self.had_fault(part) {
            self.faulty.push(part)?;
        }
        match place {
            Place::File => {}
            Place::Handler(number) => self.mend_handler(alloc, number, fault.key)?,
            Place::Control(handler, number) => {
                self.mend_control(alloc, handler, number, fault.key)?;
            }
            Place::Cluster(number) => self.mend_cluster(alloc, number, fault)?,
            Place::Limit(number) | Place::Told(number) => self.cut_cluster(alloc, number)?,
            Place::Class(number) => self.mend_class(alloc, number, fault.key)?,
        }
        Ok(true)
    }

    // Leaves a handler its name and its controls, where neither is the wrong key.
    fn mend_handler(&mut self, alloc: Global, number: usize, key: Key) -> Result<(), AllocError> {
        let name = spare_handler_name(alloc, &self.file)?;
        let Some(handler) = element_mut(&mut self.file, Key::Handler, number) else {
            return Ok(());
        };
        let kept: &[Key] = match key {
            Key::Control => &[Key::Name],
            _ => &[Key::Name, Key::Control],
        };
        let mut table = cut(alloc, handler, kept)?;
        match key {
            Key::Name => {
                put(alloc, &mut table, Key::Name, Value::String(name))?;
                self.lacks_handler = true;
            }
            Key::Adds => {}
            _ => {
                if !table.contains_key(Key::Control.word()) {
                    self.lacks_control = true;
                    self.lacks_id = true;
                }
            }
        }
        *handler = Value::Table(table);
        Ok(())
    }

    // Leaves a control its name, its id and that it is an array; another name or id in place of a wrong one.
    fn mend_control(
        &mut self,
        alloc: Global,
        handler: usize,
        number: usize,
        key: Key,
    ) -> Result<(), AllocError> {
        let name = spare_control_name(alloc, &self.file)?;
        let Some(handler) = element_mut(&mut self.file, Key::Handler, handler) else {
            return Ok(());
        };
        let id = spare_id(alloc, handler)?;
        let Some(control) = element_mut(handler, Key::Control, number) else {
            return Ok(());
        };
        let is_array = text_at(control, Key::Type) == Some("u8");
        let mut table = cut(alloc, control, &[Key::Name, Key::Id])?;
        match key {
            Key::Name => {
                put(alloc, &mut table, Key::Name, Value::String(name))?;
                self.lacks_control = true;
            }
            Key::Id => {
                put(alloc, &mut table, Key::Id, Value::Integer(id))?;
                self.lacks_id = true;
            }
            _ => {}
        }
        let kind = if is_array { "u8" } else { "integer" };
        put(alloc, &mut table, Key::Type, Value::string(alloc, kind)?)?;
        if is_array {
            put(alloc, &mut table, Key::Elems, Value::Integer(1))?;
        }
        *control = Value::Table(table);
        Ok(())
    }

    // Leaves a cluster those of its members with which nothing is wrong; where none is known to be so, the cluster is taken out.
    fn mend_cluster(
        &mut self,
        alloc: Global,
        number: usize,
        fault: &KeyFault,
    ) -> Result<(), AllocError> {
        match (fault.key, fault.element) {
            (Key::Members, Some(element)) => {
                if let Some(cluster) = element_mut(&mut self.file, Key::Cluster, number) {
                    remove(cluster, Key::Members, element);
                }
                self.cut_cluster(alloc, number)
            }
            (Key::Members, None) => {
                remove(&mut self.file, Key::Cluster, number);
                forget(&mut self.clusters, number);
                Ok(())
            }
            _ => self.cut_cluster(alloc, number),
        }
    }

    // Leaves a cluster its members alone.
    fn cut_cluster(&mut self, alloc: Global, number: usize) -> Result<(), AllocError> {
        if let Some(cluster) = element_mut(&mut self.file, Key::Cluster, number) {
            let table = cut(alloc, cluster, &[Key::Members])?;
            *cluster = Value::Table(table);
        }
        Ok(())
    }

    // Leaves a class its id, where that isn't the wrong key; else the class is taken out.
    fn mend_class(&mut self, alloc: Global, number: usize, key: Key) -> Result<(), AllocError> {
        if let Key::Id = key {
            remove(&mut self.file, Key::Class, number);
            forget(&mut self.classes, number);
            return Ok(());
        }
        if let Some(class) = element_mut(&mut self.file, Key::Class, number) {
            let mut table = cut(alloc, class, &[Key::Id])?;
            put(alloc, &mut table, Key::Name, Value::string(alloc, "0")?)?;
            *class = Value::Table(table);
        }
        Ok(())
    }
}

// The numbers below one.
fn numbers(alloc: Global, count: usize) -> Result<Vec<usize>, AllocError> {
    let mut numbers = Vec::new(alloc);
    for number in 0..count {
        numbers.push(number)?;
    }
    Ok(numbers)
}

// The number in the file of what has a number here.
fn in_file(numbers: &[usize], number: usize) -> usize {
    numbers.get(number).copied().unwrap_or(number)
}

// Takes out the number in the file of what is taken out here.
fn forget(numbers: &mut Vec<usize>, number: usize) {
    if number < numbers.len() {
        numbers.remove(number);
    }
}

// An element of a key's array.
fn element_mut(table: &mut Value, key: Key, number: usize) -> Option<&mut Value> {
    table.get_mut(key.word())?.get_mut(number)
}

// Takes an element out of a key's array.
fn remove(table: &mut Value, key: Key, number: usize) {
    if let Some(value) = table.get_mut(key.word()) {
        if let Value::Array(array) = value {
            if number < array.len() {
                array.remove(number);
            }
        }
    }
}

// These keys of a table, with their values, which it has no more.
fn cut(alloc: Global, value: &mut Value, keys: &[Key]) -> Result<Table, AllocError> {
    let mut kept = Table::new(alloc);
    if let Value::Table(table) = value {
        for key in keys {
            if let Some(value) = table.remove(key.word()) {
                put(alloc, &mut kept, *key, value)?;
            }
        }
    }
    Ok(kept)
}

// Gives a key of a table this value.
fn put(alloc: Global, table: &mut Table, key: Key, value: Value) -> Result<(), AllocError> {
    table.insert(String::from_str(alloc, key.word())?, value)?;
    Ok(())
}
