ghost use Rattle.std.specs.Prelude.{◌≡◌};
ghost use Rattle.file_faults.specs.Faults.{wrong, wrong_at};
ghost use Rattle.file_faults.specs.declared.fault.FileFault.TheVariants as files;

use crate::key::Key;
use crate::place::Place;
use crate::problem::Problem;

/// What is wrong in a table of a device file.
#[derive(Clone, Copy)]
pub struct KeyFault {
    /// The key, or the table itself.
    pub key: Key,
    /// Which element of the key's array is wrong, from 0, or the index of which menu item; where it is one of them.
    pub element: Option<usize>,
    /// What is wrong.
    pub problem: Problem,
}

impl KeyFault {
    /// A problem of a key, or of the table itself.
    ///
    /// - `key`: the key.
    /// - `problem`: what is wrong with it.
    pub fn new(key: Key, problem: Problem) -> KeyFault
        ensures { result ≡ wrong key problem }
    {
        KeyFault {
            key,
            element: None,
            problem,
        }
    }

    /// A problem of one element of an array, or of the item at an index.
    ///
    /// - `key`: the key of the array, or of the items.
    /// - `element`: which element, from 0, or the item's index.
    /// - `problem`: what is wrong with it.
    pub fn of_element(key: Key, element: usize, problem: Problem) -> KeyFault
        ensures { result ≡ wrong_at key element problem }
    {
        KeyFault {
            key,
            element: Some(element),
            problem,
        }
    }

    /// The same as a fault of the file.
    ///
    /// - `place`: where the table stands in the file.
    pub fn at(self, place: Place) -> FileFault
        ensures { result ≡ files.Table place self }
    {
        FileFault::Table { place, fault: self }
    }
}

/// Why a file describes no device. `explain` has it in words, and `line_of` finds the line.
#[derive(Clone, Copy)]
pub enum FileFault {
    /// A growth was refused, which says nothing of the file.
    Memory,
    /// A table of the file is wrong; of all faults this is the first.
    Table {
        /// Which table.
        place: Place,
        /// What is wrong in it.
        fault: KeyFault,
    },
}

impl FileFault {
    /// Whether memory was wanting, which says nothing of the file.
    pub fn is_memory(&self) -> bool {
        matches!(self, FileFault::Memory)
    }
}
