ghost use Rattle.std.specs.Prelude.{◌≡◌, ◌++◌, ◌∷◌, [], OnOk, OnErr, IfOk};

use std::alloc::{AllocError, Global};
use std::marker::Model;

/// A list of numbers, of controls or of handlers. Contracts see it as a list.
#[derive(Drop)]
pub struct NumberList {
    items: Vec<u32>,
}

impl Model for NumberList {
    ghost use Rattle.std.specs.Prelude.{List, ℕ};

    ghost Value = { List ℕ };

    ghost view = { λ l. l.items.items };
}

impl NumberList {
    /// An empty list.
    pub(crate) fn new(alloc: Global) -> NumberList
        ensures { result ≡ [] }
    {
        NumberList {
            items: Vec::new(alloc),
        }
    }

    /// The list of these numbers.
    pub(crate) fn from_slice(alloc: Global, numbers: &[u32]) -> Result<NumberList, AllocError>
        ensures { IfOk result (λ list. list ≡ numbers.now) }
    {
        Ok(NumberList {
            items: Vec::from_slice(alloc, numbers)?,
        })
    }

    /// Adds a number at the end.
    pub(crate) fn push(&mut self, number: u32) -> Result<(), AllocError>
        ensures ok { OnOk result (self.new ≡ self.old ++ number ∷ []) }
        ensures err { OnErr result (self.new ≡ self.old) }
    {
        self.items.push(number)?;
        Ok(())
    }

    /// The numbers.
    pub(crate) fn as_slice(&self) -> &[u32]
        ensures { result.now ≡ self.now }
    {
        self.items.as_slice()
    }
}
