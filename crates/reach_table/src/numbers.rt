ghost use Rattle.std.specs.Prelude.{◌≡◌, ◌++◌, ◌∷◌, [], cond, OnOk};

use std::alloc::{AllocError, Global};
use std::marker::Model;

/// A list of numbers. Contracts see it as a list.
#[derive(Drop)]
pub(crate) struct Numbers {
    items: Vec<u32>,
}

impl Model for Numbers {
    ghost use Rattle.std.specs.Prelude.{List, ℕ};

    ghost Value = { List ℕ };

    ghost view = { λ l. l.items.items };
}

impl Numbers {
    /// An empty list.
    pub(crate) fn new(alloc: Global) -> Numbers
        ensures { result ≡ [] }
    {
        Numbers {
            items: Vec::new(alloc),
        }
    }

    /// Adds a number at the end, where it is to be there.
    pub(crate) fn push_where(&mut self, number: u32, is_there: bool) -> Result<(), AllocError>
        ensures { OnOk result (self.new ≡ self.old ++ cond is_there (number ∷ []) []) }
    {
        if is_there {
            self.items.push(number)?;
        }
        Ok(())
    }

    /// The numbers.
    pub(crate) fn as_slice(&self) -> &[u32]
        ensures { result.now ≡ self.now }
    {
        self.items.as_slice()
    }
}
