ghost use Rattle.std.specs.Prelude.{◌≡◌, IfOk};

use crate::name::MenuName;
use std::alloc::{AllocError, Global};

/// An item of a menu (Linux userspace API, "struct v4l2_querymenu").
#[derive(Debug, Drop)]
pub enum MenuItem {
    /// An item of a `Menu`, by its name.
    Name(MenuName),
    /// An item of an `IntegerMenu`, by its number.
    Number(i64),
}

impl MenuItem {
    /// The same item once more. The error is that a growth was refused.
    pub fn copied(&self, alloc: Global) -> Result<MenuItem, AllocError>
        ensures { IfOk result (λ item. item ≡ self.now) }
    {
        match self {
            MenuItem::Name(name) => Ok(MenuItem::Name(MenuName::new(alloc, name.as_str())?)),
            MenuItem::Number(number) => Ok(MenuItem::Number(*number)),
        }
    }
}
