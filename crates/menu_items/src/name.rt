ghost use Rattle.std.specs.Prelude.{◌≡◌, ◌≤◌, IfOk, length};

use std::alloc::{AllocError, Global};
use std::fmt;
use std::marker::Model;

/// How many bytes the name of a menu's item has at most (of this project).
pub const MAX_MENU_NAME: usize = 32;

/// The name of a menu's item, of at most 32 bytes (Linux userspace API, "struct v4l2_querymenu"). Contracts see it as the
/// bytes of its text.
#[derive(Debug, Drop)]
pub struct MenuName {
    text: String,
}

impl Model for MenuName {
    ghost use Rattle.std.specs.Prelude.{List, ℕ, ◌≤◌, length};
    ghost use Rattle.std.specs.String.{string_bytes};
    ghost use Rattle.menu_items.specs.declared.name.TheConstants.{MAX_MENU_NAME};

    ghost Value = { List ℕ };

    ghost view = { λ n. string_bytes n.text };

    ghost invariant = { λ n. length (string_bytes n.text) ≤ MAX_MENU_NAME };
}

impl MenuName {
    ghost use Rattle.menu_items.specs.declared.name.TheConstants.{MAX_MENU_NAME};

    /// The name with this text, of at most 32 bytes. The error is that a growth was refused.
    pub fn new(alloc: Global, text: &str) -> Result<MenuName, AllocError>
        requires { length text.now ≤ MAX_MENU_NAME }
        ensures { IfOk result (λ name. name ≡ text.now) }
    {
        Ok(MenuName {
            text: String::from_str(alloc, text)?,
        })
    }

    /// The text.
    pub fn as_str(&self) -> &str
        ensures text { result.now ≡ self.now }
        ensures within { length result.now ≤ MAX_MENU_NAME }
    {
        self.text.as_str()
    }
}

impl fmt::Display for MenuName {
    ghost use Rattle.std.specs.Prelude.{Some};

    ghost output = { λ name. Some name };

    fn fmt<W: fmt::Write>(&self, f: &mut fmt::Formatter<W>) -> fmt::Result {
        f.write_str(self.as_str())
    }
}
