ghost use Rattle.std.specs.Prelude.{◌≡◌, ◌==◌, ◌<◌, ◌^◌, length, vec_len};

use ctrl_types::ExtControl;
use std::marker::Model;

/// A list of controls with values, as callers hand in and are answered (Linux userspace API, "struct v4l2_ext_controls"). Contracts
/// see it as a list.
#[derive(Debug, Drop)]
pub struct ControlList {
    items: Vec<ExtControl>,
}

impl Model for ControlList {
    ghost use Rattle.std.specs.Prelude.{List, ◌<◌, ◌^◌, length};
    ghost use Rattle.ctrl_types.specs.declared.ids.ExtControl.{ExtControl};

    ghost Value = { List ExtControl };

    ghost view = { λ l. l.items.items };

    ghost invariant = { λ l. length l.items.items < 2 ^ 32 };
}

impl ControlList {
    /// The list of these entries. The caller owes fewer than 2^32 of them.
    pub fn from_vec(items: Vec<ExtControl>) -> ControlList
        requires { vec_len items < 2 ^ 32 }
        ensures { result ≡ items.items }
    {
        ControlList { items }
    }

    /// The entries, with the memory that they lie in.
    pub fn into_vec(self) -> Vec<ExtControl>
        ensures { result.items ≡ self }
    {
        let ControlList { items } = self;
        items
    }

    /// The entries.
    pub fn as_slice(&self) -> &[ExtControl]
        ensures { result.now ≡ self.now }
    {
        self.items.as_slice()
    }

    /// How many entries there are.
    pub fn len(&self) -> u32
        ensures { result ≡ length self.now }
    {
        self.items.len() as u32
    }

    /// Whether there are none.
    pub fn is_empty(&self) -> bool
        ensures { result ≡ (length self.now == 0) }
    {
        self.items.is_empty()
    }
}
