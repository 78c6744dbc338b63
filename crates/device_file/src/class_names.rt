ghost use Rattle.std.specs.Prelude.{◌≡◌, ◌==◌, ◌≤◌, [], ◌∷◌, ◌++◌, length, IfErr, IfSome, OnOk};
ghost use Rattle.std.specs.Option.{option_map};
ghost use Rattle.device_file.specs.Classes.{known_name, names_class};

use std::alloc::{AllocError, Global};
use std::marker::Model;

/// How many bytes the name of a class has at most (Linux userspace API, "struct v4l2_queryctrl": with its end a control's name has 32).
pub const MAX_CLASS_NAME: usize = 31;

/// The names that a file gives to classes of controls, in its order; no class has two. Contracts see the list of them.
#[derive(Drop)]
pub struct ClassNames {
    rows: Vec<Row>,
}

impl Model for ClassNames {
    ghost use Rattle.std.specs.Prelude.{List};
    ghost use Rattle.device_file.specs.Classes.{ClassName};

    ghost Value = { List ClassName };

    ghost view = { λ n. n.rows.items };
}

// A class with its name.
#[derive(Drop)]
struct Row {
    class: u32,
    name: String,
}

impl Model for Row {
    ghost use Rattle.std.specs.Prelude.{◌≤◌, length};
    ghost use Rattle.std.specs.String.{string_bytes};
    ghost use Rattle.device_file.specs.Classes.{ClassName};
    ghost use Rattle.device_file.specs.declared.class_names.TheConstants.{MAX_CLASS_NAME};

    ghost Value = { ClassName };

    ghost view = { λ r. record { class = r.class; name = string_bytes r.name } };

    ghost invariant = { λ r. length (string_bytes r.name) ≤ MAX_CLASS_NAME };
}

impl ClassNames {
    ghost use Rattle.device_file.specs.declared.class_names.TheConstants.{MAX_CLASS_NAME};

    // No names. It takes no memory.
    pub(crate) fn new(alloc: Global) -> ClassNames
        ensures { result ≡ [] }
    {
        ClassNames {
            rows: Vec::new(alloc),
        }
    }

    // Adds the name of a class, of at most 31 bytes. The error is that a growth was refused.
    pub(crate) fn push(&mut self, alloc: Global, class: u32, name: &str) -> Result<(), AllocError>
        requires { length name.now ≤ MAX_CLASS_NAME }
        ensures ok { OnOk result (self.new ≡ self.old ++ record { class = class; name = name.now } ∷ []) }
    {
        let name = String::from_str(alloc, name)?;
        match self.rows.push(Row { class, name }) {
            Ok(()) => Ok(()),
            Err(_) => Err(AllocError),
        }
    }

    // Whether a class has a name.
    pub(crate) fn has_class(&self, class: u32) -> bool
        ensures { result ≡ names_class self.now class }
    {
        self.rows.iter().any(|row| row.class == class)
    }

    /// The name of a class, 1 to 31 printable characters of ASCII; none where the file gives it none.
    ///
    /// - `class`: a class, as `which` of a list has it.
    pub fn name_of(&self, class: u32) -> Option<&str>
        ensures name { option_map (λ name. name.now) result ≡ known_name self.now class }
        ensures within { IfSome result (λ name. length name.now ≤ MAX_CLASS_NAME) }
    {
        let row = self.rows.iter().find(|row| row.class == class)?;
        Some(row.name.as_str())
    }
}
