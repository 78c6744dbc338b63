ghost use Rattle.std.specs.Prelude.{◌≡◌};

/// What values a control takes (Linux userspace API, "enum v4l2_ctrl_type").
#[derive(Clone, Copy, Debug, PartialEq, Eq, Hash)]
pub enum Kind {
    /// A 32-bit signed number on a grid.
    Integer,
    /// 0 or 1.
    Boolean,
    /// The index of a named item.
    Menu,
    /// An action, with the value 0.
    Button,
    /// A 64-bit signed number on a grid.
    Integer64,
    /// A set of 32 bits.
    Bitmask,
    /// The index of an item that is a number.
    IntegerMenu,
    /// An array of bytes, each on a grid.
    U8,
}

impl Kind {
    ghost use Rattle.ctrl_types.specs.Numbers.{kind_number};

    /// The number of the kind, as `enum v4l2_ctrl_type` has it.
    pub fn number(self) -> u32
        ensures { result ≡ kind_number self }
    {
        match self {
            Kind::Integer => 1,
            Kind::Boolean => 2,
            Kind::Menu => 3,
            Kind::Button => 4,
            Kind::Integer64 => 5,
            Kind::Bitmask => 8,
            Kind::IntegerMenu => 9,
            Kind::U8 => 256,
        }
    }
}
