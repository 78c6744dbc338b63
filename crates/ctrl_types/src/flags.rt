ghost use Rattle.std.specs.Prelude.{⊤, [], ◌∷◌, codes};

use bitflags::{Flag, Flags as FlagSet, bitflag_items};

/// What holds of a control (Linux userspace API, "Control Flags"). Bits that have no name here are kept as given and
/// mean nothing.
#[derive(Clone, Copy, Debug, PartialEq, Eq, Hash)]
pub struct Flags(u32);

bitflag_items! {
    impl Flags: u32 {
        /// The control can't be used: a list that names it is refused.
        const DISABLED = 0x1;
        /// The control can't be set now, since something else holds it.
        const GRABBED = 0x2;
        /// The control can be read and not set.
        const READ_ONLY = 0x4;
        /// Setting the control may change others of its cluster.
        const UPDATE = 0x8;
        /// The control's value has no effect now; it may be set.
        const INACTIVE = 0x10;
        /// The control can be set and not read.
        const WRITE_ONLY = 0x40;
        /// Each set of the control counts as a change, also one to the value that it has.
        const EXECUTE_ON_WRITE = 0x200;
    }
}

impl FlagSet for Flags {
    type Bits = u32;

    ghost exact = { ⊤ };

    ghost table = { (codes "DISABLED", 0x1) ∷ (codes "GRABBED", 0x2) ∷ (codes "READ_ONLY", 0x4) ∷ (codes "UPDATE", 0x8) ∷ (codes "INACTIVE", 0x10) ∷ (codes "WRITE_ONLY", 0x40) ∷ (codes "EXECUTE_ON_WRITE", 0x200) ∷ [] };

    ghost set_of = { λ f. f.0 };

    fn flags<'a>() -> &'a [Flag<Flags>] {
        Flags::FLAGS
    }

    fn bits(&self) -> u32 {
        self.0
    }

    fn from_bits_retain(bits: u32) -> Flags {
        Flags(bits)
    }
}
