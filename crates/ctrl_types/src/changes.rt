ghost use Rattle.std.specs.Prelude.{⊤, [], ◌∷◌, codes};

use bitflags::{Flag, Flags as FlagSet, bitflag_items};

/// The type of a control event (`V4L2_EVENT_CTRL`; Linux userspace API, "ioctl VIDIOC_DQEVENT", "Event Types").
pub const EVENT_CTRL: u32 = 3;

/// What a control event says that changed (Linux userspace API, "ioctl VIDIOC_DQEVENT", "Control Changes"). Bits that have no name here are
/// kept as given and mean nothing.
#[derive(Clone, Copy, Debug, PartialEq, Eq, Hash)]
pub struct Changes(u32);

bitflag_items! {
    impl Changes: u32 {
        /// The value of the control changed, or it was set and acts on each set.
        const CH_VALUE = 0x1;
        /// The flags of the control changed.
        const CH_FLAGS = 0x2;
        /// The range, the step or the default of the control changed.
        const CH_RANGE = 0x4;
    }
}

impl FlagSet for Changes {
    type Bits = u32;

    ghost exact = { ⊤ };

    ghost table = { (codes "CH_VALUE", 0x1) ∷ (codes "CH_FLAGS", 0x2) ∷ (codes "CH_RANGE", 0x4) ∷ [] };

    ghost set_of = { λ c. c.0 };

    fn flags<'a>() -> &'a [Flag<Changes>] {
        Changes::FLAGS
    }

    fn bits(&self) -> u32 {
        self.0
    }

    fn from_bits_retain(bits: u32) -> Changes {
        Changes(bits)
    }
}
