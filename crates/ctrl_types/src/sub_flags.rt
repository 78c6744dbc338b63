ghost use Rattle.std.specs.Prelude.{⊤, [], ◌∷◌, codes};

use bitflags::{Flag, Flags as FlagSet, bitflag_items};

/// How a file handle subscribes to the events of a control (Linux userspace API, "ioctl VIDIOC_SUBSCRIBE_EVENT, VIDIOC_UNSUBSCRIBE_EVENT", "Event Flags"). Bits that
/// have no name here are kept as given and mean nothing.
#[derive(Clone, Copy, Debug, PartialEq, Eq, Hash)]
pub struct SubFlags(u32);

bitflag_items! {
    impl SubFlags: u32 {
        /// A new subscription raises an event at once, for the file handle that subscribes.
        const SEND_INITIAL = 0x1;
        /// The file handle gets the events of its own sets too.
        const ALLOW_FEEDBACK = 0x2;
    }
}

impl FlagSet for SubFlags {
    type Bits = u32;

    ghost exact = { ⊤ };

    ghost table = { (codes "SEND_INITIAL", 0x1) ∷ (codes "ALLOW_FEEDBACK", 0x2) ∷ [] };

    ghost set_of = { λ f. f.0 };

    fn flags<'a>() -> &'a [Flag<SubFlags>] {
        SubFlags::FLAGS
    }

    fn bits(&self) -> u32 {
        self.0
    }

    fn from_bits_retain(bits: u32) -> SubFlags {
        SubFlags(bits)
    }
}
