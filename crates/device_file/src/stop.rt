ghost use Rattle.std.specs.Prelude.{◌≡◌};
ghost use Rattle.device_file.specs.Stops.{stop_at};
ghost use Rattle.device_file.specs.declared.stop.ReadError.TheVariants.{Memory};

use file_faults::{FileFault, KeyFault, Place};
use std::alloc::AllocError;

// Why a table isn't read.
#[derive(Clone, Copy)]
pub(crate) enum ReadError {
    // A growth was refused, which says nothing of the file.
    Memory,
    // There is a fault, and this is the first.
    Key(KeyFault),
}

impl ReadError {
    // The same of the file, whose table stands there.
    pub(crate) fn at(self, place: Place) -> FileFault
        ensures { result ≡ stop_at place self }
    {
        match self {
            ReadError::Memory => FileFault::Memory,
            ReadError::Key(fault) => fault.at(place),
        }
    }
}

impl From<AllocError> for ReadError {
    ghost from_gives = { λ _ error. error ≡ Memory };

    fn from(_error: AllocError) -> ReadError {
        ReadError::Memory
    }
}
