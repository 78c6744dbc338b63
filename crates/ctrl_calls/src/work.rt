ghost use Rattle.std.specs.Prelude.{◌≡◌};

/// How often stored closures were called (of this project). A count that is full stays as it is.
#[derive(Clone, Copy, Debug, Default, PartialEq, Eq)]
pub struct Work {
    /// Calls of validators.
    pub asked: u64,
    /// Calls of notifiers.
    pub told: u64,
}

impl Work {
    /// No call yet.
    pub fn new() -> Work
        ensures { result ≡ record { asked = 0; told = 0 } }
    {
        Work { asked: 0, told: 0 }
    }
}
