/// A step that was accepted, with the number of the seat that asked for it.
#[derive(Clone, Copy, Debug, PartialEq, Eq, Drop)]
pub struct Entry<S> {
    /// The seat's number.
    pub seat: u32,
    /// The step.
    pub step: S,
}
