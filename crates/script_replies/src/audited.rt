/// What an audit of a device by its own plan and steps came to.
#[derive(Clone, Copy)]
pub enum Audited {
    /// What the steps make of the defaults is what the device has; it has so many steps.
    Equal(usize),
    /// It isn't, or a step may not follow those before it.
    Differs,
    /// A growth was refused.
    Memory,
}
