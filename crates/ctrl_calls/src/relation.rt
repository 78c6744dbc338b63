/// What a stored closure is known to answer by, as plain data: a driver's meanings say what a number stands for (of
/// this project). A number that a driver gives no meaning to is no fault here.
#[derive(Clone, Copy, Debug, PartialEq, Eq)]
pub struct Relation {
    /// Which of the driver's relations it is.
    pub number: u32,
    /// The four numbers that the relation is taken at.
    pub bounds: [i64; 4],
}

/// The relations of a cluster's closures: its calls as plain data.
#[derive(Clone, Copy, Debug, PartialEq, Eq)]
pub struct Relations {
    /// What the validator answers by, where there is one.
    pub validator: Option<Relation>,
    /// What the notifier answers by, where there is one.
    pub notifier: Option<Relation>,
}
