use file_faults::Place;

/// A part of a device file that has at most one fault said, by numbers from 0 in the file's order.
#[derive(Clone, Copy, PartialEq, Eq)]
pub enum Part {
    /// A handler, but for its controls.
    Handler(usize),
    /// A control: the number of its handler, and which of that handler's it is.
    Control(usize, usize),
    /// A cluster, with its limit and what is told of it.
    Cluster(usize),
    /// A class.
    Class(usize),
}

impl Part {
    /// The part that a table is of; none where it is the whole file.
    pub fn of(place: Place) -> Option<Part> {
        match place {
            Place::File => None,
            Place::Handler(number) => Some(Part::Handler(number)),
            Place::Control(handler, number) => Some(Part::Control(handler, number)),
            Place::Cluster(number) | Place::Limit(number) | Place::Told(number) => {
                Some(Part::Cluster(number))
            }
            Place::Class(number) => Some(Part::Class(number)),
        }
    }
}
