ghost use Rattle.std.specs.Prelude.{◌≡◌};

use ctrl_clusters::NewRows;
use ctrl_types::Pair;
use std::alloc::{AllocError, Global};
use std::mem;

/// Room for what a list needs while it is judged (of this project). Who keeps it from one list to the next spares each of them taking memory, and giving it
/// back. What lies in it counts for nothing: each list begins with it empty.
#[derive(Drop)]
pub struct Room {
    // the pairs of the list
    pub(crate) pairs: Vec<Pair>,
    // where pairs lie next, while those of a set lie in memory of just their size
    spare: Vec<Pair>,
    // the pairs that are laid over the values, where a request has some from before
    pub(crate) laid: Vec<Pair>,
    // the rows of the clusters
    pub(crate) rows: NewRows,
}

impl Room {
    /// Room in which nothing lies yet. It takes no memory.
    ///
    /// - `alloc`: where things will lie.
    pub fn new(alloc: Global) -> Room {
        Room {
            pairs: Vec::new(alloc),
            spare: Vec::new(alloc),
            laid: Vec::new(alloc),
            rows: NewRows::new(alloc),
        }
    }

    // Has the next pairs lie in memory of just their size. The error is that it was refused.
    pub(crate) fn size_pairs(&mut self, alloc: Global, count: usize) -> Result<(), AllocError> {
        let sized = Vec::with_capacity(alloc, count)?;
        let pairs = mem::replace(&mut self.pairs, sized);
        if self.spare.capacity() < pairs.capacity() {
            self.spare = pairs;
        }
        Ok(())
    }

    // The rows, with the memory that they lie in.
    pub(crate) fn take_rows(&mut self, alloc: Global) -> NewRows
        ensures rows { result.rows ≡ self.old.rows.rows }
        ensures pairs { self.new.pairs ≡ self.old.pairs }
    {
        mem::replace(&mut self.rows, NewRows::new(alloc))
    }

    // The pairs, with the memory that they lie in.
    pub(crate) fn take_pairs(&mut self, alloc: Global) -> Vec<Pair>
        ensures { result.items ≡ self.old.pairs.items }
    {
        let spare = mem::replace(&mut self.spare, Vec::new(alloc));
        mem::replace(&mut self.pairs, spare)
    }

    // Keeps the memory of pairs, where it is more than is kept.
    pub(crate) fn keep_pairs(&mut self, pairs: Vec<Pair>) {
        if self.pairs.capacity() < pairs.capacity() {
            self.pairs = pairs;
        }
    }
}
