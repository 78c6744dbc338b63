ghost use Rattle.std.specs.Prelude.{◌≡◌, []};
ghost use Rattle.ctrl_clusters.specs.NewRows.{clusters_of};

use crate::control_list::ControlList;
use crate::room::Room;
use ctrl_clusters::{NewRow, NewRows};
use ctrl_types::{ExtControl, Pair};
use std::alloc::Global;
use std::marker::Model;

/// What a list that writes makes of the clusters that it touches (Linux driver API, "V4L2 Controls", "Control Clusters"). Contracts
/// see it as these three parts.
#[derive(Drop)]
pub struct Touched {
    pub(crate) rows: NewRows,
    pub(crate) answers: ControlList,
    pub(crate) pairs: Vec<Pair>,
}

impl Model for Touched {
    ghost use Rattle.ctrl_lists.specs.Touched.{TouchedData};

    ghost Value = { TouchedData };

    ghost view = { λ t. record { rows = t.rows.rows; answers = t.answers; pairs = t.pairs.items } };
}

impl Touched {
    // What a list without entries touches. It takes no memory.
    pub(crate) fn empty(alloc: Global, room: &mut Room) -> Touched
        ensures { result ≡ record { rows = []; answers = []; pairs = [] } }
    {
        room.rows.clear();
        Touched {
            rows: room.take_rows(alloc),
            answers: ControlList::from_vec(Vec::new(alloc)),
            pairs: Vec::new(alloc),
        }
    }

    /// The rows that the clusters get, each cluster once, in the order of their first entries.
    pub fn rows(&self) -> &[NewRow]
        ensures { result.now ≡ self.now.rows }
    {
        self.rows.as_slice()
    }

    /// What each entry is answered: its control's id, and the value that the control has in its cluster's row.
    pub fn answers(&self) -> &[ExtControl]
        ensures { result.now ≡ self.now.answers }
    {
        self.answers.as_slice()
    }

    /// The pairs of the list: each entry's control, with the value as it was given.
    pub fn pairs(&self) -> &[Pair]
        ensures { result.now ≡ self.now.pairs }
    {
        self.pairs.as_slice()
    }

    /// The clusters that the list touches, in the order of their first entries.
    pub fn clusters(&self) -> &[u32]
        ensures { result.now ≡ clusters_of self.now.rows }
    {
        self.rows.clusters()
    }

    /// What the entries are answered, and the pairs, with the memory that they lie in.
    ///
    /// - `room`: where the memory of the rows is kept for the next list.
    pub fn into_parts(self, room: &mut Room) -> (ControlList, Vec<Pair>)
        ensures answers { result.0 ≡ self.answers }
        ensures pairs { result.1.items ≡ self.pairs }
    {
        let Touched {
            rows,
            answers,
            pairs,
        } = self;
        room.rows = rows;
        (answers, pairs)
    }

    /// What the entries are answered, with the memory that it lies in.
    ///
    /// - `room`: where the memory of the rows and of the pairs is kept for the next list.
    pub fn into_answers(self, room: &mut Room) -> ControlList
        ensures { result ≡ self.answers }
    {
        let (answers, pairs) = self.into_parts(room);
        room.keep_pairs(pairs);
        answers
    }
}
