ghost use Rattle.std.specs.Prelude.{◌≡◌, ◌<◌, ◌≤◌, ◌++◌, ◌∷◌, [], false, length, is_some, option_map, OnOk};
ghost use Rattle.ctrl_clusters.specs.NewRows.{clusters_of, row_among};

use crate::new_row::NewRow;
use ctrl_calls::RowValues;
use std::alloc::{AllocError, Global};
use std::marker::Model;

/// The rows that some clusters get, each cluster once, in the order in which they were added; the row of a cluster is looked up under its
/// number (Linux driver API, "V4L2 Controls", "Control Clusters"). Nothing here grows with the clusters that get none. Contracts see it as the rows, and for how many
/// rows there is room.
#[derive(Drop)]
pub struct NewRows {
    rows: Vec<NewRow>,
    // the clusters that the rows are of
    clusters: Vec<u32>,
    // for how many there is room in both
    room: usize,
}

impl Model for NewRows {
    ghost use Rattle.std.specs.Prelude.{◌≡◌, ◌≤◌, vec_capacity};
    ghost use Rattle.ctrl_clusters.specs.NewRows.{NewRowsData, clusters_of};

    ghost Value = { NewRowsData };

    ghost view = { λ r. record { rows = r.rows.items; room = r.room } };

    ghost invariant = { λ r. (r.clusters.items ≡ clusters_of r.rows.items) × (r.room ≤ vec_capacity r.rows) × (r.room ≤ vec_capacity r.clusters) };
}

impl NewRows {
    /// No rows, and room for none (of this project). It takes no memory.
    ///
    /// - `alloc`: where rows would lie.
    pub fn new(alloc: Global) -> NewRows
        ensures rows { result.rows ≡ [] }
    {
        NewRows {
            rows: Vec::new(alloc),
            clusters: Vec::new(alloc),
            room: 0,
        }
    }

    /// Drops all rows; the memory that they lay in is kept (of this project).
    pub fn clear(&mut self)
        ensures rows { self.new.rows ≡ [] }
        ensures capacity { self.new.room ≡ self.old.room }
    {
        self.rows.clear();
        self.clusters.clear();
    }

    /// Drops all rows, and sees to it that there is room for some, in the memory that is kept where that is enough (of this project).
    ///
    /// - `rows`: how many rows there is room for then.
    ///
    /// Refused with want of memory alone; the rows are dropped then, too.
    pub fn clear_for(&mut self, rows: usize) -> Result<(), AllocError>
        ensures rows { self.new.rows ≡ [] }
        ensures room { OnOk result (rows ≤ self.new.room) }
    {
        self.clear();
        if let Err(refused) = self.rows.reserve(rows) {
            return Err(refused);
        }
        if let Err(refused) = self.clusters.reserve(rows) {
            return Err(refused);
        }
        self.room = rows;
        Ok(())
    }

    /// Adds the row of a cluster behind the others (of this project).
    ///
    /// - `new`: the row; the caller owes that its cluster has none yet, and that there is room.
    ///
    /// It takes no memory and refuses nothing.
    pub fn push_reserved(&mut self, new: NewRow)
        requires first { is_some (row_among self.old.rows new.cluster) ≡ false }
        requires room { length self.old.rows < self.old.room }
        ensures items { self.new.rows ≡ self.old.rows ++ new ∷ [] }
        ensures capacity { self.new.room ≡ self.old.room }
    {
        self.clusters.push_reserved(new.cluster);
        self.rows.push_reserved(new);
    }

    /// The row that a cluster gets, where it gets one (of this project).
    ///
    /// - `cluster`: the cluster's number, any `u32`.
    ///
    /// It takes no memory and refuses nothing.
    pub fn among(&self, cluster: u32) -> Option<&RowValues>
        ensures { option_map (λ row. row.now) result ≡ row_among self.now.rows cluster }
    {
        row_among(self.rows.as_slice(), cluster)
    }

    /// The clusters that the rows are of, in the order of the rows (of this project). It takes no memory and refuses nothing.
    pub fn clusters(&self) -> &[u32]
        ensures { result.now ≡ clusters_of self.now.rows }
    {
        self.clusters.as_slice()
    }

    /// The rows, in the order in which they were added (of this project). It takes no memory and refuses nothing.
    pub fn as_slice(&self) -> &[NewRow]
        ensures { result.now ≡ self.now.rows }
    {
        self.rows.as_slice()
    }
}

// The row of a cluster among rows.
#[tactic(auto, using(crate::proofs::NewRowLemmas::among_next))]
fn row_among<'a>(rows: &'a [NewRow], cluster: u32) -> Option<&'a RowValues>
    ensures { option_map (λ row. row.now) result ≡ row_among rows.now cluster }
{
    for new in rows {
        if new.cluster == cluster {
            return Some(&new.row);
        }
    }
    None
}
