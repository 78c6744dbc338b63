ghost use Rattle.std.specs.Prelude.{◌≡◌, ◌<◌, ◌≤◌, ◌↔◌, length, replicate, slice_get, slice_set, IsNone, IfSome};
ghost use Rattle.ctrl_types.specs.Values.{zero_value};

use ctrl_types::CtrlValue;
use std::marker::Model;

/// How many members a cluster has at most (of this project).
pub const MAX_MEMBERS: usize = 8;

/// The values of a cluster's members, in member order, the master's first (Linux driver API, "V4L2 Controls",
/// "Control Clusters"). At most eight. Contracts see it as the list of the values.
#[derive(Clone, Copy, Debug, PartialEq, Eq)]
pub struct ClusterRow {
    cells: [CtrlValue; MAX_MEMBERS],
    len: usize,
}

impl Model for ClusterRow {
    ghost use Rattle.std.specs.Prelude.{List};
    ghost use Rattle.ctrl_types.specs.declared.value.CtrlValue.{CtrlValue};

    ghost Value = { List CtrlValue };

    ghost use Rattle.ctrl_calls.specs.Rows.{row_of, IsCleared, cells_of, cells_of-row_of};

    ghost view = { row_of };

    ghost invariant = { IsCleared };

    ghost inverse = { cells_of };

    ghost inverse_ok = { cells_of-row_of };
}

impl ClusterRow {
    /// The row of these values, in this order; `None` where there are more than eight. No value at all is a row too.
    pub fn from_slice(values: &[CtrlValue]) -> Option<ClusterRow>
        ensures none { IsNone result ↔ (8 < length values.now) }
        ensures some { IfSome result (λ row. row ≡ values.now) }
    {
        let len = values.len();
        if len > MAX_MEMBERS {
            return None;
        }
        let mut cells = [CtrlValue::Number(0); MAX_MEMBERS];
        cells[..len].copy_from_slice(values);
        Some(ClusterRow { cells, len })
    }

    /// The row of so many zeros. The caller owes 8 at most.
    pub fn zeros(len: usize) -> ClusterRow
        requires { len ≤ 8 }
        ensures { result ≡ replicate len zero_value }
    {
        ClusterRow {
            cells: [CtrlValue::Number(0); MAX_MEMBERS],
            len,
        }
    }

    /// How many values the row has: 0 to 8.
    pub fn len(&self) -> usize
        ensures value { result ≡ length self.now }
        ensures limit { result ≤ 8 }
    {
        self.len
    }

    /// The values, in member order: 0 to 8.
    pub fn values(&self) -> &[CtrlValue]
        ensures { result.now ≡ self.now }
    {
        &self.cells[..self.len]
    }

    /// The value of the member at this index, from 0 for the master. The caller owes an index within the row.
    pub fn value(&self, index: usize) -> CtrlValue
        requires { index < length self.now }
        ensures { slice_get self.now index ≡ Some result }
    {
        self.values()[index]
    }

    /// The row with this value at the index, and every other value as it is here. The caller owes an index within the
    /// row.
    pub fn with(&self, index: usize, value: CtrlValue) -> ClusterRow
        requires { index < length self.now }
        ensures { result ≡ slice_set self.now index value }
    {
        let mut row = *self;
        row.set(index, value);
        row
    }

    /// Puts a value at the index, in place. The caller owes an index within the row.
    pub fn set(&mut self, index: usize, value: CtrlValue)
        requires { index < length self.old }
        ensures { self.new ≡ slice_set self.old index value }
    {
        let cells = &mut self.cells[..self.len];
        cells[index] = value;
    }
}
