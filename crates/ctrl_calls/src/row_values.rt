ghost use Rattle.std.specs.Prelude.{◌≡◌, ◌<◌, ◌≤◌, ◌↔◌, true, length, replicate, slice_get, slice_index_or, slice_set, is_some, IfSome, IsTrue, Some};
ghost use Rattle.std.specs.List.{list_all};
ghost use Rattle.ctrl_types.specs.Values.{is_same, zero_value};
ghost use Rattle.ctrl_types.specs.declared.value.CtrlValue.TheVariants.{Number};
ghost use Rattle.ctrl_calls.specs.Fitting.{fits, is_number};

use crate::row::{ClusterRow, MAX_MEMBERS};
use ctrl_types::{ByteRow, CtrlValue};
use std::marker::Model;

/// The values of a cluster's members as they are worked on, in member order: at most eight numbers, or one array, which is alone in its cluster
/// (Linux driver API, "V4L2 Controls", "Control Clusters"; the size is of this project). A closure is given a `ClusterRow` of them. Contracts see it
/// as the list of the values.
#[derive(Clone, Copy, Debug)]
pub struct RowValues {
    form: Form,
}

// So many numbers, with zeros behind them; or one array. How many stands first, where it takes no word of its own.
#[derive(Clone, Copy, Debug)]
enum Form {
    Numbers(u8, [i64; MAX_MEMBERS]),
    Array(ByteRow),
}

impl Model for RowValues {
    ghost use Rattle.std.specs.Prelude.{List};
    ghost use Rattle.ctrl_types.specs.declared.value.CtrlValue.{CtrlValue};

    ghost Value = { List CtrlValue };

    ghost use Rattle.ctrl_calls.specs.Forms.{values_in, IsClearedForm, form_of, form_of-values_in};

    ghost view = { λ r. values_in r.form };

    ghost invariant = { λ r. IsClearedForm r.form };

    ghost inverse = { λ row. record { form = form_of row } };

    ghost inverse_ok = { λ r h i. record { form = form_of-values_in r.form h i } };
}

impl RowValues {
    /// The row of these values, in this order; `None` where they don't fit: where there are more than eight, or an array among others. No value at all is a
    /// row too.
    pub fn from_slice(values: &[CtrlValue]) -> Option<RowValues>
        ensures fits { is_some result ≡ fits values.now }
        ensures some { IfSome result (λ row. row ≡ values.now) }
    {
        if !fits(values) {
            return None;
        }
        Some(RowValues::filled(values))
    }

    // The row of values that fit.
    fn filled(values: &[CtrlValue]) -> RowValues
        requires { fits values.now ≡ true }
        ensures { result ≡ values.now }
    {
        let mut row = RowValues::zeros(values.len());
        for place in 0..values.len() {
            row.set(place, values[place]);
        }
        row
    }

    /// The row of so many zeros. The caller owes 8 at most.
    pub fn zeros(len: usize) -> RowValues
        requires { len ≤ 8 }
        ensures { result ≡ replicate len zero_value }
    {
        RowValues {
            form: Form::Numbers(len as u8, [0; MAX_MEMBERS]),
        }
    }

    /// How many values the row has: 0 to 8.
    pub fn len(&self) -> usize
        ensures value { result ≡ length self.now }
        ensures limit { result ≤ 8 }
    {
        match &self.form {
            Form::Numbers(len, _) => usize::from(*len),
            Form::Array(_) => 1,
        }
    }

    /// The value of the member at this index, from 0 for the master. The caller owes an index within the row.
    pub fn value(&self, index: usize) -> CtrlValue
        requires { index < length self.now }
        ensures { slice_get self.now index ≡ Some result }
    {
        match &self.form {
            Form::Numbers(_, cells) => CtrlValue::Number(cells[index]),
            Form::Array(bytes) => CtrlValue::Bytes(*bytes),
        }
    }

    /// Whether the member at this index has this value, as `CtrlValue::is_same` says. The caller owes an index within the row.
    pub fn has(&self, index: usize, value: &CtrlValue) -> bool
        requires { index < length self.now }
        ensures { result ≡ is_same value.now (slice_index_or self.now index zero_value) }
    {
        match &self.form {
            Form::Numbers(_, cells) => match value {
                CtrlValue::Number(number) => *number == cells[index],
                CtrlValue::Bytes(_) => false,
            },
            Form::Array(bytes) => value.is_same(&CtrlValue::Bytes(*bytes)),
        }
    }

    /// Whether these are the values of the row.
    pub fn is_like(&self, values: &[CtrlValue]) -> bool
        ensures { IsTrue result ↔ (self.now ≡ values.now) }
    {
        if values.len() != self.len() {
            return false;
        }
        for place in 0..values.len() {
            if !self.has(place, &values[place]) {
                return false;
            }
        }
        true
    }

    /// Puts a value at the index, in place. The caller owes an index within the row, and a number where there are others.
    pub fn set(&mut self, index: usize, value: CtrlValue)
        requires within { index < length self.old }
        requires fits { 1 < length self.old → is_number value ≡ true }
        ensures { self.new ≡ slice_set self.old index value }
    {
        match value {
            CtrlValue::Number(number) => self.set_number(index, number),
            CtrlValue::Bytes(bytes) => self.form = Form::Array(bytes),
        }
    }

    // Puts a number at the index.
    fn set_number(&mut self, index: usize, number: i64)
        requires { index < length self.old }
        ensures { self.new ≡ slice_set self.old index (Number number) }
    {
        match &mut self.form {
            Form::Numbers(_, cells) => cells[index] = number,
            Form::Array(_) => self.form = Form::Numbers(1, [number, 0, 0, 0, 0, 0, 0, 0]),
        }
    }

    /// The row that a closure is given.
    pub fn to_cluster_row(&self) -> ClusterRow
        ensures { result ≡ self.now }
    {
        let mut row = ClusterRow::zeros(self.len());
        for place in 0..self.len() {
            row.set(place, self.value(place));
        }
        row
    }
}

// Whether values are at most eight numbers, or one array.
fn fits(values: &[CtrlValue]) -> bool
    ensures { result ≡ fits values.now }
{
    values.len() <= MAX_MEMBERS && (values.len() <= 1 || are_numbers(values))
}

// Whether each value is a number.
fn are_numbers(values: &[CtrlValue]) -> bool
    ensures { result ≡ list_all is_number values.now }
{
    values.iter().all(|value| is_number(value))
}

// Whether a value is a number.
fn is_number(value: &CtrlValue) -> bool
    ensures { result ≡ is_number value.now }
{
    match value {
        CtrlValue::Number(_) => true,
        CtrlValue::Bytes(_) => false,
    }
}
