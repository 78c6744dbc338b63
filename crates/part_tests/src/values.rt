//! Tables hold plain numbers; these are the values, the rows and the pairs that are meant.

ghost use Rattle.std.specs.Prelude.{◌≡◌, length, IfOk};

use ctrl_calls::{MAX_MEMBERS, RowValues};
use ctrl_types::{CtrlValue, Pair};
use std::alloc::{AllocError, Global};

/// The values that are these numbers.
pub(crate) fn values_of(alloc: Global, numbers: &[i64]) -> Result<Vec<CtrlValue>, AllocError>
    ensures { IfOk result (λ values. length values.items ≡ length numbers.now) }
{
    numbers
        .iter()
        .map(|number| CtrlValue::Number(*number))
        .collect(alloc)
}

/// Whether values are these numbers.
pub(crate) fn are_numbers(values: &[CtrlValue], numbers: &[i64]) -> bool {
    for (value, number) in values.iter().zip(numbers) {
        if *value != CtrlValue::Number(*number) {
            return false;
        }
    }
    values.len() == numbers.len()
}

/// Whether pairs are those of these controls and numbers.
pub(crate) fn are_pairs(pairs: &[Pair], asked: &[(u32, i64)]) -> bool {
    for (pair, (control, number)) in pairs.iter().zip(asked) {
        if pair.control != *control || pair.value != CtrlValue::Number(*number) {
            return false;
        }
    }
    pairs.len() == asked.len()
}

/// The row of these numbers, where there are at most eight.
pub(crate) fn row_of(numbers: &[i64]) -> Option<RowValues> {
    let mut cells = [CtrlValue::Number(0); MAX_MEMBERS];
    for (cell, number) in cells.iter_mut().zip(numbers) {
        *cell = CtrlValue::Number(*number);
    }
    RowValues::from_slice(cells.get(..numbers.len())?)
}

/// Whether a row has these values.
pub(crate) fn is_row(row: &RowValues, numbers: &[i64]) -> bool {
    are_numbers(row.to_cluster_row().values(), numbers)
}

/// Pairs of controls and these numbers.
pub(crate) fn pairs_of(alloc: Global, asked: &[(u32, i64)]) -> Result<Vec<Pair>, AllocError> {
    let mut pairs = Vec::new(alloc);
    for &(control, number) in asked {
        pairs.push(Pair {
            control,
            value: CtrlValue::Number(number),
        })?;
    }
    Ok(pairs)
}
