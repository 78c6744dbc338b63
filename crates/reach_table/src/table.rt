ghost use Rattle.std.specs.Prelude.{◌≡◌, ◌<◌, ◌&&◌, ℕ, [], filter, length, IfOk, nat_eq, not, slice_index_or, false};
ghost use Rattle.std.specs.List.{range_with_len};
ghost use Rattle.reach_table.specs.Reached.{AreBelow, is_reached, others_reached};

use crate::marks::mark_reached;
use crate::numbers::Numbers;
use std::alloc::{AllocError, Global};
use std::marker::Model;

/// For each number below a count the others that are reached from it by links, on and on (of this project). Contracts see it as a list of lists.
#[derive(Drop)]
pub struct ReachTable {
    rows: Vec<Numbers>,
}

impl Model for ReachTable {
    ghost use Rattle.std.specs.Prelude.{List, ℕ};

    ghost Value = { List (List ℕ) };

    ghost view = { λ t. t.rows.items };
}

impl ReachTable {
    /// The table of these links. `AllocError` where a growth was refused; without links it takes no memory.
    ///
    /// - `count`: how many numbers there are, from 0.
    /// - `links`: each from a number to a number, in any order; one may stand there twice, or lead to where it begins. The caller owes numbers below `count`.
    pub fn build(alloc: Global, count: u32, links: &[(u32, u32)]) -> Result<ReachTable, AllocError>
        requires { AreBelow count links.now }
        ensures { IfOk result (λ table. (n : ℕ) → n < count → slice_index_or table n [] ≡ others_reached count links.now n) }
    {
        if links.is_empty() {
            return Ok(ReachTable {
                rows: Vec::new(alloc),
            });
        }
        let mut marks = vec![in alloc; false; count as usize]?;
        let mut before = vec![in alloc; false; count as usize]?;
        let rows = rows_of(alloc, count, links, &mut marks, &mut before)?;
        Ok(ReachTable { rows })
    }

    /// The others that are reached from a number, in rising order; none where the number isn't below the count. It takes no memory.
    pub fn others(&self, from: u32) -> &[u32]
        ensures { result.now ≡ slice_index_or self.now from [] }
    {
        match self.rows.get(from as usize) {
            Some(row) => row.as_slice(),
            None => &[],
        }
    }
}

// The row of each number for which there is a mark, in their order.
//
// - `marks`, `before`: of any value, for the work.
fn rows_of(
    alloc: Global,
    count: u32,
    links: &[(u32, u32)],
    marks: &mut [bool],
    before: &mut [bool],
) -> Result<Vec<Numbers>, AllocError>
    requires links { AreBelow count links.now }
    requires marks { length marks.old ≡ count }
    requires before { length before.old ≡ count }
    ensures { IfOk result (λ rows. (n : ℕ) → n < count → slice_index_or rows.items n [] ≡ others_reached count links.now n) }
{
    let mut rows = Vec::with_capacity(alloc, count as usize)?;
    for from in 0..count {
        let row = row_of(alloc, count, links, from, marks, before)?;
        rows.push_reserved(row);
    }
    Ok(rows)
}

// The row of one number.
fn row_of(
    alloc: Global,
    count: u32,
    links: &[(u32, u32)],
    from: u32,
    marks: &mut [bool],
    before: &mut [bool],
) -> Result<Numbers, AllocError>
    requires links { AreBelow count links.now }
    requires from { from < count }
    requires marks { length marks.old ≡ count }
    requires before { length before.old ≡ count }
    ensures row { IfOk result (λ row. row ≡ others_reached count links.now from) }
    ensures marks { length marks.new ≡ count }
    ensures before { length before.new ≡ count }
{
    mark_reached(links, from, marks, before);
    marked_others(alloc, count, marks, from)
}

// The marked numbers below a count, but for one.
fn marked_others(
    alloc: Global,
    count: u32,
    marks: &[bool],
    from: u32,
) -> Result<Numbers, AllocError>
    requires { length marks.now ≡ count }
    ensures { IfOk result (λ row. row ≡ filter (λ n. slice_index_or marks.now n false && not (nat_eq from n)) (range_with_len 0 count)) }
{
    let mut row = Numbers::new(alloc);
    for number in 0..count {
        row.push_where(number, is_other(marks, from, number))?;
    }
    Ok(row)
}

// Whether a number is marked, and another than one.
fn is_other(marks: &[bool], from: u32, number: u32) -> bool
    requires { number < length marks.now }
    ensures { result ≡ (slice_index_or marks.now number false && not (nat_eq from number)) }
{
    marks[number as usize] && from != number
}
