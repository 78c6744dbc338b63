//! The rows that the clusters of a list get.

ghost use Rattle.std.specs.Prelude.{◌≡◌, ◌<◌, ◌≤◌, ◌+◌, ◌⊎◌, None, Some, length, map, IfOk, IfErr, OnOk, IsTrue, ℕ};
ghost use Rattle.std.specs.List.{All};
ghost use Rattle.ctrl_types.specs.declared.check.Check.TheVariants.{RowRefused};
ghost use Rattle.ctrl_handlers.specs.Plan.{cluster_of, members};
ghost use Rattle.ctrl_clusters.specs.Overlay.{is_among};
ghost use Rattle.ctrl_clusters.specs.NewRows.{clusters_of};
ghost use Rattle.ctrl_lists.specs.Checks.{at_first, row_check, row_judged, judging_check};
ghost use Rattle.ctrl_types.specs.Refusals.{memory_refusal};
ghost use Rattle.ctrl_lists.specs.Touched.{with_cluster, touched, entry_in, AreRows, AreJudged, judged_count, with_calls};
ghost use Rattle.ctrl_lists.specs.declared.limits.TheConstants.{MAX_ENTRIES};

use crate::control_list::ControlList;
use crate::view::View;
use ctrl_calls::{Driver, RowValues, Work};
use ctrl_clusters::{Moment, NewRow, NewRows, member_value, validated_row};
use ctrl_types::{Check, Errno, ExtControl, Pair, Refusal};
use std::alloc::{AllocError, Global};

/// Puts the rows of the clusters that pairs touch, in the order of their first pairs, where the pairs `laid` are laid over the values, in place of the rows
/// that are there; or tells the first pair whose cluster is refused. Each cluster is judged once.
pub(crate) fn judge_all<D: Driver>(
    view: &View<D>,
    laid: &[Pair],
    pairs: &[Pair],
    rows: &mut NewRows,
    work: &mut Work,
) -> Result<(), Refusal>
    requires few { length pairs.now ≤ MAX_ENTRIES }
    requires known { All (λ p. p.control < length view.now.plan.controls) pairs.now }
    requires among { All (λ p. IsTrue (is_among laid.now p.control)) pairs.now }
    ensures ok { OnOk result (at_first (judging_check D.verdict view.now.plan view.now.parts laid.now) pairs.now ≡ None) }
    ensures rows { OnOk result (AreJudged D.verdict view.now.plan view.now.parts.ranges view.now.parts.values laid.now pairs.now rows.new.rows) }
    ensures err { IfErr result (λ refusal. (at_first (judging_check D.verdict view.now.plan view.now.parts laid.now) pairs.now ≡ Some refusal) ⊎ (refusal ≡ memory_refusal)) }
    ensures at_most { work.new.asked ≤ work.old.asked + length (touched view.now.plan pairs.now) }
    ensures asked { OnOk result (work.new.asked ≡ with_calls (judged_count view.now.plan (touched view.now.plan pairs.now)) work.old.asked) }
    ensures told { work.new.told ≡ work.old.told }
{
    if rows.clear_for(pairs.len()).is_err() {
        return Err(Refusal::of_memory());
    }
    for (place, pair) in pairs.iter().enumerate() {
        if let Err(errno) = judge_next(view, laid, pair.control, rows, work) {
            return Err(Refusal::at(Check::RowRefused(errno), place as u32));
        }
    }
    Ok(())
}

// Adds the row of a control's cluster, where it isn't among the rows yet.
fn judge_next<D: Driver>(
    view: &View<D>,
    laid: &[Pair],
    control: u32,
    rows: &mut NewRows,
    work: &mut Work,
) -> Result<(), Errno>
    requires known { control < length view.now.plan.controls }
    requires among { IsTrue (is_among laid.now control) }
    requires room { length rows.old.rows < rows.old.room }
    requires rows { AreRows D.verdict view.now.plan view.now.parts.ranges view.now.parts.values laid.now rows.old.rows }
    requires within { All (λ r. r.cluster < length view.now.plan.clusters) rows.old.rows }
    requires long { All (λ r. length r.row ≡ length (members view.now.plan r.cluster)) rows.old.rows }
    ensures ok { OnOk result (row_check (row_judged D.verdict view.now.plan view.now.parts laid.now (cluster_of view.now.plan control)) ≡ None) }
    ensures err { IfErr result (λ errno. row_check (row_judged D.verdict view.now.plan view.now.parts laid.now (cluster_of view.now.plan control)) ≡ Some (RowRefused errno)) }
    ensures each { OnOk result (clusters_of rows.new.rows ≡ with_cluster (clusters_of rows.old.rows) (cluster_of view.now.plan control)) }
    ensures rows { OnOk result (AreRows D.verdict view.now.plan view.now.parts.ranges view.now.parts.values laid.now rows.new.rows) }
    ensures within { OnOk result (All (λ r. r.cluster < length view.now.plan.clusters) rows.new.rows) }
    ensures long { OnOk result (All (λ r. length r.row ≡ length (members view.now.plan r.cluster)) rows.new.rows) }
    ensures more { length rows.new.rows ≤ length rows.old.rows + 1 }
    ensures capacity { rows.new.room ≡ rows.old.room }
    ensures at_most { work.new.asked + length (clusters_of rows.old.rows) ≤ work.old.asked + length (with_cluster (clusters_of rows.old.rows) (cluster_of view.now.plan control)) }
    ensures asked { OnOk result ((n : ℕ) → work.old.asked ≡ with_calls (judged_count view.now.plan (clusters_of rows.old.rows)) n → work.new.asked ≡ with_calls (judged_count view.now.plan (clusters_of rows.new.rows)) n) }
    ensures told { work.new.told ≡ work.old.told }
{
    let at = &view.at;
    let cluster = at.plan.cluster_of(control);
    if rows.among(cluster).is_some() {
        return Ok(());
    }
    let mut row = RowValues::zeros(at.plan.members(cluster).len());
    match validated_row(at, cluster, laid, &mut row, work) {
        Ok(()) => {
            rows.push_reserved(NewRow { cluster, row });
            Ok(())
        }
        Err(errno) => Err(errno),
    }
}

/// The entries of pairs as they are read off rows: each control's id, and the value that its cluster's row gives it.
pub(crate) fn entries_in<D: Driver>(
    alloc: Global,
    at: &Moment<D>,
    rows: &NewRows,
    pairs: &[Pair],
) -> Result<ControlList, AllocError>
    requires few { length pairs.now ≤ MAX_ENTRIES }
    requires known { All (λ p. p.control < length at.now.plan.now.controls) pairs.now }
    requires within { All (λ r. r.cluster < length at.now.plan.now.clusters) rows.now.rows }
    requires long { All (λ r. length r.row ≡ length (members at.now.plan.now r.cluster)) rows.now.rows }
    ensures { IfOk result (λ entries. entries ≡ map (λ p. entry_in at.now.plan.now at.now.values.now rows.now.rows p.control) pairs.now) }
{
    let mut entries = Vec::with_capacity(alloc, pairs.len())?;
    for pair in pairs {
        entries.push_reserved(entry_in(at, rows, pair.control));
    }
    Ok(ControlList::from_vec(entries))
}

// An entry, as it is read off rows.
fn entry_in<D: Driver>(at: &Moment<D>, rows: &NewRows, control: u32) -> ExtControl
    requires known { control < length at.now.plan.now.controls }
    requires within { All (λ r. r.cluster < length at.now.plan.now.clusters) rows.now.rows }
    requires long { All (λ r. length r.row ≡ length (members at.now.plan.now r.cluster)) rows.now.rows }
    ensures { result ≡ entry_in at.now.plan.now at.now.values.now rows.now.rows control }
{
    let id = at.plan.control(control).id();
    let cluster = at.plan.cluster_of(control);
    let given = match rows.among(cluster) {
        Some(row) => member_value(at.plan.members(cluster), row, control),
        None => None,
    };
    let value = match given {
        Some(value) => value,
        None => at.values[control as usize],
    };
    ExtControl { id, value }
}
