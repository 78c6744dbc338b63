//! Where the renewal of frames ends: the values behind a frame are those of before.

ghost use Rattle.std.specs.Prelude.{◌≡◌, ◌<◌, ◌≤◌, ◌+◌, true, cond, drop, length, slice_set, unwrap_or, IsTrue};
ghost use Rattle.std.specs.List.{All, sum_by};
ghost use Rattle.ctrl_types.specs.Values.{is_same};
ghost use Rattle.ctrl_clusters.specs.Rows.{AreControlsOf, value_at};
ghost use Rattle.frame_forecast.specs.Renewal.{AreRenewed, AreRenewingSame};
ghost use Rattle.frame_forecast.specs.Sparse.{IsNaming, are_same_on, are_same_reached, gives_inside, renewed_sparse, sparse_at, touched_among, value_given, values_upto, with_given_values, with_reached_values, with_rows_of, with_values_of};

use crate::renewal::{gives_inside, renew_frame};
use crate::sparse::{SparseFrame, value_before};
use ctrl_calls::{Driver, Work};
use ctrl_clusters::{Moment, Ranges};
use ctrl_handlers::Plan;
use ctrl_types::CtrlValue;

// Writes what a frame gives a control into values, where it gives it one.
fn load_one(values: &mut Vec<CtrlValue>, frame: &SparseFrame, control: u32)
    requires { control < length values.old.items }
    ensures { values.new.items ≡ slice_set values.old.items control (unwrap_or (value_given frame.now control) (value_at values.old.items control)) }
{
    let value = match frame.value(control) {
        Some(value) => value,
        None => values[control as usize],
    };
    values[control as usize] = value;
}

// So what it gives some controls.
fn load_given(values: &mut Vec<CtrlValue>, frame: &SparseFrame, controls: &[u32])
    requires { All (λ c. c < length values.old.items) controls.now }
    ensures values { values.new.items ≡ with_given_values frame.now controls.now values.old.items }
    ensures long { length values.new.items ≡ length values.old.items }
{
    for &control in controls {
        load_one(values, frame, control);
    }
}

// And what it gives the members of some clusters.
pub(crate) fn load_reached<D: Driver>(
    values: &mut Vec<CtrlValue>,
    frame: &SparseFrame,
    plan: &Plan<D>,
    clusters: &[u32],
)
    requires clusters { All (λ k. k < length plan.now.clusters) clusters.now }
    requires values { length values.old.items ≡ length plan.now.controls }
    ensures values { values.new.items ≡ with_reached_values plan.now frame.now clusters.now values.old.items }
    ensures long { length values.new.items ≡ length plan.now.controls }
{
    for &cluster in clusters {
        load_given(values, frame, plan.members(cluster));
    }
}

// Writes the values that some controls have before the frame at a place.
fn load_values(
    spare: &mut Vec<CtrlValue>,
    frames: &[SparseFrame],
    place: usize,
    values: &[CtrlValue],
    controls: &[u32],
)
    requires place { place ≤ length frames.now }
    requires controls { All (λ c. c < length values.now) controls.now }
    requires spare { length spare.old.items ≡ length values.now }
    ensures values { spare.new.items ≡ with_values_of (values_upto values.now frames.now place) controls.now spare.old.items }
    ensures long { length spare.new.items ≡ length values.now }
{
    for &control in controls {
        spare[control as usize] = value_before(frames, place, values, control);
    }
}

// And those of the members of some clusters.
pub(crate) fn load_before<D: Driver>(
    spare: &mut Vec<CtrlValue>,
    frames: &[SparseFrame],
    place: usize,
    values: &[CtrlValue],
    plan: &Plan<D>,
    clusters: &[u32],
)
    requires place { place ≤ length frames.now }
    requires clusters { All (λ k. k < length plan.now.clusters) clusters.now }
    requires values { length values.now ≡ length plan.now.controls }
    requires spare { length spare.old.items ≡ length plan.now.controls }
    ensures values { spare.new.items ≡ with_rows_of plan.now (values_upto values.now frames.now place) clusters.now spare.old.items }
    ensures long { length spare.new.items ≡ length plan.now.controls }
{
    for &cluster in clusters {
        load_values(spare, frames, place, values, plan.members(cluster));
    }
}

// Whether a control has the same value before the frame at a place and among others.
fn is_as_before(
    frames: &[SparseFrame],
    place: usize,
    values: &[CtrlValue],
    others: &[CtrlValue],
    control: u32,
) -> bool
    requires place { place ≤ length frames.now }
    requires control { control < length values.now }
    requires other { control < length others.now }
    ensures { result ≡ is_same (value_at (values_upto values.now frames.now place) control) (value_at others.now control) }
{
    value_before(frames, place, values, control).is_same(&others[control as usize])
}

// Whether some controls do.
fn are_as_before(
    frames: &[SparseFrame],
    place: usize,
    values: &[CtrlValue],
    others: &[CtrlValue],
    controls: &[u32],
) -> bool
    requires place { place ≤ length frames.now }
    requires controls { All (λ c. c < length values.now) controls.now }
    requires others { length others.now ≡ length values.now }
    ensures { result ≡ are_same_on (values_upto values.now frames.now place) others.now controls.now }
{
    for &control in controls {
        if !is_as_before(frames, place, values, others, control) {
            return false;
        }
    }
    true
}

// Whether the members of some clusters do.
pub(crate) fn is_ended<D: Driver>(
    frames: &[SparseFrame],
    place: usize,
    plan: &Plan<D>,
    values: &[CtrlValue],
    others: &[CtrlValue],
    clusters: &[u32],
) -> bool
    requires place { place ≤ length frames.now }
    requires clusters { All (λ k. k < length plan.now.clusters) clusters.now }
    requires values { length values.now ≡ length plan.now.controls }
    requires others { length others.now ≡ length values.now }
    ensures { result ≡ are_same_reached plan.now (values_upto values.now frames.now place) others.now clusters.now }
{
    for &cluster in clusters {
        if !are_as_before(frames, place, values, others, plan.members(cluster)) {
            return false;
        }
    }
    true
}

// Renews some clusters in the frame at a place, where it gives a member of them a value, and answers whether what stands behind it is as before.
//
// - `spare`: a value for each control, of each member of the clusters the one that it had before the frame; behind it then.
fn renew_step<D: Driver>(
    frames: &mut Vec<SparseFrame>,
    place: usize,
    at: &Moment<D>,
    values: &mut Vec<CtrlValue>,
    ranges: &mut Ranges,
    spare: &mut Vec<CtrlValue>,
    clusters: &[u32],
    work: &mut Work,
) -> bool
    requires place { place < length frames.old.items }
    requires clusters { All (λ k. k < length at.now.plan.now.clusters) clusters.now }
    requires values { length values.old.items ≡ length at.now.plan.now.controls }
    requires ranges { AreControlsOf at.now.plan.now ranges.old }
    requires spare { length spare.old.items ≡ length at.now.plan.now.controls }
    requires naming { IsNaming at.now.plan.now (sparse_at frames.old.items place) }
    ensures frames { frames.new.items ≡ cond (gives_inside at.now.plan.now clusters.now (sparse_at frames.old.items place)) (slice_set frames.old.items place (renewed_sparse D.verdict at.now.plan.now at.now.ranges.now at.now.grabs.now (values_upto at.now.values.now frames.old.items place) clusters.now (sparse_at frames.old.items place))) frames.old.items }
    ensures spared { spare.new.items ≡ cond (gives_inside at.now.plan.now clusters.now (sparse_at frames.old.items place)) (with_reached_values at.now.plan.now (sparse_at frames.old.items place) clusters.now spare.old.items) spare.old.items }
    ensures ended { IsTrue result → are_same_reached at.now.plan.now (values_upto at.now.values.now frames.new.items (place + 1)) spare.new.items clusters.now ≡ true }
    ensures values { length values.new.items ≡ length at.now.plan.now.controls }
    ensures ranges { AreControlsOf at.now.plan.now ranges.new }
    ensures spare { length spare.new.items ≡ length at.now.plan.now.controls }
    ensures asked { work.new.asked ≤ work.old.asked + touched_among at.now.plan.now (sparse_at frames.old.items place).asked clusters.now }
    ensures grows { work.old.asked ≤ work.new.asked }
    ensures told { work.new.told ≡ work.old.told }
{
    if !gives_inside(&frames[place], at.plan, clusters) {
        return false;
    }
    load_reached(spare, &frames[place], at.plan, clusters);
    renew_frame(frames, place, at, values, ranges, clusters, work);
    is_ended(
        frames.as_slice(),
        place + 1,
        at.plan,
        at.values,
        spare.as_slice(),
        clusters,
    )
}

/// Renews some clusters in the frames from a place on, up to and with the first behind which what they hold stands as it did before: all frames behind that one are right
/// as they are. Ranges and grabs are those under which the frames were right.
///
/// - `values`, `ranges`: room for a value and a range of each control, which is written.
/// - `spare`: a value for each control, of each member of the clusters the one that it had before the first of these frames; it is written.
pub(crate) fn renew_until<D: Driver>(
    frames: &mut Vec<SparseFrame>,
    from: usize,
    at: &Moment<D>,
    values: &mut Vec<CtrlValue>,
    ranges: &mut Ranges,
    spare: &mut Vec<CtrlValue>,
    clusters: &[u32],
    work: &mut Work,
)
    requires from { from ≤ length frames.old.items }
    requires clusters { All (λ k. k < length at.now.plan.now.clusters) clusters.now }
    requires values { length values.old.items ≡ length at.now.plan.now.controls }
    requires ranges { AreControlsOf at.now.plan.now ranges.old }
    requires spare { length spare.old.items ≡ length at.now.plan.now.controls }
    requires ready { AreRenewingSame D.verdict at.now.plan.now clusters.now at.now.ranges.now at.now.grabs.now at.now.values.now frames.old.items frames.old.items from from spare.old.items }
    ensures frames { AreRenewed D.verdict at.now.plan.now at.now.ranges.now at.now.grabs.now at.now.values.now frames.old.items frames.new.items from }
    ensures values { length values.new.items ≡ length at.now.plan.now.controls }
    ensures ranges { AreControlsOf at.now.plan.now ranges.new }
    ensures spare { length spare.new.items ≡ length at.now.plan.now.controls }
    ensures asked { work.new.asked ≤ work.old.asked + sum_by (λ f. touched_among at.now.plan.now f.asked clusters.now) (drop from frames.old.items) }
    ensures grows { work.old.asked ≤ work.new.asked }
    ensures told { work.new.told ≡ work.old.told }
{
    for place in from..frames.len() {
        if renew_step(frames, place, at, values, ranges, spare, clusters, work) {
            return;
        }
    }
}
