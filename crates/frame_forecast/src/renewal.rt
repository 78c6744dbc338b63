//! Frames that are renewed: what a change reaches in them is judged anew, and followed.

ghost use Rattle.std.specs.Prelude.{◌≡◌, ◌<◌, ◌≤◌, ◌+◌, cond, drop, is_err, length, slice_index_or, slice_set};
ghost use Rattle.std.specs.List.{All, sum_by};
ghost use Rattle.ctrl_clusters.specs.Following.{ranges_under};
ghost use Rattle.ctrl_clusters.specs.Overlay.{is_touched, row_after};
ghost use Rattle.ctrl_clusters.specs.Rows.{AreControlsOf, row_of, value_at};
ghost use Rattle.ctrl_handlers.specs.Plan.{members};
ghost use Rattle.ctrl_clusters.specs.Rising.{with_or_without};
ghost use Rattle.frame_forecast.specs.Renewal.{AreRenewed, AreRenewing};
ghost use Rattle.frame_forecast.specs.Sparse.{IsNaming, followed_clusters, gives_any, gives_inside, followed_given, followed_members, judged_all, judged_frame, renewed_sparse, sparse_at, touched_among, values_upto, with_given, with_row_given};

use crate::loading::judged_row;
use crate::sparse::{SparseFrame, range_before, value_before};
use ctrl_calls::{Driver, RowValues, Work};
use ctrl_clusters::{Moment, Ranges};
use ctrl_handlers::Plan;
use ctrl_settle::settle_anew;
use ctrl_types::CtrlValue;

// The value of a member in a row that was settled; else the one that it has before the frame at a place.
fn value_in_row(
    frames: &[SparseFrame],
    place: usize,
    values: &[CtrlValue],
    members: &[u32],
    row: &RowValues,
    is_settled: bool,
    index: usize,
) -> CtrlValue
    requires place { place ≤ length frames.now }
    requires row { length row.now ≡ length members.now }
    requires index { index < length members.now }
    requires member { slice_index_or members.now index 0 < length values.now }
    ensures { result ≡ value_at (cond is_settled row.now (row_of (values_upto values.now frames.now place) members.now)) index }
{
    if is_settled {
        row.value(index)
    } else {
        value_before(frames, place, values, members[index])
    }
}

// Gives members of a cluster the values of a row that was settled in the frame at a place, or else those that they have before it.
fn give_row(
    frames: &mut Vec<SparseFrame>,
    place: usize,
    values: &[CtrlValue],
    members: &[u32],
    row: &RowValues,
    is_settled: bool,
)
    requires place { place < length frames.old.items }
    requires row { length row.now ≡ length members.now }
    requires members { All (λ c. c < length values.now) members.now }
    ensures { frames.new.items ≡ slice_set frames.old.items place (with_row_given (sparse_at frames.old.items place) members.now (cond is_settled row.now (row_of (values_upto values.now frames.old.items place) members.now))) }
{
    for (index, &member) in members.iter().enumerate() {
        let value = value_in_row(
            frames.as_slice(),
            place,
            values,
            members,
            row,
            is_settled,
            index,
        );
        let frame = &mut frames[place];
        frame.set_given(member, value);
    }
}

// Gives a cluster of the frame at a place a row that was settled, or else the one that it has before it, and has it refused or not.
fn give_outcome<D: Driver>(
    frames: &mut Vec<SparseFrame>,
    place: usize,
    at: &Moment<D>,
    cluster: u32,
    row: &RowValues,
    is_settled: bool,
    is_refused: bool,
)
    requires place { place < length frames.old.items }
    requires row { length row.now ≡ length (members at.now.plan.now cluster) }
    requires cluster { cluster < length at.now.plan.now.clusters }
    requires room { length (with_or_without cluster is_refused (sparse_at frames.old.items place).refused) ≤ length (sparse_at frames.old.items place).named }
    ensures { frames.new.items ≡ slice_set frames.old.items place (record (with_row_given (sparse_at frames.old.items place) (members at.now.plan.now cluster) (cond is_settled row.now (row_of (values_upto at.now.values.now frames.old.items place) (members at.now.plan.now cluster)))) { refused = with_or_without cluster is_refused (sparse_at frames.old.items place).refused }) }
{
    give_row(
        frames,
        place,
        at.values,
        at.plan.members(cluster),
        row,
        is_settled,
    );
    let frame = &mut frames[place];
    frame.set_refused(cluster, is_refused);
}

/// Renews a cluster of the frame at a place: it is judged over what stands before the frame, by the ranges that this gives.
///
/// - `values`, `ranges`: room for a value and a range of each control, which is written.
/// - `row`: a row of as many values as the cluster has members, which is written.
pub(crate) fn renew_row<D: Driver>(
    frames: &mut Vec<SparseFrame>,
    place: usize,
    at: &Moment<D>,
    values: &mut Vec<CtrlValue>,
    ranges: &mut Ranges,
    cluster: u32,
    row: &mut RowValues,
    work: &mut Work,
)
    requires place { place < length frames.old.items }
    requires cluster { cluster < length at.now.plan.now.clusters }
    requires values { length values.old.items ≡ length at.now.plan.now.controls }
    requires ranges { AreControlsOf at.now.plan.now ranges.old }
    requires row { length row.old ≡ length (members at.now.plan.now cluster) }
    requires room { length (with_or_without cluster (is_err (row_after D.verdict at.now.plan.now (ranges_under at.now.plan.now.followers at.now.ranges.now (values_upto at.now.values.now frames.old.items place)) (values_upto at.now.values.now frames.old.items place) at.now.grabs.now (sparse_at frames.old.items place).asked cluster)) (sparse_at frames.old.items place).refused) ≤ length (sparse_at frames.old.items place).named }
    ensures frames { frames.new.items ≡ slice_set frames.old.items place (judged_frame D.verdict at.now.plan.now (ranges_under at.now.plan.now.followers at.now.ranges.now (values_upto at.now.values.now frames.old.items place)) at.now.grabs.now (values_upto at.now.values.now frames.old.items place) cluster (sparse_at frames.old.items place)) }
    ensures values { length values.new.items ≡ length at.now.plan.now.controls }
    ensures ranges { AreControlsOf at.now.plan.now ranges.new }
    ensures row { length row.new ≡ length (members at.now.plan.now cluster) }
    ensures asked { work.new.asked ≤ work.old.asked + cond (is_touched (sparse_at frames.old.items place).asked (members at.now.plan.now cluster)) 1 0 }
    ensures grows { work.old.asked ≤ work.new.asked }
    ensures told { work.new.told ≡ work.old.told }
{
    let asked = frames[place].asked();
    let outcome = judged_row(
        values,
        ranges,
        at,
        frames.as_slice(),
        place,
        asked,
        cluster,
        row,
        work,
    );
    match outcome {
        Ok(is_settled) => give_outcome(frames, place, at, cluster, row, is_settled, false),
        Err(_) => give_outcome(frames, place, at, cluster, row, false, true),
    }
}

// Judges some clusters in the frame at a place, one after another, each over what stands before the frame.
fn judge_clusters<D: Driver>(
    frames: &mut Vec<SparseFrame>,
    place: usize,
    at: &Moment<D>,
    values: &mut Vec<CtrlValue>,
    ranges: &mut Ranges,
    clusters: &[u32],
    work: &mut Work,
)
    requires place { place < length frames.old.items }
    requires clusters { All (λ k. k < length at.now.plan.now.clusters) clusters.now }
    requires values { length values.old.items ≡ length at.now.plan.now.controls }
    requires ranges { AreControlsOf at.now.plan.now ranges.old }
    requires naming { IsNaming at.now.plan.now (sparse_at frames.old.items place) }
    ensures frames { frames.new.items ≡ slice_set frames.old.items place (judged_all D.verdict at.now.plan.now (ranges_under at.now.plan.now.followers at.now.ranges.now (values_upto at.now.values.now frames.old.items place)) at.now.grabs.now (values_upto at.now.values.now frames.old.items place) clusters.now (sparse_at frames.old.items place)) }
    ensures values { length values.new.items ≡ length at.now.plan.now.controls }
    ensures ranges { AreControlsOf at.now.plan.now ranges.new }
    ensures asked { work.new.asked ≤ work.old.asked + touched_among at.now.plan.now (sparse_at frames.old.items place).asked clusters.now }
    ensures grows { work.old.asked ≤ work.new.asked }
    ensures told { work.new.told ≡ work.old.told }
{
    for &cluster in clusters {
        let mut row = RowValues::zeros(at.plan.members(cluster).len());
        renew_row(frames, place, at, values, ranges, cluster, &mut row, work);
    }
}

// Settles the value that the frame at a place gives a control by the range that follows there, where it follows and is given one.
fn follow_given<D: Driver>(
    frames: &mut Vec<SparseFrame>,
    place: usize,
    at: &Moment<D>,
    control: u32,
)
    requires place { place < length frames.old.items }
    requires control { control < length at.now.plan.now.controls }
    ensures { frames.new.items ≡ slice_set frames.old.items place (followed_given at.now.plan.now at.now.ranges.now (values_upto at.now.values.now frames.old.items (place + 1)) control (sparse_at frames.old.items place)) }
{
    if at.plan.follower(control).is_none() {
        return;
    }
    let Some(value) = frames[place].value(control) else {
        return;
    };
    let range = range_before(
        at.plan.followers(),
        at.ranges,
        frames.as_slice(),
        place + 1,
        at.values,
        control,
    );
    let settled = settle_anew(&range, &value);
    let frame = &mut frames[place];
    frame.set_given(control, settled);
}

// So the values of some controls.
fn follow_members<D: Driver>(
    frames: &mut Vec<SparseFrame>,
    place: usize,
    at: &Moment<D>,
    members: &[u32],
)
    requires place { place < length frames.old.items }
    requires members { All (λ c. c < length at.now.plan.now.controls) members.now }
    ensures { frames.new.items ≡ slice_set frames.old.items place (followed_members at.now.plan.now at.now.ranges.now (values_upto at.now.values.now frames.old.items (place + 1)) members.now (sparse_at frames.old.items place)) }
{
    for &member in members {
        follow_given(frames, place, at, member);
    }
}

// So the values of all members of some clusters.
fn follow_clusters<D: Driver>(
    frames: &mut Vec<SparseFrame>,
    place: usize,
    at: &Moment<D>,
    clusters: &[u32],
)
    requires place { place < length frames.old.items }
    requires clusters { All (λ k. k < length at.now.plan.now.clusters) clusters.now }
    ensures { frames.new.items ≡ slice_set frames.old.items place (followed_clusters at.now.plan.now at.now.ranges.now (values_upto at.now.values.now frames.old.items (place + 1)) clusters.now (sparse_at frames.old.items place)) }
{
    for &cluster in clusters {
        follow_members(frames, place, at, at.plan.members(cluster));
    }
}

/// Renews some clusters in the frame at a place: they are judged over what stands before it, and then followed. Where they hold all that a change reaches, and the frame
/// was right before it, it is right (`renewal_is_right`).
///
/// - `values`, `ranges`: room for a value and a range of each control, which is written.
pub(crate) fn renew_frame<D: Driver>(
    frames: &mut Vec<SparseFrame>,
    place: usize,
    at: &Moment<D>,
    values: &mut Vec<CtrlValue>,
    ranges: &mut Ranges,
    clusters: &[u32],
    work: &mut Work,
)
    requires place { place < length frames.old.items }
    requires clusters { All (λ k. k < length at.now.plan.now.clusters) clusters.now }
    requires values { length values.old.items ≡ length at.now.plan.now.controls }
    requires ranges { AreControlsOf at.now.plan.now ranges.old }
    requires naming { IsNaming at.now.plan.now (sparse_at frames.old.items place) }
    ensures frames { frames.new.items ≡ slice_set frames.old.items place (renewed_sparse D.verdict at.now.plan.now at.now.ranges.now at.now.grabs.now (values_upto at.now.values.now frames.old.items place) clusters.now (sparse_at frames.old.items place)) }
    ensures values { length values.new.items ≡ length at.now.plan.now.controls }
    ensures ranges { AreControlsOf at.now.plan.now ranges.new }
    ensures asked { work.new.asked ≤ work.old.asked + touched_among at.now.plan.now (sparse_at frames.old.items place).asked clusters.now }
    ensures grows { work.old.asked ≤ work.new.asked }
    ensures told { work.new.told ≡ work.old.told }
{
    judge_clusters(frames, place, at, values, ranges, clusters, work);
    follow_clusters(frames, place, at, clusters);
}

// Whether a frame gives some of these controls a value.
fn gives_any(frame: &SparseFrame, controls: &[u32]) -> bool
    ensures { result ≡ gives_any frame.now controls.now }
{
    controls
        .iter()
        .any(|control| frame.value(*control).is_some())
}

// Whether it gives some member of these clusters one.
pub(crate) fn gives_inside<D: Driver>(frame: &SparseFrame, plan: &Plan<D>, clusters: &[u32]) -> bool
    requires { All (λ k. k < length plan.now.clusters) clusters.now }
    ensures { result ≡ gives_inside plan.now clusters.now frame.now }
{
    for &cluster in clusters {
        if gives_any(frame, plan.members(cluster)) {
            return true;
        }
    }
    false
}

// Renews some clusters in the frame at a place, where it gives a member of them a value.
fn renew_where<D: Driver>(
    frames: &mut Vec<SparseFrame>,
    place: usize,
    at: &Moment<D>,
    values: &mut Vec<CtrlValue>,
    ranges: &mut Ranges,
    clusters: &[u32],
    work: &mut Work,
)
    requires place { place < length frames.old.items }
    requires clusters { All (λ k. k < length at.now.plan.now.clusters) clusters.now }
    requires values { length values.old.items ≡ length at.now.plan.now.controls }
    requires ranges { AreControlsOf at.now.plan.now ranges.old }
    requires naming { IsNaming at.now.plan.now (sparse_at frames.old.items place) }
    ensures frames { frames.new.items ≡ cond (gives_inside at.now.plan.now clusters.now (sparse_at frames.old.items place)) (slice_set frames.old.items place (renewed_sparse D.verdict at.now.plan.now at.now.ranges.now at.now.grabs.now (values_upto at.now.values.now frames.old.items place) clusters.now (sparse_at frames.old.items place))) frames.old.items }
    ensures values { length values.new.items ≡ length at.now.plan.now.controls }
    ensures ranges { AreControlsOf at.now.plan.now ranges.new }
    ensures asked { work.new.asked ≤ work.old.asked + touched_among at.now.plan.now (sparse_at frames.old.items place).asked clusters.now }
    ensures grows { work.old.asked ≤ work.new.asked }
    ensures told { work.new.told ≡ work.old.told }
{
    if gives_inside(&frames[place], at.plan, clusters) {
        renew_frame(frames, place, at, values, ranges, clusters, work);
    }
}

/// Renews some clusters in all frames from a place on, where these were right over what stood before them, and what stands before them now differs in the clusters alone.
///
/// - `values`, `ranges`: room for a value and a range of each control, which is written.
pub(crate) fn renew_frames<D: Driver>(
    frames: &mut Vec<SparseFrame>,
    from: usize,
    at: &Moment<D>,
    values: &mut Vec<CtrlValue>,
    ranges: &mut Ranges,
    clusters: &[u32],
    work: &mut Work,
)
    requires from { from ≤ length frames.old.items }
    requires clusters { All (λ k. k < length at.now.plan.now.clusters) clusters.now }
    requires values { length values.old.items ≡ length at.now.plan.now.controls }
    requires ranges { AreControlsOf at.now.plan.now ranges.old }
    requires ready { AreRenewing D.verdict at.now.plan.now clusters.now at.now.ranges.now at.now.grabs.now at.now.values.now frames.old.items frames.old.items from from }
    ensures frames { AreRenewed D.verdict at.now.plan.now at.now.ranges.now at.now.grabs.now at.now.values.now frames.old.items frames.new.items from }
    ensures values { length values.new.items ≡ length at.now.plan.now.controls }
    ensures ranges { AreControlsOf at.now.plan.now ranges.new }
    ensures asked { work.new.asked ≤ work.old.asked + sum_by (λ f. touched_among at.now.plan.now f.asked clusters.now) (drop from frames.old.items) }
    ensures grows { work.old.asked ≤ work.new.asked }
    ensures told { work.new.told ≡ work.old.told }
{
    for place in from..frames.len() {
        renew_where(frames, place, at, values, ranges, clusters, work);
    }
}
