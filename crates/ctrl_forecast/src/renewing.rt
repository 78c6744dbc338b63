//! Clusters that are renewed in frames that are kept, one cluster after another, each through the frames in their order: up to the first that comes out as it was, or,
//! where what the frames refuse may have changed, through all of them.

ghost use Rattle.std.specs.Prelude.{◌≡◌, ◌≢◌, ◌<◌, ◌≤◌, ◌+◌, ℕ, false, not, cond, drop, length, map, is_err, nat_eq, slice_set};
ghost use Rattle.std.specs.List.{All, list_any};
ghost use Rattle.ctrl_handlers.specs.Plan.{members};
ghost use Rattle.ctrl_clusters.specs.NewRows.{with_row};
ghost use Rattle.ctrl_clusters.specs.Rows.{row_of, value_at};
ghost use Rattle.ctrl_clusters.specs.Overlay.{is_touched};
ghost use Rattle.ctrl_forecast.specs.Boards.{board_at};
ghost use Rattle.ctrl_forecast.specs.Forecasts.{named_by_frames, naming_count};
ghost use Rattle.ctrl_clusters.specs.Rising.{with_or_without};
ghost use Rattle.ctrl_forecast.specs.Frames.{AreKeptFrames, AreReady, AreReadyAt, IsAlikeIn, IsClusterRenewed, IsRightAt, base_at, board_seen, frame_at, queued_of, renewed_at, row_over, row_result, setting_at, values_before, with_row_result};
ghost use Rattle.ctrl_forecast.specs.Unchanged.{is_same_outcome};

use crate::frame::Frame;
use crate::laying::row_after;
use ctrl_calls::{Driver, RowValues, Work};
use ctrl_clusters::Moment;
use ctrl_handlers::Plan;
use ctrl_types::CtrlValue;

// Renews some clusters from a place on, where all else is right already, and behind that place everything is. Then all is.
pub(crate) fn renew_clusters<D: Driver>(
    frames: &mut Vec<Frame>,
    from: usize,
    at: &Moment<D>,
    clusters: &[u32],
    work: &mut Work,
)
    requires clusters { All (λ k. k < length at.now.plan.now.clusters) clusters.now }
    requires from { from ≤ length frames.old.items }
    requires ready { AreReadyAt (setting_at D.verdict at.now) from clusters.now frames.old.items }
    ensures frames { board_seen frames.new.items ≡ board_at D.verdict at.now (map queued_of frames.old.items) }
    ensures asked { work.new.asked ≤ work.old.asked + named_by_frames at.now.plan.now (drop from (map queued_of frames.old.items)) clusters.now }
    ensures grows { work.old.asked ≤ work.new.asked }
    ensures told { work.new.told ≡ work.old.told }
{
    for &cluster in clusters {
        renew_cluster(frames, from, at, cluster, work);
    }
}

// Renews a cluster from a place on, where it is right but there. It ends at the first frame that comes out as it was, since the frames behind it stand over the same
// values of the cluster.
fn renew_cluster<D: Driver>(
    frames: &mut Vec<Frame>,
    from: usize,
    at: &Moment<D>,
    cluster: u32,
    work: &mut Work,
)
    requires cluster { cluster < length at.now.plan.now.clusters }
    requires from { from ≤ length frames.old.items }
    requires frames { AreKeptFrames at.now.plan.now frames.old.items }
    requires elsewhere { (i : ℕ) → i ≢ from → i < length frames.old.items → IsRightAt (setting_at D.verdict at.now) frames.old.items cluster i }
    ensures renewed { IsClusterRenewed (setting_at D.verdict at.now) cluster (length frames.new.items) frames.old.items frames.new.items }
    ensures apart { (j : ℕ) → j < length at.now.plan.now.clusters → j ≢ cluster → IsAlikeIn at.now.plan.now j frames.old.items frames.new.items }
    ensures asked { work.new.asked ≤ work.old.asked + naming_count at.now.plan.now (drop from (map queued_of frames.old.items)) cluster }
    ensures grows { work.old.asked ≤ work.new.asked }
    ensures told { work.new.told ≡ work.old.told }
{
    // one row for all frames, since every row of the cluster is as long
    let mut row = RowValues::zeros(at.plan.members(cluster).len());
    for place in from..frames.len() {
        if !renew_at(frames, place, at, cluster, &mut row, work) {
            return;
        }
    }
}

// Renews some clusters in all frames from a place on, where all else is right already. Then all is.
pub(crate) fn rejudge_clusters<D: Driver>(
    frames: &mut Vec<Frame>,
    from: usize,
    at: &Moment<D>,
    clusters: &[u32],
    work: &mut Work,
)
    requires clusters { All (λ k. k < length at.now.plan.now.clusters) clusters.now }
    requires from { from ≤ length frames.old.items }
    requires ready { AreReady (setting_at D.verdict at.now) from clusters.now frames.old.items }
    ensures frames { board_seen frames.new.items ≡ board_at D.verdict at.now (map queued_of frames.old.items) }
    ensures asked { work.new.asked ≤ work.old.asked + named_by_frames at.now.plan.now (drop from (map queued_of frames.old.items)) clusters.now }
    ensures grows { work.old.asked ≤ work.new.asked }
    ensures told { work.new.told ≡ work.old.told }
{
    for &cluster in clusters {
        rejudge_cluster(frames, from, at, cluster, work);
    }
}

// Renews a cluster in all frames from a place on, where it is right before that.
fn rejudge_cluster<D: Driver>(
    frames: &mut Vec<Frame>,
    from: usize,
    at: &Moment<D>,
    cluster: u32,
    work: &mut Work,
)
    requires cluster { cluster < length at.now.plan.now.clusters }
    requires from { from ≤ length frames.old.items }
    requires frames { AreKeptFrames at.now.plan.now frames.old.items }
    requires before { (i : ℕ) → i < from → i < length frames.old.items → IsRightAt (setting_at D.verdict at.now) frames.old.items cluster i }
    ensures renewed { IsClusterRenewed (setting_at D.verdict at.now) cluster (length frames.new.items) frames.old.items frames.new.items }
    ensures asked { work.new.asked ≤ work.old.asked + naming_count at.now.plan.now (drop from (map queued_of frames.old.items)) cluster }
    ensures grows { work.old.asked ≤ work.new.asked }
    ensures told { work.new.told ≡ work.old.told }
{
    // one row for all frames, since every row of the cluster is as long
    let mut row = RowValues::zeros(at.plan.members(cluster).len());
    for place in from..frames.len() {
        let _ = renew_at(frames, place, at, cluster, &mut row, work);
    }
}

// Renews a cluster of the frame at a place, over the values before it as they are. Only where it has a member among the frame's pairs, and isn't refused, does it get a row
// that was settled, where another of the cluster stands; else it has the row of the values before the frame. It answers whether the frame had another row, or was refused
// where it isn't, or not where it is.
fn renew_at<D: Driver>(
    frames: &mut Vec<Frame>,
    place: usize,
    at: &Moment<D>,
    cluster: u32,
    row: &mut RowValues,
    work: &mut Work,
) -> bool
    requires cluster { cluster < length at.now.plan.now.clusters }
    requires frames { AreKeptFrames at.now.plan.now frames.old.items }
    requires place { place < length frames.old.items }
    requires row { length row.old ≡ length (members at.now.plan.now cluster) }
    ensures frames { frames.new.items ≡ renewed_at (setting_at D.verdict at.now) cluster place frames.old.items }
    ensures asked { work.new.asked ≤ work.old.asked + cond (is_touched (frame_at frames.old.items place).asked (members at.now.plan.now cluster)) 1 0 }
    ensures grows { work.old.asked ≤ work.new.asked }
    ensures told { work.new.told ≡ work.old.told }
    ensures changed { result ≡ not (is_same_outcome (row_of (frame_at frames.old.items place).values (members at.now.plan.now cluster)) (list_any (nat_eq cluster) (frame_at frames.old.items place).refused)
        (row_over (setting_at D.verdict at.now) (base_at (setting_at D.verdict at.now) frames.old.items place) (frame_at frames.old.items place).asked cluster)
        (is_err (row_result (setting_at D.verdict at.now) (base_at (setting_at D.verdict at.now) frames.old.items place) (frame_at frames.old.items place).asked cluster))) }
    ensures long { length row.new ≡ length (members at.now.plan.now cluster) }
{
    let base = values_before(frames.as_slice(), place, at.values);
    let asked = frames[place].asked();
    let over = Moment {
        plan: at.plan,
        ranges: at.ranges,
        values: base,
        grabs: at.grabs,
    };
    match row_after(&over, asked, cluster, row, work) {
        Ok(true) => write_at(frames, place, at.plan, cluster, row),
        Ok(false) => keep_at(frames, place, at, cluster, false),
        Err(_) => keep_at(frames, place, at, cluster, true),
    }
}

// Gives a cluster of the frame at a place a row that was settled, and has it not refused, where it isn't so; answers whether it wasn't.
fn write_at<D: Driver>(
    frames: &mut Vec<Frame>,
    place: usize,
    plan: &Plan<D>,
    cluster: u32,
    row: &RowValues,
) -> bool
    requires place { place < length frames.old.items }
    requires values { length (frame_at frames.old.items place).values ≡ length plan.now.controls }
    requires cluster { cluster < length plan.now.clusters }
    requires row { length row.now ≡ length (members plan.now cluster) }
    requires room { length (with_or_without cluster false (frame_at frames.old.items place).refused) ≤ length (frame_at frames.old.items place).named }
    ensures changed { result ≡ not (is_same_outcome (row_of (frame_at frames.old.items place).values (members plan.now cluster)) (list_any (nat_eq cluster) (frame_at frames.old.items place).refused) row.now false) }
    ensures frames { frames.new.items ≡ slice_set frames.old.items place (cond result (with_row_result plan.now cluster row.now false (frame_at frames.old.items place)) (frame_at frames.old.items place)) }
{
    let frame = &mut frames[place];
    frame.replace_row(plan, cluster, row)
}

// Gives a cluster of the frame at a place the row of the values before it, and has it refused or not, where it isn't so; answers whether it wasn't.
fn keep_at<D: Driver>(
    frames: &mut Vec<Frame>,
    place: usize,
    at: &Moment<D>,
    cluster: u32,
    is_refused: bool,
) -> bool
    requires place { place < length frames.old.items }
    requires frames { AreKeptFrames at.now.plan.now frames.old.items }
    requires cluster { cluster < length at.now.plan.now.clusters }
    requires room { length (with_or_without cluster is_refused (frame_at frames.old.items place).refused) ≤ length (frame_at frames.old.items place).named }
    ensures changed { result ≡ not (is_same_outcome (row_of (frame_at frames.old.items place).values (members at.now.plan.now cluster)) (list_any (nat_eq cluster) (frame_at frames.old.items place).refused) (row_of (values_before at.now.values.now frames.old.items place) (members at.now.plan.now cluster)) is_refused) }
    ensures frames { frames.new.items ≡ slice_set frames.old.items place (cond result (with_row_result at.now.plan.now cluster (row_of (values_before at.now.values.now frames.old.items place) (members at.now.plan.now cluster)) is_refused (frame_at frames.old.items place)) (frame_at frames.old.items place)) }
{
    if is_kept_at(frames.as_slice(), place, at, cluster, is_refused) {
        return false;
    }
    copy_before(frames, place, at.values, at.plan.members(cluster));
    let frame = &mut frames[place];
    frame.set_refused(cluster, is_refused);
    true
}

// Whether a cluster of the frame at a place has the row of the values before it, and is refused where it is to be.
fn is_kept_at<D: Driver>(
    frames: &[Frame],
    place: usize,
    at: &Moment<D>,
    cluster: u32,
    is_refused: bool,
) -> bool
    requires place { place < length frames.now }
    requires frames { AreKeptFrames at.now.plan.now frames.now }
    requires cluster { cluster < length at.now.plan.now.clusters }
    ensures { result ≡ is_same_outcome (row_of (frame_at frames.now place).values (members at.now.plan.now cluster)) (list_any (nat_eq cluster) (frame_at frames.now place).refused) (row_of (values_before at.now.values.now frames.now place) (members at.now.plan.now cluster)) is_refused }
{
    let base = values_before(frames, place, at.values);
    frames[place].has_values_of(at.plan, cluster, base, is_refused)
}

// Gives members in the frame at a place the values that they have before it.
fn copy_before(frames: &mut Vec<Frame>, place: usize, values: &[CtrlValue], members: &[u32])
    requires place { place < length frames.old.items }
    requires own { All (λ c. c < length (frame_at frames.old.items place).values) members.now }
    requires before { All (λ c. c < length (values_before values.now frames.old.items place)) members.now }
    ensures { frames.new.items ≡ slice_set frames.old.items place (record (frame_at frames.old.items place) { values = with_row (frame_at frames.old.items place).values members.now (row_of (values_before values.now frames.old.items place) members.now) }) }
{
    for &member in members {
        copy_one_before(frames, place, values, member);
    }
}

// Gives a member in the frame at a place the value that it has before it.
fn copy_one_before(frames: &mut Vec<Frame>, place: usize, values: &[CtrlValue], member: u32)
    requires place { place < length frames.old.items }
    requires own { member < length (frame_at frames.old.items place).values }
    requires before { member < length (values_before values.now frames.old.items place) }
    ensures { frames.new.items ≡ slice_set frames.old.items place (record (frame_at frames.old.items place) { values = slice_set (frame_at frames.old.items place).values member (value_at (values_before values.now frames.old.items place) member) }) }
{
    let value = values_before(frames.as_slice(), place, values)[member as usize];
    let frame = &mut frames[place];
    frame.set_value(member, value);
}

// The values before the frame at a place.
fn values_before<'a>(frames: &'a [Frame], place: usize, values: &'a [CtrlValue]) -> &'a [CtrlValue]
    requires { place < length frames.now }
    ensures { result.now ≡ values_before values.now frames.now place }
{
    if place == 0 {
        values
    } else {
        frames[place - 1].values()
    }
}
